// Names, contexts and known variables once more.
ghost use Rattle.std.specs.Prelude.{◌≡◌, IfOk, map};
ghost use Rattle.scheme_terms.specs.View.{scheme_entry, scheme_context, known_variable};

use binding_terms::{CatId, NoMemory, Text};
use scheme_terms::{KnownDecl, SCtx, SEntry, copy_entry};
use sqlite_items::Items;
use std::alloc::Global;

pub fn text_again(alloc: Global, text: &Text) -> Result<Text, NoMemory>
    ensures { IfOk result (λ new. new ≡ text.now) }
{
    let mut new = Text::new(alloc);
    new.push(text.bytes())?;
    Ok(new)
}

#[tactic(auto, using(std::proofs::lemmas::List::take_all))]
pub fn texts_again(alloc: Global, words: &[(Text, CatId)]) -> Result<Items<(Text, CatId)>, NoMemory>
    ensures { IfOk result (λ all. all ≡ words.now) }
{
    let mut all = Items::new(alloc);
    for one in words {
        all.push((text_again(alloc, &one.0)?, one.1))?;
    }
    Ok(all)
}

#[tactic(auto, using(std::proofs::lemmas::List::take_all))]
fn entries_again(alloc: Global, entries: &[SEntry]) -> Result<Items<SEntry>, NoMemory>
    ensures { IfOk result (λ all. map scheme_entry all ≡ map scheme_entry entries.now) }
{
    let mut all = Items::new(alloc);
    for entry in entries {
        all.push(copy_entry(alloc, entry)?)?;
    }
    Ok(all)
}

pub fn context_again(alloc: Global, ctx: &SCtx) -> Result<SCtx, NoMemory>
    ensures { IfOk result (λ new. scheme_context new ≡ scheme_context ctx.now) }
{
    Ok(SCtx {
        root: ctx.root,
        entries: entries_again(alloc, ctx.entries.as_slice())?,
    })
}

pub fn known_again(alloc: Global, known: &KnownDecl) -> Result<KnownDecl, NoMemory>
    ensures { IfOk result (λ new. known_variable new ≡ known_variable known.now) }
{
    Ok(KnownDecl {
        name: text_again(alloc, &known.name)?,
        entry: copy_entry(alloc, &known.entry)?,
    })
}

#[tactic(auto, using(std::proofs::lemmas::List::take_all))]
pub fn knowns_again(alloc: Global, knowns: &[KnownDecl]) -> Result<Items<KnownDecl>, NoMemory>
    ensures { IfOk result (λ all. map known_variable all ≡ map known_variable knowns.now) }
{
    let mut all = Items::new(alloc);
    for known in knowns {
        all.push(known_again(alloc, known)?)?;
    }
    Ok(all)
}
