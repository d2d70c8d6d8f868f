// The words that are in scope as variables: those of a scope's variables and those of its known variables.
ghost use Rattle.std.specs.Prelude.{◌≡◌, ◌↔◌, ◌++◌, ◌∷◌, [], IfOk, IsTrue, slice_index, reverse, map};
ghost use Rattle.binding_terms.specs.Signature.{binders};
ghost use Rattle.scheme_terms.specs.Context.{variables};
ghost use Rattle.scheme_terms.specs.View.{known_variable};
ghost use Rattle.rule_schemes.specs.Reading.{known_words, IsKnownNumber};
ghost use Rattle.term_reader.specs.View.{in_scope};
ghost use Rattle.notation_parser.specs.Knowns.{known_texts};

use crate::copies::{text_again, texts_again};
use binding_terms::{CatId, Item, NoMemory, ProdId, Sig, Text, number};
use scheme_terms::KnownDecl;
use sqlite_items::{Items, at};
use std::alloc::Global;
use term_reader::{Meaning, Var};

/// The category of the item where it is a binder, and else the one before.
fn later(cat: CatId, item: &Item) -> CatId
    ensures { result.0 ≡ slice_index (reverse (binders (item.now ∷ [])) ++ cat.0 ∷ []) 0 }
{
    match item {
        Item::Word { text: _, quoted: _ } => cat,
        Item::Slot { cat: _, binds: _ } => cat,
        Item::Binder(own) => *own,
    }
}

/// The category of the last binder, or the first category where there is none.
fn last_binder(items: &[Item]) -> CatId
    ensures { result.0 ≡ slice_index (reverse (binders items.now)) 0 }
{
    let mut cat = CatId(0);
    for item in items {
        cat = later(cat, item);
    }
    cat
}

/// The category of the variable of an entry by the production.
fn variable_of(sig: &Sig, prod: ProdId) -> CatId
    ensures { result.0 ≡ slice_index (variables sig.now prod.0) 0 }
{
    match at(sig.prods().as_slice(), prod.0 as usize) {
        Some(found) => last_binder(found.items.as_slice()),
        None => CatId(0),
    }
}

/// The variables of known variables, the innermost last.
pub fn known_variables<'a>(
    alloc: Global,
    sig: &Sig,
    knowns: &'a [KnownDecl],
) -> Result<Items<Var<'a>>, NoMemory>
    ensures { IfOk result (λ all. in_scope all ≡ known_words sig.now 0 (map known_variable knowns.now)) }
{
    let mut all = Items::new(alloc);
    let mut left = knowns.len();
    while left > 0 {
        left -= 1;
        let known = &knowns[left];
        all.push(Var {
            word: known.name.bytes(),
            cat: variable_of(sig, known.entry.prod),
            means: Meaning::Entry(number(left)?),
        })?;
    }
    Ok(all)
}

/// The words of a scope's variables, and then those of its known variables.
pub fn all_words(
    alloc: Global,
    sig: &Sig,
    words: &[(Text, CatId)],
    knowns: &[KnownDecl],
) -> Result<Items<(Text, CatId)>, NoMemory>
    ensures { IfOk result (λ all. all ≡ words.now ++ known_texts sig.now (map known_variable knowns.now)) }
{
    let mut all = texts_again(alloc, words)?;
    for known in knowns {
        let cat = variable_of(sig, known.entry.prod);
        all.push((text_again(alloc, &known.name)?, cat))?;
    }
    Ok(all)
}

/// The variables that are in scope in a term: a scope's own stand before its known variables.
pub fn with_knowns<'a>(
    alloc: Global,
    own: &[Var<'a>],
    knowns: &[Var<'a>],
) -> Result<Items<Var<'a>>, NoMemory>
    ensures { IfOk result (λ all. in_scope all ≡ in_scope own.now ++ in_scope knowns.now) }
{
    let mut all = Items::from_slice(alloc, knowns)?;
    all.append(Items::from_slice(alloc, own)?)?;
    Ok(all)
}

fn has_name(known: &KnownDecl, name: &[u8]) -> bool
    ensures { IsTrue result ↔ (known.now.name ≡ name.now) }
{
    known.name.bytes() == name
}

/// The number of the known variable with that name, or else the next one.
pub fn known_number(knowns: &[KnownDecl], name: &[u8]) -> usize
    ensures { IsKnownNumber (map known_variable knowns.now) name.now result }
{
    for i in 0..knowns.len() {
        if has_name(&knowns[i], name) {
            return i;
        }
    }
    knowns.len()
}
