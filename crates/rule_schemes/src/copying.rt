ghost use Rattle.std.specs.Prelude.{◌≡◌, IfOk, map};
ghost use Rattle.scheme_terms.specs.View.{scheme_entry, scheme_context};
ghost use Rattle.rule_schemes.specs.View.{judgment_scheme};

use crate::rule::JScheme;
use binding_terms::NoMemory;
use scheme_terms::{SCtx, SEntry, copy_entry, copy_values};
use sqlite_items::Items;
use std::alloc::Global;

#[tactic(auto, using(std::proofs::lemmas::List::take_all))]
fn copy_entries(alloc: Global, entries: &[SEntry]) -> Result<Items<SEntry>, NoMemory>
    ensures { IfOk result (λ all. map scheme_entry all ≡ map scheme_entry entries.now) }
{
    let mut all = Items::new(alloc);
    for entry in entries {
        all.push(copy_entry(alloc, entry)?)?;
    }
    Ok(all)
}

/// The same context again.
fn copy_context(alloc: Global, ctx: &SCtx) -> Result<SCtx, NoMemory>
    ensures { IfOk result (λ new. scheme_context new ≡ scheme_context ctx.now) }
{
    Ok(SCtx {
        root: ctx.root,
        entries: copy_entries(alloc, ctx.entries.as_slice())?,
    })
}

/// The same judgment again.
pub fn copy_judgment(alloc: Global, j: &JScheme) -> Result<JScheme, NoMemory>
    ensures { IfOk result (λ new. judgment_scheme new ≡ judgment_scheme j.now) }
{
    let ctx = copy_context(alloc, &j.ctx)?;
    let args = copy_values(alloc, j.args.as_slice())?;
    Ok(JScheme {
        judgment: j.judgment,
        ctx,
        args,
    })
}
