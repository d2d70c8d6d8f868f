// How the arguments of a metavariable are split over a range of tokens: `t[a][b]` is `t[a, b]`.
ghost use Rattle.std.specs.Prelude.{◌≡◌, ◌↔◌, ◌≤◌, ◌<◌, ◌+◌, IsTrue, IfOk, Some, map, length, drop, slice_get};
ghost use Rattle.rule_schemes.specs.Reading.{punctuation};
ghost use Rattle.term_reader.specs.Splitting.{IsSheet, tokens_of, Stands, IsBracketed, AreArguments, GoesOn, AreSplits, split};

use crate::sheet::Sheet;
use crate::splitting::{Split, add_before, end_split, slot_alone};
use binding_terms::{CatId, NoMemory};
use sqlite_items::Items;
use std::alloc::Global;

/// Whether the last bracket closes there.
fn closes_last(sheet: &Sheet<'_>, end: usize, to: usize) -> bool
    requires { (end < to) × (to ≤ length sheet.now.tokens.now) }
    ensures { IsTrue result ↔ ((slice_get (tokens_of sheet.now) end ≡ Some (punctuation 93)) × (end + 1 ≡ to)) }
{
    sheet.has(b']', end) && end + 1 == to
}

/// Whether brackets close there and open again.
fn opens_again(sheet: &Sheet<'_>, end: usize, to: usize) -> bool
    requires { (end < to) × (to ≤ length sheet.now.tokens.now) }
    ensures { IsTrue result
        ↔ ((slice_get (tokens_of sheet.now) end ≡ Some (punctuation 93)) × (end + 1 < to)
        × (slice_get (tokens_of sheet.now) (end + 1) ≡ Some (punctuation 91))) }
{
    sheet.has(b']', end) && end + 1 < to && sheet.has(b'[', end + 1)
}

/// The splits of brackets with arguments of these categories.
pub fn bracket_splits<'a>(
    alloc: Global,
    sheet: &Sheet<'a>,
    params: &'a [CatId],
    from: usize,
    to: usize,
) -> Result<Items<Split<'a>>, NoMemory>
    requires sheet { IsSheet sheet.now }
    requires range { (from ≤ to) × (to ≤ length sheet.now.tokens.now) }
    ensures { IfOk result
        (λ all. AreSplits (Stands sheet.now) (IsBracketed (tokens_of sheet.now) to params.now from) (map split all)) }
{
    if params.len() == 0 {
        return end_split(alloc, from == to);
    }
    if from == to {
        return Ok(Items::new(alloc));
    }
    if !sheet.has(b'[', from) {
        return Ok(Items::new(alloc));
    }
    argument_splits(alloc, sheet, params, 0, from + 1, to)
}

/// The splits of the arguments from the one at `at` on.
#[cycle(brackets)]
fn argument_splits<'a>(
    alloc: Global,
    sheet: &Sheet<'a>,
    params: &'a [CatId],
    at: usize,
    from: usize,
    to: usize,
) -> Result<Items<Split<'a>>, NoMemory>
    requires sheet { IsSheet sheet.now }
    requires params { at < length params.now }
    requires range { (from ≤ to) × (to ≤ length sheet.now.tokens.now) }
    ensures { IfOk result
        (λ all. AreSplits (Stands sheet.now) (AreArguments (tokens_of sheet.now) to (drop at params.now) from) (map split all)) }
{
    let mut all = Items::new(alloc);
    let cat = params[at];
    for end in from..to {
        if sheet.may(cat, from, end) {
            let more = after_argument(alloc, sheet, params, at + 1, end, to)?;
            let first = slot_alone(alloc, cat, &[], from, end)?;
            add_before(alloc, &mut all, &first, more.as_slice())?;
        }
    }
    Ok(all)
}

/// The splits of what follows an argument that ends there: the arguments from the one at `at` on, or the last bracket.
#[cycle(brackets)]
fn after_argument<'a>(
    alloc: Global,
    sheet: &Sheet<'a>,
    params: &'a [CatId],
    at: usize,
    end: usize,
    to: usize,
) -> Result<Items<Split<'a>>, NoMemory>
    requires sheet { IsSheet sheet.now }
    requires params { at ≤ length params.now }
    requires range { (end < to) × (to ≤ length sheet.now.tokens.now) }
    ensures { IfOk result
        (λ all. AreSplits (Stands sheet.now) (GoesOn (tokens_of sheet.now) to (drop at params.now) end) (map split all)) }
{
    if at == params.len() {
        return end_split(alloc, closes_last(sheet, end, to));
    }
    if sheet.has(b',', end) {
        return argument_splits(alloc, sheet, params, at, end + 1, to);
    }
    if opens_again(sheet, end, to) {
        return argument_splits(alloc, sheet, params, at, end + 1 + 1, to);
    }
    Ok(Items::new(alloc))
}
