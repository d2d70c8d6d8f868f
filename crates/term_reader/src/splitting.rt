// How the items of a form are split over a range of its tokens. A slot takes only tokens that may read in its category.
ghost use Rattle.std.specs.Prelude.{◌≡◌, ◌≤◌, ◌<◌, ◌+◌, IfOk, OnOk, [], ◌∷◌, ◌++◌, map, length, drop, if◌then◌else◌};
ghost use Rattle.binding_terms.specs.declared.grammar.Item.{Item};
ghost use Rattle.term_reader.specs.Splitting.{IsSheet, tokens_of, Stands, IsSplit, AreSplits, bound_variable, slot_range, split, after};
ghost use Rattle.term_reader.specs.View.{variable};

use crate::chart::is_binder;
use crate::sheet::Sheet;
use crate::variables::{Meaning, Var};
use crate::words::is_terminal;
use binding_terms::{CatId, Item, NoMemory};
use sqlite_items::Items;
use std::alloc::Global;

/// A slot and its tokens: those from the place `from` up to the place `to`.
#[derive(Clone, Copy, Debug)]
pub struct Piece<'a> {
    pub cat: CatId,
    pub binds: &'a [u32],
    pub from: usize,
    pub to: usize,
}

/// The variables that the binders write, and the slots.
#[derive(Drop)]
pub struct Split<'a> {
    pub own: Items<Var<'a>>,
    pub slots: Items<Piece<'a>>,
}

/// The splits of the items from `at` on over the tokens from `from` up to `to`.
#[cycle(splits)]
pub fn splits<'a>(
    alloc: Global,
    sheet: &Sheet<'a>,
    items: &'a [Item],
    at: usize,
    from: usize,
    to: usize,
) -> Result<Items<Split<'a>>, NoMemory>
    requires sheet { IsSheet sheet.now }
    requires items { at ≤ length items.now }
    requires range { (from ≤ to) × (to ≤ length sheet.now.tokens.now) }
    ensures { IfOk result
        (λ all. AreSplits (Stands sheet.now) (IsSplit sheet.now.sig.now (tokens_of sheet.now) to (drop at items.now) from) (map split all)) }
{
    if at == items.len() {
        return end_split(alloc, from == to);
    }
    match &items[at] {
        Item::Word { text, quoted: _ } => {
            if from == to {
                return Ok(Items::new(alloc));
            }
            if !is_terminal(text.bytes(), &sheet.tokens[from]) {
                return Ok(Items::new(alloc));
            }
            splits(alloc, sheet, items, at + 1, from + 1, to)
        }
        Item::Slot { cat, binds } => {
            slot_splits(
                alloc,
                sheet,
                *cat,
                binds.as_slice(),
                items,
                at + 1,
                from,
                to,
            )
        }
        Item::Binder(cat) => binder_splits(alloc, sheet, *cat, items, at + 1, from, to),
    }
}

/// The splits of a slot and the items from `at` on, the shorter slot first.
#[cycle(splits)]
fn slot_splits<'a>(
    alloc: Global,
    sheet: &Sheet<'a>,
    cat: CatId,
    binds: &'a [u32],
    items: &'a [Item],
    at: usize,
    from: usize,
    to: usize,
) -> Result<Items<Split<'a>>, NoMemory>
    requires sheet { IsSheet sheet.now }
    requires items { at ≤ length items.now }
    requires range { (from ≤ to) × (to ≤ length sheet.now.tokens.now) }
    ensures { IfOk result
        (λ all. AreSplits (Stands sheet.now)
        (IsSplit sheet.now.sig.now (tokens_of sheet.now) to (Item.Slot cat binds.now ∷ drop at items.now) from) (map split all)) }
{
    let mut all = Items::new(alloc);
    for end in from + 1..to + 1 {
        if sheet.may(cat, from, end) {
            let more = splits(alloc, sheet, items, at, end, to)?;
            let first = slot_alone(alloc, cat, binds, from, end)?;
            add_before(alloc, &mut all, &first, more.as_slice())?;
        }
    }
    Ok(all)
}

/// The splits of a binder and the items from `at` on.
#[cycle(splits)]
fn binder_splits<'a>(
    alloc: Global,
    sheet: &Sheet<'a>,
    cat: CatId,
    items: &'a [Item],
    at: usize,
    from: usize,
    to: usize,
) -> Result<Items<Split<'a>>, NoMemory>
    requires sheet { IsSheet sheet.now }
    requires items { at ≤ length items.now }
    requires range { (from ≤ to) × (to ≤ length sheet.now.tokens.now) }
    ensures { IfOk result
        (λ all. AreSplits (Stands sheet.now)
        (IsSplit sheet.now.sig.now (tokens_of sheet.now) to (Item.Binder cat ∷ drop at items.now) from) (map split all)) }
{
    let mut all = Items::new(alloc);
    if from == to {
        return Ok(all);
    }
    if !is_binder(sheet.sig, cat.0 as usize, &sheet.tokens[from]) {
        return Ok(all);
    }
    let more = splits(alloc, sheet, items, at, from + 1, to)?;
    let first = binder_alone(alloc, sheet.tokens[from].text.as_bytes(), cat)?;
    add_before(alloc, &mut all, &first, more.as_slice())?;
    Ok(all)
}

/// The split of no item, where all tokens are taken.
pub fn end_split<'a>(alloc: Global, all_taken: bool) -> Result<Items<Split<'a>>, NoMemory>
    ensures { IfOk result (λ all. map split all ≡ (if all_taken then ([], []) ∷ [] else [])) }
{
    let mut all = Items::new(alloc);
    if all_taken {
        all.push(Split {
            own: Items::new(alloc),
            slots: Items::new(alloc),
        })?;
    }
    Ok(all)
}

pub fn slot_alone<'a>(
    alloc: Global,
    cat: CatId,
    binds: &'a [u32],
    from: usize,
    to: usize,
) -> Result<Split<'a>, NoMemory>
    ensures { IfOk result
        (λ new. split new ≡ ([], record { cat = cat; binds = binds.now; from = from; to = to } ∷ [])) }
{
    let mut slots = Items::new(alloc);
    slots.push(Piece {
        cat,
        binds,
        from,
        to,
    })?;
    Ok(Split {
        own: Items::new(alloc),
        slots,
    })
}

fn binder_alone<'a>(alloc: Global, word: &'a [u8], cat: CatId) -> Result<Split<'a>, NoMemory>
    ensures { IfOk result (λ new. split new ≡ (bound_variable word.now cat.0 ∷ [], [])) }
{
    let mut own = Items::new(alloc);
    own.push(Var {
        word,
        cat,
        means: Meaning::Bound,
    })?;
    Ok(Split {
        own,
        slots: Items::new(alloc),
    })
}

fn before<'a>(alloc: Global, first: &Split<'a>, rest: &Split<'a>) -> Result<Split<'a>, NoMemory>
    ensures { IfOk result (λ new. split new ≡ after (split first.now) (split rest.now)) }
{
    let mut own = Items::from_slice(alloc, first.own.as_slice())?;
    own.append(Items::from_slice(alloc, rest.own.as_slice())?)?;
    let mut slots = Items::from_slice(alloc, first.slots.as_slice())?;
    slots.append(Items::from_slice(alloc, rest.slots.as_slice())?)?;
    Ok(Split { own, slots })
}

/// Adds the first split before each of the others.
pub fn add_before<'a>(
    alloc: Global,
    all: &mut Items<Split<'a>>,
    first: &Split<'a>,
    more: &[Split<'a>],
) -> Result<(), NoMemory>
    ensures { OnOk result (map split all.new ≡ map split all.old ++ map (after (split first.now)) (map split more.now)) }
{
    for rest in more {
        all.push(before(alloc, first, rest)?)?;
    }
    Ok(())
}
