// Rows of items, and the words that may stand at their binders.
ghost use Rattle.std.specs.Prelude.{◌≡◌, ◌↔◌, ◌⊎◌, ◌+◌, ◌<◌, ◌≤◌, ℕ, List, IsTrue, IfOk, OnOk, [], ◌∷◌, ◌++◌, map, length, drop, false};
ghost use Rattle.binding_terms.specs.Signature.{binders};
ghost use Rattle.scheme_terms.specs.SchemeTree.{Parts};
ghost use Rattle.rule_schemes.specs.Reading.{Variable, ReadsItems};
ghost use Rattle.form_cells.specs.Cells.{range_of};
ghost use Rattle.std.specs.List.{AllByRecursion};
ghost use Rattle.binding_terms.specs.declared.grammar.Item.{Item};
ghost use Rattle.form_cells.specs.Words.{AreOwn, AreComplete};

use crate::sheet::Sheet;
use crate::variables::{Meaning, Var};
use crate::words::{is_binder, is_terminal};
use binding_terms::{CatId, Item, NoMemory, ProdId};
use sqlite_items::Items;
use std::alloc::Global;

/// A row of items: the number that its readings have as an alternative, their production, the variables that its slots list by
/// number, the words at its binders, and the items.
#[derive(Clone, Copy)]
pub struct Form<'s, 'a> {
    pub alternative: usize,
    pub prod: ProdId,
    pub own: &'s [Var<'a>],
    pub words: &'s [Var<'a>],
    pub items: &'a [Item],
}

/// Whether the items from one on may take a range: each takes a token at least, and a terminal takes its own.
pub(crate) fn may_go_on(
    sheet: &Sheet<'_>,
    items: &[Item],
    at: usize,
    from: usize,
    to: usize,
) -> bool
    requires items { at ≤ length items.now }
    requires range { (from ≤ to) × (to ≤ length sheet.now.tokens.now) }
    ensures { (result ≡ false) → (vars own : List Variable) (words : List (List ℕ)) (xs : Parts)
        → ReadsItems sheet.now.sig.now sheet.now.metas.now vars own words (drop at items.now) (range_of sheet.now from to) xs → ⊥ }
{
    if to - from < items.len() - at {
        return false;
    }
    if at == items.len() {
        return from == to;
    }
    match &items[at] {
        Item::Word { text, quoted: _ } => is_terminal(text.bytes(), &sheet.tokens[from]),
        _ => true,
    }
}

/// Whether the tokens are all taken where no item is left.
fn no_words<'a>(alloc: Global) -> Result<Items<Items<Var<'a>>>, NoMemory>
    ensures { IfOk result (λ all. all ≡ [] ∷ []) }
{
    let mut all = Items::new(alloc);
    all.push(Items::new(alloc))?;
    Ok(all)
}

/// Adds the first word before each of the lists.
fn add_before<'a>(
    alloc: Global,
    all: &mut Items<Items<Var<'a>>>,
    first: &Var<'a>,
    more: &[Items<Var<'a>>],
) -> Result<(), NoMemory>
    ensures { OnOk result (all.new ≡ all.old ++ map (λ own. first.now ∷ own) more.now) }
{
    for rest in more {
        let mut own = Items::new(alloc);
        own.push(*first)?;
        own.append(Items::from_slice(alloc, rest.as_slice())?)?;
        all.push(own)?;
    }
    Ok(())
}

/// The words that may stand at the binders of the items from one on, anywhere in a range: all lists with which the items can be read.
#[cycle(words)]
pub fn words_at<'a>(
    alloc: Global,
    sheet: &Sheet<'a>,
    items: &[Item],
    at: usize,
    from: usize,
    to: usize,
) -> Result<Items<Items<Var<'a>>>, NoMemory>
    requires items { at ≤ length items.now }
    requires range { (from ≤ to) × (to ≤ length sheet.now.tokens.now) }
    ensures own { IfOk result (λ all. AllByRecursion (AreOwn (binders (drop at items.now))) all) }
    ensures complete { IfOk result (λ all. AreComplete sheet.now (drop at items.now) from to all) }
{
    if at == items.len() {
        return no_words(alloc);
    }
    match &items[at] {
        Item::Binder(cat) => binder_words(alloc, sheet, *cat, items, at + 1, from, to),
        Item::Word { text: _, quoted: _ } => words_at(alloc, sheet, items, at + 1, from, to),
        Item::Slot { cat: _, binds: _ } => words_at(alloc, sheet, items, at + 1, from, to),
    }
}

/// The words that may stand at a binder of the category and at those of the items from one on.
#[cycle(words)]
fn binder_words<'a>(
    alloc: Global,
    sheet: &Sheet<'a>,
    cat: CatId,
    items: &[Item],
    at: usize,
    from: usize,
    to: usize,
) -> Result<Items<Items<Var<'a>>>, NoMemory>
    requires items { at ≤ length items.now }
    requires range { (from ≤ to) × (to ≤ length sheet.now.tokens.now) }
    ensures own { IfOk result (λ all. AllByRecursion (AreOwn (binders (Item.Binder cat ∷ drop at items.now))) all) }
    ensures complete { IfOk result (λ all. AreComplete sheet.now (Item.Binder cat ∷ drop at items.now) from to all) }
{
    let mut all = Items::new(alloc);
    for place in from..to {
        if is_binder(sheet.sig, cat.0 as usize, &sheet.tokens[place]) {
            let more = words_at(alloc, sheet, items, at, place + 1, to)?;
            let first = Var {
                word: sheet.tokens[place].text.as_bytes(),
                cat,
                means: Meaning::Bound,
            };
            add_before(alloc, &mut all, &first, more.as_slice())?;
        }
    }
    Ok(all)
}
