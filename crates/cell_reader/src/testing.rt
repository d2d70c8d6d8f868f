// What items, tokens and variables are tested for.
ghost use Rattle.std.specs.Prelude.{◌≡◌, ◌↔◌, ◌≤◌, ℕ, List, IsTrue, [], ◌∷◌, length, drop};
ghost use Rattle.std.specs.List.{list_all};
ghost use Rattle.binding_terms.specs.Signature.{binders, is_word};
ghost use Rattle.form_cells.specs.View.{variable, in_scope};
ghost use Rattle.form_cells.specs.Cells.{range_of};
ghost use Rattle.cell_reader.specs.Contexts.{IsEntryOver, IsCategoryName};

use binding_terms::{CatId, Item};
use form_cells::{Meaning, Sheet, Var, is_word};
use sqlite_items::at;

fn is_terminal(item: &Item) -> bool
    ensures { result ≡ is_word item.now }
{
    match item {
        Item::Word { text: _, quoted: _ } => true,
        Item::Slot { cat: _, binds: _ } => false,
        Item::Binder(_) => false,
    }
}

/// Whether the items are terminals alone.
pub(crate) fn are_terminals(items: &[Item]) -> bool
    ensures { IsTrue result ↔ IsTrue (list_all is_word items.now) }
{
    for item in items {
        if !is_terminal(item) {
            return false;
        }
    }
    true
}

fn no_binder(items: &[Item], at: usize) -> bool
    requires { at ≤ length items.now }
    ensures { IsTrue result ↔ (binders (drop at items.now) ≡ []) }
{
    for i in at..items.len() {
        if let Item::Binder(_) = &items[i] {
            return false;
        }
    }
    true
}

/// Whether the items from one on have one binder, and it is of the category.
fn one_binder(items: &[Item], at: usize, cat: CatId) -> bool
    requires { at ≤ length items.now }
    ensures { IsTrue result ↔ (binders (drop at items.now) ≡ cat.0 ∷ []) }
{
    for i in at..items.len() {
        if let Item::Binder(own) = &items[i] {
            return own.0 == cat.0 && no_binder(items, i + 1);
        }
    }
    false
}

fn is_slot_of(cat: CatId, item: &Item) -> bool
    ensures { IsTrue result ↔ ((id : CatId) × (binds : List ℕ) × (item.now ≡ Item.Slot id binds) × (id.0 ≡ cat.0)) }
{
    match item {
        Item::Word { text: _, quoted: _ } => false,
        Item::Slot { cat: own, binds: _ } => own.0 == cat.0,
        Item::Binder(_) => false,
    }
}

/// Whether the items are those of an entry over a context of the category, with one binder of the other category.
pub(crate) fn is_entry(items: &[Item], context: CatId, binder: CatId) -> bool
    ensures { IsTrue result ↔ IsEntryOver context.0 binder.0 items.now }
{
    if items.len() == 0 {
        return false;
    }
    is_slot_of(context, &items[0]) && one_binder(items, 1, binder)
}

/// Whether the tokens are the exact name of the category.
pub(crate) fn is_category_name(sheet: &Sheet<'_>, cat: CatId, from: usize, to: usize) -> bool
    requires { (from ≤ to) × (to ≤ length sheet.now.tokens.now) }
    ensures { IsTrue result ↔ IsCategoryName sheet.now.sig.now cat.0 (range_of sheet.now from to) }
{
    if to - from != 1 {
        return false;
    }
    match at(sheet.sig.cats().as_slice(), cat.0 as usize) {
        Some(found) => is_word(found.name.bytes(), &sheet.tokens[from]),
        None => false,
    }
}

fn same_meaning(one: Meaning, other: Meaning) -> bool
    ensures { IsTrue result ↔ (one ≡ other) }
{
    one == other
}

fn same_variable(one: &Var<'_>, other: &Var<'_>) -> bool
    ensures { IsTrue result ↔ (variable one.now ≡ variable other.now) }
{
    one.cat.0 == other.cat.0 && same_meaning(one.means, other.means) && one.word == other.word
}

/// Whether the variables in scope are the same.
pub(crate) fn same_scope(one: &[Var<'_>], other: &[Var<'_>]) -> bool
    ensures { IsTrue result ↔ (in_scope one.now ≡ in_scope other.now) }
{
    if one.len() != other.len() {
        return false;
    }
    for i in 0..one.len() {
        if !same_variable(&one[i], &other[i]) {
            return false;
        }
    }
    true
}
