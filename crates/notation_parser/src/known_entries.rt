// The shapes of contexts that write a known variable: a new one in the head of a case, and one of the scope elsewhere.
ghost use Rattle.std.specs.Prelude.{◌≡◌, ◌↔◌, ◌<◌, ◌≤◌, ◌+◌, IfOk, IsTrue, map, drop, length};
ghost use Rattle.term_reader.specs.Splitting.{IsSheet, tokens_of};
ghost use Rattle.notation_parser.specs.Shapes.{IsScopeKnown, KnownsApart, context_shape};
ghost use Rattle.notation_parser.specs.ContextCases.{BeginsNewly, IsKnownEntryOf, IsKnownBy, IsKnownBelow, IsEntryOver, AreListed};
ghost use Rattle.notation_parser.specs.View.{reading_scope};

use crate::heads::{is_head, new_of_each};
use crate::scope_entries::scope_of_each;
use crate::shaping::{Shape, is_entry};
use crate::spelling::is_other_spelling;
use binding_terms::{CatId, Item, NoMemory, ProdId, number};
use rule_schemes::ReadScope;
use sqlite_items::Items;
use std::alloc::Global;
use term_reader::{Sheet, is_any_word, splits};

/// Whether the first token is a spelling of the category with a digit or prime.
fn begins_newly(sheet: &Sheet<'_>, cat: CatId, from: usize, to: usize) -> bool
    requires { (from ≤ to) × (to ≤ length sheet.now.tokens.now) }
    ensures { IsTrue result ↔ BeginsNewly sheet.now.sig.now cat.0 (tokens_of sheet.now) from to }
{
    if from == to {
        return false;
    }
    is_any_word(&sheet.tokens[from])
        && is_other_spelling(sheet.sig, cat, sheet.tokens[from].text.as_bytes())
}

/// The shapes with an entry of the production behind the first token, whose items are those behind the context's slot.
fn entry_shapes<'a>(
    alloc: Global,
    sheet: &Sheet<'a>,
    scope: &ReadScope,
    cat: CatId,
    prod: ProdId,
    items: &'a [Item],
    from: usize,
    to: usize,
) -> Result<Items<Shape<'a>>, NoMemory>
    requires sheet { IsSheet sheet.now }
    requires scope { IsScopeKnown sheet.now (reading_scope scope.now) }
    requires apart { KnownsApart (reading_scope scope.now).names.knowns }
    requires entry { IsEntryOver cat.0 items.now }
    requires range { (from < to) × (to ≤ length sheet.now.tokens.now) }
    ensures { IfOk result
        (λ all. AreListed sheet.now (reading_scope scope.now) cat
        (IsKnownEntryOf sheet.now.sig.now (reading_scope scope.now) sheet.now.metas.now cat (tokens_of sheet.now) from to prod.0 (drop 1 items.now))
        (map context_shape all)) }
{
    let found = splits(alloc, sheet, items, 1, from + 1, to)?;
    if is_head(scope.fresh) {
        return new_of_each(alloc, scope, prod, found.as_slice());
    }
    scope_of_each(alloc, scope.scope.knowns.as_slice(), prod, found.as_slice())
}

/// The shapes with an entry of the production with that number, where it is of the category.
fn known_shapes_by<'a>(
    alloc: Global,
    sheet: &Sheet<'a>,
    scope: &ReadScope,
    cat: CatId,
    p: usize,
    from: usize,
    to: usize,
) -> Result<Items<Shape<'a>>, NoMemory>
    requires sheet { IsSheet sheet.now }
    requires scope { IsScopeKnown sheet.now (reading_scope scope.now) }
    requires apart { KnownsApart (reading_scope scope.now).names.knowns }
    requires prod { p < length sheet.now.sig.now.prods }
    requires range { (from < to) × (to ≤ length sheet.now.tokens.now) }
    ensures { IfOk result
        (λ all. AreListed sheet.now (reading_scope scope.now) cat
        (IsKnownBy sheet.now.sig.now (reading_scope scope.now) sheet.now.metas.now cat (tokens_of sheet.now) from to p) (map context_shape all)) }
{
    let prod = &sheet.sig.prods()[p];
    if prod.cat.0 != cat.0 {
        return Ok(Items::new(alloc));
    }
    let items = prod.items.as_slice();
    if !is_entry(items, cat) {
        return Ok(Items::new(alloc));
    }
    let id = ProdId(number(p)?);
    entry_shapes(alloc, sheet, scope, cat, id, items, from, to)
}

/// The shapes by a known variable that the context writes.
pub fn known_shapes<'a>(
    alloc: Global,
    sheet: &Sheet<'a>,
    scope: &ReadScope,
    cat: CatId,
    from: usize,
    to: usize,
) -> Result<Items<Shape<'a>>, NoMemory>
    requires sheet { IsSheet sheet.now }
    requires scope { IsScopeKnown sheet.now (reading_scope scope.now) }
    requires apart { KnownsApart (reading_scope scope.now).names.knowns }
    requires range { (from ≤ to) × (to ≤ length sheet.now.tokens.now) }
    ensures { IfOk result
        (λ all. AreListed sheet.now (reading_scope scope.now) cat
        (IsKnownBelow (length sheet.now.sig.now.prods) sheet.now.sig.now (reading_scope scope.now) sheet.now.metas.now cat (tokens_of sheet.now) from to)
        (map context_shape all)) }
{
    let mut all = Items::new(alloc);
    if !begins_newly(sheet, cat, from, to) {
        return Ok(all);
    }
    for p in 0..sheet.sig.prods().len() {
        all.append(known_shapes_by(alloc, sheet, scope, cat, p, from, to)?)?;
    }
    Ok(all)
}
