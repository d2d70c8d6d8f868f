// The readings of contexts that leave given variables in scope, cell by cell.
ghost use Rattle.std.specs.Prelude.{◌≡◌, ◌<◌, ◌≤◌, ◌+◌, ◌-◌, ℕ, IfOk, OnOk, IsTrue, MatchOption, [], length};
ghost use Rattle.std.specs.List.{list_all};
ghost use Rattle.binding_terms.specs.Signature.{is_word};
ghost use Rattle.rule_schemes.specs.Said.{IsBefore};
ghost use Rattle.ordered_readings.specs.Names.{NamesApart};
ghost use Rattle.ordered_readings.specs.FirstTwo.{AreFirst};
ghost use Rattle.ordered_readings.specs.AnswerView.{answers};
ghost use Rattle.ordered_readings.specs.Cells.{TakesFirst};
ghost use Rattle.form_readings.specs.Forms.{KnownsApart};
ghost use Rattle.form_cells.specs.Cells.{range_of, IsTable};
ghost use Rattle.form_cells.specs.View.{in_scope};
ghost use Rattle.cell_reader.specs.View.{reading_scope};
ghost use Rattle.cell_reader.specs.Contexts.{ReadsContextAs, IsRoot, IsEmptyOf, IsEntryOf, IsEntryOver, IsContextBy};
ghost use Rattle.cell_reader.specs.Outside.{IsOutside, IsInnermost, IsProdOf};

use crate::testing::{are_terminals, is_category_name, is_entry, same_scope};
use binding_terms::{CatId, Item, NoMemory, ProdId, number};
use form_cells::{Form, Meaning, Sheet, Table, Var, at_end, rows};
use ordered_readings::{Answers, Head, is_none, joined, product};
use rule_schemes::ReadScope;
use std::alloc::Global;

/// A category of contexts, with the variables that its empty form leaves in scope, and those that its name does.
#[derive(Clone, Copy, Drop)]
pub struct Outside<'s, 'a> {
    pub scope: &'s ReadScope,
    pub cat: CatId,
    pub knowns: &'s [Var<'a>],
    pub rooted: &'s [Var<'a>],
}

/// The reading as the name of the category.
fn rooted<'a>(
    sheet: &Sheet<'a>,
    outside: &Outside<'_, 'a>,
    vars: &[Var<'a>],
    from: usize,
    to: usize,
) -> Answers
    requires outside { IsOutside sheet.now outside.now }
    requires range { (from ≤ to) × (to ≤ length sheet.now.tokens.now) }
    ensures { AreFirst IsBefore
        (IsRoot sheet.now.sig.now (reading_scope outside.now.scope.now) sheet.now.metas.now outside.now.cat.0 (in_scope vars.now) [] (range_of sheet.now from to))
        (answers result) }
{
    if !is_category_name(sheet, outside.cat, from, to) {
        return Answers::Nothing;
    }
    if !same_scope(vars, outside.rooted) {
        return Answers::Nothing;
    }
    at_end(0, Head::Known(0), true)
}

/// The number that readings by a production have as an alternative: behind the name.
fn alternative(p: usize) -> Result<usize, NoMemory>
    ensures { IfOk result (λ n. n ≡ 1 + p) }
{
    p.checked_add(1).ok_or(NoMemory)
}

/// The reading as the empty form with these items.
fn emptied<'a>(
    alloc: Global,
    table: &mut Table<'a>,
    sheet: &Sheet<'a>,
    outside: &Outside<'_, 'a>,
    vars: &[Var<'a>],
    p: usize,
    items: &'a [Item],
    from: usize,
    to: usize,
) -> Result<Answers, NoMemory>
    requires names { NamesApart sheet.now.metas.now }
    requires outside { IsOutside sheet.now outside.now }
    requires table { IsTable sheet.now table.old }
    requires terminals { IsTrue (list_all is_word items.now) }
    requires range { (from ≤ to) × (to ≤ length sheet.now.tokens.now) }
    ensures first { IfOk result (λ found. AreFirst IsBefore
        (IsEmptyOf sheet.now.sig.now (reading_scope outside.now.scope.now) sheet.now.metas.now p items.now (in_scope vars.now) [] (range_of sheet.now from to))
        (answers found)) }
    ensures table { OnOk result (IsTable sheet.now table.new) }
{
    if !same_scope(vars, outside.knowns) {
        return Ok(Answers::Nothing);
    }
    let alternative = alternative(p)?;
    let form = Form {
        alternative,
        prod: ProdId(number(p)?),
        own: &[],
        words: &[],
        items,
    };
    let found = rows(alloc, table, sheet, &[], &form, 0, from, to)?;
    if is_none(&found) {
        return Ok(Answers::Nothing);
    }
    Ok(at_end(alternative, Head::Local(0), true))
}

/// The category of the innermost variable, where it is a local.
fn innermost_local(vars: &[Var<'_>]) -> Option<CatId>
    ensures { MatchOption result ((cat : ℕ) → IsInnermost cat vars.now → ⊥) (λ cat. IsInnermost cat.0 vars.now) }
{
    if vars.len() == 0 {
        return None;
    }
    match vars[vars.len() - 1].means {
        Meaning::Bound => Some(vars[vars.len() - 1].cat),
        Meaning::Entry(_) => None,
    }
}

/// The readings with an entry that begins at the place, behind a shorter context.
#[cycle(contexts)]
fn entered_at<'a>(
    alloc: Global,
    table: &mut Table<'a>,
    sheet: &Sheet<'a>,
    outside: &Outside<'_, 'a>,
    vars: &[Var<'a>],
    binder: CatId,
    p: usize,
    items: &'a [Item],
    from: usize,
    place: usize,
    to: usize,
) -> Result<Answers, NoMemory>
    requires names { NamesApart sheet.now.metas.now }
    requires apart { KnownsApart (reading_scope outside.now.scope.now).names.knowns }
    requires outside { IsOutside sheet.now outside.now }
    requires table { IsTable sheet.now table.old }
    requires prod { IsProdOf sheet.now.sig.now p outside.now.cat.0 items.now }
    requires innermost { IsInnermost binder.0 vars.now }
    requires entry { IsEntryOver outside.now.cat.0 binder.0 items.now }
    requires range { (from ≤ place) × (place ≤ to) × (to ≤ length sheet.now.tokens.now) }
    ensures first { IfOk result (λ found. AreFirst IsBefore
        (λ w s. IsEntryOf sheet.now.sig.now (reading_scope outside.now.scope.now) sheet.now.metas.now p outside.now.cat.0 items.now (in_scope vars.now) [] (range_of sheet.now from to) w s
        × TakesFirst (place - from) w)
        (answers found)) }
    ensures table { OnOk result (IsTable sheet.now table.new) }
{
    let last = vars.len() - 1;
    let before = &vars[..last];
    let form = Form {
        alternative: alternative(p)?,
        prod: ProdId(number(p)?),
        own: &[],
        words: &vars[last..],
        items,
    };
    let rest = rows(alloc, table, sheet, before, &form, 1, place, to)?;
    if is_none(&rest) {
        return Ok(Answers::Nothing);
    }
    let shorter = context(alloc, table, sheet, outside, before, from, place)?;
    product(alloc, place - from, 0, &shorter, &rest)
}

/// The readings with an entry of the production, that with the shorter context first.
#[cycle(contexts)]
fn entered<'a>(
    alloc: Global,
    table: &mut Table<'a>,
    sheet: &Sheet<'a>,
    outside: &Outside<'_, 'a>,
    vars: &[Var<'a>],
    binder: CatId,
    p: usize,
    items: &'a [Item],
    from: usize,
    to: usize,
) -> Result<Answers, NoMemory>
    requires names { NamesApart sheet.now.metas.now }
    requires apart { KnownsApart (reading_scope outside.now.scope.now).names.knowns }
    requires outside { IsOutside sheet.now outside.now }
    requires table { IsTable sheet.now table.old }
    requires prod { IsProdOf sheet.now.sig.now p outside.now.cat.0 items.now }
    requires innermost { IsInnermost binder.0 vars.now }
    requires entry { IsEntryOver outside.now.cat.0 binder.0 items.now }
    requires range { (from ≤ to) × (to ≤ length sheet.now.tokens.now) }
    ensures first { IfOk result (λ found. AreFirst IsBefore
        (IsEntryOf sheet.now.sig.now (reading_scope outside.now.scope.now) sheet.now.metas.now p outside.now.cat.0 items.now (in_scope vars.now) [] (range_of sheet.now from to))
        (answers found)) }
    ensures table { OnOk result (IsTable sheet.now table.new) }
{
    let mut found = Answers::Nothing;
    for place in from..to + 1 {
        let more = entered_at(
            alloc, table, sheet, outside, vars, binder, p, items, from, place, to,
        )?;
        found = joined(found, more);
    }
    Ok(found)
}

/// The readings by the production with that number, where it is of the category.
#[cycle(contexts)]
fn by_production<'a>(
    alloc: Global,
    table: &mut Table<'a>,
    sheet: &Sheet<'a>,
    outside: &Outside<'_, 'a>,
    vars: &[Var<'a>],
    p: usize,
    from: usize,
    to: usize,
) -> Result<Answers, NoMemory>
    requires names { NamesApart sheet.now.metas.now }
    requires apart { KnownsApart (reading_scope outside.now.scope.now).names.knowns }
    requires outside { IsOutside sheet.now outside.now }
    requires table { IsTable sheet.now table.old }
    requires prod { p < length sheet.now.sig.now.prods }
    requires range { (from ≤ to) × (to ≤ length sheet.now.tokens.now) }
    ensures first { IfOk result (λ found. AreFirst IsBefore
        (IsContextBy sheet.now.sig.now (reading_scope outside.now.scope.now) sheet.now.metas.now p outside.now.cat.0 (in_scope vars.now) [] (range_of sheet.now from to))
        (answers found)) }
    ensures table { OnOk result (IsTable sheet.now table.new) }
{
    let prod = &sheet.sig.prods()[p];
    if prod.cat.0 != outside.cat.0 {
        return Ok(Answers::Nothing);
    }
    let items = prod.items.as_slice();
    if are_terminals(items) {
        return emptied(alloc, table, sheet, outside, vars, p, items, from, to);
    }
    match innermost_local(vars) {
        Some(binder) => {
            if !is_entry(items, outside.cat, binder) {
                return Ok(Answers::Nothing);
            }
            entered(
                alloc, table, sheet, outside, vars, binder, p, items, from, to,
            )
        }
        None => Ok(Answers::Nothing),
    }
}

/// The first two readings of the tokens from the one place up to the other as a context of the category that leaves these variables in
/// scope and writes no known variable.
#[cycle(contexts)]
pub fn context<'a>(
    alloc: Global,
    table: &mut Table<'a>,
    sheet: &Sheet<'a>,
    outside: &Outside<'_, 'a>,
    vars: &[Var<'a>],
    from: usize,
    to: usize,
) -> Result<Answers, NoMemory>
    requires names { NamesApart sheet.now.metas.now }
    requires apart { KnownsApart (reading_scope outside.now.scope.now).names.knowns }
    requires outside { IsOutside sheet.now outside.now }
    requires table { IsTable sheet.now table.old }
    requires range { (from ≤ to) × (to ≤ length sheet.now.tokens.now) }
    ensures first { IfOk result (λ found. AreFirst IsBefore
        (ReadsContextAs sheet.now.sig.now (reading_scope outside.now.scope.now) sheet.now.metas.now outside.now.cat.0 (in_scope vars.now) [] (range_of sheet.now from to))
        (answers found)) }
    ensures table { OnOk result (IsTable sheet.now table.new) }
{
    let mut found = rooted(sheet, outside, vars, from, to);
    for p in 0..sheet.sig.prods().len() {
        let more = by_production(alloc, table, sheet, outside, vars, p, from, to)?;
        found = joined(found, more);
    }
    Ok(found)
}
