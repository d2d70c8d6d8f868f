// The readings of terms and of rows of items, cell by cell.
ghost use Rattle.std.specs.Prelude.{◌≡◌, ◌↔◌, ◌<◌, ◌≤◌, ◌+◌, ◌-◌, ℕ, IsTrue, IfOk, OnOk, [], ◌∷◌, ◌++◌, map, length, drop, slice_get, Some, if◌then◌else◌};
ghost use Rattle.binding_terms.specs.Signature.{IsSingle};
ghost use Rattle.rule_schemes.specs.Reading.{slot_variables};
ghost use Rattle.rule_schemes.specs.Said.{IsBefore, way, no_ways};
ghost use Rattle.ordered_readings.specs.Names.{NamesApart};
ghost use Rattle.ordered_readings.specs.FirstTwo.{AreFirst};
ghost use Rattle.ordered_readings.specs.AnswerView.{answers};
ghost use Rattle.ordered_readings.specs.Cells.{ReadsTermAt, ReadsItemsAt, ReadsBracketsAt, ReadsArgumentsAt, TakesFirst};
ghost use Rattle.form_cells.specs.Cells.{range_of, IsTable, IsScope, Follows, IsGroup, IsName, IsVariable, IsMade, IsProduct, IsReadBelow, GoesOn, around};
ghost use Rattle.form_cells.specs.Words.{words_of};
ghost use Rattle.binding_terms.specs.declared.grammar.Item.{Item};
ghost use Rattle.scheme_terms.specs.SchemeTree.{no_parts};
ghost use Rattle.ordered_readings.specs.NodeView.{reading, made};
ghost use Rattle.form_cells.specs.View.{variable, in_scope};

use crate::form::{Form, may_go_on, words_at};
use crate::sheet::Sheet;
use crate::simple::{all_in_parentheses, at_end, bound_variable};
use crate::table::{Table, keep, known, scope_number};
use crate::variables::{Var, innermost, slot_scope};
use crate::words::{is_any_word, is_binder, is_terminal, is_word};
use binding_terms::{CatId, Item, NoMemory, ProdId, number};
use ordered_readings::{Answers, Head, Node, Row, is_full, is_none, joined, product};
use scheme_terms::{MetaDecl, MetaId};
use std::alloc::Global;
use std::rc::Rc;

/// The variables in scope, the innermost last, and their number in the table.
#[derive(Clone, Copy)]
pub struct Scope<'s, 'a> {
    pub number: usize,
    pub vars: &'s [Var<'a>],
}

/// Whether so many words and the range end here.
fn is_end(words: usize, word: usize, from: usize, to: usize) -> bool
    ensures { IsTrue result ↔ ((from ≡ to) × (word ≡ words)) }
{
    from == to && word == words
}

/// The readings as a form of the category in parentheses.
#[cycle(cells)]
fn group<'a>(
    alloc: Global,
    table: &mut Table<'a>,
    sheet: &Sheet<'a>,
    scope: &Scope<'_, 'a>,
    cat: CatId,
    from: usize,
    to: usize,
) -> Result<Answers, NoMemory>
    requires names { NamesApart sheet.now.metas.now }
    requires table { IsTable sheet.now table.old }
    requires scope { IsScope table.old scope.now.number (in_scope scope.now.vars.now) }
    requires range { (from ≤ to) × (to ≤ length sheet.now.tokens.now) }
    ensures first { IfOk result (λ found.
        AreFirst IsBefore (IsGroup sheet.now.sig.now sheet.now.metas.now (in_scope scope.now.vars.now) cat.0 (range_of sheet.now from to)) (answers found)) }
    ensures table { OnOk result (Follows sheet.now table.old table.new) }
{
    if to - from < 2 {
        return Ok(Answers::Nothing);
    }
    if !sheet.has(b'(', from) {
        return Ok(Answers::Nothing);
    }
    if !sheet.has(b')', to - 1) {
        return Ok(Answers::Nothing);
    }
    let inside = cell(alloc, table, sheet, scope, cat, from + 1, to - 1)?;
    all_in_parentheses(alloc, inside)
}

/// The readings of brackets with the arguments of a metavariable from one on.
#[cycle(cells)]
fn brackets<'a>(
    alloc: Global,
    table: &mut Table<'a>,
    sheet: &Sheet<'a>,
    scope: &Scope<'_, 'a>,
    meta: MetaId,
    params: &'a [CatId],
    at: usize,
    from: usize,
    to: usize,
) -> Result<Answers, NoMemory>
    requires names { NamesApart sheet.now.metas.now }
    requires table { IsTable sheet.now table.old }
    requires scope { IsScope table.old scope.now.number (in_scope scope.now.vars.now) }
    requires params { at ≤ length params.now }
    requires range { (from ≤ to) × (to ≤ length sheet.now.tokens.now) }
    ensures first { IfOk result (λ found. AreFirst IsBefore
        (ReadsBracketsAt sheet.now.sig.now sheet.now.metas.now (in_scope scope.now.vars.now) (map (λ p. p.0) (drop at params.now)) meta.0 (range_of sheet.now from to))
        (answers found)) }
    ensures table { OnOk result (Follows sheet.now table.old table.new) }
{
    if at == params.len() {
        if from != to {
            return Ok(Answers::Nothing);
        }
        return Ok(at_end(1, Head::Meta(meta), true));
    }
    if from == to {
        return Ok(Answers::Nothing);
    }
    if !sheet.has(b'[', from) {
        return Ok(Answers::Nothing);
    }
    arguments(alloc, table, sheet, scope, meta, params, at, from + 1, to)
}

/// The readings of the arguments from one on.
#[cycle(cells)]
fn arguments<'a>(
    alloc: Global,
    table: &mut Table<'a>,
    sheet: &Sheet<'a>,
    scope: &Scope<'_, 'a>,
    meta: MetaId,
    params: &'a [CatId],
    at: usize,
    from: usize,
    to: usize,
) -> Result<Answers, NoMemory>
    requires names { NamesApart sheet.now.metas.now }
    requires table { IsTable sheet.now table.old }
    requires scope { IsScope table.old scope.now.number (in_scope scope.now.vars.now) }
    requires params { at ≤ length params.now }
    requires range { (from ≤ to) × (to ≤ length sheet.now.tokens.now) }
    ensures first { IfOk result (λ found. AreFirst IsBefore
        (ReadsArgumentsAt sheet.now.sig.now sheet.now.metas.now (in_scope scope.now.vars.now) (map (λ p. p.0) (drop at params.now)) meta.0 (range_of sheet.now from to))
        (answers found)) }
    ensures table { OnOk result (Follows sheet.now table.old table.new) }
{
    let mut found = Answers::Nothing;
    if at == params.len() {
        return Ok(found);
    }
    for end in from..to {
        let more = argument(alloc, table, sheet, scope, meta, params, at, from, end, to)?;
        found = joined(found, more);
    }
    Ok(found)
}

/// The readings of the arguments from one on, where that one ends there.
#[cycle(cells)]
fn argument<'a>(
    alloc: Global,
    table: &mut Table<'a>,
    sheet: &Sheet<'a>,
    scope: &Scope<'_, 'a>,
    meta: MetaId,
    params: &'a [CatId],
    at: usize,
    from: usize,
    end: usize,
    to: usize,
) -> Result<Answers, NoMemory>
    requires names { NamesApart sheet.now.metas.now }
    requires table { IsTable sheet.now table.old }
    requires scope { IsScope table.old scope.now.number (in_scope scope.now.vars.now) }
    requires params { at < length params.now }
    requires range { (from ≤ end) × (end < to) × (to ≤ length sheet.now.tokens.now) }
    ensures first { IfOk result (λ found. AreFirst IsBefore
        (λ w s. ReadsArgumentsAt sheet.now.sig.now sheet.now.metas.now (in_scope scope.now.vars.now) (map (λ p. p.0) (drop at params.now)) meta.0 (range_of sheet.now from to) w s
        × TakesFirst (end - from) w)
        (answers found)) }
    ensures table { OnOk result (Follows sheet.now table.old table.new) }
{
    let rest = behind_argument(alloc, table, sheet, scope, meta, params, at + 1, end, to)?;
    if is_none(&rest) {
        return Ok(Answers::Nothing);
    }
    let first = cell(alloc, table, sheet, scope, params[at], from, end)?;
    product(alloc, end - from, 0, &first, &rest)
}

/// The readings of what follows an argument: a comma and the arguments from one on, or the end of a pair of brackets and the next.
#[cycle(cells)]
fn behind_argument<'a>(
    alloc: Global,
    table: &mut Table<'a>,
    sheet: &Sheet<'a>,
    scope: &Scope<'_, 'a>,
    meta: MetaId,
    params: &'a [CatId],
    at: usize,
    from: usize,
    to: usize,
) -> Result<Answers, NoMemory>
    requires names { NamesApart sheet.now.metas.now }
    requires table { IsTable sheet.now table.old }
    requires scope { IsScope table.old scope.now.number (in_scope scope.now.vars.now) }
    requires params { at ≤ length params.now }
    requires range { (from < to) × (to ≤ length sheet.now.tokens.now) }
    ensures first { IfOk result (λ found. AreFirst IsBefore
        (GoesOn sheet.now.sig.now sheet.now.metas.now (in_scope scope.now.vars.now) (map (λ p. p.0) (drop at params.now)) meta.0 (range_of sheet.now from to))
        (answers found)) }
    ensures table { OnOk result (Follows sheet.now table.old table.new) }
{
    if sheet.has(b',', from) {
        return arguments(alloc, table, sheet, scope, meta, params, at, from + 1, to);
    }
    if sheet.has(b']', from) {
        return brackets(alloc, table, sheet, scope, meta, params, at, from + 1, to);
    }
    Ok(Answers::Nothing)
}

/// The readings as a metavariable of the category with its arguments.
#[cycle(cells)]
fn name<'a>(
    alloc: Global,
    table: &mut Table<'a>,
    sheet: &Sheet<'a>,
    scope: &Scope<'_, 'a>,
    cat: CatId,
    from: usize,
    to: usize,
) -> Result<Answers, NoMemory>
    requires names { NamesApart sheet.now.metas.now }
    requires table { IsTable sheet.now table.old }
    requires scope { IsScope table.old scope.now.number (in_scope scope.now.vars.now) }
    requires range { (from ≤ to) × (to ≤ length sheet.now.tokens.now) }
    ensures first { IfOk result (λ found.
        AreFirst IsBefore (IsName sheet.now.sig.now sheet.now.metas.now (in_scope scope.now.vars.now) cat.0 (range_of sheet.now from to)) (answers found)) }
    ensures table { OnOk result (Follows sheet.now table.old table.new) }
{
    if from == to {
        return Ok(Answers::Nothing);
    }
    let metas = sheet.metas;
    for m in 0..metas.len() {
        if is_word(metas[m].name.bytes(), &sheet.tokens[from]) {
            if metas[m].cat.0 != cat.0 {
                return Ok(Answers::Nothing);
            }
            let meta = MetaId(number(m)?);
            let params = metas[m].params.as_slice();
            return brackets(alloc, table, sheet, scope, meta, params, 0, from + 1, to);
        }
    }
    Ok(Answers::Nothing)
}

/// The readings of the items from one on, with the words from one on at their binders.
#[cycle(cells)]
fn row<'a>(
    alloc: Global,
    table: &mut Table<'a>,
    sheet: &Sheet<'a>,
    scope: &Scope<'_, 'a>,
    form: &Form<'_, 'a>,
    at: usize,
    word: usize,
    from: usize,
    to: usize,
) -> Result<Answers, NoMemory>
    requires names { NamesApart sheet.now.metas.now }
    requires table { IsTable sheet.now table.old }
    requires scope { IsScope table.old scope.now.number (in_scope scope.now.vars.now) }
    requires items { (at ≤ length form.now.items.now) × (word ≤ length form.now.words.now) }
    requires not_single { at ≡ 0 → IsSingle form.now.items.now → ⊥ }
    requires range { (from ≤ to) × (to ≤ length sheet.now.tokens.now) }
    ensures first { IfOk result (λ found. AreFirst IsBefore
        (ReadsItemsAt sheet.now.sig.now sheet.now.metas.now (in_scope scope.now.vars.now) (map variable form.now.own.now) (words_of (drop word form.now.words.now))
        (drop at form.now.items.now) form.now.alternative form.now.prod.0 (range_of sheet.now from to))
        (answers found)) }
    ensures table { OnOk result (Follows sheet.now table.old table.new) }
{
    if at == form.items.len() {
        let all_taken = is_end(form.words.len(), word, from, to);
        return Ok(at_end(form.alternative, Head::Con(form.prod), all_taken));
    }
    if from == to {
        return Ok(Answers::Nothing);
    }
    match &form.items[at] {
        Item::Word { text, quoted: _ } => {
            if !is_terminal(text.bytes(), &sheet.tokens[from]) {
                return Ok(Answers::Nothing);
            }
            row(alloc, table, sheet, scope, form, at + 1, word, from + 1, to)
        }
        Item::Slot { cat, binds } => {
            slot(
                alloc,
                table,
                sheet,
                scope,
                form,
                *cat,
                binds.as_slice(),
                at + 1,
                word,
                from,
                to,
            )
        }
        Item::Binder(cat) => {
            if word == form.words.len() {
                return Ok(Answers::Nothing);
            }
            if !is_word(form.words[word].word, &sheet.tokens[from]) {
                return Ok(Answers::Nothing);
            }
            if !is_binder(sheet.sig, cat.0 as usize, &sheet.tokens[from]) {
                return Ok(Answers::Nothing);
            }
            row(
                alloc,
                table,
                sheet,
                scope,
                form,
                at + 1,
                word + 1,
                from + 1,
                to,
            )
        }
    }
}

/// The readings of a slot and the items from one on behind it, the shorter slot first.
#[cycle(cells)]
fn slot<'a>(
    alloc: Global,
    table: &mut Table<'a>,
    sheet: &Sheet<'a>,
    scope: &Scope<'_, 'a>,
    form: &Form<'_, 'a>,
    cat: CatId,
    binds: &'a [u32],
    at: usize,
    word: usize,
    from: usize,
    to: usize,
) -> Result<Answers, NoMemory>
    requires names { NamesApart sheet.now.metas.now }
    requires table { IsTable sheet.now table.old }
    requires scope { IsScope table.old scope.now.number (in_scope scope.now.vars.now) }
    requires items { (0 < at) × (at ≤ length form.now.items.now) × (word ≤ length form.now.words.now) }
    requires not_single { at ≡ 1 → length form.now.items.now ≡ 1 → ⊥ }
    requires range { (from ≤ to) × (to ≤ length sheet.now.tokens.now) }
    ensures first { IfOk result (λ found. AreFirst IsBefore
        (ReadsItemsAt sheet.now.sig.now sheet.now.metas.now (in_scope scope.now.vars.now) (map variable form.now.own.now) (words_of (drop word form.now.words.now))
        (Item.Slot cat binds.now ∷ drop at form.now.items.now) form.now.alternative form.now.prod.0 (range_of sheet.now from to))
        (answers found)) }
    ensures table { OnOk result (Follows sheet.now table.old table.new) }
{
    let mut found = Answers::Nothing;
    for end in from + 1..to + 1 {
        if is_full(&found) {
            return Ok(found);
        }
        let more = slot_to(
            alloc, table, sheet, scope, form, cat, binds, at, word, from, end, to,
        )?;
        found = joined(found, more);
    }
    Ok(found)
}

/// The readings of a slot that ends there and of the items from one on behind it.
#[cycle(cells)]
fn slot_to<'a>(
    alloc: Global,
    table: &mut Table<'a>,
    sheet: &Sheet<'a>,
    scope: &Scope<'_, 'a>,
    form: &Form<'_, 'a>,
    cat: CatId,
    binds: &'a [u32],
    at: usize,
    word: usize,
    from: usize,
    end: usize,
    to: usize,
) -> Result<Answers, NoMemory>
    requires names { NamesApart sheet.now.metas.now }
    requires table { IsTable sheet.now table.old }
    requires scope { IsScope table.old scope.now.number (in_scope scope.now.vars.now) }
    requires items { (0 < at) × (at ≤ length form.now.items.now) × (word ≤ length form.now.words.now) }
    requires not_single { at ≡ 1 → length form.now.items.now ≡ 1 → ⊥ }
    requires range { (from < end) × (end ≤ to) × (to ≤ length sheet.now.tokens.now) }
    ensures first { IfOk result (λ found. AreFirst IsBefore
        (λ w s. ReadsItemsAt sheet.now.sig.now sheet.now.metas.now (in_scope scope.now.vars.now) (map variable form.now.own.now) (words_of (drop word form.now.words.now))
        (Item.Slot cat binds.now ∷ drop at form.now.items.now) form.now.alternative form.now.prod.0 (range_of sheet.now from to) w s
        × TakesFirst (end - from) w)
        (answers found)) }
    ensures table { OnOk result (Follows sheet.now table.old table.new) }
{
    if to - end < form.items.len() - at {
        return Ok(Answers::Nothing);
    }
    if !may_go_on(sheet, form.items, at, end, to) {
        return Ok(Answers::Nothing);
    }
    let first = in_slot(
        alloc, table, sheet, scope, form, cat, binds, at, from, end, to,
    )?;
    if is_none(&first) {
        return Ok(Answers::Nothing);
    }
    let rest = row(alloc, table, sheet, scope, form, at, word, end, to)?;
    product(alloc, end - from, binds.len(), &first, &rest)
}

/// The readings of a slot, under the variables that it lists among the form's own.
#[cycle(cells)]
fn in_slot<'a>(
    alloc: Global,
    table: &mut Table<'a>,
    sheet: &Sheet<'a>,
    scope: &Scope<'_, 'a>,
    form: &Form<'_, 'a>,
    cat: CatId,
    binds: &[u32],
    at: usize,
    from: usize,
    end: usize,
    to: usize,
) -> Result<Answers, NoMemory>
    requires names { NamesApart sheet.now.metas.now }
    requires table { IsTable sheet.now table.old }
    requires scope { IsScope table.old scope.now.number (in_scope scope.now.vars.now) }
    requires items { (0 < at) × (at ≡ 1 → end < to) }
    requires range { (from < end) × (end ≤ to) × (to ≤ length sheet.now.tokens.now) }
    ensures first { IfOk result (λ found. AreFirst IsBefore
        (ReadsTermAt sheet.now.sig.now sheet.now.metas.now (slot_variables (map variable form.now.own.now) binds.now ++ in_scope scope.now.vars.now) cat.0 (range_of sheet.now from end))
        (answers found)) }
    ensures table { OnOk result (Follows sheet.now table.old table.new) }
{
    if binds.len() == 0 {
        return cell(alloc, table, sheet, scope, cat, from, end);
    }
    let inner = slot_scope(alloc, scope.vars, form.own, binds)?;
    let vars = inner.as_slice();
    let number = scope_number(alloc, table, sheet, vars)?;
    cell(alloc, table, sheet, &Scope { number, vars }, cat, from, end)
}

/// The number that readings by a production have as an alternative: behind groups, metavariables and variables.
fn alternative(p: usize) -> Result<usize, NoMemory>
    ensures { IfOk result (λ n. n ≡ 3 + p) }
{
    p.checked_add(3).ok_or(NoMemory)
}

/// The readings by the production with that number, where it is of the category.
#[cycle(cells)]
fn product_of<'a>(
    alloc: Global,
    table: &mut Table<'a>,
    sheet: &Sheet<'a>,
    scope: &Scope<'_, 'a>,
    p: usize,
    cat: CatId,
    from: usize,
    to: usize,
) -> Result<Answers, NoMemory>
    requires names { NamesApart sheet.now.metas.now }
    requires table { IsTable sheet.now table.old }
    requires scope { IsScope table.old scope.now.number (in_scope scope.now.vars.now) }
    requires prod { p < length sheet.now.sig.now.prods }
    requires range { (from ≤ to) × (to ≤ length sheet.now.tokens.now) }
    ensures first { IfOk result (λ found.
        AreFirst IsBefore (IsProduct sheet.now.sig.now sheet.now.metas.now (in_scope scope.now.vars.now) p cat.0 (range_of sheet.now from to)) (answers found)) }
    ensures table { OnOk result (Follows sheet.now table.old table.new) }
{
    let mut found = Answers::Nothing;
    let prod = &sheet.sig.prods()[p];
    if prod.cat.0 != cat.0 {
        return Ok(found);
    }
    let items = prod.items.as_slice();
    if !may_go_on(sheet, items, 0, from, to) {
        return Ok(found);
    }
    let id = ProdId(number(p)?);
    let alternative = alternative(p)?;
    let all = words_at(alloc, sheet, items, 0, from, to)?;
    for own in all.as_slice() {
        let form = Form {
            alternative,
            prod: id,
            own: own.as_slice(),
            words: own.as_slice(),
            items,
        };
        let more = row(alloc, table, sheet, scope, &form, 0, 0, from, to)?;
        found = joined(found, more);
    }
    Ok(found)
}

/// The first two readings of a range as a term of the category, read anew.
#[cycle(cells)]
fn anew<'a>(
    alloc: Global,
    table: &mut Table<'a>,
    sheet: &Sheet<'a>,
    scope: &Scope<'_, 'a>,
    cat: CatId,
    from: usize,
    to: usize,
) -> Result<Answers, NoMemory>
    requires names { NamesApart sheet.now.metas.now }
    requires table { IsTable sheet.now table.old }
    requires scope { IsScope table.old scope.now.number (in_scope scope.now.vars.now) }
    requires range { (from ≤ to) × (to ≤ length sheet.now.tokens.now) }
    ensures first { IfOk result (λ found.
        AreFirst IsBefore (ReadsTermAt sheet.now.sig.now sheet.now.metas.now (in_scope scope.now.vars.now) cat.0 (range_of sheet.now from to)) (answers found)) }
    ensures table { OnOk result (Follows sheet.now table.old table.new) }
{
    let groups = group(alloc, table, sheet, scope, cat, from, to)?;
    let named = name(alloc, table, sheet, scope, cat, from, to)?;
    let bound = bound_variable(sheet, scope.vars, cat, from, to);
    let mut found = joined(joined(groups, named), bound);
    for p in 0..sheet.sig.prods().len() {
        if is_full(&found) {
            return Ok(found);
        }
        let more = product_of(alloc, table, sheet, scope, p, cat, from, to)?;
        found = joined(found, more);
    }
    Ok(found)
}

/// The first two readings of a range as a term of the category, from the table where it keeps them.
#[cycle(cells)]
fn cell<'a>(
    alloc: Global,
    table: &mut Table<'a>,
    sheet: &Sheet<'a>,
    scope: &Scope<'_, 'a>,
    cat: CatId,
    from: usize,
    to: usize,
) -> Result<Answers, NoMemory>
    requires names { NamesApart sheet.now.metas.now }
    requires table { IsTable sheet.now table.old }
    requires scope { IsScope table.old scope.now.number (in_scope scope.now.vars.now) }
    requires range { (from ≤ to) × (to ≤ length sheet.now.tokens.now) }
    ensures first { IfOk result (λ found.
        AreFirst IsBefore (ReadsTermAt sheet.now.sig.now sheet.now.metas.now (in_scope scope.now.vars.now) cat.0 (range_of sheet.now from to)) (answers found)) }
    ensures table { OnOk result (Follows sheet.now table.old table.new) }
{
    match known(table, sheet, scope.number, scope.vars, cat, from, to)? {
        Some(found) => Ok(found),
        None => {
            let found = anew(alloc, table, sheet, scope, cat, from, to)?;
            keep(
                table,
                sheet,
                scope.number,
                scope.vars,
                cat,
                from,
                to,
                &found,
            )?;
            Ok(found)
        }
    }
}

/// The first two readings of the tokens from the one place up to the other as the items of a form, of which the first is no slot alone.
pub fn rows<'a>(
    alloc: Global,
    table: &mut Table<'a>,
    sheet: &Sheet<'a>,
    vars: &[Var<'a>],
    form: &Form<'_, 'a>,
    at: usize,
    from: usize,
    to: usize,
) -> Result<Answers, NoMemory>
    requires names { NamesApart sheet.now.metas.now }
    requires table { IsTable sheet.now table.old }
    requires items { at ≤ length form.now.items.now }
    requires not_single { at ≡ 0 → IsSingle form.now.items.now → ⊥ }
    requires range { (from ≤ to) × (to ≤ length sheet.now.tokens.now) }
    ensures first { IfOk result (λ found. AreFirst IsBefore
        (ReadsItemsAt sheet.now.sig.now sheet.now.metas.now (in_scope vars.now) (map variable form.now.own.now) (words_of form.now.words.now)
        (drop at form.now.items.now) form.now.alternative form.now.prod.0 (range_of sheet.now from to))
        (answers found)) }
    ensures table { OnOk result (IsTable sheet.now table.new) }
{
    let number = scope_number(alloc, table, sheet, vars)?;
    row(
        alloc,
        table,
        sheet,
        &Scope { number, vars },
        form,
        at,
        0,
        from,
        to,
    )
}

/// The first two readings, as a term of the category, of the tokens from the one place up to the other.
pub fn terms<'a>(
    alloc: Global,
    table: &mut Table<'a>,
    sheet: &Sheet<'a>,
    vars: &[Var<'a>],
    cat: CatId,
    from: usize,
    to: usize,
) -> Result<Answers, NoMemory>
    requires names { NamesApart sheet.now.metas.now }
    requires table { IsTable sheet.now table.old }
    requires range { (from ≤ to) × (to ≤ length sheet.now.tokens.now) }
    ensures first { IfOk result (λ found.
        AreFirst IsBefore (ReadsTermAt sheet.now.sig.now sheet.now.metas.now (in_scope vars.now) cat.0 (range_of sheet.now from to)) (answers found)) }
    ensures table { OnOk result (IsTable sheet.now table.new) }
{
    let number = scope_number(alloc, table, sheet, vars)?;
    cell(alloc, table, sheet, &Scope { number, vars }, cat, from, to)
}
