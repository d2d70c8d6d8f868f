// The cells of a form that were read.
ghost use Rattle.std.specs.Prelude.{◌≡◌, ◌↔◌, IsTrue, IfOk, OnOk, IfSome, [], map};
ghost use Rattle.rule_schemes.specs.Said.{IsBefore};
ghost use Rattle.ordered_readings.specs.FirstTwo.{AreFirst};
ghost use Rattle.ordered_readings.specs.AnswerView.{answers};
ghost use Rattle.ordered_readings.specs.Cells.{ReadsTermAt};
ghost use Rattle.form_cells.specs.Cells.{range_of, IsTable, IsScope, Follows};
ghost use Rattle.form_cells.specs.View.{in_scope, variable};

use crate::sheet::Sheet;
use crate::variables::{Var, same_variables};
use binding_terms::{CatId, NoMemory};
use ordered_readings::{Answers, share_answers};
use sqlite_items::{Items, at};
use std::alloc::Global;

/// The readings of a range of tokens as a term of a category, in the scope with that number, and the number of another cell of the same
/// range, counted from 1.
#[derive(Drop)]
pub struct Cell {
    pub scope: usize,
    pub cat: CatId,
    pub from: usize,
    pub to: usize,
    pub found: Answers,
    pub next: usize,
}

/// The cells of a form that were read, and the scopes that they are numbered by. For each range the number of its newest cell, counted
/// from 1. A table that keeps nothing stays empty.
#[derive(Drop)]
pub struct Table<'a> {
    pub keeps: bool,
    pub scopes: Items<Items<Var<'a>>>,
    pub cells: Items<Cell>,
    pub newest: Items<usize>,
    pub width: usize,
}

impl<'a> Table<'a> {
    /// A table for so many tokens, with nothing in it. One that keeps nothing makes the reader a plain one.
    pub fn new(alloc: Global, tokens: usize, keeps: bool) -> Result<Table<'a>, NoMemory>
        ensures { IfOk result (λ table. table.cells ≡ []) }
    {
        let width = tokens.checked_add(1).ok_or(NoMemory)?;
        let mut newest = Items::new(alloc);
        if keeps {
            let count = width.checked_mul(width).ok_or(NoMemory)?;
            newest = Items::from_vec(Vec::from_elem(alloc, 0, count)?);
        }
        Ok(Table {
            keeps,
            scopes: Items::new(alloc),
            cells: Items::new(alloc),
            newest,
            width,
        })
    }
}

/// The place of a range among the newest cells.
fn place(table: &Table<'_>, from: usize, to: usize) -> usize {
    from.wrapping_mul(table.width).wrapping_add(to)
}

/// The number of the scope with these variables: one that stands in the table, or a new one.
pub(crate) fn scope_number<'a>(
    alloc: Global,
    table: &mut Table<'a>,
    sheet: &Sheet<'a>,
    vars: &[Var<'a>],
) -> Result<usize, NoMemory>
    requires { IsTable sheet.now table.old }
    ensures number { IfOk result (λ n. IsScope table.new n (in_scope vars.now)) }
    ensures follows { OnOk result (Follows sheet.now table.old table.new) }
{
    if !table.keeps {
        return Ok(0);
    }
    for i in 0..table.scopes.len() {
        if same_variables(table.scopes.as_slice()[i].as_slice(), vars) {
            return Ok(i);
        }
    }
    let number = table.scopes.len();
    table.scopes.push(Items::from_slice(alloc, vars)?)?;
    Ok(number)
}

fn is_cell(cell: &Cell, scope: usize, cat: CatId, from: usize, to: usize) -> bool
    ensures { IsTrue result → (cell.now.scope ≡ scope) × (cell.now.cat ≡ cat) × (cell.now.from ≡ from) × (cell.now.to ≡ to) }
{
    cell.scope == scope && cell.cat == cat && cell.from == from && cell.to == to
}

/// What the table keeps of a range, if anything.
pub(crate) fn known<'a>(
    table: &Table<'a>,
    sheet: &Sheet<'a>,
    scope: usize,
    vars: &[Var<'a>],
    cat: CatId,
    from: usize,
    to: usize,
) -> Result<Option<Answers>, NoMemory>
    requires table { IsTable sheet.now table.now }
    requires scope { IsScope table.now scope (in_scope vars.now) }
    ensures { IfOk result (λ kept. IfSome kept (λ found.
        AreFirst IsBefore (ReadsTermAt sheet.now.sig.now sheet.now.metas.now (in_scope vars.now) cat.0 (range_of sheet.now from to)) (answers found))) }
{
    if !table.keeps {
        return Ok(None);
    }
    let mut left = match at(table.newest.as_slice(), place(table, from, to)) {
        Some(newest) => *newest,
        None => 0,
    };
    while left > 0 {
        match at(table.cells.as_slice(), left - 1) {
            Some(cell) => {
                if is_cell(cell, scope, cat, from, to) {
                    return Ok(Some(share_answers(&cell.found)?));
                }
                if cell.next >= left {
                    return Ok(None);
                }
                left = cell.next;
            }
            None => return Ok(None),
        }
    }
    Ok(None)
}

/// Keeps the readings of a range.
pub(crate) fn keep<'a>(
    table: &mut Table<'a>,
    sheet: &Sheet<'a>,
    scope: usize,
    vars: &[Var<'a>],
    cat: CatId,
    from: usize,
    to: usize,
    found: &Answers,
) -> Result<(), NoMemory>
    requires table { IsTable sheet.now table.old }
    requires scope { IsScope table.old scope (in_scope vars.now) }
    requires found { AreFirst IsBefore (ReadsTermAt sheet.now.sig.now sheet.now.metas.now (in_scope vars.now) cat.0 (range_of sheet.now from to)) (answers found.now) }
    ensures { OnOk result (Follows sheet.now table.old table.new) }
{
    if !table.keeps {
        return Ok(());
    }
    let spot = place(table, from, to);
    let next = match at(table.newest.as_slice(), spot) {
        Some(newest) => *newest,
        None => 0,
    };
    let found = share_answers(found)?;
    table.cells.push(Cell {
        scope,
        cat,
        from,
        to,
        found,
        next,
    })?;
    if spot < table.newest.len() {
        let number = table.cells.len();
        table.newest.set(spot, number);
    }
    Ok(())
}
