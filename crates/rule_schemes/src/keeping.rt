// The rows of a system, with a mark for each judgment below each judgment.
ghost use Rattle.std.specs.Prelude.{◌≡◌, ◌↔◌, ◌<◌, ◌≤◌, ◌^◌, [], ℕ, IsTrue, IfOk, length, map, slice_index_or};
ghost use Rattle.binding_terms.specs.Numbered.{AnyByRecursion};
ghost use Rattle.binding_terms.specs.Reach.{IsMarked};
ghost use Rattle.rule_schemes.specs.Rows.{AreMarks, AreRows, HasAlso, HasAlsoAt};
ghost use Rattle.rule_schemes.specs.Touching.{IsMarkedIn};
ghost use Rattle.rule_schemes.specs.View.{judgment_scheme};

use crate::rule::{JScheme, JudgId};
use crate::touching::is_below;
use binding_terms::NoMemory;
use sqlite_items::{Items, at};
use std::alloc::Global;

/// A row with one mark.
fn own_row(alloc: Global, count: usize, judgment: usize) -> Result<Items<bool>, NoMemory>
    ensures { IfOk result (λ marks. AreMarks count (λ below. judgment ≡ below) marks) }
{
    let mut marks = Items::new(alloc);
    for below in 0..count {
        marks.push(judgment == below)?;
    }
    Ok(marks)
}

/// The rows of so many judgments without a rule: each judgment stands below itself alone.
pub(crate) fn own_rows(alloc: Global, count: usize) -> Result<Vec<Items<bool>>, NoMemory>
    ensures { IfOk result (λ rows. AreRows count [] rows.items) }
{
    let mut rows = Vec::new(alloc);
    for judgment in 0..count {
        rows.push(own_row(alloc, count, judgment)?)?;
    }
    Ok(rows)
}

/// Whether the judgment is marked below that of some premise.
fn is_below_some(rows: &[Items<bool>], premises: &[JScheme], below: JudgId) -> bool
    ensures { IsTrue result ↔ AnyByRecursion (λ p. IsMarkedIn rows.now p.judgment below.0) (map judgment_scheme premises.now) }
{
    for premise in premises {
        if is_below(rows, premise.judgment, below) {
            return true;
        }
    }
    false
}

/// A row with the marks of the rows of all premises.
pub(crate) fn premises_row(
    alloc: Global,
    count: usize,
    rows: &[Items<bool>],
    premises: &[JScheme],
) -> Result<Items<bool>, NoMemory>
    requires { count < 2 ^ 32 }
    ensures { IfOk result (λ marks. AreMarks count
        (λ below. AnyByRecursion (λ p. IsMarkedIn rows.now p.judgment below) (map judgment_scheme premises.now)) marks) }
{
    let mut marks = Items::new(alloc);
    for below in 0..count {
        marks.push(is_below_some(rows, premises, JudgId(below as u32)))?;
    }
    Ok(marks)
}

/// Whether the row has a mark at the number.
fn is_marked(marks: &[bool], number: usize) -> bool
    ensures { IsTrue result ↔ IsMarked marks.now number }
{
    match at(marks, number) {
        Some(mark) => *mark,
        None => false,
    }
}

/// Puts the marks of another row into this one.
fn join(row: &mut Items<bool>, more: &[bool])
    ensures { HasAlso row.old more.now row.new }
{
    for number in 0..row.len() {
        if is_marked(more, number) {
            row.set(number, true);
        }
    }
}

/// The same where the row has a mark at the judgment.
fn join_at(row: &mut Items<bool>, judgment: JudgId, more: &[bool])
    ensures { HasAlsoAt judgment.0 row.old more.now row.new }
{
    if is_marked(row.as_slice(), judgment.0 as usize) {
        join(row, more);
    }
}

/// The same for each row.
pub(crate) fn join_all(rows: &mut [Items<bool>], judgment: JudgId, more: &[bool])
    ensures long { length rows.new ≡ length rows.old }
    ensures each { (x : ℕ) → x < length rows.old
        → HasAlsoAt judgment.0 (slice_index_or rows.old x []) more.now (slice_index_or rows.new x []) }
{
    for row in rows.iter_mut() {
        join_at(row, judgment, more);
    }
}
