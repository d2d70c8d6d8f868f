//! The laws of terms. Most are what a function ensures that does nothing; the last two run the calls.

ghost use Rattle.std.specs.Prelude.{◌≡◌, IfOk};
ghost use Rattle.binding_terms.specs.Laws.{ClosedKeepsScope, FilledFilled, FilledKeepsScope, FilledPastShift, FreeIsInScope, PutInClosed, PutIsFilled, PutKeepsScope, PutPuts, PutShifts, ShiftAbovePut, ShiftBelowPut, ShiftByNone, ShiftIsFilled, ShiftKeepsScope, ShiftKeepsSize, ShiftOfClosed, ShiftPastFilled, ShiftPastShift, ShiftShifts, UnreachedDropOut, VariablesAreReached};
ghost use Rattle.binding_terms.specs.Tree.{put_in};
ghost use Rattle.binding_terms.specs.View.{tree};

use crate::term::{Term, put, shift};
use crate::text::NoMemory;
use std::alloc::Global;

/// A term put in for a variable that does not occur is lost: `put(shift(t, a, 1), a, u) = t`.
#[tactic(auto, using(crate::proofs::TermLaws::put_shifts))]
pub fn put_undoes_shift()
    ensures { PutShifts }
{}

/// Two terms put in one after the other:
/// `put(put(t, 0, u), a, v) = put(put(t, a + 1, shift(v, 0, 1)), 0, put(u, a, v))`.
#[tactic(auto, using(crate::proofs::TermLaws::put_puts))]
pub fn puts_in_turn()
    ensures { PutPuts }
{}

/// Raised by nothing, a term stays.
#[tactic(auto, using(crate::proofs::TermLaws::shift_by_none))]
pub fn shift_by_none()
    ensures { ShiftByNone }
{}

/// Raised twice at one place, a term is raised by the sum.
#[tactic(auto, using(crate::proofs::TermLaws::shift_shifts))]
pub fn shifts_in_turn()
    ensures { ShiftShifts }
{}

/// A term may be raised at two places in either order.
#[tactic(auto, using(crate::proofs::TermLaws::shift_past_shift))]
pub fn shift_past_shift()
    ensures { ShiftPastShift }
{}

/// Raised at or below the place where a term was put in, both are raised.
#[tactic(auto, using(crate::proofs::TermLaws::shift_below_put))]
pub fn shift_below_put()
    ensures { ShiftBelowPut }
{}

/// Raised at or above the place where a term was put in, both are raised.
#[tactic(auto, using(crate::proofs::TermLaws::shift_above_put))]
pub fn shift_above_put()
    ensures { ShiftAbovePut }
{}

/// A term whose free variables are all below the cut stays as it is raised.
#[tactic(auto, using(crate::proofs::TermLaws::shift_of_closed))]
pub fn shift_of_closed()
    ensures { ShiftOfClosed }
{}

/// A term whose free variables are all below the place stays as another is put in.
#[tactic(auto, using(crate::proofs::TermLaws::put_in_closed))]
pub fn put_in_closed()
    ensures { PutInClosed }
{}

/// A raised term has as many nodes.
#[tactic(auto, using(crate::proofs::TermLaws::shift_keeps_size))]
pub fn shift_keeps_size()
    ensures { ShiftKeepsSize }
{}

/// To raise a term is to put the raised variables in for all variables.
#[tactic(auto, using(crate::proofs::TermLaws::shift_is_filled))]
pub fn shift_is_filled()
    ensures { ShiftIsFilled }
{}

/// To put one term in is to put a term in for each variable.
#[tactic(auto, using(crate::proofs::TermLaws::put_in_is_filled))]
pub fn put_is_filled()
    ensures { PutIsFilled }
{}

/// Terms put in for all variables, one after the other.
#[tactic(auto, using(crate::proofs::TermLaws::filled_fills))]
pub fn fills_in_turn()
    ensures { FilledFilled }
{}

/// Raised after terms were put in for all variables, these are raised.
#[tactic(auto, using(crate::proofs::TermLaws::shift_past_filled))]
pub fn shift_past_fill()
    ensures { ShiftPastFilled }
{}

/// Raised before terms are put in for all variables, a variable takes the term of the raised one.
#[tactic(auto, using(crate::proofs::TermLaws::filled_past_shift))]
pub fn fill_past_shift()
    ensures { FilledPastShift }
{}

/// A term keeps its category where it is raised over new variables of the scope.
#[tactic(auto, using(crate::proofs::Scopes::shift_keeps_scope))]
pub fn shift_keeps_scope()
    ensures { ShiftKeepsScope }
{}

/// A term keeps its category where a term of a variable's category is put in for the variable.
#[tactic(auto, using(crate::proofs::Scopes::put_keeps_scope))]
pub fn put_keeps_scope()
    ensures { PutKeepsScope }
{}

/// A term keeps its category where terms of their categories are put in for all variables.
#[tactic(auto, using(crate::proofs::Scopes::filled_keeps_scope))]
pub fn fill_keeps_scope()
    ensures { FilledKeepsScope }
{}

/// The free variables of a term in a scope are the scope's.
#[tactic(auto, using(crate::proofs::Occurring::free_is_in_scope))]
pub fn free_is_in_scope()
    ensures { FreeIsInScope }
{}

/// A term without free variables is a term in every scope.
#[tactic(auto, using(crate::proofs::Occurring::closed_keeps_scope))]
pub fn closed_keeps_scope()
    ensures { ClosedKeepsScope }
{}

/// A category reaches each category of which a term of it holds a variable: the terms of a category
/// that does not reach another hold no variable of that.
#[tactic(auto, using(crate::proofs::Occurring::variables_are_reached))]
pub fn variables_are_reached()
    ensures { VariablesAreReached }
{}

/// A term is a term without the outer variables of a scope where its category reaches none of theirs.
#[tactic(auto, using(crate::proofs::Occurring::unreached_drop_out))]
pub fn unreached_drop_out()
    ensures { UnreachedDropOut }
{}

/// Puts a term in for a variable over which the first was raised, which gives the first again.
#[tactic(auto, using(crate::proofs::TermLaws::put_shifts))]
pub fn shift_then_put(alloc: Global, t: &Term, at: usize, with: &Term) -> Result<Term, NoMemory>
    ensures { IfOk result (λ new. tree new ≡ tree t.now) }
{
    let raised = shift(alloc, t, at, 1)?;
    put(alloc, &raised, at, with)
}

/// Puts `inner` in for variable 0 and then `outer` for the variable `at`, and in the other order. The two are the same.
#[tactic(auto, using(crate::proofs::TermLaws::put_puts))]
pub fn put_both_ways(
    alloc: Global,
    t: &Term,
    inner: &Term,
    at: usize,
    outer: &Term,
) -> Result<(Term, Term), NoMemory>
    ensures made { IfOk result (λ both. tree both.0 ≡ put_in at (tree outer.now) (put_in 0 (tree inner.now) (tree t.now))) }
    ensures same { IfOk result (λ both. tree both.1 ≡ tree both.0) }
{
    let first = put(alloc, t, 0, inner)?;
    let left = put(alloc, &first, at, outer)?;
    let above = at.checked_add(1).ok_or(NoMemory)?;
    let raised = shift(alloc, outer, 0, 1)?;
    let second = put(alloc, t, above, &raised)?;
    let with = put(alloc, inner, at, outer)?;
    let right = put(alloc, &second, 0, &with)?;
    Ok((left, right))
}
