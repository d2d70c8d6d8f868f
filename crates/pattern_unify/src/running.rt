//! The written run of equations, to its end.
ghost use Rattle.std.specs.Prelude.{IfOk, map};
ghost use Rattle.std.specs.List.{AllByRecursion};
ghost use Rattle.scheme_terms.specs.View.{names};
ghost use Rattle.pattern_unify.specs.Equations.{equation, AreToUnify};
ghost use Rattle.pattern_unify.specs.State.{names_of, start};
ghost use Rattle.pattern_unify.specs.Run.{Runs};
ghost use Rattle.pattern_unify.specs.Moves.{Rests};
ghost use Rattle.binding_terms.specs.Signature.{Signature};
ghost use Rattle.pattern_unify.specs.Stepped.{state};
ghost use Rattle.pattern_unify.specs.Found.{found, IsNextMove};
ghost use Rattle.pattern_unify.specs.Ended.{end_of, IsReached, IsPast};

use crate::equation::Equation;
use crate::moves::Row;
use crate::rows::{bind, decompose, delete, join, meet, prune};
use crate::state::{State, start};
use crate::turns::{Found, next_move};
use binding_terms::{NoMemory, Sig};
use scheme_terms::Scope;
use std::alloc::Global;

/// How a run ends.
#[derive(Drop)]
pub(crate) enum Ended {
    Solved(State),
    Clashed,
    Stuck(State),
}

/// What comes after a state: a later one, told by what became smaller on the way, or the end.
#[derive(Drop)]
pub(crate) enum After {
    /// The equations alone.
    Smaller(State),
    /// The known variables that stand somewhere are fewer.
    Joined(State),
    /// The metavariables that stand somewhere, with their parameters, are fewer.
    Replaced(State),
    Ends(Ended),
}

fn turn(alloc: Global, sig: &Sig, st: State, at: Found) -> Result<After, NoMemory>
    requires next { IsNextMove (names_of (state st)) (state st).equations (found at) }
    requires reached { IsReached sig.now (state st) }
    ensures { IfOk result (λ a. IsPast sig.now 0 (state st) a) }
{
    let _ = sig.prods();
    match at.row {
        Row::Delete => Ok(After::Smaller(delete(alloc, st, at)?)),
        Row::Decompose => Ok(After::Smaller(decompose(alloc, sig, st, at)?)),
        Row::Clash => Ok(After::Ends(Ended::Clashed)),
        Row::Join => Ok(After::Joined(join(alloc, st, at)?)),
        Row::Meet => Ok(After::Replaced(meet(alloc, &st, at)?)),
        Row::Prune => Ok(After::Replaced(prune(alloc, &st, at)?)),
        Row::Bind => Ok(After::Replaced(bind(alloc, &st, at)?)),
    }
}

/// The end of a state to whose equations no move applies.
fn end_of_rest(st: State) -> Ended
    ensures { AllByRecursion (Rests (names_of (state st))) (state st).equations → (sig : Signature) → Runs sig (state st) (end_of result) }
{
    if st.equations.len() == 0 {
        return Ended::Solved(st);
    }
    Ended::Stuck(st)
}

fn take_turn(alloc: Global, sig: &Sig, st: State) -> Result<After, NoMemory>
    requires { IsReached sig.now (state st) }
    ensures { IfOk result (λ a. IsPast sig.now 0 (state st) a) }
{
    let next = next_move(alloc, &st.so_far.into, st.equations.as_slice())?;
    match next {
        Some(at) => {
            let after = turn(alloc, sig, st, at)?;
            Ok(after)
        }
        None => Ok(After::Ends(end_of_rest(st))),
    }
}

/// Turns that make the equations smaller, up to one that replaces a name, or to the end.
fn past_sizes(alloc: Global, sig: &Sig, beginning: State) -> Result<After, NoMemory>
    requires { IsReached sig.now (state beginning) }
    ensures { IfOk result (λ a. IsPast sig.now 1 (state beginning) a) }
{
    let mut st = beginning;
    'sizes: loop {
        match take_turn(alloc, sig, st)? {
            After::Smaller(new) => st = new,
            After::Joined(new) => return Ok(After::Joined(new)),
            After::Replaced(new) => return Ok(After::Replaced(new)),
            After::Ends(end) => return Ok(After::Ends(end)),
        }
    }
}

/// Turns that make the equations smaller or join known variables, up to one that replaces a metavariable, or to the end.
fn past_joins(alloc: Global, sig: &Sig, beginning: State) -> Result<After, NoMemory>
    requires { IsReached sig.now (state beginning) }
    ensures { IfOk result (λ a. IsPast sig.now 2 (state beginning) a) }
{
    let mut st = beginning;
    'joins: loop {
        match past_sizes(alloc, sig, st)? {
            After::Smaller(new) => st = new,
            After::Joined(new) => st = new,
            After::Replaced(new) => return Ok(After::Replaced(new)),
            After::Ends(end) => return Ok(After::Ends(end)),
        }
    }
}

/// The end of the run of the equations. Three numbers fall on its way, each in a loop of its own: here the metavariables that stand
/// somewhere, with their parameters; within it the known variables, and innermost the size of the equations.
pub(crate) fn run(
    alloc: Global,
    sig: &Sig,
    scope: &Scope,
    eqs: &[Equation],
) -> Result<Ended, NoMemory>
    requires { AreToUnify sig.now (names scope.now) (map equation eqs.now) }
    ensures { IfOk result (λ e. Runs sig.now (start (names scope.now) (map equation eqs.now)) (end_of e)) }
{
    let _ = sig.prods();
    let mut st = start(alloc, scope, eqs)?;
    'turns: loop {
        match past_joins(alloc, sig, st)? {
            After::Smaller(new) => st = new,
            After::Joined(new) => st = new,
            After::Replaced(new) => st = new,
            After::Ends(end) => return Ok(end),
        }
    }
}
