//! Unification of patterns under binders, by the written run.
ghost use Rattle.std.specs.Prelude.{IfOk, map};
ghost use Rattle.scheme_terms.specs.View.{names, substitution};
ghost use Rattle.pattern_unify.specs.Equations.{equation, AreToUnify};
ghost use Rattle.pattern_unify.specs.Answers.{unify_answer, IsUnifyAnswer};

use crate::equation::Equation;
use crate::left::found_over_left;
use crate::running::{Ended, run};
use crate::unified::Unified;
use binding_terms::{NoMemory, Sig};
use scheme_terms::Scope;
use std::alloc::Global;

/// A most general substitution that makes the sides of each equation the same; none where there is no common instance; the equations
/// that are left, in order, where the written run ends stuck.
pub fn unify(
    alloc: Global,
    sig: &Sig,
    scope: &Scope,
    eqs: &Vec<Equation>,
) -> Result<Unified, NoMemory>
    requires { AreToUnify sig.now (names scope.now) (map equation eqs.now.items) }
    ensures { IfOk result (λ answer. IsUnifyAnswer sig.now (names scope.now) (map equation eqs.now.items) (unify_answer answer)) }
{
    let _ = sig.prods();
    match run(alloc, sig, scope, eqs.as_slice())? {
        Ended::Solved(st) => Ok(Unified::Unifier(found_over_left(alloc, &st)?)),
        Ended::Clashed => Ok(Unified::NoUnifier),
        Ended::Stuck(st) => Ok(Unified::Outside(st.equations)),
    }
}
