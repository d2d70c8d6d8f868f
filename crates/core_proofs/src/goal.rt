// Whether a form has the goal of a proof.
ghost use Rattle.std.specs.Prelude.{◌≡◌, ◌↔◌, ◌++◌, IsTrue, map, IfOk, option_map};
ghost use Rattle.scheme_terms.specs.View.{names};
ghost use Rattle.pattern_unify.specs.Equations.{equation};
ghost use Rattle.rule_schemes.specs.Plain.{IsPlainTheory};
ghost use Rattle.rule_schemes.specs.View.{theory, judgment_scheme, statement};
ghost use Rattle.core_proofs.specs.FormEquations.{stays, stays_from, goal_equations};
ghost use Rattle.core_proofs.specs.Plain.{IsPlainForm};
ghost use Rattle.proof_trees.specs.Right.{IsProofScope};
ghost use Rattle.core_proofs.specs.Proof.{HasGoal};
ghost use Rattle.core_proofs.specs.Provable.{IsProvable};

use crate::rule_step::equations_of;
use binding_terms::NoMemory;
use pattern_unify::{Equation, fit_into};
use rule_schemes::{JScheme, Statement, System};
use scheme_terms::{MetaDecl, MetaId, Scheme, Scope};
use sqlite_items::Items;
use std::alloc::Global;

/// The equation by which the name at a place stays.
fn stay(alloc: Global, place: usize) -> Result<Equation, NoMemory>
    ensures { IfOk result (λ e. equation e ≡ stays place) }
{
    if place > u32::MAX as usize {
        return Err(NoMemory);
    }
    let name = MetaId(place as u32);
    Ok(Equation {
        scope: Items::new(alloc),
        left: Scheme::Meta(name, Items::new(alloc)),
        right: Scheme::Meta(name, Items::new(alloc)),
    })
}

/// Appends the equations by which the names stay.
fn add_names(
    alloc: Global,
    names: &[MetaDecl],
    equations: &mut Vec<Equation>,
) -> Result<(), NoMemory>
    ensures { IfOk result (λ _. map equation equations.new.items ≡ map equation equations.old.items ++ stays_from 0 names.now) }
{
    for i in 0..names.len() {
        let made = stay(alloc, i)?;
        equations.push(made)?;
    }
    Ok(())
}

/// The equations of a statement's conclusion with the form, by which the names of the proof's scope stay.
fn equations_of_goal(
    alloc: Global,
    of: &Statement,
    scope: &Scope,
    form: &JScheme,
) -> Result<Option<Vec<Equation>>, NoMemory>
    ensures { IfOk result (λ all. option_map (λ es. map equation es.items) all
        ≡ goal_equations (statement of.now) (names scope.now) (judgment_scheme form.now)) }
{
    let forms = [form];
    let Some(mut equations) = equations_of(alloc, of.outputs.as_slice(), &forms)? else {
        return Ok(None);
    };
    add_names(alloc, scope.metas.as_slice(), &mut equations)?;
    Ok(Some(equations))
}

/// Whether the form has the goal of the statement: whether one substitution of the goal's own names by schemes of the scope makes the
/// conclusion the form.
pub fn has_goal(
    alloc: Global,
    system: &System,
    of: &Statement,
    scope: &Scope,
    form: &JScheme,
) -> Result<bool, NoMemory>
    requires theory { IsPlainTheory (theory system.now) }
    requires provable { IsProvable (theory system.now) (statement of.now) }
    requires scope { IsProofScope (statement of.now) (names scope.now) }
    requires form { IsPlainForm (theory system.now) (names scope.now) (judgment_scheme form.now) }
    ensures { IfOk result (λ has. IsTrue has ↔ HasGoal (theory system.now) (statement of.now) (names scope.now) (judgment_scheme form.now)) }
{
    system.always_system();
    let equations = match equations_of_goal(alloc, of, scope, form)? {
        Some(equations) => equations,
        None => return Ok(false),
    };
    let found = fit_into(alloc, system.sig(), &of.scope, scope, &equations)?;
    Ok(found.is_some())
}
