// Whether a step can stand where these things are in scope. One that cannot is refused with `BadStep`, before any other code.
ghost use Rattle.std.specs.Prelude.{◌↔◌, ℕ, List, MatchOption, IsTrue, IfOk, map, slice_get};
ghost use Rattle.rule_schemes.specs.Statement.{Theorem};
ghost use Rattle.rule_schemes.specs.View.{theory, judgment_scheme};
ghost use Rattle.proof_trees.specs.Faults.{CanStandSimple};
ghost use Rattle.proof_trees.specs.Steps.{by_rule, by_name, by_weakening, by_exchange, by_substitution, unproved};
ghost use Rattle.proof_kernel.specs.View.{here as plain_here};

use crate::form::{are_forms, is_form};
use crate::here::Here;
use crate::step::StepId;
use binding_terms::NoMemory;
use rule_schemes::{JScheme, RuleId, System};
use std::alloc::Global;

fn has_rule(system: &System, rule: RuleId) -> bool
    ensures { IsTrue result ↔ MatchOption (slice_get (theory system.now).rules rule.0) ⊥ (λ found. Unit {0}) }
{
    (rule.0 as usize) < system.rules().len()
}

/// Whether a step by a rule can stand: its form is one of the scope, each cited number is in scope, and there is the rule.
pub fn can_stand_by_rule(
    alloc: Global,
    system: &System,
    here: &Here,
    form: &JScheme,
    rule: RuleId,
    on: &[StepId],
) -> Result<bool, NoMemory>
    ensures { IfOk result (λ can. (sts : List Theorem) (line : ℕ) → IsTrue can ↔ CanStandSimple (theory system.now) sts (plain_here here.now)
        (by_rule line (judgment_scheme form.now) rule.0 (map (λ id. id.0) on.now))) }
{
    if !here.are_in_scope(on) || !has_rule(system, rule) {
        return Ok(false);
    }
    is_form(alloc, system, &here.scope, form)
}

/// Whether a step by names can stand: its forms are ones of the scope, and each cited number is in scope.
pub fn can_stand_again(
    alloc: Global,
    system: &System,
    here: &Here,
    forms: &[JScheme],
    of: &[StepId],
) -> Result<bool, NoMemory>
    ensures { IfOk result (λ can. (sts : List Theorem) (line : ℕ) → IsTrue can ↔ CanStandSimple (theory system.now) sts (plain_here here.now)
        (by_name line (map judgment_scheme forms.now) (map (λ id. id.0) of.now))) }
{
    if !here.are_in_scope(of) {
        return Ok(false);
    }
    are_forms(alloc, system, &here.scope, forms)
}

/// Whether a weakening and an exchange can stand: the form is one of the scope, and the cited number is in scope.
pub fn can_stand_changed(
    alloc: Global,
    system: &System,
    here: &Here,
    form: &JScheme,
    of: StepId,
) -> Result<bool, NoMemory>
    ensures weakening { IfOk result (λ can. (sts : List Theorem) (line : ℕ) → IsTrue can
        ↔ CanStandSimple (theory system.now) sts (plain_here here.now) (by_weakening line (judgment_scheme form.now) of.0)) }
    ensures exchange { IfOk result (λ can. (sts : List Theorem) (line : ℕ) → IsTrue can
        ↔ CanStandSimple (theory system.now) sts (plain_here here.now) (by_exchange line (judgment_scheme form.now) of.0)) }
{
    if !here.is_in_scope(of) {
        return Ok(false);
    }
    is_form(alloc, system, &here.scope, form)
}

/// Whether a substitution can stand: the form is one of the scope, and both cited numbers are in scope.
pub fn can_stand_substituted(
    alloc: Global,
    system: &System,
    here: &Here,
    form: &JScheme,
    of: StepId,
    by: StepId,
) -> Result<bool, NoMemory>
    ensures { IfOk result (λ can. (sts : List Theorem) (line : ℕ) → IsTrue can
        ↔ CanStandSimple (theory system.now) sts (plain_here here.now) (by_substitution line (judgment_scheme form.now) of.0 by.0)) }
{
    if !here.is_in_scope(of) || !here.is_in_scope(by) {
        return Ok(false);
    }
    is_form(alloc, system, &here.scope, form)
}

/// Whether an unproved step can stand: its forms are ones of the scope.
pub fn can_stand_unproved(
    alloc: Global,
    system: &System,
    here: &Here,
    forms: &[JScheme],
) -> Result<bool, NoMemory>
    ensures { IfOk result (λ can. (sts : List Theorem) (line : ℕ) → IsTrue can
        ↔ CanStandSimple (theory system.now) sts (plain_here here.now) (unproved line (map judgment_scheme forms.now))) }
{
    are_forms(alloc, system, &here.scope, forms)
}
