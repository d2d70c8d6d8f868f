// The first fault of a statement.
ghost use Rattle.std.specs.Prelude.{◌<◌, ◌^◌, ◌∷◌, [], IfSome, IfNone, length, map};
ghost use Rattle.std.specs.List.{AllByRecursion};
ghost use Rattle.rule_schemes.specs.Statement.{IsStatement};
ghost use Rattle.rule_schemes.specs.StatementFault.{given_forms, statement_forms, FormMayStand, IsFirstOutOfPlace};
ghost use Rattle.rule_schemes.specs.View.{judgment_scheme, statement_input, statement, theory};

use crate::rule::{Input, JScheme, JudgId, Statement};
use crate::system::System;
use scheme_terms::Root;

/// The judgment of the first form that may not stand under the root.
fn first_form(system: &System, root: Root, forms: &[JScheme]) -> Option<JudgId>
    requires { AllByRecursion (λ p. p.judgment < length system.now.judgments) (map judgment_scheme forms.now) }
    ensures some { IfSome result (λ j. IsFirstOutOfPlace (theory system.now) root (map judgment_scheme forms.now) j.0) }
    ensures none { IfNone result (AllByRecursion (FormMayStand (theory system.now) root) (map judgment_scheme forms.now)) }
{
    for form in forms {
        if !system.may_stand(root, form.ctx.root, form.judgment) {
            return Some(form.judgment);
        }
    }
    None
}

/// The judgment of the input, where it may not stand under the root.
fn out_of_place(system: &System, root: Root, input: &Input) -> Option<JudgId>
    requires { AllByRecursion (λ p. p.judgment < length system.now.judgments) (given_forms (statement_input input.now ∷ [])) }
    ensures some { IfSome result (λ j. IsFirstOutOfPlace (theory system.now) root (given_forms (statement_input input.now ∷ [])) j.0) }
    ensures none { IfNone result (AllByRecursion (FormMayStand (theory system.now) root) (given_forms (statement_input input.now ∷ []))) }
{
    match input {
        Input::Given(form) => {
            if system.may_stand(root, form.ctx.root, form.judgment) {
                None
            } else {
                Some(form.judgment)
            }
        }
        Input::Syntax(_) => None,
    }
}

/// The judgment of the first input that may not stand under the root.
fn first_input(system: &System, root: Root, inputs: &[Input]) -> Option<JudgId>
    requires { AllByRecursion (λ p. p.judgment < length system.now.judgments) (given_forms (map statement_input inputs.now)) }
    ensures some { IfSome result (λ j. IsFirstOutOfPlace (theory system.now) root (given_forms (map statement_input inputs.now)) j.0) }
    ensures none { IfNone result (AllByRecursion (FormMayStand (theory system.now) root) (given_forms (map statement_input inputs.now))) }
{
    for input in inputs {
        if let Some(j) = out_of_place(system, root, input) {
            return Some(j);
        }
    }
    None
}

/// The judgment of the first form of the statement that may not stand under its root, inputs first.
pub(crate) fn first_out_of_place(system: &System, of: &Statement) -> Option<JudgId>
    requires { IsStatement (theory system.now) (statement of.now) }
    ensures some { IfSome result (λ j. IsFirstOutOfPlace (theory system.now) of.now.scope.root (statement_forms (statement of.now)) j.0) }
    ensures none { IfNone result (AllByRecursion (FormMayStand (theory system.now) of.now.scope.root) (statement_forms (statement of.now))) }
{
    let root = of.scope.root;
    if let Some(j) = first_input(system, root, of.inputs.as_slice()) {
        return Some(j);
    }
    if let Some(j) = first_form(system, root, of.outputs.as_slice()) {
        return Some(j);
    }
    None
}
