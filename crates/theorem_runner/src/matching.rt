// The instance of a theorem's inputs.
ghost use Rattle.std.specs.Prelude.{◌≡◌, ◌↔◌, ◌<◌, IsTrue, IfOk, Some, length, option_map, slice_get, MatchOption};
ghost use Rattle.std.specs.List.{AllByRecursion};
ghost use Rattle.scheme_terms.specs.View.{names, context_value, instance};
ghost use Rattle.rule_schemes.specs.Plain.{IsPlainTheory};
ghost use Rattle.rule_schemes.specs.View.{theory, statement};
ghost use Rattle.rule_schemes.specs.Statement.{Instantiates};
ghost use Rattle.core_proofs.specs.Kept.{kept_theory, kept_statements};
ghost use Rattle.proof_trees.specs.Right.{IsProofScope};
ghost use Rattle.core_proofs.specs.Provable.{IsProvable};
ghost use Rattle.theorem_runner.specs.Instances.{no_context_value, IsDerived, Gives, IsOnlyInstance};
ghost use Rattle.derivation_check.specs.Inputs.{input_trees};

use binding_terms::NoMemory;
use core_proofs::{Accepted, proof_scope};
use derivation_check::{InputValue, Inputs};
use rule_schemes::{Input, Statement, System, TheoremId};
use scheme_match::Matcher;
use scheme_terms::{CtxValue, Inst, Scope};
use sqlite_items::Items;
use std::alloc::Global;

/// The one instance of the names in the inputs that gives the inputs, or none where there is none.
pub(crate) fn instance_of_inputs(
    alloc: Global,
    system: &System,
    of: &Statement,
    scope: &Scope,
    root: &CtxValue,
    inputs: &Inputs,
) -> Result<Option<Inst>, NoMemory>
    requires theory { IsPlainTheory (theory system.now) }
    requires provable { IsProvable (theory system.now) (statement of.now) }
    requires scope { IsProofScope (statement of.now) (names scope.now) }
    requires root { context_value root.now ≡ no_context_value }
    requires derived { AllByRecursion (IsDerived (theory system.now)) (input_trees inputs.now) }
    ensures { IfOk result (λ answer. IsOnlyInstance (theory system.now) (statement of.now) (names scope.now) (context_value root.now)
        (input_trees inputs.now) (option_map instance answer)) }
{
    system.always_system();
    if inputs.items.len() != of.inputs.len() {
        return Ok(None);
    }
    let mut matcher = Matcher::new(alloc, system.sig(), scope.metas.as_slice(), &[], root)?;
    for i in 0..inputs.items.len() {
        match &of.inputs.as_slice()[i] {
            Input::Given(form) => match &inputs.items[i] {
                InputValue::Tree(tree) => matcher.add(form, tree.conclusion())?,
                InputValue::Syntax(_) => return Ok(None),
            },
            Input::Syntax(_) => return Ok(None),
        }
    }
    matcher.finish()
}

/// The instance that gives inputs which instantiate the statement.
pub(crate) fn given_instance(
    alloc: Global,
    system: &System,
    of: &Statement,
    scope: &Scope,
    root: &CtxValue,
    inputs: &Inputs,
) -> Result<Inst, NoMemory>
    requires theory { IsPlainTheory (theory system.now) }
    requires provable { IsProvable (theory system.now) (statement of.now) }
    requires scope { IsProofScope (statement of.now) (names scope.now) }
    requires inputs { Instantiates (theory system.now) (statement of.now) (context_value root.now) (input_trees inputs.now) }
    ensures { IfOk result (λ inst. Gives (theory system.now) (statement of.now) (names scope.now) (context_value root.now) (input_trees inputs.now) (instance inst)) }
{
    system.always_system();
    match instance_of_inputs(alloc, system, of, scope, root, inputs)? {
        Some(inst) => Ok(inst),
        // There is one, since the inputs instantiate the statement.
        None => unreachable!(),
    }
}

/// Whether the inputs, each of them a derivation, instantiate the theorem: whether one instance of the statement makes their judgments
/// those of its inputs.
pub fn instantiates(
    alloc: Global,
    acc: &Accepted,
    theorem: TheoremId,
    inputs: &Inputs,
) -> Result<bool, NoMemory>
    requires number { theorem.0 < length acc.now.statements }
    requires derived { AllByRecursion (IsDerived (kept_theory acc.now)) (input_trees inputs.now) }
    ensures { IfOk result (λ is. MatchOption (slice_get (kept_statements acc.now) theorem.0) ⊥
        (λ st. IsTrue is ↔ Instantiates (kept_theory acc.now) st no_context_value (input_trees inputs.now))) }
{
    acc.always_accepted();
    let system = acc.system();
    system.always_system();
    let of = &acc.statements()[theorem.0 as usize];
    let scope = proof_scope(alloc, of)?;
    let root = CtxValue {
        cat: None,
        entries: Items::new(alloc),
    };
    let found = instance_of_inputs(alloc, system, of, &scope, &root, inputs)?;
    Ok(found.is_some())
}
