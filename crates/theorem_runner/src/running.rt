// The value of a proof.
ghost use Rattle.std.specs.Prelude.{◌≡◌, ◌↔◌, ◌<◌, ◌^◌, ◌++◌, ◌∷◌, [], List, IsTrue, IfOk, None, Some, length, map, drop, slice_get, MatchOption};
ghost use Rattle.std.specs.List.{AllByRecursion};
ghost use Rattle.scheme_terms.specs.View.{context_value, instance};
ghost use Rattle.rule_schemes.specs.Rules.{judgment_instance};
ghost use Rattle.rule_schemes.specs.Derivation.{Derivation, node};
ghost use Rattle.rule_schemes.specs.Statement.{Instantiates};
ghost use Rattle.rule_schemes.specs.View.{judgment_scheme};
ghost use Rattle.core_proofs.specs.Kept.{kept_theory, kept_statements, kept_steps};
ghost use Rattle.core_proofs.specs.Step.{begin_theorem};
ghost use Rattle.core_proofs.specs.View.{step as plain_step};
ghost use Rattle.proof_trees.specs.Value.{subtrees};
ghost use Rattle.core_proofs.specs.Value.{given_trees as plain_trees, AreCitedTrees, Makes};
ghost use Rattle.core_proofs.specs.Trees.{whole_steps};
ghost use Rattle.theorem_runner.specs.Runs.{IsRun, Starts};
ghost use Rattle.theorem_runner.specs.TreeRuns.{IsValueOnTrees};
ghost use Rattle.derivation_check.specs.Inputs.{input_trees};

use crate::grounding::ground_form;
use crate::matching::given_instance;
use binding_terms::NoMemory;
use core_proofs::{Accepted, CoreStep, StepId, proof_scope};
use derivation_check::{Deriv, InputValue, Inputs};
use rule_schemes::{JScheme, RuleId, TheoremId};
use scheme_terms::{CtxValue, Inst};
use std::alloc::Global;

/// What a run gives: the derivations of the theorem's conclusions.
#[derive(Drop)]
pub struct RunResult {
    pub derivs: Vec<Deriv>,
}

/// The derivations that are given, shared.
fn given_trees(alloc: Global, inputs: &Inputs) -> Result<Vec<Deriv>, NoMemory>
    ensures { IfOk result (λ all. all.items ≡ plain_trees (input_trees inputs.now)) }
{
    let mut all = Vec::new(alloc);
    for input in inputs.items.as_slice() {
        if let InputValue::Tree(tree) = input {
            all.push(tree.copy(alloc)?)?;
        }
    }
    Ok(all)
}

/// The trees of cited steps, shared.
fn cited_trees(alloc: Global, made: &[Deriv], on: &[StepId]) -> Result<Vec<Deriv>, NoMemory>
    requires { AllByRecursion (λ n. n < length made.now) (map (λ id. id.0) on.now) }
    ensures { IfOk result (λ all. AreCitedTrees made.now (map (λ id. id.0) on.now) all.items) }
{
    let mut all = Vec::new(alloc);
    for id in on {
        let tree = made[id.0 as usize].copy(alloc)?;
        all.push(tree)?;
    }
    Ok(all)
}

/// The node of a rule with the instance of the step's form over the trees of the cited steps.
fn make_node(
    alloc: Global,
    inst: &Inst,
    made: &[Deriv],
    form: &JScheme,
    rule: RuleId,
    on: &[StepId],
) -> Result<Deriv, NoMemory>
    requires { AllByRecursion (λ n. n < length made.now) (map (λ id. id.0) on.now) }
    ensures { IfOk result (λ d. (cited : List Derivation) × AreCitedTrees made.now (map (λ id. id.0) on.now) cited
        × (d ≡ node rule.0 (judgment_instance (instance inst.now) (judgment_scheme form.now)) (subtrees cited))) }
{
    let judgment = ground_form(alloc, form, inst)?;
    let cited = cited_trees(alloc, made, on)?;
    Deriv::node(alloc, rule, judgment, cited)
}

/// The last of the trees.
fn last_of(made: Vec<Deriv>) -> Deriv
    requires { 0 < length made.items }
    ensures { (front : List Derivation) × (made.items ≡ front ++ result ∷ []) }
{
    let mut left = made;
    match left.pop() {
        Some(last) => last,
        None => unreachable!(),
    }
}

/// What the steps from this one on make of the trees that are given, up to the end of the proof.
fn make(
    alloc: Global,
    acc: &Accepted,
    from: usize,
    inst: &Inst,
    given: Vec<Deriv>,
) -> Result<Deriv, NoMemory>
    requires { Starts (kept_theory acc.now) (kept_statements acc.now) (instance inst.now) given.items (drop from (kept_steps acc.now)) }
    ensures { IfOk result (λ d. Makes (kept_theory acc.now) (instance inst.now) given.items None (drop from (kept_steps acc.now)) d) }
{
    let steps = acc.steps().as_slice();
    let mut made = given;
    for i in from..steps.len() {
        match &steps[i] {
            CoreStep::Rule {
                line: _,
                form,
                rule,
                on,
            } => {
                let tree = make_node(alloc, inst, made.as_slice(), form, *rule, on.as_slice())?;
                made.push(tree)?;
            }
            CoreStep::End { line: _ } => return Ok(last_of(made)),
            // Right steps do not begin a proof within one.
            CoreStep::Begin(_) => unreachable!(),
        }
    }
    // Right steps end each proof.
    unreachable!()
}

/// Whether the step begins the proof of the theorem.
fn begins(step: &CoreStep, theorem: TheoremId) -> bool
    ensures { IsTrue result ↔ (plain_step step.now ≡ begin_theorem theorem.0) }
{
    match step {
        CoreStep::Begin(other) => other.0 == theorem.0,
        _ => false,
    }
}

/// Where the proof of the theorem begins.
fn beginning(acc: &Accepted, theorem: TheoremId) -> usize
    requires { theorem.0 < length acc.now.statements }
    ensures begins { slice_get (kept_steps acc.now) result ≡ Some (begin_theorem theorem.0) }
    ensures small { result < 2 ^ 63 }
{
    acc.always_accepted();
    let steps = acc.steps().as_slice();
    for i in 0..steps.len() {
        if begins(&steps[i], theorem) {
            return i;
        }
    }
    // Each theorem has a proof.
    unreachable!()
}

/// Runs the theorem on inputs that instantiate it: follows its written proof, and gives the derivation of its conclusion.
pub fn run(
    alloc: Global,
    acc: &Accepted,
    theorem: TheoremId,
    ctx: &CtxValue,
    inputs: &Inputs,
) -> Result<RunResult, NoMemory>
    requires number { theorem.0 < length acc.now.statements }
    requires inputs { MatchOption (slice_get (kept_statements acc.now) theorem.0) ⊥
        (λ st. Instantiates (kept_theory acc.now) st (context_value ctx.now) (input_trees inputs.now)) }
    ensures value { IfOk result (λ r. IsRun (kept_theory acc.now) (kept_statements acc.now) (kept_steps acc.now) theorem.0
        (context_value ctx.now) (input_trees inputs.now) r.derivs.items) }
    ensures trees { IfOk result (λ r. IsValueOnTrees (kept_theory acc.now) (kept_statements acc.now) (whole_steps acc.now) theorem.0
        (context_value ctx.now) (input_trees inputs.now) r.derivs.items) }
{
    acc.always_accepted();
    let system = acc.system();
    system.always_system();
    let of = &acc.statements()[theorem.0 as usize];
    let scope = proof_scope(alloc, of)?;
    let inst = given_instance(alloc, system, of, &scope, ctx, inputs)?;
    let from = beginning(acc, theorem);
    let given = given_trees(alloc, inputs)?;
    let made = make(alloc, acc, from + 1, &inst, given)?;
    let mut derivs = Vec::new(alloc);
    derivs.push(made)?;
    Ok(RunResult { derivs })
}
