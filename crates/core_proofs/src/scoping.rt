// The scope in which a proof begins, and the forms of its inputs.
ghost use Rattle.std.specs.Prelude.{◌≡◌, ◌↔◌, ◌≤◌, IsTrue, map, drop, length, IfOk};
ghost use Rattle.binding_terms.specs.Numbered.{AllNumbered};
ghost use Rattle.scheme_terms.specs.View.{names};
ghost use Rattle.rule_schemes.specs.Statement.{IsOfInputs};
ghost use Rattle.rule_schemes.specs.View.{judgment_scheme, statement_input, statement};
ghost use Rattle.proof_trees.specs.Right.{IsProofScope};
ghost use Rattle.core_proofs.specs.Proof.{given_judgments};
ghost use Rattle.scheme_terms.specs.Forms.{Names};
ghost use Rattle.core_proofs.specs.Provable.{CountsInputs};

use binding_terms::{NoMemory, number};
use rule_schemes::{Input, JScheme, Statement, copy_judgment, is_of_inputs};
use scheme_terms::{MetaId, Scope, copy_metas};
use sqlite_items::Items;
use std::alloc::Global;

/// How many of the statement's names from the first on stand in its inputs.
fn count_of_inputs(of: &Statement) -> Result<usize, NoMemory>
    ensures { IfOk result (λ n. CountsInputs (statement of.now) n) }
{
    for i in 0..of.scope.metas.len() {
        if !is_of_inputs(MetaId(number(i)?), of) {
            return Ok(i);
        }
    }
    Ok(of.scope.metas.len())
}

/// Whether no name from this one on stands in an input.
fn are_goal_names(of: &Statement, from: usize) -> Result<bool, NoMemory>
    requires { from ≤ length of.now.scope.metas }
    ensures { IfOk result (λ are. IsTrue are
        ↔ AllNumbered (λ m decl. IsOfInputs (statement of.now) m → ⊥) from (drop from of.now.scope.metas)) }
{
    for i in from..of.scope.metas.len() {
        if is_of_inputs(MetaId(number(i)?), of) {
            return Ok(false);
        }
    }
    Ok(true)
}

/// Whether there is a scope in which the proof of the statement begins: no name that stands in the conclusion alone comes before a
/// name of the inputs.
pub fn has_proof_scope(of: &Statement) -> Result<bool, NoMemory>
    ensures { IfOk result (λ has. IsTrue has ↔ ((scope : Names) × IsProofScope (statement of.now) scope)) }
{
    let count = count_of_inputs(of)?;
    let further = are_goal_names(of, count)?;
    Ok(further)
}

/// The scope in which the proof of a statement begins: its names without those that stand in the conclusion alone.
pub fn proof_scope(alloc: Global, of: &Statement) -> Result<Scope, NoMemory>
    requires last { (scope : Names) × IsProofScope (statement of.now) scope }
    ensures { IfOk result (λ scope. IsProofScope (statement of.now) (names scope)) }
{
    let count = count_of_inputs(of)?;
    let metas = copy_metas(alloc, &of.scope.metas.as_slice()[..count])?;
    Ok(Scope {
        root: of.scope.root,
        metas,
        knowns: Items::new(alloc),
    })
}

/// The forms of the derivations that are given.
pub(crate) fn given_forms(alloc: Global, inputs: &[Input]) -> Result<Vec<JScheme>, NoMemory>
    ensures { IfOk result (λ all. map judgment_scheme all.items ≡ given_judgments (map statement_input inputs.now)) }
{
    let mut all = Vec::new(alloc);
    for input in inputs {
        if let Input::Given(form) = input {
            all.push(copy_judgment(alloc, form)?)?;
        }
    }
    Ok(all)
}
