// What is in scope where the proof of a theorem begins.
ghost use Rattle.std.specs.Prelude.{◌≡◌, [], IfOk, OnOk, OnErr, map, option_map, slice_get, unwrap_or, None};
ghost use Rattle.scheme_terms.specs.View.{names, scheme};
ghost use Rattle.rule_schemes.specs.View.{statement, statement_input};
ghost use Rattle.proof_trees.specs.Here.{input_marks, given_held, scheme_of_input, target_values, beginning};
ghost use Rattle.proof_kernel.specs.View.{held as plain_held, here as plain_here, standing};
ghost use Rattle.proof_kernel.specs.Moves as moves;

use crate::goal::copy_forms;
use crate::here::{Goal, Held, Here};
use crate::standing::{Last, Standing};
use binding_terms::NoMemory;
use induction_order::Rel;
use rule_schemes::{Input, Statement, copy_judgment};
use scheme_terms::{MetaDecl, Scheme, Scope, copy_metas, copy_scope};
use sqlite_items::{Items, at};
use std::alloc::Global;

/// The marks of the input with that number against the targets.
fn marks_of(alloc: Global, number: usize, targets: &[u32]) -> Result<Items<Rel>, NoMemory>
    ensures { IfOk result (λ marks. marks ≡ input_marks number targets.now) }
{
    let mut marks = Items::new(alloc);
    for target in targets {
        if number == *target as usize {
            marks.push(Rel::Equal)?;
        } else {
            marks.push(Rel::Unknown)?;
        }
    }
    Ok(marks)
}

/// The derivations that are given, each with its marks.
fn held_inputs(
    alloc: Global,
    targets: &[u32],
    inputs: &[Input],
) -> Result<Items<Option<Held>>, NoMemory>
    ensures { IfOk result (λ all. map (option_map plain_held) all ≡ given_held 0 targets.now (map statement_input inputs.now)) }
{
    let mut all = Items::new(alloc);
    for number in 0..inputs.len() {
        if let Input::Given(form) = &inputs[number] {
            let form = copy_judgment(alloc, form)?;
            let relations = marks_of(alloc, number, targets)?;
            all.push(Some(Held { form, relations }))?;
        }
    }
    Ok(all)
}

/// The value of a target at the beginning: a term that is an input is itself, a derivation has none.
fn value_of(alloc: Global, inputs: &[Input], target: u32) -> Option<Scheme>
    ensures { option_map scheme result ≡ unwrap_or (option_map scheme_of_input (slice_get (map statement_input inputs.now) target)) None }
{
    match at(inputs, target as usize) {
        Some(Input::Syntax(m)) => Some(Scheme::Meta(*m, Items::new(alloc))),
        Some(Input::Given(_)) => None,
        None => None,
    }
}

/// The values of the targets at the beginning.
fn values_of(
    alloc: Global,
    inputs: &[Input],
    targets: &[u32],
) -> Result<Items<Option<Scheme>>, NoMemory>
    ensures { IfOk result (λ all. map (option_map scheme) all ≡ target_values (map statement_input inputs.now) targets.now) }
{
    let mut all = Items::new(alloc);
    for target in targets {
        all.push(value_of(alloc, inputs, *target))?;
    }
    Ok(all)
}

impl Here {
    /// At the beginning of a theorem's proof over the scope, whose goal has these names of its own.
    fn beginning(
        alloc: Global,
        of: &Statement,
        scope: &Scope,
        goal_names: &[MetaDecl],
    ) -> Result<Here, NoMemory>
        ensures { IfOk result (λ new. plain_here new ≡ beginning (statement of.now) (names scope.now) goal_names.now) }
    {
        let goal = Goal {
            outer: scope.metas.len(),
            names: copy_metas(alloc, goal_names)?,
            forms: copy_forms(alloc, of.outputs.as_slice())?,
        };
        Ok(Here {
            scope: copy_scope(alloc, scope)?,
            held: held_inputs(alloc, of.targets.as_slice(), of.inputs.as_slice())?,
            targets: values_of(alloc, of.inputs.as_slice(), of.targets.as_slice())?,
            goal,
        })
    }
}

impl Standing {
    /// The proof of the next theorem begins, over the scope, with a goal that has these names of its own.
    pub fn begin(
        &mut self,
        alloc: Global,
        of: &Statement,
        scope: &Scope,
        goal_names: &[MetaDecl],
    ) -> Result<(), NoMemory>
        ensures ok { OnOk result (standing self.new ≡ moves.begun (statement of.now) (names scope.now) goal_names.now (standing self.old)) }
        ensures err { OnErr result (self.new ≡ self.old) }
    {
        let theorem = match self {
            Standing::Outside { ended } => *ended,
            _ => return Ok(()),
        };
        let here = Here::beginning(alloc, of, scope, goal_names)?;
        *self = Standing::Within {
            theorem,
            here,
            last: Last::NoStep,
            blocks: Vec::new(alloc),
        };
        Ok(())
    }
}
