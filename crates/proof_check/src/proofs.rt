// The proofs of a file.
ghost use Rattle.std.specs.Prelude.{◌≡◌, ◌<◌, ◌≤◌, ◌↔◌, ℕ, suc, IsTrue, IfOk, MatchOption, List, map, length, drop};
ghost use Rattle.scheme_terms.specs.Forms.{Names};
ghost use Rattle.scheme_terms.specs.View.{names as plain_names};
ghost use Rattle.rule_schemes.specs.Said.{want_judgment};
ghost use Rattle.rule_schemes.specs.Statement.{Theorem};
ghost use Rattle.rule_schemes.specs.View.{statement as plain, theory};
ghost use Rattle.notation_parser.specs.Plain.{IsPlain};
ghost use Rattle.notation_parser.specs.View.{reading_scope};
ghost use Rattle.outline_reader.specs.Views.{input_view, portion_view};
ghost use Rattle.outline_reader.specs.Plain.{plain_input, plain_portion, outlined};
ghost use Rattle.core_proofs.specs.Step.{Step};
ghost use Rattle.core_proofs.specs.View.{step};
ghost use Rattle.proof_check.specs.Finding.{Finds, Adds};
ghost use Rattle.proof_check.specs.Plain.{ArePlainStatements};
ghost use Rattle.proof_check.specs.View.{plain_portions};
ghost use Rattle.proof_check.specs.Cited.{given_names};
ghost use Rattle.proof_check.specs.Steps.{EndsProof, IsProofEnd, HoldsNoProof, BeginsProof, AreStepsFrom, AreProofSteps, AreStepsOf};

use crate::names::given;
use crate::scope::{scope_of_proof, settled};
use crate::step::{Made, step_of};
use binding_terms::{NoMemory, Text, number};
use core_proofs::CoreStep;
use outline_reader::{InputText, Outline, Part, Portion};
use rule_schemes::{ReadScope, Statement, System, TheoremId};
use sqlite_items::{Items, at};
use std::alloc::Global;

fn ends_proof(part: Part) -> bool
    ensures { IsTrue result ↔ EndsProof part }
{
    match part {
        Part::Theorem => true,
        Part::Lemma => true,
        _ => false,
    }
}

/// The line of the `end` of a theorem or lemma.
fn proof_end(portion: &Portion<'_>) -> Option<u32>
    ensures { Finds (IsProofEnd (plain_portion (portion_view portion.now))) result }
{
    match portion {
        Portion::End { first, part } => {
            if ends_proof(*part) {
                return Some(first.line);
            }
            None
        }
        _ => None,
    }
}

/// Appends the steps of a proof whose portions begin at that place, and gives the place behind its `end` line.
fn add_proof(
    alloc: Global,
    sys: &System,
    statement: &Statement,
    scope: &ReadScope,
    mut named: Items<Text>,
    portions: &[Portion<'_>],
    from: usize,
    steps: &mut Vec<CoreStep>,
) -> Result<Option<usize>, NoMemory>
    requires plain { IsPlain sys.now.sig sys.now.judgments (reading_scope scope.now) want_judgment }
    requires from { from ≤ length portions.now }
    ensures { let th = theory sys.now in let st = plain statement.now in let names = plain_names scope.now.scope in
        let here = plain_portions (drop from portions.now) in
        IfOk result (λ found. MatchOption found
        ((sts : List Theorem) (k : ℕ) (all : List Step) → AreProofSteps th sts k st names named None here all → ⊥)
        (λ next. (from ≤ next) × (next ≤ length portions.now)
        × ((sts : List Theorem) (k : ℕ) → Adds (map step steps.old.items) (map step steps.new.items)
        (AreProofSteps th sts k st names named None here)
        (AreStepsFrom th sts (suc k) (plain_portions (drop next portions.now)))))) }
{
    let mut last = None;
    for i in from..portions.len() {
        let portion = &portions[i];
        match proof_end(portion) {
            Some(line) => {
                steps.push(CoreStep::End {
                    line: last.unwrap_or(line),
                })?;
                return Ok(Some(i + 1));
            }
            None => match step_of(alloc, sys, statement, scope, named.as_slice(), portion)? {
                Some(Made { name, line, step }) => {
                    named.push(name)?;
                    steps.push(step)?;
                    last = Some(line);
                }
                None => return Ok(None),
            },
        }
    }
    Ok(None)
}

/// Appends the steps of the theorem with that number, whose proof begins at that place, and gives the place behind its `end` line.
fn add_theorem(
    alloc: Global,
    sys: &System,
    statements: &[Statement],
    theorem: usize,
    inputs: &[InputText<'_>],
    portions: &[Portion<'_>],
    from: usize,
    steps: &mut Vec<CoreStep>,
) -> Result<Option<usize>, NoMemory>
    requires plain { ArePlainStatements (theory sys.now) (map plain statements.now) }
    requires from { from ≤ length portions.now }
    ensures { let th = theory sys.now in let sts = map plain statements.now in
        let given = given_names (map plain_input (map input_view inputs.now)) in
        let follows = λ (st : Theorem) (scope : Names).
        AreProofSteps th sts theorem st scope given None (plain_portions (drop from portions.now)) in
        IfOk result (λ found. MatchOption found
        ((all : List Step) → BeginsProof sts theorem follows all → ⊥)
        (λ next. (from ≤ next) × (next ≤ length portions.now)
        × Adds (map step steps.old.items) (map step steps.new.items) (BeginsProof sts theorem follows)
        (AreStepsFrom th sts (suc theorem) (plain_portions (drop next portions.now))))) }
{
    let statement = match at(statements, theorem) {
        Some(statement) => statement,
        None => return Ok(None),
    };
    let scope = match scope_of_proof(alloc, statement)? {
        Some(scope) => settled(alloc, scope),
        None => return Ok(None),
    };
    let named = given(alloc, inputs)?;
    steps.push(CoreStep::Begin(TheoremId(number(theorem)?)))?;
    match add_proof(alloc, sys, statement, &scope, named, portions, from, steps)? {
        Some(next) => Ok(Some(next)),
        None => Ok(None),
    }
}

fn holds_no_proof(portion: &Portion<'_>) -> bool
    ensures { IsTrue result ↔ HoldsNoProof (plain_portion (portion_view portion.now)) }
{
    match portion {
        Portion::Terminals { .. } => true,
        Portion::Syntax { .. } => true,
        Portion::Category { .. } => true,
        Portion::Judgment { .. } => true,
        Portion::Rule { .. } => true,
        _ => false,
    }
}

/// Appends the steps of the part of the file at that place, where so many theorems stand before, and gives the place behind it with the
/// number of theorems up to there.
fn add_part(
    alloc: Global,
    sys: &System,
    statements: &[Statement],
    theorem: usize,
    portions: &[Portion<'_>],
    at: usize,
    steps: &mut Vec<CoreStep>,
) -> Result<Option<(usize, usize)>, NoMemory>
    requires plain { ArePlainStatements (theory sys.now) (map plain statements.now) }
    requires at { at < length portions.now }
    requires theorem { theorem ≤ at }
    ensures { let th = theory sys.now in let sts = map plain statements.now in
        let here = plain_portions (drop at portions.now) in
        IfOk result (λ found. MatchOption found
        ((all : List Step) → AreStepsFrom th sts theorem here all → ⊥)
        (λ next. (at < next.0) × (next.0 ≤ length portions.now) × (next.1 ≤ next.0)
        × Adds (map step steps.old.items) (map step steps.new.items) (AreStepsFrom th sts theorem here)
        (AreStepsFrom th sts next.1 (plain_portions (drop next.0 portions.now))))) }
{
    match &portions[at] {
        Portion::Theorem { inputs, .. } => match add_theorem(
            alloc,
            sys,
            statements,
            theorem,
            inputs.as_slice(),
            portions,
            at + 1,
            steps,
        )? {
            Some(next) => Ok(Some((next, theorem + 1))),
            None => Ok(None),
        },
        other => {
            if holds_no_proof(other) {
                return Ok(Some((at + 1, theorem)));
            }
            Ok(None)
        }
    }
}

/// The core steps for which the proofs of a file stand, over its system and its statements ("Steps" of docs/notation.md). None where they
/// stand for none: where a step does not go by a rule, its form has not one reading, a name is not in scope or taken, or there are not as
/// many statements as theorems.
pub fn steps_of(
    alloc: Global,
    outline: &Outline<'_>,
    sys: &System,
    statements: &[Statement],
) -> Result<Option<Vec<CoreStep>>, NoMemory>
    requires { ArePlainStatements (theory sys.now) (map plain statements.now) }
    ensures { let th = theory sys.now in let sts = map plain statements.now in
        IfOk result (λ found. MatchOption found
        ((steps : List Step) → AreStepsOf (outlined outline.now) th sts steps → ⊥)
        (λ found. AreStepsOf (outlined outline.now) th sts (map step found.items)
        × ((steps : List Step) → AreStepsOf (outlined outline.now) th sts steps → steps ≡ map step found.items))) }
{
    let portions = outline.parts.as_slice();
    let mut steps = Vec::new(alloc);
    let mut theorem = 0;
    let mut at = 0;
    while at < portions.len() {
        match add_part(alloc, sys, statements, theorem, portions, at, &mut steps)? {
            Some((next, count)) => {
                at = next;
                theorem = count;
            }
            None => return Ok(None),
        }
    }
    if theorem != statements.len() {
        return Ok(None);
    }
    Ok(Some(steps))
}
