// Whether a file is right.
ghost use Rattle.std.specs.Prelude.{◌≡◌, ◌↔◌, ◌<◌, ◌^◌, IsTrue, IfOk, MatchOption, map, length, vec_len};
ghost use Rattle.std.specs.List.{AllByRecursion};
ghost use Rattle.outline_reader.specs.Plain.{outlined};
ghost use Rattle.user_grammar.specs.Grammar.{IsSignatureOf};
ghost use Rattle.user_grammar.specs.Bare.{IsBareSignature};
ghost use Rattle.judgments.specs.Theory.{IsTheoryOf};
ghost use Rattle.judgments.specs.Statements.{AreStatementsOf};
ghost use Rattle.judgments.specs.Bare.{IsBareTheory, IsBareStatement};
ghost use Rattle.rule_schemes.specs.Plain.{IsPlainTheory};
ghost use Rattle.rule_schemes.specs.View.{theory, statement as plain_statement};
ghost use Rattle.core_proofs.specs.View.{step as plain_step};
ghost use Rattle.core_proofs.specs.Proof.{Proves};
ghost use Rattle.core_proofs.specs.Provable.{IsProvable};
ghost use Rattle.proof_check.specs.File.{IsFileOf, IsBuiltFileOf, IsOnlyFile};

use crate::bare::is_bare;
use crate::proofs::steps_of;
use binding_terms::{NoMemory, Sig};
use core_proofs::{Accepted, CoreStep, Proving};
use judgments::{statements_of, system_of};
use outline_reader::Outline;
use rule_schemes::{Statement, System};
use std::alloc::Global;
use sy_base::Refusal;
use user_grammar::signatures_are_unique;

/// Proofs of the statements by the steps, or none where a step is not right or a theorem has no proof.
fn prove(
    alloc: Global,
    system: System,
    statements: Vec<Statement>,
    steps: Vec<CoreStep>,
) -> Result<Option<Accepted>, NoMemory>
    requires plain { IsPlainTheory (theory system) }
    requires provable { AllByRecursion (IsProvable (theory system)) (map plain_statement statements.items) }
    requires count { vec_len statements < 2 ^ 32 }
    ensures { IfOk result (λ found. MatchOption found
        (Proves (theory system) (map plain_statement statements.items) (map plain_step steps.items) → ⊥)
        (λ accepted. (accepted ≡ record { system = system; statements = statements.items; steps = steps.items })
        × Proves (theory system) (map plain_statement statements.items) (map plain_step steps.items))) }
{
    let mut proving = Proving::open(alloc, system, statements)?;
    for step in steps {
        match proving.accept_step(step) {
            Ok(()) => {}
            Err(Refusal::NoMemory) => return Err(NoMemory),
            Err(Refusal::Refused(_)) => return Ok(None),
        }
    }
    match proving.finish() {
        Ok(accepted) => Ok(Some(accepted)),
        Err(_) => Ok(None),
    }
}

/// Whether each statement has one conclusion.
fn have_one_conclusion(statements: &[Statement]) -> bool
    ensures { IsTrue result ↔ AllByRecursion (λ st. length st.outputs ≡ 1) (map plain_statement statements.now) }
{
    for statement in statements {
        if statement.outputs.len() != 1 {
            return false;
        }
    }
    true
}

/// The proofs of a file whose statements are told.
fn proofs_of(
    alloc: Global,
    outline: &Outline<'_>,
    system: System,
    statements: Vec<Statement>,
) -> Result<Option<Accepted>, NoMemory>
    requires signature { IsSignatureOf (outlined outline.now) (theory system).sig }
    requires theory { IsTheoryOf (outlined outline.now) (theory system) }
    requires bare { IsBareTheory (theory system) }
    requires statements { AreStatementsOf (outlined outline.now) (theory system) (map plain_statement statements.items) }
    requires bare_statements { AllByRecursion IsBareStatement (map plain_statement statements.items) }
    requires ones { AllByRecursion (λ st. length st.outputs ≡ 1) (map plain_statement statements.items) }
    requires count { vec_len statements < 2 ^ 32 }
    ensures { IfOk result (IsOnlyFile (λ th sts steps. (th ≡ theory system) × (sts ≡ map plain_statement statements.items)
        × IsFileOf (outlined outline.now) th sts steps)) }
{
    match steps_of(alloc, outline, &system, &statements)? {
        Some(steps) => prove(alloc, system, statements, steps),
        None => Ok(None),
    }
}

/// The statements and proofs of a file whose theory is told.
fn theorems_of(
    alloc: Global,
    outline: &Outline<'_>,
    system: System,
) -> Result<Option<Accepted>, NoMemory>
    requires signature { IsSignatureOf (outlined outline.now) (theory system).sig }
    requires theory { IsTheoryOf (outlined outline.now) (theory system) }
    requires bare { IsBareTheory (theory system) }
    ensures { IfOk result (IsOnlyFile (λ th sts steps. (th ≡ theory system) × IsBuiltFileOf (outlined outline.now) th sts steps)) }
{
    match statements_of(alloc, outline, &system)? {
        Some(statements) => {
            if statements.len() >= 1 << 32 {
                return Err(NoMemory);
            }
            if !have_one_conclusion(&statements) {
                return Ok(None);
            }
            proofs_of(alloc, outline, system, statements)
        }
        None => Ok(None),
    }
}

/// The theory, statements and proofs of a file whose signature is told.
fn theory_of(alloc: Global, outline: &Outline<'_>, sig: Sig) -> Result<Option<Accepted>, NoMemory>
    requires signature { IsSignatureOf (outlined outline.now) sig }
    requires bare { IsBareSignature sig }
    ensures { IfOk result (IsOnlyFile (λ th sts steps. (th.sig ≡ sig) × IsBuiltFileOf (outlined outline.now) th sts steps)) }
{
    match system_of(alloc, outline, sig)? {
        Some(system) => theorems_of(alloc, outline, system),
        None => Ok(None),
    }
}

/// What the portions of a file with this signature stand for, or none where they are no right file.
pub(crate) fn over_signature(
    alloc: Global,
    outline: &Outline<'_>,
    sig: Sig,
) -> Result<Option<Accepted>, NoMemory>
    requires { IsSignatureOf (outlined outline.now) sig }
    ensures { IfOk result (IsOnlyFile (IsBuiltFileOf (outlined outline.now))) }
{
    signatures_are_unique();
    if !is_bare(&sig) {
        return Ok(None);
    }
    theory_of(alloc, outline, sig)
}
