// What is said of a file.
ghost use Rattle.std.specs.Prelude.{◌↔◌, ◌-◌, ◌<◌, ◌^◌, IsTrue, IfOk, length, map};
ghost use Rattle.std.specs.List.{AllByRecursion};
ghost use Rattle.sy_base.specs.Tokens.{AreTokens};
ghost use Rattle.proof_lexer.specs.View.{token_view};
ghost use Rattle.outline_reader.specs.Outline.{IsOutline};
ghost use Rattle.outline_reader.specs.Plain.{outlined, plain_portion, HasPortions};
ghost use Rattle.outline_reader.specs.Views.{portion_view};
ghost use Rattle.user_grammar.specs.Grammar.{IsSignatureOf};
ghost use Rattle.proof_check.specs.Faults.{HasNoFaultYet, TellsFirst};
ghost use Rattle.proof_check.specs.File.{IsGrammarPortion};
ghost use Rattle.proof_check.specs.Judged.{IsJudged};
ghost use Rattle.proof_check.specs.NotBuilt.{HasNotBuilt};
ghost use Rattle.proof_check.specs.View.{plain_portions};

use crate::faults::{signature_or_fault, token_fault, unoutlined_fault};
use crate::file::over_signature;
use crate::telling::fault_lines;
use binding_terms::{NoMemory, Sig};
use core_proofs::Accepted;
use outline_reader::{Outline, Portion, outline};
use proof_lexer::{Token, lex};
use std::alloc::Global;
use sy_base::{Fault, Refusal};
use user_grammar::faulty_files_have_no_signature;

/// What a file is.
#[derive(Drop)]
pub enum Judged {
    /// A right file, with what it stands for and the proofs.
    Right(Accepted),
    /// A right file that is a grammar alone, and for which no theory is made so far.
    Grammar,
    /// The two lines that tell the first fault of its tokens, its outline or its grammar.
    Faulty(Vec<u8>),
    /// A file without such a fault that is not right.
    Wrong,
}

fn is_of_grammar(portion: &Portion<'_>) -> bool
    ensures { IsTrue result ↔ IsGrammarPortion (plain_portion (portion_view portion.now)) }
{
    match portion {
        Portion::Terminals { .. } => true,
        Portion::Syntax { .. } => true,
        Portion::Category { .. } => true,
        _ => false,
    }
}

/// Whether the portions are terminals and syntax parts alone.
fn are_of_grammar(portions: &[Portion<'_>]) -> bool
    ensures { IsTrue result ↔ AllByRecursion IsGrammarPortion (plain_portions portions.now) }
{
    for portion in portions {
        if !is_of_grammar(portion) {
            return false;
        }
    }
    true
}

/// What is said of a file with this first fault.
fn faulty(alloc: Global, source: &[u8], fault: &Fault) -> Result<Judged, NoMemory>
    requires { TellsFirst source.now fault.now }
    ensures { IfOk result (IsJudged source.now) }
{
    faulty_files_have_no_signature();
    Ok(Judged::Faulty(fault_lines(alloc, source, fault)?))
}

/// What is said of a file with this signature and without such a fault.
fn judge_signature(
    alloc: Global,
    source: &[u8],
    outline: &Outline<'_>,
    sig: Sig,
) -> Result<Judged, NoMemory>
    requires has { HasPortions source.now (outlined outline.now) }
    requires signature { IsSignatureOf (outlined outline.now) sig }
    requires built { HasNotBuilt source.now → ⊥ }
    requires no_fault { HasNoFaultYet source.now }
    ensures { IfOk result (IsJudged source.now) }
{
    let _ = source;
    match over_signature(alloc, outline, sig)? {
        Some(accepted) => Ok(Judged::Right(accepted)),
        None => {
            if are_of_grammar(outline.parts.as_slice()) {
                return Ok(Judged::Grammar);
            }
            Ok(Judged::Wrong)
        }
    }
}

/// What is said of a file with this outline.
fn judge_outline(
    alloc: Global,
    source: &[u8],
    tokens: &[Token<'_>],
    outline: &Outline<'_>,
) -> Result<Judged, NoMemory>
    requires are_tokens { AreTokens source.now (map token_view tokens.now) }
    requires outline { IsOutline tokens.now (map portion_view outline.now.parts.items) }
    ensures { IfOk result (IsJudged source.now) }
{
    match signature_or_fault(alloc, source, tokens, outline) {
        Ok(sig) => judge_signature(alloc, source, outline, sig),
        Err(Refusal::Refused(fault)) => faulty(alloc, source, &fault),
        Err(Refusal::NoMemory) => Err(NoMemory),
    }
}

/// What is said of a file with these tokens.
fn judge_tokens(alloc: Global, source: &[u8], tokens: &Vec<Token<'_>>) -> Result<Judged, NoMemory>
    requires { AreTokens source.now (map token_view tokens.now.items) }
    ensures { IfOk result (IsJudged source.now) }
{
    match outline(alloc, tokens) {
        Ok(outline) => judge_outline(alloc, source, tokens, &outline),
        Err(fault) => {
            let told = unoutlined_fault(alloc, source, tokens, fault)?;
            faulty(alloc, source, &told)
        }
    }
}

/// Whether a file is right, with what it stands for, or else the two lines that tell its first fault, where that is one of its tokens, its
/// outline or its grammar: 'Files' and 'Faults' of docs/notation.md.
pub fn judge_file(alloc: Global, source: &[u8]) -> Result<Judged, NoMemory>
    requires size { length source.now < 2 ^ 32 - 1 }
    ensures { IfOk result (IsJudged source.now) }
{
    match lex(alloc, source) {
        Ok(tokens) => judge_tokens(alloc, source, &tokens),
        Err(fault) => {
            let told = token_fault(alloc, source, fault)?;
            faulty(alloc, source, &told)
        }
    }
}
