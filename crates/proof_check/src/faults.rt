// The first fault of the tokens, the outline or the grammar of a file.
ghost use Rattle.std.specs.Prelude.{◌≡◌, ◌≢◌, ◌⊎◌, ◌-◌, ◌<◌, ◌^◌, ◌==◌, IfOk, IfErr, length, count_by, map};
ghost use Rattle.sy_base.specs.CodeName.{code_name};
ghost use Rattle.sy_base.specs.Tokens.{AreTokens};
ghost use Rattle.proof_lexer.specs.View.{token_view, IsRefusedFor};
ghost use Rattle.outline_reader.specs.Outline.{IsOutline, IsFault, IsUnexpected};
ghost use Rattle.outline_reader.specs.Plain.{outlined};
ghost use Rattle.outline_reader.specs.Views.{portion_view};
ghost use Rattle.user_grammar.specs.Grammar.{IsSignatureOf};
ghost use Rattle.proof_check.specs.NotBuilt.{HasNotBuilt};
ghost use Rattle.proof_check.specs.Faults.{part_words, limit_word, line_of_place, IsToldAt, IsToldOn, IsOutlineTold, HasNoFaultYet, TellsFirst, IsRefusedWith};

use crate::places::first_not_built;
use crate::unbuilt::first_unbuilt;
use binding_terms::{NoMemory, Sig, Text};
use itoa::Buffer;
use outline_reader::{Limit, Outline, OutlineFault, Part};
use proof_lexer::{LexFault, Token};
use std::alloc::Global;
use sy_base::{Code, Fault, Refusal};
use user_grammar::{faulty_files_have_no_signature, grammar};

/// The words by which a part of a file is told.
fn part_words(part: Part) -> &'static str
    ensures { result.now ≡ part_words part }
{
    match part {
        Part::Terminals => "terminals",
        Part::Syntax => "syntax",
        Part::Judgment => "judgment",
        Part::Theorem => "theorem",
        Part::Lemma => "lemma",
        Part::Case => "case",
        Part::CaseAnalysis => "case analysis",
        Part::Induction => "induction",
        Part::Inversion => "inversion",
    }
}

/// The word by which a limit is told.
fn limit_word(limit: Limit) -> &'static str
    ensures { result.now ≡ limit_word limit }
{
    match limit {
        Limit::Categories => "categories",
        Limit::Productions => "productions",
        Limit::Rules => "rules",
        Limit::Theorems => "theorems",
        Limit::Premises => "premises",
        Limit::Parameters => "parameters",
        Limit::Entries => "entries",
        Limit::Targets => "targets",
        Limit::Levels => "levels",
    }
}

/// How many line feeds these bytes have.
fn line_feeds(bytes: &[u8]) -> u32
    requires { length bytes.now < 2 ^ 32 - 1 }
    ensures count { result ≡ count_by (λ byte. byte == 10) bytes.now }
    ensures most { result < 2 ^ 32 - 1 }
{
    let mut count = 0;
    for byte in bytes {
        if *byte == b'\n' {
            count += 1;
        }
    }
    count
}

/// The line of a place of a source, counted from 1.
fn line_of_place(source: &[u8], place: usize) -> u32
    requires { length source.now < 2 ^ 32 - 1 }
    ensures { result ≡ line_of_place source.now place }
{
    1 + line_feeds(&source[..place.min(source.len())])
}

/// A fault of this code on a line, with a detail.
fn fault_on(alloc: Global, line: u32, code: Code, words: &[u8]) -> Result<Fault, NoMemory>
    ensures { IfOk result (λ fault. IsToldOn line code words.now fault.line (code_name fault.code) fault.detail) }
{
    Ok(Fault {
        line,
        code,
        detail: Text::of(alloc, words)?,
    })
}

/// A fault of this code at a place of a source.
fn fault_at(alloc: Global, source: &[u8], place: usize, code: Code) -> Result<Fault, NoMemory>
    requires { length source.now < 2 ^ 32 - 1 }
    ensures { IfOk result (λ fault. IsToldAt source.now place code fault.line (code_name fault.code) fault.detail) }
{
    let mut digits = Buffer::new();
    fault_on(
        alloc,
        line_of_place(source, place),
        code,
        digits.format(place).as_bytes(),
    )
}

/// The fault of a source that has no tokens.
pub(crate) fn token_fault(alloc: Global, source: &[u8], fault: LexFault) -> Result<Fault, NoMemory>
    requires size { length source.now < 2 ^ 32 - 1 }
    requires refused { IsRefusedFor source.now fault }
    ensures { IfOk result (TellsFirst source.now) }
{
    match fault {
        LexFault::NotUtf8(place) => fault_at(alloc, source, place, Code::NotUtf8),
        LexFault::OpenComment(place) => fault_at(alloc, source, place, Code::OpenComment),
        LexFault::OpenQuote(place) => fault_at(alloc, source, place, Code::OpenQuote),
        LexFault::NoMemory => Err(NoMemory),
    }
}

/// The fault of tokens at whose token with this number no outline goes on.
fn unexpected(alloc: Global, tokens: &[Token<'_>], place: u32) -> Result<Fault, NoMemory>
    requires { IsUnexpected tokens.now place }
    ensures { IfOk result (λ told. IsOutlineTold (map token_view tokens.now) (OutlineFault.Unexpected place)
        told.line (code_name told.code) told.detail) }
{
    let token = &tokens[place as usize];
    fault_on(alloc, token.line, Code::Unexpected, token.text.as_bytes())
}

/// The fault of tokens that have no outline.
fn outline_fault(
    alloc: Global,
    tokens: &[Token<'_>],
    fault: OutlineFault,
) -> Result<Fault, NoMemory>
    requires { fault ≢ OutlineFault.NoMemory → IsFault tokens.now fault }
    ensures { IfOk result (λ told. IsFault tokens.now fault
        × IsOutlineTold (map token_view tokens.now) fault told.line (code_name told.code) told.detail) }
{
    match fault {
        OutlineFault::Unexpected(place) => unexpected(alloc, tokens, place),
        OutlineFault::MissingEnd(line, part) => {
            fault_on(alloc, line, Code::MissingEnd, part_words(part).as_bytes())
        }
        OutlineFault::TooMany(line, limit) => {
            fault_on(alloc, line, Code::TooMany, limit_word(limit).as_bytes())
        }
        OutlineFault::NoMemory => Err(NoMemory),
    }
}

/// The fault of a token at which a form stands that is not built.
fn not_built(alloc: Global, token: &Token<'_>) -> Result<Fault, NoMemory>
    ensures { IfOk result (λ told. IsToldOn token.now.line Code.NotBuilt token.now.text.now
        told.line (code_name told.code) told.detail) }
{
    fault_on(alloc, token.line, Code::NotBuilt, token.text.as_bytes())
}

/// The fault of a token that is not built where that stands on an earlier line than this fault, and this fault else.
fn earlier_fault(alloc: Global, token: &Token<'_>, told: Fault) -> Result<Fault, NoMemory>
    ensures { IfOk result (λ first.
        ((token.now.line < told.line) × IsToldOn token.now.line Code.NotBuilt token.now.text.now first.line (code_name first.code) first.detail)
        ⊎ ((token.now.line < told.line → ⊥) × (first ≡ told))) }
{
    if token.line < told.line {
        return not_built(alloc, token);
    }
    Ok(told)
}

/// The first fault of a source whose tokens have no outline.
pub(crate) fn unoutlined_fault(
    alloc: Global,
    source: &[u8],
    tokens: &[Token<'_>],
    fault: OutlineFault,
) -> Result<Fault, NoMemory>
    requires are_tokens { AreTokens source.now (map token_view tokens.now) }
    requires fault { fault ≢ OutlineFault.NoMemory → IsFault tokens.now fault }
    ensures { IfOk result (TellsFirst source.now) }
{
    let _ = source;
    let told = outline_fault(alloc, tokens, fault)?;
    match first_unbuilt(tokens) {
        Some(token) => earlier_fault(alloc, &token, told),
        None => Ok(told),
    }
}

/// The signature of a source with an outline and no token that is not built, or the first fault of its grammar.
fn grammar_or_fault(
    alloc: Global,
    source: &[u8],
    tokens: &[Token<'_>],
    outline: &Outline<'_>,
) -> Result<Sig, Refusal>
    requires are_tokens { AreTokens source.now (map token_view tokens.now) }
    requires outline { IsOutline tokens.now (map portion_view outline.now.parts.items) }
    requires built { HasNotBuilt source.now → ⊥ }
    ensures sig { IfOk result (λ sig. IsSignatureOf (outlined outline.now) sig × HasNoFaultYet source.now) }
    ensures refused { IfErr result (IsRefusedWith source.now) }
{
    let _ = source;
    let _ = tokens;
    faulty_files_have_no_signature();
    grammar(alloc, outline)
}

/// The signature of a source with an outline, or the first fault of the source.
pub(crate) fn signature_or_fault(
    alloc: Global,
    source: &[u8],
    tokens: &[Token<'_>],
    outline: &Outline<'_>,
) -> Result<Sig, Refusal>
    requires are_tokens { AreTokens source.now (map token_view tokens.now) }
    requires outline { IsOutline tokens.now (map portion_view outline.now.parts.items) }
    ensures sig { IfOk result (λ sig. IsSignatureOf (outlined outline.now) sig × HasNoFaultYet source.now) }
    ensures built { IfOk result (λ sig. HasNotBuilt source.now → ⊥) }
    ensures refused { IfErr result (IsRefusedWith source.now) }
{
    match first_not_built(source, tokens, outline) {
        Some(token) => Err(Refusal::Refused(not_built(alloc, &token)?)),
        None => grammar_or_fault(alloc, source, tokens, outline),
    }
}
