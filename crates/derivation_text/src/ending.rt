//! The last line of a text.
ghost use Rattle.std.specs.Prelude.{◌∷◌, IfOk, MatchOption, map};
ghost use Rattle.term_reader.specs.View.{token};
ghost use Rattle.derivation_text.specs.Ending as spec;
ghost use Rattle.derivation_text.specs.Ending.{HasNoLast};
ghost use Rattle.derivation_text.specs.Contents.{last_of};
ghost use Rattle.derivation_text.specs.Valid.{IsLast};

use crate::arguments::arguments;
use crate::derivs::{Ending, Named};
use crate::names::known_names;
use crate::signs::is_word;
use binding_terms::NoMemory;
use proof_lexer::Token;
use std::alloc::Global;

fn applied(alloc: Global, known: &[Named], tokens: &[Token<'_>]) -> Result<Option<Ending>, NoMemory>
    ensures { IfOk result (λ found. MatchOption found (HasNoLast known.now (spec.apply_word ∷ map token tokens.now))
        (λ e. IsLast known.now (spec.apply_word ∷ map token tokens.now) (last_of e))) }
{
    match arguments(alloc, known, tokens)? {
        Some(args) => Ok(Some(Ending::Apply(args))),
        None => Ok(None),
    }
}

fn given(alloc: Global, known: &[Named], tokens: &[Token<'_>]) -> Result<Option<Ending>, NoMemory>
    ensures { IfOk result (λ found. MatchOption found (HasNoLast known.now (spec.gives_word ∷ map token tokens.now))
        (λ e. IsLast known.now (spec.gives_word ∷ map token tokens.now) (last_of e))) }
{
    match known_names(alloc, known, tokens)? {
        Some(names) => Ok(Some(Ending::Gives(names))),
        None => Ok(None),
    }
}

fn after_word(
    alloc: Global,
    known: &[Named],
    word: &Token<'_>,
    tokens: &[Token<'_>],
) -> Result<Option<Ending>, NoMemory>
    ensures { IfOk result (λ found. MatchOption found (HasNoLast known.now (token word.now ∷ map token tokens.now))
        (λ e. IsLast known.now (token word.now ∷ map token tokens.now) (last_of e))) }
{
    if is_word(b"apply", word) {
        return applied(alloc, known, tokens);
    }
    if is_word(b"gives", word) {
        return given(alloc, known, tokens);
    }
    Ok(None)
}

/// A valid `apply` or `gives` line.
pub fn ending(
    alloc: Global,
    known: &[Named],
    tokens: &[Token<'_>],
) -> Result<Option<Ending>, NoMemory>
    ensures { IfOk result (λ found. MatchOption found (HasNoLast known.now (map token tokens.now))
        (λ e. IsLast known.now (map token tokens.now) (last_of e))) }
{
    match tokens {
        [] => Ok(None),
        [word, rest @ ..] => after_word(alloc, known, word, rest),
    }
}
