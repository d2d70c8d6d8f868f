//! Reads derivation texts.
ghost use Rattle.std.specs.Prelude.{◌≡◌, ◌<◌, ◌-◌, ◌^◌, IfOk, MatchOption, map, length, []};
ghost use Rattle.rule_schemes.specs.View.{theory};
ghost use Rattle.proof_lexer.specs.View.{token_view};
ghost use Rattle.term_reader.specs.View.{token};
ghost use Rattle.derivation_text.specs.Bare.{HasNoContexts};
ghost use Rattle.derivation_text.specs.Contents.{contents};
ghost use Rattle.derivation_text.specs.Found.{AllDerive};
ghost use Rattle.derivation_text.specs.Lines.{text_lines};
ghost use Rattle.derivation_text.specs.Reader.{IsSeen, HasNoContents, HasNoText};
ghost use Rattle.derivation_text.specs.Valid.{nothing_around, AreValid, IsText};

use crate::derivs::{Derivs, Ending, Named};
use crate::ending::ending;
use crate::line::named_tree;
use crate::split::first_line;
use binding_terms::NoMemory;
use proof_lexer::{LexFault, Token, lex, tokens_are_unique};
use rule_schemes::System;
use sqlite_items::Items;
use std::alloc::Global;

/// What a line is.
#[derive(Drop)]
enum Seen {
    Wrong,
    Tree(Named),
    End(Ending),
}

fn look_at<'a>(
    alloc: Global,
    sys: &System,
    known: &[Named],
    tokens: &'a [Token<'a>],
) -> Result<Seen, NoMemory>
    requires bare { HasNoContexts (theory sys.now) }
    requires derive { AllDerive (theory sys.now) known.now }
    ensures { IfOk result (λ s. IsSeen (theory sys.now) known.now (map token tokens.now) s) }
{
    match named_tree(alloc, sys, known, tokens)? {
        Some(one) => Ok(Seen::Tree(one)),
        None => match ending(alloc, known, tokens)? {
            Some(end) => Ok(Seen::End(end)),
            None => Ok(Seen::Wrong),
        },
    }
}

/// The lines, if nothing follows the last.
fn ended(named: Items<Named>, ending: Ending, rest: &[Token<'_>]) -> Option<Derivs>
    ensures { MatchOption result (length rest.now ≡ 0 → ⊥) (λ d. (length rest.now ≡ 0) × (d ≡ record { named = named; ending = ending })) }
{
    if rest.len() != 0 {
        return None;
    }
    Some(Derivs { named, ending })
}

/// The lines of tokens, if all are valid.
fn read_lines<'a>(
    alloc: Global,
    sys: &System,
    tokens: &'a [Token<'a>],
) -> Result<Option<Derivs>, NoMemory>
    requires { HasNoContexts (theory sys.now) }
    ensures { IfOk result (λ found. MatchOption found (HasNoContents (theory sys.now) (map token_view tokens.now))
        (λ d. AreValid (theory sys.now) nothing_around [] (text_lines (map token_view tokens.now)) (contents d) × AllDerive (theory sys.now) d.named)) }
{
    sys.always_system();
    let mut named = Items::new(alloc);
    let mut at = 0usize;
    while at < tokens.len() {
        let (line, more) = first_line(&tokens[at..]);
        match look_at(alloc, sys, named.as_slice(), line)? {
            Seen::Wrong => return Ok(None),
            Seen::Tree(one) => named.push(one)?,
            Seen::End(ending) => return Ok(ended(named, ending, more)),
        }
        at += line.len();
    }
    Ok(Some(Derivs {
        named,
        ending: Ending::Open,
    }))
}

/// The lines of a derivation text, or none where it is not valid.
///
/// A text is valid where each of its lines is, by docs/notation.md, 'Derivation texts'. The tree of each name is then a derivation. Here no
/// judgment assumes a context, so no text with a context line is valid.
pub fn read_derivs(alloc: Global, sys: &System, source: &[u8]) -> Result<Option<Derivs>, NoMemory>
    requires short { length source.now < 2 ^ 32 - 1 }
    requires bare { HasNoContexts (theory sys.now) }
    ensures { IfOk result (λ found. MatchOption found (HasNoText (theory sys.now) source.now)
        (λ d. IsText (theory sys.now) source.now nothing_around (contents d) × AllDerive (theory sys.now) d.named)) }
{
    tokens_are_unique();
    match lex(alloc, source) {
        Ok(tokens) => read_lines(alloc, sys, tokens.as_slice()),
        Err(LexFault::NoMemory) => Err(NoMemory),
        Err(LexFault::NotUtf8(_)) => Ok(None),
        Err(LexFault::OpenComment(_)) => Ok(None),
        Err(LexFault::OpenQuote(_)) => Ok(None),
    }
}
