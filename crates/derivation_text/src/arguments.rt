//! The arguments of an `apply` line.
ghost use Rattle.std.specs.Prelude.{◌≡◌, ◌≤◌, ◌<◌, ◌↔◌, ◌∷◌, ◌++◌, IsTrue, IfOk, IfSome, MatchOption, MatchBool, ◌+◌, ◌-◌, ◌^◌, map, length, List, take, drop};
ghost use Rattle.rule_schemes.specs.Reading.{punctuation};
ghost use Rattle.term_reader.specs.View.{token};
ghost use Rattle.derivation_text.specs.Ending as spec;
ghost use Rattle.derivation_text.specs.Ending.{HasNoClosing, Closes, Turns, HasNoFront, IsFront, HasNoRest, IsRest, HasNoArguments, IsArguments};
ghost use Rattle.derivation_text.specs.Contents.{kept_token, argument};
ghost use Rattle.derivation_text.specs.declared.derivs.Named.{Named as OfNamed};

use crate::derivs::{Argument, Kept, Named};
use crate::names::known_name;
use crate::signs::{is_punctuation, is_reserved_token};
use binding_terms::{NoMemory, Text};
use proof_lexer::Token;
use sqlite_items::Items;
use std::alloc::Global;

fn keep(alloc: Global, t: &Token<'_>) -> Result<Kept, NoMemory>
    ensures { IfOk result (λ new. kept_token new ≡ token t.now) }
{
    Ok(Kept {
        kind: t.kind,
        text: Text::of(alloc, t.text.as_bytes())?,
    })
}

fn kept_form(alloc: Global, tokens: &[Token<'_>]) -> Result<Items<Kept>, NoMemory>
    ensures { IfOk result (λ all. map kept_token all ≡ map token tokens.now) }
{
    let mut all = Items::new(alloc);
    for one in tokens {
        all.push(keep(alloc, one)?)?;
    }
    Ok(all)
}

/// How many parentheses are open after a token, if it does not close one more than are open.
fn opened(depth: usize, t: &Token<'_>) -> Option<usize>
    requires { depth < 2 ^ 64 - 1 }
    ensures turns { MatchOption result ((token t.now ≡ punctuation 41) × (depth ≡ 0)) (λ next. Turns depth (token t.now) next) }
    ensures bound { IfSome result (λ next. next ≤ depth + 1) }
{
    if is_punctuation(b'(', t) {
        return Some(depth + 1);
    }
    if !is_punctuation(b')', t) {
        return Some(depth);
    }
    if depth == 0 {
        return None;
    }
    Some(depth - 1)
}

/// The place of the parenthesis that closes.
fn closing(tokens: &[Token<'_>]) -> Option<usize>
    ensures { MatchOption result (HasNoClosing (map token tokens.now))
        (λ place. (place < length tokens.now) × Closes 0 (map token tokens.now) (map token (take place tokens.now)) (map token (drop (place + 1) tokens.now))) }
{
    let mut depth = 0usize;
    for i in 0..tokens.len() {
        match opened(depth, &tokens[i]) {
            Some(next) => depth = next,
            None => return Some(i),
        }
    }
    None
}

fn none_reserved(tokens: &[Token<'_>]) -> bool
    ensures { IsTrue result ↔ spec.NoneReserved (map token tokens.now) }
{
    for one in tokens {
        if is_reserved_token(one) {
            return false;
        }
    }
    true
}

/// An argument, and how many tokens it has after its first.
#[derive(Drop)]
struct Argued {
    argument: Argument,
    more: usize,
}

/// The form up to the parenthesis that closes, after the one that opens.
fn enclosed(alloc: Global, tokens: &[Token<'_>]) -> Result<Option<Argued>, NoMemory>
    ensures front { (known : List OfNamed) → IfOk result (λ found. MatchOption found (HasNoFront known (punctuation 40 ∷ map token tokens.now))
        (λ p. IsFront known (punctuation 40 ∷ map token tokens.now) (argument p.argument) (map token (drop p.more tokens.now)))) }
    ensures within { IfOk result (λ found. IfSome found (λ p. p.more ≤ length tokens.now)) }
{
    let place = match closing(tokens) {
        Some(place) => place,
        None => return Ok(None),
    };
    let form = &tokens[..place];
    if form.len() == 0 {
        return Ok(None);
    }
    if !none_reserved(form) {
        return Ok(None);
    }
    Ok(Some(Argued {
        argument: Argument::Term(kept_form(alloc, form)?),
        more: place + 1,
    }))
}

fn named(
    alloc: Global,
    known: &[Named],
    first: &Token<'_>,
    rest: &[Token<'_>],
) -> Result<Option<Argued>, NoMemory>
    requires { (token first.now ≡ punctuation 40) → ⊥ }
    ensures front { IfOk result (λ found. MatchOption found (HasNoFront known.now (token first.now ∷ map token rest.now))
        (λ p. IsFront known.now (token first.now ∷ map token rest.now) (argument p.argument) (map token (drop p.more rest.now)))) }
    ensures within { IfOk result (λ found. IfSome found (λ p. p.more ≤ length rest.now)) }
{
    match known_name(alloc, known, first)? {
        Some(name) => Ok(Some(Argued {
            argument: Argument::Name(name),
            more: 0,
        })),
        None => Ok(None),
    }
}

fn front_from(
    alloc: Global,
    known: &[Named],
    first: &Token<'_>,
    rest: &[Token<'_>],
) -> Result<Option<Argued>, NoMemory>
    ensures front { IfOk result (λ found. MatchOption found (HasNoFront known.now (token first.now ∷ map token rest.now))
        (λ p. IsFront known.now (token first.now ∷ map token rest.now) (argument p.argument) (map token (drop p.more rest.now)))) }
    ensures within { IfOk result (λ found. IfSome found (λ p. p.more ≤ length rest.now)) }
{
    if is_punctuation(b'(', first) {
        return enclosed(alloc, rest);
    }
    named(alloc, known, first, rest)
}

/// The first argument of the tokens.
fn front(alloc: Global, known: &[Named], tokens: &[Token<'_>]) -> Result<Option<Argued>, NoMemory>
    ensures front { IfOk result (λ found. MatchOption found (HasNoFront known.now (map token tokens.now))
        (λ p. IsFront known.now (map token tokens.now) (argument p.argument) (map token (drop (p.more + 1) tokens.now)))) }
    ensures within { IfOk result (λ found. IfSome found (λ p. p.more < length tokens.now)) }
{
    match tokens {
        [] => Ok(None),
        [first, rest @ ..] => front_from(alloc, known, first, rest),
    }
}

/// The argument after a comma.
fn after_comma(
    alloc: Global,
    known: &[Named],
    comma: &Token<'_>,
    tokens: &[Token<'_>],
) -> Result<Option<Argued>, NoMemory>
    ensures next { IfOk result (λ found. MatchOption found (HasNoRest known.now (token comma.now ∷ map token tokens.now))
        (λ p. (token comma.now ≡ punctuation 44) × IsFront known.now (map token tokens.now) (argument p.argument) (map token (drop (p.more + 1) tokens.now)))) }
    ensures within { IfOk result (λ found. IfSome found (λ p. p.more < length tokens.now)) }
{
    if !is_punctuation(b',', comma) {
        return Ok(None);
    }
    front(alloc, known, tokens)
}

/// Adds further arguments, each after a comma. False where the tokens are none.
fn further(
    alloc: Global,
    known: &[Named],
    tokens: &[Token<'_>],
    args: &mut Items<Argument>,
) -> Result<bool, NoMemory>
    ensures { IfOk result (λ good. MatchBool good
        ((more : List spec.Given) × (map argument args.new ≡ map argument args.old ++ more) × IsRest known.now (map token tokens.now) more)
        (HasNoRest known.now (map token tokens.now))) }
{
    let mut at = 0usize;
    while at < tokens.len() {
        match after_comma(alloc, known, &tokens[at], &tokens[at + 1..])? {
            Some(found) => {
                at += found.more + 2;
                args.push(found.argument)?;
            }
            None => return Ok(false),
        }
    }
    Ok(true)
}

/// The arguments with commas between them.
pub fn arguments(
    alloc: Global,
    known: &[Named],
    tokens: &[Token<'_>],
) -> Result<Option<Items<Argument>>, NoMemory>
    ensures { IfOk result (λ found. MatchOption found (HasNoArguments known.now (map token tokens.now))
        (λ all. IsArguments known.now (map token tokens.now) (map argument all))) }
{
    let mut args = Items::new(alloc);
    if tokens.len() == 0 {
        return Ok(Some(args));
    }
    let Argued { argument, more } = match front(alloc, known, tokens)? {
        Some(found) => found,
        None => return Ok(None),
    };
    args.push(argument)?;
    if further(alloc, known, &tokens[more + 1..], &mut args)? {
        Ok(Some(args))
    } else {
        Ok(None)
    }
}
