//! Names of earlier lines.
ghost use Rattle.std.specs.Prelude.{◌≡◌, ◌∷◌, ◌++◌, IfOk, Some, None, map, option_map, if◌then◌else◌};
ghost use Rattle.term_reader.specs.View.{token};
ghost use Rattle.derivation_text.specs.Ending as spec;

use crate::cited::tree_named;
use crate::derivs::Named;
use crate::signs::{is_name_token, is_punctuation};
use binding_terms::{NoMemory, Text};
use proof_lexer::Token;
use sqlite_items::Items;
use std::alloc::Global;

/// The name of an earlier line.
pub fn known_name(alloc: Global, known: &[Named], t: &Token<'_>) -> Result<Option<Text>, NoMemory>
    ensures { IfOk result (λ name. name ≡ spec.known_name known.now (token t.now)) }
{
    if !is_name_token(t) {
        return Ok(None);
    }
    match tree_named(known, t.text.as_bytes()) {
        Some(_) => Ok(Some(Text::of(alloc, t.text.as_bytes())?)),
        None => Ok(None),
    }
}

/// Adds further names, each after a comma. False where the tokens are none.
fn further_names(
    alloc: Global,
    known: &[Named],
    tokens: &[Token<'_>],
    names: &mut Items<Text>,
) -> Result<bool, NoMemory>
    ensures { IfOk result (λ good. (if good then Some names.new else None)
        ≡ option_map (λ ws. names.old ++ ws) (spec.further_known known.now (map token tokens.now))) }
{
    let mut rest = tokens;
    while let [comma, name, more @ ..] = rest {
        if !is_punctuation(b',', comma) {
            return Ok(false);
        }
        match known_name(alloc, known, name)? {
            Some(name) => names.push(name)?,
            None => return Ok(false),
        }
        rest = more;
    }
    Ok(rest.len() == 0)
}

fn names_from(
    alloc: Global,
    known: &[Named],
    first: &Token<'_>,
    rest: &[Token<'_>],
) -> Result<Option<Items<Text>>, NoMemory>
    ensures { IfOk result (λ names. names ≡ spec.known_names known.now (token first.now ∷ map token rest.now)) }
{
    let mut names = Items::new(alloc);
    match known_name(alloc, known, first)? {
        Some(name) => names.push(name)?,
        None => return Ok(None),
    }
    if further_names(alloc, known, rest, &mut names)? {
        Ok(Some(names))
    } else {
        Ok(None)
    }
}

/// The names of earlier lines with commas between them.
pub fn known_names(
    alloc: Global,
    known: &[Named],
    tokens: &[Token<'_>],
) -> Result<Option<Items<Text>>, NoMemory>
    ensures { IfOk result (λ names. names ≡ spec.known_names known.now (map token tokens.now)) }
{
    match tokens {
        [] => Ok(Some(Items::new(alloc))),
        [first, rest @ ..] => names_from(alloc, known, first, rest),
    }
}
