//! The trees of names.
ghost use Rattle.std.specs.Prelude.{◌≡◌, ◌++◌, ◌∷◌, IfOk, Some, None, map, option_map, if◌then◌else◌};
ghost use Rattle.term_reader.specs.View.{token};
ghost use Rattle.derivation_text.specs.Found as found;
ghost use Rattle.derivation_text.specs.Valid.{tree_named};

use crate::derivs::Named;
use crate::signs::{is_name_token, is_punctuation, is_word};
use binding_terms::NoMemory;
use derivation_check::Deriv;
use proof_lexer::Token;
use std::alloc::Global;

/// The tree that has a name.
pub fn tree_named<'a>(known: &'a [Named], name: &[u8]) -> Option<&'a Deriv>
    ensures { option_map (λ d. d.now) result ≡ tree_named known.now name.now }
{
    known
        .iter()
        .find(|one| one.name.bytes() == name)
        .map(|one| &one.tree)
}

/// The tree of a name that is cited.
pub fn tree_at(alloc: Global, known: &[Named], t: &Token<'_>) -> Result<Option<Deriv>, NoMemory>
    ensures { IfOk result (λ tree. tree ≡ found.tree_at known.now (token t.now)) }
{
    if !is_name_token(t) {
        return Ok(None);
    }
    match tree_named(known, t.text.as_bytes()) {
        Some(tree) => Ok(Some(tree.copy(alloc)?)),
        None => Ok(None),
    }
}

/// Adds the trees of further names, each after a comma. False where the tokens are none.
fn further_trees(
    alloc: Global,
    known: &[Named],
    tokens: &[Token<'_>],
    trees: &mut Vec<Deriv>,
) -> Result<bool, NoMemory>
    ensures { IfOk result (λ good. (if good then Some trees.new.items else None)
        ≡ option_map (λ ds. trees.old.items ++ ds) (found.further_trees known.now (map token tokens.now))) }
{
    let mut rest = tokens;
    while let [comma, name, more @ ..] = rest {
        if !is_punctuation(b',', comma) {
            return Ok(false);
        }
        match tree_at(alloc, known, name)? {
            Some(tree) => trees.push(tree)?,
            None => return Ok(false),
        }
        rest = more;
    }
    Ok(rest.len() == 0)
}

/// The trees of names with commas, of which this is the first.
fn name_trees(
    alloc: Global,
    known: &[Named],
    first: &Token<'_>,
    rest: &[Token<'_>],
) -> Result<Option<Vec<Deriv>>, NoMemory>
    ensures { IfOk result (λ trees. option_map (λ ds. ds.items) trees ≡ found.name_trees known.now (token first.now ∷ map token rest.now)) }
{
    let mut trees = Vec::new(alloc);
    match tree_at(alloc, known, first)? {
        Some(tree) => trees.push(tree)?,
        None => return Ok(None),
    }
    if further_trees(alloc, known, rest, &mut trees)? {
        Ok(Some(trees))
    } else {
        Ok(None)
    }
}

/// The trees of the names after `on`, or no tree where nothing follows.
pub fn cited_trees(
    alloc: Global,
    known: &[Named],
    tokens: &[Token<'_>],
) -> Result<Option<Vec<Deriv>>, NoMemory>
    ensures { IfOk result (λ trees. option_map (λ ds. ds.items) trees ≡ found.cited_trees known.now (map token tokens.now)) }
{
    match tokens {
        [] => Ok(Some(Vec::new(alloc))),
        [_] => Ok(None),
        [on, first, rest @ ..] => {
            if !is_word(b"on", on) {
                return Ok(None);
            }
            name_trees(alloc, known, first, rest)
        }
    }
}
