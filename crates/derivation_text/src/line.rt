//! A line with a judgment.
ghost use Rattle.std.specs.Prelude.{◌≡◌, ◌<◌, IfOk, MatchOption, map, None, length, IfSome};
ghost use Rattle.std.specs.List.{position};
ghost use Rattle.std.specs.Str.{bytes_eq};
ghost use Rattle.rule_schemes.specs.View.{theory};
ghost use Rattle.term_reader.specs.View.{token};
ghost use Rattle.derivation_text.specs.Bare.{HasNoContexts};
ghost use Rattle.derivation_text.specs.Found.{AllDerive, IsPartsTree, HasNoPartsTree, HasNoNamedTree};
ghost use Rattle.derivation_text.specs.Valid.{nothing_around, rule_named, NamesTree};

use crate::cited::{cited_trees, tree_named};
use crate::derivs::Named;
use crate::making::made;
use crate::node::{FormParts, node_parts};
use crate::reading::judgment_of;
use binding_terms::{NoMemory, Text};
use derivation_check::Deriv;
use proof_lexer::Token;
use rule_schemes::{RuleScheme, System};
use std::alloc::Global;

fn place_named(rules: &[RuleScheme], name: &[u8]) -> Option<usize>
    ensures place { result ≡ position (λ rule. bytes_eq rule.name name.now) rules.now }
    ensures within { IfSome result (λ n. n < length rules.now) }
{
    rules.iter().position(|rule| rule.name.bytes() == name)
}

/// The number of the first rule with that name.
fn rule_named(sys: &System, name: &str) -> Option<usize>
    ensures number { result ≡ rule_named (theory sys.now).rules name.now }
    ensures within { IfSome result (λ n. n < length sys.now.rules) }
{
    place_named(sys.rules().as_slice(), name.as_bytes())
}

/// The tree of the judgment and the rule over the trees of the names, if the line makes one.
fn tree_of_parts(
    alloc: Global,
    sys: &System,
    known: &[Named],
    parts: &FormParts<'_>,
) -> Result<Option<Deriv>, NoMemory>
    requires bare { HasNoContexts (theory sys.now) }
    requires derive { AllDerive (theory sys.now) known.now }
    ensures { IfOk result (λ found. MatchOption found
        (HasNoPartsTree (theory sys.now) known.now (map token parts.now.form.now) parts.now.rule.now (map token parts.now.rest.now))
        (λ d. IsPartsTree (theory sys.now) known.now (map token parts.now.form.now) parts.now.rule.now (map token parts.now.rest.now) d)) }
{
    let number = match rule_named(sys, parts.rule) {
        Some(number) => number,
        None => return Ok(None),
    };
    let judgment = match judgment_of(alloc, sys, parts.form)? {
        Some(judgment) => judgment,
        None => return Ok(None),
    };
    match cited_trees(alloc, known, parts.rest)? {
        Some(trees) => made(alloc, sys, number, judgment, trees),
        None => Ok(None),
    }
}

/// The name and the tree of a line with a judgment, if the tokens are a valid one.
pub fn named_tree(
    alloc: Global,
    sys: &System,
    known: &[Named],
    tokens: &[Token<'_>],
) -> Result<Option<Named>, NoMemory>
    requires bare { HasNoContexts (theory sys.now) }
    requires derive { AllDerive (theory sys.now) known.now }
    ensures { IfOk result (λ found. MatchOption found (HasNoNamedTree (theory sys.now) known.now (map token tokens.now))
        (λ one. NamesTree (theory sys.now) nothing_around known.now (map token tokens.now) one)) }
{
    let node = match node_parts(tokens) {
        Some(node) => node,
        None => return Ok(None),
    };
    if tree_named(known, node.name.as_bytes()).is_some() {
        return Ok(None);
    }
    match tree_of_parts(alloc, sys, known, &node.parts)? {
        Some(tree) => Ok(Some(Named {
            name: Text::of(alloc, node.name.as_bytes())?,
            tree,
        })),
        None => Ok(None),
    }
}
