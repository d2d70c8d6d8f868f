//! The parts of a line with a judgment.
ghost use Rattle.std.specs.Prelude.{◌∷◌, MatchOption, map, List};
ghost use Rattle.rule_schemes.specs.Reading.{Token as Read};
ghost use Rattle.term_reader.specs.View.{token};
ghost use Rattle.derivation_text.specs.Found.{IsCut, HasParts, HasNoParts, HasFormParts, HasNoFormParts};

use crate::signs::{is_colon, is_name_token, is_own_name_token, is_reserved_token, is_word};
use proof_lexer::Token;

/// The form, the rule's name, and what follows it.
#[derive(Clone, Copy)]
pub struct FormParts<'a> {
    pub form: &'a [Token<'a>],
    pub rule: &'a str,
    pub rest: &'a [Token<'a>],
}

/// The parts of a line with a judgment.
#[derive(Clone, Copy)]
pub struct NodeParts<'a> {
    pub name: &'a str,
    pub parts: FormParts<'a>,
}

/// The tokens up to the first reserved word, and those from there on.
fn cut<'a>(tokens: &'a [Token<'a>]) -> (&'a [Token<'a>], &'a [Token<'a>])
    ensures { IsCut (map token tokens.now) (map token result.0.now) (map token result.1.now) }
{
    for i in 0..tokens.len() {
        if is_reserved_token(&tokens[i]) {
            return tokens.split_at(i);
        }
    }
    (tokens, &[])
}

/// The parts from the form on, where these three tokens follow it.
fn by_parts<'a>(
    form: &'a [Token<'a>],
    by: &Token<'_>,
    of_rule: &Token<'_>,
    rule: &Token<'a>,
    rest: &'a [Token<'a>],
) -> Option<FormParts<'a>>
    ensures { (ts : List Read) → IsCut ts (map token form.now) (token by.now ∷ (token of_rule.now ∷ (token rule.now ∷ map token rest.now)))
        → MatchOption result (HasNoFormParts ts) (λ p. HasFormParts ts (map token p.form.now) p.rule.now (map token p.rest.now)) }
{
    if form.len() == 0 {
        return None;
    }
    if !is_word(b"by", by) {
        return None;
    }
    if !is_word(b"rule", of_rule) {
        return None;
    }
    if !is_name_token(rule) {
        return None;
    }
    Some(FormParts {
        form,
        rule: rule.text,
        rest,
    })
}

fn after_form<'a>(form: &'a [Token<'a>], back: &'a [Token<'a>]) -> Option<FormParts<'a>>
    ensures { (ts : List Read) → IsCut ts (map token form.now) (map token back.now)
        → MatchOption result (HasNoFormParts ts) (λ p. HasFormParts ts (map token p.form.now) p.rule.now (map token p.rest.now)) }
{
    match back {
        [by, of_rule, rule, rest @ ..] => by_parts(form, by, of_rule, rule, rest),
        _ => None,
    }
}

fn form_parts<'a>(tokens: &'a [Token<'a>]) -> Option<FormParts<'a>>
    ensures { MatchOption result (HasNoFormParts (map token tokens.now))
        (λ p. HasFormParts (map token tokens.now) (map token p.form.now) p.rule.now (map token p.rest.now)) }
{
    let (form, back) = cut(tokens);
    after_form(form, back)
}

fn named_parts<'a>(
    name: &Token<'a>,
    colon: &Token<'_>,
    tokens: &'a [Token<'a>],
) -> Option<NodeParts<'a>>
    ensures { MatchOption result (HasNoParts (token name.now ∷ (token colon.now ∷ map token tokens.now)))
        (λ p. HasParts (token name.now ∷ (token colon.now ∷ map token tokens.now)) p.name.now (map token p.parts.form.now) p.parts.rule.now (map token p.parts.rest.now)) }
{
    if !is_own_name_token(name) {
        return None;
    }
    if !is_colon(colon) {
        return None;
    }
    match form_parts(tokens) {
        Some(parts) => Some(NodeParts {
            name: name.text,
            parts,
        }),
        None => None,
    }
}

/// The parts of a line with a judgment, if the tokens are one. What follows the rule's name is not looked at.
pub fn node_parts<'a>(tokens: &'a [Token<'a>]) -> Option<NodeParts<'a>>
    ensures { MatchOption result (HasNoParts (map token tokens.now))
        (λ p. HasParts (map token tokens.now) p.name.now (map token p.parts.form.now) p.parts.rule.now (map token p.parts.rest.now)) }
{
    match tokens {
        [name, colon, rest @ ..] => named_parts(name, colon, rest),
        _ => None,
    }
}
