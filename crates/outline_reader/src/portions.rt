// The portions of a text whose tokens have roles.
ghost use Rattle.std.specs.Prelude.{◌≡◌, ◌≤◌, length, take, map, IfOk, IfErr};
ghost use Rattle.outline_reader.specs.Portions as spec;
ghost use Rattle.outline_reader.specs.Views.{just_view, portion_view};

use crate::fault::{OutlineFault, Part};
use crate::fields::{
    all_named, args, behind, form_if, form_of, forms, front, head_conclusion, inputs, name_or,
    named, named_forms, outputs, premises, productions, subject,
};
use crate::parts::{Just, Name, Portion};
use crate::symbols::Role;
use proof_lexer::Token;
use std::alloc::Global;

/// Whether the role is that of a portion's first token.
fn begins(role: Role) -> bool
    ensures { result ≡ spec.begins role }
{
    match role {
        Role::TerminalsWord
        | Role::SyntaxWord
        | Role::CategoryName
        | Role::JudgmentWord
        | Role::RulePremise
        | Role::RuleBar
        | Role::AndWord
        | Role::TheoremWord
        | Role::StepName
        | Role::ProofWord
        | Role::InversionWord
        | Role::CaseWord
        | Role::EndWord => true,
        _ => false,
    }
}

/// Whether the first token is the name of a later category.
fn names_category(after: &[Role]) -> bool
    ensures { result ≡ spec.names_category after.now }
{
    match after {
        [Role::NewCategory, ..] => true,
        _ => false,
    }
}

/// How many tokens come before the next portion.
fn portion_length(mut roles: &[Role]) -> usize
    ensures value { result ≡ spec.portion_length roles.entry.now }
    ensures within { result ≤ length roles.entry.now }
{
    let mut count = 0;
    while let [first, rest @ ..] = roles {
        if begins(*first) || names_category(rest) {
            return count;
        }
        count += 1;
        roles = rest;
    }
    count
}

/// How many tokens the portion has that begins with the first token.
fn portion_size(roles: &[Role]) -> usize
    ensures value { result ≡ spec.portion_size roles.now }
    ensures within { result ≤ length roles.now }
{
    match roles {
        [] => 0,
        [_, rest @ ..] => portion_length(rest) + 1,
    }
}

/// What the last word of an `end` line ends.
fn ended(mut roles: &[Role]) -> Part
    ensures { result ≡ spec.ended roles.entry.now }
{
    while let [first, rest @ ..] = roles {
        match first {
            Role::EndTheorem => return Part::Theorem,
            Role::EndLemma => return Part::Lemma,
            Role::EndAnalysis => return Part::CaseAnalysis,
            Role::EndInduction => return Part::Induction,
            _ => roles = rest,
        }
    }
    Part::Case
}

/// Whether the role is that of the word that tells a justification.
fn is_call(role: Role) -> bool
    ensures { result ≡ spec.is_call role }
{
    match role {
        Role::RuleCall
        | Role::TheoremCall
        | Role::HypothesisCall
        | Role::Cases
        | Role::Induction
        | Role::Contradiction
        | Role::Weakening
        | Role::Exchange
        | Role::Substitution
        | Role::Unproved => true,
        _ => false,
    }
}

/// The word that tells the justification; a name alone where there is none.
fn call(mut roles: &[Role]) -> Role
    ensures { result ≡ spec.call roles.entry.now }
{
    while let [first, rest @ ..] = roles {
        if is_call(*first) {
            return *first;
        }
        roles = rest;
    }
    Role::NameAlone
}

/// What justifies a step that begins with the first token.
fn just<'a>(
    alloc: Global,
    first: Name<'a>,
    roles: &[Role],
    tokens: &'a [Token<'a>],
) -> Result<Just<'a>, OutlineFault>
    ensures ok { IfOk result (λ just. just_view just ≡ spec.just first.now roles.now tokens.now) }
    ensures err { IfErr result (λ e. e ≡ OutlineFault.NoMemory) }
{
    let name = name_or(first, Role::Name, roles, tokens);
    match call(roles) {
        Role::RuleCall => Ok(Just::Rule {
            name,
            on: args(alloc, roles, tokens)?,
        }),
        Role::TheoremCall => Ok(Just::Theorem {
            kind: name_or(first, Role::TheoremCall, roles, tokens),
            name,
            on: args(alloc, roles, tokens)?,
        }),
        Role::HypothesisCall => Ok(Just::Hypothesis {
            on: args(alloc, roles, tokens)?,
        }),
        Role::Cases => Ok(Just::Cases(subject(first, roles, tokens))),
        Role::Induction => Ok(Just::Induction(subject(first, roles, tokens))),
        Role::Contradiction => Ok(Just::Contradiction(subject(first, roles, tokens))),
        Role::Weakening => Ok(Just::Weakening(name)),
        Role::Exchange => Ok(Just::Exchange(name)),
        Role::Substitution => {
            Ok(Just::Substitution(name, name_or(first, Role::SecondName, roles, tokens)))
        }
        Role::Unproved => Ok(Just::Unproved),
        _ => Ok(Just::Names(all_named(alloc, Role::NameAlone, roles, tokens)?)),
    }
}

/// The header of a theorem.
fn theorem<'a>(
    alloc: Global,
    joined: bool,
    first: Name<'a>,
    roles: &[Role],
    tokens: &'a [Token<'a>],
) -> Result<Portion<'a>, OutlineFault>
    ensures ok { IfOk result (λ portion. portion_view portion ≡ spec.theorem_header joined first.now roles.now tokens.now) }
    ensures err { IfErr result (λ e. e ≡ OutlineFault.NoMemory) }
{
    Ok(Portion::Theorem {
        first,
        joined,
        kind: name_or(first, Role::KindWord, roles, tokens),
        name: name_or(first, Role::Name, roles, tokens),
        assumes: named(Role::Assumed, roles, tokens),
        inputs: inputs(alloc, roles, tokens)?,
        outputs: outputs(alloc, roles, tokens)?,
        targets: all_named(alloc, Role::Target, roles, tokens)?,
    })
}

/// A step.
fn step<'a>(
    alloc: Global,
    first: Name<'a>,
    roles: &[Role],
    tokens: &'a [Token<'a>],
) -> Result<Portion<'a>, OutlineFault>
    ensures ok { IfOk result (λ portion. portion_view portion ≡ spec.step_line first.now roles.now tokens.now) }
    ensures err { IfErr result (λ e. e ≡ OutlineFault.NoMemory) }
{
    Ok(Portion::Step {
        first,
        names: all_named(alloc, Role::StepName, roles, tokens)?,
        forms: forms(alloc, Role::Form, roles, tokens)?,
        just: just(alloc, first, roles, tokens)?,
    })
}

/// The head of a case of a rule, or of a term.
fn case<'a>(
    alloc: Global,
    first: Name<'a>,
    roles: &[Role],
    tokens: &'a [Token<'a>],
) -> Result<Portion<'a>, OutlineFault>
    ensures ok { IfOk result (λ portion. portion_view portion ≡ spec.case_head first.now roles.now tokens.now) }
    ensures err { IfErr result (λ e. e ≡ OutlineFault.NoMemory) }
{
    match roles {
        [_, Role::RuleCase, ..] => Ok(Portion::CaseRule {
            first,
            premises: named_forms(alloc, roles, tokens)?,
            name: name_or(first, Role::Name, roles, tokens),
            conclusion: head_conclusion(first, roles, tokens),
        }),
        _ => Ok(Portion::CaseTerm {
            first,
            form: form_of(Role::Form, roles, tokens),
            assumes: form_if(Role::AssumedForm, roles, tokens),
        }),
    }
}

/// An inversion with its head.
fn inversion<'a>(
    alloc: Global,
    first: Name<'a>,
    roles: &[Role],
    tokens: &'a [Token<'a>],
) -> Result<Portion<'a>, OutlineFault>
    ensures ok { IfOk result (λ portion. portion_view portion ≡ spec.inversion_head first.now roles.now tokens.now) }
    ensures err { IfErr result (λ e. e ≡ OutlineFault.NoMemory) }
{
    Ok(Portion::Inversion {
        first,
        subject: subject(first, roles, tokens),
        premises: named_forms(alloc, roles, tokens)?,
        name: name_or(first, Role::Name, roles, tokens),
        conclusion: head_conclusion(first, roles, tokens),
    })
}

/// A rule.
fn rule<'a>(
    alloc: Global,
    first: Name<'a>,
    roles: &[Role],
    tokens: &'a [Token<'a>],
) -> Result<Portion<'a>, OutlineFault>
    ensures ok { IfOk result (λ portion. portion_view portion ≡ spec.rule_lines first.now roles.now tokens.now) }
    ensures err { IfErr result (λ e. e ≡ OutlineFault.NoMemory) }
{
    Ok(Portion::Rule {
        premises: premises(alloc, roles, tokens)?,
        name: name_or(first, Role::Name, roles, tokens),
        conclusion: form_of(Role::Form, roles, tokens),
    })
}

/// The portion that begins with the first token, which has this role; the roles and tokens are those of the portion.
fn portion<'a>(
    alloc: Global,
    role: Role,
    first: Name<'a>,
    roles: &[Role],
    tokens: &'a [Token<'a>],
) -> Result<Portion<'a>, OutlineFault>
    ensures ok { IfOk result (λ portion. portion_view portion ≡ spec.portion role first.now roles.now tokens.now) }
    ensures err { IfErr result (λ e. e ≡ OutlineFault.NoMemory) }
{
    match role {
        Role::TerminalsWord => Ok(Portion::Terminals {
            first,
            items: behind(tokens, 1),
        }),
        Role::SyntaxWord => Ok(Portion::Syntax { first }),
        Role::JudgmentWord => Ok(Portion::Judgment {
            first,
            name: name_or(first, Role::Name, roles, tokens),
            form: form_of(Role::Form, roles, tokens),
            assumes: named(Role::Assumed, roles, tokens),
        }),
        Role::RulePremise | Role::RuleBar => rule(alloc, first, roles, tokens),
        Role::AndWord => theorem(alloc, true, first, roles, tokens),
        Role::TheoremWord => theorem(alloc, false, first, roles, tokens),
        Role::StepName | Role::ProofWord => step(alloc, first, roles, tokens),
        Role::InversionWord => inversion(alloc, first, roles, tokens),
        Role::CaseWord => case(alloc, first, roles, tokens),
        Role::EndWord => Ok(Portion::End {
            first,
            part: ended(roles),
        }),
        _ => category(alloc, first, roles, tokens),
    }
}

/// The second token, or else the first of the portion.
fn second_or<'a>(first: Name<'a>, tokens: &'a [Token<'a>]) -> Name<'a>
    ensures { result.now ≡ spec.second_or first.now tokens.now }
{
    match tokens {
        [_, second, ..] => second,
        _ => first,
    }
}

/// A category.
fn category<'a>(
    alloc: Global,
    first: Name<'a>,
    roles: &[Role],
    tokens: &'a [Token<'a>],
) -> Result<Portion<'a>, OutlineFault>
    ensures ok { IfOk result (λ portion. portion_view portion ≡ spec.category_line first.now roles.now tokens.now) }
    ensures err { IfErr result (λ e. e ≡ OutlineFault.NoMemory) }
{
    match roles {
        [_, _, rest @ ..] => Ok(Portion::Category {
            name: first,
            mark: second_or(first, tokens),
            productions: productions(alloc, rest, behind(tokens, 2))?,
        }),
        _ => Ok(Portion::Category {
            name: first,
            mark: first,
            productions: productions(alloc, &[], &[])?,
        }),
    }
}

/// The portions of the tokens, in text order.
pub fn portions<'a>(
    alloc: Global,
    mut roles: &[Role],
    mut tokens: &'a [Token<'a>],
) -> Result<Vec<Portion<'a>>, OutlineFault>
    ensures ok { IfOk result (λ portions. map portion_view portions.items ≡ spec.portions roles.entry.now tokens.entry.now) }
    ensures err { IfErr result (λ e. e ≡ OutlineFault.NoMemory) }
{
    let mut portions = Vec::new(alloc);
    while let [first, roles_left @ ..] = roles {
        let [token, tokens_left @ ..] = tokens else {
            return Ok(portions);
        };
        if begins(*first) || names_category(roles_left) {
            let size = portion_size(roles);
            portions.push(portion(alloc, *first, token, &roles[..size], front(tokens, size))?)?;
        }
        roles = roles_left;
        tokens = tokens_left;
    }
    Ok(portions)
}
