// The grammar of a file: what each phrase may begin with, and what follows.
ghost use Rattle.std.specs.Prelude.{◌≡◌};
ghost use Rattle.outline_reader.specs.Grammar as spec;

use crate::fault::Part;
use crate::sort::Sort;
use crate::symbols::Class::Is;
use crate::symbols::Item::{Here, In};
use crate::symbols::Place::{Anywhere, First, Next};
use crate::symbols::Symbol::{Choice, One};
use crate::symbols::{Alternative, Class, Item, Phrase, Rest, Role, Times};

/// How often alternatives of the phrase are taken.
pub fn times(phrase: Phrase) -> Times
    ensures { result ≡ spec.times_of phrase }
{
    match phrase {
        Phrase::AndKind
        | Phrase::TheoremBody
        | Phrase::LemmaBody
        | Phrase::FirstDefine
        | Phrase::RuleLines
        | Phrase::Output
        | Phrase::OutputAfterDot
        | Phrase::Just
        | Phrase::FirstJust
        | Phrase::InductionOrHypothesis
        | Phrase::Arg
        | Phrase::Enclosed
        | Phrase::CaseHead
        | Phrase::HeadLines => Times::Once,
        Phrase::Parts
        | Phrase::LaterParts
        | Phrase::MoreListed
        | Phrase::MoreOnLine
        | Phrase::MoreOfForm
        | Phrase::Rules
        | Phrase::Inputs
        | Phrase::OutputTokens
        | Phrase::MoreTargets
        | Phrase::MoreArgs
        | Phrase::MoreEnclosed
        | Phrase::CaseList => Times::Any,
        _ => Times::AtMostOnce,
    }
}

/// The alternatives of a phrase.
pub fn alternatives(phrase: Phrase) -> &'static [Alternative]
    ensures { result.now ≡ spec.alternatives phrase }
{
    match phrase {
        Phrase::Parts => &[
            (
                First,
                Is(Sort::Terminals),
                Role::TerminalsWord,
                Rest::Terminals,
            ),
            (First, Is(Sort::Syntax), Role::SyntaxWord, Rest::Syntax),
            (
                First,
                Is(Sort::Judgment),
                Role::JudgmentWord,
                Rest::Judgment,
            ),
        ],
        Phrase::FirstTheorem => &[
            (
                First,
                Is(Sort::Theorem),
                Role::TheoremWord,
                Rest::FirstTheorem,
            ),
            (First, Is(Sort::Lemma), Role::TheoremWord, Rest::FirstLemma),
        ],
        Phrase::LaterParts => &[
            (
                First,
                Is(Sort::Terminals),
                Role::TerminalsWord,
                Rest::Terminals,
            ),
            (First, Is(Sort::Syntax), Role::SyntaxWord, Rest::Syntax),
            (
                First,
                Is(Sort::Judgment),
                Role::JudgmentWord,
                Rest::Judgment,
            ),
            (First, Is(Sort::Theorem), Role::TheoremWord, Rest::Theorem),
            (First, Is(Sort::Lemma), Role::TheoremWord, Rest::Lemma),
            (First, Is(Sort::And), Role::AndWord, Rest::And),
        ],
        Phrase::AndKind => &[
            (Anywhere, Is(Sort::Theorem), Role::KindWord, Rest::Theorem),
            (Anywhere, Is(Sort::Lemma), Role::KindWord, Rest::Lemma),
        ],
        Phrase::TheoremBody => &[(Anywhere, Is(Sort::Name), Role::Name, Rest::TheoremBody)],
        Phrase::LemmaBody => &[(Anywhere, Is(Sort::Name), Role::Name, Rest::LemmaBody)],
        Phrase::MoreListed => &[(Next, Class::Listed, Role::Item, Rest::Nothing)],
        Phrase::FirstDefine => &[
            (Next, Is(Sort::Define), Role::Sign, Rest::Productions),
            (First, Is(Sort::Define), Role::Sign, Rest::AfterLineToken),
        ],
        Phrase::Productions => &[
            (Next, Is(Sort::Or), Role::Or, Rest::Productions),
            (Next, Class::ButOr, Role::Item, Rest::Productions),
            (First, Is(Sort::Name), Role::Item, Rest::AfterLineName),
            (First, Is(Sort::Or), Role::Or, Rest::AfterLineToken),
            (First, Class::ButOrName, Role::Item, Rest::AfterLineToken),
        ],
        Phrase::AfterLineName => &[
            (Next, Is(Sort::Define), Role::NewCategory, Rest::Productions),
            (Next, Is(Sort::Or), Role::Or, Rest::Productions),
            (Next, Class::ButOrDefine, Role::Item, Rest::Productions),
            (First, Is(Sort::Name), Role::Item, Rest::AfterLineName),
            (First, Is(Sort::Or), Role::Or, Rest::AfterLineToken),
            (First, Class::ButOrName, Role::Item, Rest::AfterLineToken),
        ],
        Phrase::AfterLineToken => &[
            (Next, Is(Sort::Or), Role::Or, Rest::Productions),
            (Next, Class::ButOrDefine, Role::Item, Rest::Productions),
            (First, Is(Sort::Name), Role::Item, Rest::AfterLineName),
            (First, Is(Sort::Or), Role::Or, Rest::AfterLineToken),
            (First, Class::ButOrName, Role::Item, Rest::AfterLineToken),
        ],
        Phrase::MoreOnLine => &[(Next, Class::Formed, Role::More, Rest::Nothing)],
        Phrase::MoreOfForm => &[(Anywhere, Class::Formed, Role::More, Rest::Nothing)],
        Phrase::JudgmentAssumes => &[(Anywhere, Is(Sort::Assumes), Role::Sign, Rest::AssumedName)],
        Phrase::Rules => &[
            (First, Class::ButBar, Role::RulePremise, Rest::RuleLines),
            (First, Is(Sort::Bar), Role::RuleBar, Rest::BarLine),
        ],
        Phrase::RuleLines => &[
            (First, Class::ButBar, Role::Premise, Rest::RuleLines),
            (First, Is(Sort::Bar), Role::Bar, Rest::BarLine),
        ],
        Phrase::TheoremAssumes => &[(
            Anywhere,
            Is(Sort::Assumes),
            Role::Sign,
            Rest::AssumedTheorem,
        )],
        Phrase::Inputs => &[(Anywhere, Is(Sort::Forall), Role::ForallWord, Rest::Input)],
        Phrase::InputForm => &[(Anywhere, Is(Sort::Colon), Role::Sign, Rest::InputForm)],
        Phrase::Output => &[
            (Anywhere, Class::ButDot, Role::Output, Rest::OutputTokens),
            (Anywhere, Is(Sort::Dot), Role::Output, Rest::OutputAfterDot),
        ],
        Phrase::OutputAfterDot => &[
            (Next, Class::ButDot, Role::More, Rest::OutputTokens),
            (Next, Is(Sort::Dot), Role::More, Rest::OutputGoesOn),
        ],
        Phrase::OutputTokens => &[(Anywhere, Class::ButDot, Role::More, Rest::Nothing)],
        Phrase::OutputGoesOn => &[
            (Next, Class::ButDot, Role::More, Rest::OutputTokens),
            (Next, Is(Sort::Dot), Role::More, Rest::OutputGoesOn),
        ],
        Phrase::Proof => &[
            (First, Is(Sort::Use), Role::Sign, Rest::Use),
            (First, Is(Sort::Name), Role::StepName, Rest::FirstStep),
            (
                First,
                Is(Sort::Proof),
                Role::ProofWord,
                Rest::FirstProofStep,
            ),
            (
                First,
                Is(Sort::Inversion),
                Role::InversionWord,
                Rest::Inversion,
            ),
        ],
        Phrase::MoreTargets => &[(Next, Is(Sort::Comma), Role::Sign, Rest::Target)],
        Phrase::Steps => &[
            (First, Is(Sort::Name), Role::StepName, Rest::Step),
            (First, Is(Sort::Proof), Role::ProofWord, Rest::ProofStep),
            (
                First,
                Is(Sort::Inversion),
                Role::InversionWord,
                Rest::Inversion,
            ),
        ],
        Phrase::Just => &[
            (Next, Is(Sort::Rule), Role::RuleCall, Rest::Call),
            (Next, Is(Sort::Theorem), Role::TheoremCall, Rest::Call),
            (Next, Is(Sort::Lemma), Role::TheoremCall, Rest::Call),
            (Next, Is(Sort::Induction), Role::Sign, Rest::Hypothesis),
            (Next, Is(Sort::Case), Role::Cases, Rest::Analysis),
            (
                Next,
                Is(Sort::Contradiction),
                Role::Contradiction,
                Rest::OnArg,
            ),
            (Next, Is(Sort::Weakening), Role::Weakening, Rest::OnName),
            (Next, Is(Sort::Exchange), Role::Exchange, Rest::OnName),
            (
                Next,
                Is(Sort::Substitution),
                Role::Substitution,
                Rest::OnTwoNames,
            ),
            (Next, Is(Sort::Unproved), Role::Unproved, Rest::Nothing),
            (Next, Is(Sort::Name), Role::NameAlone, Rest::Nothing),
        ],
        Phrase::FirstJust => &[
            (Next, Is(Sort::Rule), Role::RuleCall, Rest::Call),
            (Next, Is(Sort::Theorem), Role::TheoremCall, Rest::Call),
            (Next, Is(Sort::Lemma), Role::TheoremCall, Rest::Call),
            (
                Next,
                Is(Sort::Induction),
                Role::Sign,
                Rest::InductionOrHypothesis,
            ),
            (Next, Is(Sort::Case), Role::Cases, Rest::Analysis),
            (
                Next,
                Is(Sort::Contradiction),
                Role::Contradiction,
                Rest::OnArg,
            ),
            (Next, Is(Sort::Weakening), Role::Weakening, Rest::OnName),
            (Next, Is(Sort::Exchange), Role::Exchange, Rest::OnName),
            (
                Next,
                Is(Sort::Substitution),
                Role::Substitution,
                Rest::OnTwoNames,
            ),
            (Next, Is(Sort::Unproved), Role::Unproved, Rest::Nothing),
            (Next, Is(Sort::Name), Role::NameAlone, Rest::Nothing),
        ],
        Phrase::InductionOrHypothesis => &[
            (Next, Is(Sort::Hypothesis), Role::HypothesisCall, Rest::Args),
            (Next, Is(Sort::On), Role::Induction, Rest::Induction),
        ],
        Phrase::Args => &[(Next, Is(Sort::On), Role::Sign, Rest::Arg)],
        Phrase::MoreArgs => &[(Next, Is(Sort::Comma), Role::Sign, Rest::OneArg)],
        Phrase::Arg => &[
            (Next, Is(Sort::Name), Role::ArgName, Rest::Nothing),
            (Next, Is(Sort::Open), Role::Sign, Rest::Enclosed),
        ],
        Phrase::Enclosed => &[
            (
                Next,
                Class::ButParenthesis,
                Role::ArgForm,
                Rest::MoreEnclosed,
            ),
            (Next, Is(Sort::Open), Role::ArgForm, Rest::FirstNested),
        ],
        Phrase::MoreEnclosed => &[
            (Next, Class::ButParenthesis, Role::More, Rest::Nothing),
            (Next, Is(Sort::Open), Role::More, Rest::Nested),
        ],
        Phrase::CaseList => &[(First, Is(Sort::Case), Role::CaseWord, Rest::Case)],
        Phrase::CaseHead => &[
            (Next, Is(Sort::Rule), Role::RuleCase, Rest::RuleHead),
            (Next, Class::Formed, Role::Form, Rest::TermHead),
        ],
        Phrase::CaseAssumes => &[(Next, Is(Sort::Assumes), Role::Sign, Rest::AssumedForm)],
        Phrase::HeadLines => &[
            (First, Is(Sort::Name), Role::HeadName, Rest::HeadPremise),
            (First, Is(Sort::Bar), Role::Sign, Rest::HeadBar),
        ],
        Phrase::Inverted => &[],
    }
}

/// The symbols that an alternative has after its first token.
pub fn symbols(rest: Rest) -> &'static [Item]
    ensures { result.now ≡ spec.items rest }
{
    match rest {
        Rest::Nothing => &[],
        Rest::Terminals => &[
            In(Part::Terminals, One(Next, Class::Listed, Role::Item)),
            In(Part::Terminals, Choice(Phrase::MoreListed)),
        ],
        Rest::Syntax => &[
            In(Part::Syntax, One(First, Is(Sort::Name), Role::CategoryName)),
            In(Part::Syntax, Choice(Phrase::FirstDefine)),
        ],
        Rest::Judgment => &[
            In(Part::Judgment, One(Next, Is(Sort::Name), Role::Name)),
            In(Part::Judgment, One(Next, Is(Sort::Colon), Role::Sign)),
            In(Part::Judgment, One(Next, Class::Formed, Role::Form)),
            In(Part::Judgment, Choice(Phrase::MoreOnLine)),
            In(Part::Judgment, Choice(Phrase::JudgmentAssumes)),
            In(Part::Judgment, Choice(Phrase::Rules)),
        ],
        Rest::FirstTheorem => &[
            In(Part::Theorem, Choice(Phrase::TheoremBody)),
            Here(Choice(Phrase::LaterParts)),
        ],
        Rest::FirstLemma => &[
            In(Part::Lemma, Choice(Phrase::LemmaBody)),
            Here(Choice(Phrase::LaterParts)),
        ],
        Rest::Theorem => &[In(Part::Theorem, Choice(Phrase::TheoremBody))],
        Rest::Lemma => &[In(Part::Lemma, Choice(Phrase::LemmaBody))],
        Rest::And => &[In(Part::Theorem, Choice(Phrase::AndKind))],
        Rest::TheoremBody => &[
            Here(One(Anywhere, Is(Sort::Colon), Role::Sign)),
            Here(Choice(Phrase::TheoremAssumes)),
            Here(Choice(Phrase::Inputs)),
            Here(One(Anywhere, Is(Sort::Exists), Role::Sign)),
            Here(Choice(Phrase::Output)),
            Here(Choice(Phrase::Proof)),
            Here(One(First, Is(Sort::End), Role::EndWord)),
            Here(One(Next, Is(Sort::Theorem), Role::EndTheorem)),
        ],
        Rest::LemmaBody => &[
            Here(One(Anywhere, Is(Sort::Colon), Role::Sign)),
            Here(Choice(Phrase::TheoremAssumes)),
            Here(Choice(Phrase::Inputs)),
            Here(One(Anywhere, Is(Sort::Exists), Role::Sign)),
            Here(Choice(Phrase::Output)),
            Here(Choice(Phrase::Proof)),
            Here(One(First, Is(Sort::End), Role::EndWord)),
            Here(One(Next, Is(Sort::Lemma), Role::EndLemma)),
        ],
        Rest::Productions => &[Here(Choice(Phrase::Productions))],
        Rest::AfterLineName => &[Here(Choice(Phrase::AfterLineName))],
        Rest::AfterLineToken => &[Here(Choice(Phrase::AfterLineToken))],
        Rest::AssumedName => &[Here(One(Next, Is(Sort::Name), Role::Assumed))],
        Rest::AssumedTheorem => &[Here(One(Anywhere, Is(Sort::Name), Role::Assumed))],
        Rest::RuleLines => &[
            Here(Choice(Phrase::MoreOnLine)),
            Here(Choice(Phrase::RuleLines)),
        ],
        Rest::BarLine => &[
            Here(One(Next, Is(Sort::Name), Role::Name)),
            Here(One(First, Class::Formed, Role::Form)),
            Here(Choice(Phrase::MoreOnLine)),
        ],
        Rest::Input => &[
            Here(One(Anywhere, Is(Sort::Name), Role::InputName)),
            Here(Choice(Phrase::InputForm)),
        ],
        Rest::InputForm => &[
            Here(One(Anywhere, Class::Formed, Role::Form)),
            Here(Choice(Phrase::MoreOfForm)),
        ],
        Rest::OutputTokens => &[
            Here(Choice(Phrase::OutputTokens)),
            Here(One(Anywhere, Is(Sort::Dot), Role::More)),
            Here(Choice(Phrase::OutputGoesOn)),
        ],
        Rest::OutputAfterDot => &[Here(Choice(Phrase::OutputAfterDot))],
        Rest::OutputGoesOn => &[Here(Choice(Phrase::OutputGoesOn))],
        Rest::Use => &[
            Here(One(Next, Is(Sort::Induction), Role::Sign)),
            Here(One(Next, Is(Sort::On), Role::Sign)),
            Here(One(Next, Is(Sort::Name), Role::Target)),
            Here(Choice(Phrase::MoreTargets)),
            Here(Choice(Phrase::Steps)),
        ],
        Rest::Target => &[Here(One(Next, Is(Sort::Name), Role::Target))],
        Rest::FirstStep => &[
            Here(One(Next, Is(Sort::Colon), Role::Sign)),
            Here(One(Anywhere, Class::Formed, Role::Form)),
            Here(Choice(Phrase::MoreOfForm)),
            Here(One(Anywhere, Is(Sort::By), Role::Sign)),
            Here(Choice(Phrase::FirstJust)),
            Here(Choice(Phrase::Steps)),
        ],
        Rest::FirstProofStep => &[
            Here(One(Next, Is(Sort::By), Role::Sign)),
            Here(Choice(Phrase::FirstJust)),
            Here(Choice(Phrase::Steps)),
        ],
        Rest::Step => &[
            Here(One(Next, Is(Sort::Colon), Role::Sign)),
            Here(One(Anywhere, Class::Formed, Role::Form)),
            Here(Choice(Phrase::MoreOfForm)),
            Here(One(Anywhere, Is(Sort::By), Role::Sign)),
            Here(Choice(Phrase::Just)),
            Here(Choice(Phrase::Steps)),
        ],
        Rest::ProofStep => &[
            Here(One(Next, Is(Sort::By), Role::Sign)),
            Here(Choice(Phrase::Just)),
            Here(Choice(Phrase::Steps)),
        ],
        Rest::Inversion => &[
            In(Part::Inversion, One(Next, Is(Sort::On), Role::Sign)),
            In(Part::Inversion, Choice(Phrase::Arg)),
            In(Part::Inversion, Choice(Phrase::HeadLines)),
            In(Part::Inversion, One(First, Is(Sort::Is), Role::Sign)),
            Here(Choice(Phrase::Steps)),
            Here(Choice(Phrase::Inverted)),
        ],
        Rest::Call => &[
            Here(One(Next, Is(Sort::Name), Role::Name)),
            Here(Choice(Phrase::Args)),
        ],
        Rest::Hypothesis => &[
            Here(One(Next, Is(Sort::Hypothesis), Role::HypothesisCall)),
            Here(Choice(Phrase::Args)),
        ],
        Rest::InductionOrHypothesis => &[Here(Choice(Phrase::InductionOrHypothesis))],
        Rest::Args => &[Here(Choice(Phrase::Args))],
        Rest::Analysis => &[
            Here(One(Next, Is(Sort::Analysis), Role::Sign)),
            Here(One(Next, Is(Sort::On), Role::Sign)),
            Here(Choice(Phrase::Arg)),
            Here(One(Next, Is(Sort::Colon), Role::Sign)),
            In(Part::CaseAnalysis, Choice(Phrase::CaseList)),
            In(Part::CaseAnalysis, One(First, Is(Sort::End), Role::EndWord)),
            In(Part::CaseAnalysis, One(Next, Is(Sort::Case), Role::Sign)),
            In(
                Part::CaseAnalysis,
                One(Next, Is(Sort::Analysis), Role::EndAnalysis),
            ),
        ],
        Rest::Induction => &[
            Here(Choice(Phrase::Arg)),
            Here(One(Next, Is(Sort::Colon), Role::Sign)),
            In(Part::Induction, Choice(Phrase::CaseList)),
            In(Part::Induction, One(First, Is(Sort::End), Role::EndWord)),
            In(
                Part::Induction,
                One(Next, Is(Sort::Induction), Role::EndInduction),
            ),
        ],
        Rest::OnArg => &[
            Here(One(Next, Is(Sort::On), Role::Sign)),
            Here(Choice(Phrase::Arg)),
        ],
        Rest::OnName => &[
            Here(One(Next, Is(Sort::On), Role::Sign)),
            Here(One(Next, Is(Sort::Name), Role::Name)),
        ],
        Rest::OnTwoNames => &[
            Here(One(Next, Is(Sort::On), Role::Sign)),
            Here(One(Next, Is(Sort::Name), Role::Name)),
            Here(One(Next, Is(Sort::Comma), Role::Sign)),
            Here(One(Next, Is(Sort::Name), Role::SecondName)),
        ],
        Rest::Arg => &[Here(Choice(Phrase::Arg)), Here(Choice(Phrase::MoreArgs))],
        Rest::OneArg => &[Here(Choice(Phrase::Arg))],
        Rest::Enclosed => &[
            Here(Choice(Phrase::Enclosed)),
            Here(One(Next, Is(Sort::Close), Role::Sign)),
        ],
        Rest::MoreEnclosed => &[Here(Choice(Phrase::MoreEnclosed))],
        Rest::Nested => &[
            Here(Choice(Phrase::MoreEnclosed)),
            Here(One(Next, Is(Sort::Close), Role::More)),
        ],
        Rest::FirstNested => &[
            Here(Choice(Phrase::MoreEnclosed)),
            Here(One(Next, Is(Sort::Close), Role::More)),
            Here(Choice(Phrase::MoreEnclosed)),
        ],
        Rest::Case => &[
            In(Part::Case, Choice(Phrase::CaseHead)),
            In(Part::Case, Choice(Phrase::Steps)),
            In(Part::Case, One(First, Is(Sort::End), Role::EndWord)),
            In(Part::Case, One(Next, Is(Sort::Case), Role::EndCase)),
        ],
        Rest::RuleHead => &[
            Here(Choice(Phrase::HeadLines)),
            Here(One(First, Is(Sort::Is), Role::Sign)),
        ],
        Rest::TermHead => &[
            Here(Choice(Phrase::MoreOnLine)),
            Here(Choice(Phrase::CaseAssumes)),
            Here(One(Next, Is(Sort::Is), Role::Sign)),
        ],
        Rest::AssumedForm => &[
            Here(One(Next, Class::Formed, Role::AssumedForm)),
            Here(Choice(Phrase::MoreOnLine)),
        ],
        Rest::HeadPremise => &[
            Here(One(Next, Is(Sort::Colon), Role::Sign)),
            Here(One(Next, Class::Formed, Role::Form)),
            Here(Choice(Phrase::MoreOnLine)),
            Here(Choice(Phrase::HeadLines)),
        ],
        Rest::HeadBar => &[
            Here(One(Next, Is(Sort::Name), Role::Name)),
            Here(One(First, Is(Sort::Name), Role::HeadConclusion)),
            Here(One(Next, Is(Sort::Colon), Role::Sign)),
            Here(One(Next, Class::Formed, Role::Form)),
            Here(Choice(Phrase::MoreOnLine)),
        ],
    }
}
