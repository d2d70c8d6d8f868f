// The core step for which a written step stands.
ghost use Rattle.std.specs.Prelude.{◌≡◌, IfOk, ℕ, List, map, option_map};
ghost use Rattle.scheme_terms.specs.View.{names as plain_names};
ghost use Rattle.rule_schemes.specs.Said.{want_judgment};
ghost use Rattle.rule_schemes.specs.Rules.{JudgmentScheme};
ghost use Rattle.rule_schemes.specs.View.{judgment_scheme, statement as plain, theory};
ghost use Rattle.notation_parser.specs.Plain.{IsPlain};
ghost use Rattle.notation_parser.specs.View.{reading_scope};
ghost use Rattle.proof_lexer.specs.View.{token_view};
ghost use Rattle.outline_reader.specs.Views.{arg_view, just_view, portion_view};
ghost use Rattle.outline_reader.specs.Plain.{plain_argument, plain_form, plain_justification, plain_portion, by_rule_of};
ghost use Rattle.core_proofs.specs.Step.{Step};
ghost use Rattle.core_proofs.specs.View.{step};
ghost use Rattle.proof_check.specs.Cited.{UNNAMED, MayBeGiven};
ghost use Rattle.proof_check.specs.Finding.{Finds};
ghost use Rattle.proof_check.specs.Written.{IsGoal, IsFormOf, Says};
ghost use Rattle.proof_check.specs.Steps.{IsStepOf, StandsFor};
ghost use Rattle.proof_check.specs.View.{made_step};

use crate::cited::all_cited;
use crate::forms::{goal, read_form};
use crate::names::{may_be_given, rule_named};
use binding_terms::{NoMemory, Text, number};
use core_proofs::CoreStep;
use outline_reader::{ArgText, Form, Just, Name, Portion};
use rule_schemes::{JScheme, ReadScope, RuleId, Statement, System};
use std::alloc::Global;

/// What a step makes: the name that it gives, its line and its core step.
#[derive(Drop)]
pub struct Made {
    pub name: Text,
    pub line: u32,
    pub step: CoreStep,
}

/// What a step says that is written with `proof`.
fn said_by_goal(alloc: Global, statement: &Statement) -> Result<Option<(Text, JScheme)>, NoMemory>
    ensures { IfOk result (λ found. Finds
        (λ (said : List ℕ × JudgmentScheme). (said.0 ≡ UNNAMED) × IsGoal (plain statement.now) said.1)
        (option_map (λ said. (said.0, judgment_scheme said.1)) found)) }
{
    match goal(alloc, statement)? {
        Some(form) => Ok(Some((Text::of(alloc, b"_")?, form))),
        None => Ok(None),
    }
}

/// What a step says that is written with a name and a form.
fn said_by_form(
    alloc: Global,
    sys: &System,
    scope: &ReadScope,
    named: &[Text],
    name: Name<'_>,
    form: Form<'_>,
) -> Result<Option<(Text, JScheme)>, NoMemory>
    requires plain { IsPlain sys.now.sig sys.now.judgments (reading_scope scope.now) want_judgment }
    ensures { IfOk result (λ found. Finds
        (λ (said : List ℕ × JudgmentScheme). (said.0 ≡ name.now.text.now) × MayBeGiven sys.now.sig named.now name.now.text.now
        × IsFormOf (theory sys.now) (plain_names scope.now.scope) (map token_view form.now) said.1)
        (option_map (λ said. (said.0, judgment_scheme said.1)) found)) }
{
    if !may_be_given(sys.sig(), named, name.text.as_bytes()) {
        return Ok(None);
    }
    match read_form(alloc, sys, scope, form)? {
        Some(form) => Ok(Some((Text::of(alloc, name.text.as_bytes())?, form))),
        None => Ok(None),
    }
}

/// What a step says by its names and its forms.
fn said(
    alloc: Global,
    sys: &System,
    statement: &Statement,
    scope: &ReadScope,
    named: &[Text],
    names: &[Name<'_>],
    forms: &[Form<'_>],
) -> Result<Option<(Text, JScheme)>, NoMemory>
    requires plain { IsPlain sys.now.sig sys.now.judgments (reading_scope scope.now) want_judgment }
    ensures { IfOk result (λ found. Finds
        (λ (said : List ℕ × JudgmentScheme). Says (theory sys.now) (plain statement.now) (plain_names scope.now.scope) named.now
        (map token_view (map (λ name. name.now) names.now)) (map plain_form (map (λ form. form.now) forms.now)) said.0 said.1)
        (option_map (λ said. (said.0, judgment_scheme said.1)) found)) }
{
    if names.len() == 0 && forms.len() == 0 {
        return said_by_goal(alloc, statement);
    }
    if names.len() != 1 || forms.len() != 1 {
        return Ok(None);
    }
    said_by_form(alloc, sys, scope, named, names[0], forms[0])
}

/// The step by a rule with that form.
fn by_rule(
    alloc: Global,
    sys: &System,
    named: &[Text],
    first: Name<'_>,
    name: Name<'_>,
    arguments: &[ArgText<'_>],
    form: JScheme,
) -> Result<Option<CoreStep>, NoMemory>
    ensures { IfOk result (λ found. Finds
        (IsStepOf (theory sys.now) named.now (token_view first.now)
        (by_rule_of (token_view name.now) (map plain_argument (map arg_view arguments.now))) (judgment_scheme form))
        (option_map step found)) }
{
    let Some(rule) = rule_named(name.text.as_bytes(), sys) else {
        return Ok(None);
    };
    let rule = RuleId(number(rule)?);
    match all_cited(alloc, named, arguments)? {
        Some(on) => Ok(Some(CoreStep::Rule {
            line: first.line,
            form,
            rule,
            on,
        })),
        None => Ok(None),
    }
}

/// The step with that form and justification.
fn justified(
    alloc: Global,
    sys: &System,
    named: &[Text],
    first: Name<'_>,
    just: &Just<'_>,
    form: JScheme,
) -> Result<Option<CoreStep>, NoMemory>
    ensures { IfOk result (λ found. Finds
        (IsStepOf (theory sys.now) named.now (token_view first.now) (plain_justification (just_view just.now)) (judgment_scheme form))
        (option_map step found)) }
{
    match just {
        Just::Rule { name, on } => by_rule(alloc, sys, named, first, name, on.as_slice(), form),
        _ => Ok(None),
    }
}

/// What a portion of a proof makes that is a step.
pub fn step_of(
    alloc: Global,
    sys: &System,
    statement: &Statement,
    scope: &ReadScope,
    named: &[Text],
    portion: &Portion<'_>,
) -> Result<Option<Made>, NoMemory>
    requires plain { IsPlain sys.now.sig sys.now.judgments (reading_scope scope.now) want_judgment }
    ensures { IfOk result (λ found. Finds
        (StandsFor (theory sys.now) (plain statement.now) (plain_names scope.now.scope) named.now (plain_portion (portion_view portion.now)))
        (option_map made_step found)) }
{
    match portion {
        Portion::Step {
            first,
            names,
            forms,
            just,
        } => match said(alloc, sys, statement, scope, named, names, forms)? {
            Some((name, form)) => match justified(alloc, sys, named, first, just, form)? {
                Some(step) => Ok(Some(Made {
                    name,
                    line: first.line,
                    step,
                })),
                None => Ok(None),
            },
            None => Ok(None),
        },
        _ => Ok(None),
    }
}
