// Whether a step by a rule is right where it stands.
ghost use Rattle.std.specs.Prelude.{◌≡◌, ◌↔◌, map, length, decimal, IfOk, IfSome, None, option_map};
ghost use Rattle.std.specs.List.{AllByRecursion};
ghost use Rattle.scheme_terms.specs.View.{names};
ghost use Rattle.rule_schemes.specs.Plain.{IsPlainTheory};
ghost use Rattle.rule_schemes.specs.View.{theory, judgment_scheme};
ghost use Rattle.core_proofs.specs.Faults as faults;
ghost use Rattle.core_proofs.specs.Faults.{IsRuleCode};
ghost use Rattle.core_proofs.specs.FormEquations.{cited_forms};
ghost use Rattle.core_proofs.specs.Plain.{IsPlainScope, IsPlainForm};
ghost use Rattle.core_proofs.specs.Provable.{IsRightByRule};

use crate::form::is_form;
use crate::rule_step::is_rule_instance;
use crate::step::StepId;
use binding_terms::{NoMemory, Text};
use itoa::Buffer;
use rule_schemes::{JScheme, RuleId, RuleScheme, System};
use scheme_terms::Scope;
use sqlite_items::at;
use std::alloc::Global;
use sy_base::Code;

/// The forms of the cited steps by their numbers, unless a number is of none.
fn forms_of<'a>(
    alloc: Global,
    scoped: &'a [JScheme],
    on: &[StepId],
) -> Result<Option<Vec<&'a JScheme>>, NoMemory>
    ensures { IfOk result (λ all. option_map (λ js. map (λ j. judgment_scheme j.now) js.items) all
        ≡ cited_forms (map judgment_scheme scoped.now) (map (λ id. id.0) on.now)) }
{
    let mut cited = Vec::new(alloc);
    for id in on {
        match at(scoped, id.0 as usize) {
            Some(form) => cited.push(form)?,
            None => return Ok(None),
        }
    }
    Ok(Some(cited))
}

/// Why a step by a rule is not right where these forms are in scope, or `None` exactly where it is.
pub(crate) fn rule_fault(
    alloc: Global,
    system: &System,
    scope: &Scope,
    scoped: &[JScheme],
    form: &JScheme,
    rule: RuleId,
    on: &[StepId],
) -> Result<Option<Code>, NoMemory>
    requires theory { IsPlainTheory (theory system.now) }
    requires scope { IsPlainScope (names scope.now) }
    requires scoped { AllByRecursion (IsPlainForm (theory system.now) (names scope.now)) (map judgment_scheme scoped.now) }
    ensures right { IfOk result (λ fault. (fault ≡ None)
        ↔ IsRightByRule (theory system.now) (names scope.now) (map judgment_scheme scoped.now) (judgment_scheme form.now) rule.0 (map (λ id. id.0) on.now)) }
    ensures code { IfOk result (λ fault. IfSome fault
        (IsRuleCode (theory system.now) (names scope.now) (map judgment_scheme scoped.now) (judgment_scheme form.now) rule.0 (map (λ id. id.0) on.now))) }
{
    system.always_system();
    if !is_form(system, scope, form) {
        return Ok(Some(Code::BadStep));
    }
    let Some(cited) = forms_of(alloc, scoped, on)? else {
        return Ok(Some(Code::BadStep));
    };
    let rules = system.rules();
    match at(rules.as_slice(), rule.0 as usize) {
        Some(rule) => {
            if rule.premises.len() != on.len() {
                return Ok(Some(Code::WrongCount));
            }
            if is_rule_instance(alloc, system, scope, form, cited.as_slice(), rule)? {
                Ok(None)
            } else {
                Ok(Some(Code::NotInstance))
            }
        }
        None => Ok(Some(Code::BadStep)),
    }
}

/// How many premises the rule has, in decimal.
fn count_text(alloc: Global, rule: &RuleScheme) -> Result<Text, NoMemory>
    ensures { IfOk result (λ text. text ≡ decimal (length rule.now.premises)) }
{
    let mut text = Text::new(alloc);
    let mut digits = Buffer::new();
    text.push(digits.format(rule.premises.len()).as_bytes())?;
    Ok(text)
}

/// The rule's name.
fn name_text(alloc: Global, rule: &RuleScheme) -> Result<Text, NoMemory>
    ensures { IfOk result (λ text. text ≡ rule.now.name) }
{
    let mut text = Text::new(alloc);
    text.push(rule.name.bytes())?;
    Ok(text)
}

/// What is told beside the code of such a fault: how many premises the rule has, or its name.
pub(crate) fn rule_detail(
    alloc: Global,
    system: &System,
    rule: RuleId,
    code: Code,
) -> Result<Text, NoMemory>
    ensures { IfOk result (λ detail. detail ≡ faults.rule_detail (theory system.now) rule.0 code) }
{
    let rules = system.rules();
    match at(rules.as_slice(), rule.0 as usize) {
        Some(rule) => match code {
            Code::WrongCount => count_text(alloc, rule),
            Code::NotInstance => name_text(alloc, rule),
            _ => Ok(Text::new(alloc)),
        },
        None => Ok(Text::new(alloc)),
    }
}
