// Whether a step is an instance of its rule.
ghost use Rattle.std.specs.Prelude.{◌≡◌, ◌↔◌, ◌++◌, IsTrue, IfOk, length, map, option_map, Some, None, if◌then◌else◌};
ghost use Rattle.std.specs.List.{AllByRecursion};
ghost use Rattle.scheme_terms.specs.View.{names, scheme};
ghost use Rattle.pattern_unify.specs.Equations.{equation};
ghost use Rattle.rule_schemes.specs.Rules.{rule_names};
ghost use Rattle.rule_schemes.specs.View.{theory, judgment_scheme, rule as plain_rule};
ghost use Rattle.core_proofs.specs.FormEquations.{equated, paired, form_equations, all_equations, both};
ghost use Rattle.proof_trees.specs.RuleStep.{IsRuleInstance};
ghost use Rattle.core_proofs.specs.Plain.{IsPlainForm, IsPlainRule};

use binding_terms::{NoMemory, Text};
use pattern_unify::{Equation, fit_into};
use rule_schemes::{JScheme, RuleScheme, System};
use scheme_terms::{MetaDecl, Scheme, Scope, copy_scheme};
use sqlite_items::Items;
use std::alloc::Global;

/// The equation of a scheme and the scheme that it is to become.
fn equate(alloc: Global, left: &Scheme, right: &Scheme) -> Result<Equation, NoMemory>
    ensures { IfOk result (λ e. equation e ≡ equated (scheme left.now) (scheme right.now)) }
{
    Ok(Equation {
        scope: Items::new(alloc),
        left: copy_scheme(alloc, left)?,
        right: copy_scheme(alloc, right)?,
    })
}

/// Appends the equations of schemes, one by one.
fn add_paired(
    alloc: Global,
    patterns: &[Scheme],
    targets: &[Scheme],
    equations: &mut Vec<Equation>,
) -> Result<(), NoMemory>
    requires { length patterns.now ≡ length targets.now }
    ensures { IfOk result (λ _. map equation equations.new.items
        ≡ map equation equations.old.items ++ paired (map scheme patterns.now) (map scheme targets.now)) }
{
    for i in 0..patterns.len() {
        let made = equate(alloc, &patterns[i], &targets[i])?;
        equations.push(made)?;
    }
    Ok(())
}

/// Appends the equations of a form and the form that it is to become. False where they are of two judgments.
fn add_form(
    alloc: Global,
    pattern: &JScheme,
    target: &JScheme,
    equations: &mut Vec<Equation>,
) -> Result<bool, NoMemory>
    ensures { IfOk result (λ same. (if same then Some (map equation equations.new.items) else None)
        ≡ both (Some (map equation equations.old.items)) (form_equations (judgment_scheme pattern.now) (judgment_scheme target.now))) }
{
    if pattern.judgment.0 != target.judgment.0 || pattern.args.len() != target.args.len() {
        return Ok(false);
    }
    add_paired(
        alloc,
        pattern.args.as_slice(),
        target.args.as_slice(),
        equations,
    )?;
    Ok(true)
}

/// The equations of forms, one after another, unless there are more of one kind.
pub(crate) fn equations_of(
    alloc: Global,
    patterns: &[JScheme],
    targets: &[&JScheme],
) -> Result<Option<Vec<Equation>>, NoMemory>
    ensures { IfOk result (λ all. option_map (λ es. map equation es.items) all
        ≡ all_equations (map judgment_scheme patterns.now) (map (λ t. judgment_scheme t.now) targets.now)) }
{
    let mut equations = Vec::new(alloc);
    if patterns.len() != targets.len() {
        return Ok(None);
    }
    for i in 0..patterns.len() {
        if !add_form(alloc, &patterns[i], targets[i], &mut equations)? {
            return Ok(None);
        }
    }
    Ok(Some(equations))
}

pub(crate) fn copy_name(alloc: Global, decl: &MetaDecl) -> Result<MetaDecl, NoMemory>
    ensures { IfOk result (λ new. new ≡ decl.now) }
{
    let mut name = Text::new(alloc);
    name.push(decl.name.bytes())?;
    Ok(MetaDecl {
        name,
        cat: decl.cat,
        params: Items::from_slice(alloc, decl.params.as_slice())?,
    })
}

/// The metavariables of a rule as a scope of their own.
#[tactic(auto, using(std::proofs::lemmas::List::take_all))]
fn scope_of(alloc: Global, rule: &RuleScheme) -> Result<Scope, NoMemory>
    ensures { IfOk result (λ scope. names scope ≡ rule_names (plain_rule rule.now)) }
{
    let mut metas = Items::new(alloc);
    for decl in rule.metas.as_slice() {
        metas.push(copy_name(alloc, decl)?)?;
    }
    Ok(Scope {
        root: rule.conclusion.ctx.root,
        metas,
        knowns: Items::new(alloc),
    })
}

/// The equations of a rule's forms and those of a step: its premises with the cited forms, in order, and its conclusion with the step's.
fn step_equations(
    alloc: Global,
    form: &JScheme,
    cited: &[&JScheme],
    rule: &RuleScheme,
) -> Result<Option<Vec<Equation>>, NoMemory>
    ensures { IfOk result (λ all. option_map (λ es. map equation es.items) all
        ≡ both (all_equations (map judgment_scheme rule.now.premises) (map (λ t. judgment_scheme t.now) cited.now))
        (form_equations (judgment_scheme rule.now.conclusion) (judgment_scheme form.now))) }
{
    let Some(mut equations) = equations_of(alloc, rule.premises.as_slice(), cited)? else {
        return Ok(None);
    };
    if !add_form(alloc, &rule.conclusion, form, &mut equations)? {
        return Ok(None);
    }
    Ok(Some(equations))
}

/// Whether one substitution of the rule's metavariables by schemes of the scope makes its premises the cited forms, in order, and its
/// conclusion the step's form.
pub fn is_rule_instance(
    alloc: Global,
    system: &System,
    scope: &Scope,
    form: &JScheme,
    cited: &[&JScheme],
    rule: &RuleScheme,
) -> Result<bool, NoMemory>
    requires form { IsPlainForm (theory system.now) (names scope.now) (judgment_scheme form.now) }
    requires cited { AllByRecursion (IsPlainForm (theory system.now) (names scope.now)) (map (λ j. judgment_scheme j.now) cited.now) }
    requires rule { IsPlainRule (theory system.now) (plain_rule rule.now) }
    ensures { IfOk result (λ is. IsTrue is ↔ IsRuleInstance (theory system.now) (names scope.now) (judgment_scheme form.now)
        (map (λ j. judgment_scheme j.now) cited.now) (plain_rule rule.now)) }
{
    let equations = match step_equations(alloc, form, cited, rule)? {
        Some(equations) => equations,
        None => return Ok(false),
    };
    let from = scope_of(alloc, rule)?;
    let found = fit_into(alloc, system.sig(), &from, scope, &equations)?;
    Ok(found.is_some())
}
