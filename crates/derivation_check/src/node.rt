// Whether a node of an ordinary rule is right.
ghost use Rattle.std.specs.Prelude.{◌≡◌, ◌↔◌, IsTrue, IfOk, OnOk, length, map};
ghost use Rattle.std.specs.List.{AllByRecursion, AllZip};
ghost use Rattle.rule_schemes.specs.Rules.{IsAssumption, IsJudgment, IsSystemSoFar, RuleFits};
ghost use Rattle.rule_schemes.specs.Derivation.{judgment, IsNodeOf};
ghost use Rattle.rule_schemes.specs.View.{theory, rule as plain_rule, judgment_scheme, judgment_value};
ghost use Rattle.derivation_check.specs.Parts.{subtrees_of};
ghost use Rattle.derivation_check.specs.Pairs.{PremiseFits, with_premises};

use crate::deriv::Deriv;
use crate::judged::is_judgment;
use binding_terms::NoMemory;
use rule_schemes::{JScheme, JudgInst, RuleScheme, System};
use scheme_match::Matcher;
use scheme_terms::Root;
use std::alloc::Global;

/// Tells a caller's proof what each system is.
pub fn always_so_far(sys: &System)
    ensures { IsSystemSoFar (theory sys.now) }
{
    sys.always_system();
}

/// Whether the rule gives its judgment for a variable of the context.
pub fn is_assumption(rule: &RuleScheme) -> bool
    ensures { IsTrue result ↔ IsAssumption (plain_rule rule.now) }
{
    match &rule.conclusion.ctx.root {
        Root::Whole(_) => rule.conclusion.ctx.entries.len() == 1,
        _ => false,
    }
}

/// Whether the trees carry judgments of the system.
fn carry_judgments(alloc: Global, sys: &System, trees: &[Deriv]) -> Result<bool, NoMemory>
    ensures { IfOk result (λ they_do. IsTrue they_do ↔ AllByRecursion (λ d. IsJudgment (theory sys.now) (judgment d)) trees.now) }
{
    for tree in trees {
        if !is_judgment(alloc, sys, tree.conclusion())? {
            return Ok(false);
        }
    }
    Ok(true)
}

/// Adds the premises with the judgments of the trees, place by place.
fn add_premises<'a>(
    matcher: &mut Matcher<'a>,
    premises: &'a [JScheme],
    trees: &'a [Deriv],
) -> Result<(), NoMemory>
    requires as_many { length premises.now ≡ length trees.now }
    requires fit { AllZip (PremiseFits matcher.old.sig matcher.old.metas) (map judgment_scheme premises.now) trees.now }
    ensures { OnOk result (matcher.new ≡ with_premises matcher.old (map judgment_scheme premises.now) trees.now) }
{
    for i in 0..premises.len() {
        matcher.add(&premises[i], trees[i].conclusion())?;
    }
    Ok(())
}

/// Whether one instance of an ordinary rule gives the judgment and those of the trees.
fn is_instance(
    alloc: Global,
    sys: &System,
    rule: &RuleScheme,
    conclusion: &JudgInst,
    trees: &[Deriv],
) -> Result<bool, NoMemory>
    requires fits { RuleFits (theory sys.now) (plain_rule rule.now) }
    requires ordinary { IsAssumption (plain_rule rule.now) → ⊥ }
    requires as_many { length rule.now.premises ≡ length trees.now }
    requires judged { IsJudgment (theory sys.now) (judgment_value conclusion.now) }
    requires premises { AllByRecursion (λ d. IsJudgment (theory sys.now) (judgment d)) trees.now }
    ensures { IfOk result (λ is. IsTrue is ↔ IsNodeOf (theory sys.now) (judgment_value conclusion.now) (subtrees_of trees.now) (plain_rule rule.now)) }
{
    always_so_far(sys);
    let metas = rule.metas.as_slice();
    let mut matcher = Matcher::new(alloc, sys.sig(), metas, &[], &conclusion.ctx)?;
    matcher.add(&rule.conclusion, conclusion)?;
    add_premises(&mut matcher, rule.premises.as_slice(), trees)?;
    Ok(matcher.finish()?.is_some())
}

/// Whether the node of the judgment by the rule over the trees is right.
pub fn is_node(
    alloc: Global,
    sys: &System,
    rule: &RuleScheme,
    conclusion: &JudgInst,
    trees: &[Deriv],
) -> Result<bool, NoMemory>
    requires fits { RuleFits (theory sys.now) (plain_rule rule.now) }
    requires judged { IsJudgment (theory sys.now) (judgment_value conclusion.now) }
    ensures { IfOk result (λ is. IsTrue is ↔ IsNodeOf (theory sys.now) (judgment_value conclusion.now) (subtrees_of trees.now) (plain_rule rule.now)) }
{
    always_so_far(sys);
    if is_assumption(rule) {
        return Ok(false);
    }
    if rule.premises.len() != trees.len() {
        return Ok(false);
    }
    if !carry_judgments(alloc, sys, trees)? {
        return Ok(false);
    }
    is_instance(alloc, sys, rule, conclusion, trees)
}
