//! The tree of a judgment by a rule.
ghost use Rattle.std.specs.Prelude.{◌≡◌, ◌↔◌, ◌<◌, IsTrue, IfOk, OnOk, MatchOption, [], length, map};
ghost use Rattle.std.specs.List.{AllByRecursion, AllZip};
ghost use Rattle.rule_schemes.specs.Rules.{RuleFits, IsJudgment};
ghost use Rattle.rule_schemes.specs.Plain.{HasPlainNames};
ghost use Rattle.rule_schemes.specs.Derivation.{Derives, IsNodeOf};
ghost use Rattle.rule_schemes.specs.View.{theory, rule as plain_rule, judgment_scheme, judgment_value};
ghost use Rattle.derivation_check.specs.Parts.{subtrees_of};
ghost use Rattle.derivation_text.specs.Bare.{HasNoContexts};
ghost use Rattle.derivation_text.specs.Making.{PremiseFits, with_premises, HasNoTree};
ghost use Rattle.derivation_text.specs.Valid.{IsMade};

use binding_terms::NoMemory;
use derivation_check::Deriv;
use rule_schemes::{JScheme, JudgInst, RuleId, RuleScheme, System};
use scheme_match::Matcher;
use scheme_terms::CtxValue;
use sqlite_items::Items;
use std::alloc::Global;

/// Adds the premises with the judgments of the trees, place by place.
fn add_premises<'a>(
    matcher: &mut Matcher<'a>,
    premises: &'a [JScheme],
    trees: &'a [Deriv],
) -> Result<(), NoMemory>
    requires as_many { length premises.now ≡ length trees.now }
    requires fit { AllZip (PremiseFits matcher.old.sig matcher.old.metas) (map judgment_scheme premises.now) trees.now }
    ensures { OnOk result (matcher.new ≡ with_premises matcher.old (map judgment_scheme premises.now) trees.now) }
{
    for i in 0..premises.len() {
        matcher.add(&premises[i], trees[i].conclusion())?;
    }
    Ok(())
}

/// Whether the judgment and those of the trees are one instance of the rule.
fn is_node(
    alloc: Global,
    sys: &System,
    rule: &RuleScheme,
    judgment: &JudgInst,
    trees: &[Deriv],
) -> Result<bool, NoMemory>
    requires bare { HasNoContexts (theory sys.now) }
    requires fits { RuleFits (theory sys.now) (plain_rule rule.now) }
    requires plain { HasPlainNames (plain_rule rule.now) }
    requires judged { IsJudgment (theory sys.now) (judgment_value judgment.now) }
    requires derive { AllByRecursion (Derives (theory sys.now)) trees.now }
    ensures { IfOk result (λ it_is. IsTrue it_is ↔ IsNodeOf (theory sys.now) (judgment_value judgment.now) (subtrees_of trees.now) (plain_rule rule.now)) }
{
    let premises = rule.premises.as_slice();
    if premises.len() != trees.len() {
        return Ok(false);
    }
    sys.always_system();
    let closed = CtxValue {
        cat: None,
        entries: Items::new(alloc),
    };
    let mut matcher = Matcher::new(alloc, sys.sig(), rule.metas.as_slice(), &[], &closed)?;
    matcher.add(&rule.conclusion, judgment)?;
    add_premises(&mut matcher, premises, trees)?;
    Ok(matcher.finish()?.is_some())
}

/// The tree of the judgment by the rule with that number over the trees, if it is one.
pub fn made(
    alloc: Global,
    sys: &System,
    number: usize,
    judgment: JudgInst,
    trees: Vec<Deriv>,
) -> Result<Option<Deriv>, NoMemory>
    requires bare { HasNoContexts (theory sys.now) }
    requires number { number < length sys.now.rules }
    requires judged { IsJudgment (theory sys.now) (judgment_value judgment) }
    requires derive { AllByRecursion (Derives (theory sys.now)) trees.items }
    ensures { IfOk result (λ found. MatchOption found (HasNoTree (theory sys.now) number (judgment_value judgment) trees.items)
        (λ d. IsMade (theory sys.now) number (judgment_value judgment) trees.items d)) }
{
    sys.always_system();
    let rule = &sys.rules()[number];
    if !is_node(alloc, sys, rule, &judgment, trees.as_slice())? {
        return Ok(None);
    }
    let id = rule_id(number)?;
    Ok(Some(Deriv::node(alloc, id, judgment, trees)?))
}

fn rule_id(number: usize) -> Result<RuleId, NoMemory>
    ensures { IfOk result (λ id. id.0 ≡ number) }
{
    if number > u32::MAX as usize {
        return Err(NoMemory);
    }
    Ok(RuleId(number as u32))
}
