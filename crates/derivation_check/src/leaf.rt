// Whether a leaf is right.
ghost use Rattle.std.specs.Prelude.{◌≡◌, ◌↔◌, ◌+◌, ◌-◌, ◌<◌, suc, IsTrue, IfOk, OnOk, length, map, option_map};
ghost use Rattle.std.specs.List.{AllZip};
ghost use Rattle.binding_terms.specs.View.{tree};
ghost use Rattle.binding_terms.specs.Tree.{var, shifted, put_in};
ghost use Rattle.scheme_terms.specs.Instance.{instance_of};
ghost use Rattle.scheme_terms.specs.View.{scheme, scheme_entry, context_value, instance as view};
ghost use Rattle.rule_schemes.specs.Rules.{IsAssumptionJudgment, IsJudgment, RuleFits};
ghost use Rattle.rule_schemes.specs.View.{theory, rule as plain_rule, judgment_value};
ghost use Rattle.scheme_match.specs.Matching.{TermsFit, AreStrict, IsOnlyMatch};
ghost use Rattle.derivation_check.specs.Pairs.{with_terms, entry_matching, IsEntryOfRule};

use crate::node::{always_so_far, is_assumption};
use binding_terms::{NoMemory, Term, put, same, shift};
use rule_schemes::{JudgInst, RuleScheme, System};
use scheme_match::Matcher;
use scheme_terms::{CtxValue, Inst, SEntry, Scheme, instance};
use std::alloc::Global;

/// The arguments of an entry with so many variables more around them.
#[tactic(auto, using(std::proofs::lemmas::List::take_all))]
fn raised_args(alloc: Global, args: &[Term], by: usize) -> Result<Vec<Term>, NoMemory>
    ensures { IfOk result (λ all. map tree all.items ≡ map (shifted 0 by) (map tree args.now)) }
{
    let mut all = Vec::new(alloc);
    for arg in args {
        all.push(shift(alloc, arg, 0, by)?)?;
    }
    Ok(all)
}

/// Adds the schemes with the terms, place by place.
fn add_terms<'a>(
    matcher: &mut Matcher<'a>,
    schemes: &'a [Scheme],
    terms: &'a [Term],
) -> Result<(), NoMemory>
    requires as_many { length schemes.now ≡ length terms.now }
    requires fit { AllZip (λ s t. TermsFit matcher.old.sig matcher.old.metas matcher.old.root 0 s t) (map scheme schemes.now) (map tree terms.now) }
    ensures { OnOk result (matcher.new ≡ with_terms matcher.old (map scheme schemes.now) (map tree terms.now)) }
{
    for i in 0..schemes.len() {
        matcher.add_term(0, &schemes[i], &terms[i])?;
    }
    Ok(())
}

/// The one instance of the rule's metavariables, over the context, whose entry has these arguments, or none.
fn instance_of_entry(
    alloc: Global,
    sys: &System,
    rule: &RuleScheme,
    ctx: &CtxValue,
    declared: &[Scheme],
    args: &[Term],
) -> Result<Option<Inst>, NoMemory>
    requires as_many { length declared.now ≡ length args.now }
    requires fit { AllZip (λ s t. TermsFit (theory sys.now).sig rule.now.metas (context_value ctx.now) 0 s t) (map scheme declared.now) (map tree args.now) }
    requires strict { AreStrict (entry_matching (theory sys.now) rule.now.metas (context_value ctx.now) (map scheme declared.now) (map tree args.now)) }
    ensures { IfOk result (λ answer. IsOnlyMatch (entry_matching (theory sys.now) rule.now.metas (context_value ctx.now) (map scheme declared.now) (map tree args.now)) (option_map view answer)) }
{
    let mut matcher = Matcher::new(alloc, sys.sig(), rule.metas.as_slice(), &[], ctx)?;
    add_terms(&mut matcher, declared, args)?;
    matcher.finish()
}

/// The variable of the entry at the place.
fn entry_variable(ctx: &CtxValue, place: usize) -> Term
    requires { place < length ctx.now.entries }
    ensures { tree result ≡ var (length (context_value ctx.now).entries - suc place + 0) }
{
    Term::Var(ctx.entries.len() - 1 - place)
}

/// Whether the instances of the schemes, with the variable in, are the terms.
fn has_arguments(
    alloc: Global,
    inst: &Inst,
    variable: &Term,
    schemes: &[Scheme],
    terms: &[Term],
) -> Result<bool, NoMemory>
    ensures { IfOk result (λ has. IsTrue has ↔ (map tree terms.now ≡ map (λ s. put_in 0 (tree variable.now) (instance_of (view inst.now) 1 s)) (map scheme schemes.now))) }
{
    if schemes.len() != terms.len() {
        return Ok(false);
    }
    for i in 0..schemes.len() {
        let open = instance(alloc, &schemes[i], 1, inst)?;
        let term = put(alloc, &open, 0, variable)?;
        if !same(&terms[i], &term) {
            return Ok(false);
        }
    }
    Ok(true)
}

/// Whether the judgment is the rule's for the variable of this entry of its context.
fn is_for_entry(
    alloc: Global,
    sys: &System,
    rule: &RuleScheme,
    declared: &SEntry,
    conclusion: &JudgInst,
    place: usize,
) -> Result<bool, NoMemory>
    requires fits { RuleFits (theory sys.now) (plain_rule rule.now) }
    requires declared { IsEntryOfRule (plain_rule rule.now) (scheme_entry declared.now) }
    requires same { conclusion.now.judgment.0 ≡ rule.now.conclusion.judgment.0 }
    requires judged { IsJudgment (theory sys.now) (judgment_value conclusion.now) }
    requires within { place < length conclusion.now.ctx.entries }
    ensures { IfOk result (λ is. IsTrue is ↔ IsAssumptionJudgment (theory sys.now) (plain_rule rule.now) (judgment_value conclusion.now).context place (judgment_value conclusion.now)) }
{
    always_so_far(sys);
    let ctx = &conclusion.ctx;
    let entries = ctx.entries.as_slice();
    let entry = &entries[place];
    if declared.prod.0 != entry.prod.0 {
        return Ok(false);
    }
    let args = raised_args(alloc, entry.args.as_slice(), entries.len() - place)?;
    let patterns = declared.args.as_slice();
    match instance_of_entry(alloc, sys, rule, ctx, patterns, args.as_slice())? {
        Some(inst) => {
            let variable = entry_variable(ctx, place);
            let schemes = rule.conclusion.args.as_slice();
            let args = conclusion.args.as_slice();
            let has = has_arguments(alloc, &inst, &variable, schemes, args)?;
            Ok(has)
        }
        None => Ok(false),
    }
}

/// Whether the judgment is the rule's assumption judgment at the place of its context.
pub fn is_leaf(
    alloc: Global,
    sys: &System,
    rule: &RuleScheme,
    conclusion: &JudgInst,
    place: usize,
) -> Result<bool, NoMemory>
    requires fits { RuleFits (theory sys.now) (plain_rule rule.now) }
    requires judged { IsJudgment (theory sys.now) (judgment_value conclusion.now) }
    ensures { IfOk result (λ is. IsTrue is ↔ IsAssumptionJudgment (theory sys.now) (plain_rule rule.now) (judgment_value conclusion.now).context place (judgment_value conclusion.now)) }
{
    always_so_far(sys);
    if !is_assumption(rule) {
        return Ok(false);
    }
    if conclusion.judgment.0 != rule.conclusion.judgment.0 {
        return Ok(false);
    }
    if place >= conclusion.ctx.entries.len() {
        return Ok(false);
    }
    let declared = &rule.conclusion.ctx.entries.as_slice()[0];
    is_for_entry(alloc, sys, rule, declared, conclusion, place)
}
