// Which judgments may stand under a context.
ghost use Rattle.std.specs.Prelude.{◌≡◌, ◌↔◌, ◌⊎◌, ◌∷◌, [], IsTrue, map, slice_get, MatchOption};
ghost use Rattle.binding_terms.specs.Numbered.{AnyByRecursion};
ghost use Rattle.binding_terms.specs.Signature.{Reaches, binders};
ghost use Rattle.rule_schemes.specs.Touching.{Touches, HasTouchingSlot, HasTouchingName, IsMarkedIn, RulesTouch, JudgmentTouches, TouchesWith};
ghost use Rattle.rule_schemes.specs.View.{judgment_scheme, rule as plain_rule};

use crate::rule::{JScheme, JudgId, Judgment, RuleScheme};
use binding_terms::{CatId, Item, Prod, Sig};
use scheme_terms::MetaDecl;
use sqlite_items::{Items, at};

fn reaches_binder(sig: &Sig, cat: CatId, items: &[Item]) -> bool
    ensures { IsTrue result ↔ AnyByRecursion (Reaches sig.now cat.0) (binders items.now) }
{
    for item in items {
        if let Item::Binder(bound) = item {
            if sig.reaches(cat, *bound) {
                return true;
            }
        }
    }
    false
}

fn prod_touches(sig: &Sig, context: CatId, cat: CatId, prod: &Prod) -> bool
    ensures { IsTrue result ↔ ((prod.now.cat.0 ≡ context.0) × AnyByRecursion (Reaches sig.now cat.0) (binders prod.now.items)) }
{
    prod.cat.0 == context.0 && reaches_binder(sig, cat, prod.items.as_slice())
}

fn some_prod_touches(sig: &Sig, context: CatId, cat: CatId) -> bool
    ensures { IsTrue result ↔ AnyByRecursion (λ p. (p.cat.0 ≡ context.0) × AnyByRecursion (Reaches sig.now cat.0) (binders p.items)) sig.now.prods }
{
    for prod in sig.prods().as_slice() {
        if prod_touches(sig, context, cat, prod) {
            return true;
        }
    }
    false
}

/// Whether the category reaches one of which contexts bind variables.
pub(crate) fn touches(sig: &Sig, context: CatId, cat: CatId) -> bool
    ensures { IsTrue result ↔ Touches sig.now context.0 cat.0 }
{
    some_prod_touches(sig, context, cat)
}

fn has_touching_name(sig: &Sig, context: CatId, metas: &[MetaDecl]) -> bool
    ensures { IsTrue result ↔ HasTouchingName sig.now context.0 metas.now }
{
    for decl in metas {
        if touches(sig, context, decl.cat) {
            return true;
        }
    }
    false
}

fn is_touching_slot(sig: &Sig, context: CatId, item: &Item) -> bool
    ensures { IsTrue result ↔ HasTouchingSlot sig.now context.0 (item.now ∷ []) }
{
    match item {
        Item::Slot { cat, binds: _ } => touches(sig, context, *cat),
        _ => false,
    }
}

fn has_touching_slot(sig: &Sig, context: CatId, items: &[Item]) -> bool
    ensures { IsTrue result ↔ HasTouchingSlot sig.now context.0 items.now }
{
    for item in items {
        if is_touching_slot(sig, context, item) {
            return true;
        }
    }
    false
}

/// Whether the second judgment is marked below the first.
pub(crate) fn is_below(rows: &[Items<bool>], judgment: JudgId, below: JudgId) -> bool
    ensures { IsTrue result ↔ IsMarkedIn rows.now judgment.0 below.0 }
{
    match at(rows, judgment.0 as usize) {
        Some(marks) => match at(marks.as_slice(), below.0 as usize) {
            Some(mark) => *mark,
            None => false,
        },
        None => false,
    }
}

fn rules_touch(
    sig: &Sig,
    rules: &[RuleScheme],
    rows: &[Items<bool>],
    context: CatId,
    judgment: JudgId,
) -> bool
    ensures { IsTrue result ↔ RulesTouch sig.now (map plain_rule rules.now) rows.now context.0 judgment.0 }
{
    for rule in rules {
        if is_below(rows, judgment, rule.conclusion.judgment)
            && has_touching_name(sig, context, rule.metas.as_slice())
        {
            return true;
        }
    }
    false
}

fn premises_touch(
    sig: &Sig,
    rules: &[RuleScheme],
    rows: &[Items<bool>],
    context: CatId,
    premises: &[JScheme],
) -> bool
    ensures { IsTrue result ↔ AnyByRecursion (λ p. RulesTouch sig.now (map plain_rule rules.now) rows.now context.0 p.judgment)
        (map judgment_scheme premises.now) }
{
    for premise in premises {
        if rules_touch(sig, rules, rows, context, premise.judgment) {
            return true;
        }
    }
    false
}

fn form_touches(sig: &Sig, judgments: &[Judgment], context: CatId, judgment: JudgId) -> bool
    ensures { IsTrue result ↔ MatchOption (slice_get judgments.now judgment.0) ⊥
        (λ form. HasTouchingSlot sig.now context.0 form.items) }
{
    match at(judgments, judgment.0 as usize) {
        Some(form) => has_touching_slot(sig, context, form.items.as_slice()),
        None => false,
    }
}

/// Whether a category that counts for the judgment reaches one of which contexts bind variables.
pub(crate) fn judgment_touches(
    sig: &Sig,
    judgments: &[Judgment],
    rules: &[RuleScheme],
    rows: &[Items<bool>],
    context: CatId,
    judgment: JudgId,
) -> bool
    ensures { IsTrue result ↔ JudgmentTouches (record { sig = sig.now; judgments = judgments.now; rules = map plain_rule rules.now })
        rows.now context.0 judgment.0 }
{
    form_touches(sig, judgments, context, judgment)
        || rules_touch(sig, rules, rows, context, judgment)
}

fn rule_touches(
    sig: &Sig,
    rules: &[RuleScheme],
    rule: &RuleScheme,
    rows: &[Items<bool>],
    context: CatId,
) -> bool
    ensures { IsTrue result ↔ (HasTouchingName sig.now context.0 rule.now.metas
        ⊎ AnyByRecursion (λ p. RulesTouch sig.now (map plain_rule rules.now) rows.now context.0 p.judgment) (plain_rule rule.now).premises) }
{
    has_touching_name(sig, context, rule.metas.as_slice())
        || premises_touch(sig, rules, rows, context, rule.premises.as_slice())
}

/// The same with one rule more.
pub(crate) fn touches_with(
    sig: &Sig,
    judgments: &[Judgment],
    rules: &[RuleScheme],
    more: &RuleScheme,
    rows: &[Items<bool>],
    context: CatId,
    judgment: JudgId,
) -> bool
    ensures { IsTrue result ↔ TouchesWith (record { sig = sig.now; judgments = judgments.now; rules = map plain_rule rules.now })
        (plain_rule more.now) rows.now context.0 judgment.0 }
{
    judgment_touches(sig, judgments, rules, rows, context, judgment)
        || (is_below(rows, judgment, more.conclusion.judgment)
            && rule_touches(sig, rules, more, rows, context))
}
