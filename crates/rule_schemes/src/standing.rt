// Which judgments without a context may stand under a root, by the rules that are there.
ghost use Rattle.std.specs.Prelude.{◌↔◌, ◌<◌, ◌≤◌, ◌^◌, ℕ, IsTrue, IfSome, IfNone, length, map};
ghost use Rattle.std.specs.List.{AllByRecursion};
ghost use Rattle.rule_schemes.specs.Rules.{MayStand, NeedsNoContext};
ghost use Rattle.rule_schemes.specs.Open.{IsFirstOpen};
ghost use Rattle.rule_schemes.specs.Touching.{AreKept, HasJudgments};
ghost use Rattle.rule_schemes.specs.View.{rule as plain_rule};

use crate::rule::{JudgId, Judgment, RuleId, RuleScheme};
use crate::touching::judgment_touches;
use binding_terms::Sig;
use scheme_terms::Root;
use sqlite_items::Items;

/// Whether the form of a judgment may stand under the root.
pub(crate) fn may_stand(
    sig: &Sig,
    judgments: &[Judgment],
    rules: &[RuleScheme],
    rows: &[Items<bool>],
    root: Root,
    form: Root,
    judgment: JudgId,
) -> bool
    requires kept { AreKept (record { sig = sig.now; judgments = judgments.now; rules = map plain_rule rules.now }) rows.now }
    requires judgment { judgment.0 < length judgments.now }
    ensures { IsTrue result ↔ MayStand (record { sig = sig.now; judgments = judgments.now; rules = map plain_rule rules.now }) root form judgment.0 }
{
    match root {
        Root::Whole(context) => match form {
            Root::Closed => !judgment_touches(sig, judgments, rules, rows, context, judgment),
            _ => true,
        },
        _ => true,
    }
}

/// Whether each premise without a context may stand in the rule.
pub(crate) fn needs_no_context(
    sig: &Sig,
    judgments: &[Judgment],
    rules: &[RuleScheme],
    rows: &[Items<bool>],
    rule: &RuleScheme,
) -> bool
    requires kept { AreKept (record { sig = sig.now; judgments = judgments.now; rules = map plain_rule rules.now }) rows.now }
    requires rule { HasJudgments (length judgments.now) (plain_rule rule.now) }
    ensures { IsTrue result ↔ NeedsNoContext (record { sig = sig.now; judgments = judgments.now; rules = map plain_rule rules.now }) (plain_rule rule.now) }
{
    for premise in rule.premises.as_slice() {
        if !may_stand(
            sig,
            judgments,
            rules,
            rows,
            rule.conclusion.ctx.root,
            premise.ctx.root,
            premise.judgment,
        ) {
            return false;
        }
    }
    true
}

/// The first rule in which a premise without a context may not stand, by all rules that are there.
pub(crate) fn first_open(
    sig: &Sig,
    judgments: &[Judgment],
    rules: &[RuleScheme],
    rows: &[Items<bool>],
) -> Option<RuleId>
    requires kept { AreKept (record { sig = sig.now; judgments = judgments.now; rules = map plain_rule rules.now }) rows.now }
    requires count { length rules.now ≤ 2 ^ 32 }
    ensures some { IfSome result (λ id. IsFirstOpen (record { sig = sig.now; judgments = judgments.now; rules = map plain_rule rules.now })
        0 (map plain_rule rules.now) id.0) }
    ensures none { IfNone result (AllByRecursion (NeedsNoContext (record { sig = sig.now; judgments = judgments.now; rules = map plain_rule rules.now }))
        (map plain_rule rules.now)) }
{
    for i in 0..rules.len() {
        if !needs_no_context(sig, judgments, rules, rows, &rules[i]) {
            return Some(RuleId(i as u32));
        }
    }
    None
}
