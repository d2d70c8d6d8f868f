// Which premises may not stand in a rule about contexts.
ghost use Rattle.std.specs.Prelude.{◌↔◌, ◌<◌, IsTrue, IfSome, IfNone, length, map};
ghost use Rattle.rule_schemes.specs.Refused.{IsFirstMisplaced, with_rule};
ghost use Rattle.rule_schemes.specs.Rules.{MayStand, NeedsNoContext};
ghost use Rattle.rule_schemes.specs.Touching.{AreKept, HasJudgments};
ghost use Rattle.rule_schemes.specs.View.{rule as plain_rule};

use crate::rule::{JudgId, Judgment, RuleScheme};
use crate::touching::touches_with;
use binding_terms::Sig;
use scheme_terms::Root;
use sqlite_items::Items;

/// Whether the form of a judgment may stand in the rule, which is put to the others.
fn may_stand_with(
    sig: &Sig,
    judgments: &[Judgment],
    rules: &[RuleScheme],
    more: &RuleScheme,
    rows: &[Items<bool>],
    form: Root,
    judgment: JudgId,
) -> bool
    requires kept { AreKept (record { sig = sig.now; judgments = judgments.now; rules = map plain_rule rules.now }) rows.now }
    requires rule { HasJudgments (length judgments.now) (plain_rule more.now) }
    requires judgment { judgment.0 < length judgments.now }
    ensures { IsTrue result ↔ MayStand (with_rule (record { sig = sig.now; judgments = judgments.now; rules = map plain_rule rules.now }) (plain_rule more.now))
        more.now.conclusion.ctx.root form judgment.0 }
{
    match more.conclusion.ctx.root {
        Root::Whole(context) => match form {
            Root::Closed => !touches_with(sig, judgments, rules, more, rows, context, judgment),
            _ => true,
        },
        _ => true,
    }
}

/// The judgment of the first premise that may not stand in the rule, which is put to the others.
pub(crate) fn first_misplaced(
    sig: &Sig,
    judgments: &[Judgment],
    rules: &[RuleScheme],
    more: &RuleScheme,
    rows: &[Items<bool>],
) -> Option<JudgId>
    requires kept { AreKept (record { sig = sig.now; judgments = judgments.now; rules = map plain_rule rules.now }) rows.now }
    requires rule { HasJudgments (length judgments.now) (plain_rule more.now) }
    ensures some { IfSome result (λ j. IsFirstMisplaced (with_rule (record { sig = sig.now; judgments = judgments.now; rules = map plain_rule rules.now }) (plain_rule more.now))
        (plain_rule more.now) (plain_rule more.now).premises j.0) }
    ensures none { IfNone result (NeedsNoContext (with_rule (record { sig = sig.now; judgments = judgments.now; rules = map plain_rule rules.now }) (plain_rule more.now))
        (plain_rule more.now)) }
{
    for premise in more.premises.as_slice() {
        if !may_stand_with(
            sig,
            judgments,
            rules,
            more,
            rows,
            premise.ctx.root,
            premise.judgment,
        ) {
            return Some(premise.judgment);
        }
    }
    None
}
