// The assumption rules of a system.
ghost use Rattle.std.specs.Prelude.{◌↔◌, ◌∷◌, ◌<◌, ◌^◌, [], IsTrue, length, map, slice_get, MatchOption};
ghost use Rattle.std.specs.List.{AllByRecursion};
ghost use Rattle.rule_schemes.specs.Refused.{AssumeAlike};
ghost use Rattle.rule_schemes.specs.View.{rule as plain_rule};

use crate::conclusion::assumed_production;
use crate::rule::{RuleId, RuleScheme};

/// Whether both are assumption rules of one production.
fn assume_alike(r: &RuleScheme, s: &RuleScheme) -> bool
    ensures { IsTrue result ↔ AssumeAlike (plain_rule r.now) (plain_rule s.now) }
{
    match (assumed_production(r), assumed_production(s)) {
        (Some(p), Some(q)) => p.0 == q.0,
        _ => false,
    }
}

/// The first of the rules that is an assumption rule of the same production as the other.
pub fn first_alike(rules: &[RuleScheme], r: &RuleScheme) -> Option<RuleId>
    requires { length rules.now < 2 ^ 32 }
    ensures { MatchOption result (AllByRecursion (λ s. AssumeAlike s (plain_rule r.now) → ⊥) (map plain_rule rules.now))
        (λ id. MatchOption (slice_get (map plain_rule rules.now) id.0) ⊥ (λ s. AssumeAlike s (plain_rule r.now))) }
{
    for i in 0..rules.len() {
        if assume_alike(&rules[i], r) {
            return Some(RuleId(i as u32));
        }
    }
    None
}
