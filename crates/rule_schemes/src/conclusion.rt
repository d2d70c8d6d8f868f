// What is asked of the conclusion of a rule.
ghost use Rattle.std.specs.Prelude.{◌≡◌, ◌↔◌, ◌∷◌, [], IsTrue, MatchOption};
ghost use Rattle.scheme_terms.specs.View.{scheme_context};
ghost use Rattle.rule_schemes.specs.Rules.{IsBare, HasGoodConclusion, assumed_by};
ghost use Rattle.rule_schemes.specs.View.{rule as plain_rule};

use crate::free::has_variable_once;
use crate::rule::RuleScheme;
use crate::strict::is_assumption;
use binding_terms::ProdId;
use scheme_terms::{Root, SCtx};

/// Whether the context is the bare name of a category, or none.
fn is_bare(ctx: &SCtx) -> bool
    ensures { IsTrue result ↔ IsBare (scheme_context ctx.now) }
{
    match ctx.root {
        Root::Closed | Root::Whole(_) => ctx.entries.len() == 0,
        Root::Empty(_) => false,
    }
}

/// Whether the conclusion is that of an ordinary rule or of an assumption rule.
pub fn has_good_conclusion(r: &RuleScheme) -> bool
    ensures { IsTrue result ↔ HasGoodConclusion (plain_rule r.now) }
{
    if is_bare(&r.conclusion.ctx) {
        return true;
    }
    is_assumption(r) && r.premises.len() == 0 && has_variable_once(r.conclusion.args.as_slice())
}

/// The production of which the rule is the assumption rule, if it is one.
pub fn assumed_production(r: &RuleScheme) -> Option<ProdId>
    ensures { MatchOption result
        (assumed_by (plain_rule r.now).conclusion.context.root (plain_rule r.now).conclusion.context.entries ≡ [])
        (λ p. assumed_by (plain_rule r.now).conclusion.context.root (plain_rule r.now).conclusion.context.entries ≡ p.0 ∷ []) }
{
    match r.conclusion.ctx.root {
        Root::Whole(_) => match r.conclusion.ctx.entries.as_slice() {
            [entry] => Some(entry.prod),
            _ => None,
        },
        _ => None,
    }
}
