ghost use Rattle.std.specs.Prelude.{◌↔◌, ◌<◌, ◌^◌, IsTrue, map, length, IfSome, IfNone};
ghost use Rattle.binding_terms.specs.Numbered.{AnyByRecursion};
ghost use Rattle.scheme_terms.specs.SchemeTree.{StrictIn};
ghost use Rattle.scheme_terms.specs.View.{scheme, scheme_entry};
ghost use Rattle.rule_schemes.specs.View.{judgment_scheme, rule as plain_rule};
ghost use Rattle.rule_schemes.specs.Rules.{StrictInEntries, StrictInJudgment, IsAssumption, StrictInRule};
ghost use Rattle.rule_schemes.specs.Refused.{IsFirstUnstrict, AllStrict};

use crate::rule::{JScheme, RuleScheme};
use scheme_terms::{MetaId, Root, SEntry, Scheme, strict_in};

/// Whether the metavariable has a strict occurrence in one of the schemes.
pub fn strict_in_any(m: MetaId, schemes: &[Scheme]) -> bool
    ensures { IsTrue result ↔ AnyByRecursion (StrictIn m.0) (map scheme schemes.now) }
{
    for s in schemes {
        if strict_in(m, s) {
            return true;
        }
    }
    false
}

/// Whether it has one in an argument of one of the entries.
pub fn strict_in_entries(m: MetaId, entries: &[SEntry]) -> bool
    ensures { IsTrue result ↔ StrictInEntries m.0 (map scheme_entry entries.now) }
{
    for entry in entries {
        if strict_in_any(m, entry.args.as_slice()) {
            return true;
        }
    }
    false
}

/// Whether it has one in the explicit entries of the judgment or in its arguments.
pub fn strict_in_judgment(m: MetaId, j: &JScheme) -> bool
    ensures { IsTrue result ↔ StrictInJudgment m.0 (judgment_scheme j.now) }
{
    strict_in_entries(m, j.ctx.entries.as_slice()) || strict_in_any(m, j.args.as_slice())
}

pub(crate) fn strict_in_judgments(m: MetaId, js: &[JScheme]) -> bool
    ensures { IsTrue result ↔ AnyByRecursion (StrictInJudgment m.0) (map judgment_scheme js.now) }
{
    for j in js {
        if strict_in_judgment(m, j) {
            return true;
        }
    }
    false
}

/// Whether the rule gives its judgment for a variable of the context.
pub(crate) fn is_assumption(r: &RuleScheme) -> bool
    ensures { IsTrue result ↔ IsAssumption (plain_rule r.now) }
{
    match &r.conclusion.ctx.root {
        Root::Whole(_) => r.conclusion.ctx.entries.len() == 1,
        _ => false,
    }
}

fn strict_in_rule(m: MetaId, r: &RuleScheme) -> bool
    ensures { IsTrue result ↔ StrictInRule (plain_rule r.now) m.0 }
{
    if is_assumption(r) {
        return strict_in_entries(m, r.conclusion.ctx.entries.as_slice());
    }
    strict_in_judgments(m, r.premises.as_slice()) || strict_in_judgment(m, &r.conclusion)
}

/// The first metavariable of the rule that has no strict occurrence.
pub(crate) fn first_unstrict(r: &RuleScheme) -> Option<MetaId>
    requires { length r.now.metas < 2 ^ 32 }
    ensures some { IfSome result (λ m. IsFirstUnstrict (plain_rule r.now) 0 r.now.metas m.0) }
    ensures none { IfNone result (AllStrict (plain_rule r.now)) }
{
    for i in 0..r.metas.len() {
        let m = MetaId(i as u32);
        if !strict_in_rule(m, r) {
            return Some(m);
        }
    }
    None
}
