// Whether a form can be one of a step.
ghost use Rattle.std.specs.Prelude.{◌↔◌, IsTrue, IfOk, map};
ghost use Rattle.std.specs.List.{AllByRecursion};
ghost use Rattle.scheme_terms.specs.SchemeScope.{StandsWith};
ghost use Rattle.scheme_terms.specs.View.{names};
ghost use Rattle.rule_schemes.specs.View.{theory, judgment_scheme};
ghost use Rattle.proof_trees.specs.Right.{IsForm};

use binding_terms::NoMemory;
use rule_schemes::{ENTRIES, JScheme, System, entries_are_limited};
use scheme_terms::{Root, Scope};
use std::alloc::Global;

/// Whether a form of the second root can stand in a scope of the first.
fn stands_with(scope: Root, form: Root) -> bool
    ensures { IsTrue result ↔ StandsWith scope form }
{
    match (scope, form) {
        (_, Root::Closed) => true,
        (Root::Closed, Root::Empty(_)) => true,
        (Root::Whole(c), Root::Whole(d)) => c.0 == d.0,
        (Root::Empty(c), Root::Empty(d)) => c.0 == d.0,
        _ => false,
    }
}

/// Whether the form is one of a judgment over the scope and with its root, with no more explicit entries than the limit.
pub fn is_form(
    alloc: Global,
    system: &System,
    scope: &Scope,
    form: &JScheme,
) -> Result<bool, NoMemory>
    ensures { IfOk result (λ is. IsTrue is ↔ IsForm (theory system.now) (names scope.now) (judgment_scheme form.now)) }
{
    entries_are_limited();
    if !stands_with(scope.root, form.ctx.root) || form.ctx.entries.len() > ENTRIES {
        return Ok(false);
    }
    form_scopes::is_form(alloc, system, scope, form)
}

/// Whether each form is one.
pub fn are_forms(
    alloc: Global,
    system: &System,
    scope: &Scope,
    forms: &[JScheme],
) -> Result<bool, NoMemory>
    ensures { IfOk result (λ are. IsTrue are
        ↔ AllByRecursion (IsForm (theory system.now) (names scope.now)) (map judgment_scheme forms.now)) }
{
    for form in forms {
        if !is_form(alloc, system, scope, form)? {
            return Ok(false);
        }
    }
    Ok(true)
}
