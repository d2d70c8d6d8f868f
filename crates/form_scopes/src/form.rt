// Whether a form is one of a judgment over a scope.
ghost use Rattle.std.specs.Prelude.{◌≡◌, ◌↔◌, [], IsTrue, IfOk, List, map, reverse};
ghost use Rattle.binding_terms.specs.Signature.{Place, slots};
ghost use Rattle.scheme_terms.specs.SchemeScope.{AreSchemes, AreExplicitEntries, IsSchemeContext, entry_variables};
ghost use Rattle.scheme_terms.specs.View.{names, scheme, scheme_context, scheme_entry};
ghost use Rattle.rule_schemes.specs.Rules.{IsJudgmentScheme, IsRootOf, argument_slots};
ghost use Rattle.form_scopes.specs.Kept.{kept_slots};
ghost use Rattle.rule_schemes.specs.View.{theory, judgment_scheme};

use crate::arguments::{Skip, are_arguments};
use crate::entries::are_entries;
use binding_terms::{CatId, NoMemory, Sig};
use rule_schemes::{JScheme, Judgment, System};
use scheme_terms::{Root, SCtx, Scope};
use sqlite_items::at;
use std::alloc::Global;

/// Whether the root of a form is that of a context which its judgment assumes.
fn is_root_of(assumed: Option<CatId>, root: Root) -> bool
    ensures { IsTrue result ↔ IsRootOf assumed root }
{
    match (assumed, root) {
        (None, Root::Closed) => true,
        (Some(c), Root::Empty(d)) => d.0 == c.0,
        (Some(c), Root::Whole(d)) => d.0 == c.0,
        _ => false,
    }
}

/// Whether the explicit entries are over the scope. The categories of their variables are put at the end, where they are.
fn is_context(
    sig: &Sig,
    scope: &Scope,
    ctx: &SCtx,
    locals: &mut Vec<CatId>,
) -> Result<bool, NoMemory>
    requires { locals.old.items ≡ [] }
    ensures are { IfOk result (λ is. IsTrue is ↔ IsSchemeContext sig.now (names scope.now) (scheme_context ctx.now)) }
    ensures locals { IfOk result (λ is. IsTrue is → reverse (map (λ c. c.0) locals.new.items)
        ≡ entry_variables sig.now [] (map scheme_entry ctx.now.entries)) }
{
    let entries = ctx.entries.as_slice();
    match ctx.root {
        Root::Closed => Ok(entries.len() == 0),
        Root::Empty(cat) => are_entries(sig, scope, cat, entries, locals),
        Root::Whole(cat) => are_entries(sig, scope, cat, entries, locals),
    }
}

/// The slot of a judgment's form that is its context.
fn context_slot(assumed: Option<CatId>) -> Skip
    ensures { (places : List Place) → kept_slots result places ≡ argument_slots assumed places }
{
    match assumed {
        Some(cat) => Skip::Of(cat),
        None => Skip::Nothing,
    }
}

/// Whether the form is one of this judgment.
fn is_of_judgment(
    alloc: Global,
    sig: &Sig,
    scope: &Scope,
    judgment: &Judgment,
    form: &JScheme,
) -> Result<bool, NoMemory>
    ensures { IfOk result (λ is. IsTrue is ↔ (IsRootOf judgment.now.ctx form.now.ctx.root
        × IsSchemeContext sig.now (names scope.now) (scheme_context form.now.ctx)
        × AreSchemes sig.now (names scope.now) (entry_variables sig.now [] (map scheme_entry form.now.ctx.entries))
        (argument_slots judgment.now.ctx (slots judgment.now.items)) (map scheme form.now.args))) }
{
    if !is_root_of(judgment.ctx, form.ctx.root) {
        return Ok(false);
    }
    let mut locals = Vec::new(alloc);
    if !is_context(sig, scope, &form.ctx, &mut locals)? {
        return Ok(false);
    }
    let skip = context_slot(judgment.ctx);
    let items = judgment.items.as_slice();
    let are = are_arguments(
        sig,
        scope,
        locals.as_slice(),
        skip,
        items,
        form.args.as_slice(),
    );
    Ok(are)
}

/// Whether the form is one of a judgment of the system, over the scope. `NoMemory` only where memory is not to be had.
pub fn is_form(
    alloc: Global,
    system: &System,
    scope: &Scope,
    form: &JScheme,
) -> Result<bool, NoMemory>
    ensures { IfOk result (λ is. IsTrue is ↔ IsJudgmentScheme (theory system.now) (names scope.now) (judgment_scheme form.now)) }
{
    let judgments = system.judgments();
    match at(judgments.as_slice(), form.judgment.0 as usize) {
        Some(judgment) => is_of_judgment(alloc, system.sig(), scope, judgment, form),
        None => Ok(false),
    }
}
