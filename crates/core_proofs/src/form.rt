// Whether a form is one of a judgment over a scope.
ghost use Rattle.std.specs.Prelude.{◌≡◌, ◌↔◌, IsTrue, [], map};
ghost use Rattle.std.specs.List.{AllByRecursion};
ghost use Rattle.binding_terms.specs.Signature.{slots, binders};
ghost use Rattle.scheme_terms.specs.View.{names, scheme, scheme_part, scheme_parts, scheme_entry};
ghost use Rattle.scheme_terms.specs.SchemeScope.{IsScheme, AreSchemeParts, AreSchemes};
ghost use Rattle.pattern_unify.specs.Plain.{NothingBinds};
ghost use Rattle.rule_schemes.specs.Plain.{IsPlainTheory};
ghost use Rattle.rule_schemes.specs.Rules.{IsJudgmentScheme};
ghost use Rattle.rule_schemes.specs.View.{theory, judgment_scheme};
ghost use Rattle.core_proofs.specs.Plain.{IsPlainScope};

use binding_terms::{CatId, Item, Sig};
use rule_schemes::{JScheme, System};
use scheme_terms::{Root, SArg, SCtx, Scheme, Scope};
use sqlite_items::at;

/// Whether the scheme is one of the category in the scope. Nothing binds.
#[cycle(is_scheme)]
fn is_scheme(sig: &Sig, scope: &Scope, cat: CatId, s: &Scheme) -> bool
    requires slots { NothingBinds sig.now }
    requires scope { IsPlainScope (names scope.now) }
    ensures { IsTrue result ↔ IsScheme sig.now (names scope.now) [] cat.0 (scheme s.now) }
{
    match s {
        Scheme::Meta(m, args) => {
            match at(scope.metas.as_slice(), m.0 as usize) {
                Some(decl) => decl.cat.0 == cat.0 && args.len() == 0,
                None => false,
            }
        }
        Scheme::Known(_) | Scheme::Local(_) => false,
        Scheme::Con(p, parts) => match sig.prod(*p) {
            Some(prod) => prod.cat.0 == cat.0
                && are_parts(sig, scope, prod.items.as_slice(), parts.as_slice()),
            None => false,
        },
    }
}

#[cycle(is_scheme)]
fn are_parts(sig: &Sig, scope: &Scope, items: &[Item], parts: &[SArg]) -> bool
    requires slots { NothingBinds sig.now }
    requires scope { IsPlainScope (names scope.now) }
    requires binds { AllByRecursion (λ s. s.binds ≡ []) (slots items.now) }
    ensures { IsTrue result ↔ AreSchemeParts sig.now (names scope.now) [] (binders items.now) (slots items.now) (scheme_parts parts.now) }
{
    let mut next = 0;
    for item in items {
        if let Item::Slot { cat, binds: _ } = item {
            if next >= parts.len() {
                return false;
            }
            if !is_part(sig, scope, *cat, &parts[next]) {
                return false;
            }
            next += 1;
        }
    }
    next == parts.len()
}

/// Whether the part is one of a slot that binds nothing.
#[cycle(is_scheme)]
fn is_part(sig: &Sig, scope: &Scope, cat: CatId, part: &SArg) -> bool
    requires slots { NothingBinds sig.now }
    requires scope { IsPlainScope (names scope.now) }
    ensures { IsTrue result ↔ (((scheme_part part.now).0 ≡ 0) × IsScheme sig.now (names scope.now) [] cat.0 (scheme_part part.now).1) }
{
    part.binds == 0 && is_scheme(sig, scope, cat, &part.body)
}

/// Whether there is a scheme for each slot.
fn are_arguments(sig: &Sig, scope: &Scope, items: &[Item], args: &[Scheme]) -> bool
    requires slots { NothingBinds sig.now }
    requires scope { IsPlainScope (names scope.now) }
    ensures { IsTrue result ↔ AreSchemes sig.now (names scope.now) [] (slots items.now) (map scheme args.now) }
{
    let mut next = 0;
    for item in items {
        if let Item::Slot { cat, binds: _ } = item {
            if next >= args.len() {
                return false;
            }
            if !is_scheme(sig, scope, *cat, &args[next]) {
                return false;
            }
            next += 1;
        }
    }
    next == args.len()
}

fn is_closed(ctx: &SCtx) -> bool
    ensures { IsTrue result ↔ ((ctx.now.root ≡ Root.Closed) × (map scheme_entry ctx.now.entries ≡ [])) }
{
    match ctx.root {
        Root::Closed => ctx.entries.len() == 0,
        _ => false,
    }
}

/// Whether the form is one of a judgment of the system, over the scope. Nothing binds, and there is no context.
pub fn is_form(system: &System, scope: &Scope, form: &JScheme) -> bool
    requires theory { IsPlainTheory (theory system.now) }
    requires scope { IsPlainScope (names scope.now) }
    ensures { IsTrue result ↔ IsJudgmentScheme (theory system.now) (names scope.now) (judgment_scheme form.now) }
{
    system.always_system();
    let judgments = system.judgments();
    match at(judgments.as_slice(), form.judgment.0 as usize) {
        Some(judgment) => is_closed(&form.ctx)
            && are_arguments(
                system.sig(),
                scope,
                judgment.items.as_slice(),
                form.args.as_slice(),
            ),
        None => false,
    }
}
