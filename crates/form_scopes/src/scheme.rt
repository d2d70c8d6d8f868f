// Whether a scheme is one of a category.
ghost use Rattle.std.specs.Prelude.{◌≡◌, ◌↔◌, ◌∷◌, [], IsTrue, map, reverse};
ghost use Rattle.binding_terms.specs.Signature.{slots, binders};
ghost use Rattle.binding_terms.specs.Scope.{bound};
ghost use Rattle.scheme_terms.specs.Context.{variables};
ghost use Rattle.scheme_terms.specs.SchemeScope.{IsScheme, AreValues, AreSchemeParts};
ghost use Rattle.scheme_terms.specs.SchemeTree.{meta, con, known, values};
ghost use Rattle.scheme_terms.specs.View.{names, scheme, scheme_part, scheme_parts};
ghost use Rattle.std.specs.Prelude.{length, ◌++◌};
ghost use Rattle.form_scopes.specs.Locals.{categories};

use crate::locals::{Locals, category_of};
use binding_terms::{CatId, Item, ProdId, Sig};
use scheme_terms::{MetaId, SArg, Scheme, Scope};
use sqlite_items::at;

fn is_one_binder(items: &[Item], cat: CatId) -> bool
    ensures { IsTrue result ↔ (binders items.now ≡ cat.0 ∷ []) }
{
    let mut found = false;
    for item in items {
        if let Item::Binder(bound) = item {
            if found || bound.0 != cat.0 {
                return false;
            }
            found = true;
        }
    }
    found
}

/// Whether an entry of the production has one variable, of the category.
fn is_variable_of(sig: &Sig, prod: ProdId, cat: CatId) -> bool
    ensures { IsTrue result ↔ (variables sig.now prod.0 ≡ cat.0 ∷ []) }
{
    match sig.prod(prod) {
        Some(prod) => is_one_binder(prod.items.as_slice(), cat),
        None => false,
    }
}

fn is_known(sig: &Sig, scope: &Scope, number: u32, cat: CatId) -> bool
    ensures { IsTrue result ↔ IsScheme sig.now (names scope.now) [] cat.0 (known number) }
{
    match at(scope.knowns.as_slice(), number as usize) {
        Some(decl) => is_variable_of(sig, decl.entry.prod, cat),
        None => false,
    }
}

/// Whether the scheme is one of the category, in the scope under locals of these categories, the last innermost.
pub fn is_scheme(sig: &Sig, scope: &Scope, locals: &[CatId], cat: CatId, s: &Scheme) -> bool
    ensures { IsTrue result ↔ IsScheme sig.now (names scope.now) (reverse (map (λ c. c.0) locals.now)) cat.0 (scheme s.now) }
{
    is_scheme_under(sig, scope, &Locals::Outer(locals), cat, s)
}

#[cycle(is_scheme_under)]
fn is_scheme_under(sig: &Sig, scope: &Scope, locals: &Locals<'_>, cat: CatId, s: &Scheme) -> bool
    ensures { IsTrue result ↔ IsScheme sig.now (names scope.now) (categories locals.now) cat.0 (scheme s.now) }
{
    match s {
        Scheme::Meta(m, args) => match at(scope.metas.as_slice(), m.0 as usize) {
            Some(decl) => decl.cat.0 == cat.0
                && are_values(sig, scope, locals, decl.params.as_slice(), args.as_slice()),
            None => false,
        },
        Scheme::Known(number) => is_known(sig, scope, *number, cat),
        Scheme::Local(index) => match category_of(locals, *index) {
            Some(found) => found.0 == cat.0,
            None => false,
        },
        Scheme::Con(p, parts) => match sig.prod(*p) {
            Some(prod) => prod.cat.0 == cat.0
                && are_parts(sig, scope, locals, prod.items.as_slice(), parts.as_slice()),
            None => false,
        },
    }
}

#[cycle(is_scheme_under)]
fn are_values(
    sig: &Sig,
    scope: &Scope,
    locals: &Locals<'_>,
    params: &[CatId],
    args: &[Scheme],
) -> bool
    ensures { IsTrue result ↔ AreValues sig.now (names scope.now) (categories locals.now) (map (λ p. p.0) params.now) (values (map scheme args.now)) }
{
    let mut next = 0;
    for param in params {
        if next >= args.len() {
            return false;
        }
        if !is_scheme_under(sig, scope, locals, *param, &args[next]) {
            return false;
        }
        next += 1;
    }
    next == args.len()
}

#[cycle(is_scheme_under)]
fn are_parts(sig: &Sig, scope: &Scope, locals: &Locals<'_>, items: &[Item], parts: &[SArg]) -> bool
    ensures { IsTrue result ↔ AreSchemeParts sig.now (names scope.now) (categories locals.now) (binders items.now) (slots items.now) (scheme_parts parts.now) }
{
    let mut next = 0;
    for item in items {
        if let Item::Slot { cat, binds } = item {
            if next >= parts.len() {
                return false;
            }
            let part = &parts[next];
            if !is_part(sig, scope, locals, items, *cat, binds.as_slice(), part) {
                return false;
            }
            next += 1;
        }
    }
    next == parts.len()
}

/// Whether the part is one of a slot, under what the slot binds.
#[cycle(is_scheme_under)]
fn is_part(
    sig: &Sig,
    scope: &Scope,
    locals: &Locals<'_>,
    items: &[Item],
    cat: CatId,
    binds: &[u32],
    part: &SArg,
) -> bool
    ensures { IsTrue result ↔ (((scheme_part part.now).0 ≡ length binds.now)
        × IsScheme sig.now (names scope.now) (bound (binders items.now) binds.now ++ categories locals.now) cat.0 (scheme_part part.now).1) }
{
    let inner = Locals::Under {
        items: &*items,
        binds: &*binds,
        outer: &*locals,
    };
    part.binds == binds.len() && is_scheme_under(sig, scope, &inner, cat, &part.body)
}
