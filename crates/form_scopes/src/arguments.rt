// Whether there is a scheme for each slot of a form.
ghost use Rattle.std.specs.Prelude.{◌≡◌, ◌↔◌, ◌∷◌, IsTrue, List, map, reverse, if◌then◌else◌};
ghost use Rattle.binding_terms.specs.Signature.{Place, slots};
ghost use Rattle.scheme_terms.specs.SchemeScope.{AreSchemes};
ghost use Rattle.scheme_terms.specs.View.{names, scheme};
ghost use Rattle.form_scopes.specs.Kept.{kept_slots};
ghost use Rattle.form_scopes.specs.declared.arguments.Skip.TheVariants.{Nothing};

use crate::scheme::is_scheme;
use binding_terms::{CatId, Item, Sig};
use scheme_terms::{Scheme, Scope};

/// Which slot has no argument: no further one, the first one, or the first one of a category.
#[derive(Clone, Copy)]
pub(crate) enum Skip {
    Nothing,
    First,
    Of(CatId),
}

/// Whether a slot of the category is the one without an argument.
fn skips(skip: Skip, cat: CatId) -> bool
    ensures { (place : Place) (rest : List Place) → place.cat ≡ cat.0
        → kept_slots skip (place ∷ rest) ≡ (if result then kept_slots Nothing rest else (place ∷ kept_slots skip rest)) }
{
    match skip {
        Skip::Nothing => false,
        Skip::First => true,
        Skip::Of(c) => cat.0 == c.0,
    }
}

/// Whether there is a scheme of the scope for each slot but the one that is left out, under locals of these categories.
pub(crate) fn are_arguments(
    sig: &Sig,
    scope: &Scope,
    locals: &[CatId],
    skip: Skip,
    items: &[Item],
    args: &[Scheme],
) -> bool
    ensures { IsTrue result ↔ AreSchemes sig.now (names scope.now) (reverse (map (λ c. c.0) locals.now)) (kept_slots skip (slots items.now)) (map scheme args.now) }
{
    let mut left = skip;
    let mut next = 0;
    for item in items {
        if let Item::Slot { cat, binds: _ } = item {
            if skips(left, *cat) {
                left = Skip::Nothing;
            } else {
                if next >= args.len() {
                    return false;
                }
                if !is_scheme(sig, scope, locals, *cat, &args[next]) {
                    return false;
                }
                next += 1;
            }
        }
    }
    next == args.len()
}
