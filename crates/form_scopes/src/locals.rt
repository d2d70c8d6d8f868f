// The locals of a scheme.
ghost use Rattle.std.specs.Prelude.{◌≡◌, map, reverse, option_map, slice_get, length, ◌<◌, Some};
ghost use Rattle.binding_terms.specs.Signature.{binders};
ghost use Rattle.binding_terms.specs.Scope.{bound};
ghost use Rattle.form_scopes.specs.Locals.{categories};

use binding_terms::{CatId, Item, binder_at};

/// The categories of locals, the last innermost, and what a slot adds to them, without memory of its own.
#[derive(Drop)]
pub(crate) enum Locals<'a> {
    Outer(&'a [CatId]),
    Under {
        items: &'a [Item],
        binds: &'a [u32],
        outer: &'a Locals<'a>,
    },
}

fn from_end(cats: &[CatId], index: usize) -> Option<CatId>
    ensures { option_map (λ c. c.0) result ≡ slice_get (reverse (map (λ c. c.0) cats.now)) index }
{
    if index < cats.len() {
        Some(cats[cats.len() - 1 - index])
    } else {
        None
    }
}

fn bound_at(items: &[Item], binds: &[u32], index: usize) -> CatId
    requires { index < length binds.now }
    ensures { slice_get (bound (binders items.now) binds.now) index ≡ Some (result.0) }
{
    binder_at(items, binds[binds.len() - 1 - index])
}

/// The category of a local, by its index from the innermost.
pub(crate) fn category_of(locals: &Locals<'_>, index: usize) -> Option<CatId>
    ensures { option_map (λ c. c.0) result ≡ slice_get (categories locals.now) index }
{
    match locals {
        Locals::Outer(cats) => from_end(cats, index),
        Locals::Under {
            items,
            binds,
            outer,
        } => {
            if index < binds.len() {
                Some(bound_at(items, binds, index))
            } else {
                category_of(outer, index - binds.len())
            }
        }
    }
}
