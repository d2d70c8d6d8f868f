ghost use Rattle.std.specs.Prelude.{◌≡◌, ◌↔◌, IsTrue, map, reverse, option_map, slice_get, length, ◌<◌};
ghost use Rattle.binding_terms.specs.View.{tree, arg_tree, args_tree};
ghost use Rattle.binding_terms.specs.Signature.{slots, binders};
ghost use Rattle.binding_terms.specs.Scope.{bound, IsTerm, IsPart, AreParts};
ghost use Rattle.binding_terms.specs.Frames.{scope_of};

use crate::grammar::{CatId, Item, Prod, Sig, binder_at};
use crate::term::{Arg, Term};

/// A scope, and what a slot adds to it, without memory of its own.
#[derive(Drop)]
enum Frames<'a> {
    Outer(&'a [CatId]),
    Under {
        items: &'a [Item],
        binds: &'a [u32],
        outer: &'a Frames<'a>,
    },
}

fn from_end(cats: &[CatId], index: usize) -> Option<CatId>
    ensures { option_map (λ c. c.0) result ≡ slice_get (reverse (map (λ c. c.0) cats.now)) index }
{
    if index < cats.len() {
        Some(cats[cats.len() - 1 - index])
    } else {
        None
    }
}

fn bound_at(items: &[Item], binds: &[u32], index: usize) -> CatId
    requires { index < length binds.now }
    ensures { slice_get (bound (binders items.now) binds.now) index ≡ Some (result.0) }
{
    binder_at(items, binds[binds.len() - 1 - index])
}

/// The category of a variable.
#[tactic(auto, using(crate::proofs::Frames::beyond))]
fn category_of(scope: &Frames<'_>, index: usize) -> Option<CatId>
    ensures { option_map (λ c. c.0) result ≡ slice_get (scope_of scope.now) index }
{
    match scope {
        Frames::Outer(cats) => from_end(cats, index),
        Frames::Under {
            items,
            binds,
            outer,
        } => {
            if index < binds.len() {
                Some(bound_at(items, binds, index))
            } else {
                category_of(outer, index - binds.len())
            }
        }
    }
}

/// Whether `t` is a term of the category in the scope, whose innermost variable stands last.
pub fn in_scope(sig: &Sig, scope: &[CatId], cat: CatId, t: &Term) -> bool
    ensures { IsTrue result ↔ IsTerm sig.now (reverse (map (λ c. c.0) scope.now)) cat.0 (tree t.now) }
{
    is_term(sig, &Frames::Outer(scope), cat, t)
}

#[cycle(in_scope)]
fn is_term(sig: &Sig, scope: &Frames<'_>, cat: CatId, t: &Term) -> bool
    ensures { IsTrue result ↔ IsTerm sig.now (scope_of scope.now) cat.0 (tree t.now) }
{
    match t {
        Term::Var(i) => match category_of(scope, *i) {
            Some(c) => c.0 == cat.0,
            None => false,
        },
        Term::Con(p, args) => match sig.prod(*p) {
            Some(prod) => prod.cat.0 == cat.0
                && are_parts(sig, scope, prod.items.as_slice(), args.items.as_slice()),
            None => false,
        },
    }
}

#[cycle(in_scope)]
fn are_parts(sig: &Sig, scope: &Frames<'_>, items: &[Item], args: &[Arg]) -> bool
    ensures { IsTrue result ↔ AreParts sig.now (scope_of scope.now) (binders items.now) (slots items.now) (args_tree args.now) }
{
    let mut next = 0;
    for item in items {
        if let Item::Slot { cat, binds } = item {
            if next >= args.len() {
                return false;
            }
            let arg = &args[next];
            if !is_part(sig, scope, items, *cat, binds.as_slice(), arg) {
                return false;
            }
            next += 1;
        }
    }
    next == args.len()
}

#[cycle(in_scope)]
fn is_part(
    sig: &Sig,
    scope: &Frames<'_>,
    items: &[Item],
    cat: CatId,
    binds: &[u32],
    arg: &Arg,
) -> bool
    ensures { IsTrue result ↔ IsPart sig.now (scope_of scope.now) (binders items.now) (record { cat = cat.0; binds = binds.now }) (arg_tree arg.now) }
{
    let inner = Frames::Under {
        items: &*items,
        binds: &*binds,
        outer: &*scope,
    };
    arg.binds == binds.len() && is_term(sig, &inner, cat, &arg.body)
}
