//! The steps of the moves, as substitutions of the present names.
ghost use Rattle.std.specs.Prelude.{◌≡◌, ◌++◌, ◌∷◌, [], IfOk, map, if◌then◌else◌};
ghost use Rattle.scheme_terms.specs.SchemeTree.{local, values, AreDistinctLocals};
ghost use Rattle.scheme_terms.specs.Substituting.{parameters, LocalsBelow};
ghost use Rattle.scheme_terms.specs.View.{scheme, names, substitution};
ghost use Rattle.pattern_unify.specs.Patterns.{marked, over_parameters};
ghost use Rattle.pattern_unify.specs.State.{substitution_of, becomes, becomes_new, joins_to, decl_with};

use crate::state::{knowns_but, metas_but, step_of};
use binding_terms::{CatId, NoMemory, Text, number};
use scheme_terms::{
    MetaDecl, MetaId, Scheme, Scope, Subst, identity_of, lower_scheme, make_parameters,
};
use sqlite_items::Items;
use std::alloc::Global;

fn push_cat(all: &mut Items<CatId>, keep: bool, cat: CatId) -> Result<(), NoMemory>
    ensures { IfOk result (λ _. all.new ≡ all.old ++ (if keep then cat ∷ [] else [])) }
{
    if keep {
        all.push(cat)?;
    }
    Ok(())
}

fn push_local(all: &mut Items<Scheme>, keep: bool, index: usize) -> Result<(), NoMemory>
    ensures { IfOk result (λ _. map scheme all.new ≡ map scheme all.old ++ (if keep then local index ∷ [] else [])) }
{
    if keep {
        all.push(Scheme::Local(index))?;
    }
    Ok(())
}

/// The marked ones of the parameters' categories.
fn marked_cats(alloc: Global, keeps: &[bool], params: &[CatId]) -> Result<Items<CatId>, NoMemory>
    ensures { IfOk result (λ all. all ≡ marked keeps.now params.now) }
{
    let mut all = Items::new(alloc);
    for i in 0..keeps.len() {
        if i >= params.len() {
            return Ok(all);
        }
        push_cat(&mut all, keeps[i], params[i])?;
    }
    Ok(all)
}

/// The marked ones of so many parameters, as locals.
fn marked_parameters(alloc: Global, keeps: &[bool], count: usize) -> Result<Items<Scheme>, NoMemory>
    ensures { IfOk result (λ all. map scheme all ≡ marked keeps.now (parameters count)) }
{
    let mut all = Items::new(alloc);
    let mut left = count;
    for i in 0..keeps.len() {
        if left == 0 {
            return Ok(all);
        }
        left -= 1;
        push_local(&mut all, keeps[i], left)?;
    }
    Ok(all)
}

/// The declaration with the marked ones of its parameters alone.
fn decl_with(alloc: Global, keeps: &[bool], decl: &MetaDecl) -> Result<MetaDecl, NoMemory>
    ensures { IfOk result (λ new. new ≡ decl_with keeps.now decl.now) }
{
    let mut name = Text::new(alloc);
    name.push(decl.name.bytes())?;
    Ok(MetaDecl {
        name,
        cat: decl.cat,
        params: marked_cats(alloc, keeps, decl.params.as_slice())?,
    })
}

/// The scheme over the parameters of a metavariable that gives it on these arguments.
fn over_parameters(
    alloc: Global,
    args: &[Scheme],
    locals: usize,
    s: &Scheme,
) -> Result<Scheme, NoMemory>
    requires distinct { AreDistinctLocals (values (map scheme args.now)) }
    requires below { LocalsBelow locals (scheme s.now) }
    ensures { IfOk result (λ new. scheme new ≡ over_parameters (values (map scheme args.now)) (scheme s.now)) }
{
    let new = lower_scheme(alloc, args, locals, s)?;
    Ok(new)
}

/// The metavariable becomes the scheme.
pub(crate) fn bind_step(
    alloc: Global,
    scope: &Scope,
    m: MetaId,
    args: &[Scheme],
    locals: usize,
    s: &Scheme,
) -> Result<Subst, NoMemory>
    requires distinct { AreDistinctLocals (values (map scheme args.now)) }
    requires below { LocalsBelow locals (scheme s.now) }
    ensures { IfOk result (λ by. substitution by ≡ substitution_of (names scope.now) (becomes m.0 (over_parameters (values (map scheme args.now)) (scheme s.now)) (names scope.now))) }
{
    let value = over_parameters(alloc, args, locals, s)?;
    let metas = metas_but(alloc, m, &value, scope.metas.as_slice())?;
    let same = identity_of(alloc, scope)?;
    step_of(alloc, scope, metas, same.knowns, None)
}

/// The metavariable becomes a new one with the marked parameters.
pub(crate) fn new_step(
    alloc: Global,
    scope: &Scope,
    m: MetaId,
    decl: &MetaDecl,
    keeps: &[bool],
) -> Result<Subst, NoMemory>
    ensures { IfOk result (λ by. substitution by ≡ substitution_of (names scope.now) (becomes_new m.0 decl.now keeps.now (names scope.now))) }
{
    let fresh = number(scope.metas.as_slice().len())?;
    let args = marked_parameters(alloc, keeps, decl.params.as_slice().len())?;
    let value = Scheme::Meta(MetaId(fresh), args);
    let metas = metas_but(alloc, m, &value, scope.metas.as_slice())?;
    let same = identity_of(alloc, scope)?;
    let made = decl_with(alloc, keeps, decl)?;
    step_of(alloc, scope, metas, same.knowns, Some(made))
}

/// The known variable becomes the other.
pub(crate) fn join_step(
    alloc: Global,
    scope: &Scope,
    gone: u32,
    kept: u32,
) -> Result<Subst, NoMemory>
    ensures { IfOk result (λ by. substitution by ≡ substitution_of (names scope.now) (joins_to gone kept (names scope.now))) }
{
    let same = identity_of(alloc, scope)?;
    let knowns = knowns_but(alloc, gone, kept, scope.knowns.as_slice())?;
    step_of(alloc, scope, same.metas, knowns, None)
}
