//! What a solved run has found, over the names that are left of it.
ghost use Rattle.std.specs.Prelude.{◌≡◌, ◌↔◌, ◌++◌, ◌∷◌, ◌+◌, [], IfOk, IsTrue, map, if◌then◌else◌};
ghost use Rattle.scheme_terms.specs.Substituting.{composed, parameters, params};
ghost use Rattle.scheme_terms.specs.SchemeTree.{meta, local, values, OccursIn};
ghost use Rattle.binding_terms.specs.Numbered.{AnyByRecursion};
ghost use Rattle.scheme_terms.specs.View.{names, scheme, substitution, known_variable};
ghost use Rattle.pattern_unify.specs.State.{applied_known};
ghost use Rattle.pattern_unify.specs.LeftNames.{is_meta_left, is_known_left, is_listed, picked, rank, metas_left, knowns_left, left_names};
ghost use Rattle.pattern_unify.specs.Stepped.{state};

use crate::state::{State, apply_to_known};
use binding_terms::{NoMemory, Text, number};
use scheme_terms::{
    KnownDecl, MetaDecl, MetaId, Scheme, Scope, Subst, compose, make_parameters, occurs_in,
};
use sqlite_items::Items;
use std::alloc::Global;

/// Whether the metavariable stands in one of the values.
fn stands_in(m: MetaId, all: &[Scheme]) -> bool
    ensures { IsTrue result ↔ AnyByRecursion (OccursIn m.0) (map scheme all.now) }
{
    for value in all {
        if occurs_in(m, value) {
            return true;
        }
    }
    false
}

fn is_meta_left(st: &State, place: usize) -> Result<bool, NoMemory>
    ensures { IfOk result (λ is. is ≡ is_meta_left (state st.now) place) }
{
    let name = number(place)?;
    Ok(stands_in(MetaId(name), st.so_far.metas.as_slice()))
}

/// Whether the number is one of these.
fn is_listed(all: &[u32], wanted: usize) -> bool
    ensures { result ≡ is_listed all.now wanted }
{
    for k in all {
        if *k as usize == wanted {
            return true;
        }
    }
    false
}

fn is_known_left(st: &State, place: usize) -> bool
    ensures { result ≡ is_known_left (state st.now) place }
{
    is_listed(st.so_far.knowns.as_slice(), place)
}

fn one_more(count: usize, keep: bool) -> Result<usize, NoMemory>
    ensures { IfOk result (λ n. n ≡ (if keep then count + 1 else count)) }
{
    if keep {
        return count.checked_add(1).ok_or(NoMemory);
    }
    Ok(count)
}

/// The metavariable with this new number, where it is left.
fn meta_left(alloc: Global, keep: bool, new: usize, decl: &MetaDecl) -> Result<Scheme, NoMemory>
    ensures { IfOk result (λ s. scheme s ≡ (if keep then meta new (values (parameters (params decl.now))) else local 0)) }
{
    if !keep {
        return Ok(Scheme::Local(0));
    }
    let name = number(new)?;
    Ok(Scheme::Meta(
        MetaId(name),
        make_parameters(alloc, decl.params.as_slice().len())?,
    ))
}

fn metas_left(alloc: Global, st: &State, decls: &[MetaDecl]) -> Result<Items<Scheme>, NoMemory>
    ensures { IfOk result (λ all. map scheme all ≡ metas_left (is_meta_left (state st.now)) 0 decls.now) }
{
    let mut all = Items::new(alloc);
    let mut count: usize = 0;
    for place in 0..decls.len() {
        let keep = is_meta_left(st, place)?;
        all.push(meta_left(alloc, keep, count, &decls[place])?)?;
        count = one_more(count, keep)?;
    }
    Ok(all)
}

fn knowns_left(alloc: Global, st: &State, decls: &[KnownDecl]) -> Result<Items<u32>, NoMemory>
    ensures { IfOk result (λ all. all ≡ knowns_left (is_known_left (state st.now)) 0 (map known_variable decls.now)) }
{
    let mut all = Items::new(alloc);
    let mut count: usize = 0;
    for place in 0..decls.len() {
        all.push(number(count)?)?;
        count = one_more(count, is_known_left(st, place))?;
    }
    Ok(all)
}

fn copy_decl(alloc: Global, decl: &MetaDecl) -> Result<MetaDecl, NoMemory>
    ensures { IfOk result (λ new. new ≡ decl.now) }
{
    let mut name = Text::new(alloc);
    name.push(decl.name.bytes())?;
    Ok(MetaDecl {
        name,
        cat: decl.cat,
        params: Items::from_slice(alloc, decl.params.as_slice())?,
    })
}

fn push_meta(
    alloc: Global,
    all: &mut Items<MetaDecl>,
    keep: bool,
    decl: &MetaDecl,
) -> Result<(), NoMemory>
    ensures { IfOk result (λ _. all.new ≡ all.old ++ (if keep then decl.now ∷ [] else [])) }
{
    if keep {
        all.push(copy_decl(alloc, decl)?)?;
    }
    Ok(())
}

/// The declarations of the metavariables that are left.
fn left_metas(alloc: Global, st: &State, decls: &[MetaDecl]) -> Result<Items<MetaDecl>, NoMemory>
    ensures { IfOk result (λ all. all ≡ picked (is_meta_left (state st.now)) 0 decls.now) }
{
    let mut all = Items::new(alloc);
    for place in 0..decls.len() {
        let keep = is_meta_left(st, place)?;
        push_meta(alloc, &mut all, keep, &decls[place])?;
    }
    Ok(all)
}

fn push_known(
    alloc: Global,
    all: &mut Items<KnownDecl>,
    keep: bool,
    decl: &KnownDecl,
    by: &Subst,
) -> Result<(), NoMemory>
    ensures { IfOk result (λ _. map known_variable all.new ≡ map known_variable all.old ++ (if keep then applied_known (substitution by.now).metas (substitution by.now).knowns (known_variable decl.now) ∷ [] else [])) }
{
    if keep {
        all.push(apply_to_known(alloc, decl, by)?)?;
    }
    Ok(())
}

/// The declarations of the known variables that are left, with the new numbers.
fn left_knowns(
    alloc: Global,
    st: &State,
    decls: &[KnownDecl],
    by: &Subst,
) -> Result<Items<KnownDecl>, NoMemory>
    ensures { IfOk result (λ all. map known_variable all ≡ picked (is_known_left (state st.now)) 0 (map (applied_known (substitution by.now).metas (substitution by.now).knowns) (map known_variable decls.now))) }
{
    let mut all = Items::new(alloc);
    for place in 0..decls.len() {
        let keep = is_known_left(st, place);
        push_known(alloc, &mut all, keep, &decls[place], by)?;
    }
    Ok(all)
}

/// The names of the state, each that is left with its new number, into a scope of these alone.
fn left_names(alloc: Global, st: &State) -> Result<Subst, NoMemory>
    ensures { IfOk result (λ by. substitution by ≡ left_names (state st.now)) }
{
    let scope = &st.so_far.into;
    let mut by = Subst {
        metas: metas_left(alloc, st, scope.metas.as_slice())?,
        knowns: knowns_left(alloc, st, scope.knowns.as_slice())?,
        into: Scope {
            root: scope.root,
            metas: left_metas(alloc, st, scope.metas.as_slice())?,
            knowns: Items::new(alloc),
        },
    };
    let knowns = left_knowns(alloc, st, scope.knowns.as_slice(), &by)?;
    by.into.knowns = knowns;
    Ok(by)
}

/// What the run has found, over the names that are left.
pub(crate) fn found_over_left(alloc: Global, st: &State) -> Result<Subst, NoMemory>
    ensures { IfOk result (λ by. substitution by ≡ composed (state st.now).so_far (left_names (state st.now))) }
{
    let by = left_names(alloc, st)?;
    let found = compose(alloc, &st.so_far, &by)?;
    Ok(found)
}
