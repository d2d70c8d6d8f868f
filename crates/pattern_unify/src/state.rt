//! Where a run of unification stands, and what a step does to it.
ghost use Rattle.std.specs.Prelude.{◌≡◌, IfOk, map};
ghost use Rattle.scheme_terms.specs.View.{scheme, names, substitution, known_variable};
ghost use Rattle.scheme_terms.specs.Substituting.{applied};
ghost use Rattle.pattern_unify.specs.Equations.{equation};
ghost use Rattle.pattern_unify.specs.State.{applied_equation, applied_known, metas_but, knowns_but, substitution_of, start};
ghost use Rattle.pattern_unify.specs.Stepped.{state, through, made_by, meta_but, known_but};

use crate::equation::Equation;
use binding_terms::{NoMemory, Text, number};
use scheme_terms::{
    KnownDecl, MetaDecl, MetaId, SEntry, Scheme, Scope, Subst, apply_under, compose, copy_metas,
    copy_scheme, copy_scope, identity_of, make_parameters,
};
use sqlite_items::Items;
use std::alloc::Global;

/// The equations that are left, and what has become of the names with which the run began.
#[derive(Drop)]
pub(crate) struct State {
    pub equations: Items<Equation>,
    pub so_far: Subst,
}

fn copy_equation(alloc: Global, one: &Equation) -> Result<Equation, NoMemory>
    ensures { IfOk result (λ new. equation new ≡ equation one.now) }
{
    Ok(Equation {
        scope: Items::from_slice(alloc, one.scope.as_slice())?,
        left: copy_scheme(alloc, &one.left)?,
        right: copy_scheme(alloc, &one.right)?,
    })
}

#[tactic(auto, using(std::proofs::lemmas::List::take_all))]
pub(crate) fn copy_equations(alloc: Global, eqs: &[Equation]) -> Result<Items<Equation>, NoMemory>
    ensures { IfOk result (λ all. map equation all ≡ map equation eqs.now) }
{
    let mut all = Items::new(alloc);
    for one in eqs {
        all.push(copy_equation(alloc, one)?)?;
    }
    Ok(all)
}

/// The beginning of a run.
pub(crate) fn start(alloc: Global, scope: &Scope, eqs: &[Equation]) -> Result<State, NoMemory>
    ensures { IfOk result (λ st. state st ≡ start (names scope.now) (map equation eqs.now)) }
{
    Ok(State {
        equations: copy_equations(alloc, eqs)?,
        so_far: identity_of(alloc, scope)?,
    })
}

fn apply_to_equation(alloc: Global, one: &Equation, by: &Subst) -> Result<Equation, NoMemory>
    ensures { IfOk result (λ new. equation new ≡ applied_equation (substitution by.now).metas (substitution by.now).knowns (equation one.now)) }
{
    let locals = one.scope.as_slice().len();
    Ok(Equation {
        scope: Items::from_slice(alloc, one.scope.as_slice())?,
        left: apply_under(alloc, &one.left, by, locals)?,
        right: apply_under(alloc, &one.right, by, locals)?,
    })
}

#[tactic(auto, using(std::proofs::lemmas::List::take_all))]
fn apply_to_equations(
    alloc: Global,
    eqs: &[Equation],
    by: &Subst,
) -> Result<Items<Equation>, NoMemory>
    ensures { IfOk result (λ all. map equation all ≡ map (applied_equation (substitution by.now).metas (substitution by.now).knowns) (map equation eqs.now)) }
{
    let mut all = Items::new(alloc);
    for one in eqs {
        all.push(apply_to_equation(alloc, one, by)?)?;
    }
    Ok(all)
}

#[tactic(auto, using(std::proofs::lemmas::List::take_all))]
fn apply_to_args(alloc: Global, args: &[Scheme], by: &Subst) -> Result<Items<Scheme>, NoMemory>
    ensures { IfOk result (λ all. map scheme all ≡ map (applied (substitution by.now).metas (substitution by.now).knowns 0) (map scheme args.now)) }
{
    let mut all = Items::new(alloc);
    for arg in args {
        all.push(apply_under(alloc, arg, by, 0)?)?;
    }
    Ok(all)
}

pub(crate) fn apply_to_known(
    alloc: Global,
    decl: &KnownDecl,
    by: &Subst,
) -> Result<KnownDecl, NoMemory>
    ensures { IfOk result (λ new. known_variable new ≡ applied_known (substitution by.now).metas (substitution by.now).knowns (known_variable decl.now)) }
{
    let mut name = Text::new(alloc);
    name.push(decl.name.bytes())?;
    Ok(KnownDecl {
        name,
        entry: SEntry {
            prod: decl.entry.prod,
            args: apply_to_args(alloc, decl.entry.args.as_slice(), by)?,
        },
    })
}

#[tactic(auto, using(std::proofs::lemmas::List::take_all))]
fn apply_to_knowns(
    alloc: Global,
    decls: &[KnownDecl],
    by: &Subst,
) -> Result<Items<KnownDecl>, NoMemory>
    ensures { IfOk result (λ all. map known_variable all ≡ map (applied_known (substitution by.now).metas (substitution by.now).knowns) (map known_variable decls.now)) }
{
    let mut all = Items::new(alloc);
    for decl in decls {
        all.push(apply_to_known(alloc, decl, by)?)?;
    }
    Ok(all)
}

/// The state after a step that puts these schemes and numbers in for its names, where the names after it are those of the step's scope.
pub(crate) fn after_step(alloc: Global, st: &State, by: &Subst) -> Result<State, NoMemory>
    ensures { IfOk result (λ new. state new ≡ through (substitution by.now) (state st.now)) }
{
    Ok(State {
        equations: apply_to_equations(alloc, st.equations.as_slice(), by)?,
        so_far: compose(alloc, &st.so_far, by)?,
    })
}

/// A metavariable for itself, or the scheme where it is the changed one.
fn meta_but(
    alloc: Global,
    changed: MetaId,
    value: &Scheme,
    place: usize,
    decl: &MetaDecl,
) -> Result<Scheme, NoMemory>
    ensures { IfOk result (λ s. scheme s ≡ meta_but changed.0 (scheme value.now) place decl.now) }
{
    let name = number(place)?;
    if name == changed.0 {
        return copy_scheme(alloc, value);
    }
    Ok(Scheme::Meta(
        MetaId(name),
        make_parameters(alloc, decl.params.as_slice().len())?,
    ))
}

/// A known variable for itself, or the other where it is the changed one.
fn known_but(changed: u32, to: u32, place: usize) -> Result<u32, NoMemory>
    ensures { IfOk result (λ k. k ≡ known_but changed to place) }
{
    let name = number(place)?;
    if name == changed {
        return Ok(to);
    }
    Ok(name)
}

/// Each metavariable for itself but one.
pub(crate) fn metas_but(
    alloc: Global,
    changed: MetaId,
    value: &Scheme,
    decls: &[MetaDecl],
) -> Result<Items<Scheme>, NoMemory>
    ensures { IfOk result (λ all. map scheme all ≡ metas_but changed.0 (scheme value.now) 0 decls.now) }
{
    let mut all = Items::new(alloc);
    for place in 0..decls.len() {
        all.push(meta_but(alloc, changed, value, place, &decls[place])?)?;
    }
    Ok(all)
}

/// Each known variable for itself but one.
pub(crate) fn knowns_but(
    alloc: Global,
    changed: u32,
    to: u32,
    decls: &[KnownDecl],
) -> Result<Items<u32>, NoMemory>
    ensures { IfOk result (λ all. all ≡ knowns_but changed to 0 (map known_variable decls.now)) }
{
    let mut all = Items::new(alloc);
    for place in 0..decls.len() {
        all.push(known_but(changed, to, place)?)?;
    }
    Ok(all)
}

/// A step as a substitution of the present names: the names after it are these and the ones that it makes, each known variable with what
/// the step makes of its entry.
pub(crate) fn step_of(
    alloc: Global,
    scope: &Scope,
    metas: Items<Scheme>,
    knowns: Items<u32>,
    made: Option<MetaDecl>,
) -> Result<Subst, NoMemory>
    ensures { IfOk result (λ by. substitution by ≡ substitution_of (names scope.now) (record { metas = map scheme metas; knowns = knowns; made = made_by made })) }
{
    let mut by = Subst {
        metas,
        knowns,
        into: copy_scope(alloc, scope)?,
    };
    let knowns = apply_to_knowns(alloc, scope.knowns.as_slice(), &by)?;
    let mut metas = copy_metas(alloc, scope.metas.as_slice())?;
    if let Some(decl) = made {
        metas.push(decl)?;
    }
    by.into = Scope {
        root: scope.root,
        metas,
        knowns,
    };
    Ok(by)
}
