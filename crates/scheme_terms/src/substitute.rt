ghost use Rattle.std.specs.Prelude.{◌≡◌, ℕ, IfOk, map, option_map, unwrap_or};
ghost use Rattle.scheme_terms.specs.SchemeTree.{local, values, under, filled, filled_values, filled_parts};
ghost use Rattle.scheme_terms.specs.Substituting.{argument_or_local, scheme_for, known_for, applied, applied_values, applied_parts, composed, Suits};
ghost use Rattle.scheme_terms.specs.View.{scheme, scheme_parts, substitution};

use crate::copying::copy_scope;
use crate::raising::shift_scheme;
use crate::scheme::{MetaId, SArg, Scheme, Subst};
use binding_terms::NoMemory;
use sqlite_items::{Items, at};
use std::alloc::Global;

/// What stands for a local of a metavariable's scheme below `depth` binders: its argument, or the local around it.
fn argument(
    alloc: Global,
    index: usize,
    depth: usize,
    args: &[Scheme],
    locals: usize,
) -> Result<Scheme, NoMemory>
    ensures { IfOk result (λ s. scheme s ≡ under depth (argument_or_local locals (map scheme args.now)) index) }
{
    if index < depth {
        return Ok(Scheme::Local(index));
    }
    let number = index - depth;
    if number < args.len() {
        return shift_scheme(alloc, &args[args.len() - 1 - number], 0, depth);
    }
    let outside = (number - args.len()).checked_add(locals).ok_or(NoMemory)?;
    Ok(Scheme::Local(outside.checked_add(depth).ok_or(NoMemory)?))
}

/// The scheme with arguments put in for its locals, below `depth` binders.
#[cycle(fill)]
fn fill(
    alloc: Global,
    s: &Scheme,
    depth: usize,
    args: &[Scheme],
    locals: usize,
) -> Result<Scheme, NoMemory>
    ensures { IfOk result (λ new. scheme new ≡ filled (under depth (argument_or_local locals (map scheme args.now))) (scheme s.now)) }
{
    match s {
        Scheme::Meta(m, own) => Ok(Scheme::Meta(
            *m,
            fill_values(alloc, own.as_slice(), depth, args, locals)?,
        )),
        Scheme::Known(k) => Ok(Scheme::Known(*k)),
        Scheme::Local(i) => argument(alloc, *i, depth, args, locals),
        Scheme::Con(p, parts) => Ok(Scheme::Con(
            *p,
            fill_parts(alloc, parts.as_slice(), depth, args, locals)?,
        )),
    }
}

#[cycle(fill)]
fn fill_values(
    alloc: Global,
    own: &[Scheme],
    depth: usize,
    args: &[Scheme],
    locals: usize,
) -> Result<Items<Scheme>, NoMemory>
    ensures { IfOk result (λ all. values (map scheme all) ≡ filled_values (under depth (argument_or_local locals (map scheme args.now))) (values (map scheme own.now))) }
{
    let mut all = Items::new(alloc);
    for one in own {
        all.push(fill(alloc, one, depth, args, locals)?)?;
    }
    Ok(all)
}

#[cycle(fill)]
fn fill_parts(
    alloc: Global,
    parts: &[SArg],
    depth: usize,
    args: &[Scheme],
    locals: usize,
) -> Result<Items<SArg>, NoMemory>
    ensures { IfOk result (λ all. scheme_parts all ≡ filled_parts (under depth (argument_or_local locals (map scheme args.now))) (scheme_parts parts.now)) }
{
    let mut all = Items::new(alloc);
    for part in parts {
        let inner = depth.checked_add(part.binds).ok_or(NoMemory)?;
        let body = fill(alloc, &part.body, inner, args, locals)?;
        all.push(SArg {
            binds: part.binds,
            body,
        })?;
    }
    Ok(all)
}

/// The scheme with arguments put in for its locals.
pub(crate) fn put_in(
    alloc: Global,
    s: &Scheme,
    args: &[Scheme],
    locals: usize,
) -> Result<Scheme, NoMemory>
    ensures { IfOk result (λ new. scheme new ≡ filled (argument_or_local locals (map scheme args.now)) (scheme s.now)) }
{
    fill(alloc, s, 0, args, locals)
}

/// The scheme for a metavariable, where it has one.
#[tactic(auto, using(crate::proofs::Parts::scheme_seen))]
fn stored(by: &Subst, m: MetaId) -> Option<&Scheme>
    ensures { unwrap_or (option_map (λ s. scheme s.now) result) (local 0) ≡ scheme_for (substitution by.now).metas m.0 }
{
    at(by.metas.as_slice(), m.0 as usize)
}

/// The scheme for a metavariable, with its arguments put in.
fn scheme_with(
    alloc: Global,
    by: &Subst,
    m: MetaId,
    args: &[Scheme],
    locals: usize,
) -> Result<Scheme, NoMemory>
    ensures { IfOk result (λ new. scheme new ≡ filled (argument_or_local locals (map scheme args.now)) (scheme_for (substitution by.now).metas m.0)) }
{
    match stored(by, m) {
        Some(value) => put_in(alloc, value, args, locals),
        None => put_in(alloc, &Scheme::Local(0), args, locals),
    }
}

fn known_value(by: &Subst, k: u32) -> u32
    ensures { result ≡ known_for (substitution by.now).knowns k }
{
    match at(by.knowns.as_slice(), k as usize) {
        Some(value) => *value,
        None => k,
    }
}

/// The same as `apply` for a scheme under so many locals.
#[cycle(apply)]
pub fn apply_under(alloc: Global, s: &Scheme, by: &Subst, locals: usize) -> Result<Scheme, NoMemory>
    ensures { IfOk result (λ new. scheme new ≡ applied (substitution by.now).metas (substitution by.now).knowns locals (scheme s.now)) }
{
    match s {
        Scheme::Meta(m, args) => {
            let given = apply_values(alloc, args.as_slice(), by, locals)?;
            scheme_with(alloc, by, *m, given.as_slice(), locals)
        }
        Scheme::Known(k) => Ok(Scheme::Known(known_value(by, *k))),
        Scheme::Local(i) => Ok(Scheme::Local(*i)),
        Scheme::Con(p, parts) => Ok(Scheme::Con(
            *p,
            apply_parts(alloc, parts.as_slice(), by, locals)?,
        )),
    }
}

#[cycle(apply)]
fn apply_values(
    alloc: Global,
    args: &[Scheme],
    by: &Subst,
    locals: usize,
) -> Result<Items<Scheme>, NoMemory>
    ensures { IfOk result (λ all. map scheme all ≡ applied_values (substitution by.now).metas (substitution by.now).knowns locals (values (map scheme args.now))) }
{
    let mut all = Items::new(alloc);
    for arg in args {
        all.push(apply_under(alloc, arg, by, locals)?)?;
    }
    Ok(all)
}

#[cycle(apply)]
fn apply_parts(
    alloc: Global,
    parts: &[SArg],
    by: &Subst,
    locals: usize,
) -> Result<Items<SArg>, NoMemory>
    ensures { IfOk result (λ all. scheme_parts all ≡ applied_parts (substitution by.now).metas (substitution by.now).knowns locals (scheme_parts parts.now)) }
{
    let mut all = Items::new(alloc);
    for part in parts {
        let inner = locals.checked_add(part.binds).ok_or(NoMemory)?;
        let body = apply_under(alloc, &part.body, by, inner)?;
        all.push(SArg {
            binds: part.binds,
            body,
        })?;
    }
    Ok(all)
}

/// The scheme with schemes put in for its names: a metavariable's with its parameters replaced by the arguments there, the last
/// parameter innermost. A name without a value stands for the local 0, or for itself. `NoMemory` also where an index would pass
/// `usize::MAX`.
#[tactic(auto, using(crate::proofs::AppliedSchemes::applied_anywhere))]
pub fn apply(alloc: Global, s: &Scheme, by: &Subst) -> Result<Scheme, NoMemory>
    ensures value { IfOk result (λ new. scheme new ≡ applied (substitution by.now).metas (substitution by.now).knowns 0 (scheme s.now)) }
    ensures under_locals { Suits (substitution by.now).metas (substitution by.now).knowns (scheme s.now) → (locals : ℕ) →
        IfOk result (λ new. scheme new ≡ applied (substitution by.now).metas (substitution by.now).knowns locals (scheme s.now)) }
{
    apply_under(alloc, s, by, 0)
}

#[tactic(auto, using(std::proofs::lemmas::List::take_all))]
fn compose_metas(alloc: Global, metas: &[Scheme], after: &Subst) -> Result<Items<Scheme>, NoMemory>
    ensures { IfOk result (λ all. map scheme all ≡ map (applied (substitution after.now).metas (substitution after.now).knowns 0) (map scheme metas.now)) }
{
    let mut all = Items::new(alloc);
    for value in metas {
        all.push(apply_under(alloc, value, after, 0)?)?;
    }
    Ok(all)
}

#[tactic(auto, using(std::proofs::lemmas::List::take_all))]
fn compose_knowns(alloc: Global, knowns: &[u32], after: &Subst) -> Result<Items<u32>, NoMemory>
    ensures { IfOk result (λ all. all ≡ map (known_for (substitution after.now).knowns) knowns.now) }
{
    let mut all = Items::new(alloc);
    for value in knowns {
        all.push(known_value(after, *value))?;
    }
    Ok(all)
}

/// One substitution after another: what `after` makes of each value of `first`.
pub fn compose(alloc: Global, first: &Subst, after: &Subst) -> Result<Subst, NoMemory>
    ensures { IfOk result (λ new. substitution new ≡ composed (substitution first.now) (substitution after.now)) }
{
    let metas = compose_metas(alloc, first.metas.as_slice(), after)?;
    let knowns = compose_knowns(alloc, first.knowns.as_slice(), after)?;
    let into = copy_scope(alloc, &after.into)?;
    Ok(Subst {
        metas,
        knowns,
        into,
    })
}
