//! What stands where in a scheme: the questions that the rows of the table ask.
ghost use Rattle.std.specs.Prelude.{◌≡◌, ◌↔◌, ◌⊎◌, ◌-◌, ◌≤◌, ◌<◌, IsTrue, IfOk, length, map};
ghost use Rattle.scheme_terms.specs.SchemeTree.{local, values, AreDistinctLocals};
ghost use Rattle.scheme_terms.specs.View.{scheme, scheme_parts};
ghost use Rattle.pattern_unify.specs.Patterns.{IsAmong, IsRigidIn, IsRigidInParts, IsRigidBelow, HasRigidOther, PartsHaveRigidOther, HasLocalsAmong, HaveLocalsAmong, PartsHaveLocalsAmong, is_one_local, is_among, is_kept, common_arguments, kept_arguments};
ghost use Rattle.pattern_unify.specs.Pruning.{HasOther};

use binding_terms::NoMemory;
use scheme_terms::{MetaId, SArg, Scheme};
use std::alloc::Global;

fn is_local(index: usize, s: &Scheme) -> bool
    ensures { IsTrue result ↔ (scheme s.now ≡ local index) }
{
    match s {
        Scheme::Local(i) => *i == index,
        _ => false,
    }
}

/// Whether the local is one of the arguments.
pub(crate) fn is_among(index: usize, args: &[Scheme]) -> bool
    ensures { IsTrue result ↔ IsAmong index (values (map scheme args.now)) }
{
    for arg in args {
        if is_local(index, arg) {
            return true;
        }
    }
    false
}

/// Whether the metavariable stands at a rigid place.
#[cycle(is_rigid_in)]
pub(crate) fn is_rigid_in(m: MetaId, s: &Scheme) -> bool
    ensures { IsTrue result ↔ IsRigidIn m.0 (scheme s.now) }
{
    match s {
        Scheme::Meta(n, _) => n.0 == m.0,
        Scheme::Known(_) | Scheme::Local(_) => false,
        Scheme::Con(_, parts) => is_rigid_in_parts(m, parts.as_slice()),
    }
}

#[cycle(is_rigid_in)]
fn is_rigid_in_parts(m: MetaId, parts: &[SArg]) -> bool
    ensures { IsTrue result ↔ IsRigidInParts m.0 (scheme_parts parts.now) }
{
    for part in parts {
        if is_rigid_in(m, &part.body) {
            return true;
        }
    }
    false
}

/// Whether the metavariable stands at a rigid place below a production.
pub(crate) fn is_rigid_below(m: MetaId, s: &Scheme) -> bool
    ensures { IsTrue result ↔ IsRigidBelow m.0 (scheme s.now) }
{
    match s {
        Scheme::Con(_, parts) => is_rigid_in_parts(m, parts.as_slice()),
        _ => false,
    }
}

/// Whether a local below so many binders is free and not among the arguments.
pub(crate) fn is_other(args: &[Scheme], binders: usize, index: usize) -> bool
    ensures { IsTrue result ↔ ((binders ≤ index) × (IsAmong (index - binders) (values (map scheme args.now)) → ⊥)) }
{
    binders <= index && !is_among(index - binders, args)
}

/// Whether the scheme below so many binders has at a rigid place a free local that is not among the arguments.
#[cycle(has_rigid_other)]
pub(crate) fn has_rigid_other(s: &Scheme, args: &[Scheme], binders: usize) -> Result<bool, NoMemory>
    ensures { IfOk result (λ has. IsTrue has ↔ HasRigidOther (values (map scheme args.now)) binders (scheme s.now)) }
{
    match s {
        Scheme::Meta(_, _) | Scheme::Known(_) => Ok(false),
        Scheme::Local(i) => Ok(is_other(args, binders, *i)),
        Scheme::Con(_, parts) => has_rigid_other_in_parts(parts.as_slice(), args, binders),
    }
}

#[cycle(has_rigid_other)]
fn has_rigid_other_in_parts(
    parts: &[SArg],
    args: &[Scheme],
    binders: usize,
) -> Result<bool, NoMemory>
    ensures { IfOk result (λ has. IsTrue has ↔ PartsHaveRigidOther (values (map scheme args.now)) binders (scheme_parts parts.now)) }
{
    for part in parts {
        let inner = binders.checked_add(part.binds).ok_or(NoMemory)?;
        if has_rigid_other(&part.body, args, inner)? {
            return Ok(true);
        }
    }
    Ok(false)
}

/// Whether a local below so many binders is bound there or among the arguments.
fn stays(args: &[Scheme], binders: usize, index: usize) -> bool
    ensures { IsTrue result ↔ ((index < binders) ⊎ IsAmong (index - binders) (values (map scheme args.now))) }
{
    if index < binders {
        return true;
    }
    is_among(index - binders, args)
}

/// Whether each free local of the scheme below so many binders is among the arguments.
#[cycle(has_locals_among)]
pub(crate) fn has_locals_among(
    s: &Scheme,
    args: &[Scheme],
    binders: usize,
) -> Result<bool, NoMemory>
    ensures { IfOk result (λ has. IsTrue has ↔ HasLocalsAmong (values (map scheme args.now)) binders (scheme s.now)) }
{
    match s {
        Scheme::Meta(_, values) => values_have_locals_among(values.as_slice(), args, binders),
        Scheme::Known(_) => Ok(true),
        Scheme::Local(i) => Ok(stays(args, binders, *i)),
        Scheme::Con(_, parts) => parts_have_locals_among(parts.as_slice(), args, binders),
    }
}

#[cycle(has_locals_among)]
fn values_have_locals_among(
    schemes: &[Scheme],
    args: &[Scheme],
    binders: usize,
) -> Result<bool, NoMemory>
    ensures { IfOk result (λ has. IsTrue has ↔ HaveLocalsAmong (values (map scheme args.now)) binders (values (map scheme schemes.now))) }
{
    for one in schemes {
        if !has_locals_among(one, args, binders)? {
            return Ok(false);
        }
    }
    Ok(true)
}

#[cycle(has_locals_among)]
fn parts_have_locals_among(
    parts: &[SArg],
    args: &[Scheme],
    binders: usize,
) -> Result<bool, NoMemory>
    ensures { IfOk result (λ has. IsTrue has ↔ PartsHaveLocalsAmong (values (map scheme args.now)) binders (scheme_parts parts.now)) }
{
    for part in parts {
        let inner = binders.checked_add(part.binds).ok_or(NoMemory)?;
        if !has_locals_among(&part.body, args, inner)? {
            return Ok(false);
        }
    }
    Ok(true)
}

/// Whether two schemes are one local.
fn is_one_local(a: &Scheme, b: &Scheme) -> bool
    ensures { result ≡ is_one_local (scheme a.now) (scheme b.now) }
{
    match (a, b) {
        (Scheme::Local(i), Scheme::Local(j)) => *i == *j,
        _ => false,
    }
}

/// A mark for each parameter at which both patterns have the same local.
pub(crate) fn common_arguments(
    alloc: Global,
    first: &[Scheme],
    second: &[Scheme],
) -> Result<Vec<bool>, NoMemory>
    ensures { IfOk result (λ marks. marks.items ≡ common_arguments (values (map scheme first.now)) (values (map scheme second.now))) }
{
    let mut marks = Vec::new(alloc);
    for i in 0..first.len() {
        if i >= second.len() {
            return Ok(marks);
        }
        marks.push(is_one_local(&first[i], &second[i]))?;
    }
    Ok(marks)
}

/// Whether the local is one of the arguments, as a mark.
fn marks_among(index: usize, args: &[Scheme]) -> bool
    ensures { result ≡ is_among index (values (map scheme args.now)) }
{
    for arg in args {
        if is_one_local(arg, &Scheme::Local(index)) {
            return true;
        }
    }
    false
}

/// Whether the argument of a pattern below so many binders is a local that is bound there or among the other arguments.
fn is_kept(args: &[Scheme], binders: usize, s: &Scheme) -> bool
    ensures { result ≡ is_kept (values (map scheme args.now)) binders (scheme s.now) }
{
    match s {
        Scheme::Local(i) => *i < binders || marks_among(*i - binders, args),
        _ => false,
    }
}

/// A mark for each argument of a pattern that is so.
pub(crate) fn kept_arguments(
    alloc: Global,
    args: &[Scheme],
    binders: usize,
    others: &[Scheme],
) -> Result<Vec<bool>, NoMemory>
    ensures { IfOk result (λ marks. marks.items ≡ kept_arguments (values (map scheme args.now)) binders (values (map scheme others.now))) }
{
    let mut marks = Vec::new(alloc);
    for other in others {
        marks.push(is_kept(args, binders, other))?;
    }
    Ok(marks)
}
