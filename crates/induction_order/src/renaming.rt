//! Whether a scheme is a part of another with its bound variables renamed.

ghost use Rattle.std.specs.Prelude.{◌↔◌, IsTrue, map};
ghost use Rattle.scheme_terms.specs.SchemeTree.{values};
ghost use Rattle.scheme_terms.specs.View.{scheme, scheme_part, scheme_parts};
ghost use Rattle.induction_order.specs.Binders.{count};
ghost use Rattle.induction_order.specs.Renaming.{IsPairOfLocals, IsRenamed, Agrees, IsConsistent, IsLike, AreLike, PartsLike, IsPartLike};
ghost use Rattle.induction_order.specs.Standing.{IsSame, IsStanding};

use crate::binders::{Binders, outside};
use scheme_terms::{SArg, Scheme};

/// A local of a scheme and, at the same place of the part, a local that is bound around the part.
#[derive(Clone, Copy)]
pub(crate) struct Pair {
    pub arg: usize,
    pub part: usize,
}

/// How two locals at the same place stand to one another.
#[derive(Clone, Copy)]
pub(crate) enum Standing {
    /// They are the same one, bound inside the part or outside the whole.
    Same,
    /// They are different ones.
    Different,
    /// The part's local is bound around the part, and the other one is free.
    Around(Pair),
}

/// A scheme beside a part of another, and the binders around the part.
#[derive(Clone, Copy)]
pub(crate) struct Beside<'a> {
    pub arg: &'a Scheme,
    pub part: &'a Scheme,
    pub outer: &'a Binders<'a>,
}

fn same_or_different(one: usize, other: usize) -> Standing
    ensures { IsSame one other result }
{
    if one == other {
        Standing::Same
    } else {
        Standing::Different
    }
}

/// How a local of the scheme stands to the part's local at the same place.
fn how_they_stand(outer: &Binders<'_>, inner: &Binders<'_>, arg: usize, part: usize) -> Standing
    ensures { IsStanding (count outer.now) (count inner.now) arg part result }
{
    match outside(inner, part) {
        None => same_or_different(arg, part),
        Some(part) => match outside(inner, arg) {
            None => Standing::Different,
            Some(arg) => how_they_stand_outside(outer, arg, part),
        },
    }
}

/// The same where neither local is bound inside the part.
fn how_they_stand_outside(outer: &Binders<'_>, arg: usize, part: usize) -> Standing
    ensures { IsStanding (count outer.now) 0 arg part result }
{
    match outside(outer, part) {
        None => Standing::Around(Pair { arg, part }),
        Some(free) => same_or_different(arg, free),
    }
}

fn agrees_at(pair: Pair, outer: &Binders<'_>, inner: &Binders<'_>, arg: usize, part: usize) -> bool
    ensures { IsTrue result ↔ IsPairOfLocals (Agrees pair.arg pair.part) (count outer.now) (count inner.now) arg part }
{
    match how_they_stand(outer, inner, arg, part) {
        Standing::Same => true,
        Standing::Different => false,
        Standing::Around(other) => (pair.arg == other.arg) == (pair.part == other.part),
    }
}

/// Whether the scheme is the part but for the variables that are bound around it, and each pair of locals agrees with this one.
#[cycle(agrees)]
fn agrees(arg: &Scheme, part: &Scheme, inner: &Binders<'_>, pair: Pair, outer: &Binders<'_>) -> bool
    ensures { IsTrue result ↔ IsLike (Agrees pair.arg pair.part) (count outer.now) (count inner.now) (scheme arg.now) (scheme part.now) }
{
    match (arg, part) {
        (Scheme::Meta(m, xs), Scheme::Meta(n, ys)) => m.0 == n.0
            && agree_values(xs.as_slice(), ys.as_slice(), inner, pair, outer),
        (Scheme::Known(k), Scheme::Known(l)) => *k == *l,
        (Scheme::Local(a), Scheme::Local(i)) => agrees_at(pair, outer, inner, *a, *i),
        (Scheme::Con(p, xs), Scheme::Con(q, ys)) => p.0 == q.0
            && agree_parts(xs.as_slice(), ys.as_slice(), inner, pair, outer),
        _ => false,
    }
}

#[cycle(agrees)]
fn agree_values(
    xs: &[Scheme],
    ys: &[Scheme],
    inner: &Binders<'_>,
    pair: Pair,
    outer: &Binders<'_>,
) -> bool
    ensures { IsTrue result ↔ AreLike (Agrees pair.arg pair.part) (count outer.now) (count inner.now) (values (map scheme xs.now)) (values (map scheme ys.now)) }
{
    if xs.len() != ys.len() {
        return false;
    }
    for i in 0..xs.len() {
        if !agrees(&xs[i], &ys[i], inner, pair, outer) {
            return false;
        }
    }
    true
}

#[cycle(agrees)]
fn agrees_part(x: &SArg, y: &SArg, inner: &Binders<'_>, pair: Pair, outer: &Binders<'_>) -> bool
    ensures { IsTrue result ↔ IsPartLike (Agrees pair.arg pair.part) (count outer.now) (count inner.now) (scheme_part x.now) (scheme_part y.now) }
{
    let deeper = Binders::Under {
        binds: y.binds,
        outer: &*inner,
    };
    x.binds == y.binds && agrees(&x.body, &y.body, &deeper, pair, outer)
}

#[cycle(agrees)]
fn agree_parts(
    xs: &[SArg],
    ys: &[SArg],
    inner: &Binders<'_>,
    pair: Pair,
    outer: &Binders<'_>,
) -> bool
    ensures { IsTrue result ↔ PartsLike (Agrees pair.arg pair.part) (count outer.now) (count inner.now) (scheme_parts xs.now) (scheme_parts ys.now) }
{
    if xs.len() != ys.len() {
        return false;
    }
    for i in 0..xs.len() {
        if !agrees_part(&xs[i], &ys[i], inner, pair, outer) {
            return false;
        }
    }
    true
}

/// Whether all pairs of locals agree with this one.
fn agree_all(beside: &Beside<'_>, pair: Pair) -> bool
    ensures { IsTrue result ↔ IsConsistent (count beside.now.outer.now) (scheme beside.now.arg.now) (scheme beside.now.part.now) pair.arg pair.part }
{
    agrees(
        beside.arg,
        beside.part,
        &Binders::Outermost,
        pair,
        beside.outer,
    )
}

fn is_consistent_at(beside: &Beside<'_>, inner: &Binders<'_>, arg: usize, part: usize) -> bool
    ensures { IsTrue result ↔ IsPairOfLocals (IsConsistent (count beside.now.outer.now) (scheme beside.now.arg.now) (scheme beside.now.part.now)) (count beside.now.outer.now) (count inner.now) arg part }
{
    match how_they_stand(beside.outer, inner, arg, part) {
        Standing::Same => true,
        Standing::Different => false,
        Standing::Around(pair) => agree_all(beside, pair),
    }
}

/// Whether the scheme is the part but for the variables that are bound around it, and each pair of locals agrees with all of them.
#[cycle(consistent)]
fn is_consistent(arg: &Scheme, part: &Scheme, inner: &Binders<'_>, beside: &Beside<'_>) -> bool
    ensures { IsTrue result ↔ IsLike (IsConsistent (count beside.now.outer.now) (scheme beside.now.arg.now) (scheme beside.now.part.now)) (count beside.now.outer.now) (count inner.now) (scheme arg.now) (scheme part.now) }
{
    match (arg, part) {
        (Scheme::Meta(m, xs), Scheme::Meta(n, ys)) => m.0 == n.0
            && are_values_consistent(xs.as_slice(), ys.as_slice(), inner, beside),
        (Scheme::Known(k), Scheme::Known(l)) => *k == *l,
        (Scheme::Local(a), Scheme::Local(i)) => is_consistent_at(beside, inner, *a, *i),
        (Scheme::Con(p, xs), Scheme::Con(q, ys)) => p.0 == q.0
            && are_parts_consistent(xs.as_slice(), ys.as_slice(), inner, beside),
        _ => false,
    }
}

#[cycle(consistent)]
fn are_values_consistent(
    xs: &[Scheme],
    ys: &[Scheme],
    inner: &Binders<'_>,
    beside: &Beside<'_>,
) -> bool
    ensures { IsTrue result ↔ AreLike (IsConsistent (count beside.now.outer.now) (scheme beside.now.arg.now) (scheme beside.now.part.now)) (count beside.now.outer.now) (count inner.now) (values (map scheme xs.now)) (values (map scheme ys.now)) }
{
    if xs.len() != ys.len() {
        return false;
    }
    for i in 0..xs.len() {
        if !is_consistent(&xs[i], &ys[i], inner, beside) {
            return false;
        }
    }
    true
}

#[cycle(consistent)]
fn is_part_consistent(x: &SArg, y: &SArg, inner: &Binders<'_>, beside: &Beside<'_>) -> bool
    ensures { IsTrue result ↔ IsPartLike (IsConsistent (count beside.now.outer.now) (scheme beside.now.arg.now) (scheme beside.now.part.now)) (count beside.now.outer.now) (count inner.now) (scheme_part x.now) (scheme_part y.now) }
{
    let deeper = Binders::Under {
        binds: y.binds,
        outer: &*inner,
    };
    x.binds == y.binds && is_consistent(&x.body, &y.body, &deeper, beside)
}

#[cycle(consistent)]
fn are_parts_consistent(xs: &[SArg], ys: &[SArg], inner: &Binders<'_>, beside: &Beside<'_>) -> bool
    ensures { IsTrue result ↔ PartsLike (IsConsistent (count beside.now.outer.now) (scheme beside.now.arg.now) (scheme beside.now.part.now)) (count beside.now.outer.now) (count inner.now) (scheme_parts xs.now) (scheme_parts ys.now) }
{
    if xs.len() != ys.len() {
        return false;
    }
    for i in 0..xs.len() {
        if !is_part_consistent(&xs[i], &ys[i], inner, beside) {
            return false;
        }
    }
    true
}

/// Whether the scheme is the part, which stands under the binders, with the variables that these bind renamed.
pub(crate) fn is_renamed(arg: &Scheme, part: &Scheme, outer: &Binders<'_>) -> bool
    ensures { IsTrue result ↔ IsRenamed (count outer.now) (scheme arg.now) (scheme part.now) }
{
    let beside = Beside { arg, part, outer };
    let inner = Binders::Outermost;
    is_consistent(arg, part, &inner, &beside)
}
