//! To which schemes each row of the table of moves applies, and the first move that applies to an equation.
ghost use Rattle.std.specs.Prelude.{◌≡◌, ◌↔◌, ◌⊎◌, IsTrue, IfOk, map, option_map, slice_get};
ghost use Rattle.scheme_terms.specs.View.{scheme, names, known_variable};
ghost use Rattle.pattern_unify.specs.Equations.{equation};
ghost use Rattle.pattern_unify.specs.Moves.{AreOfOneProduction, AreOtherHeads, IsOutOfReach, HaveOneProduction, CanJoin, CanMeet, CanPrune, CanBind, AppliesTo, Applies, row_at};
ghost use Rattle.pattern_unify.specs.Chosen.{the_row, the_way, chosen, IsFirst};

use crate::equation::Equation;
use crate::patterns::{has_locals_among, has_rigid_other, is_rigid_below};
use crate::pruning::has_prunable;
use binding_terms::NoMemory;
use scheme_terms::{KnownDecl, MetaId, Scheme, Scope, are_distinct_locals, occurs_in, same_scheme};
use std::alloc::Global;

/// The rows of the table, in its order.
#[derive(Clone, Copy, Debug, PartialEq, Eq)]
pub(crate) enum Row {
    Delete,
    Decompose,
    Clash,
    Join,
    Meet,
    Prune,
    Bind,
}

/// Which side of an equation is the one that the table names first.
#[derive(Clone, Copy, Debug, PartialEq, Eq)]
pub(crate) enum Way {
    LeftFirst,
    RightFirst,
}

fn row_at(place: usize) -> Row
    ensures { the_row result ≡ row_at place }
{
    match place {
        0 => Row::Delete,
        1 => Row::Decompose,
        2 => Row::Clash,
        3 => Row::Join,
        4 => Row::Meet,
        5 => Row::Prune,
        _ => Row::Bind,
    }
}

pub(crate) fn production_of(knowns: &[KnownDecl], known: u32) -> Option<&KnownDecl>
    ensures { option_map (λ d. known_variable d.now) result ≡ slice_get (map known_variable knowns.now) known }
{
    if (known as usize) < knowns.len() {
        return Some(&knowns[known as usize]);
    }
    None
}

/// Whether the entries of two known variables are of one production.
fn are_of_one_production(scope: &Scope, k: u32, l: u32) -> bool
    ensures { IsTrue result ↔ AreOfOneProduction (names scope.now) k l }
{
    let one = production_of(scope.knowns.as_slice(), k);
    let other = production_of(scope.knowns.as_slice(), l);
    match (one, other) {
        (Some(one), Some(other)) => one.entry.prod.0 == other.entry.prod.0,
        _ => false,
    }
}

fn are_other_heads(scope: &Scope, s: &Scheme, t: &Scheme) -> bool
    ensures { IsTrue result ↔ AreOtherHeads (names scope.now) (scheme s.now) (scheme t.now) }
{
    match (s, t) {
        (Scheme::Con(p, _), Scheme::Con(q, _)) => p.0 != q.0,
        (Scheme::Con(_, _), Scheme::Local(_)) => true,
        (Scheme::Con(_, _), Scheme::Known(_)) => true,
        (Scheme::Local(i), Scheme::Local(j)) => *i != *j,
        (Scheme::Local(_), Scheme::Known(_)) => true,
        (Scheme::Known(k), Scheme::Known(l)) => *k != *l && !are_of_one_production(scope, *k, *l),
        _ => false,
    }
}

fn is_out_of_reach(s: &Scheme, t: &Scheme) -> Result<bool, NoMemory>
    ensures { IfOk result (λ is. IsTrue is ↔ IsOutOfReach (scheme s.now) (scheme t.now)) }
{
    let Scheme::Meta(m, args) = s else {
        return Ok(false);
    };
    if !are_distinct_locals(args.as_slice()) {
        return Ok(false);
    }
    if is_rigid_below(*m, t) {
        return Ok(true);
    }
    let other = has_rigid_other(t, args.as_slice(), 0)?;
    Ok(other)
}

fn have_one_production(s: &Scheme, t: &Scheme) -> bool
    ensures { IsTrue result ↔ HaveOneProduction (scheme s.now) (scheme t.now) }
{
    match (s, t) {
        (Scheme::Con(p, _), Scheme::Con(q, _)) => p.0 == q.0,
        _ => false,
    }
}

fn can_join(scope: &Scope, s: &Scheme, t: &Scheme) -> bool
    ensures { IsTrue result ↔ CanJoin (names scope.now) (scheme s.now) (scheme t.now) }
{
    match (s, t) {
        (Scheme::Known(k), Scheme::Known(l)) => *k != *l && are_of_one_production(scope, *k, *l),
        _ => false,
    }
}

fn can_meet(s: &Scheme, t: &Scheme) -> bool
    ensures { IsTrue result ↔ CanMeet (scheme s.now) (scheme t.now) }
{
    match (s, t) {
        (Scheme::Meta(m, vs), Scheme::Meta(n, ws)) => {
            m.0 == n.0 && are_distinct_locals(vs.as_slice()) && are_distinct_locals(ws.as_slice())
        }
        _ => false,
    }
}

fn can_prune(alloc: Global, s: &Scheme, t: &Scheme) -> Result<bool, NoMemory>
    ensures { IfOk result (λ can. IsTrue can ↔ CanPrune (scheme s.now) (scheme t.now)) }
{
    let Scheme::Meta(m, args) = s else {
        return Ok(false);
    };
    if !are_distinct_locals(args.as_slice()) {
        return Ok(false);
    }
    let has = has_prunable(alloc, t, *m, args.as_slice())?;
    Ok(has)
}

fn can_bind(s: &Scheme, t: &Scheme) -> Result<bool, NoMemory>
    ensures { IfOk result (λ can. IsTrue can ↔ CanBind (scheme s.now) (scheme t.now)) }
{
    let Scheme::Meta(m, args) = s else {
        return Ok(false);
    };
    if !are_distinct_locals(args.as_slice()) {
        return Ok(false);
    }
    if occurs_in(*m, t) {
        return Ok(false);
    }
    has_locals_among(t, args.as_slice(), 0)
}

fn clashes(scope: &Scope, s: &Scheme, t: &Scheme) -> Result<bool, NoMemory>
    ensures { IfOk result (λ can. IsTrue can ↔ (AreOtherHeads (names scope.now) (scheme s.now) (scheme t.now) ⊎ IsOutOfReach (scheme s.now) (scheme t.now))) }
{
    if are_other_heads(scope, s, t) {
        return Ok(true);
    }
    is_out_of_reach(s, t)
}

/// Whether the row applies to the two schemes, the first of which is the one that the table names first.
fn applies_to(
    alloc: Global,
    scope: &Scope,
    row: Row,
    s: &Scheme,
    t: &Scheme,
) -> Result<bool, NoMemory>
    ensures { IfOk result (λ applies. IsTrue applies ↔ AppliesTo (names scope.now) (the_row row) (scheme s.now) (scheme t.now)) }
{
    match row {
        Row::Delete => Ok(same_scheme(s, t)),
        Row::Decompose => Ok(have_one_production(s, t)),
        Row::Clash => clashes(scope, s, t),
        Row::Join => Ok(can_join(scope, s, t)),
        Row::Meet => Ok(can_meet(s, t)),
        Row::Prune => can_prune(alloc, s, t),
        Row::Bind => can_bind(s, t),
    }
}

/// The first row of the table that applies to the equation, in either direction, and the direction, the left side first; none where
/// no move applies.
pub(crate) fn first_move(
    alloc: Global,
    scope: &Scope,
    one: &Equation,
) -> Result<Option<(Row, Way)>, NoMemory>
    ensures { IfOk result (λ o. IsFirst (names scope.now) (equation one.now) (option_map chosen o)) }
{
    for place in 0..7 {
        let row = row_at(place);
        if applies_to(alloc, scope, row, &one.left, &one.right)? {
            return Ok(Some((row, Way::LeftFirst)));
        }
        if applies_to(alloc, scope, row, &one.right, &one.left)? {
            return Ok(Some((row, Way::RightFirst)));
        }
    }
    Ok(None)
}
