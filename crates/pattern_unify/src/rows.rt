//! The move of each row of the table.
ghost use Rattle.std.specs.Prelude.{◌≡◌, ◌<◌, ◌≤◌, ◌+◌, ◌++◌, [], IfOk, length, map, take, drop, reverse};
ghost use Rattle.binding_terms.specs.Signature.{Signature};
ghost use Rattle.scheme_terms.specs.View.{names, scheme, substitution};
ghost use Rattle.pattern_unify.specs.Equations.{equation};
ghost use Rattle.pattern_unify.specs.State.{names_of, with_equations, after_step, joins_to};
ghost use Rattle.pattern_unify.specs.Moves.{delete, decompose, join, meet, prune, bind, named_first, named_second, HaveOneProduction};
ghost use Rattle.pattern_unify.specs.Move.{entry_args, entry_equations};
ghost use Rattle.pattern_unify.specs.Stepped.{state};
ghost use Rattle.pattern_unify.specs.Chosen.{the_row, the_way};
ghost use Rattle.pattern_unify.specs.Found.{found, IsNextMove};
ghost use Rattle.pattern_unify.specs.Turned.{GoesTo, HaveSides, IsDecomposed, AreTwoKnowns, AreLowAndHigh, IsRenewed, IsMeet, IsPrune, IsBind, Meets, Prunes, Binds};

use crate::arguments::argument_equations;
use crate::equation::Equation;
use crate::moves::{Way, production_of};
use crate::patterns::common_arguments;
use crate::pruning::first_prunable;
use crate::state::{State, after_step};
use crate::steps::{bind_step, join_step, new_step};
use crate::turns::Found;
use binding_terms::{NoMemory, Sig};
use scheme_terms::{MetaId, Scheme, Scope, Subst, copy_scheme};
use sqlite_items::Items;
use std::alloc::Global;

/// Takes the equations from the place on away, and gives them in the other order.
fn take_from(
    alloc: Global,
    eqs: &mut Items<Equation>,
    place: usize,
) -> Result<Items<Equation>, NoMemory>
    requires { place ≤ length eqs.old }
    ensures { IfOk result (λ away. (eqs.new ≡ take place eqs.old) × (reverse away ≡ drop place eqs.old)) }
{
    let mut away = Items::new(alloc);
    while eqs.len() > place {
        if let Some(last) = eqs.pop() {
            away.push(last)?;
        }
    }
    Ok(away)
}

/// Puts equations that were taken away back behind the others.
fn put_back(eqs: &mut Items<Equation>, away: Items<Equation>) -> Result<(), NoMemory>
    ensures { IfOk result (λ _. eqs.new ≡ eqs.old ++ reverse away) }
{
    let mut left = away;
    while let Some(last) = left.pop() {
        eqs.push(last)?;
    }
    Ok(())
}

/// The equations with these in the place of one. The others are moved, and none is copied.
fn in_place(
    alloc: Global,
    eqs: Items<Equation>,
    place: usize,
    more: Items<Equation>,
) -> Result<Items<Equation>, NoMemory>
    requires { place < length eqs }
    ensures { IfOk result (λ all. map equation all ≡ map equation (take place eqs) ++ (map equation more ++ map equation (drop (place + 1) eqs))) }
{
    let mut all = eqs;
    let rest = take_from(alloc, &mut all, place + 1)?;
    let _ = all.pop();
    all.append(more)?;
    put_back(&mut all, rest)?;
    Ok(all)
}

fn replace(alloc: Global, st: State, place: usize, more: Items<Equation>) -> Result<State, NoMemory>
    requires { place < length st.equations }
    ensures { IfOk result (λ new. state new ≡ with_equations (map equation (take place st.equations) ++ (map equation more ++ map equation (drop (place + 1) st.equations))) (state st)) }
{
    let State { equations, so_far } = st;
    Ok(State {
        equations: in_place(alloc, equations, place, more)?,
        so_far,
    })
}

/// Takes the equation away.
pub(crate) fn delete(alloc: Global, st: State, at: Found) -> Result<State, NoMemory>
    requires next { IsNextMove (names_of (state st)) (state st).equations (found at) }
    requires row { the_row at.row ≡ delete }
    ensures { IfOk result (λ new. (sig : Signature) → GoesTo sig (state st) (state new)) }
{
    let new = replace(alloc, st, at.place, Items::new(alloc))?;
    Ok(new)
}

fn decomposed(alloc: Global, sig: &Sig, one: &Equation) -> Result<Items<Equation>, NoMemory>
    requires { HaveOneProduction (scheme one.now.left) (scheme one.now.right) }
    ensures { IfOk result (λ all. IsDecomposed sig.now (equation one.now) (map equation all)) }
{
    let (Scheme::Con(p, xs), Scheme::Con(_, ys)) = (&one.left, &one.right) else {
        unreachable!();
    };
    match sig.prod(*p) {
        Some(prod) => argument_equations(
            alloc,
            one.scope.as_slice(),
            prod.items.as_slice(),
            xs.as_slice(),
            ys.as_slice(),
        ),
        None => Ok(Items::new(alloc)),
    }
}

/// Puts the equations of the arguments in its place.
pub(crate) fn decompose(alloc: Global, sig: &Sig, st: State, at: Found) -> Result<State, NoMemory>
    requires next { IsNextMove (names_of (state st)) (state st).equations (found at) }
    requires row { the_row at.row ≡ decompose }
    ensures { IfOk result (λ new. GoesTo sig.now (state st) (state new)) }
{
    let more = decomposed(alloc, sig, &st.equations.as_slice()[at.place])?;
    let new = replace(alloc, st, at.place, more)?;
    Ok(new)
}

fn equate(alloc: Global, left: &Scheme, right: &Scheme) -> Result<Equation, NoMemory>
    ensures { IfOk result (λ e. equation e ≡ record { locals = []; left = scheme left.now; right = scheme right.now }) }
{
    Ok(Equation {
        scope: Items::new(alloc),
        left: copy_scheme(alloc, left)?,
        right: copy_scheme(alloc, right)?,
    })
}

/// The equations of the arguments of two entries.
fn entry_equations(
    alloc: Global,
    lefts: &[Scheme],
    rights: &[Scheme],
) -> Result<Items<Equation>, NoMemory>
    ensures { IfOk result (λ all. map equation all ≡ entry_equations (map scheme lefts.now) (map scheme rights.now)) }
{
    let mut all = Items::new(alloc);
    for i in 0..lefts.len() {
        if i >= rights.len() {
            return Ok(all);
        }
        all.push(equate(alloc, &lefts[i], &rights[i])?)?;
    }
    Ok(all)
}

fn entries_with(
    alloc: Global,
    scope: &Scope,
    lefts: &[Scheme],
    high: u32,
) -> Result<Items<Equation>, NoMemory>
    ensures { IfOk result (λ all. map equation all ≡ entry_equations (map scheme lefts.now) (entry_args (names scope.now) high)) }
{
    match production_of(scope.knowns.as_slice(), high) {
        Some(other) => entry_equations(alloc, lefts, other.entry.args.as_slice()),
        None => Ok(Items::new(alloc)),
    }
}

fn entries(alloc: Global, scope: &Scope, low: u32, high: u32) -> Result<Items<Equation>, NoMemory>
    ensures { IfOk result (λ all. map equation all ≡ entry_equations (entry_args (names scope.now) low) (entry_args (names scope.now) high)) }
{
    match production_of(scope.knowns.as_slice(), low) {
        Some(one) => entries_with(alloc, scope, one.entry.args.as_slice(), high),
        None => Ok(Items::new(alloc)),
    }
}

/// The two known variables of an equation, the one with the lower number first.
fn low_and_high(one: &Equation) -> (u32, u32)
    requires { AreTwoKnowns (scheme one.now.left) (scheme one.now.right) }
    ensures { AreLowAndHigh (equation one.now) result.0 result.1 }
{
    let (Scheme::Known(k), Scheme::Known(l)) = (&one.left, &one.right) else {
        unreachable!();
    };
    if *k < *l {
        return (*k, *l);
    }
    (*l, *k)
}

fn join_two(alloc: Global, st: State, place: usize, low: u32, high: u32) -> Result<State, NoMemory>
    requires { place < length st.equations }
    ensures { IfOk result (λ new. state new ≡ after_step (joins_to high low (names_of (state st))) (with_equations (map equation (take place st.equations) ++ (entry_equations (entry_args (names_of (state st)) low) (entry_args (names_of (state st)) high) ++ map equation (drop (place + 1) st.equations))) (state st))) }
{
    let more = entries(alloc, &st.so_far.into, low, high)?;
    let replaced = replace(alloc, st, place, more)?;
    let by = join_step(alloc, &replaced.so_far.into, high, low)?;
    after_step(alloc, &replaced, &by)
}

/// Puts the equations of the entries in its place, and the known variable with the lower number for the other one.
pub(crate) fn join(alloc: Global, st: State, at: Found) -> Result<State, NoMemory>
    requires next { IsNextMove (names_of (state st)) (state st).equations (found at) }
    requires row { the_row at.row ≡ join }
    ensures { IfOk result (λ new. (sig : Signature) → GoesTo sig (state st) (state new)) }
{
    let (low, high) = low_and_high(&st.equations.as_slice()[at.place]);
    let new = join_two(alloc, st, at.place, low, high)?;
    Ok(new)
}

fn first_side(one: &Equation, way: Way) -> &Scheme
    ensures { scheme result.now ≡ named_first (the_way way) (equation one.now) }
{
    match way {
        Way::LeftFirst => &one.left,
        Way::RightFirst => &one.right,
    }
}

fn second_side(one: &Equation, way: Way) -> &Scheme
    ensures { scheme result.now ≡ named_second (the_way way) (equation one.now) }
{
    match way {
        Way::LeftFirst => &one.right,
        Way::RightFirst => &one.left,
    }
}

fn renew(alloc: Global, scope: &Scope, m: MetaId, keeps: &[bool]) -> Result<Subst, NoMemory>
    requires { m.0 < length scope.now.metas }
    ensures { IfOk result (λ by. IsRenewed (names scope.now) m.0 keeps.now (substitution by)) }
{
    let decl = &scope.metas.as_slice()[m.0 as usize];
    let new = new_step(alloc, scope, m, decl, keeps)?;
    Ok(new)
}

fn meet_by(alloc: Global, scope: &Scope, s: &Scheme, t: &Scheme) -> Result<Subst, NoMemory>
    requires { Meets (names scope.now) (scheme s.now) (scheme t.now) }
    ensures { IfOk result (λ by. IsMeet (names scope.now) (scheme s.now) (scheme t.now) (substitution by)) }
{
    let (Scheme::Meta(m, vs), Scheme::Meta(_, ws)) = (s, t) else {
        unreachable!();
    };
    let keeps = common_arguments(alloc, vs.as_slice(), ws.as_slice())?;
    let new = renew(alloc, scope, *m, keeps.as_slice())?;
    Ok(new)
}

fn prune_by(alloc: Global, scope: &Scope, s: &Scheme, t: &Scheme) -> Result<Subst, NoMemory>
    requires { Prunes (names scope.now) (scheme s.now) (scheme t.now) }
    ensures { IfOk result (λ by. IsPrune (names scope.now) (scheme s.now) (scheme t.now) (substitution by)) }
{
    let Scheme::Meta(m, vs) = s else {
        unreachable!();
    };
    let Some(gone) = first_prunable(alloc, t, *m, vs.as_slice(), 0)? else {
        unreachable!();
    };
    let new = renew(alloc, scope, gone.name, gone.keeps.as_slice())?;
    Ok(new)
}

fn bind_by(
    alloc: Global,
    scope: &Scope,
    s: &Scheme,
    t: &Scheme,
    locals: usize,
) -> Result<Subst, NoMemory>
    requires { Binds locals (scheme s.now) (scheme t.now) }
    ensures { IfOk result (λ by. IsBind (names scope.now) (scheme s.now) (scheme t.now) (substitution by)) }
{
    let Scheme::Meta(m, vs) = s else {
        unreachable!();
    };
    let new = bind_step(alloc, scope, *m, vs.as_slice(), locals, t)?;
    Ok(new)
}

/// Makes one of two patterns of the same metavariable.
pub(crate) fn meet(alloc: Global, st: &State, at: Found) -> Result<State, NoMemory>
    requires next { IsNextMove (names_of (state st.now)) (state st.now).equations (found at) }
    requires row { the_row at.row ≡ meet }
    requires sides { HaveSides (state st.now) }
    ensures { IfOk result (λ new. (sig : Signature) → GoesTo sig (state st.now) (state new)) }
{
    let one = &st.equations.as_slice()[at.place];
    let by = meet_by(
        alloc,
        &st.so_far.into,
        first_side(one, at.way),
        second_side(one, at.way),
    )?;
    let new = after_step(alloc, st, &by)?;
    Ok(new)
}

/// Takes parameters away from a metavariable.
pub(crate) fn prune(alloc: Global, st: &State, at: Found) -> Result<State, NoMemory>
    requires next { IsNextMove (names_of (state st.now)) (state st.now).equations (found at) }
    requires row { the_row at.row ≡ prune }
    requires sides { HaveSides (state st.now) }
    ensures { IfOk result (λ new. (sig : Signature) → GoesTo sig (state st.now) (state new)) }
{
    let one = &st.equations.as_slice()[at.place];
    let by = prune_by(
        alloc,
        &st.so_far.into,
        first_side(one, at.way),
        second_side(one, at.way),
    )?;
    let new = after_step(alloc, st, &by)?;
    Ok(new)
}

/// Puts the scheme in for the metavariable.
pub(crate) fn bind(alloc: Global, st: &State, at: Found) -> Result<State, NoMemory>
    requires next { IsNextMove (names_of (state st.now)) (state st.now).equations (found at) }
    requires row { the_row at.row ≡ bind }
    requires sides { HaveSides (state st.now) }
    ensures { IfOk result (λ new. (sig : Signature) → GoesTo sig (state st.now) (state new)) }
{
    let one = &st.equations.as_slice()[at.place];
    let by = bind_by(
        alloc,
        &st.so_far.into,
        first_side(one, at.way),
        second_side(one, at.way),
        one.scope.as_slice().len(),
    )?;
    let new = after_step(alloc, st, &by)?;
    Ok(new)
}
