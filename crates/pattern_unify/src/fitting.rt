ghost use Rattle.std.specs.Prelude.{◌↔◌, IsTrue, IfOk, length, map, option_map};
ghost use Rattle.std.specs.List.{AllByRecursion};
ghost use Rattle.binding_terms.specs.Numbered.{AllNumbered};
ghost use Rattle.scheme_terms.specs.Demands.{IsDemanded};
ghost use Rattle.scheme_terms.specs.Substituting.{IsKnownValue};
ghost use Rattle.scheme_terms.specs.View.{scheme, names, substitution, known_variable};
ghost use Rattle.pattern_unify.specs.Equations.{equation};
ghost use Rattle.pattern_unify.specs.FitInto.{AreToFitInto, Becomes, IsOnlyFitInto};
ghost use Rattle.pattern_unify.specs.Asked.{IsAsked, AreAsked};

use crate::equation::Equation;
use crate::kept::keep_numbers;
use binding_terms::{NoMemory, Sig, number};
use scheme_terms::{
    MetaId, Scheme, Scope, Subst, apply_under, copy_scope, demanded_scheme, identity_of,
    same_scheme,
};
use sqlite_items::Items;
use std::alloc::Global;

/// What the equations ask a name to be, where one of them asks for something.
fn asked_of(alloc: Global, name: MetaId, eqs: &[Equation]) -> Result<Option<Scheme>, NoMemory>
    ensures { IfOk result (λ o. IsDemanded (IsAsked (map equation eqs.now) name.0) (option_map scheme o)) }
{
    for equation in eqs {
        let locals = equation.scope.as_slice().len();
        if let Some(asked) = demanded_scheme(
            alloc,
            name,
            locals,
            &equation.left,
            &equation.right,
        )? {
            return Ok(Some(asked));
        }
    }
    Ok(None)
}

/// What the equations ask each of so many names to be, unless nothing is asked of one.
fn asked_of_all(
    alloc: Global,
    count: usize,
    eqs: &[Equation],
) -> Result<Option<Items<Scheme>>, NoMemory>
    ensures { IfOk result (λ o. AreAsked (map equation eqs.now) count (option_map (map scheme) o)) }
{
    let mut all = Items::new(alloc);
    for place in 0..count {
        match asked_of(alloc, MetaId(number(place)?), eqs)? {
            Some(value) => all.push(value)?,
            None => return Ok(None),
        }
    }
    Ok(Some(all))
}

/// Whether the left side becomes the right side.
fn becomes(alloc: Global, by: &Subst, one: &Equation) -> Result<bool, NoMemory>
    ensures { IfOk result (λ is. IsTrue is ↔ Becomes (substitution by.now).metas (substitution by.now).knowns (equation one.now)) }
{
    let made = apply_under(alloc, &one.left, by, one.scope.as_slice().len())?;
    Ok(same_scheme(&made, &one.right))
}

/// Whether each left side becomes its right side.
fn all_become(alloc: Global, by: &Subst, eqs: &[Equation]) -> Result<bool, NoMemory>
    ensures { IfOk result (λ are. IsTrue are ↔ AllByRecursion (Becomes (substitution by.now).metas (substitution by.now).knowns) (map equation eqs.now)) }
{
    for equation in eqs {
        if !becomes(alloc, by, equation)? {
            return Ok(false);
        }
    }
    Ok(true)
}

/// Whether each known variable keeps its number and each left side becomes its right side.
fn fits(alloc: Global, by: &Subst, from: &Scope, eqs: &[Equation]) -> Result<bool, NoMemory>
    ensures { IfOk result (λ is. IsTrue is ↔ (AllNumbered (λ k decl. IsKnownValue (substitution by.now) decl k) 0 (map known_variable from.now.knowns)
        × AllByRecursion (Becomes (substitution by.now).metas (substitution by.now).knowns) (map equation eqs.now))) }
{
    if !keep_numbers(alloc, by, from.knowns.as_slice())? {
        return Ok(false);
    }
    let equal = all_become(alloc, by, eqs)?;
    Ok(equal)
}

/// The one substitution of the names of `from` by schemes of `into` that makes each left side, which is over `from`, its right
/// side, which is over `into`, or none where there is none. Known variables keep their numbers.
pub fn fit_into(
    alloc: Global,
    sig: &Sig,
    from: &Scope,
    into: &Scope,
    eqs: &Vec<Equation>,
) -> Result<Option<Subst>, NoMemory>
    requires { AreToFitInto sig.now (names from.now) (names into.now) (map equation eqs.now.items) }
    ensures { IfOk result (λ answer. IsOnlyFitInto sig.now (names from.now) (names into.now) (map equation eqs.now.items) (option_map substitution answer)) }
{
    let Some(metas) = asked_of_all(alloc, from.metas.as_slice().len(), eqs.as_slice())? else {
        return Ok(None);
    };
    let mut by = identity_of(alloc, from)?;
    by.metas = metas;
    by.into = copy_scope(alloc, into)?;
    if fits(alloc, &by, from, eqs.as_slice())? {
        Ok(Some(by))
    } else {
        Ok(None)
    }
}
