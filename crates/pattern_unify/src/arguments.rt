//! The equations that a decompose leaves.
ghost use Rattle.std.specs.Prelude.{◌≡◌, ◌++◌, IfOk, map, reverse};
ghost use Rattle.binding_terms.specs.Signature.{binders, slots};
ghost use Rattle.binding_terms.specs.Scope.{bound};
ghost use Rattle.scheme_terms.specs.View.{scheme, scheme_parts};
ghost use Rattle.pattern_unify.specs.Equations.{equation};
ghost use Rattle.pattern_unify.specs.Move.{part_equations};

use crate::equation::Equation;
use binding_terms::{CatId, Item, NoMemory, binder_at};
use scheme_terms::{SArg, copy_scheme};
use sqlite_items::Items;
use std::alloc::Global;

/// The categories of the locals under a slot, whose binders are the innermost.
fn inner_scope(
    alloc: Global,
    scope: &[CatId],
    items: &[Item],
    binds: &[u32],
) -> Result<Items<CatId>, NoMemory>
    ensures { IfOk result (λ all. reverse (map (λ c. c.0) all) ≡ bound (binders items.now) binds.now ++ reverse (map (λ c. c.0) scope.now)) }
{
    let mut all = Items::from_slice(alloc, scope)?;
    for number in binds {
        all.push(binder_at(items, *number))?;
    }
    Ok(all)
}

fn part_equation(
    alloc: Global,
    scope: Items<CatId>,
    left: &SArg,
    right: &SArg,
) -> Result<Equation, NoMemory>
    ensures { IfOk result (λ e. equation e ≡ record { locals = reverse (map (λ c. c.0) scope); left = scheme left.now.body; right = scheme right.now.body }) }
{
    Ok(Equation {
        scope,
        left: copy_scheme(alloc, &left.body)?,
        right: copy_scheme(alloc, &right.body)?,
    })
}

/// The equations of the arguments of a production, each under its binders.
pub(crate) fn argument_equations(
    alloc: Global,
    scope: &[CatId],
    items: &[Item],
    lefts: &[SArg],
    rights: &[SArg],
) -> Result<Items<Equation>, NoMemory>
    ensures { IfOk result (λ all. map equation all ≡ part_equations (reverse (map (λ c. c.0) scope.now)) (binders items.now) (slots items.now) (scheme_parts lefts.now) (scheme_parts rights.now)) }
{
    let mut all = Items::new(alloc);
    let mut next = 0;
    for item in items {
        if let Item::Slot { cat: _, binds } = item {
            if next >= lefts.len() || next >= rights.len() {
                return Ok(all);
            }
            let inner = inner_scope(alloc, scope, items, binds.as_slice())?;
            all.push(part_equation(alloc, inner, &lefts[next], &rights[next])?)?;
            next += 1;
        }
    }
    Ok(all)
}
