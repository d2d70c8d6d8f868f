// The shapes of contexts that write a known variable of the scope, with its own entry.
ghost use Rattle.std.specs.Prelude.{◌≡◌, ◌↔◌, ◌<◌, IfOk, IsTrue, map, length};
ghost use Rattle.std.specs.List.{AllByRecursion};
ghost use Rattle.scheme_terms.specs.View.{known_variable};
ghost use Rattle.term_reader.specs.Splitting.{split};
ghost use Rattle.notation_parser.specs.Shapes.{context_shape};
ghost use Rattle.notation_parser.specs.ContextCases.{IsEntryBy, IsScopeShape, AreScopeShapes};

use crate::knowns::known_number;
use crate::shaping::{KnownEntry, Shape, Start, alone};
use binding_terms::{NoMemory, ProdId};
use scheme_terms::KnownDecl;
use sqlite_items::{Items, at};
use std::alloc::Global;
use term_reader::Split;

/// Whether there is a known variable with that number, and its entry is of the production.
fn is_entry_by(knowns: &[KnownDecl], number: usize, prod: ProdId) -> bool
    ensures { IsTrue result ↔ IsEntryBy (map known_variable knowns.now) number prod.0 }
{
    match at(knowns, number) {
        Some(found) => found.entry.prod.0 == prod.0,
        None => false,
    }
}

/// The shape of a split, where its variable's word is the name of a known variable whose entry is of the production.
fn scope_shape<'a>(
    alloc: Global,
    knowns: &[KnownDecl],
    prod: ProdId,
    found: &Split<'a>,
) -> Result<Items<Shape<'a>>, NoMemory>
    requires { 0 < length found.now.own }
    ensures { IfOk result
        (λ all. IsScopeShape (map known_variable knowns.now) prod.0 (split found.now) (map context_shape all)) }
{
    let number = known_number(knowns, found.own.as_slice()[0].word);
    if !is_entry_by(knowns, number, prod) {
        return Ok(Items::new(alloc));
    }
    let slots = Items::from_slice(alloc, found.slots.as_slice())?;
    alone(
        alloc,
        Start::Known(KnownEntry {
            prod,
            number,
            slots,
        }),
    )
}

/// The shapes of the splits.
pub fn scope_of_each<'a>(
    alloc: Global,
    knowns: &[KnownDecl],
    prod: ProdId,
    found: &[Split<'a>],
) -> Result<Items<Shape<'a>>, NoMemory>
    requires { AllByRecursion (λ d. 0 < length d.0) (map split found.now) }
    ensures { IfOk result
        (λ all. AreScopeShapes (map known_variable knowns.now) prod.0 (map split found.now) (map context_shape all)) }
{
    let mut all = Items::new(alloc);
    for one in found {
        all.append(scope_shape(alloc, knowns, prod, one)?)?;
    }
    Ok(all)
}
