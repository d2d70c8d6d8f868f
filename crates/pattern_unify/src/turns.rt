//! The turn that a run takes next.
ghost use Rattle.std.specs.Prelude.{IfOk, map, option_map};
ghost use Rattle.scheme_terms.specs.View.{names};
ghost use Rattle.pattern_unify.specs.Equations.{equation};
ghost use Rattle.pattern_unify.specs.Found.{found, IsFound};

use crate::equation::Equation;
use crate::moves::{Row, Way, first_move};
use binding_terms::NoMemory;
use scheme_terms::Scope;
use std::alloc::Global;

/// Where the next move is made, its row and its direction.
#[derive(Clone, Copy)]
pub(crate) struct Found {
    pub place: usize,
    pub row: Row,
    pub way: Way,
}

/// The first equation to which a move applies, and for it the first move of the table that applies; none where no move applies to any.
pub(crate) fn next_move(
    alloc: Global,
    scope: &Scope,
    eqs: &[Equation],
) -> Result<Option<Found>, NoMemory>
    ensures { IfOk result (λ o. IsFound (names scope.now) (map equation eqs.now) (option_map found o)) }
{
    for place in 0..eqs.len() {
        if let Some((row, way)) = first_move(alloc, scope, &eqs[place])? {
            return Ok(Some(Found { place, row, way }));
        }
    }
    Ok(None)
}
