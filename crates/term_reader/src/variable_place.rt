// The place of a variable.
ghost use Rattle.std.specs.Prelude.{◌≡◌, ◌≤◌, [], length, slice_range};
ghost use Rattle.scheme_terms.specs.View.{scheme};
ghost use Rattle.rule_schemes.specs.Said.{IsBefore, way, no_ways};
ghost use Rattle.term_reader.specs.Cases.{IsVariable};
ghost use Rattle.term_reader.specs.Splitting.{tokens_of};
ghost use Rattle.term_reader.specs.View.{in_scope};
ghost use Rattle.term_reader.specs.FirstPlace.{IsFirstPlace};
ghost use Rattle.term_reader.specs.PlaceView.{place};

use crate::places::Place;
use crate::sheet::Sheet;
use crate::variables::{Var, innermost};
use crate::words::is_any_word;
use binding_terms::CatId;
use scheme_terms::{Scheme, same_scheme};
use sqlite_items::Items;
use std::alloc::Global;

fn of_variable(alloc: Global) -> Place
    ensures { place result ≡ way 2 [] no_ways }
{
    Place {
        alternative: 2,
        lengths: Items::new(alloc),
        inner: Items::new(alloc),
    }
}

/// The place as a variable in scope that is that term.
pub fn as_variable(
    alloc: Global,
    sheet: &Sheet<'_>,
    vars: &[Var<'_>],
    cat: CatId,
    from: usize,
    to: usize,
    term: &Scheme,
) -> Option<Place>
    requires range { (from ≤ to) × (to ≤ length sheet.now.tokens.now) }
    ensures { IsFirstPlace IsBefore
        (λ w s. IsVariable (in_scope vars.now) cat.0 (slice_range (tokens_of sheet.now) from to) w s × (s ≡ scheme term.now))
        place result }
{
    if to - from != 1 {
        return None;
    }
    if !is_any_word(&sheet.tokens[from]) {
        return None;
    }
    match innermost(vars, cat, sheet.tokens[from].text.as_bytes()) {
        Some(found) => {
            if !same_scheme(&found, term) {
                return None;
            }
            Some(of_variable(alloc))
        }
        None => None,
    }
}
