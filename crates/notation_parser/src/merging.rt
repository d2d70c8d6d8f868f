// The readings over contexts of several shapes, put together in the reading order: what is read in front of the context counts first.
ghost use Rattle.std.specs.Prelude.{◌≡◌, ◌↔◌, IsTrue, Some, ◌∷◌, map};
ghost use Rattle.rule_schemes.specs.Said.{AreBefore};
ghost use Rattle.term_reader.specs.PlaceView.{places};
ghost use Rattle.term_reader.specs.Firsts.{listed, IsFull};
ghost use Rattle.notation_parser.specs.Fronts.{IsEarlier, IsOther, then_next, AreTwoMerged, AreMerged, placed, next_placed};
ghost use Rattle.notation_parser.specs.View.{outcome};

use crate::outcomes::{Outcome, same_outcome};
use sqlite_items::Items;
use term_reader::{Firsts, Place, are_before};

/// A reading of a judgment over a context, with the places of the slots in front of the context.
#[derive(Drop)]
pub struct Placed {
    pub outcome: Outcome,
    pub front: Items<Place>,
}

/// Whether what stands in front of the context in the one comes before that in the other.
fn comes_before(one: &Placed, other: &Placed) -> bool
    ensures { IsTrue result ↔ AreBefore (places one.now.front) (places other.now.front) }
{
    are_before(one.front.as_slice(), other.front.as_slice())
}

/// The one whose front comes first, and the first where none does.
fn earlier(first: Option<Placed>, second: Option<Placed>) -> Option<Placed>
    ensures { IsEarlier AreBefore (next_placed first) (next_placed second) (next_placed result) }
{
    match (first, second) {
        (None, second) => second,
        (Some(a), None) => Some(a),
        (Some(a), Some(c)) => {
            if comes_before(&c, &a) {
                return Some(c);
            }
            Some(a)
        }
    }
}

/// The first of these two that says something else than the form.
fn other_than(form: &Outcome, first: Placed, second: Option<Placed>) -> Option<Placed>
    ensures { IsOther (outcome form.now) (placed first) (next_placed second) (next_placed result) }
{
    if same_outcome(&first.outcome, form) {
        return second;
    }
    Some(first)
}

fn with_next(first: Placed, next: Option<Placed>) -> Firsts<Placed>
    ensures { listed placed result ≡ then_next (placed first) (next_placed next) }
{
    match next {
        None => Firsts::One(first),
        Some(second) => Firsts::Two(first, second),
    }
}

fn two_merged(a: Placed, b: Option<Placed>, c: Placed, d: Option<Placed>) -> Firsts<Placed>
    ensures { AreTwoMerged AreBefore (placed a) (next_placed b) (placed c) (next_placed d) (listed placed result) }
{
    if comes_before(&c, &a) {
        let rest = other_than(&c.outcome, a, b);
        return with_next(c, earlier(rest, d));
    }
    let rest = other_than(&a.outcome, c, d);
    with_next(a, earlier(b, rest))
}

/// The first two of what stands in the first or in the second, where the first goes first if no front comes before another.
pub fn merged(first: Firsts<Placed>, second: Firsts<Placed>) -> Firsts<Placed>
    ensures { AreMerged AreBefore (listed placed first) (listed placed second) (listed placed result) }
{
    match (first, second) {
        (Firsts::Nothing, second) => second,
        (first, Firsts::Nothing) => first,
        (Firsts::One(a), Firsts::One(c)) => two_merged(a, None, c, None),
        (Firsts::One(a), Firsts::Two(c, d)) => two_merged(a, None, c, Some(d)),
        (Firsts::Two(a, b), Firsts::One(c)) => two_merged(a, Some(b), c, None),
        (Firsts::Two(a, b), Firsts::Two(c, d)) => two_merged(a, Some(b), c, Some(d)),
    }
}

/// Whether there are two.
pub fn are_full(found: &Firsts<Placed>) -> bool
    ensures { IsTrue result ↔ IsFull found.now }
{
    match found {
        Firsts::Nothing => false,
        Firsts::One(_) => false,
        Firsts::Two(_, _) => true,
    }
}

/// The readings alone.
pub fn outcomes(found: Firsts<Placed>) -> Firsts<Outcome>
    ensures { listed outcome result ≡ map (λ a. a.0) (listed placed found) }
{
    match found {
        Firsts::Nothing => Firsts::Nothing,
        Firsts::One(a) => Firsts::One(a.outcome),
        Firsts::Two(a, b) => Firsts::Two(a.outcome, b.outcome),
    }
}
