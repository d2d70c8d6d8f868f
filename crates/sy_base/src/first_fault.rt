// A fault that was found, and the earlier of two.
ghost use Rattle.std.specs.Prelude.{◌≡◌, ◌↔◌, IsTrue, IfOk};
ghost use Rattle.sy_base.specs.FirstFault.{IsEarlierOf, IsOneOf, IsToldFirst, Says, own_place};
ghost use Rattle.sy_base.specs.Rank.{RanksAreDifferent, RanksArePlaces};

use crate::fault::{Code, Fault};
use binding_terms::{NoMemory, Text};
use std::alloc::Global;

/// Where a fault stands: the line on which it counts, the line with which it is told, and its place in the text, in bytes.
#[derive(Clone, Copy, Debug, PartialEq, Eq)]
pub struct Place {
    pub counts_on: u32,
    pub line: u32,
    pub from: usize,
}

impl Place {
    /// The place of a fault that counts on its own line.
    pub fn own(line: u32, from: usize) -> Place
        ensures { result ≡ own_place line from }
    {
        Place {
            counts_on: line,
            line,
            from,
        }
    }
}

/// A fault that was found: where it stands, its code, and what its detail is made of.
#[derive(Drop)]
pub struct Found<D> {
    pub place: Place,
    pub code: Code,
    pub detail: D,
}

/// Whether a code at a place is told before another one, or stands where that one does.
pub fn is_told_first(code: Code, place: Place, other: Code, at: Place) -> bool
    ensures { IsTrue result ↔ IsToldFirst code place other at }
{
    if place.counts_on != at.counts_on {
        return place.counts_on < at.counts_on;
    }
    if code.rank() != other.rank() {
        return code.rank() < other.rank();
    }
    place.from <= at.from
}

fn earlier_of<D: Drop>(found: Found<D>, other: Found<D>) -> Found<D>
    ensures { IsOneOf found other result }
{
    if is_told_first(found.code, found.place, other.code, other.place) {
        return found;
    }
    other
}

/// The earlier of two faults, where there are two.
pub fn earlier<D: Drop>(found: Option<Found<D>>, other: Option<Found<D>>) -> Option<Found<D>>
    ensures { IsEarlierOf found other result }
{
    let Some(one) = found else {
        return other;
    };
    match other {
        Some(two) => Some(earlier_of(one, two)),
        None => Some(one),
    }
}

/// The fault of this code on this line, with these words.
pub fn fault_of(alloc: Global, line: u32, code: Code, words: &[u8]) -> Result<Fault, NoMemory>
    ensures { IfOk result (λ fault. Says fault line code words.now) }
{
    Ok(Fault {
        line,
        code,
        detail: Text::of(alloc, words)?,
    })
}

/// Each code stands at its rank in the table of the codes.
pub fn ranks_are_places()
    ensures { RanksArePlaces }
{}

/// No two codes have one rank.
pub fn ranks_are_different()
    ensures { RanksAreDifferent }
{}
