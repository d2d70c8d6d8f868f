// Places in the reading order, and which comes first.
ghost use Rattle.std.specs.Prelude.{◌≡◌, ◌↔◌, IsTrue, IfOk, []};
ghost use Rattle.rule_schemes.specs.Said.{ComesBefore, IsBefore, AreBefore, way, then_way, no_ways};
ghost use Rattle.term_reader.specs.PlaceView.{place, places};

use binding_terms::NoMemory;
use sqlite_items::Items;
use std::alloc::Global;

/// The place of a reading in the reading order: its alternative, the lengths of its slots from the left, and the places of the slots'
/// own readings.
#[cycle(place)]
#[derive(Drop)]
pub struct Place {
    pub alternative: usize,
    pub lengths: Items<usize>,
    pub inner: Items<Place>,
}

/// The place of a form in parentheses.
pub fn grouped(alloc: Global, inside: Place) -> Result<Place, NoMemory>
    ensures { IfOk result (λ new. place new ≡ way 0 [] (then_way (place inside) no_ways)) }
{
    let mut inner = Items::new(alloc);
    inner.push(inside)?;
    Ok(Place {
        alternative: 0,
        lengths: Items::new(alloc),
        inner,
    })
}

fn same_lengths(one: &[usize], other: &[usize]) -> bool
    ensures { IsTrue result ↔ (one.now ≡ other.now) }
{
    one == other
}

/// Whether the one place is the other.
#[cycle(same)]
fn is_same(one: &Place, other: &Place) -> bool
    ensures { IsTrue result ↔ (place one.now ≡ place other.now) }
{
    if one.alternative != other.alternative {
        return false;
    }
    if !same_lengths(one.lengths.as_slice(), other.lengths.as_slice()) {
        return false;
    }
    are_same(one.inner.as_slice(), other.inner.as_slice())
}

/// Whether the places are the same, one by one.
#[cycle(same)]
pub fn are_same(one: &[Place], other: &[Place]) -> bool
    ensures { IsTrue result ↔ (places one.now ≡ places other.now) }
{
    if one.len() != other.len() {
        return false;
    }
    for i in 0..one.len() {
        if !is_same(&one[i], &other[i]) {
            return false;
        }
    }
    true
}

/// Whether the first list of lengths comes before the second.
fn comes_before(one: &[usize], other: &[usize]) -> bool
    ensures { IsTrue result ↔ ComesBefore one.now other.now }
{
    for i in 0..one.len() {
        if i == other.len() {
            return false;
        }
        if one[i] != other[i] {
            return one[i] < other[i];
        }
    }
    false
}

/// Whether the one place stands before the other in the reading order.
#[cycle(before)]
pub fn is_before(one: &Place, other: &Place) -> bool
    ensures { IsTrue result ↔ IsBefore (place one.now) (place other.now) }
{
    if one.alternative != other.alternative {
        return one.alternative < other.alternative;
    }
    if !same_lengths(one.lengths.as_slice(), other.lengths.as_slice()) {
        return comes_before(one.lengths.as_slice(), other.lengths.as_slice());
    }
    are_before(one.inner.as_slice(), other.inner.as_slice())
}

/// Whether the one list of places stands before the other: the first two that differ tell it.
#[cycle(before)]
pub fn are_before(one: &[Place], other: &[Place]) -> bool
    ensures { IsTrue result ↔ AreBefore (places one.now) (places other.now) }
{
    for i in 0..one.len() {
        if i == other.len() {
            return false;
        }
        if !is_same(&one[i], &other[i]) {
            return is_before(&one[i], &other[i]);
        }
    }
    false
}
