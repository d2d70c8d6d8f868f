// Readings whose parts are shared, and which of two stands first.
ghost use Rattle.std.specs.Prelude.{◌≡◌, ◌↔◌, IsTrue, IfOk};
ghost use Rattle.rule_schemes.specs.Said.{ComesBefore, IsBefore, AreBefore};
ghost use Rattle.ordered_readings.specs.NodeView.{reading, row, made, values_of, slot_before};

use binding_terms::{NoMemory, ProdId};
use scheme_terms::MetaId;
use std::alloc::Global;
use std::rc::Rc;

/// What is made of the slots of a reading.
#[derive(Clone, Copy, Debug, PartialEq, Eq)]
pub enum Head {
    Meta(MetaId),
    Known(u32),
    Local(usize),
    Con(ProdId),
}

/// A reading: one in parentheses, or the number of its alternative, what is made of its slots, and these.
#[cycle(node)]
#[derive(Drop)]
pub enum Node {
    Group(Rc<Node>),
    Made(usize, Head, Row),
}

/// The readings of slots, from the left.
#[cycle(node)]
#[derive(Drop)]
pub enum Row {
    End,
    Slot(Rc<SlotCell>),
}

/// The reading of a slot of that length, which binds so many, before the others.
#[cycle(node)]
#[derive(Drop)]
pub struct SlotCell {
    pub length: usize,
    pub binds: usize,
    pub body: Node,
    pub rest: Row,
}

/// The same slots again.
pub fn share_row(slots: &Row) -> Result<Row, NoMemory>
    ensures { IfOk result (λ new. row new ≡ row slots.now) }
{
    match slots {
        Row::End => Ok(Row::End),
        Row::Slot(cell) => Ok(Row::Slot(cell.clone()?)),
    }
}

/// The same reading again, which shares its parts with the first.
pub fn share(node: &Node) -> Result<Node, NoMemory>
    ensures { IfOk result (λ new. reading new ≡ reading node.now) }
{
    match node {
        Node::Group(inside) => Ok(Node::Group(inside.clone()?)),
        Node::Made(alternative, head, slots) => {
            Ok(Node::Made(*alternative, *head, share_row(slots)?))
        }
    }
}

/// Whether the slots are as long, one by one.
fn same_lengths(one: &Row, other: &Row) -> bool
    ensures { IsTrue result ↔ ((row one.now).0 ≡ (row other.now).0) }
{
    match (one, other) {
        (Row::End, Row::End) => true,
        (Row::Slot(a), Row::Slot(b)) => a.length == b.length && same_lengths(&a.rest, &b.rest),
        _ => false,
    }
}

/// Whether the lengths of the slots come before the others'.
fn comes_before(one: &Row, other: &Row) -> bool
    ensures { IsTrue result ↔ ComesBefore (row one.now).0 (row other.now).0 }
{
    match (one, other) {
        (Row::Slot(a), Row::Slot(b)) => {
            if a.length != b.length {
                return a.length < b.length;
            }
            comes_before(&a.rest, &b.rest)
        }
        _ => false,
    }
}

/// Whether both readings stand at one place.
#[cycle(place)]
fn same_place(one: &Node, other: &Node) -> bool
    ensures { IsTrue result ↔ ((reading one.now).0 ≡ (reading other.now).0) }
{
    match (one, other) {
        (Node::Group(a), Node::Group(b)) => same_place(a.as_ref(), b.as_ref()),
        (Node::Made(a, _, r), Node::Made(b, _, q)) => {
            *a == *b && same_lengths(r, q) && same_places(r, q)
        }
        _ => false,
    }
}

/// Whether the slots' readings stand at the same places, one by one.
#[cycle(place)]
fn same_places(one: &Row, other: &Row) -> bool
    ensures { IsTrue result ↔ ((row one.now).1 ≡ (row other.now).1) }
{
    match (one, other) {
        (Row::End, Row::End) => true,
        (Row::Slot(a), Row::Slot(b)) => {
            same_place(&a.body, &b.body) && same_places(&a.rest, &b.rest)
        }
        _ => false,
    }
}

/// Whether the one reading stands before the other in the reading order.
#[cycle(before)]
#[tactic(auto, using(crate::proofs::Before::inside_tells))]
pub fn is_before(one: &Node, other: &Node) -> bool
    ensures { IsTrue result ↔ IsBefore (reading one.now).0 (reading other.now).0 }
{
    match (one, other) {
        (Node::Group(a), Node::Group(b)) => is_before(a.as_ref(), b.as_ref()),
        (Node::Group(_), Node::Made(b, _, _)) => 0 < *b,
        (Node::Made(_, _, _), Node::Group(_)) => false,
        (Node::Made(a, _, r), Node::Made(b, _, q)) => {
            if *a != *b {
                return *a < *b;
            }
            if !same_lengths(r, q) {
                return comes_before(r, q);
            }
            are_before(r, q)
        }
    }
}

/// Whether the slots' readings stand before the others': the first two that differ tell it.
#[cycle(before)]
#[tactic(auto, using(crate::proofs::Before::same_way))]
fn are_before(one: &Row, other: &Row) -> bool
    ensures { IsTrue result ↔ AreBefore (row one.now).1 (row other.now).1 }
{
    match (one, other) {
        (Row::Slot(a), Row::Slot(b)) => {
            if same_place(&a.body, &b.body) {
                return are_before(&a.rest, &b.rest);
            }
            is_before(&a.body, &b.body)
        }
        _ => false,
    }
}

/// What a reading says without the parentheses around it: what is made of which slots.
fn content(node: &Node) -> (Head, &Row)
    ensures { made result.0 (row result.1.now).2 ≡ (reading node.now).1 }
{
    match node {
        Node::Group(inside) => content(inside.as_ref()),
        Node::Made(_, head, slots) => (*head, slots),
    }
}

/// Whether both readings say the same.
#[cycle(said)]
pub fn same_scheme(one: &Node, other: &Node) -> bool
    ensures { IsTrue result ↔ ((reading one.now).1 ≡ (reading other.now).1) }
{
    match one {
        Node::Group(inside) => same_scheme(inside.as_ref(), other),
        Node::Made(_, head, slots) => {
            let (another, others) = content(other);
            same_made(slots, *head, others, another)
        }
    }
}

/// Whether the same is made of the slots.
#[cycle(said)]
fn same_made(one: &Row, head: Head, other: &Row, another: Head) -> bool
    ensures { IsTrue result ↔ (made head (row one.now).2 ≡ made another (row other.now).2) }
{
    match (head, another) {
        (Head::Meta(m), Head::Meta(n)) => m.0 == n.0 && same_values(one, other),
        (Head::Known(k), Head::Known(l)) => k == l,
        (Head::Local(i), Head::Local(j)) => i == j,
        (Head::Con(p), Head::Con(q)) => p.0 == q.0 && same_parts(one, other),
        _ => false,
    }
}

/// Whether the slots say the same as arguments of a metavariable.
#[cycle(said)]
fn same_values(one: &Row, other: &Row) -> bool
    ensures { IsTrue result ↔ (values_of (row one.now).2 ≡ values_of (row other.now).2) }
{
    match (one, other) {
        (Row::End, Row::End) => true,
        (Row::Slot(a), Row::Slot(b)) => {
            same_scheme(&a.body, &b.body) && same_values(&a.rest, &b.rest)
        }
        _ => false,
    }
}

/// Whether the slots say the same, under as many binders.
#[cycle(said)]
fn same_parts(one: &Row, other: &Row) -> bool
    ensures { IsTrue result ↔ ((row one.now).2 ≡ (row other.now).2) }
{
    match (one, other) {
        (Row::End, Row::End) => true,
        (Row::Slot(a), Row::Slot(b)) => {
            a.binds == b.binds && same_scheme(&a.body, &b.body) && same_parts(&a.rest, &b.rest)
        }
        _ => false,
    }
}

/// The slot of that length, which binds so many, before the other slots.
pub fn slot_before(
    alloc: Global,
    length: usize,
    binds: usize,
    first: &Node,
    rest: &Row,
) -> Result<Row, NoMemory>
    ensures { IfOk result (λ new. row new ≡ slot_before length binds (reading first.now) (row rest.now)) }
{
    let body = share(first)?;
    let rest = share_row(rest)?;
    let cell = SlotCell {
        length,
        binds,
        body,
        rest,
    };
    Ok(Row::Slot(Rc::new(alloc, cell)?))
}
