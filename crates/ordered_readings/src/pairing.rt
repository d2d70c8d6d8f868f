// Readings of a slot before readings of what stands behind it.
ghost use Rattle.std.specs.Prelude.{◌≡◌, IfOk, [], ◌∷◌, map};
ghost use Rattle.rule_schemes.specs.Said.{Way, IsBefore};
ghost use Rattle.scheme_terms.specs.SchemeTree.{SchemeTree};
ghost use Rattle.ordered_readings.specs.NodeView.{reading};
ghost use Rattle.ordered_readings.specs.AnswerView.{answers, behind, IsRow, AreRows};
ghost use Rattle.ordered_readings.specs.FirstTwo.{AreInOrder, AreComparable, AreFirstOf, IsOneOf, pairs};

use crate::answers::{Answers, joined};
use crate::node::{Node, slot_before};
use binding_terms::NoMemory;
use std::alloc::Global;

/// The reading of a slot of that length, which binds so many, before that of what stands behind it.
fn paired(
    alloc: Global,
    length: usize,
    binds: usize,
    first: &Node,
    rest: &Node,
) -> Result<Node, NoMemory>
    ensures { IfOk result (λ new. IsRow (reading rest.now).0 → reading new ≡ behind length binds (reading first.now) (reading rest.now)) }
{
    match rest {
        Node::Group(inside) => Ok(Node::Group(inside.clone()?)),
        Node::Made(alternative, head, slots) => {
            let slots = slot_before(alloc, length, binds, first, slots)?;
            Ok(Node::Made(*alternative, *head, slots))
        }
    }
}

/// The one reading of a slot before each of the others.
fn before_each(
    alloc: Global,
    length: usize,
    binds: usize,
    first: &Node,
    rests: &Answers,
) -> Result<Answers, NoMemory>
    ensures { IfOk result (λ new. AreRows (answers rests.now) → answers new ≡ map (behind length binds (reading first.now)) (answers rests.now)) }
{
    match rests {
        Answers::Nothing => Ok(Answers::Nothing),
        Answers::One(a) => Ok(Answers::One(paired(alloc, length, binds, first, a)?)),
        Answers::Two(a, b) => {
            let one = paired(alloc, length, binds, first, a)?;
            let two = paired(alloc, length, binds, first, b)?;
            Ok(Answers::Two(one, two))
        }
    }
}

/// The first two of the readings of a slot, each before each of what stands behind it.
pub fn product(
    alloc: Global,
    length: usize,
    binds: usize,
    firsts: &Answers,
    rests: &Answers,
) -> Result<Answers, NoMemory>
    ensures { IfOk result
        (λ new. AreRows (answers rests.now)
        → ((d : Way × SchemeTree) → IsOneOf d (answers firsts.now) → AreInOrder IsBefore (map (behind length binds d) (answers rests.now)))
        → AreComparable IsBefore (pairs (behind length binds) (answers firsts.now) (answers rests.now))
        → AreFirstOf IsBefore (pairs (behind length binds) (answers firsts.now) (answers rests.now)) (answers new)) }
{
    match firsts {
        Answers::Nothing => Ok(Answers::Nothing),
        Answers::One(a) => {
            let one = before_each(alloc, length, binds, a, rests)?;
            Ok(one)
        }
        Answers::Two(a, b) => {
            let one = before_each(alloc, length, binds, a, rests)?;
            let two = before_each(alloc, length, binds, b, rests)?;
            Ok(joined(two, one))
        }
    }
}
