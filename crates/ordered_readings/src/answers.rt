// The first two readings of something.
ghost use Rattle.std.specs.Prelude.{◌≡◌, ◌↔◌, IsTrue, IfOk, [], ◌∷◌, ◌++◌, length};
ghost use Rattle.rule_schemes.specs.Said.{IsBefore};
ghost use Rattle.ordered_readings.specs.NodeView.{reading};
ghost use Rattle.ordered_readings.specs.AnswerView.{answers};
ghost use Rattle.ordered_readings.specs.FirstTwo.{AreInOrder, AreComparable, AreFirstOf};

use crate::node::{Node, is_before, same_scheme, share};
use binding_terms::NoMemory;

/// The first two of several readings, or fewer where there are fewer.
#[derive(Drop)]
pub enum Answers {
    Nothing,
    One(Node),
    Two(Node, Node),
}

/// The same answers again, which share their parts with the first.
pub fn share_answers(found: &Answers) -> Result<Answers, NoMemory>
    ensures { IfOk result (λ new. answers new ≡ answers found.now) }
{
    match found {
        Answers::Nothing => Ok(Answers::Nothing),
        Answers::One(a) => Ok(Answers::One(share(a)?)),
        Answers::Two(a, b) => Ok(Answers::Two(share(a)?, share(b)?)),
    }
}

/// Whether there are two.
pub fn is_full(found: &Answers) -> bool
    ensures { IsTrue result ↔ (length (answers found.now) ≡ 2) }
{
    match found {
        Answers::Nothing => false,
        Answers::One(_) => false,
        Answers::Two(_, _) => true,
    }
}

/// Whether there are none.
pub fn is_none(found: &Answers) -> bool
    ensures { IsTrue result ↔ (answers found.now ≡ []) }
{
    match found {
        Answers::Nothing => true,
        Answers::One(_) => false,
        Answers::Two(_, _) => false,
    }
}

/// The one reading and another.
fn after_one(a: Node, new: Node) -> Answers
    ensures { AreComparable IsBefore (reading new ∷ reading a ∷ [])
        → AreFirstOf IsBefore (reading new ∷ reading a ∷ []) (answers result) }
{
    let sooner = is_before(&new, &a);
    if same_scheme(&new, &a) {
        if sooner {
            return Answers::One(new);
        }
        return Answers::One(a);
    }
    if sooner {
        return Answers::Two(new, a);
    }
    Answers::Two(a, new)
}

/// Two readings in order and another.
fn after_two(a: Node, b: Node, new: Node) -> Answers
    ensures { AreInOrder IsBefore (reading a ∷ reading b ∷ []) → AreComparable IsBefore (reading new ∷ reading a ∷ reading b ∷ [])
        → AreFirstOf IsBefore (reading new ∷ reading a ∷ reading b ∷ []) (answers result) }
{
    let sooner = is_before(&new, &a);
    if same_scheme(&new, &a) {
        if sooner {
            return Answers::Two(new, b);
        }
        return Answers::Two(a, b);
    }
    if sooner {
        return Answers::Two(new, a);
    }
    if is_before(&new, &b) {
        return Answers::Two(a, new);
    }
    Answers::Two(a, b)
}

/// The first two with one more.
pub fn added(found: Answers, new: Node) -> Answers
    ensures { AreInOrder IsBefore (answers found) → AreComparable IsBefore (reading new ∷ answers found)
        → AreFirstOf IsBefore (reading new ∷ answers found) (answers result) }
{
    match found {
        Answers::Nothing => Answers::One(new),
        Answers::One(a) => after_one(a, new),
        Answers::Two(a, b) => after_two(a, b, new),
    }
}

/// The first two of both together.
pub fn joined(found: Answers, more: Answers) -> Answers
    ensures { AreInOrder IsBefore (answers found) → AreComparable IsBefore (answers more ++ answers found)
        → AreFirstOf IsBefore (answers more ++ answers found) (answers result) }
{
    match more {
        Answers::Nothing => found,
        Answers::One(a) => added(found, a),
        Answers::Two(a, b) => added(added(found, b), a),
    }
}
