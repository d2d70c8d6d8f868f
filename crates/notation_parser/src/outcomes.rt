// What forms of what is wanted say, as it is read.
ghost use Rattle.std.specs.Prelude.{◌≡◌, ◌↔◌, IsTrue, [], ◌∷◌};
ghost use Rattle.term_reader.specs.Firsts.{listed, AreJoined, IsFull};
ghost use Rattle.notation_parser.specs.View.{outcome};

use crate::sameness::{same_knowns, same_written};
use rule_schemes::Written;
use scheme_terms::KnownDecl;
use sqlite_items::Items;
use term_reader::Firsts;

/// What a form writes, and the known variable that a context in it writes.
#[derive(Drop)]
pub struct Outcome {
    pub written: Written,
    pub knowns: Items<KnownDecl>,
}

/// Whether both say the same.
pub fn same_outcome(a: &Outcome, b: &Outcome) -> bool
    ensures { IsTrue result ↔ (outcome a.now ≡ outcome b.now) }
{
    same_written(&a.written, &b.written) && same_knowns(a.knowns.as_slice(), b.knowns.as_slice())
}

/// Whether there are two.
pub fn are_two(found: &Firsts<Outcome>) -> bool
    ensures { IsTrue result ↔ IsFull found.now }
{
    match found {
        Firsts::Nothing => false,
        Firsts::One(_) => false,
        Firsts::Two(_, _) => true,
    }
}

/// The first two of what stands in the first or in the second.
pub fn both(first: Firsts<Outcome>, second: Firsts<Outcome>) -> Firsts<Outcome>
    ensures { AreJoined (listed outcome first) (listed outcome second) (listed outcome result) }
{
    match first {
        Firsts::Nothing => second,
        Firsts::One(a) => one_and(a, second),
        Firsts::Two(a, b) => Firsts::Two(a, b),
    }
}

fn one_and(a: Outcome, second: Firsts<Outcome>) -> Firsts<Outcome>
    ensures { AreJoined (outcome a ∷ []) (listed outcome second) (listed outcome result) }
{
    match second {
        Firsts::Nothing => Firsts::One(a),
        Firsts::One(b) => {
            if same_outcome(&a, &b) {
                return Firsts::One(a);
            }
            Firsts::Two(a, b)
        }
        Firsts::Two(b, c) => {
            if same_outcome(&a, &b) {
                return Firsts::Two(a, c);
            }
            Firsts::Two(a, b)
        }
    }
}
