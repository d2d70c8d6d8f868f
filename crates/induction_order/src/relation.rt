ghost use Rattle.std.specs.Prelude.{◌≡◌, ◌↔◌, IsTrue};
ghost use Rattle.induction_order.specs.Order.{below_of, IsSmaller};

/// How a derivation or term stands to a target.
#[derive(Clone, Copy, Debug, PartialEq, Eq)]
pub enum Rel {
    /// It is smaller than the target.
    Less,
    /// It is the target.
    Equal,
    /// Nothing is known.
    Unknown,
}

/// The relation of a part of what has this relation.
pub fn below(r: Rel) -> Rel
    ensures { result ≡ below_of r }
{
    match r {
        Rel::Less | Rel::Equal => Rel::Less,
        Rel::Unknown => Rel::Unknown,
    }
}

/// Whether a call with these relations to the targets is ordered: less at some target and equal at all before it, or equal at all where
/// the callee stands earlier in the group.
pub fn smaller(targets: &Vec<Rel>, earlier: bool) -> bool
    ensures { IsTrue result ↔ IsSmaller targets.now.items earlier }
{
    for rel in targets {
        match rel {
            Rel::Less => return true,
            Rel::Unknown => return false,
            Rel::Equal => {}
        }
    }
    earlier
}
