use binding_terms::NoMemory;
use sqlite_items::Items;

/// Why a tree was not accepted.
#[derive(Drop)]
pub enum DerivFault {
    /// It is no derivation: the first node in pre-order that is not right, by the numbers of the premises that lead to it. They
    /// count from 0.
    BadNode(Items<u32>),
    /// There was no memory to look at it.
    NoMemory,
}

impl From<NoMemory> for DerivFault {
    ghost use Rattle.derivation_check.specs.declared.fault.DerivFault.TheVariants as faults;
    ghost use Rattle.std.specs.Prelude.{◌≡◌};

    ghost from_gives = { λ _ fault. fault ≡ faults.NoMemory };

    fn from(_none: NoMemory) -> DerivFault {
        DerivFault::NoMemory
    }
}
