// What a text has in place of an outline.
ghost use Rattle.std.specs.Prelude.{◌≡◌};
ghost use Rattle.outline_reader.specs.declared.fault.OutlineFault.TheVariants.{NoMemory};

use std::alloc::{AllocError, AllocFailed};

/// A part of a file. A block is a part from its `:` on, an inversion up to its `is`.
#[derive(Clone, Copy, Debug, PartialEq, Eq)]
pub enum Part {
    Terminals,
    Syntax,
    Judgment,
    Theorem,
    Lemma,
    Case,
    CaseAnalysis,
    Induction,
    Inversion,
}

/// What is counted.
#[derive(Clone, Copy, Debug, PartialEq, Eq)]
pub enum Limit {
    Categories,
    Productions,
    Rules,
    Theorems,
    Premises,
    Parameters,
    Entries,
    Targets,
    Levels,
}

/// Why a text has no outline within the limits.
#[derive(Clone, Copy, Debug, PartialEq, Eq)]
pub enum OutlineFault {
    /// The first token at which no outline goes on; tokens count from 0.
    Unexpected(u32),
    /// The text ended within this innermost part; the line is that of the last token.
    MissingEnd(u32, Part),
    /// A count passed its limit at this line.
    TooMany(u32, Limit),
    NoMemory,
}

impl From<AllocError> for OutlineFault {
    ghost from_gives = { λ _ e. e ≡ NoMemory };

    fn from(_failed: AllocError) -> OutlineFault {
        OutlineFault::NoMemory
    }
}

impl<T: Drop> From<AllocFailed<T>> for OutlineFault {
    ghost from_gives = { λ _ e. e ≡ NoMemory };

    fn from(_failed: AllocFailed<T>) -> OutlineFault {
        OutlineFault::NoMemory
    }
}
