use crate::rule::{JudgId, RuleId};
use binding_terms::NoMemory;
use scheme_terms::MetaId;
use std::alloc::AllocFailed;

/// Why a rule was refused. The first of these that stands is the answer.
#[derive(Clone, Copy, Debug, PartialEq, Eq)]
pub enum RuleFault {
    /// The conclusion has neither the bare context nor the form of an assumption rule's.
    BadConclusion,
    /// The first metavariable without a strict occurrence; for an assumption rule, without one in its entry.
    NotStrict(MetaId),
    /// The judgment of the first premise without a context that may not stand in a rule about contexts.
    NeedsContext(JudgId),
    /// The earlier assumption rule of the same production.
    TwoAssumptions(RuleId),
    /// There was no memory for the rule.
    NoMemory,
}

/// Why a statement is at fault. The first of these that stands is the answer.
#[derive(Clone, Copy, Debug, PartialEq, Eq)]
pub enum StatementFault {
    /// The first metavariable without the strict occurrence that is asked of it.
    NotStrict(MetaId),
    /// The judgment of the first form without a context that may not stand in a statement about contexts, inputs first.
    NeedsContext(JudgId),
}

impl From<NoMemory> for RuleFault {
    ghost use Rattle.rule_schemes.specs.declared.fault.RuleFault.TheVariants as faults;
    ghost use Rattle.std.specs.Prelude.{◌≡◌};

    ghost from_gives = { λ _ fault. fault ≡ faults.NoMemory };

    fn from(_none: NoMemory) -> RuleFault {
        RuleFault::NoMemory
    }
}

impl<T: Drop> From<AllocFailed<T>> for RuleFault {
    ghost use Rattle.rule_schemes.specs.declared.fault.RuleFault.TheVariants as faults;
    ghost use Rattle.std.specs.Prelude.{◌≡◌};

    ghost from_gives = { λ _ fault. fault ≡ faults.NoMemory };

    fn from(_failed: AllocFailed<T>) -> RuleFault {
        RuleFault::NoMemory
    }
}
