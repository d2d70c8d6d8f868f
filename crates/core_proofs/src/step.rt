// The steps of proofs.
use rule_schemes::{JScheme, RuleId, TheoremId};
use sqlite_items::Items;

/// A step of a proof with a judgment, by its number: the given inputs first, then the steps, from 0 in each theorem.
#[derive(Clone, Copy, Debug, PartialEq, Eq)]
pub struct StepId(pub u32);

/// A step of a proof, with the line on which it stands, counted from 1.
#[derive(Drop)]
pub enum CoreStep {
    /// The proof of a theorem begins.
    Begin(TheoremId),
    /// The proof ends.
    End {
        line: u32,
    },
    /// The form comes by a rule from the cited steps.
    Rule {
        line: u32,
        form: JScheme,
        rule: RuleId,
        on: Items<StepId>,
    },
}
