//! Which faults the judgments, the rules and the statements of a file have, as definitions, with laws on them.
#![tactic(auto)]

mod laws;

pub use laws::{judgments_have_their_codes, statements_have_their_codes};
