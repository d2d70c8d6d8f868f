//! Runs accepted proofs on derivations.
#![tactic(auto)]

mod grounding;
mod laws;
mod matching;
mod running;

pub use derivation_check::{InputValue, Inputs};
pub use laws::{value_derives, value_exists, value_is_one};
pub use matching::instantiates;
pub use running::{RunResult, run};
