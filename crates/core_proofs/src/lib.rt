//! Proofs whose every kept step is right.
#![tactic(auto)]

mod accepted;
mod citing;
mod form;
mod goal;
mod laws;
mod proving;
mod rule_step;
mod scoping;
mod step;

pub use accepted::Accepted;
pub use goal::has_goal;
pub use laws::{
    makes_derives, proofs_are_trees, rule_step_derives, steps_lead_to_one, values_are_of_trees,
};
pub use proving::Proving;
pub use rule_step::is_rule_instance;
pub use scoping::{has_proof_scope, proof_scope};
pub use step::{CoreStep, StepId};
