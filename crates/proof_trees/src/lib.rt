//! Right proofs as trees, what steps lead through them, and the values of proofs: the definitions, and laws about them.
#![tactic(auto)]

pub mod laws;
pub mod worked;
