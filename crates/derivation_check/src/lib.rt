//! Derivations: trees of rules with their judgments, which may share subtrees, and the check of them.
#![tactic(auto)]

mod check;
mod deriv;
mod fault;
mod giving;
mod inputs;
mod judged;
pub mod laws;
mod leaf;
mod matching;
mod node;
mod pieces;
mod settled;

pub use check::check_deriv;
pub use deriv::Deriv;
pub use fault::DerivFault;
pub use giving::fits;
pub use inputs::{Fit, InputForm, InputValue, Inputs};
