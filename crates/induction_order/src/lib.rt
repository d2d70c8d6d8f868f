//! Relations between derivations or terms and the targets of an induction, and calls in order.
#![tactic(auto)]

mod binders;
pub mod laws;
mod relation;
mod renaming;
mod term;

pub use relation::{Rel, below, smaller};
pub use term::term_rel;
