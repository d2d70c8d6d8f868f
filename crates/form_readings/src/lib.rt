//! Readings of contexts, judgments and of what is wanted, and the order in which they stand.
#![tactic(auto)]

mod contexts;
mod laws;

pub use contexts::{Context, bodies_of, context_of};
pub use laws::{contexts_are_ordered, readings_of_forms_are_ordered};
