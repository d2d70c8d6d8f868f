//! Patterns against ground terms.
#![tactic(auto)]

mod asked;
mod context;
mod equal;
mod matcher;
mod pair;

pub use context::{copy_context, same_entries};
pub use matcher::Matcher;
