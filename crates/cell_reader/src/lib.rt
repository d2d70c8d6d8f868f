//! Reads contexts cell by cell, in every way that a user's grammar allows.
#![tactic(auto)]

mod contexts;
mod knowns;
mod testing;

pub use contexts::{Outside, context};
pub use knowns::{known_variables, rooted_variables, with_knowns};
