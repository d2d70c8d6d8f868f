//! Written cases against the choices of a case analysis: which choice is missing, what a most general case is, and worked ones.
#![tactic(auto)]

mod open_choices;
pub mod worked;
mod written;

pub use open_choices::{is_possible, missing, missing_term};
pub use written::{WrittenCase, WrittenTermCase};
