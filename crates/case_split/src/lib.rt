//! The choices of a case analysis: what they are, and worked ones. The calls that find them are to come.
#![tactic(auto)]

mod choice;
pub mod worked;

pub use choice::{Choice, Outcome, Place, TermChoice};
