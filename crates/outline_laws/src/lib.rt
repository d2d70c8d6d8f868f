//! What the outline of a source says, in the subject's words.
#![tactic(auto)]

mod laws;

pub use laws::{portions_are_nested, portions_are_ordered, syntax_has_categories};
