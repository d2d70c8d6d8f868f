//! Reads a written form in every way that a user's grammar allows.
#![tactic(auto)]

mod around;
mod contexts;
mod copies;
mod heads;
mod in_context;
mod judgments;
mod known_entries;
mod known_scope;
mod knowns;
mod merging;
mod new_names;
mod occurring;
mod outcomes;
mod over;
mod parameters;
mod plain;
mod reader;
mod renumbering;
mod sameness;
mod scope_entries;
mod shaping;
mod spelling;
mod used;

pub use plain::{is_plain, is_readable};
pub use reader::read;
pub use rule_schemes::{Fresh, ReadScope, Reading, Said, Want, Written};
