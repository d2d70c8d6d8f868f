//! The rules and statements of a file.
#![tactic(auto)]

mod inputs;
mod items;
mod judgment;
mod laws;
mod names;
mod naming;
mod readings;
mod rules;
mod standing;
mod statements;
mod system;
mod words;

pub use laws::{readings_are_in_scope, signatures_spell_apart};
pub use readings::read_form;
pub use statements::statements_of;
pub use system::system_of;
