//! Whether schemes, entries and forms of judgments are over a scope of names.
#![tactic(auto)]

mod arguments;
mod entries;
mod form;
mod locals;
mod scheme;

pub use form::is_form;
pub use scheme::is_scheme;
