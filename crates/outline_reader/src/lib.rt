//! The outline of a file, lent from its tokens.
#![tactic(auto)]

mod fault;
mod fields;
mod grammar;
mod laws;
mod limits;
mod machine;
mod parts;
mod portions;
mod reader;
mod sort;
mod symbols;

pub use fault::{Limit, OutlineFault, Part};
pub use laws::{
    fields_are_found, portions_are_filled, portions_are_stretches, portions_are_unique,
    portions_have_words, portions_or_fault, source_fault_is_unique, tokens_are_outlined,
};
pub use parts::{ArgText, Form, InputText, Just, Name, NamedForm, Outline, Portion};
pub use reader::outline;
pub use sort::is_reserved;
