//! Judgments and derivations as text, both ways.
#![tactic(auto)]

mod arguments;
mod cited;
mod context;
mod derivation;
mod derivs;
mod ending;
mod inputs;
mod judgment;
mod laws;
mod line;
mod making;
mod names;
mod node;
mod page;
mod reader;
mod reading;
mod same;
mod signs;
mod split;
mod term;
mod words;
mod worked;

pub use derivation::print_derivs;
pub use derivs::{Argument, Derivs, Ending, Kept, Named};
pub use judgment::print_judgment;
pub use laws::{inputs_are_unique, texts_are_unique, valid_lines_have_no_fault, values_are_given};
pub use reader::read_derivs;
pub use worked::{binders_are_written, chain_is_derived, contexts_are_written, sums_are_written};
