//! Reads the terms and the rows of items of a written form, in every way that a user's grammar allows, cell by cell.
#![tactic(auto)]

mod form;
mod reader;
mod sheet;
mod simple;
mod table;
mod variables;
mod words;

pub use form::{Form, words_at};
pub use reader::{rows, terms};
pub use sheet::Sheet;
pub use simple::{all_in_parentheses, at_end, bound_variable};
pub use table::Table;
pub use variables::{Meaning, Var, scope_variables, slot_scope};
pub use words::{is_any_word, is_binder, is_punctuation, is_terminal, is_word};
