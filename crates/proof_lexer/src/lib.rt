//! The tokens of a text, lent from it.
#![tactic(auto)]

mod characters;
mod cursor;
mod fault;
mod front;
mod laws;
mod lexer;
mod line;
mod run;
mod token;

pub use fault::LexFault;
pub use laws::{tokens_are_unique, tokens_or_fault, tokens_stand_in_source};
pub use lexer::lex;
pub use line::source_line;
pub use run::is_numeral;
pub use token::{Kind, Token};
