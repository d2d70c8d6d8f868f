//! Reads the terms of a written form in every way that a user's grammar allows, and tells where in the reading order a term is read.
#![tactic(auto)]

mod brackets;
mod chart;
mod counting;
mod firsts;
mod places;
mod placing;
mod reading;
mod sheet;
mod splitting;
mod variable_place;
mod variables;
mod words;

pub use chart::Chart;
pub use firsts::Firsts;
pub use places::{Place, are_before, are_same, is_before};
pub use placing::{place_of, places_of};
pub use reading::{Head, bodies, in_splits, parts, terms};
pub use sheet::Sheet;
pub use splitting::{Piece, Split, splits};
pub use variables::{Meaning, Var, scope_variables};
pub use words::{is_any_word, is_word};
