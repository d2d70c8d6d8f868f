//! Schemes, contexts and judgments as text.
#![tactic(auto)]

mod context;
mod judgment;
mod labels;
mod page;
mod show;
mod term;
mod words;

pub use show::{show_context, show_judgment, show_scheme};
