//! Forms of rules and statements raised to the explicit entries of a context, put into a context, and with schemes for their names.
#![tactic(auto)]

mod entries;
mod forms;
pub mod laws;
mod placing;
mod raising;

pub use entries::entry_cats;
pub use forms::{raised_judgment, raised_rule};
pub use placing::{applied_judgment, form_in};
pub use raising::{raised_metas, raised_scheme};
