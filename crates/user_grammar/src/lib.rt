//! The signature for which the grammar of a file stands.
#![tactic(auto)]

mod fault;
mod fault_assumed;
mod fault_context;
mod fault_declared;
mod fault_form;
mod fault_found;
mod fault_front;
mod fault_lists;
mod fault_names;
mod fault_place;
mod fault_tokens;
mod laws;
mod made;
mod made_forms;
mod made_productions;
mod made_tokens;
mod name_index;
mod name_lists;
mod names;
mod phase;
mod portions;
mod tokens;
mod worked;

pub use laws::{
    faultless_files_have_a_signature, faulty_files_have_no_signature, signatures_are_unique,
};
pub use names::category_of;
pub use phase::grammar;
pub use worked::lambda_stands_for_its_signature;
