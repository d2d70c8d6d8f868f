//! Whole files: the core steps of written proofs, and right files.
#![tactic(auto)]

mod bare;
mod cited;
mod faults;
mod file;
mod forms;
mod judge;
mod laws;
mod names;
mod occurrences;
mod places;
mod proofs;
mod scope;
mod spelling;
mod step;
mod telling;
mod unbuilt;
mod variables;

pub use judge::{Judged, judge_file};
pub use laws::grammars_are_files;
pub use proofs::steps_of;
