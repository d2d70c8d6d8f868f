//! The kernel of proofs: what is in scope at a place of a proof, and small tests of one step each.
#![tactic(auto)]

mod again;
mod beginning;
mod blocks;
mod can_stand;
mod citing;
mod equating;
mod form;
mod goal;
mod growing;
mod here;
mod keeping;
pub mod laws;
mod proving;
mod same;
mod standing;
mod step;
mod weakening;

pub use again::again_code;
pub use can_stand::{
    can_stand_again, can_stand_by_rule, can_stand_changed, can_stand_substituted,
    can_stand_unproved,
};
pub use form::{are_forms, is_form};
pub use here::{Goal, Held, Here};
pub use same::same_judgment;
pub use standing::{Last, Opened, Standing, SubjectForm};
pub use step::{CallArgument, CaseChoice, CaseHead, CoreStep, SplitHead, StepId, Subject};
pub use weakening::{is_weakened, weakening_code};
