//! Keeps the first two readings of each part of a form with their places, and makes those of a whole from those of its parts.
#![tactic(auto)]

mod answers;
mod laws;
mod node;
mod pairing;
mod schemes;

pub use answers::{Answers, added, is_full, is_none, joined, share_answers};
pub use laws::{
    arguments_are_ordered, brackets_are_ordered, first_of_lengths, first_of_slot,
    readings_are_ordered, rows_are_ordered, two_are_enough,
};
pub use node::{Head, Node, Row, SlotCell, is_before, same_scheme, share, share_row, slot_before};
pub use pairing::product;
pub use schemes::{parts_of, scheme_of};
