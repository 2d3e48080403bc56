//! Entries of the history as bytes, and back: each entry has one body, and no body has two entries.
#![tactic(auto)]

mod faults;
mod finding;
mod kinds;
mod passing;
mod reading;
mod writing;

pub use faults::EntryFault;
pub use reading::{
    examples_have_their_bodies, one_entry, read, refusals_are_placed, wrong_place_is_one,
};
pub use writing::{body_len, write};
