//! The base file: the bytes of a file of JSON, read to the settings of a timetable
//! and the claims of its trains.
#![tactic(auto)]

mod fault_texts;
mod faults;
mod fields;
mod files;
mod laws;
mod overlaps;
mod requirements;
mod settings;
mod trains;

pub use fault_texts::fault_text;
pub use faults::{BaseFault, What};
pub use files::read_base;
pub use laws::{bases_make_timetables, first_overlaps_are_one};
