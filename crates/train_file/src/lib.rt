//! The file of trains: the bytes of a file of JSON, read to trains that are found by their names.
#![tactic(auto)]

mod fault_texts;
mod faults;
mod fields;
mod files;
mod names;
mod objects;

pub use fault_texts::fault_text;
pub use faults::{TrainFault, What};
pub use files::read_trains;
pub use objects::Trains;
