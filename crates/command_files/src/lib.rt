//! The files of a command: a network, a base timetable and trains, each read as a whole and told by
//! its first fault; and the file that it writes.
#![tactic(auto)]

mod bases;
mod files;
mod networks;
mod outs;
mod trains;

pub use base_file as base;
pub use bases::{BaseFile, read_base_file};
#[doc(hidden)]
pub use files::FileKind;
pub use networks::{NetworkFile, network_of_bytes, read_network, read_network_file};
pub use outs::write_out;
pub use train_file as train;
pub use trains::read_train_file;
