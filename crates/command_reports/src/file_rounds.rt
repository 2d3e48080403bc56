//! Files of a command: each is opened once, read or written as a whole, and put back.

mod reading;
mod writing;

pub use reading::{FileFault, read_file};
pub use writing::{OutFault, write_file, write_report};
