//! The command `list`: the table of a network's zones and blocks.

mod runs;
mod works;

pub use runs::run_list;
