//! The command `carry`: yesterday's sales in today's timetable.
#![tactic(auto)]

mod before;
pub mod carried_history;
mod disks;
mod laws;
mod lines;
mod names;
mod olds;
mod preparing;
mod runs;
mod spelling;
pub mod whole_files;
mod works;
mod writing;

pub use laws::{carried_entries_are_kept, unfinished_journals_are_refused};
pub use names::CarryNames;
pub use runs::run_carry;
