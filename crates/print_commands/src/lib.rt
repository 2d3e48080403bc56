//! What commands over a journal share: its history, read by its network and its base timetable,
//! of which something is written.
#![tactic(auto)]

pub mod capacity_command;
mod files;
mod journals;
pub mod list_command;
mod refusals;
pub mod stairs_command;

pub use files::read_history_files;
pub use journals::read_journal_file;
