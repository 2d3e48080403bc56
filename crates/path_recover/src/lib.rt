//! The book that a journal stands for, opened again after a crash.
#![tactic(auto)]

pub mod history_reading;
pub mod journal_reading;
mod laws;
mod opening;
mod texts;

pub use crate::history_reading::{MoveFault, init_from};
pub use crate::journal_reading::{InitFault, OpenFault, init};
pub use entry_codec as spelling;
pub use grant_journal as journal;
pub use grant_log as history;
pub use laws::{reopen, run_and_reopen};
pub use occupation_book as claims;
pub use opening::open;
pub use texts::{fault_text, not_empty_text};
