//! Why a command goes no further, what it reports of it, and its status.
#![tactic(auto)]

mod endings;
pub mod exit_status;
pub mod file_rounds;
mod refusals;

pub use endings::finish;
pub use refusals::{Refusal, disk_failed, not_opened, not_read};
