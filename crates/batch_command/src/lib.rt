//! The command `batch`: a list of asks is read as a whole, answered by 1 to 16 workers at once over
//! one journal, and the replies are written in its order.
#![tactic(auto)]

pub mod batch_reports;
pub mod batch_server;
mod books;
mod flaws;
mod journals;
mod laws;
pub mod list_lines;
pub mod list_replies;
mod list_workers;
mod lists;
mod members;
mod runs;
pub mod worker_numbers;
mod works;

pub use laws::lists_are_judged_once;
pub use runs::run_batch;
