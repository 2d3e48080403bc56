//! The clients of a run: their streams opened in the order of their words
//! and put back, and their rules.

mod opening;
mod proofs;
mod returning;

pub use opening::open_clients;
pub use returning::{put_back_plans, put_back_sessions};
