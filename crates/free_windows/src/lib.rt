//! The ticks at which claims are free.
#![tactic(auto)]

mod frees;

pub use frees::{next_start, next_start_near, starts};
