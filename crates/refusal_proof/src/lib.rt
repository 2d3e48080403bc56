//! Whether members show that no path of a request can be granted, checked without the search.
#![tactic(auto)]

mod checks;
mod frees;
mod goings;
mod labels;
mod moves;

pub use checks::{check, check_listed};
pub use tail_states as tails;
