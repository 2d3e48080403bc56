//! The command `init`: a journal is begun on an empty disk, or a journal
//! of version 1 is moved there.
#![tactic(auto)]

mod beginnings;
mod moving;
pub mod refusals;
mod runs;
mod works;

pub use runs::{run_init, run_move};
