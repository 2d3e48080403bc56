//! The command `stairs`: the stairway table of a grant.

mod runs;
mod tables;
mod works;

pub use runs::run_stairs;
