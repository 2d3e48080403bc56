//! The session of one client: lines cut out of a source, each answered by a desk, the replies put
//! into a sink, and before each its proof into another one, where proofs are wanted.
#![tactic(auto)]

mod cuts;
mod desks;
mod laws;
mod proofs;
mod sessions;
mod streams;

pub use cuts::cut_at;
pub use desks::Desk;
pub use laws::{inputs_are_cut_at_line_ends, limits_are_these};
pub use proofs::Proofs;
pub use sessions::{Ended, MAX_LINES, Why, serve_lines};
pub use streams::{LineReader, More, Step};
