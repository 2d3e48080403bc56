//! A list of lines, answered by several workers at once: each line that is to do goes
//! through a queue to one of them.
#![tactic(auto)]

mod batches;
mod finishes;
mod hands;
mod jobs;
mod laws;
mod puts;
mod rooms;
mod shifts;
mod workers;

pub use batches::{answer_batch, run_batch};
#[doc(hidden)]
pub use hands::Hand;
pub use laws::limits_are_these;
pub use rooms::{Room, room_for};
pub use workers::{MAX_WORKERS_AT_ONCE, Served, Worker};
