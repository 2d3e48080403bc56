//! Clients at one gate: each has a seat, where its lines are answered, and what all
//! clients are told is one history.

mod gates;
mod laws;
mod newcomers;
mod seats;
mod tellings;

pub use gates::{TURNS_OF_A_CLIENT, close_gate, leave_seat, open_gate, take_seat};
pub use laws::limits_are_these;
pub use newcomers::Newcomer;
pub use seats::Seat;
#[doc(hidden)]
pub use tellings::Telling;
pub use tellings::told_positions;
