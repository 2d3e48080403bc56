//! The searches of an ask: each beside the client's own copy of the live claims, outside the gate,
//! and behind each that found a path a turn in which it is judged and taken in.
#![tactic(auto)]

mod asks;
pub mod certificates;
pub mod client_turns;
mod guests;
mod laws;
mod searches;
mod shared;
mod tries;

pub use asks::{Ask, Outcome};
pub use guests::Guest;
pub use path_commit::history;
pub use path_labels as labels;
pub use path_labels::tails;
pub use shared::Shared;
pub use tries::try_searches;
