//! Many stacks in one list: an empty one takes the room of a number.
#![tactic(auto)]

mod stacks;

pub use stacks::Stacks;
