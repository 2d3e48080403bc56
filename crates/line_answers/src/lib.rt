//! A client's line and its answer: the line is read, takes a turn, and is told
//! what the history says of it.
#![tactic(auto)]

mod answers;
mod asks;
mod entries;
mod lines;
mod numbers;
mod replies;
mod rules;
mod words;

pub use answers::answer_one;
pub use ask_turns as turns;
pub use ask_turns::{Shared, history, tails};
pub use book_gate as gate;
pub use byte_fields as bytes;
pub use lines::Received;
pub use path_commit as book;
