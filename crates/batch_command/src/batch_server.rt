//! A list of asks, answered by several workers over one book: each is a client with a name of its
//! own, and what all are told is one history.

mod answers;
mod clerks;
mod kept;
mod lists;
mod members;
mod rooms;
mod seating;

pub use lists::{Answered, answer_list};
pub use members::{Member, Worked};
