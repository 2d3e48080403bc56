//! A history of entries, the claims that are live in it and the journal that keeps it, as one
//! value: each new entry is judged, written and booked.
#![tactic(auto)]

mod answers;
mod books;
mod clashes;
mod judging;
mod parts;
mod stands;
mod turns;

pub use answers::Committed;
pub use books::Book;
pub use grant_journal as journal;
pub use grant_log as history;
pub use occupation_book as claims;
pub use stands::Footing;
pub use turns::{Sent, run_all, turn};
