//! What is carried of a history into another timetable: its live holds and grants, each judged by
//! that timetable and by those carried before it, and spelled as a journal.
mod carrying;
mod holding;
mod joining;
mod reasons;

pub use carrying::{Carried, carry};
pub use reasons::{LeftOut, Reason};
