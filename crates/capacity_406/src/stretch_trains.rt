//! The trains that run on a stretch in a history: those of the base timetable and of the grants
//! that stand.

mod groups;
mod orders;
mod selecting;

pub use selecting::trains_on;
