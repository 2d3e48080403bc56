//! What `batch` reports: how it ended and how many lines each worker answered, and the flaws
//! for which a list is refused.

mod ends;
mod flaws;
mod texts;

pub use ends::ends_of;
pub use flaws::{list_stops, no_ask, number_twice, workers_needed};
