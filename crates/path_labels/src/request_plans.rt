//! The plan of a request that is searched: what each of its places and moves takes.

mod laws;
mod places;
mod plans;

pub use laws::{plans_may_be_searched, plans_over_may_be_searched};
pub use places::planned_place;
pub(crate) use places::{dwell_after, push_kept, ticks_of};
pub use plans::plan_of;
