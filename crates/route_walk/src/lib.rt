//! The walks of routes: the points that a route passes from its entry to its exit, their metres,
//! the zones between them, and the stretches of track.
#![tactic(auto)]

mod counts;
mod courses;
mod entries;
mod laws;
mod legs;
mod passages;
mod places;
mod releases;
mod routes;
mod walks;
mod ways;

pub use laws::one_walk;
pub use routes::walk;
pub use walks::{Passed, Stretch, Walk, WalkFault};
