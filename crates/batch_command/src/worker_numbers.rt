//! The numbers by which the lines of a list ask, beside a history in which some of them stand
//! already: the worker whose each is, and the workers that are not there.

mod needed;
mod owners;

pub use needed::needed_worker;
pub use owners::owners_of;
