//! Lists of objects that are found by their ids.

mod ids;
mod lists;

pub use ids::Ids;
pub use lists::{HasId, Listed};
