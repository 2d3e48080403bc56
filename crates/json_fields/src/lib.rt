//! What the readers of JSON files share: the value of a file's bytes, the places where its parts
//! stand, and the numbers in them.
#![tactic(auto)]

mod escapes;
pub mod name_text;
mod numbers;
mod places;
mod spots;
mod texts;

pub use escapes::escaped;
pub use numbers::{count_in, scaled_in, whole_in};
pub use places::Place;
pub use spots::Spot;
pub use texts::{Unread, value_of};
