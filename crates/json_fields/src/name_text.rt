//! The names that texts spell: each name in one spelling, without spaces and line ends.

mod spellings;
mod writing;

pub use spellings::{names_are_spelled_once, unescaped};
pub use writing::push_escaped;
