//! The replies to the lines of a list: their texts in the order of the list, whoever answered which
//! line and when, and how they are written.

mod texts;
mod writing;

pub use texts::{empty_texts, texts_in_order};
pub use writing::write_texts;
