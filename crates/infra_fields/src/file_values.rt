//! The value of a file's text, without the members that nobody reads.

mod file_lists;
mod halves;
mod kept_values;
mod number_tokens;
mod passing;
mod read_keys;
mod texts;
mod value_tokens;
mod whole_values;

pub use halves::Half;
pub use texts::QuotedFile;
