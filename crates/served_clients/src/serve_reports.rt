//! What `serve` reports of its clients: a line for each, and the status that their ends come to.

mod ends;
mod rules;
mod texts;

pub use ends::{Ends, ends_of, status_at, status_untold, tell_ends};
pub use rules::push_rule_lines;
pub use texts::{push_end, why_text};
