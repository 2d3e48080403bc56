//! The options of a command line: how words spell them, and the values under each.
#![tactic(auto)]

pub mod batch_words;
pub mod client_words;
mod faults;
mod numbers;
pub mod proof_words;
pub mod rule_words;
mod settings;
mod texts;
mod values;

pub use faults::WordsFault;
pub use numbers::{read_number, read_small_number};
pub use settings::{Setting, cut_at_equals, read_settings};
pub use texts::Text;
pub use values::{has_only, optional_value, single_value, values_of};
