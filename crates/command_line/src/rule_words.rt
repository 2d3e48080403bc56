//! The admission rules of a command line: the words that spell them,
//! and the clients whom they name.

mod kinds;
mod laws;
mod reading;
mod ticks;

pub use kinds::{MAX_RULE_NUMBER, RuleKind};
pub use laws::limits_are_these;
pub use reading::{RuleWord, read_rule, read_rules};
