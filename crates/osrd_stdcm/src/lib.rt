//! The server's commands, from words to a status.
#![tactic(auto)]

mod access;
pub mod built_rules;
mod orders;
mod rules;
mod runs;

pub use access::access_of_words;
pub use command_reports::exit_status::Status;
pub use command_words::{
    ClientWord, Order, ProofWord, RuleKind, RuleWord, Text, WordsFault, read_words, rule_words,
};
pub use rules::rules_of_words;
pub use runs::run;
