//! The words of the server's commands, and the order that they spell.
#![tactic(auto)]

mod batches;
mod capacities;
mod carries;
mod checks;
mod demos;
mod file_names;
mod grants;
mod laws;
mod orders;
mod reading;
mod serves;

pub use command_line::batch_words::{MAX_BATCH_NAME_BYTES, MAX_WORKERS};
pub use command_line::client_words::ClientWord;
pub use command_line::proof_words::ProofWord;
pub use command_line::rule_words::{RuleKind, RuleWord};
pub use command_line::{Text, WordsFault};
pub use laws::limits_are_these;
pub use orders::{MAX_DEMO_NUMBER, Order};
pub use reading::{read_words, rule_words};
