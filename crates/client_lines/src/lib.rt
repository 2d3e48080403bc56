//! The lines of clients, read by their forms.
#![tactic(auto)]

mod asks;
mod cuts;
mod faults;
mod groups;
mod items;
mod known;
mod laws;
mod lines;
mod numbers;
mod places;
pub mod reply_texts;
mod words;

pub use asks::{Ask, Line};
pub use cuts::Fields;
pub use faults::LineFault;
pub use known::Known;
pub use laws::{asks_spell_requests, lines_are_within_limits};
pub use lines::{MAX_LINE_BYTES, read_line, read_request};
