//! What all that serve clients share: a seat at the gate for each, its streams, the journal that it
//! is served over, and the report of what its session was.
#![tactic(auto)]

pub mod client_seats;
pub mod client_streams;
mod plans;
mod run_names;
pub mod serve_reports;
pub mod served_journals;

pub use admission_rules as admission;
pub use client_lines as lines;
pub use line_answers as answers;
pub use line_answers::{book, bytes, gate, history};
pub use line_sessions as sessions;
pub use plans::{Plan, Session};
pub use run_names::RunNames;
