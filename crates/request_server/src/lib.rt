//! Many clients at once over one book: each has a seat at the gate, its lines are answered one
//! after another by its rules, and what all of them are told is one history.
#![tactic(auto)]

pub mod client_plans;
mod clients;
mod jobs;
mod runs;
pub mod serve_command;

pub use clients::serve_client;
pub use runs::serve_clients;
