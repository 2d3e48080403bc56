//! Rules by which the grant of a path may be denied.
#![tactic(auto)]

pub mod client_rules;
mod curfews;
mod laws;
mod longest;
mod quotas;
pub mod rule_names;
mod rules;
mod tallies;

pub use curfews::Curfew;
pub use laws::curfews_name_their_ticks;
pub use longest::Longest;
pub use quotas::Quota;
pub use rules::{Rule, Wish};
pub use tallies::Tally;
