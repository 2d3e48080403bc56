//! Blocking times: the stairway of claims that a path takes, and the rules that it keeps.
#![tactic(auto)]

mod joining;
mod laws;
mod passages;
mod rules;
mod stairways;

pub use joining::joined;
pub use laws::{
    joined_claims_are_one, joined_claims_fit_alike, legs_are_the_runs, stairways_are_near,
    stairways_have_ticks, the_first_broken_rule_is_told,
};
pub use passages::Passage;
pub use rules::{Broken, keeps};
pub use stairways::{edge_where, entry_after, stairway};
