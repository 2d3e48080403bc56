//! The history of what was granted: what stands in it, who owns it, and what a new entry is told.
#![tactic(auto)]

mod clashes;
mod contents;
pub mod copy_since;
mod histories;
mod keys;
mod laws;
mod live;
mod scans;
mod verdicts;

pub use histories::History;
pub use laws::{
    claims_are_on_the_network, contents_are_compared, fresh_claims_are_free,
    grants_keep_their_requests, legal_histories_never_clash, live_claims_are_unfreed,
    live_claims_follow, verdicts_say_what_they_mean,
};
pub use verdicts::Verdict;
