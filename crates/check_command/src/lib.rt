//! The command `check`: proofs that requests could not be granted, judged
//! by the history of a journal.
#![tactic(auto)]

mod checks;
mod counts;
mod doubts;
mod files;
mod journals;
mod judging;
mod laws;
mod replays;
mod runs;
mod works;

pub use laws::proofs_are_judged_once;
pub use runs::run_check;
