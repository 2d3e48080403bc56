//! The command `demo`: a thousand asks over a railway of its own, and how many of
//! them were granted and refused.
#![tactic(auto)]

mod counts;
mod journals;
mod lines;
mod railways;
mod runs;
mod sessions;
mod summaries;
mod trains;
mod works;

pub use runs::run_demo;
