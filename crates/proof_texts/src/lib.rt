//! Proofs that requests could not be granted, as texts: written and read.
#![tactic(auto)]

mod cuts;
mod faults;
mod heads;
mod laws;
mod members;
mod prints;
mod reading;
mod refusals;

pub use client_lines as lines;
pub use faults::ProofFault;
pub use laws::{asks_can_be_told, limits_are_these, proofs_are_read_once};
pub use prints::proof_text;
pub use reading::{MAX_PROOF_FILE_BYTES, read_proof};
pub use refusals::Proof;
