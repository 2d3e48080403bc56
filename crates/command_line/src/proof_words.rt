//! The proofs of a command line: the words that name a client and the file for its proofs,
//! and which may stand together.

mod belonging;
mod distinct;
mod finding;
mod proofs;

pub use finding::proof_of;
pub use proofs::{ProofWord, read_proof, read_proofs};
