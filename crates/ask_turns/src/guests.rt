//! A client at the gate.

use crate::client_turns::Client;
use book_gate::Pass;
use outside_io::{Between, Disk};
use path_commit::Book;

/// A client at the gate: its pass, what it knows, what happens between its searches, and whether it
/// wants proofs.
#[derive(Drop)]
pub struct Guest<D: Disk, B: Between> {
    pub pass: Pass<Book<D>>,
    pub client: Client,
    pub between: B,
    pub proves: bool,
}
