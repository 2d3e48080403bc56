//! Clients while they are served.

use admission_rules::Rule;
use line_sessions::{Ended, Proofs};
use outside_io::{Between, Disk, Sink, Source};
use rail_types::Name;
use served_clients::client_seats::Seat;

/// A client that is served.
#[derive(Drop)]
pub(crate) struct Job<'a, D: Disk, S: Source, T: Sink, B: Between, L: Rule> {
    pub(crate) seat: Seat<'a, D, B, L>,
    pub(crate) name: Name,
    pub(crate) source: S,
    pub(crate) sink: T,
    pub(crate) proofs: Proofs<T>,
    pub(crate) ended: Ended,
}
