//! Clients before and after they are served.

use admission_rules::Rule;
use line_sessions::{Ended, Proofs};
use outside_io::{Between, Sink, Source};
use rail_types::Name;

/// A client to be served: its name, where its lines come from, where its replies go, where the
/// proofs go that come along with them, what happens between its searches, and the rules by
/// which its paths may be denied.
#[derive(Drop)]
pub struct Plan<S: Source, T: Sink, B: Between, L: Rule> {
    pub name: Name,
    pub source: S,
    pub sink: T,
    pub proofs: Proofs<T>,
    pub between: B,
    pub rules: Vec<L>,
}

/// A client that was served, its streams and its rules as they are left, and how its session ended.
#[derive(Drop)]
pub struct Session<S: Source, T: Sink, L: Rule> {
    pub name: Name,
    pub source: S,
    pub sink: T,
    pub proofs: Proofs<T>,
    pub ended: Ended,
    pub rules: Vec<L>,
}
