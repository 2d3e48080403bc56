//! The streams of a client.

use outside_io::{Sink, Source};

/// Where a client's lines come from, where its replies go, and where its
/// proofs go where they are wanted.
#[derive(Drop)]
pub struct ClientStreams<S: Source, T: Sink> {
    pub source: S,
    pub sink: T,
    pub proof: Option<T>,
}
