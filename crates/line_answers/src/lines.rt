//! Lines with their numbers.

use client_lines::Line;

/// A line as it was received: its number in its session, and its bytes without its end.
#[derive(Clone, Copy)]
pub struct Received<'a> {
    pub number: u32,
    pub bytes: &'a [u8],
}

// A line that was read, and its number in its session.
#[derive(Drop)]
pub(crate) struct Numbered {
    pub(crate) number: u32,
    pub(crate) line: Line,
}

// What a line is sent with: its number in its session, the front that it must be behind, and the
// client's number for what it asks for.
#[derive(Clone, Copy)]
pub(crate) struct Sent {
    pub(crate) line: u32,
    pub(crate) after: Option<u64>,
    pub(crate) number: u64,
}
