//! What a client notes of each of its turns.

/// What a client notes of a turn: the front that it found, or left with an entry of its own, the
/// position of that entry, and whether a crash has lost it.
#[derive(Clone, Copy, Debug, PartialEq, Eq)]
pub struct Note {
    pub point: u64,
    pub entry: Option<u64>,
    pub lost: bool,
}
