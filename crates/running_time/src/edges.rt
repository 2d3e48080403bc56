//! How a train enters and leaves a block.

/// Whether a train stops or rolls on at the end of a block.
#[derive(Clone, Copy, Debug, PartialEq, Eq)]
pub enum Edge {
    Still,
    Rolling,
}

/// How a train enters a block: from stand, or rolling from a block where it had this
/// speed, in millimetres a second.
#[derive(Clone, Copy, Debug, PartialEq, Eq)]
pub enum Enter {
    Still,
    From(u32),
}
