//! Why a field could not be read.

use thiserror::Error;

/// A field's bytes are not all there.
#[derive(Clone, Copy, Debug, PartialEq, Eq, Error)]
#[error("bytes are missing at {at}")]
pub struct Short {
    /// The offset at which the first missing byte would stand: where the bytes end.
    pub at: usize,
}

/// Bytes stand behind the last field.
#[derive(Clone, Copy, Debug, PartialEq, Eq, Error)]
#[error("bytes are left over at {at}")]
pub struct Over {
    /// The offset of the first of them.
    pub at: usize,
}
