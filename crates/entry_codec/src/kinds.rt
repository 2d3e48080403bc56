//! The kinds of entries that a body tells apart.

/// What a body's first byte says.
#[derive(Clone, Copy, Debug)]
pub(crate) enum Kind {
    Hold,
    Asked,
    Pinned,
    Free,
    Reasoned,
}
