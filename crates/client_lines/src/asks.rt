//! What the lines of clients ask for.

use rail_types::{Claims, Name, Path, Request};

/// What a line asks for, behind the client's own number for it, which `show` and `front` do not
/// have: 1 to 64 claims to be held for a reason, by zone and then by begin, where a line without a
/// reason has one claim and an empty reason; a path that the client gives; a path that is sought;
/// an entry to be freed; an entry to be shown; the front.
#[derive(Debug, Drop)]
pub enum Ask {
    Hold(u64, Claims, Name),
    Pin(u64, Path),
    Path(u64, Request),
    Free(u64, u64),
    Show(u64),
    Front,
}

/// A line of a client: the front that it is to be answered at or behind, if it
/// names one, and what it asks for.
#[derive(Debug, Drop)]
pub struct Line {
    pub after: Option<u64>,
    pub ask: Ask,
}

/// The word of a line, which tells its form.
#[derive(Clone, Copy, Debug, PartialEq, Eq)]
pub(crate) enum Word {
    Hold,
    Holds,
    Pin,
    Ask,
    Free,
    Show,
    Front,
}
