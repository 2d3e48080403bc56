//! What happens between the searches of a client.

/// Called behind each search that found a path, before the path is written down. It may wait, and
/// changes nothing that an answer rests on.
pub trait Between {
    /// Behind the client's search of this number, counted from 1.
    fn between(&mut self, search: u32);
}

/// Nothing happens between searches.
#[derive(Clone, Copy, Debug, PartialEq, Eq)]
pub struct NoBetween;

impl Between for NoBetween {
    fn between(&mut self, _search: u32) {}
}
