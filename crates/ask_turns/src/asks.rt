//! What is asked for, and what comes of it.

use crate::client_turns::Entered;
use path_labels::Guide;
use rail_types::{Entry, List, Request, Run};

/// A path that is asked for: the client's number for it, the number of its line, the
/// request, and what guides its search.
#[derive(Drop)]
pub struct Ask {
    pub number: u64,
    pub line: u32,
    pub request: Request,
    pub guide: Guide,
}

/// What comes of an ask.
#[derive(Debug, Drop)]
pub enum Outcome {
    /// A path that was found became so, by its entry; it has these runs.
    Entered(Entered, List<Run>),
    /// No path can be granted at the client's front.
    NoPath,
    /// Each of three searches was missed: the last by the entry at this position, from this front.
    Again { entry: u64, searched: u64 },
}

// An entry whose path was found, and the path's runs.
#[derive(Debug, Drop)]
pub(crate) struct Found {
    pub(crate) entry: Entry,
    pub(crate) runs: List<Run>,
}
