//! How a commit ends.

use grant_log::Verdict;

/// How a commit ended; the first that applies.
#[derive(Debug, Drop)]
pub enum Committed {
    /// The entry is settled at this position.
    Done(u64),
    /// The history does not take the entry.
    Refused(Verdict),
    /// This entry, from the searched front on, is the last with a live claim that clashes.
    Clash { entry: u64 },
    /// The record would not have room within the journal's limit.
    Full,
    /// The disk failed before the entry was begun.
    DiskFault,
    /// The disk failed after the entry was begun: it stands at this position and is pending.
    Unsettled(u64),
    /// The memory for the entry was not there.
    Memory,
}
