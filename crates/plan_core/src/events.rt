//! What may happen in a world.

use grant_journal::Stage;
use rail_types::Entry;

/// What may happen in a world. Clients are told apart by number, from 0.
#[derive(Debug, Drop)]
pub enum Event {
    /// A client reads the history.
    Turn {
        client: u32,
    },
    /// A client searches at the front that it knows.
    Seek {
        client: u32,
    },
    /// A client's hold or grant is written and settled.
    Commit {
        client: u32,
        entry: Entry,
    },
    /// A client frees an entry of its own, by one that is written and settled.
    Free {
        client: u32,
        entry: Entry,
    },
    /// The write of a client's entry fails at a stage: at the record nothing is written, at the
    /// gate the entry stands and is not settled.
    Fault {
        client: u32,
        entry: Entry,
        stage: Stage,
    },
    /// The entry that is not settled is settled, or that fails again.
    Settle {
        done: bool,
    },
    /// The world stops. An entry that is not settled is kept or lost.
    Crash {
        keeps_last: bool,
    },
    /// The world runs again.
    Open,
}
