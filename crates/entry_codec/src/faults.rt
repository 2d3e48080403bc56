//! Why an entry could not be read.

ghost use Rattle.std.specs.Prelude.{◌≡◌};
ghost use Rattle.entry_codec.specs.declared.faults.EntryFault.TheVariants.{Memory, NotEntry};

use byte_fields::{Over, Short};
use no_memory::NoMemory;
use std::alloc::{AllocError, AllocFailed};
use thiserror::Error;

/// Why a body gave no entry.
#[derive(Clone, Copy, Debug, PartialEq, Eq, Error)]
pub enum EntryFault {
    /// No entry has this body. The offset is where the first wrong field begins: where the bytes
    /// end if some are missing, and where the surplus begins if only that is wrong.
    #[error("no entry has this body, wrong at {at}")]
    NotEntry { at: usize },
    /// The memory that the entry needed was not there.
    #[error("no memory")]
    Memory,
}

/// Where the first wrong field of a body begins.
#[derive(Clone, Copy, Debug)]
pub(crate) struct Wrong {
    pub at: usize,
}

impl From<Short> for Wrong {
    ghost from_gives = { λ short wrong. wrong.at ≡ short.at };

    fn from(short: Short) -> Wrong {
        Wrong { at: short.at }
    }
}

impl From<Over> for Wrong {
    ghost from_gives = { λ over wrong. wrong.at ≡ over.at };

    fn from(over: Over) -> Wrong {
        Wrong { at: over.at }
    }
}

impl From<Wrong> for EntryFault {
    ghost from_gives = { λ wrong fault. fault ≡ NotEntry wrong.at };

    fn from(wrong: Wrong) -> EntryFault {
        EntryFault::NotEntry { at: wrong.at }
    }
}

impl From<NoMemory> for EntryFault {
    ghost from_gives = { λ _ fault. fault ≡ Memory };

    fn from(_refused: NoMemory) -> EntryFault {
        EntryFault::Memory
    }
}

impl From<AllocError> for EntryFault {
    ghost from_gives = { λ _ fault. fault ≡ Memory };

    fn from(_refused: AllocError) -> EntryFault {
        EntryFault::Memory
    }
}

impl<T: Drop> From<AllocFailed<T>> for EntryFault {
    ghost from_gives = { λ _ fault. fault ≡ Memory };

    fn from(_refused: AllocFailed<T>) -> EntryFault {
        EntryFault::Memory
    }
}
