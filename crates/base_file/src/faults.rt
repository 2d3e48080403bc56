//! What is wrong with a base file.

ghost use Rattle.std.specs.Prelude.{◌≡◌};
ghost use Rattle.base_file.specs.declared.faults.BaseFault.TheVariants.{Memory};

use json_fields::Spot;
use no_memory::NoMemory;
use std::alloc::AllocFailed;
use thiserror::Error;

/// What is past its limit.
#[derive(Clone, Copy, Debug, PartialEq, Eq)]
pub enum What {
    /// The file, in bytes.
    File,
    /// A list, in elements; requirements count together with those of the trains before.
    List,
    /// A number that has too many digits.
    Number,
    /// The seconds of a tick.
    TickS,
    /// The ticks for setting a route.
    Setting,
    /// The ticks for releasing a zone.
    Release,
    /// The last tick.
    Horizon,
    /// The bytes of the journal.
    JournalBytes,
    /// Whether a change of speed costs time: 0 or 1.
    SpeedLoss,
    /// The name of a train, in bytes.
    Name,
    /// The tick at which a claim begins.
    From,
    /// The tick before which a claim ends.
    To,
}

/// The first fault of a file, or want of memory.
#[derive(Debug, Drop, Error)]
pub enum BaseFault {
    #[error("not a text of JSON")]
    NotJson,
    #[error("a field is missing")]
    Missing { spot: Spot },
    #[error("a value is of another kind")]
    Kind { spot: Spot },
    #[error("the network has no such zone")]
    ZoneUnknown { spot: Spot, zone: i64 },
    #[error("a claim has no tick")]
    EmptySpan { spot: Spot },
    /// `a` and `b` are the trains' indices, ascending.
    #[error("two trains want one zone at once")]
    Overlap { zone: u32, a: u32, b: u32 },
    /// `count` is the value found, or 0 where that is no whole number of 64 bits.
    #[error("past a limit")]
    Limit { what: What, count: i64 },
    #[error("no memory")]
    Memory,
}

impl From<NoMemory> for BaseFault {
    ghost from_gives = { λ _ e. e ≡ Memory };

    fn from(_refused: NoMemory) -> BaseFault {
        BaseFault::Memory
    }
}

impl<T: Drop> From<AllocFailed<T>> for BaseFault {
    ghost from_gives = { λ _ e. e ≡ Memory };

    fn from(_refused: AllocFailed<T>) -> BaseFault {
        BaseFault::Memory
    }
}
