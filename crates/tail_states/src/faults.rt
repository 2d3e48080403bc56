//! Why the places of a request, or the spots of a train, are not listed.

use no_memory::NoMemory;
use std::alloc::{AllocError, AllocFailed};
use thiserror::Error;

/// A request has more places than are listed, or the memory was not there.
#[derive(Clone, Copy, Debug, PartialEq, Eq, Error)]
pub enum PlacesFault {
    /// The listing stopped at so many places.
    #[error("at least {count} places")]
    Wide { count: u32 },
    #[error("no memory")]
    Memory,
}

impl From<NoMemory> for PlacesFault {
    ghost use Rattle.std.specs.Prelude.{◌≡◌};
    ghost use Rattle.tail_states.specs.declared.faults.PlacesFault.TheVariants.{Memory};

    ghost from_gives = { λ _ e. e ≡ Memory };

    fn from(_refused: NoMemory) -> PlacesFault {
        PlacesFault::Memory
    }
}

impl<T: Drop> From<AllocFailed<T>> for PlacesFault {
    ghost use Rattle.std.specs.Prelude.{◌≡◌};
    ghost use Rattle.tail_states.specs.declared.faults.PlacesFault.TheVariants.{Memory};

    ghost from_gives = { λ _ e. e ≡ Memory };

    fn from(_refused: AllocFailed<T>) -> PlacesFault {
        PlacesFault::Memory
    }
}

/// A train has more spots than are listed, or the memory was not there.
#[derive(Clone, Copy, Debug, PartialEq, Eq, Error)]
pub enum SpotsFault {
    /// The listing stopped at so many spots.
    #[error("at least {count} spots")]
    TooMany { count: u32 },
    #[error("no memory")]
    Memory,
}

impl From<NoMemory> for SpotsFault {
    ghost use Rattle.std.specs.Prelude.{◌≡◌};
    ghost use Rattle.tail_states.specs.declared.faults.SpotsFault.TheVariants.{Memory};

    ghost from_gives = { λ _ e. e ≡ Memory };

    fn from(_refused: NoMemory) -> SpotsFault {
        SpotsFault::Memory
    }
}

impl<T: Drop> From<AllocFailed<T>> for SpotsFault {
    ghost use Rattle.std.specs.Prelude.{◌≡◌};
    ghost use Rattle.tail_states.specs.declared.faults.SpotsFault.TheVariants.{Memory};

    ghost from_gives = { λ _ e. e ≡ Memory };

    fn from(_refused: AllocFailed<T>) -> SpotsFault {
        SpotsFault::Memory
    }
}
