//! What is wrong with a file of infrastructure.

ghost use Rattle.std.specs.Prelude.{◌≡◌};
ghost use Rattle.infra_fields.specs.declared.faults.InfraFault.TheVariants.{Memory};

use json_fields::Spot;
use no_memory::NoMemory;
use rail_types::Name;
use std::alloc::AllocFailed;
use thiserror::Error;

/// What is past its limit.
#[derive(Clone, Copy, Debug, PartialEq, Eq)]
pub enum What {
    /// The file, in bytes.
    File,
    /// A list, in elements.
    List,
    /// An id, in bytes.
    Id,
    /// A number that has too many digits.
    Number,
    /// The length of a track, in metres.
    Length,
    /// A sight distance, in metres.
    Sight,
    /// A speed, in millimetres a second.
    Speed,
}

/// The first fault of a file, or want of memory.
#[derive(Debug, Drop, Error)]
pub enum InfraFault {
    #[error("not a text of JSON")]
    NotJson,
    #[error("a field is missing")]
    Missing { spot: Spot },
    #[error("a value is of another kind")]
    Kind { spot: Spot },
    #[error("a number is not whole")]
    Fraction { spot: Spot },
    #[error("a number is negative")]
    Negative { spot: Spot },
    #[error("no object has this id")]
    Unknown { id: Name, spot: Spot },
    #[error("two objects of a list have one id")]
    Twice { id: Name },
    #[error("a switch is of no known type")]
    SwitchType { id: Name },
    /// `count` is the value found, or 0 where that is no whole number of 64 bits.
    #[error("past a limit")]
    Limit { what: What, count: i64 },
    #[error("no memory")]
    Memory,
}

impl From<NoMemory> for InfraFault {
    ghost from_gives = { λ _ e. e ≡ Memory };

    fn from(_refused: NoMemory) -> InfraFault {
        InfraFault::Memory
    }
}

impl<T: Drop> From<AllocFailed<T>> for InfraFault {
    ghost from_gives = { λ _ e. e ≡ Memory };

    fn from(_refused: AllocFailed<T>) -> InfraFault {
        InfraFault::Memory
    }
}
