//! What is wrong with a file of trains.

ghost use Rattle.std.specs.Prelude.{◌≡◌};
ghost use Rattle.train_file.specs.declared.faults.TrainFault.TheVariants.{Memory};

use json_fields::Spot;
use no_memory::NoMemory;
use rail_types::Name;
use std::alloc::AllocFailed;
use thiserror::Error;

/// What is past its limit.
#[derive(Clone, Copy, Debug, PartialEq, Eq)]
pub enum What {
    /// The file, in bytes.
    File,
    /// The list of trains, in elements.
    List,
    /// A number that has too many digits.
    Number,
    /// A name, in bytes.
    Name,
    /// A length, in metres.
    LengthM,
    /// A speed, in millimetres a second.
    Speed,
    /// An acceleration, in millimetres a second squared.
    Accel,
    /// A braking, in millimetres a second squared.
    Brake,
    /// An allowance on running times, in per cent.
    Allowance,
}

/// The first fault of a file, or want of memory.
#[derive(Debug, Drop, Error)]
pub enum TrainFault {
    #[error("not a text of JSON")]
    NotJson,
    #[error("a field is missing")]
    Missing { spot: Spot },
    #[error("a value is of another kind")]
    Kind { spot: Spot },
    #[error("a number is zero")]
    Zero { spot: Spot },
    #[error("two trains have one name")]
    Twice { name: Name },
    /// `count` is the value found, or 0 where that is no whole number of 64 bits.
    #[error("past a limit")]
    Limit { what: What, count: i64 },
    #[error("no memory")]
    Memory,
}

impl From<NoMemory> for TrainFault {
    ghost from_gives = { λ _ e. e ≡ Memory };

    fn from(_refused: NoMemory) -> TrainFault {
        TrainFault::Memory
    }
}

impl<T: Drop> From<AllocFailed<T>> for TrainFault {
    ghost from_gives = { λ _ e. e ≡ Memory };

    fn from(_refused: AllocFailed<T>) -> TrainFault {
        TrainFault::Memory
    }
}
