//! Signals.

use crate::Name;
use crate::id_lists::HasId;
use crate::infra_types::Direction;

/// A block signal: its track, its metres from the track's begin, the direction for which it stands,
/// and its sight distance in metres.
#[derive(Clone, Copy, Debug, PartialEq, Eq)]
pub struct Bal {
    pub track: u32,
    pub position: u64,
    pub direction: Direction,
    pub sight_m: u32,
}

/// A signal, and what it is as a block signal, None where it is none.
#[derive(Debug, Drop)]
pub struct Signal {
    pub id: Name,
    pub bal: Option<Bal>,
}

impl HasId for Signal {
    ghost use Rattle.rail_types.specs.InfraIds.{id_of_signal};

    ghost id = { id_of_signal };
}
