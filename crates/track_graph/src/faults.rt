//! Why an infrastructure has no graph.

use no_memory::NoMemory;
use rail_types::Name;
use rail_types::infra_types::End;
use thiserror::Error;

/// Why an infrastructure has no graph.
#[derive(Debug, Drop, Error)]
pub enum GraphFault {
    /// Two ports of switches name this end of the track.
    #[error("two ports at one end of a track")]
    EndTwice { track: Name, end: End },
    /// The position of a detector, a buffer stop, a block signal or a part of an
    /// operational point is beyond its track.
    #[error("a position beyond its track")]
    OffTrack { id: Name },
    /// The memory that was needed was not there.
    #[error("no memory")]
    Memory,
}

impl From<NoMemory> for GraphFault {
    ghost use Rattle.std.specs.Prelude.{◌≡◌};
    ghost use Rattle.track_graph.specs.declared.faults.GraphFault.TheVariants.{Memory};

    ghost from_gives = { λ _ e. e ≡ Memory };

    fn from(_refused: NoMemory) -> GraphFault {
        GraphFault::Memory
    }
}
