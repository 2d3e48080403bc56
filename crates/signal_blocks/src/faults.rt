//! Why an infrastructure has no network.

use crate::block_cuts::What;
use no_memory::NoMemory;
use rail_types::Name;
use thiserror::Error;
use track_graph::GraphFault;

/// Why a route has no walk.
#[derive(Debug, Drop, Error)]
pub enum RouteFault {
    /// So many metres from its entry the route comes to an end of a track from which no way leads
    /// on, or to a buffer stop that is not its exit.
    #[error("no way on")]
    NoWay { route: Name, at: u64 },
    /// The route comes to a detector that it has passed.
    #[error("a detector is passed twice")]
    Loop { route: Name },
    /// The route does not pass this release detector of its own.
    #[error("a release detector beside the route")]
    StrayRelease { route: Name, detector: Name },
}

/// Why an infrastructure has no network.
#[derive(Debug, Drop, Error)]
pub enum NetFault {
    /// Two ports name one end of a track, or a position is beyond its track.
    #[error("the tracks have no graph")]
    Graph(GraphFault),
    /// The first route that has no walk.
    #[error("a route has no walk")]
    Walk(RouteFault),
    /// Two cuts of the route lie at this metre.
    #[error("a block without length")]
    EmptyBlock { route: Name, at: u64 },
    /// More zones, points, blocks or cells than are allowed, or a block that is too long. `count`
    /// is the number found, or 0 where that is no whole number of 64 bits.
    #[error("past a limit")]
    Limit { what: What, count: i64 },
    /// The memory that was needed was not there.
    #[error("no memory")]
    Memory,
}

impl From<NoMemory> for NetFault {
    ghost use Rattle.std.specs.Prelude.{◌≡◌};
    ghost use Rattle.signal_blocks.specs.declared.faults.NetFault.TheVariants.{Memory};

    ghost from_gives = { λ _ e. e ≡ Memory };

    fn from(_refused: NoMemory) -> NetFault {
        NetFault::Memory
    }
}

impl From<GraphFault> for NetFault {
    ghost use Rattle.std.specs.Prelude.{◌≡◌};
    ghost use Rattle.signal_blocks.specs.Inside.{told_graph};

    ghost from_gives = { λ fault e. e ≡ told_graph fault };

    fn from(fault: GraphFault) -> NetFault {
        match fault {
            GraphFault::Memory => NetFault::Memory,
            fault => NetFault::Graph(fault),
        }
    }
}
