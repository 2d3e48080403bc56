//! What a walk is, and why a route has none.

use no_memory::NoMemory;
use rail_types::List;
use rail_types::infra_types::Direction;
use thiserror::Error;

/// A point that a walk passes: its directed number, its metres from the walk's beginning, and how
/// many of the walk's stretches lie before it. Detector d is point 2d from the begin of its track
/// to the end, and 2d + 1 the other way; buffer stops are numbered likewise behind all detectors.
#[derive(Clone, Copy, Debug, PartialEq, Eq)]
pub struct Passed {
    pub point: u32,
    pub metres: u64,
    pub reach: u32,
}

/// A stretch of a track, from its lowest metre to its highest, and the
/// direction in which it is passed.
#[derive(Clone, Copy, Debug, PartialEq, Eq)]
pub struct Stretch {
    pub track: u32,
    pub direction: Direction,
    pub low: u64,
    pub high: u64,
}

/// The walk of a route: the points passed from its entry to its exit, both among them; for each two
/// neighbours the zone between them, None between detectors at one position; the stretches of track
/// from point to point, one more begun at each end of a track that is crossed; the metres of the
/// release detectors, ascending.
#[derive(Debug, Drop)]
pub struct Walk {
    pub passed: List<Passed>,
    pub zones: List<Option<u32>>,
    pub stretches: List<Stretch>,
    pub releases: List<u64>,
}

/// Why a route has no walk, by the number of the route.
#[derive(Clone, Copy, Debug, PartialEq, Eq, Error)]
pub enum WalkFault {
    /// So many metres from its entry the route comes to an end of a track from which no way leads
    /// on, or to a buffer stop that is not its exit.
    #[error("no way on")]
    NoWay { route: u32, at: u64 },
    /// The route comes to a detector that it has passed.
    #[error("a detector is passed twice")]
    Loop { route: u32 },
    /// The route does not pass this release detector of its own.
    #[error("a release detector beside the route")]
    StrayRelease { route: u32, detector: u32 },
    /// The memory that was needed was not there.
    #[error("no memory")]
    Memory,
}

impl From<NoMemory> for WalkFault {
    ghost use Rattle.std.specs.Prelude.{◌≡◌};
    ghost use Rattle.route_walk.specs.declared.walks.WalkFault.TheVariants.{Memory};

    ghost from_gives = { λ _ e. e ≡ Memory };

    fn from(_refused: NoMemory) -> WalkFault {
        WalkFault::Memory
    }
}
