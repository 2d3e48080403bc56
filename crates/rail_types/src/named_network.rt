//! A network with the names of its operational points, blocks and zones, as
//! its infrastructure gives them.

ghost use Rattle.std.specs.Prelude.{◌≡◌, IfOk};

use crate::{List, Name, Network};
use no_memory::NoMemory;
use std::alloc::Global;

/// A piece of a track: the track's name, and where the piece begins and ends, in
/// metres from the track's begin.
#[derive(Debug, Drop)]
pub struct TrackPiece {
    pub track: Name,
    pub begin: u32,
    pub end: u32,
}

/// The pieces of a zone, in the order in which pieces are numbered: by track in file
/// order, then along the track.
#[derive(Debug, Drop)]
pub struct ZoneName {
    pub pieces: List<TrackPiece>,
}

/// The route of which a block is a part, and the part's number along the route, from 0.
#[derive(Debug, Drop)]
pub struct BlockName {
    pub route: Name,
    pub part: u32,
}

/// A network, and the names of its operational points, blocks and zones by their numbers.
#[derive(Debug, Drop)]
pub struct Named {
    pub network: Network,
    pub stops: List<Name>,
    pub blocks: List<BlockName>,
    pub zones: List<ZoneName>,
}

impl TrackPiece {
    /// An equal piece of its own.
    pub fn copy(&self, alloc: Global) -> Result<TrackPiece, NoMemory>
        ensures { IfOk result (λ piece. piece ≡ self.now) }
    {
        Ok(TrackPiece {
            track: self.track.copy(alloc)?,
            begin: self.begin,
            end: self.end,
        })
    }
}

impl BlockName {
    /// An equal name of its own.
    pub fn copy(&self, alloc: Global) -> Result<BlockName, NoMemory>
        ensures { IfOk result (λ name. name ≡ self.now) }
    {
        Ok(BlockName {
            route: self.route.copy(alloc)?,
            part: self.part,
        })
    }
}
