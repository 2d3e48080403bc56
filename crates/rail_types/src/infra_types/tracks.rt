//! Tracks, and what stands on them.

use crate::id_lists::HasId;
use crate::infra_types::Applies;
use crate::{List, Name};

/// A track section and its length in metres.
#[derive(Debug, Drop)]
pub struct Track {
    pub id: Name,
    pub length: u32,
}

/// A detector or a buffer stop: its track, and its metres from the track's begin.
#[derive(Debug, Drop)]
pub struct Placed {
    pub id: Name,
    pub track: u32,
    pub position: u64,
}

/// A part of an operational point: its track, and its metres from the track's begin.
#[derive(Clone, Copy, Debug, PartialEq, Eq)]
pub struct Part {
    pub track: u32,
    pub position: u64,
}

/// An operational point and its parts.
#[derive(Debug, Drop)]
pub struct OperationalPoint {
    pub id: Name,
    pub parts: List<Part>,
}

/// A stretch of a track, in metres from the track's begin and clipped to the
/// track, and the directions in which a limit applies there. It covers nothing
/// where its begin is not below its end.
#[derive(Clone, Copy, Debug, PartialEq, Eq)]
pub struct Range {
    pub track: u32,
    pub begin: u32,
    pub end: u32,
    pub applies: Applies,
}

/// A speed section: its limit in millimetres a second, if it sets one, and where it applies.
#[derive(Debug, Drop)]
pub struct SpeedSection {
    pub id: Name,
    pub limit: Option<u32>,
    pub ranges: List<Range>,
}

impl HasId for Track {
    ghost use Rattle.rail_types.specs.InfraIds.{id_of_track};

    ghost id = { id_of_track };
}

impl HasId for Placed {
    ghost use Rattle.rail_types.specs.InfraIds.{id_of_placed};

    ghost id = { id_of_placed };
}

impl HasId for OperationalPoint {
    ghost use Rattle.rail_types.specs.InfraIds.{id_of_point};

    ghost id = { id_of_point };
}

impl HasId for SpeedSection {
    ghost use Rattle.rail_types.specs.InfraIds.{id_of_speed};

    ghost id = { id_of_speed };
}
