//! What lies along the tracks.

use crate::block_cuts::rows::{ByRow, InRow};
use rail_types::List;
use rail_types::infra_types::{Part, Range};

/// A range of a speed section that sets a limit, in millimetres a second.
#[derive(Clone, Copy, Debug, PartialEq, Eq)]
pub struct SpeedRange {
    pub range: Range,
    pub limit: u32,
}

/// A part of an operational point, by the point's number.
#[derive(Clone, Copy, Debug, PartialEq, Eq)]
pub struct StopPart {
    pub stop: u32,
    pub part: Part,
}

impl InRow for SpeedRange {
    ghost row_number = { λ range. range.range.track };

    fn row_number(&self) -> u32 {
        self.range.track
    }
}

impl InRow for StopPart {
    ghost row_number = { λ part. part.part.track };

    fn row_number(&self) -> u32 {
        self.part.track
    }
}

/// What lies along the tracks: by point the sight distance in metres of the signal at which trains
/// pass it, None without one; the ranges of speed limits; the parts of operational points.
#[derive(Drop)]
pub struct Lines {
    pub sights: List<Option<u32>>,
    pub ranges: ByRow<SpeedRange>,
    pub parts: ByRow<StopPart>,
}
