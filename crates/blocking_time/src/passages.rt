//! Passages of zones.

ghost use Rattle.std.specs.Prelude.{◌≡◌, ◌≤◌};
ghost use Rattle.rail_types.specs.Limits.{IsTrainWithinLimits};
ghost use Rattle.blocking_time.specs.Passages.{passage_of};

use rail_types::{Cell, MAX_BLOCK_LENGTH_M, Train};

/// A passage of a zone that a train has begun, and the metres that its head
/// still goes until it is cleared.
#[derive(Clone, Copy, Debug, PartialEq, Eq)]
pub struct Passage {
    pub zone: u32,
    pub metres: u32,
}

impl Passage {
    /// The passage of a cell by a train whose head is at the beginning of the cell's block.
    pub fn of(train: &Train, cell: &Cell) -> Passage
        requires train { IsTrainWithinLimits train.now }
        requires cell { cell.now.release_m ≤ MAX_BLOCK_LENGTH_M }
        ensures { result ≡ passage_of train.now cell.now }
    {
        Passage {
            zone: cell.zone,
            metres: cell.release_m + train.length_m,
        }
    }
}
