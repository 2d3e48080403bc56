//! The ways between spots.

use stair_pieces::Step;

/// A step that a train may make from a spot, and the number of the spot behind it.
#[derive(Clone, Copy, Debug, PartialEq, Eq)]
pub struct Way {
    pub step: Step,
    pub next: u32,
}
