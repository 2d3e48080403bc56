//! What shows that no path of a request fits.

use rail_types::{List, Window};
use stair_pieces::Place;

/// A place of a request, and ticks at which a train's head may be at the end of its last block;
/// the window holds both its ends.
#[derive(Debug, Drop)]
pub struct Member {
    pub place: Place,
    pub window: Window,
}

/// Members that hold whatever a free move leads to.
#[derive(Debug, Drop)]
pub struct Closed {
    pub members: List<Member>,
}
