//! Switches, and the ways across them.

use crate::id_lists::HasId;
use crate::infra_types::TrackEnd;
use crate::{List, Name};

/// A kind of switch.
#[derive(Clone, Copy, Debug, PartialEq, Eq)]
pub enum SwitchKind {
    /// Ports A, B1 and B2.
    Point,
    /// Ports A and B.
    Link,
    /// Ports A1, B1, A2 and B2.
    Crossing,
    /// Ports A1, A2, B1 and B2.
    DoubleSlip,
}

/// A switch and the track ends at its ports, in the order of its kind.
#[derive(Debug, Drop)]
pub struct Switch {
    pub id: Name,
    pub kind: SwitchKind,
    pub ports: List<TrackEnd>,
}

/// Which ports of a switch a route joins.
#[derive(Clone, Copy, Debug, PartialEq, Eq)]
pub enum Group {
    AB1,
    AB2,
    A1B1,
    A1B2,
    A2B1,
    A2B2,
    /// A group that no kind of switch has.
    Other,
}

/// The group in which a route crosses a switch.
#[derive(Clone, Copy, Debug, PartialEq, Eq)]
pub struct Way {
    pub switch: u32,
    pub group: Group,
}

impl HasId for Switch {
    ghost use Rattle.rail_types.specs.InfraIds.{id_of_switch};

    ghost id = { id_of_switch };
}
