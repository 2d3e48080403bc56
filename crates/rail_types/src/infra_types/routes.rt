//! Routes.

use crate::id_lists::HasId;
use crate::infra_types::{Direction, Way};
use crate::{List, Name};

/// Where a route begins or ends, by the number of the detector or the buffer stop.
#[derive(Clone, Copy, Debug, PartialEq, Eq)]
pub enum RoutePoint {
    Detector(u32),
    BufferStop(u32),
}

/// A route: its entry and the direction in which it is left, its exit, its ways by ascending switch
/// number, and its release detectors in the file's order.
#[derive(Debug, Drop)]
pub struct Route {
    pub id: Name,
    pub entry: RoutePoint,
    pub direction: Direction,
    pub exit: RoutePoint,
    pub ways: List<Way>,
    pub releases: List<u32>,
}

impl HasId for Route {
    ghost use Rattle.rail_types.specs.InfraIds.{id_of_route};

    ghost id = { id_of_route };
}
