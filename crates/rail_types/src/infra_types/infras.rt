//! An infrastructure as its file gives it.

use crate::List;
use crate::infra_types::{OperationalPoint, Placed, Route, Signal, SpeedSection, Switch, Track};

/// The lists of an infrastructure in the file's order, in which names of other objects
/// are replaced by their numbers.
#[derive(Debug, Drop)]
pub struct Infra {
    pub tracks: List<Track>,
    pub switches: List<Switch>,
    pub detectors: List<Placed>,
    pub buffer_stops: List<Placed>,
    pub signals: List<Signal>,
    pub routes: List<Route>,
    pub points: List<OperationalPoint>,
    pub speeds: List<SpeedSection>,
}
