//! Railway infrastructure as OSRD's RailJSON describes it: the bytes of
//! a file, read to typed lists.
//!
//! *Inside*: the lists of a file that is read, joined to an infrastructure.
#![tactic(auto)]

mod files;
pub mod infra_lists;
pub mod infra_routes;
mod wholes;

pub use files::read_infra;
pub use infra_fields::{InfraFault, What, fault_text};
pub use rail_types::infra_types::{
    Applies, Bal, Direction, End, Group, Infra, OperationalPoint, Part, Placed, Range, Route,
    RoutePoint, Signal, SpeedSection, Switch, SwitchKind, Track, TrackEnd, Way,
};
