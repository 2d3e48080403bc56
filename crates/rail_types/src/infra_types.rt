//! Railway infrastructure as typed lists: tracks, switches, detectors, signals,
//! routes and what lies along them.

mod ends;
mod infras;
mod routes;
mod signals;
mod switches;
mod tracks;

pub use ends::{Applies, Direction, End, TrackEnd};
pub use infras::Infra;
pub use routes::{Route, RoutePoint};
pub use signals::{Bal, Signal};
pub use switches::{Group, Switch, SwitchKind, Way};
pub use tracks::{OperationalPoint, Part, Placed, Range, SpeedSection, Track};
