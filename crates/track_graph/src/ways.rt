//! The ways across a switch.

ghost use Rattle.std.specs.Prelude.{◌≡◌, ◌∷◌, []};
ghost use Rattle.track_graph.specs.Ways.{port_across, point_ways, slip_ways, ways};

use rail_types::List;
use rail_types::infra_types::{Group, SwitchKind, TrackEnd};

/// A switch: its kind, and the track ends at its ports.
#[derive(Debug, Drop)]
pub(crate) struct Junction {
    pub kind: SwitchKind,
    pub ports: List<TrackEnd>,
}

/// The port to which a group leads from this one, by their places in the order of the kind's ports.
pub(crate) fn port_across(kind: SwitchKind, group: Group, port: u32) -> Option<u32>
    ensures { result ≡ port_across (ways kind group) port }
{
    match kind {
        SwitchKind::Point => on_point(group, port),
        SwitchKind::Link => partner(port, 0, 1),
        SwitchKind::Crossing if port < 2 => partner(port, 0, 1),
        SwitchKind::Crossing => partner(port, 2, 3),
        SwitchKind::DoubleSlip => on_slip(group, port),
    }
}

// Ports A, B1 and B2.
fn on_point(group: Group, port: u32) -> Option<u32>
    ensures { result ≡ port_across (point_ways group) port }
{
    match group {
        Group::AB1 => partner(port, 0, 1),
        Group::AB2 => partner(port, 0, 2),
        _ => None,
    }
}

// Ports A1, A2, B1 and B2.
fn on_slip(group: Group, port: u32) -> Option<u32>
    ensures { result ≡ port_across (slip_ways group) port }
{
    match group {
        Group::A1B1 => partner(port, 0, 2),
        Group::A1B2 => partner(port, 0, 3),
        Group::A2B1 => partner(port, 1, 2),
        Group::A2B2 => partner(port, 1, 3),
        _ => None,
    }
}

// The other port of the pair.
fn partner(port: u32, one: u32, other: u32) -> Option<u32>
    ensures { result ≡ port_across ((one, other) ∷ []) port }
{
    if port == one {
        Some(other)
    } else if port == other {
        Some(one)
    } else {
        None
    }
}
