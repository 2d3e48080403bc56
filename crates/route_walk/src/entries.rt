//! Where a route begins, and where it ends.

ghost use Rattle.std.specs.Prelude.{◌≡◌, ◌<◌, ◌≤◌, ◌+◌, ◌^◌, length, IfSome};
ghost use Rattle.std.specs.List.{AllPairs};
ghost use Rattle.rail_types.specs.Infras.{IsInfra};
ghost use Rattle.track_graph.specs.Layouts.{IsLayoutOf};
ghost use Rattle.track_graph.specs.Pieces.{length_of};
ghost use Rattle.track_graph.specs.Stands.{ComesBefore};
ghost use Rattle.route_walk.specs.Places.{IsPlace, IsSpot};
ghost use Rattle.route_walk.specs.Entries.{IsPointOf, detector_spot, entry_of, exit_of, gap_past};
ghost use Rattle.route_walk.specs.Entries.{is_beside, metre_at, side_of_detector, side_of_stop};
ghost use Rattle.route_walk.specs.Entries.{side_past_stop, stop_from, stop_spot, track_at};

use crate::counts::{below, rank_of};
use crate::places::{Place, Point, Spot, ahead_in, length_of, position_of};
use rail_types::infra_types::{Direction, Infra, Placed, Route, RoutePoint};
use track_graph::{Graph, Stand};

fn track_at(all: &[Placed], number: u32) -> u32
    ensures { result ≡ track_at all.now number }
{
    match all.get(number as usize) {
        Some(placed) => placed.track,
        None => 0,
    }
}

fn metre_at(all: &[Placed], number: u32) -> u64
    ensures { result ≡ metre_at all.now number }
{
    match all.get(number as usize) {
        Some(placed) => placed.position,
        None => 0,
    }
}

/// The point at which a route ends.
pub(crate) fn exit_of(infra: &Infra, exit: RoutePoint) -> Point
    ensures { result ≡ exit_of infra.now exit }
{
    let stops = infra.buffer_stops.as_slice();
    match exit {
        RoutePoint::Detector(number) => Point::Detector(number),
        RoutePoint::BufferStop(number) => Point::Stop {
            track: track_at(stops, number),
            at: metre_at(stops, number),
        },
    }
}

fn stop_from(direction: Direction, metre: u64, stops: &[Stand]) -> Option<u64>
    requires { AllPairs ComesBefore stops.now }
    ensures { result ≡ stop_from direction metre stops.now }
{
    position_of(ahead_in(stops, direction, below(stops, metre)))
}

fn gap_past(direction: Direction, rank: usize) -> usize
    requires { rank + 1 < 2 ^ 64 }
    ensures { result ≡ gap_past direction rank }
{
    match direction {
        Direction::StartToStop => rank + 1,
        Direction::StopToStart => rank,
    }
}

fn side_of_detector(direction: Direction, length_m: u64, metre: u64) -> u64
    requires { metre + 1 < 2 ^ 64 }
    ensures { result ≡ side_of_detector direction length_m metre }
{
    match direction {
        Direction::StartToStop => metre.max(1),
        Direction::StopToStart => length_m.min(metre + 1),
    }
}

fn side_of_stop(direction: Direction, length_m: u64, metre: u64) -> u64
    requires { metre + 1 < 2 ^ 64 }
    ensures { result ≡ side_of_stop direction length_m metre }
{
    match direction {
        Direction::StartToStop if metre == length_m => metre + 1,
        Direction::StartToStop => metre,
        Direction::StopToStart if metre == 0 => 0,
        Direction::StopToStart => metre + 1,
    }
}

fn side_past_stop(direction: Direction, metre: u64) -> u64
    requires { metre + 1 < 2 ^ 64 }
    ensures { result ≡ side_past_stop direction metre }
{
    match direction {
        Direction::StartToStop => metre + 1,
        Direction::StopToStart => metre,
    }
}

/// Where a route is that leaves a detector.
fn detector_spot(graph: &Graph, infra: &Infra, direction: Direction, number: u32) -> Spot
    requires infra { IsInfra infra.now }
    requires layout { IsLayoutOf infra.now graph.now }
    requires number { number < length infra.now.detectors }
    ensures spot { result ≡ detector_spot infra.now graph.now direction number }
    ensures on { IsSpot infra.now graph.now (detector_spot infra.now graph.now direction number) }
{
    let detectors = infra.detectors.as_slice();
    let track = track_at(detectors, number);
    let at = metre_at(detectors, number);
    let stands = graph.stands(track);
    let stops = graph.stops(track);
    let side = side_of_detector(direction, length_of(infra, track), at);
    Spot {
        track,
        direction,
        at,
        gap: gap_past(direction, rank_of(stands, at, number)),
        stop: stop_from(direction, side, stops),
        passed: true,
    }
}

/// Whether the exit is another buffer stop at the position of this one, inside the track.
fn is_beside(infra: &Infra, number: u32, exit: RoutePoint) -> bool
    ensures { result ≡ is_beside infra.now number exit }
{
    let RoutePoint::BufferStop(other) = exit else {
        return false;
    };
    let stops = infra.buffer_stops.as_slice();
    let track = track_at(stops, number);
    let at = metre_at(stops, number);
    other != number
        && track_at(stops, other) == track
        && metre_at(stops, other) == at
        && 0 < at
        && at < length_of(infra, track)
}

/// Where a route is that leaves a buffer stop.
fn stop_spot(
    graph: &Graph,
    infra: &Infra,
    direction: Direction,
    number: u32,
    exit: RoutePoint,
) -> Spot
    requires infra { IsInfra infra.now }
    requires layout { IsLayoutOf infra.now graph.now }
    requires number { number < length infra.now.buffer_stops }
    ensures spot { result ≡ stop_spot infra.now graph.now direction number exit }
    ensures on { IsSpot infra.now graph.now (stop_spot infra.now graph.now direction number exit) }
{
    let buffers = infra.buffer_stops.as_slice();
    let track = track_at(buffers, number);
    let at = metre_at(buffers, number);
    let stands = graph.stands(track);
    let stops = graph.stops(track);
    let side = side_of_stop(direction, length_of(infra, track), at);
    Spot {
        track,
        direction,
        at,
        gap: below(stands, side),
        stop: if is_beside(infra, number, exit) {
            Some(at)
        } else {
            stop_from(direction, side_past_stop(direction, at), stops)
        },
        passed: false,
    }
}

/// The place at which a route begins.
pub(crate) fn entry_of(graph: &Graph, infra: &Infra, route: &Route) -> Place
    requires infra { IsInfra infra.now }
    requires layout { IsLayoutOf infra.now graph.now }
    requires entry { IsPointOf infra.now route.now.entry }
    ensures place { result ≡ entry_of infra.now graph.now route.now }
    ensures on { IsPlace infra.now graph.now (entry_of infra.now graph.now route.now) }
{
    match route.entry {
        RoutePoint::Detector(number) => Place {
            from: metre_at(infra.detectors.as_slice(), number),
            point: Some(Point::Detector(number)),
            level: false,
            spot: detector_spot(graph, infra, route.direction, number),
        },
        RoutePoint::BufferStop(number) => Place {
            from: metre_at(infra.buffer_stops.as_slice(), number),
            point: Some(exit_of(infra, route.entry)),
            level: false,
            spot: stop_spot(graph, infra, route.direction, number, route.exit),
        },
    }
}
