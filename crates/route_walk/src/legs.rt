//! What a walk passes: its points with their metres, and the zones between them.

ghost use Rattle.std.specs.Prelude.{◌≡◌, ◌∷◌, ◌+◌, ◌-◌, ◌*◌, ◌<◌, ◌≤◌, ◌^◌, ℕ, length, map};
ghost use Rattle.std.specs.Prelude.{slice_index_or, IfOk, IfSome, Some, None};
ghost use Rattle.std.specs.List.{All, filter_map, sum_by};
ghost use Rattle.rail_types.specs.Infras.{IsInfra, IsRoute, IsRoutePoint};
ghost use Rattle.track_graph.specs.Layouts.{IsLayoutOf};
ghost use Rattle.route_walk.specs.Entries.{IsPointOf};
ghost use Rattle.route_walk.specs.Legs.{AreBehind, ArePassed, arrival_side, leg_at, length_m};
ghost use Rattle.route_walk.specs.Legs.{number_at, number_of, point_count, point_number};
ghost use Rattle.route_walk.specs.Legs.{side_before, side_before_stop, side_of, stretch_of};
ghost use Rattle.route_walk.specs.Legs.{zone_to};
ghost use Rattle.route_walk.specs.Places.{IsKnown, IsPlace};
ghost use Rattle.route_walk.specs.Sound.{AreSound};

use crate::counts::begun_before;
use crate::places::{Place, Point, length_of};
use crate::walks::{Passed, Stretch};
use no_memory::NoMemory;
use rail_types::infra_types::{Direction, Infra, Route, RoutePoint};
use std::alloc::Global;
use track_graph::Graph;

/// The points that a walk passes, and the zones between them.
#[derive(Drop)]
pub(crate) struct Legs {
    pub passed: Vec<Passed>,
    pub zones: Vec<Option<u32>>,
}

pub(crate) fn length_m(place: &Place) -> u64
    ensures { result ≡ length_m place.now }
{
    let stretch = stretch_of(place);
    stretch.high - stretch.low
}

fn stretch_of(place: &Place) -> Stretch
    ensures { result ≡ stretch_of place.now }
{
    Stretch {
        track: place.spot.track,
        direction: place.spot.direction,
        low: place.from.min(place.spot.at),
        high: place.from.max(place.spot.at),
    }
}

/// The stretches that lead to these places.
pub(crate) fn stretches_of(alloc: Global, places: &[Place]) -> Result<Vec<Stretch>, NoMemory>
    ensures { IfOk result (λ stretches. stretches.items ≡ map stretch_of places.now) }
{
    let mut stretches = Vec::new(alloc);
    'places: for place in places {
        stretches.push(stretch_of(place))?;
    }
    Ok(stretches)
}

/// The metres of all these stretches.
pub(crate) fn metres_of(places: &[Place]) -> u64
    requires few { length places.now ≤ 2 ^ 18 }
    requires short { All (λ place. length_m place ≤ 1000000) places.now }
    ensures { result ≡ sum_by length_m places.now }
{
    let mut metres = 0;
    'places: for place in places {
        metres += length_m(place);
    }
    metres
}

fn side_of(direction: Direction) -> u32
    ensures number { result ≡ side_of direction }
    ensures bound { side_of direction ≤ 1 }
{
    match direction {
        Direction::StartToStop => 0,
        Direction::StopToStart => 1,
    }
}

/// The number of a point among twice so many detectors, and the buffer stops behind them.
pub(crate) fn point_number(infra: &Infra, direction: Direction, point: RoutePoint) -> u32
    requires infra { IsInfra infra.now }
    requires point { IsPointOf infra.now point }
    ensures number { result ≡ point_number (length infra.now.detectors) direction point }
    ensures bound { point_number (length infra.now.detectors) direction point
        < point_count infra.now }
{
    let detectors = infra.detectors.len() as u32;
    match point {
        RoutePoint::Detector(number) => 2 * number + side_of(direction),
        RoutePoint::BufferStop(number) => 2 * (detectors + number) + side_of(direction),
    }
}

fn number_of(infra: &Infra, exit: RoutePoint, direction: Direction, point: Point) -> u32
    requires infra { IsInfra infra.now }
    requires exit { IsRoutePoint (length infra.now.detectors) (length infra.now.buffer_stops) exit }
    requires known { IsKnown (length infra.now.detectors) (Some point) }
    ensures number { result ≡ number_of (length infra.now.detectors) exit direction point }
    ensures bound { number_of (length infra.now.detectors) exit direction point
        < point_count infra.now }
{
    match point {
        Point::Detector(number) => point_number(infra, direction, RoutePoint::Detector(number)),
        Point::Stop { .. } => point_number(infra, direction, exit),
    }
}

fn side_before(direction: Direction, at: u64) -> u64
    requires { at + 1 < 2 ^ 64 }
    ensures { result ≡ side_before direction at }
{
    match direction {
        Direction::StartToStop => at,
        Direction::StopToStart => at + 1,
    }
}

fn side_before_stop(direction: Direction, length_m: u64, at: u64) -> u64
    requires { at + 1 < 2 ^ 64 }
    ensures { result ≡ side_before_stop direction length_m at }
{
    match direction {
        Direction::StartToStop if at == 0 => 0,
        Direction::StartToStop => at + 1,
        Direction::StopToStart if at == length_m => at + 1,
        Direction::StopToStart => at,
    }
}

fn arrival_side(direction: Direction, length_m: u64, at: u64, point: Option<Point>) -> u64
    requires { at + 1 < 2 ^ 64 }
    ensures { result ≡ arrival_side direction length_m at point }
{
    match point {
        None | Some(Point::Detector(_)) => side_before(direction, at),
        Some(Point::Stop { .. }) => side_before_stop(direction, length_m, at),
    }
}

/// The zone through which a place is reached.
fn zone_to(graph: &Graph, infra: &Infra, place: &Place) -> Option<u32>
    requires infra { IsInfra infra.now }
    requires layout { IsLayoutOf infra.now graph.now }
    requires place { IsPlace infra.now graph.now place.now }
    ensures zone { result ≡ zone_to infra.now graph.now place.now }
    ensures below { IfSome result (λ zone. zone < graph.now.count) }
{
    if place.level {
        return None;
    }
    let track = place.spot.track;
    let pieces = graph.pieces(track);
    let length_m = length_of(infra, track);
    let side = arrival_side(place.spot.direction, length_m, place.spot.at, place.point);
    let piece = begun_before(pieces, side).saturating_sub(1);
    let zone = graph.zone_of(track, piece as u32);
    Some(zone)
}

/// The number of the point at a place.
fn number_at(infra: &Infra, exit: RoutePoint, place: &Place) -> Option<u32>
    requires infra { IsInfra infra.now }
    requires exit { IsRoutePoint (length infra.now.detectors) (length infra.now.buffer_stops) exit }
    requires known { IsKnown (length infra.now.detectors) place.now.point }
    ensures number { result ≡ number_at (length infra.now.detectors) exit place.now }
    ensures bound { IfSome result (λ number. number < point_count infra.now) }
{
    match place.point {
        Some(point) => Some(number_of(infra, exit, place.spot.direction, point)),
        None => None,
    }
}

/// What a walk passes that comes by these places.
pub(crate) fn legs_of(
    alloc: Global,
    graph: &Graph,
    infra: &Infra,
    route: &Route,
    entry: &Place,
    places: &[Place],
) -> Result<Legs, NoMemory>
    requires infra { IsInfra infra.now }
    requires layout { IsLayoutOf infra.now graph.now }
    requires route { IsRoute (length infra.now.switches) (length infra.now.detectors)
        (length infra.now.buffer_stops) route.now }
    requires places { All (IsPlace infra.now graph.now) places.now }
    requires few { length places.now ≤ 2 ^ 18 }
    requires short { All (λ place. length_m place ≤ 1000000) places.now }
    requires behind { AreBehind entry.now places.now }
    ensures passed { IfOk result (λ legs.
        ArePassed (length infra.now.detectors) route.now places.now legs.passed.items) }
    ensures zones { IfOk result (λ legs.
        legs.zones.items ≡ filter_map (leg_at infra.now graph.now) places.now) }
    ensures sound { IfOk result (λ legs.
        AreSound graph.now.count (point_count infra.now) legs.passed.items legs.zones.items) }
{
    let mut passed = Vec::new(alloc);
    let mut zones = Vec::new(alloc);
    passed.push(Passed {
        point: point_number(infra, route.direction, route.entry),
        metres: 0,
        reach: 0,
    })?;
    let mut metres = 0;
    'places: for index in 0..places.len() as u32 {
        let place = &places[index as usize];
        metres += length_m(place);
        if let Some(number) = number_at(infra, route.exit, place) {
            zones.push(zone_to(graph, infra, place))?;
            passed.push(Passed {
                point: number,
                metres,
                reach: index + 1,
            })?;
        }
    }
    Ok(Legs { passed, zones })
}
