//! Follows a route's ways across switches.

ghost use Rattle.std.specs.Prelude.{◌≡◌, ◌<◌, ◌≤◌, length, slice_get, IfSome};
ghost use Rattle.std.specs.List.{AllPairs, AllWithin};
ghost use Rattle.rail_types.specs.Infras.{IsInfra};
ghost use Rattle.track_graph.specs.Layouts.{IsLayoutOf};
ghost use Rattle.route_walk.specs.Places.{IsPlace};
ghost use Rattle.route_walk.specs.Ways.{IsLead, IsNext, end_of, group_of};

use crate::places::{Place, Spot, begin_of, come};
use rail_types::infra_types::{Direction, End, Group, Infra, TrackEnd, Way};
use track_graph::Graph;

/// The group in which a route with these ways crosses a switch.
fn group_of(ways: &[Way], switch: u32) -> Group
    requires { AllPairs (λ one later. one.switch < later.switch) ways.now }
    ensures { result ≡ group_of ways.now switch }
{
    let Some(way) = way_at(ways, first_from(ways, switch)) else {
        return Group::Other;
    };
    if way.switch == switch {
        way.group
    } else {
        Group::Other
    }
}

/// Of ways by ascending switch the first one at this switch or behind it.
fn first_from(ways: &[Way], switch: u32) -> usize
    requires { AllPairs (λ one later. one.switch < later.switch) ways.now }
    ensures before { AllWithin (λ way. way.switch < switch) ways.now 0 result }
    ensures after { AllWithin (λ way. switch ≤ way.switch) ways.now result (length ways.now) }
{
    ways.partition_point(|way| way.switch < switch)
}

fn way_at(ways: &[Way], index: usize) -> Option<Way>
    ensures { result ≡ slice_get ways.now index }
{
    match ways.get(index) {
        Some(way) => Some(*way),
        None => None,
    }
}

/// The end of a track to which the route's group leads from this one.
fn leads(graph: &Graph, infra: &Infra, ways: &[Way], end: TrackEnd) -> Option<TrackEnd>
    requires infra { IsInfra infra.now }
    requires layout { IsLayoutOf infra.now graph.now }
    requires ascend { AllPairs (λ one later. one.switch < later.switch) ways.now }
    ensures lead { IsLead graph.now ways.now end result }
    ensures known { IfSome result (λ end. end.track < length infra.now.tracks) }
{
    let Some(switch) = graph.switch_at(end) else {
        return None;
    };
    graph.step(end, group_of(ways, switch))
}

fn end_of(spot: &Spot) -> TrackEnd
    ensures { result ≡ end_of spot.now }
{
    let end = match spot.direction {
        Direction::StartToStop => End::End,
        Direction::StopToStart => End::Begin,
    };
    TrackEnd {
        track: spot.track,
        end,
    }
}

/// What a route comes to next.
pub(crate) fn ahead(graph: &Graph, infra: &Infra, ways: &[Way], place: &Place) -> Option<Place>
    requires infra { IsInfra infra.now }
    requires layout { IsLayoutOf infra.now graph.now }
    requires ascend { AllPairs (λ one later. one.switch < later.switch) ways.now }
    requires place { IsPlace infra.now graph.now place.now }
    ensures next { IsNext infra.now graph.now ways.now place.now result }
    ensures on { IfSome result (IsPlace infra.now graph.now) }
{
    if place.point.is_some() {
        return Some(come(graph, infra, &place.spot));
    }
    let Some(end) = leads(graph, infra, ways, end_of(&place.spot)) else {
        return None;
    };
    let spot = begin_of(graph, infra, end);
    Some(come(graph, infra, &spot))
}
