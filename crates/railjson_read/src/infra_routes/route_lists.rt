//! Routes of a file.

ghost use Rattle.rail_types.specs.InfraIds.{id_of_placed, id_of_route, id_of_switch};
ghost use Rattle.std.specs.Prelude.{◌≡◌, ◌<◌, ◌≤◌, [], codes, length, map, All, IfOk, OnOk};
ghost use Rattle.serde_json.specs.View.{view};
ghost use Rattle.rail_types.specs.Named.{IsId};
ghost use Rattle.rail_types.specs.declared.limits.TheConstants.{MAX_OBJECTS};
ghost use Rattle.infra_fields.specs.Fields.{Gives, GivesNext, read_each, read_items};
ghost use Rattle.rail_types.specs.Infras.{IsRoute, IsRoutePoint};
ghost use Rattle.railjson_read.specs.Routes.{routes_in, route_at, route_in, route_of, point_at};
ghost use Rattle.railjson_read.specs.Routes.{point_in, releases_at, release_at, release_in};

use crate::infra_routes::way_lists::ways;
use infra_fields::{
    InfraFault, direction, found, known, limited, list, new_id, number, object, text, text_in,
};
use json_fields::Place;
use rail_types::id_lists::Listed;
use rail_types::infra_types::{Placed, Route, RoutePoint, Switch};
use rail_types::{List, Name};
use serde_json::Value;
use std::alloc::Global;

/// The routes of a file.
#[tactic(auto, unfolding(crate::specs::Routes::routes_in))]
pub fn routes_of(
    alloc: Global,
    file: &Value,
    switches: &Listed<Switch>,
    detectors: &Listed<Placed>,
    buffer_stops: &Listed<Placed>,
) -> Result<Listed<Route>, InfraFault>
    ensures read { Gives (λ routes. routes) result
        (routes_in switches.now detectors.now buffer_stops.now (view file.now)) }
    ensures few { IfOk result (λ routes. length routes ≤ MAX_OBJECTS) }
    ensures within { IfOk result (λ routes.
        All (IsRoute (length switches.now) (length detectors.now) (length buffer_stops.now))
        routes) }
    ensures named { IfOk result (λ routes. All (λ route. IsId route.id) routes) }
{
    let place = Place::of_file();
    let items = list(alloc, &place, file, "routes")?;
    read_routes(alloc, items, switches, detectors, buffer_stops)
}

/// The routes of a list.
fn read_routes(
    alloc: Global,
    list: &[Value],
    switches: &Listed<Switch>,
    detectors: &Listed<Placed>,
    buffer_stops: &Listed<Placed>,
) -> Result<Listed<Route>, InfraFault>
    requires { length list.now ≤ MAX_OBJECTS }
    ensures read { Gives (λ routes. routes) result
        (read_each id_of_route
        (route_at (map id_of_switch switches.now) (map id_of_placed detectors.now)
        (map id_of_placed buffer_stops.now))
        [] (map view list.now)) }
    ensures few { IfOk result (λ routes. length routes ≤ MAX_OBJECTS) }
    ensures within { IfOk result (λ routes.
        All (IsRoute (length switches.now) (length detectors.now) (length buffer_stops.now))
        routes) }
    ensures named { IfOk result (λ routes. All (λ route. IsId route.id) routes) }
{
    let mut routes = Listed::new(alloc);
    'objects: for value in list {
        read_route(
            alloc,
            routes.len() as u32,
            value,
            switches,
            detectors,
            buffer_stops,
            &mut routes,
        )?;
    }
    Ok(routes)
}

fn read_route(
    alloc: Global,
    index: u32,
    value: &Value,
    switches: &Listed<Switch>,
    detectors: &Listed<Placed>,
    buffer_stops: &Listed<Placed>,
    routes: &mut Listed<Route>,
) -> Result<(), InfraFault>
    requires room { length routes.old < MAX_OBJECTS }
    requires within { All (IsRoute (length switches.now) (length detectors.now)
        (length buffer_stops.now)) routes.old }
    requires named { All (λ route. IsId route.id) routes.old }
    ensures read { GivesNext routes.old routes.new result
        (route_at (map id_of_switch switches.now) (map id_of_placed detectors.now)
        (map id_of_placed buffer_stops.now)
        index (map id_of_route routes.old) (view value.now)) }
    ensures within { OnOk result
        (All (IsRoute (length switches.now) (length detectors.now) (length buffer_stops.now))
        routes.new) }
    ensures named { OnOk result (All (λ route. IsId route.id) routes.new) }
{
    let place = Place::of_element("routes", index);
    push_route(
        alloc,
        &place,
        value,
        switches,
        detectors,
        buffer_stops,
        routes,
    )
}

fn push_route(
    alloc: Global,
    place: &Place,
    value: &Value,
    switches: &Listed<Switch>,
    detectors: &Listed<Placed>,
    buffer_stops: &Listed<Placed>,
    routes: &mut Listed<Route>,
) -> Result<(), InfraFault>
    requires room { length routes.old < MAX_OBJECTS }
    requires within { All (IsRoute (length switches.now) (length detectors.now)
        (length buffer_stops.now)) routes.old }
    requires named { All (λ route. IsId route.id) routes.old }
    ensures read { GivesNext routes.old routes.new result
        (route_in place.now (map id_of_switch switches.now) (map id_of_placed detectors.now)
        (map id_of_placed buffer_stops.now)
        (map id_of_route routes.old) (view value.now)) }
    ensures within { OnOk result
        (All (IsRoute (length switches.now) (length detectors.now) (length buffer_stops.now))
        routes.new) }
    ensures named { OnOk result (All (λ route. IsId route.id) routes.new) }
{
    object(alloc, place, value)?;
    let id = new_id(alloc, place, value, routes)?;
    let route = route(alloc, place, value, id, switches, detectors, buffer_stops)?;
    routes.push(alloc, route, id)?;
    Ok(())
}

/// All of a route with this id.
fn route(
    alloc: Global,
    place: &Place,
    value: &Value,
    id: &str,
    switches: &Listed<Switch>,
    detectors: &Listed<Placed>,
    buffer_stops: &Listed<Placed>,
) -> Result<Route, InfraFault>
    ensures read { Gives (λ route. route) result
        (route_of place.now (map id_of_switch switches.now) (map id_of_placed detectors.now)
        (map id_of_placed buffer_stops.now) id.now (view value.now)) }
    ensures id { IfOk result (λ route. route.id ≡ id.now) }
    ensures within { IfOk result
        (IsRoute (length switches.now) (length detectors.now) (length buffer_stops.now)) }
{
    let entry = point(alloc, place, value, "entry_point", detectors, buffer_stops)?;
    let direction = direction(alloc, place, value, "entry_point_direction")?;
    let exit = point(alloc, place, value, "exit_point", detectors, buffer_stops)?;
    let ways = ways(alloc, place, value, switches)?;
    let releases = releases(alloc, place, value, detectors)?;
    Ok(Route {
        id: Name::from_bytes(alloc, id.as_bytes())?,
        entry,
        direction,
        exit,
        ways,
        releases,
    })
}

/// Where a route begins or ends.
fn point(
    alloc: Global,
    place: &Place,
    value: &Value,
    field: &str,
    detectors: &Listed<Placed>,
    buffer_stops: &Listed<Placed>,
) -> Result<RoutePoint, InfraFault>
    ensures read { Gives (λ point. point) result
        (point_at place.now field.now (map id_of_placed detectors.now)
        (map id_of_placed buffer_stops.now) (view value.now)) }
    ensures within { IfOk result (IsRoutePoint (length detectors.now) (length buffer_stops.now)) }
{
    let found = found(alloc, place, value, field)?;
    let within = place.part(field);
    point_in(alloc, &within, found, detectors, buffer_stops)
}

fn point_in(
    alloc: Global,
    place: &Place,
    value: &Value,
    detectors: &Listed<Placed>,
    buffer_stops: &Listed<Placed>,
) -> Result<RoutePoint, InfraFault>
    ensures read { Gives (λ point. point) result
        (point_in place.now (map id_of_placed detectors.now) (map id_of_placed buffer_stops.now)
        (view value.now)) }
    ensures within { IfOk result (IsRoutePoint (length detectors.now) (length buffer_stops.now)) }
{
    object(alloc, place, value)?;
    let word = text(alloc, place, value, "type")?;
    if word == "Detector" {
        let detector = number(alloc, place, value, "id", detectors)?;
        return Ok(RoutePoint::Detector(detector));
    }
    if word == "BufferStop" {
        let stop = number(alloc, place, value, "id", buffer_stops)?;
        return Ok(RoutePoint::BufferStop(stop));
    }
    Err(InfraFault::Kind {
        spot: place.spot(alloc, "type")?,
    })
}

/// The release detectors of a route.
fn releases(
    alloc: Global,
    place: &Place,
    value: &Value,
    detectors: &Listed<Placed>,
) -> Result<List<u32>, InfraFault>
    ensures read { Gives (λ releases. releases) result
        (releases_at place.now (map id_of_placed detectors.now) (view value.now)) }
    ensures count { IfOk result (λ releases. length releases ≤ MAX_OBJECTS) }
    ensures within { IfOk result
        (λ releases. All (λ release. release < length detectors.now) releases) }
{
    let items = list(alloc, place, value, "release_detectors")?;
    read_releases(alloc, place, items, detectors)
}

fn read_releases(
    alloc: Global,
    place: &Place,
    items: &[Value],
    detectors: &Listed<Placed>,
) -> Result<List<u32>, InfraFault>
    requires { length items.now ≤ MAX_OBJECTS }
    ensures read { Gives (λ releases. releases) result
        (read_items (release_at place.now (map id_of_placed detectors.now)) []
        (map view items.now)) }
    ensures count { IfOk result (λ releases. length releases ≤ MAX_OBJECTS) }
    ensures within { IfOk result
        (λ releases. All (λ release. release < length detectors.now) releases) }
{
    let mut releases = List::new(alloc);
    'items: for item in items {
        releases.push(release_at(alloc, place, releases.len() as u32, item, detectors)?)?;
    }
    Ok(releases)
}

/// The number of a release detector.
fn release_at(
    alloc: Global,
    place: &Place,
    index: u32,
    value: &Value,
    detectors: &Listed<Placed>,
) -> Result<u32, InfraFault>
    ensures read { Gives (λ release. release) result
        (release_at place.now (map id_of_placed detectors.now) index (view value.now)) }
    ensures within { IfOk result (λ release. release < length detectors.now) }
{
    let at = place.item("release_detectors", index);
    release_in(alloc, &at, value, detectors)
}

fn release_in(
    alloc: Global,
    place: &Place,
    value: &Value,
    detectors: &Listed<Placed>,
) -> Result<u32, InfraFault>
    ensures read { Gives (λ release. release) result
        (release_in place.now (map id_of_placed detectors.now) (view value.now)) }
    ensures within { IfOk result (λ release. release < length detectors.now) }
{
    let text = text_in(alloc, place, value, "")?;
    let id = limited(text)?;
    known(alloc, place, id, "", detectors)
}
