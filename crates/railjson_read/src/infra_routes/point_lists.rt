//! Operational points of a file.

ghost use Rattle.rail_types.specs.InfraIds.{id_of_point, id_of_track};
ghost use Rattle.std.specs.Prelude.{◌≡◌, ◌<◌, ◌≤◌, [], codes, length, map, All, IfOk, OnOk, Ok};
ghost use Rattle.serde_json.specs.View.{view};
ghost use Rattle.rail_types.specs.Named.{IsId};
ghost use Rattle.rail_types.specs.declared.limits.TheConstants.{MAX_OBJECTS};
ghost use Rattle.json_fields.specs.Reading.{◌>>=◌ as and_then};
ghost use Rattle.infra_fields.specs.Fields.{Gives, GivesNext, read_each, read_items};
ghost use Rattle.rail_types.specs.Infras.{IsPoint};
ghost use Rattle.railjson_read.specs.Points.{points_in, point_at, point_in, parts_at, part_at};
ghost use Rattle.railjson_read.specs.Points.{part_in};

use infra_fields::{InfraFault, list, new_id, number, object, rounded};
use json_fields::Place;
use rail_types::id_lists::Listed;
use rail_types::infra_types::{OperationalPoint, Part, Track};
use rail_types::{List, Name};
use serde_json::Value;
use std::alloc::Global;

/// The operational points of a file.
#[tactic(auto, unfolding(crate::specs::Points::points_in))]
pub fn points_of(
    alloc: Global,
    file: &Value,
    tracks: &Listed<Track>,
) -> Result<Listed<OperationalPoint>, InfraFault>
    ensures read { Gives (λ points. points) result (points_in tracks.now (view file.now)) }
    ensures few { IfOk result (λ points. length points ≤ MAX_OBJECTS) }
    ensures within { IfOk result (λ points. All (IsPoint (length tracks.now)) points) }
    ensures named { IfOk result (λ points. All (λ point. IsId point.id) points) }
{
    let place = Place::of_file();
    let items = list(alloc, &place, file, "operational_points")?;
    read_points(alloc, items, tracks)
}

/// The operational points of a list.
fn read_points(
    alloc: Global,
    list: &[Value],
    tracks: &Listed<Track>,
) -> Result<Listed<OperationalPoint>, InfraFault>
    requires { length list.now ≤ MAX_OBJECTS }
    ensures read { Gives (λ points. points) result
        (read_each id_of_point (point_at (map id_of_track tracks.now)) [] (map view list.now)) }
    ensures few { IfOk result (λ points. length points ≤ MAX_OBJECTS) }
    ensures within { IfOk result (λ points. All (IsPoint (length tracks.now)) points) }
    ensures named { IfOk result (λ points. All (λ point. IsId point.id) points) }
{
    let mut points = Listed::new(alloc);
    'objects: for value in list {
        read_point(alloc, points.len() as u32, value, tracks, &mut points)?;
    }
    Ok(points)
}

fn read_point(
    alloc: Global,
    index: u32,
    value: &Value,
    tracks: &Listed<Track>,
    points: &mut Listed<OperationalPoint>,
) -> Result<(), InfraFault>
    requires room { length points.old < MAX_OBJECTS }
    requires within { All (IsPoint (length tracks.now)) points.old }
    requires named { All (λ point. IsId point.id) points.old }
    ensures read { GivesNext points.old points.new result
        (point_at (map id_of_track tracks.now) index (map id_of_point points.old)
        (view value.now)) }
    ensures within { OnOk result (All (IsPoint (length tracks.now)) points.new) }
    ensures named { OnOk result (All (λ point. IsId point.id) points.new) }
{
    let place = Place::of_element("operational_points", index);
    push_point(alloc, &place, value, tracks, points)
}

fn push_point(
    alloc: Global,
    place: &Place,
    value: &Value,
    tracks: &Listed<Track>,
    points: &mut Listed<OperationalPoint>,
) -> Result<(), InfraFault>
    requires room { length points.old < MAX_OBJECTS }
    requires within { All (IsPoint (length tracks.now)) points.old }
    requires named { All (λ point. IsId point.id) points.old }
    ensures read { GivesNext points.old points.new result
        (point_in place.now (map id_of_track tracks.now) (map id_of_point points.old)
        (view value.now)) }
    ensures within { OnOk result (All (IsPoint (length tracks.now)) points.new) }
    ensures named { OnOk result (All (λ point. IsId point.id) points.new) }
{
    object(alloc, place, value)?;
    let id = new_id(alloc, place, value, points)?;
    let point = point(alloc, place, value, id, tracks)?;
    points.push(alloc, point, id)?;
    Ok(())
}

/// All of an operational point with this id.
fn point(
    alloc: Global,
    place: &Place,
    value: &Value,
    id: &str,
    tracks: &Listed<Track>,
) -> Result<OperationalPoint, InfraFault>
    ensures read { Gives (λ point. point) result
        (and_then (parts_at place.now (map id_of_track tracks.now) (view value.now)) λ parts.
        Ok (record { id = id.now; parts = parts })) }
    ensures id { IfOk result (λ point. point.id ≡ id.now) }
    ensures within { IfOk result (IsPoint (length tracks.now)) }
{
    let parts = parts(alloc, place, value, tracks)?;
    Ok(OperationalPoint {
        id: Name::from_bytes(alloc, id.as_bytes())?,
        parts,
    })
}

fn parts(
    alloc: Global,
    place: &Place,
    value: &Value,
    tracks: &Listed<Track>,
) -> Result<List<Part>, InfraFault>
    ensures read { Gives (λ parts. parts) result
        (parts_at place.now (map id_of_track tracks.now) (view value.now)) }
    ensures count { IfOk result (λ parts. length parts ≤ MAX_OBJECTS) }
    ensures within { IfOk result (λ parts. All (λ part. part.track < length tracks.now) parts) }
{
    let items = list(alloc, place, value, "parts")?;
    read_parts(alloc, place, items, tracks)
}

fn read_parts(
    alloc: Global,
    place: &Place,
    items: &[Value],
    tracks: &Listed<Track>,
) -> Result<List<Part>, InfraFault>
    requires { length items.now ≤ MAX_OBJECTS }
    ensures read { Gives (λ parts. parts) result
        (read_items (part_at place.now (map id_of_track tracks.now)) [] (map view items.now)) }
    ensures count { IfOk result (λ parts. length parts ≤ MAX_OBJECTS) }
    ensures within { IfOk result (λ parts. All (λ part. part.track < length tracks.now) parts) }
{
    let mut parts = List::new(alloc);
    'items: for item in items {
        parts.push(part_at(alloc, place, parts.len() as u32, item, tracks)?)?;
    }
    Ok(parts)
}

fn part_at(
    alloc: Global,
    place: &Place,
    index: u32,
    value: &Value,
    tracks: &Listed<Track>,
) -> Result<Part, InfraFault>
    ensures read { Gives (λ part. part) result
        (part_at place.now (map id_of_track tracks.now) index (view value.now)) }
    ensures within { IfOk result (λ part. part.track < length tracks.now) }
{
    let at = place.item("parts", index);
    part_in(alloc, &at, value, tracks)
}

fn part_in(
    alloc: Global,
    place: &Place,
    value: &Value,
    tracks: &Listed<Track>,
) -> Result<Part, InfraFault>
    ensures read { Gives (λ part. part) result
        (part_in place.now (map id_of_track tracks.now) (view value.now)) }
    ensures within { IfOk result (λ part. part.track < length tracks.now) }
{
    object(alloc, place, value)?;
    let track = number(alloc, place, value, "track", tracks)?;
    let position = rounded(alloc, place, value, "position", false)?;
    Ok(Part { track, position })
}
