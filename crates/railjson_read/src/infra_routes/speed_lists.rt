//! Speed sections of a file.

ghost use Rattle.rail_types.specs.InfraIds.{id_of_speed};
ghost use Rattle.std.specs.Prelude.{◌≡◌, ◌<◌, ◌≤◌, ◌^◌, [], codes, length, map, All, IfOk, IfSome};
ghost use Rattle.std.specs.Prelude.{Ok, OnOk, min, slice_index_or};
ghost use Rattle.serde_json.specs.View.{view};
ghost use Rattle.rail_types.specs.declared.limits.TheConstants.{MAX_OBJECTS, MAX_SPEED_MM_S};
ghost use Rattle.json_fields.specs.Places.{spot_of};
ghost use Rattle.json_fields.specs.Reading.{◌>>=◌ as and_then};
ghost use Rattle.infra_fields.specs.Fields.{Gives, GivesNext, read_each, read_items};
ghost use Rattle.rail_types.specs.Infras.{IsSpeed, IsRange, lengths_of};
ghost use Rattle.railjson_read.specs.Speeds.{speeds_in, speed_at, speed_in, limit_at, limit_found};
ghost use Rattle.railjson_read.specs.Speeds.{mm_s_at, counted, ranges_at, range_at, range_in};
ghost use Rattle.railjson_read.specs.Speeds.{clipped};

use infra_fields::{
    InfraFault, What, applies, list, new_id, not_negative, number, object, read, rounded,
};
use json_fields::{Place, scaled_in};
use rail_types::id_lists::Listed;
use rail_types::infra_types::{Range, SpeedSection, Track};
use rail_types::{List, MAX_SPEED_MM_S, Name};
use serde_json::Value;
use std::alloc::Global;

/// The speed sections of a file.
#[tactic(auto, unfolding(crate::specs::Speeds::speeds_in))]
pub fn speeds_of(
    alloc: Global,
    file: &Value,
    tracks: &Listed<Track>,
) -> Result<Listed<SpeedSection>, InfraFault>
    ensures read { Gives (λ speeds. speeds) result (speeds_in tracks.now (view file.now)) }
    ensures few { IfOk result (λ speeds. length speeds ≤ MAX_OBJECTS) }
    ensures within { IfOk result (λ speeds. All (IsSpeed (lengths_of tracks.now)) speeds) }
{
    let place = Place::of_file();
    let items = list(alloc, &place, file, "speed_sections")?;
    read_speeds(alloc, items, tracks)
}

/// The speed sections of a list.
fn read_speeds(
    alloc: Global,
    list: &[Value],
    tracks: &Listed<Track>,
) -> Result<Listed<SpeedSection>, InfraFault>
    requires { length list.now ≤ MAX_OBJECTS }
    ensures read { Gives (λ speeds. speeds) result
        (read_each id_of_speed (speed_at tracks.now) [] (map view list.now)) }
    ensures few { IfOk result (λ speeds. length speeds ≤ MAX_OBJECTS) }
    ensures within { IfOk result (λ speeds. All (IsSpeed (lengths_of tracks.now)) speeds) }
{
    let mut speeds = Listed::new(alloc);
    'objects: for value in list {
        read_speed(alloc, speeds.len() as u32, value, tracks, &mut speeds)?;
    }
    Ok(speeds)
}

fn read_speed(
    alloc: Global,
    index: u32,
    value: &Value,
    tracks: &Listed<Track>,
    speeds: &mut Listed<SpeedSection>,
) -> Result<(), InfraFault>
    requires room { length speeds.old < MAX_OBJECTS }
    requires within { All (IsSpeed (lengths_of tracks.now)) speeds.old }
    ensures read { GivesNext speeds.old speeds.new result
        (speed_at tracks.now index (map id_of_speed speeds.old) (view value.now)) }
    ensures within { OnOk result (All (IsSpeed (lengths_of tracks.now)) speeds.new) }
{
    let place = Place::of_element("speed_sections", index);
    push_speed(alloc, &place, value, tracks, speeds)
}

fn push_speed(
    alloc: Global,
    place: &Place,
    value: &Value,
    tracks: &Listed<Track>,
    speeds: &mut Listed<SpeedSection>,
) -> Result<(), InfraFault>
    requires room { length speeds.old < MAX_OBJECTS }
    requires within { All (IsSpeed (lengths_of tracks.now)) speeds.old }
    ensures read { GivesNext speeds.old speeds.new result
        (speed_in place.now tracks.now (map id_of_speed speeds.old) (view value.now)) }
    ensures within { OnOk result (All (IsSpeed (lengths_of tracks.now)) speeds.new) }
{
    object(alloc, place, value)?;
    let id = new_id(alloc, place, value, speeds)?;
    let section = section(alloc, place, value, id, tracks)?;
    speeds.push(alloc, section, id)?;
    Ok(())
}

/// All of a speed section with this id.
fn section(
    alloc: Global,
    place: &Place,
    value: &Value,
    id: &str,
    tracks: &Listed<Track>,
) -> Result<SpeedSection, InfraFault>
    ensures read { Gives (λ section. section) result
        (and_then (limit_at place.now (view value.now)) λ limit.
        and_then (ranges_at place.now tracks.now (view value.now)) λ ranges.
        Ok (record { id = id.now; limit = limit; ranges = ranges })) }
    ensures id { IfOk result (λ section. section.id ≡ id.now) }
    ensures within { IfOk result (IsSpeed (lengths_of tracks.now)) }
{
    let limit = limit(alloc, place, value)?;
    let ranges = ranges(alloc, place, value, tracks)?;
    Ok(SpeedSection {
        id: Name::from_bytes(alloc, id.as_bytes())?,
        limit,
        ranges,
    })
}

/// The limit of a section in millimetres a second, None where it is absent or null.
fn limit(alloc: Global, place: &Place, value: &Value) -> Result<Option<u32>, InfraFault>
    ensures limit { Gives (λ limit. limit) result (limit_at place.now (view value.now)) }
    ensures within { IfOk result
        (λ limit. IfSome limit (λ mm_s. (1 ≤ mm_s) × (mm_s ≤ MAX_SPEED_MM_S))) }
{
    let Some(found) = value.get("speed_limit") else {
        return Ok(None);
    };
    if found.is_null() {
        return Ok(None);
    }
    let mm_s = mm_s(alloc, place, found)?;
    Ok(Some(mm_s))
}

fn mm_s(alloc: Global, place: &Place, found: &Value) -> Result<u32, InfraFault>
    ensures mm_s { Gives (λ mm_s. mm_s) result (mm_s_at place.now (view found.now)) }
    ensures within { IfOk result (λ mm_s. (1 ≤ mm_s) × (mm_s ≤ MAX_SPEED_MM_S)) }
{
    let number = read(
        alloc,
        place,
        found,
        "speed_limit",
        scaled_in(found, false, true),
    )?;
    let mm_s = not_negative(alloc, place, "speed_limit", &number)?;
    counted(mm_s)
}

/// What a limit counts as: none may be 0, and a greater one counts as the greatest speed.
fn counted(mm_s: u64) -> Result<u32, InfraFault>
    ensures mm_s { Gives (λ mm_s. mm_s) result (counted mm_s) }
    ensures within { IfOk result (λ mm_s. (1 ≤ mm_s) × (mm_s ≤ MAX_SPEED_MM_S)) }
{
    if mm_s == 0 {
        return Err(InfraFault::Limit {
            what: What::Speed,
            count: 0,
        });
    }
    Ok(mm_s.min(u64::from(MAX_SPEED_MM_S)) as u32)
}

fn ranges(
    alloc: Global,
    place: &Place,
    value: &Value,
    tracks: &Listed<Track>,
) -> Result<List<Range>, InfraFault>
    ensures read { Gives (λ ranges. ranges) result
        (ranges_at place.now tracks.now (view value.now)) }
    ensures count { IfOk result (λ ranges. length ranges ≤ MAX_OBJECTS) }
    ensures within { IfOk result (λ ranges. All (IsRange (lengths_of tracks.now)) ranges) }
{
    let items = list(alloc, place, value, "track_ranges")?;
    read_ranges(alloc, place, items, tracks)
}

fn read_ranges(
    alloc: Global,
    place: &Place,
    items: &[Value],
    tracks: &Listed<Track>,
) -> Result<List<Range>, InfraFault>
    requires { length items.now ≤ MAX_OBJECTS }
    ensures read { Gives (λ ranges. ranges) result
        (read_items (range_at place.now tracks.now) [] (map view items.now)) }
    ensures count { IfOk result (λ ranges. length ranges ≤ MAX_OBJECTS) }
    ensures within { IfOk result (λ ranges. All (IsRange (lengths_of tracks.now)) ranges) }
{
    let mut ranges = List::new(alloc);
    'items: for item in items {
        ranges.push(range_at(alloc, place, ranges.len() as u32, item, tracks)?)?;
    }
    Ok(ranges)
}

fn range_at(
    alloc: Global,
    place: &Place,
    index: u32,
    value: &Value,
    tracks: &Listed<Track>,
) -> Result<Range, InfraFault>
    ensures read { Gives (λ range. range) result
        (range_at place.now tracks.now index (view value.now)) }
    ensures within { IfOk result (IsRange (lengths_of tracks.now)) }
{
    let at = place.item("track_ranges", index);
    range_in(alloc, &at, value, tracks)
}

fn range_in(
    alloc: Global,
    place: &Place,
    value: &Value,
    tracks: &Listed<Track>,
) -> Result<Range, InfraFault>
    ensures read { Gives (λ range. range) result (range_in place.now tracks.now (view value.now)) }
    ensures within { IfOk result (IsRange (lengths_of tracks.now)) }
{
    object(alloc, place, value)?;
    let track = number(alloc, place, value, "track", tracks)?;
    let begin = rounded(alloc, place, value, "begin", false)?;
    let end = rounded(alloc, place, value, "end", true)?;
    let applies = applies(alloc, place, value, "applicable_directions")?;
    Ok(Range {
        track,
        begin: clipped(begin, track, tracks.as_slice()),
        end: clipped(end, track, tracks.as_slice()),
        applies,
    })
}

/// A position, or the end of its track where that is nearer.
fn clipped(metres: u64, track: u32, tracks: &[Track]) -> u32
    requires { track < length tracks.now }
    ensures { result ≡ clipped metres (slice_index_or (lengths_of tracks.now) track 0) }
{
    metres.min(u64::from(tracks[track as usize].length)) as u32
}
