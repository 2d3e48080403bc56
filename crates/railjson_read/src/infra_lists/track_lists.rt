//! Tracks, detectors and buffer stops of a file.

ghost use Rattle.rail_types.specs.InfraIds.{id_of_placed, id_of_track};
ghost use Rattle.std.specs.Prelude.{◌≡◌, ◌<◌, ◌≤◌, [], codes, length, map, All, IfOk, OnOk, Ok};
ghost use Rattle.serde_json.specs.View.{view};
ghost use Rattle.rail_types.specs.Named.{IsId};
ghost use Rattle.rail_types.specs.declared.limits.TheConstants.{MAX_OBJECTS};
ghost use Rattle.json_fields.specs.Reading.{◌>>=◌ as and_then};
ghost use Rattle.infra_fields.specs.Fields.{Gives, GivesNext, read_each};
ghost use Rattle.rail_types.specs.Infras.{IsTrack, IsPlaced};
ghost use Rattle.railjson_read.specs.Objects.{all_placed_in, tracks_in, track_at, track_in};
ghost use Rattle.railjson_read.specs.Objects.{placed_at, placed_in, length_at};
ghost use Rattle.infra_fields.specs.Fields.{number_at, metres_at};

use infra_fields::{InfraFault, What, limit, list, metres, new_id, number, object};
use json_fields::Place;
use rail_types::id_lists::Listed;
use rail_types::infra_types::{Placed, Track};
use rail_types::{MAX_TRACK_LENGTH_M, Name};
use serde_json::Value;
use std::alloc::Global;

/// The tracks of a file.
#[tactic(auto, unfolding(crate::specs::Objects::tracks_in))]
pub fn tracks_of(alloc: Global, file: &Value) -> Result<Listed<Track>, InfraFault>
    ensures read { Gives (λ tracks. tracks) result (tracks_in (view file.now)) }
    ensures few { IfOk result (λ tracks. length tracks ≤ MAX_OBJECTS) }
    ensures within { IfOk result (λ tracks. All IsTrack tracks) }
    ensures named { IfOk result (λ tracks. All (λ track. IsId track.id) tracks) }
{
    let place = Place::of_file();
    let items = list(alloc, &place, file, "track_sections")?;
    read_tracks(alloc, items)
}

/// The tracks of a list.
fn read_tracks(alloc: Global, list: &[Value]) -> Result<Listed<Track>, InfraFault>
    requires { length list.now ≤ MAX_OBJECTS }
    ensures read { Gives (λ tracks. tracks) result
        (read_each id_of_track track_at [] (map view list.now)) }
    ensures few { IfOk result (λ tracks. length tracks ≤ MAX_OBJECTS) }
    ensures within { IfOk result (λ tracks. All IsTrack tracks) }
    ensures named { IfOk result (λ tracks. All (λ track. IsId track.id) tracks) }
{
    let mut tracks = Listed::new(alloc);
    'objects: for value in list {
        read_track(alloc, tracks.len() as u32, value, &mut tracks)?;
    }
    Ok(tracks)
}

fn read_track(
    alloc: Global,
    index: u32,
    value: &Value,
    tracks: &mut Listed<Track>,
) -> Result<(), InfraFault>
    requires room { length tracks.old < MAX_OBJECTS }
    requires within { All IsTrack tracks.old }
    requires named { All (λ track. IsId track.id) tracks.old }
    ensures read { GivesNext tracks.old tracks.new result
        (track_at index (map id_of_track tracks.old) (view value.now)) }
    ensures within { OnOk result (All IsTrack tracks.new) }
    ensures named { OnOk result (All (λ track. IsId track.id) tracks.new) }
{
    let place = Place::of_element("track_sections", index);
    push_track(alloc, &place, value, tracks)
}

fn push_track(
    alloc: Global,
    place: &Place,
    value: &Value,
    tracks: &mut Listed<Track>,
) -> Result<(), InfraFault>
    requires room { length tracks.old < MAX_OBJECTS }
    requires within { All IsTrack tracks.old }
    requires named { All (λ track. IsId track.id) tracks.old }
    ensures read { GivesNext tracks.old tracks.new result
        (track_in place.now (map id_of_track tracks.old) (view value.now)) }
    ensures within { OnOk result (All IsTrack tracks.new) }
    ensures named { OnOk result (All (λ track. IsId track.id) tracks.new) }
{
    object(alloc, place, value)?;
    let id = new_id(alloc, place, value, tracks)?;
    let track = track(alloc, place, value, id)?;
    tracks.push(alloc, track, id)?;
    Ok(())
}

/// All of a track with this id.
fn track(alloc: Global, place: &Place, value: &Value, id: &str) -> Result<Track, InfraFault>
    ensures read { Gives (λ track. track) result
        (and_then (length_at place.now (view value.now)) λ length.
        Ok (record { id = id.now; length = length })) }
    ensures id { IfOk result (λ track. track.id ≡ id.now) }
    ensures within { IfOk result IsTrack }
{
    let length = length_m(alloc, place, value)?;
    Ok(Track {
        id: Name::from_bytes(alloc, id.as_bytes())?,
        length,
    })
}

fn length_m(alloc: Global, place: &Place, value: &Value) -> Result<u32, InfraFault>
    ensures length { Gives (λ length. length) result (length_at place.now (view value.now)) }
    ensures within { IfOk result (λ length. (1 ≤ length) × (length ≤ 1000000)) }
{
    let metres = metres(alloc, place, value, "length")?;
    limit(metres, 1, MAX_TRACK_LENGTH_M, What::Length)
}

/// The detectors or the buffer stops of a file, by the name of their list.
#[tactic(auto, unfolding(crate::specs::Objects::all_placed_in))]
pub fn placed_of(
    alloc: Global,
    file: &Value,
    name: &str,
    tracks: &Listed<Track>,
) -> Result<Listed<Placed>, InfraFault>
    ensures read { Gives (λ found. found) result
        (all_placed_in name.now tracks.now (view file.now)) }
    ensures few { IfOk result (λ found. length found ≤ MAX_OBJECTS) }
    ensures within { IfOk result (λ found. All (IsPlaced (length tracks.now)) found) }
{
    let place = Place::of_file();
    let items = list(alloc, &place, file, name)?;
    read_all_placed(alloc, name, items, tracks)
}

/// The detectors or the buffer stops of a list.
fn read_all_placed(
    alloc: Global,
    name: &str,
    list: &[Value],
    tracks: &Listed<Track>,
) -> Result<Listed<Placed>, InfraFault>
    requires { length list.now ≤ MAX_OBJECTS }
    ensures read { Gives (λ found. found) result
        (read_each id_of_placed (placed_at name.now (map id_of_track tracks.now)) []
        (map view list.now)) }
    ensures few { IfOk result (λ found. length found ≤ MAX_OBJECTS) }
    ensures within { IfOk result (λ found. All (IsPlaced (length tracks.now)) found) }
{
    let mut found = Listed::new(alloc);
    'objects: for value in list {
        read_placed(alloc, found.len() as u32, name, value, tracks, &mut found)?;
    }
    Ok(found)
}

fn read_placed(
    alloc: Global,
    index: u32,
    name: &str,
    value: &Value,
    tracks: &Listed<Track>,
    found: &mut Listed<Placed>,
) -> Result<(), InfraFault>
    requires room { length found.old < MAX_OBJECTS }
    requires within { All (IsPlaced (length tracks.now)) found.old }
    ensures read { GivesNext found.old found.new result
        (placed_at name.now (map id_of_track tracks.now) index (map id_of_placed found.old)
        (view value.now)) }
    ensures within { OnOk result (All (IsPlaced (length tracks.now)) found.new) }
{
    let place = Place::of_element(name, index);
    push_placed(alloc, &place, value, tracks, found)
}

fn push_placed(
    alloc: Global,
    place: &Place,
    value: &Value,
    tracks: &Listed<Track>,
    found: &mut Listed<Placed>,
) -> Result<(), InfraFault>
    requires room { length found.old < MAX_OBJECTS }
    requires within { All (IsPlaced (length tracks.now)) found.old }
    ensures read { GivesNext found.old found.new result
        (placed_in place.now (map id_of_track tracks.now) (map id_of_placed found.old)
        (view value.now)) }
    ensures within { OnOk result (All (IsPlaced (length tracks.now)) found.new) }
{
    object(alloc, place, value)?;
    let id = new_id(alloc, place, value, found)?;
    let placed = placed(alloc, place, value, id, tracks)?;
    found.push(alloc, placed, id)?;
    Ok(())
}

/// All of a detector or a buffer stop with this id.
fn placed(
    alloc: Global,
    place: &Place,
    value: &Value,
    id: &str,
    tracks: &Listed<Track>,
) -> Result<Placed, InfraFault>
    ensures read { Gives (λ placed. placed) result
        (and_then
        (number_at place.now (codes "track") (map id_of_track tracks.now) (view value.now))
        λ track.
        and_then (metres_at place.now (codes "position") (view value.now)) λ position.
        Ok (record { id = id.now; track = track; position = position })) }
    ensures id { IfOk result (λ placed. placed.id ≡ id.now) }
    ensures within { IfOk result (IsPlaced (length tracks.now)) }
{
    let track = number(alloc, place, value, "track", tracks)?;
    let position = metres(alloc, place, value, "position")?;
    Ok(Placed {
        id: Name::from_bytes(alloc, id.as_bytes())?,
        track,
        position,
    })
}
