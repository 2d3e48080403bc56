//! Switches of a file.

ghost use Rattle.rail_types.specs.InfraIds.{id_of_switch, id_of_track};
ghost use Rattle.std.specs.Prelude.{◌≡◌, ◌<◌, ◌≤◌, [], codes, length, map, All, IfOk, OnOk, Ok};
ghost use Rattle.serde_json.specs.View.{view};
ghost use Rattle.rail_types.specs.declared.limits.TheConstants.{MAX_OBJECTS};
ghost use Rattle.json_fields.specs.Reading.{◌>>=◌ as and_then};
ghost use Rattle.infra_fields.specs.Fields.{Gives, GivesNext, read_each};
ghost use Rattle.rail_types.specs.Infras.{IsSwitch, port_count};
ghost use Rattle.railjson_read.specs.Objects.{switches_in, switch_at, switch_in, kind_at, ports_at};
ghost use Rattle.railjson_read.specs.Objects.{read_ports, port_at, port_in};
ghost use Rattle.infra_fields.specs.Words.{ports_of};

use infra_fields::{
    InfraFault, Port, end, found, kind_named, list, new_id, number, object, port_name, port_within,
    ports_of, text,
};
use json_fields::Place;
use rail_types::id_lists::Listed;
use rail_types::infra_types::{Switch, SwitchKind, Track, TrackEnd};
use rail_types::{List, Name};
use serde_json::Value;
use std::alloc::Global;

/// The switches of a file.
#[tactic(auto, unfolding(crate::specs::Objects::switches_in))]
pub fn switches_of(
    alloc: Global,
    file: &Value,
    tracks: &Listed<Track>,
) -> Result<Listed<Switch>, InfraFault>
    ensures read { Gives (λ switches. switches) result (switches_in tracks.now (view file.now)) }
    ensures few { IfOk result (λ switches. length switches ≤ MAX_OBJECTS) }
    ensures within { IfOk result (λ switches. All (IsSwitch (length tracks.now)) switches) }
{
    let place = Place::of_file();
    let items = list(alloc, &place, file, "switches")?;
    read_switches(alloc, items, tracks)
}

/// The switches of a list.
fn read_switches(
    alloc: Global,
    list: &[Value],
    tracks: &Listed<Track>,
) -> Result<Listed<Switch>, InfraFault>
    requires { length list.now ≤ MAX_OBJECTS }
    ensures read { Gives (λ switches. switches) result
        (read_each id_of_switch (switch_at (map id_of_track tracks.now)) [] (map view list.now)) }
    ensures few { IfOk result (λ switches. length switches ≤ MAX_OBJECTS) }
    ensures within { IfOk result (λ switches. All (IsSwitch (length tracks.now)) switches) }
{
    let mut switches = Listed::new(alloc);
    'objects: for value in list {
        read_switch(alloc, switches.len() as u32, value, tracks, &mut switches)?;
    }
    Ok(switches)
}

fn read_switch(
    alloc: Global,
    index: u32,
    value: &Value,
    tracks: &Listed<Track>,
    switches: &mut Listed<Switch>,
) -> Result<(), InfraFault>
    requires room { length switches.old < MAX_OBJECTS }
    requires within { All (IsSwitch (length tracks.now)) switches.old }
    ensures read { GivesNext switches.old switches.new result
        (switch_at (map id_of_track tracks.now) index (map id_of_switch switches.old)
        (view value.now)) }
    ensures within { OnOk result (All (IsSwitch (length tracks.now)) switches.new) }
{
    let place = Place::of_element("switches", index);
    push_switch(alloc, &place, value, tracks, switches)
}

fn push_switch(
    alloc: Global,
    place: &Place,
    value: &Value,
    tracks: &Listed<Track>,
    switches: &mut Listed<Switch>,
) -> Result<(), InfraFault>
    requires room { length switches.old < MAX_OBJECTS }
    requires within { All (IsSwitch (length tracks.now)) switches.old }
    ensures read { GivesNext switches.old switches.new result
        (switch_in place.now (map id_of_track tracks.now) (map id_of_switch switches.old)
        (view value.now)) }
    ensures within { OnOk result (All (IsSwitch (length tracks.now)) switches.new) }
{
    object(alloc, place, value)?;
    let id = new_id(alloc, place, value, switches)?;
    let switch = switch(alloc, place, value, id, tracks)?;
    switches.push(alloc, switch, id)?;
    Ok(())
}

/// All of a switch with this id.
fn switch(
    alloc: Global,
    place: &Place,
    value: &Value,
    id: &str,
    tracks: &Listed<Track>,
) -> Result<Switch, InfraFault>
    ensures read { Gives (λ switch. switch) result
        (and_then (kind_at place.now id.now (view value.now)) λ kind.
        and_then (ports_at place.now (map id_of_track tracks.now) kind (view value.now)) λ ports.
        Ok (record { id = id.now; kind = kind; ports = ports })) }
    ensures id { IfOk result (λ switch. switch.id ≡ id.now) }
    ensures within { IfOk result (IsSwitch (length tracks.now)) }
{
    let kind = kind(alloc, place, value, id)?;
    let ports = ports(alloc, place, value, kind, tracks)?;
    Ok(Switch {
        id: Name::from_bytes(alloc, id.as_bytes())?,
        kind,
        ports,
    })
}

/// The kind of the switch with this id.
fn kind(alloc: Global, place: &Place, value: &Value, id: &str) -> Result<SwitchKind, InfraFault>
    ensures { Gives (λ kind. kind) result (kind_at place.now id.now (view value.now)) }
{
    let word = text(alloc, place, value, "switch_type")?;
    let Some(kind) = kind_named(word) else {
        return Err(InfraFault::SwitchType {
            id: Name::from_bytes(alloc, id.as_bytes())?,
        });
    };
    Ok(kind)
}

/// The track ends at the ports of a switch of this kind.
fn ports(
    alloc: Global,
    place: &Place,
    value: &Value,
    kind: SwitchKind,
    tracks: &Listed<Track>,
) -> Result<List<TrackEnd>, InfraFault>
    ensures read { Gives (λ ports. ports) result
        (ports_at place.now (map id_of_track tracks.now) kind (view value.now)) }
    ensures count { IfOk result (λ ports. length ports ≡ port_count kind) }
    ensures within { IfOk result (λ ports. All (λ port. port.track < length tracks.now) ports) }
{
    let found = found(alloc, place, value, "ports")?;
    let within = place.part("ports");
    object(alloc, &within, found)?;
    read_ports(alloc, place, found, ports_of(kind), tracks)
}

fn read_ports(
    alloc: Global,
    place: &Place,
    value: &Value,
    names: &[Port],
    tracks: &Listed<Track>,
) -> Result<List<TrackEnd>, InfraFault>
    ensures read { Gives (λ ports. ports) result
        (read_ports place.now (map id_of_track tracks.now) (view value.now) [] names.now) }
    ensures count { IfOk result (λ ports. length ports ≡ length names.now) }
    ensures within { IfOk result (λ ports. All (λ port. port.track < length tracks.now) ports) }
{
    let mut ports = List::new(alloc);
    'ports: for name in names {
        ports.push(port(alloc, place, value, *name, tracks)?)?;
    }
    Ok(ports)
}

/// The track end at a port.
fn port(
    alloc: Global,
    place: &Place,
    value: &Value,
    port: Port,
    tracks: &Listed<Track>,
) -> Result<TrackEnd, InfraFault>
    ensures read { Gives (λ end. end) result
        (port_at place.now (map id_of_track tracks.now) (view value.now) port) }
    ensures within { IfOk result (λ end. end.track < length tracks.now) }
{
    let ports = place.part("ports");
    let found = found(alloc, &ports, value, port_name(port))?;
    let within = place.part(port_within(port));
    track_end(alloc, &within, found, tracks)
}

fn track_end(
    alloc: Global,
    place: &Place,
    value: &Value,
    tracks: &Listed<Track>,
) -> Result<TrackEnd, InfraFault>
    ensures read { Gives (λ end. end) result
        (port_in place.now (map id_of_track tracks.now) (view value.now)) }
    ensures within { IfOk result (λ end. end.track < length tracks.now) }
{
    object(alloc, place, value)?;
    let end = end(alloc, place, value, "endpoint")?;
    let track = number(alloc, place, value, "track", tracks)?;
    Ok(TrackEnd { track, end })
}
