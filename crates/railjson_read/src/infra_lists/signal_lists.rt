//! Signals of a file.

ghost use Rattle.rail_types.specs.InfraIds.{id_of_signal, id_of_track};
ghost use Rattle.std.specs.Prelude.{◌≡◌, ◌<◌, ◌≤◌, [], codes, length, map, All, IfOk, IfSome, OnOk};
ghost use Rattle.std.specs.Prelude.{Ok};
ghost use Rattle.std.specs.List.{list_any};
ghost use Rattle.serde_json.specs.View.{view};
ghost use Rattle.rail_types.specs.declared.limits.TheConstants.{MAX_OBJECTS};
ghost use Rattle.json_fields.specs.Reading.{◌>>=◌ as and_then};
ghost use Rattle.infra_fields.specs.Fields.{Gives, GivesNext, read_each};
ghost use Rattle.rail_types.specs.Infras.{IsSignal, IsBal};
ghost use Rattle.railjson_read.specs.Signals.{signals_in, signal_at, signal_in, bal_at, bal_in};
ghost use Rattle.railjson_read.specs.Signals.{sight_at, is_block_signal, any_bal, is_bal};

use infra_fields::{
    InfraFault, What, direction, items_in, limit, list, metres, new_id, number, object, rounded,
};
use json_fields::Place;
use rail_types::id_lists::Listed;
use rail_types::infra_types::{Bal, Signal, Track};
use rail_types::{MAX_SIGHT_M, Name};
use serde_json::Value;
use std::alloc::Global;

/// The signals of a file.
#[tactic(auto, unfolding(crate::specs::Signals::signals_in))]
pub fn signals_of(
    alloc: Global,
    file: &Value,
    tracks: &Listed<Track>,
) -> Result<Listed<Signal>, InfraFault>
    ensures read { Gives (λ signals. signals) result (signals_in tracks.now (view file.now)) }
    ensures few { IfOk result (λ signals. length signals ≤ MAX_OBJECTS) }
    ensures within { IfOk result (λ signals. All (IsSignal (length tracks.now)) signals) }
{
    let place = Place::of_file();
    let items = list(alloc, &place, file, "signals")?;
    read_signals(alloc, items, tracks)
}

/// The signals of a list.
fn read_signals(
    alloc: Global,
    list: &[Value],
    tracks: &Listed<Track>,
) -> Result<Listed<Signal>, InfraFault>
    requires { length list.now ≤ MAX_OBJECTS }
    ensures read { Gives (λ signals. signals) result
        (read_each id_of_signal (signal_at (map id_of_track tracks.now)) [] (map view list.now)) }
    ensures few { IfOk result (λ signals. length signals ≤ MAX_OBJECTS) }
    ensures within { IfOk result (λ signals. All (IsSignal (length tracks.now)) signals) }
{
    let mut signals = Listed::new(alloc);
    'objects: for value in list {
        read_signal(alloc, signals.len() as u32, value, tracks, &mut signals)?;
    }
    Ok(signals)
}

fn read_signal(
    alloc: Global,
    index: u32,
    value: &Value,
    tracks: &Listed<Track>,
    signals: &mut Listed<Signal>,
) -> Result<(), InfraFault>
    requires room { length signals.old < MAX_OBJECTS }
    requires within { All (IsSignal (length tracks.now)) signals.old }
    ensures read { GivesNext signals.old signals.new result
        (signal_at (map id_of_track tracks.now) index (map id_of_signal signals.old)
        (view value.now)) }
    ensures within { OnOk result (All (IsSignal (length tracks.now)) signals.new) }
{
    let place = Place::of_element("signals", index);
    push_signal(alloc, &place, value, tracks, signals)
}

fn push_signal(
    alloc: Global,
    place: &Place,
    value: &Value,
    tracks: &Listed<Track>,
    signals: &mut Listed<Signal>,
) -> Result<(), InfraFault>
    requires room { length signals.old < MAX_OBJECTS }
    requires within { All (IsSignal (length tracks.now)) signals.old }
    ensures read { GivesNext signals.old signals.new result
        (signal_in place.now (map id_of_track tracks.now) (map id_of_signal signals.old)
        (view value.now)) }
    ensures within { OnOk result (All (IsSignal (length tracks.now)) signals.new) }
{
    object(alloc, place, value)?;
    let id = new_id(alloc, place, value, signals)?;
    let signal = signal(alloc, place, value, id, tracks)?;
    signals.push(alloc, signal, id)?;
    Ok(())
}

/// All of a signal with this id.
fn signal(
    alloc: Global,
    place: &Place,
    value: &Value,
    id: &str,
    tracks: &Listed<Track>,
) -> Result<Signal, InfraFault>
    ensures read { Gives (λ signal. signal) result
        (and_then (bal_at place.now (map id_of_track tracks.now) (view value.now)) λ bal.
        Ok (record { id = id.now; bal = bal })) }
    ensures id { IfOk result (λ signal. signal.id ≡ id.now) }
    ensures within { IfOk result (IsSignal (length tracks.now)) }
{
    let bal = bal_if_any(alloc, place, value, tracks)?;
    Ok(Signal {
        id: Name::from_bytes(alloc, id.as_bytes())?,
        bal,
    })
}

/// What a signal is as a block signal, where it is one.
fn bal_if_any(
    alloc: Global,
    place: &Place,
    value: &Value,
    tracks: &Listed<Track>,
) -> Result<Option<Bal>, InfraFault>
    ensures read { Gives (λ bal. bal) result
        (bal_at place.now (map id_of_track tracks.now) (view value.now)) }
    ensures within { IfOk result (λ bal. IfSome bal (IsBal (length tracks.now))) }
{
    if !is_block_signal(value) {
        return Ok(None);
    }
    let bal = bal(alloc, place, value, tracks)?;
    Ok(Some(bal))
}

fn bal(
    alloc: Global,
    place: &Place,
    value: &Value,
    tracks: &Listed<Track>,
) -> Result<Bal, InfraFault>
    ensures read { Gives (λ bal. bal) result
        (bal_in place.now (map id_of_track tracks.now) (view value.now)) }
    ensures within { IfOk result (IsBal (length tracks.now)) }
{
    let track = number(alloc, place, value, "track", tracks)?;
    let position = metres(alloc, place, value, "position")?;
    let direction = direction(alloc, place, value, "direction")?;
    let sight_m = sight_m(alloc, place, value)?;
    Ok(Bal {
        track,
        position,
        direction,
        sight_m,
    })
}

fn sight_m(alloc: Global, place: &Place, value: &Value) -> Result<u32, InfraFault>
    ensures sight { Gives (λ sight. sight) result (sight_at place.now (view value.now)) }
    ensures within { IfOk result (λ sight. sight ≤ 100000) }
{
    let metres = rounded(alloc, place, value, "sight_distance", true)?;
    limit(metres, 0, MAX_SIGHT_M, What::Sight)
}

/// Whether some logical signal is one of automatic block.
fn is_block_signal(value: &Value) -> bool
    ensures { result ≡ is_block_signal (view value.now) }
{
    let Some(found) = value.get("logical_signals") else {
        return false;
    };
    any_bal_in(found)
}

fn any_bal_in(found: &Value) -> bool
    ensures { result ≡ any_bal (view found.now) }
{
    let Some(items) = items_in(found) else {
        return false;
    };
    any_is_bal(items)
}

fn any_is_bal(items: &[Value]) -> bool
    ensures { result ≡ list_any is_bal (map view items.now) }
{
    'items: for item in items {
        if is_bal(item) {
            return true;
        }
    }
    false
}

fn is_bal(item: &Value) -> bool
    ensures { result ≡ is_bal (view item.now) }
{
    let Some(found) = item.get("signaling_system") else {
        return false;
    };
    let Some(system) = found.as_str() else {
        return false;
    };
    system == "BAL"
}
