//! The lists of a file, joined to an infrastructure.

ghost use Rattle.std.specs.Prelude.{◌≡◌, ◌≤◌, codes, length, All, IfOk, Ok};
ghost use Rattle.serde_json.specs.View.{view};
ghost use Rattle.json_fields.specs.Reading.{◌>>=◌ as and_then};
ghost use Rattle.infra_fields.specs.Fields.{Gives};
ghost use Rattle.rail_types.specs.Infras.{IsInfra, IsSwitch, IsTrack};
ghost use Rattle.rail_types.specs.Named.{IsId};
ghost use Rattle.rail_types.specs.declared.limits.TheConstants.{MAX_OBJECTS};
ghost use Rattle.railjson_read.specs.Files.{first_in, landmarks_in, others_in, joined};
ghost use Rattle.railjson_read.specs.Objects.{all_placed_in};
ghost use Rattle.railjson_read.specs.Landmarks.{AreFirst, AreLandmarks, AreOthers};

use crate::infra_lists::{placed_of, signals_of, switches_of, tracks_of};
use crate::infra_routes::{points_of, routes_of, speeds_of};
use infra_fields::InfraFault;
use rail_types::List;
use rail_types::id_lists::{HasId, Listed};
use rail_types::infra_types::{
    Infra, OperationalPoint, Placed, Route, Signal, SpeedSection, Switch, Track,
};
use serde_json::Value;
use std::alloc::Global;

/// The lists whose objects other objects name.
#[derive(Drop)]
pub(crate) struct Landmarks {
    pub tracks: Listed<Track>,
    pub switches: Listed<Switch>,
    pub detectors: Listed<Placed>,
    pub buffer_stops: Listed<Placed>,
}

/// The lists that are read first.
#[derive(Drop)]
pub(crate) struct FirstLists {
    pub landmarks: Landmarks,
    pub signals: List<Signal>,
}

/// The lists behind those.
#[derive(Drop)]
pub(crate) struct Others {
    pub routes: List<Route>,
    pub points: List<OperationalPoint>,
    pub speeds: List<SpeedSection>,
}

/// These lists with those behind them, where those were read.
pub(crate) fn infra_of(
    first: FirstLists,
    others: Result<Others, InfraFault>,
) -> Result<Infra, InfraFault>
    requires first { AreFirst first }
    requires others { IfOk others (AreOthers first.landmarks) }
    ensures read { result ≡ (and_then others λ others. Ok (joined first others)) }
    ensures sound { IfOk result IsInfra }
{
    let others = others?;
    Ok(joined(first, others))
}

/// The first lists of an object. The index of the signals' ids, which nobody needs, goes at once.
#[tactic(auto, unfolding(crate::specs::Files::first_in))]
pub(crate) fn first_of(alloc: Global, file: &Value) -> Result<FirstLists, InfraFault>
    ensures read { Gives (λ first. first) result (first_in (view file.now)) }
    ensures sound { IfOk result AreFirst }
{
    let landmarks = landmarks_of(alloc, file)?;
    match signals_of(alloc, file, &landmarks.tracks) {
        Ok(signals) => Ok(FirstLists {
            landmarks,
            signals: alone(signals),
        }),
        Err(fault) => {
            drop(landmarks);
            Err(fault)
        }
    }
}

/// The lists whose objects others name.
#[tactic(auto, unfolding(crate::specs::Files::landmarks_in))]
fn landmarks_of(alloc: Global, file: &Value) -> Result<Landmarks, InfraFault>
    ensures read { Gives (λ landmarks. landmarks) result (landmarks_in (view file.now)) }
    ensures sound { IfOk result AreLandmarks }
{
    let tracks = tracks_of(alloc, file)?;
    let switches = switches_of(alloc, file, &tracks)?;
    landmarks_on(alloc, file, tracks, switches)
}

/// These tracks and switches with the detectors and the buffer stops of the file.
fn landmarks_on(
    alloc: Global,
    file: &Value,
    tracks: Listed<Track>,
    switches: Listed<Switch>,
) -> Result<Landmarks, InfraFault>
    requires few_tracks { length tracks ≤ MAX_OBJECTS }
    requires few_switches { length switches ≤ MAX_OBJECTS }
    requires tracks { All IsTrack tracks }
    requires names { All (λ track. IsId track.id) tracks }
    requires switches { All (IsSwitch (length tracks)) switches }
    ensures read { Gives (λ landmarks. landmarks) result
        (and_then (all_placed_in (codes "detectors") tracks (view file.now)) λ detectors.
        and_then (all_placed_in (codes "buffer_stops") tracks (view file.now)) λ stops.
        Ok (record {
          tracks = tracks;
          switches = switches;
          detectors = detectors;
          buffer_stops = stops;
        })) }
    ensures sound { IfOk result AreLandmarks }
{
    let detectors = placed_of(alloc, file, "detectors", &tracks)?;
    let buffer_stops = placed_of(alloc, file, "buffer_stops", &tracks)?;
    Ok(Landmarks {
        tracks,
        switches,
        detectors,
        buffer_stops,
    })
}

/// The lists behind these. The indexes of their ids, which nobody needs, go at once.
#[tactic(auto, unfolding(crate::specs::Files::others_in))]
pub(crate) fn others_of(
    alloc: Global,
    file: &Value,
    landmarks: &Landmarks,
) -> Result<Others, InfraFault>
    ensures read { Gives (λ others. others) result (others_in landmarks.now (view file.now)) }
    ensures sound { IfOk result (AreOthers landmarks.now) }
{
    let routes = alone(routes_of(
        alloc,
        file,
        &landmarks.switches,
        &landmarks.detectors,
        &landmarks.buffer_stops,
    )?);
    let points = alone(points_of(alloc, file, &landmarks.tracks)?);
    let speeds = alone(speeds_of(alloc, file, &landmarks.tracks)?);
    Ok(Others {
        routes,
        points,
        speeds,
    })
}

/// All lists as an infrastructure.
fn joined(first: FirstLists, others: Others) -> Infra
    ensures { result ≡ joined first others }
{
    let FirstLists { landmarks, signals } = first;
    let Landmarks {
        tracks,
        switches,
        detectors,
        buffer_stops,
    } = landmarks;
    let Others {
        routes,
        points,
        speeds,
    } = others;
    Infra {
        tracks: alone(tracks),
        switches: alone(switches),
        detectors: alone(detectors),
        buffer_stops: alone(buffer_stops),
        signals,
        routes,
        points,
        speeds,
    }
}

/// The objects without the index of their ids.
fn alone<T: HasId>(objects: Listed<T>) -> List<T>
    ensures { result ≡ objects }
{
    List::from_vec(objects.into_items())
}
