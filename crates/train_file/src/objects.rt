//! The trains of a file.

ghost use Rattle.std.specs.Prelude.{◌≡◌, ◌<◌, ◌≤◌, ◌++◌, ◌∷◌, [], false, codes, length, map};
ghost use Rattle.std.specs.Prelude.{option_map, slice_get, OnOk, IfOk};
ghost use Rattle.std.specs.List.{list_any};
ghost use Rattle.std.specs.Str.{bytes_eq};
ghost use Rattle.serde_json.specs.View.{view};
ghost use Rattle.rail_types.specs.declared.limits.TheConstants.{MAX_TRAINS};
ghost use Rattle.json_fields.specs.Places.{element};
ghost use Rattle.train_file.specs.Fields.{Gives, IsName};
ghost use Rattle.train_file.specs.Trains.{AreTrains, GivesNext, name_of, new_name, read_each};
ghost use Rattle.train_file.specs.Trains.{train_in, train_named};

use crate::faults::{TrainFault, What};
use crate::fields::{name, number, number_above_zero, object};
use crate::names::Names;
use json_fields::Place;
use no_memory::NoMemory;
use rail_types::{
    MAX_ACCEL_MM_S2, MAX_ALLOWANCE_PERCENT, MAX_SPEED_MM_S, MAX_TRAIN_LENGTH_M, Name, Train,
};
use serde_json::Value;
use std::alloc::Global;
use std::marker::Model;

/// The trains of a file, found by their names. Contracts see the list
/// of trains in the file's order.
#[derive(Debug, Drop)]
pub struct Trains {
    trains: Vec<Train>,
    names: Names,
}

impl Model for Trains {
    ghost use Rattle.std.specs.Prelude.{List, map, ◌≡◌};
    ghost use Rattle.rail_types.specs.declared.trains.Train.{Train};
    ghost use Rattle.train_file.specs.Trains.{name_of};

    ghost Value = { List Train };

    ghost view = { λ a. a.trains.items };

    ghost invariant = { λ a. a.names ≡ map name_of a.trains.items };
}

impl Trains {
    /// The train of this name. No list is searched.
    pub fn find(&self, name: &[u8]) -> Option<&Train>
        ensures { option_map (λ train. train.now) result ≡ train_named name.now self.now }
    {
        let Some(number) = self.names.number(name) else {
            return None;
        };
        train_at(self.trains.as_slice(), number)
    }

    /// The trains in the file's order.
    pub fn as_slice(&self) -> &[Train]
        ensures { result.now ≡ self.now }
    {
        self.trains.as_slice()
    }

    fn new(alloc: Global) -> Self
        ensures { result ≡ [] }
    {
        Trains {
            trains: Vec::new(alloc),
            names: Names::new(alloc),
        }
    }

    fn len(&self) -> usize
        ensures { result ≡ length self.now }
    {
        self.trains.len()
    }

    /// Whether a train has this name.
    fn has(&self, name: &[u8]) -> bool
        ensures { result ≡ list_any (bytes_eq name.now) (map name_of self.now) }
    {
        self.names.has(name)
    }

    /// Puts a train with a new name behind the others.
    fn push(&mut self, alloc: Global, train: Train) -> Result<(), NoMemory>
        requires fresh { list_any (bytes_eq train.name) (map name_of self.old) ≡ false }
        requires room { length self.old < MAX_TRAINS }
        ensures ok { OnOk result (self.new ≡ self.old ++ train ∷ []) }
    {
        self.trains.reserve(1)?;
        self.names.push(alloc, train.name.as_bytes())?;
        self.trains.push_reserved(train);
        Ok(())
    }
}

fn train_at(trains: &[Train], number: usize) -> Option<&Train>
    ensures { option_map (λ train. train.now) result ≡ slice_get trains.now number }
{
    trains.get(number)
}

/// The trains of a list.
#[tactic(auto, using(crate::proofs::Sound::no_trains))]
pub(crate) fn read_list(alloc: Global, list: &[Value]) -> Result<Trains, TrainFault>
    requires { length list.now ≤ MAX_TRAINS }
    ensures read { Gives (λ trains. trains) result (read_each [] (map view list.now)) }
    ensures sound { IfOk result AreTrains }
{
    let mut trains = Trains::new(alloc);
    'objects: for value in list {
        read_next(alloc, value, &mut trains)?;
    }
    Ok(trains)
}

/// The train behind those that were read.
fn read_next(alloc: Global, value: &Value, trains: &mut Trains) -> Result<(), TrainFault>
    requires room { length trains.old < MAX_TRAINS }
    requires sound { AreTrains trains.old }
    ensures read { GivesNext trains.old trains.new result
        (train_in (element (codes "trains") (length trains.old)) (map name_of trains.old)
        (view value.now)) }
    ensures sound { OnOk result (AreTrains trains.new) }
{
    let place = Place::of_element("trains", trains.len() as u32);
    push_train(alloc, &place, value, trains)?;
    Ok(())
}

fn push_train(
    alloc: Global,
    place: &Place,
    value: &Value,
    trains: &mut Trains,
) -> Result<(), TrainFault>
    requires room { length trains.old < MAX_TRAINS }
    requires sound { AreTrains trains.old }
    ensures read { GivesNext trains.old trains.new result
        (train_in place.now (map name_of trains.old) (view value.now)) }
    ensures sound { OnOk result (AreTrains trains.new) }
{
    object(alloc, place, value)?;
    let text = name(alloc, place, value, "name")?;
    let name = unused(alloc, text, trains)?;
    let length_m = number_above_zero(
        alloc,
        place,
        value,
        "length_m",
        What::LengthM,
        MAX_TRAIN_LENGTH_M,
    )?;
    let speed = number_above_zero(alloc, place, value, "speed", What::Speed, MAX_SPEED_MM_S)?;
    let accel = number_above_zero(alloc, place, value, "accel", What::Accel, MAX_ACCEL_MM_S2)?;
    let brake = number_above_zero(alloc, place, value, "brake", What::Brake, MAX_ACCEL_MM_S2)?;
    let allowance = number(
        alloc,
        place,
        value,
        "allowance",
        What::Allowance,
        MAX_ALLOWANCE_PERCENT,
    )?;
    let train = Train {
        name,
        length_m,
        speed,
        accel,
        brake,
        allowance,
    };
    trains.push(alloc, train)?;
    Ok(())
}

/// The name, which no train before has.
fn unused(alloc: Global, text: &str, before: &Trains) -> Result<Name, TrainFault>
    ensures name { Gives (λ name. name) result (new_name (map name_of before.now) text.now) }
    ensures same { IfOk result (λ name. name ≡ text.now) }
    ensures fresh { IfOk result (λ name.
        list_any (bytes_eq name) (map name_of before.now) ≡ false) }
{
    let name = Name::from_bytes(alloc, text.as_bytes())?;
    if before.has(text.as_bytes()) {
        return Err(TrainFault::Twice { name });
    }
    Ok(name)
}
