//! The trains of a base file, each with its claims joined.

ghost use Rattle.std.specs.Prelude.{◌≡◌, ◌<◌, ◌≤◌, ◌+◌, ◌++◌, [], All, AllPairs, IfOk, OnOk, codes};
ghost use Rattle.std.specs.Prelude.{length, map};
ghost use Rattle.serde_json.specs.View.{view};
ghost use Rattle.blocking_time.specs.Joined.{joined_claims};
ghost use Rattle.json_fields.specs.Places.{element};
ghost use Rattle.rail_types.specs.Occupation.{AreJoined};
ghost use Rattle.rail_types.specs.declared.limits.TheConstants.{MAX_BASE_CLAIMS};
ghost use Rattle.rail_types.specs.declared.limits.TheConstants.{MAX_TIMETABLE_FILE_BYTES};
ghost use Rattle.base_file.specs.Claims.{GivesNext, claims_of_trains, counted, in_a_file};
ghost use Rattle.base_file.specs.Claims.{none_planned, of_train, read_trains, train_at, with_train};
ghost use Rattle.base_file.specs.Fields.{Gives};
ghost use Rattle.base_file.specs.Sound.{AreClaimsOn, ArePlanned, IsClaimOn};

use crate::faults::{BaseFault, What};
use crate::fields::{list, name, object};
use crate::requirements::read_list;
use blocking_time::{joined, joined_claims_are_one};
use json_fields::Place;
use no_memory::NoMemory;
use rail_types::{BaseClaim, Claim, List, MAX_BASE_CLAIMS, MAX_TIMETABLE_FILE_BYTES};
use serde_json::Value;
use std::alloc::Global;

/// The trains that were read: how many, how many elements their lists have
/// together, and their claims, joined.
#[derive(Drop)]
struct Planned {
    trains: u32,
    elements: u32,
    claims: List<BaseClaim>,
}

/// The claims of the trains of a list, on so many zones.
pub(crate) fn read_list_of_trains(
    alloc: Global,
    items: &[Value],
    zones: u32,
) -> Result<List<BaseClaim>, BaseFault>
    ensures claims { Gives (λ claims. claims) result (claims_of_trains zones (map view items.now)) }
    ensures sound { IfOk result (λ claims. AreClaimsOn zones claims) }
{
    let items = few(items)?;
    let planned = read_all(alloc, items, zones)?;
    Ok(planned.claims)
}

/// Refuses a list that is longer than a file.
fn few(items: &[Value]) -> Result<&[Value], BaseFault>
    ensures list { Gives (λ items. map view items.now) result (in_a_file (map view items.now)) }
    ensures few { IfOk result (λ items. length items.now ≤ MAX_TIMETABLE_FILE_BYTES) }
{
    if items.len() as u64 > MAX_TIMETABLE_FILE_BYTES {
        return Err(BaseFault::Limit {
            what: What::List,
            count: items.len() as i64,
        });
    }
    Ok(items)
}

fn read_all(alloc: Global, items: &[Value], zones: u32) -> Result<Planned, BaseFault>
    requires { length items.now ≤ MAX_TIMETABLE_FILE_BYTES }
    ensures planned { Gives (λ planned. planned) result
        (read_trains zones none_planned (map view items.now)) }
    ensures sound { IfOk result (λ planned. ArePlanned zones planned) }
{
    let mut planned = Planned {
        trains: 0,
        elements: 0,
        claims: List::new(alloc),
    };
    'trains: for value in items {
        read_next(alloc, value, zones, &mut planned)?;
    }
    Ok(planned)
}

/// The train behind those that were read.
fn read_next(
    alloc: Global,
    value: &Value,
    zones: u32,
    planned: &mut Planned,
) -> Result<(), BaseFault>
    requires room { planned.old.trains < MAX_TIMETABLE_FILE_BYTES }
    requires sound { ArePlanned zones planned.old }
    ensures read { GivesNext planned.old planned.new result
        (train_at zones (element (codes "trains") planned.old.trains) planned.old.elements
        (view value.now)) }
    ensures sound { OnOk result (ArePlanned zones planned.new) }
    ensures next { OnOk result (planned.new.trains ≡ planned.old.trains + 1) }
{
    let place = Place::of_element("trains", planned.trains);
    let claims = read_train(alloc, &place, value, zones, planned.elements)?;
    add_train(alloc, claims.as_slice(), zones, planned)?;
    Ok(())
}

/// The claims of a train as its list has them, where the lists of the trains
/// before it had so many elements.
fn read_train(
    alloc: Global,
    place: &Place,
    value: &Value,
    zones: u32,
    elements: u32,
) -> Result<List<Claim>, BaseFault>
    requires { elements ≤ MAX_BASE_CLAIMS }
    ensures claims { Gives (λ claims. claims) result
        (train_at zones place.now elements (view value.now)) }
    ensures count { IfOk result (λ claims. elements + length claims ≤ MAX_BASE_CLAIMS) }
    ensures sound { IfOk result (λ claims. All (IsClaimOn zones) claims) }
{
    object(alloc, place, value)?;
    name(alloc, place, value, "name")?;
    let items = list(alloc, place, value, "requirements")?;
    let items = count(items, elements)?;
    read_list(alloc, place, items, zones)
}

/// Refuses a list with which there are too many elements.
fn count(items: &[Value], elements: u32) -> Result<&[Value], BaseFault>
    requires { elements ≤ MAX_BASE_CLAIMS }
    ensures list { Gives (λ items. map view items.now) result
        (counted elements (map view items.now)) }
    ensures few { IfOk result (λ items. elements + length items.now ≤ MAX_BASE_CLAIMS) }
{
    let sum = items.len() + elements as usize;
    if sum > MAX_BASE_CLAIMS as usize {
        return Err(BaseFault::Limit {
            what: What::List,
            count: sum as i64,
        });
    }
    Ok(items)
}

/// Puts the claims of one more train, joined, behind the others.
fn add_train(
    alloc: Global,
    claims: &[Claim],
    zones: u32,
    planned: &mut Planned,
) -> Result<(), NoMemory>
    requires room { planned.old.trains < MAX_TIMETABLE_FILE_BYTES }
    requires count { planned.old.elements + length claims.now ≤ MAX_BASE_CLAIMS }
    requires claims { All (IsClaimOn zones) claims.now }
    requires sound { ArePlanned zones planned.old }
    ensures next { OnOk result (planned.new ≡ with_train planned.old claims.now) }
    ensures sound { OnOk result (ArePlanned zones planned.new) }
{
    joined_claims_are_one();
    let together = joined(alloc, claims)?;
    push_claims(planned.trains, together.as_slice(), &mut planned.claims)?;
    planned.trains += 1;
    planned.elements += claims.len() as u32;
    Ok(())
}

fn push_claims(train: u32, claims: &[Claim], to: &mut List<BaseClaim>) -> Result<(), NoMemory>
    ensures { OnOk result (to.new ≡ to.old ++ map (of_train train) claims.now) }
{
    'claims: for claim in claims {
        to.push(BaseClaim {
            claim: *claim,
            train,
        })?;
    }
    Ok(())
}
