//! Fields of one object. Each call answers the first fault of its field, at its spot.

ghost use Rattle.std.specs.Prelude.{◌≡◌, ◌<◌, ◌≤◌, length, map, IfOk};
ghost use Rattle.serde_json.specs.View.{view};
ghost use Rattle.json_fields.specs.Places.{spot_of};
ghost use Rattle.rail_types.specs.declared.limits.TheConstants.{MAX_TRAINS};
ghost use Rattle.train_file.specs.Fields.{Gives, IsName, object_at, found_at, name_at};
ghost use Rattle.train_file.specs.Fields.{limited_name, number_read, within, number_at};
ghost use Rattle.train_file.specs.Fields.{some_number, some_number_at, list_at, elements_of, few};

use crate::faults::{TrainFault, What};
use decimal_quote::NotWhole;
use json_fields::{Place, count_in, whole_in};
use rail_types::{MAX_TRAIN_NAME_BYTES, MAX_TRAINS};
use serde_json::Value;
use std::alloc::Global;

/// Refuses what is no object.
pub(crate) fn object(alloc: Global, place: &Place, value: &Value) -> Result<(), TrainFault>
    ensures { Gives (λ done. done) result (object_at place.now (view value.now)) }
{
    if value.is_object() {
        return Ok(());
    }
    Err(TrainFault::Kind {
        spot: place.spot(alloc, "")?,
    })
}

/// The value of a field.
fn found<'a>(
    alloc: Global,
    place: &Place,
    value: &'a Value,
    field: &str,
) -> Result<&'a Value, TrainFault>
    ensures { Gives (λ found. view found.now) result
        (found_at place.now field.now (view value.now)) }
{
    let Some(found) = value.get(field) else {
        return Err(TrainFault::Missing {
            spot: place.spot(alloc, field)?,
        });
    };
    Ok(found)
}

/// The name in a field.
pub(crate) fn name<'a>(
    alloc: Global,
    place: &Place,
    value: &'a Value,
    field: &str,
) -> Result<&'a str, TrainFault>
    ensures name { Gives (λ name. name.now) result (name_at place.now field.now (view value.now)) }
    ensures limited { IfOk result (λ name. IsName name.now) }
{
    let found = found(alloc, place, value, field)?;
    let Some(text) = found.as_str() else {
        return Err(TrainFault::Kind {
            spot: place.spot(alloc, field)?,
        });
    };
    let name = limited(text)?;
    Ok(name)
}

/// Refuses a name that is too short or too long.
fn limited(name: &str) -> Result<&str, TrainFault>
    ensures name { Gives (λ name. name.now) result (limited_name name.now) }
    ensures limited { IfOk result (λ name. IsName name.now) }
{
    if name.is_empty() || name.len() > MAX_TRAIN_NAME_BYTES {
        return Err(TrainFault::Limit {
            what: What::Name,
            count: name.len() as i64,
        });
    }
    Ok(name)
}

/// The whole number of a field, where it is one from 0 to the most.
pub(crate) fn number(
    alloc: Global,
    place: &Place,
    value: &Value,
    field: &str,
    what: What,
    most: u32,
) -> Result<u32, TrainFault>
    ensures number { Gives (λ number. number) result
        (number_at place.now field.now what most (view value.now)) }
    ensures most { IfOk result (λ number. number ≤ most) }
{
    let found = found(alloc, place, value, field)?;
    let number = read(alloc, place, found, field, whole_in(found))?;
    let number = limit(&number, what, most)?;
    Ok(number)
}

/// The same of a field in which 0 is a fault of its own.
pub(crate) fn number_above_zero(
    alloc: Global,
    place: &Place,
    value: &Value,
    field: &str,
    what: What,
    most: u32,
) -> Result<u32, TrainFault>
    ensures number { Gives (λ number. number) result
        (some_number_at place.now field.now what most (view value.now)) }
    ensures least { IfOk result (λ number. 1 ≤ number) }
    ensures most { IfOk result (λ number. number ≤ most) }
{
    let number = number(alloc, place, value, field, what, most)?;
    if number == 0 {
        return Err(TrainFault::Zero {
            spot: place.spot(alloc, field)?,
        });
    }
    Ok(number)
}

/// The number that was read from a field, where one was.
fn read(
    alloc: Global,
    place: &Place,
    found: &Value,
    field: &str,
    read: Result<i64, NotWhole>,
) -> Result<i64, TrainFault>
    ensures { Gives (λ number. number) result
        (number_read (spot_of place.now field.now) (view found.now) read) }
{
    match read {
        Ok(number) => Ok(number),
        Err(NotWhole::Range) => Err(TrainFault::Limit {
            what: What::Number,
            count: count_in(found),
        }),
        Err(NotWhole::Shape) => Err(TrainFault::Kind {
            spot: place.spot(alloc, field)?,
        }),
        Err(NotWhole::Fraction) => Err(TrainFault::Kind {
            spot: place.spot(alloc, field)?,
        }),
    }
}

/// Refuses a number outside its limits.
fn limit(number: &i64, what: What, most: u32) -> Result<u32, TrainFault>
    ensures number { Gives (λ number. number) result (within what most number.now) }
    ensures most { IfOk result (λ number. number ≤ most) }
{
    if *number < 0 || *number > i64::from(most) {
        return Err(TrainFault::Limit {
            what,
            count: *number,
        });
    }
    Ok(*number as u32)
}

/// The list of a field.
pub(crate) fn list<'a>(
    alloc: Global,
    place: &Place,
    value: &'a Value,
    field: &str,
) -> Result<&'a [Value], TrainFault>
    ensures list { Gives (λ items. map view items.now) result
        (list_at place.now field.now (view value.now)) }
    ensures few { IfOk result (λ items. length items.now ≤ MAX_TRAINS) }
{
    let found = found(alloc, place, value, field)?;
    let items = elements(alloc, place, found, field)?;
    Ok(items)
}

#[tactic(auto, using(crate::proofs::Lists::list_back))]
fn elements<'a>(
    alloc: Global,
    place: &Place,
    found: &'a Value,
    field: &str,
) -> Result<&'a [Value], TrainFault>
    ensures list { Gives (λ items. map view items.now) result
        (elements_of (spot_of place.now field.now) (view found.now)) }
    ensures few { IfOk result (λ items. length items.now ≤ MAX_TRAINS) }
{
    let Some(items) = found.as_array() else {
        return Err(TrainFault::Kind {
            spot: place.spot(alloc, field)?,
        });
    };
    let items = few(items.as_slice())?;
    Ok(items)
}

fn few(items: &[Value]) -> Result<&[Value], TrainFault>
    ensures list { Gives (λ items. map view items.now) result (few (map view items.now)) }
    ensures few { IfOk result (λ items. length items.now ≤ MAX_TRAINS) }
{
    if items.len() > MAX_TRAINS as usize {
        return Err(TrainFault::Limit {
            what: What::List,
            count: items.len() as i64,
        });
    }
    Ok(items)
}
