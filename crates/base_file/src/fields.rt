//! Fields of one object. Each call answers the first fault of its field, at its spot.

ghost use Rattle.std.specs.Prelude.{◌≡◌, ◌<◌, ◌≤◌, map, IfOk};
ghost use Rattle.serde_json.specs.View.{view};
ghost use Rattle.json_fields.specs.Numbers.{whole_value};
ghost use Rattle.json_fields.specs.Places.{spot_of};
ghost use Rattle.rail_types.specs.Limits.{IsTick};
ghost use Rattle.base_file.specs.declared.faults.BaseFault.TheVariants.{Kind, Memory};
ghost use Rattle.base_file.specs.Fields.{Gives, object_at, found_at, name_at, limited_name};
ghost use Rattle.base_file.specs.Fields.{number_read, within, number_at, whole_at, near, tick_at};
ghost use Rattle.base_file.specs.Fields.{zone_among, zone_at, flag, flag_at, list_at, elements_of};

use crate::faults::{BaseFault, What};
use decimal_quote::NotWhole;
use json_fields::{Place, count_in, whole_in};
use no_memory::NoMemory;
use rail_types::{MAX_TRAIN_NAME_BYTES, Tick, is_tick};
use serde_json::Value;
use std::alloc::Global;

/// Refuses what is no object.
pub(crate) fn object(alloc: Global, place: &Place, value: &Value) -> Result<(), BaseFault>
    ensures { Gives (λ done. done) result (object_at place.now (view value.now)) }
{
    if value.is_object() {
        return Ok(());
    }
    Err(wrong_kind(alloc, place, ""))
}

/// That a field is of another kind than is wanted, or want of memory.
fn wrong_kind(alloc: Global, place: &Place, field: &str) -> BaseFault
    ensures { (result ≡ Memory → ⊥) → result ≡ Kind (spot_of place.now field.now) }
{
    match place.spot(alloc, field) {
        Ok(spot) => BaseFault::Kind { spot },
        Err(NoMemory) => BaseFault::Memory,
    }
}

/// The value of a field.
fn found<'a>(
    alloc: Global,
    place: &Place,
    value: &'a Value,
    field: &str,
) -> Result<&'a Value, BaseFault>
    ensures { Gives (λ found. view found.now) result
        (found_at place.now field.now (view value.now)) }
{
    let Some(found) = value.get(field) else {
        return Err(BaseFault::Missing {
            spot: place.spot(alloc, field)?,
        });
    };
    Ok(found)
}

/// Refuses what is no name of a train. Names may repeat, and none is kept.
pub(crate) fn name(
    alloc: Global,
    place: &Place,
    value: &Value,
    field: &str,
) -> Result<(), BaseFault>
    ensures { Gives (λ done. done) result (name_at place.now field.now (view value.now)) }
{
    let found = found(alloc, place, value, field)?;
    let Some(text) = found.as_str() else {
        return Err(wrong_kind(alloc, place, field));
    };
    limited(text)
}

/// Refuses a name that is too short or too long.
fn limited(name: &str) -> Result<(), BaseFault>
    ensures { Gives (λ done. done) result (limited_name name.now) }
{
    if name.is_empty() || name.len() > MAX_TRAIN_NAME_BYTES {
        return Err(BaseFault::Limit {
            what: What::Name,
            count: name.len() as i64,
        });
    }
    Ok(())
}

/// The whole number of a field, where it is one from the least to the most.
pub(crate) fn number(
    alloc: Global,
    place: &Place,
    value: &Value,
    field: &str,
    what: What,
    least: u64,
    most: u64,
) -> Result<u64, BaseFault>
    ensures number { Gives (λ number. number) result
        (number_at place.now field.now what least most (view value.now)) }
    ensures least { IfOk result (λ number. least ≤ number) }
    ensures most { IfOk result (λ number. number ≤ most) }
{
    let number = whole(alloc, place, value, field)?;
    limit(&number, what, least, most)
}

/// The same of a number of 32 bits.
pub(crate) fn small_number(
    alloc: Global,
    place: &Place,
    value: &Value,
    field: &str,
    what: What,
    least: u32,
    most: u32,
) -> Result<u32, BaseFault>
    ensures number { Gives (λ number. number) result
        (number_at place.now field.now what least most (view value.now)) }
    ensures least { IfOk result (λ number. least ≤ number) }
    ensures most { IfOk result (λ number. number ≤ most) }
{
    let (least, most) = (u64::from(least), u64::from(most));
    let number = number(alloc, place, value, field, what, least, most)?;
    Ok(number as u32)
}

/// The whole number of a field.
fn whole(alloc: Global, place: &Place, value: &Value, field: &str) -> Result<i64, BaseFault>
    ensures { Gives (λ number. number) result (whole_at place.now field.now (view value.now)) }
{
    let found = found(alloc, place, value, field)?;
    whole_of(alloc, place, found, field)
}

/// The whole number that a field's value is.
fn whole_of(alloc: Global, place: &Place, found: &Value, field: &str) -> Result<i64, BaseFault>
    ensures { Gives (λ number. number) result
        (number_read (spot_of place.now field.now) (view found.now)
        (whole_value (view found.now))) }
{
    read(alloc, place, found, field, whole_in(found))
}

/// The number that was read from a field, where one was.
fn read(
    alloc: Global,
    place: &Place,
    found: &Value,
    field: &str,
    read: Result<i64, NotWhole>,
) -> Result<i64, BaseFault>
    ensures { Gives (λ number. number) result
        (number_read (spot_of place.now field.now) (view found.now) read) }
{
    match read {
        Ok(number) => Ok(number),
        Err(NotWhole::Range) => Err(BaseFault::Limit {
            what: What::Number,
            count: count_in(found),
        }),
        Err(NotWhole::Shape | NotWhole::Fraction) => Err(wrong_kind(alloc, place, field)),
    }
}

/// Refuses a number outside its limits.
fn limit(number: &i64, what: What, least: u64, most: u64) -> Result<u64, BaseFault>
    ensures number { Gives (λ number. number) result (within what least most number.now) }
    ensures least { IfOk result (λ number. least ≤ number) }
    ensures most { IfOk result (λ number. number ≤ most) }
{
    if *number < 0 || (*number as u64) < least || *number as u64 > most {
        return Err(BaseFault::Limit {
            what,
            count: *number,
        });
    }
    Ok(*number as u64)
}

/// The tick of a field.
pub(crate) fn tick(
    alloc: Global,
    place: &Place,
    value: &Value,
    field: &str,
    what: What,
) -> Result<Tick, BaseFault>
    ensures tick { Gives (λ tick. tick) result (tick_at place.now field.now what (view value.now)) }
    ensures near { IfOk result (λ tick. IsTick tick) }
{
    let number = whole(alloc, place, value, field)?;
    near(&number, what)
}

/// Refuses a tick that no file may name.
fn near(tick: &Tick, what: What) -> Result<Tick, BaseFault>
    ensures tick { Gives (λ tick. tick) result (near what tick.now) }
    ensures near { IfOk result (λ tick. IsTick tick) }
{
    if !is_tick(tick) {
        return Err(BaseFault::Limit { what, count: *tick });
    }
    Ok(*tick)
}

/// The zone of a field, one of so many.
pub(crate) fn zone(
    alloc: Global,
    place: &Place,
    value: &Value,
    field: &str,
    zones: u32,
) -> Result<u32, BaseFault>
    ensures zone { Gives (λ zone. zone) result
        (zone_at place.now field.now zones (view value.now)) }
    ensures known { IfOk result (λ zone. zone < zones) }
{
    let number = whole(alloc, place, value, field)?;
    known_zone(alloc, place, field, &number, zones)
}

fn known_zone(
    alloc: Global,
    place: &Place,
    field: &str,
    number: &i64,
    zones: u32,
) -> Result<u32, BaseFault>
    ensures zone { Gives (λ zone. zone) result
        (zone_among zones (spot_of place.now field.now) number.now) }
    ensures known { IfOk result (λ zone. zone < zones) }
{
    if *number < 0 || *number >= i64::from(zones) {
        return Err(BaseFault::ZoneUnknown {
            spot: place.spot(alloc, field)?,
            zone: *number,
        });
    }
    Ok(*number as u32)
}

/// Whether a field that may be absent is 1 and not 0.
pub(crate) fn flag(
    alloc: Global,
    place: &Place,
    value: &Value,
    field: &str,
    what: What,
) -> Result<bool, BaseFault>
    ensures { Gives (λ is_set. is_set) result
        (flag_at place.now field.now what (view value.now)) }
{
    let Some(found) = value.get(field) else {
        return Ok(false);
    };
    let number = whole_of(alloc, place, found, field)?;
    flag_of(&number, what)
}

fn flag_of(number: &i64, what: What) -> Result<bool, BaseFault>
    ensures { Gives (λ is_set. is_set) result (flag what number.now) }
{
    if *number == 0 {
        return Ok(false);
    }
    if *number == 1 {
        return Ok(true);
    }
    Err(BaseFault::Limit {
        what,
        count: *number,
    })
}

/// The list of a field.
pub(crate) fn list<'a>(
    alloc: Global,
    place: &Place,
    value: &'a Value,
    field: &str,
) -> Result<&'a [Value], BaseFault>
    ensures { Gives (λ items. map view items.now) result
        (list_at place.now field.now (view value.now)) }
{
    let found = found(alloc, place, value, field)?;
    elements(alloc, place, found, field)
}

#[tactic(auto, using(crate::proofs::Lists::list_back))]
fn elements<'a>(
    alloc: Global,
    place: &Place,
    found: &'a Value,
    field: &str,
) -> Result<&'a [Value], BaseFault>
    ensures { Gives (λ items. map view items.now) result
        (elements_of (spot_of place.now field.now) (view found.now)) }
{
    let Some(items) = found.as_array() else {
        return Err(wrong_kind(alloc, place, field));
    };
    Ok(items.as_slice())
}
