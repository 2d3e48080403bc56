//! Fields of one object. Each call answers the first fault of its field, at its spot.

ghost use Rattle.std.specs.Prelude.{◌≡◌, ◌<◌, ◌≤◌, ◌^◌, ℤ, length, map, false, Ok, IfOk};
ghost use Rattle.std.specs.Prelude.{option_map};
ghost use Rattle.serde_json.specs.View.{view};
ghost use Rattle.decimal_quote.specs.declared.values.NotWhole.{NotWhole};
ghost use Rattle.rail_types.specs.IdLists.{is_known};
ghost use Rattle.json_fields.specs.Places.{spot_of};
ghost use Rattle.rail_types.specs.Named.{IsId};
ghost use Rattle.rail_types.specs.declared.limits.TheConstants.{MAX_OBJECTS};
ghost use Rattle.infra_fields.specs.declared.faults.InfraFault.TheVariants.{Kind, Memory};
ghost use Rattle.infra_fields.specs.Fields.{Gives, object_at, found_at, text_of, text_at};
ghost use Rattle.infra_fields.specs.Fields.{limited_id, id_at, new_id_at, known_number, number_at};
ghost use Rattle.infra_fields.specs.Fields.{number_read, natural, metres_at, rounded_at, within};
ghost use Rattle.infra_fields.specs.Fields.{list_found, list_at, few, elements_in};

use crate::faults::{InfraFault, What};
use decimal_quote::NotWhole;
use json_fields::{Place, count_in, scaled_in, whole_in};
use no_memory::NoMemory;
use rail_types::id_lists::{HasId, Listed};
use rail_types::{MAX_ID_BYTES, MAX_OBJECTS, Name};
use serde_json::Value;
use std::alloc::Global;

/// Refuses what is no object.
pub fn object(alloc: Global, place: &Place, value: &Value) -> Result<(), InfraFault>
    ensures { Gives (λ done. done) result (object_at place.now (view value.now)) }
{
    if value.is_object() {
        return Ok(());
    }
    Err(wrong_kind(alloc, place, ""))
}

/// That a field is of another kind than is wanted, or want of memory.
pub(crate) fn wrong_kind(alloc: Global, place: &Place, field: &str) -> InfraFault
    ensures { (result ≡ Memory → ⊥) → result ≡ Kind (spot_of place.now field.now) }
{
    match place.spot(alloc, field) {
        Ok(spot) => InfraFault::Kind { spot },
        Err(NoMemory) => InfraFault::Memory,
    }
}

/// The value of a field.
pub fn found<'a>(
    alloc: Global,
    place: &Place,
    value: &'a Value,
    field: &str,
) -> Result<&'a Value, InfraFault>
    ensures { Gives (λ found. view found.now) result
        (found_at place.now field.now (view value.now)) }
{
    let Some(found) = value.get(field) else {
        return Err(InfraFault::Missing {
            spot: place.spot(alloc, field)?,
        });
    };
    Ok(found)
}

/// The text that a value is. The fault is told at the field.
pub fn text_in<'a>(
    alloc: Global,
    place: &Place,
    value: &'a Value,
    field: &str,
) -> Result<&'a str, InfraFault>
    ensures { Gives (λ text. text.now) result (text_of place.now field.now (view value.now)) }
{
    let Some(text) = value.as_str() else {
        return Err(wrong_kind(alloc, place, field));
    };
    Ok(text)
}

/// The text of a field.
pub fn text<'a>(
    alloc: Global,
    place: &Place,
    value: &'a Value,
    field: &str,
) -> Result<&'a str, InfraFault>
    ensures { Gives (λ text. text.now) result (text_at place.now field.now (view value.now)) }
{
    let found = found(alloc, place, value, field)?;
    text_in(alloc, place, found, field)
}

/// Refuses an id that is too short or too long.
pub fn limited(id: &str) -> Result<&str, InfraFault>
    ensures id { Gives (λ id. id.now) result (limited_id id.now) }
    ensures named { IfOk result (λ id. IsId id.now) }
{
    let bytes = id.as_bytes();
    if bytes.is_empty() || bytes.len() > MAX_ID_BYTES {
        return Err(InfraFault::Limit {
            what: What::Id,
            count: bytes.len() as i64,
        });
    }
    Ok(id)
}

/// The id in a field.
pub fn id<'a>(
    alloc: Global,
    place: &Place,
    value: &'a Value,
    field: &str,
) -> Result<&'a str, InfraFault>
    ensures id { Gives (λ id. id.now) result (id_at place.now field.now (view value.now)) }
    ensures named { IfOk result (λ id. IsId id.now) }
{
    let text = text(alloc, place, value, field)?;
    limited(text)
}

/// The object's own id, which none of those before it has.
pub fn new_id<'a, T: HasId>(
    alloc: Global,
    place: &Place,
    value: &'a Value,
    before: &Listed<T>,
) -> Result<&'a str, InfraFault>
    ensures id { Gives (λ id. id.now) result
        (new_id_at place.now (map T.id before.now) (view value.now)) }
    ensures fresh { IfOk result (λ id. is_known id.now (map T.id before.now) ≡ false) }
    ensures named { IfOk result (λ id. IsId id.now) }
{
    let id = id(alloc, place, value, "id")?;
    if before.has(id) {
        return Err(InfraFault::Twice {
            id: Name::from_bytes(alloc, id.as_bytes())?,
        });
    }
    Ok(id)
}

/// The number of the object with this id. The fault is told at the field.
pub fn known<T: HasId>(
    alloc: Global,
    place: &Place,
    id: &str,
    field: &str,
    among: &Listed<T>,
) -> Result<u32, InfraFault>
    ensures number { Gives (λ number. number) result
        (known_number place.now id.now field.now (map T.id among.now)) }
    ensures within { IfOk result (λ number. number < length among.now) }
{
    let Some(number) = among.number(id) else {
        return Err(InfraFault::Unknown {
            id: Name::from_bytes(alloc, id.as_bytes())?,
            spot: place.spot(alloc, field)?,
        });
    };
    Ok(number)
}

/// The number of the object that a field names.
pub fn number<T: HasId>(
    alloc: Global,
    place: &Place,
    value: &Value,
    field: &str,
    among: &Listed<T>,
) -> Result<u32, InfraFault>
    ensures number { Gives (λ number. number) result
        (number_at place.now field.now (map T.id among.now) (view value.now)) }
    ensures within { IfOk result (λ number. number < length among.now) }
{
    let id = id(alloc, place, value, field)?;
    known(alloc, place, id, field, among)
}

/// The number that was read from a field, where one was.
pub fn read(
    alloc: Global,
    place: &Place,
    found: &Value,
    field: &str,
    read: Result<i64, NotWhole>,
) -> Result<i64, InfraFault>
    ensures { Gives (λ number. number) result
        (number_read (spot_of place.now field.now) (view found.now) read) }
{
    match read {
        Ok(number) => Ok(number),
        Err(NotWhole::Shape) => Err(wrong_kind(alloc, place, field)),
        Err(NotWhole::Range) => Err(InfraFault::Limit {
            what: What::Number,
            count: count_in(found),
        }),
        Err(NotWhole::Fraction) => Err(InfraFault::Fraction {
            spot: place.spot(alloc, field)?,
        }),
    }
}

/// Refuses a negative number.
pub fn not_negative(
    alloc: Global,
    place: &Place,
    field: &str,
    number: &i64,
) -> Result<u64, InfraFault>
    ensures number { Gives (λ number. number) result
        (natural (spot_of place.now field.now) number.now) }
    ensures small { IfOk result (λ number. number < 2 ^ 63) }
{
    if *number < 0 {
        return Err(InfraFault::Negative {
            spot: place.spot(alloc, field)?,
        });
    }
    Ok(number.unsigned_abs())
}

/// The whole metres of a field.
pub fn metres(alloc: Global, place: &Place, value: &Value, field: &str) -> Result<u64, InfraFault>
    ensures metres { Gives (λ metres. metres) result
        (metres_at place.now field.now (view value.now)) }
    ensures small { IfOk result (λ metres. metres < 2 ^ 63) }
{
    let found = found(alloc, place, value, field)?;
    let number = read(alloc, place, found, field, whole_in(found))?;
    not_negative(alloc, place, field, &number)
}

/// The metres of a field, rounded up or down.
pub fn rounded(
    alloc: Global,
    place: &Place,
    value: &Value,
    field: &str,
    up: bool,
) -> Result<u64, InfraFault>
    ensures metres { Gives (λ metres. metres) result
        (rounded_at place.now field.now up (view value.now)) }
    ensures small { IfOk result (λ metres. metres < 2 ^ 63) }
{
    let found = found(alloc, place, value, field)?;
    let number = read(alloc, place, found, field, scaled_in(found, up, false))?;
    not_negative(alloc, place, field, &number)
}

/// Refuses a number outside its limits.
pub fn limit(number: u64, least: u32, most: u32, what: What) -> Result<u32, InfraFault>
    requires { number < 2 ^ 63 }
    ensures number { Gives (λ number. number) result (within least most what number) }
    ensures least { IfOk result (λ number. least ≤ number) }
    ensures most { IfOk result (λ number. number ≤ most) }
{
    if number < u64::from(least) || number > u64::from(most) {
        return Err(InfraFault::Limit {
            what,
            count: number as i64,
        });
    }
    Ok(number as u32)
}

/// The list of a field, empty where the field is absent.
pub fn list<'a>(
    alloc: Global,
    place: &Place,
    value: &'a Value,
    field: &str,
) -> Result<&'a [Value], InfraFault>
    ensures list { Gives (λ items. map view items.now) result
        (list_at place.now field.now (view value.now)) }
    ensures few { IfOk result (λ items. length items.now ≤ MAX_OBJECTS) }
{
    let Some(found) = value.get(field) else {
        return Ok(&[]);
    };
    elements(alloc, place, found, field)
}

/// The elements of a list, None where the value is no list.
#[tactic(auto, using(crate::proofs::Lists::list_back))]
pub fn items_in(value: &Value) -> Option<&[Value]>
    ensures { option_map (λ items. map view items.now) result ≡ elements_in (view value.now) }
{
    let Some(items) = value.as_array() else {
        return None;
    };
    Some(items.as_slice())
}

fn elements<'a>(
    alloc: Global,
    place: &Place,
    found: &'a Value,
    field: &str,
) -> Result<&'a [Value], InfraFault>
    ensures list { Gives (λ items. map view items.now) result
        (list_found (spot_of place.now field.now) (view found.now)) }
    ensures few { IfOk result (λ items. length items.now ≤ MAX_OBJECTS) }
{
    let Some(items) = items_in(found) else {
        return Err(wrong_kind(alloc, place, field));
    };
    few(items)
}

fn few(items: &[Value]) -> Result<&[Value], InfraFault>
    ensures list { Gives (λ items. map view items.now) result (few (map view items.now)) }
    ensures few { IfOk result (λ items. length items.now ≤ MAX_OBJECTS) }
{
    if items.len() > MAX_OBJECTS as usize {
        return Err(InfraFault::Limit {
            what: What::List,
            count: items.len() as i64,
        });
    }
    Ok(items)
}
