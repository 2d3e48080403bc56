//! Numbers of a file: as they stand, or as a quoted text spells them.

ghost use Rattle.std.specs.Prelude.{◌≡◌, Bool, false};
ghost use Rattle.serde_json.specs.View.{view};
ghost use Rattle.json_fields.specs.Numbers.{whole_value, scaled_value, count_value, in_units};

use decimal_quote::{NotWhole, count_of, scaled, whole};
use serde_json::Value;

/// The whole number that a value is or spells. Refuses as `decimal_quote::whole` does;
/// `Shape` is what is no number.
pub fn whole_in(value: &Value) -> Result<i64, NotWhole>
    ensures { result ≡ whole_value (view value.now) }
{
    if let Some(number) = value.as_i64() {
        return in_units(&number, false);
    }
    let Some(text) = value.as_str() else {
        return Err(NotWhole::Shape);
    };
    whole(text.as_bytes())
}

/// The number that a value is or spells, in units, or in thousandths where `milli`, rounded up
/// where `up` and else down. Refuses as `decimal_quote::scaled` does; `Shape` is what is no number.
pub fn scaled_in(value: &Value, up: bool, milli: bool) -> Result<i64, NotWhole>
    ensures { result ≡ scaled_value (view value.now) up milli }
{
    if let Some(number) = value.as_i64() {
        return in_units(&number, milli);
    }
    let Some(text) = value.as_str() else {
        return Err(NotWhole::Shape);
    };
    scaled(text.as_bytes(), up, milli)
}

/// The value of a number, where that is a whole number of 64 bits; else 0.
pub fn count_in(value: &Value) -> i64
    ensures { result ≡ count_value (view value.now) }
{
    if let Some(number) = value.as_i64() {
        return number;
    }
    let Some(text) = value.as_str() else {
        return 0;
    };
    count_of(text.as_bytes())
}

/// A number as it stands, in units or thousandths, of at most 18 digits.
fn in_units(number: &i64, milli: bool) -> Result<i64, NotWhole>
    ensures { result ≡ in_units number.now milli }
{
    let units = if milli { 1_000 } else { 1 };
    if number.unsigned_abs() >= 1_000_000_000_000_000_000 / units {
        return Err(NotWhole::Range);
    }
    Ok(*number * units as i64)
}
