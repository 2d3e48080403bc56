//! The exact value of a number, as a whole number.

ghost use Rattle.std.specs.Prelude.{◌≡◌, ◌<◌, ◌≤◌, ◌*◌, ◌/◌, ◌%◌, ◌^◌, ◌==◌, ℕ, not, true, nat_lt};
ghost use Rattle.std.specs.Prelude.{IfSome, Ok, Err, if◌then◌else◌};
ghost use Rattle.decimal_quote.specs.Values.{whole_of, scaled_of, whole_value, scaled_value};
ghost use Rattle.decimal_quote.specs.Values.{count_by, at_most_18_digits, count_told, of_number};
ghost use Rattle.decimal_quote.specs.Values.{exponent_amount, numerator, denominator, units, below};
ghost use Rattle.decimal_quote.specs.Values.{rounded, is_away, is_negative, signed, fits_64_bits};
ghost use Rattle.decimal_quote.specs.declared.values.NotWhole.TheVariants.{Fraction};

use crate::numbers::{begins_with, is_number};
use crate::shares::{Share, digits_below, divide};
use crate::spellings::spelling_of;
use thiserror::Error;

/// The longest text that is read as a number, in bytes.
const MAX_NUMBER_BYTES: usize = 64;

/// The end of the exponents that are read, up or down.
const END_OF_EXPONENTS: u128 = 100;

/// How far an exponent exceeds a text's length, so that its digits can't make up for it in 64 bits.
const VAST_EXCESS: u128 = 20;

/// The least number of 19 digits.
const END_OF_18_DIGITS: u128 = 1_000_000_000_000_000_000;

/// The end of the numbers of 64 bits above zero; the amounts of those below it end one later.
const END_OF_64_BITS: u128 = 9_223_372_036_854_775_808;

/// Why a text has no such whole number.
#[derive(Clone, Copy, Debug, PartialEq, Eq, Error)]
pub enum NotWhole {
    /// It is not a number of JSON.
    #[error("not a number")]
    Shape,
    /// Its value is not whole.
    #[error("not a whole number")]
    Fraction,
    /// It has more than 64 bytes, an exponent beyond 99 either way, or a
    /// result of more than 18 digits.
    #[error("out of range")]
    Range,
}

/// The value of a number of JSON (RFC 8259, section 6), where that is a whole
/// number of at most 18 digits.
///
/// Refuses a text that is no number as `Shape`, then one of more than 64 bytes or with an
/// exponent beyond 99 either way as `Range`, then one whose value is not whole as `Fraction`,
/// then one of more digits as `Range`.
pub fn whole(text: &[u8]) -> Result<i64, NotWhole>
    ensures { result ≡ whole_of text.now }
{
    match exponent_read(text) {
        Ok(exponent) => whole_amount(text, exponent),
        Err(refusal) => Err(refusal),
    }
}

/// The value of a number of JSON in units, or in thousandths where `milli`, rounded towards plus
/// infinity where `up` and else towards minus infinity.
///
/// Refuses a text that is no number as `Shape`; one of more than 64 bytes, with an exponent beyond
/// 99 either way or with a result of more than 18 digits as `Range`.
pub fn scaled(text: &[u8], up: bool, milli: bool) -> Result<i64, NotWhole>
    ensures { result ≡ scaled_of text.now up milli }
{
    match exponent_read(text) {
        Ok(exponent) => scaled_amount(text, exponent, up, milli),
        Err(refusal) => Err(refusal),
    }
}

/// The value of a number of JSON, where that is a whole number of 64 bits;
/// else, and of any other text, 0.
pub fn count_of(text: &[u8]) -> i64
    ensures { result ≡ count_told text.now }
{
    if !is_number(text) {
        return 0;
    }
    let vast = text.len() as u128 + VAST_EXCESS;
    let Some(exponent) = digits_below(0, spelling_of(text).exponent, vast) else {
        return 0;
    };
    count_share(text, share_of(text, exponent, false, end_of_64_bits(text)))
}

/// The end of the amounts of numbers of 64 bits with the sign of the text.
fn end_of_64_bits(text: &[u8]) -> u128
    ensures fits { (amount : ℕ)
        → nat_lt amount result ≡ fits_64_bits (is_negative text.now) amount }
    ensures some { 0 < result }
    ensures end { result ≤ 2 ^ 64 }
{
    if begins_with(text, b'-') {
        END_OF_64_BITS + 1
    } else {
        END_OF_64_BITS
    }
}

/// The number that is meant where nothing is left over, else 0.
fn count_share(text: &[u8], share: Share) -> i64
    requires { IfSome share.amount (λ amount. fits_64_bits (is_negative text.now) amount ≡ true) }
    ensures { (n d end : ℕ) → share.amount ≡ below end (n / d) → share.has_rest ≡ not (n % d == 0)
        → ((amount : ℕ) → nat_lt amount end ≡ fits_64_bits (is_negative text.now) amount)
        → result ≡ count_by (is_negative text.now) n d }
{
    if share.has_rest {
        return 0;
    }
    let Some(amount) = share.amount else {
        return 0;
    };
    with_sign(text, amount)
}

/// The amount of the exponent of a number that is short enough.
fn exponent_read(text: &[u8]) -> Result<u128, NotWhole>
    ensures { result ≡ of_number text.now (Ok (exponent_amount text.now)) }
{
    if !is_number(text) {
        return Err(NotWhole::Shape);
    }
    if text.len() > MAX_NUMBER_BYTES {
        return Err(NotWhole::Range);
    }
    let Some(exponent) = digits_below(0, spelling_of(text).exponent, END_OF_EXPONENTS) else {
        return Err(NotWhole::Range);
    };
    Ok(exponent)
}

/// The value where it is whole and has at most 18 digits.
fn whole_amount(text: &[u8], exponent: u128) -> Result<i64, NotWhole>
    requires exponent { exponent ≡ exponent_amount text.now }
    requires handy { exponent < 2 ^ 70 }
    ensures { result ≡ whole_value text.now }
{
    let share = share_of(text, exponent, false, END_OF_18_DIGITS);
    whole_share(text, share)
}

fn whole_share(text: &[u8], share: Share) -> Result<i64, NotWhole>
    ensures { (n d : ℕ) → share.amount ≡ below (10 ^ 18) (n / d) → share.has_rest ≡ not (n % d == 0)
        → result ≡ (if n % d == 0 then at_most_18_digits (is_negative text.now) (n / d)
        else Err Fraction) }
{
    if share.has_rest {
        return Err(NotWhole::Fraction);
    }
    let Some(amount) = share.amount else {
        return Err(NotWhole::Range);
    };
    short_number(text, amount)
}

/// The value rounded, where it has at most 18 digits.
fn scaled_amount(text: &[u8], exponent: u128, up: bool, milli: bool) -> Result<i64, NotWhole>
    requires exponent { exponent ≡ exponent_amount text.now }
    requires handy { exponent < 2 ^ 70 }
    ensures { result ≡ scaled_value text.now up milli }
{
    let share = share_of(text, exponent, milli, END_OF_18_DIGITS);
    let Some(amount) = share.amount else {
        return Err(NotWhole::Range);
    };
    let is_away = is_rounded_away(text, up);
    short_number(text, amount_rounded(amount, share.has_rest, is_away))
}

/// The number of this amount with the sign of the text, where it has at most 18 digits.
fn short_number(text: &[u8], amount: u128) -> Result<i64, NotWhole>
    ensures { result ≡ at_most_18_digits (is_negative text.now) amount }
{
    if amount >= END_OF_18_DIGITS {
        return Err(NotWhole::Range);
    }
    Ok(with_sign(text, amount))
}

fn is_rounded_away(text: &[u8], up: bool) -> bool
    ensures { result ≡ is_away (is_negative text.now) up }
{
    if begins_with(text, b'-') { !up } else { up }
}

/// The amount of the value in units, or in thousandths where `milli`.
fn share_of(text: &[u8], exponent: u128, milli: bool, end: u128) -> Share
    requires exponent { exponent ≡ exponent_amount text.now }
    requires handy { exponent < 2 ^ 70 }
    requires some { 0 < end }
    requires end { end ≤ 2 ^ 64 }
    ensures amount { result.amount
        ≡ below end (numerator text.now * units milli / denominator text.now) }
    ensures rest { result.has_rest
        ≡ not (numerator text.now * units milli % denominator text.now == 0) }
{
    let spelling = spelling_of(text);
    let places = places(milli);
    if spelling.is_divided {
        divide(spelling.whole, spelling.fraction, places, exponent, end)
    } else {
        divide(spelling.whole, spelling.fraction, exponent + places, 0, end)
    }
}

/// How many places the point moves for thousandths.
fn places(milli: bool) -> u128
    ensures power { 10 ^ result ≡ units milli }
    ensures few { result ≤ 3 }
{
    if milli { 3 } else { 0 }
}

/// The amount as it is, or one more where something is left over and it is
/// to be rounded away from zero.
fn amount_rounded(amount: u128, has_rest: bool, is_away: bool) -> u128
    requires { amount < 2 ^ 64 }
    ensures { (n d : ℕ) → amount ≡ n / d → has_rest ≡ not (n % d == 0)
        → result ≡ rounded is_away n d }
{
    if has_rest && is_away {
        amount + 1
    } else {
        amount
    }
}

/// The number of this amount with the sign of the text.
fn with_sign(text: &[u8], amount: u128) -> i64
    requires { fits_64_bits (is_negative text.now) amount ≡ true }
    ensures { result ≡ signed (is_negative text.now) amount }
{
    if begins_with(text, b'-') {
        (-(amount as i128)) as i64
    } else {
        amount as i64
    }
}
