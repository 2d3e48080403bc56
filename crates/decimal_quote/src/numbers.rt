//! Which texts are numbers.

ghost use Rattle.std.specs.Prelude.{◌≡◌, ◌^◌, ◌<◌, ◌≤◌, drop, length, map, option_map};
ghost use Rattle.std.specs.List.{list_all, prefix_len};
ghost use Rattle.std.specs.Char.{is_ascii_digit};
ghost use Rattle.std.specs.Simd.Lanes.{mask_l};
ghost use Rattle.decimal_quote.specs.Numbers.{after_number, after_minus, after_whole};
ghost use Rattle.decimal_quote.specs.Numbers.{after_fraction, after_exponent, after_sign};
ghost use Rattle.decimal_quote.specs.Numbers.{after_digits, begins, is_number as is_number_text};
ghost use Rattle.decimal_quote.specs.Numbers.{is_no_digit};
ghost use Rattle.decimal_quote.specs.Numbers.{is_short_natural as is_short_natural_text};
ghost use Rattle.decimal_quote.specs.Numbers.{is_short_whole as is_short_whole_text};

use std::simd::prelude::*;

/// How many bytes a vector has.
pub(crate) const LANES: usize = 16;

/// Whether the whole text is a number.
pub fn is_number(text: &[u8]) -> bool
    ensures { result ≡ is_number_text text.now }
{
    let Some(rest) = behind_number(text) else {
        return false;
    };
    rest.is_empty()
}

/// What follows the number at the front of a text. None where no number stands there, or where no
/// digit stands behind its point, or in its exponent.
#[inline(always)]
pub(crate) fn behind_number(text: &[u8]) -> Option<&[u8]>
    ensures { option_map (λ rest. rest.now) result ≡ after_number text.now }
{
    let Some(rest) = behind_whole(behind_minus(text)) else {
        return None;
    };
    let Some(rest) = behind_fraction(rest) else {
        return None;
    };
    behind_exponent(rest)
}

/// Whether the text is 0, or 1 to 18 digits, the first not 0, behind a minus or none.
pub fn is_short_whole(text: &[u8]) -> bool
    ensures { result ≡ is_short_whole_text text.now }
{
    (begins_with(text, b'0') && text.len() == 1) || is_short_natural(behind_minus(text))
}

fn is_short_natural(text: &[u8]) -> bool
    ensures { result ≡ is_short_natural_text text.now }
{
    are_digits(text) && !text.is_empty() && text.len() <= 18 && !begins_with(text, b'0')
}

fn are_digits(text: &[u8]) -> bool
    ensures { result ≡ list_all is_ascii_digit text.now }
{
    text.iter().all(|byte| byte.is_ascii_digit())
}

/// How many digits stand at the front of a text.
pub(crate) fn digits_at_front(text: &[u8]) -> usize
    ensures digits { result ≡ prefix_len is_ascii_digit text.now }
    ensures within { result ≤ length text.now }
{
    let mut at = 0;
    'vectors: while text.len() - at >= LANES {
        let others = non_digits(u8x16::from_slice(&text[at..]));
        if others != 0 {
            return at + others.trailing_zeros() as usize;
        }
        at += LANES;
    }
    let (_, rest) = text.split_at(at);
    at + digits_one_by_one(rest)
}

// The same, looked at byte by byte.
fn digits_one_by_one(text: &[u8]) -> usize
    ensures digits { result ≡ prefix_len is_ascii_digit text.now }
    ensures within { result ≤ length text.now }
{
    text.iter().take_while(|byte| byte.is_ascii_digit()).count()
}

// A bit for each byte, the lowest for the first: whether that one is no digit.
#[inline(always)]
fn non_digits(bytes: u8x16) -> u64
    ensures { result ≡ mask_l (map is_no_digit bytes) }
{
    u8x16::splat(9)
        .simd_lt(bytes - u8x16::splat(b'0'))
        .to_bitmask()
}

pub(crate) fn begins_with(text: &[u8], byte: u8) -> bool
    ensures { result ≡ begins byte text.now }
{
    match text {
        [first, ..] => *first == byte,
        [] => false,
    }
}

/// The text without its first byte.
pub(crate) fn behind_first(text: &[u8]) -> &[u8]
    requires { 0 < length text.now }
    ensures { result.now ≡ drop 1 text.now }
{
    let (_, rest) = text.split_at(1);
    rest
}

fn behind_digits(text: &[u8]) -> Option<&[u8]>
    ensures { option_map (λ rest. rest.now) result ≡ after_digits text.now }
{
    let count = digits_at_front(text);
    if count == 0 {
        return None;
    }
    let (_, rest) = text.split_at(count);
    Some(rest)
}

pub(crate) fn behind_minus(text: &[u8]) -> &[u8]
    ensures { result.now ≡ after_minus text.now }
{
    if begins_with(text, b'-') {
        behind_first(text)
    } else {
        text
    }
}

pub(crate) fn behind_sign(text: &[u8]) -> &[u8]
    ensures { result.now ≡ after_sign text.now }
{
    if begins_with(text, b'+') || begins_with(text, b'-') {
        behind_first(text)
    } else {
        text
    }
}

fn behind_whole(text: &[u8]) -> Option<&[u8]>
    ensures { option_map (λ rest. rest.now) result ≡ after_whole text.now }
{
    if begins_with(text, b'0') {
        Some(behind_first(text))
    } else {
        behind_digits(text)
    }
}

fn behind_fraction(text: &[u8]) -> Option<&[u8]>
    ensures { option_map (λ rest. rest.now) result ≡ after_fraction text.now }
{
    if begins_with(text, b'.') {
        behind_digits(behind_first(text))
    } else {
        Some(text)
    }
}

fn behind_exponent(text: &[u8]) -> Option<&[u8]>
    ensures { option_map (λ rest. rest.now) result ≡ after_exponent text.now }
{
    if begins_with(text, b'e') || begins_with(text, b'E') {
        behind_digits(behind_sign(behind_first(text)))
    } else {
        Some(text)
    }
}
