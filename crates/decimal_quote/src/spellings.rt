//! The parts of a number: its sign, its digits and its exponent.

ghost use Rattle.std.specs.Prelude.{◌≡◌, drop, [], if◌then◌else◌};
ghost use Rattle.std.specs.Str.Parse.{AllDigits};
ghost use Rattle.decimal_quote.specs.Numbers.{begins, after_sign};
ghost use Rattle.decimal_quote.specs.Values.{front_digits, behind_digits, is_negative};
ghost use Rattle.decimal_quote.specs.Values.{whole_digits, fraction_digits, exponent_part};
ghost use Rattle.decimal_quote.specs.Values.{is_divided};

use crate::numbers::{begins_with, behind_first, behind_minus, behind_sign, digits_at_front};

/// The parts of a number's text: the digits before and behind its point, and
/// its exponent without the sign.
#[derive(Clone, Copy)]
pub(crate) struct Spelling<'a> {
    pub is_negative: bool,
    pub whole: &'a [u8],
    pub fraction: &'a [u8],
    /// Whether the exponent has a minus.
    pub is_divided: bool,
    pub exponent: &'a [u8],
}

pub(crate) fn spelling_of(text: &[u8]) -> Spelling
    ensures negative { result.is_negative ≡ is_negative text.now }
    ensures whole { result.whole.now ≡ whole_digits text.now }
    ensures fraction { result.fraction.now ≡ fraction_digits text.now }
    ensures divided { result.is_divided ≡ is_divided text.now }
    ensures exponent { result.exponent.now ≡ front_digits (after_sign (exponent_part text.now)) }
    ensures digits_before { AllDigits 10 result.whole.now }
    ensures digits_behind { AllDigits 10 result.fraction.now }
    ensures digits_above { AllDigits 10 result.exponent.now }
{
    let (whole, rest) = digit_run(behind_minus(text));
    let (fraction, rest) = fraction_run(rest);
    let power = behind_letter(rest);
    let (exponent, _) = digit_run(behind_sign(power));
    Spelling {
        is_negative: begins_with(text, b'-'),
        whole,
        fraction,
        is_divided: begins_with(power, b'-'),
        exponent,
    }
}

/// The digits at the front, and what follows them.
#[tactic(auto, using(crate::proofs::Digits::front_digits_are))]
fn digit_run(text: &[u8]) -> (&[u8], &[u8])
    ensures front { result.0.now ≡ front_digits text.now }
    ensures digits { AllDigits 10 result.0.now }
    ensures behind { result.1.now ≡ behind_digits text.now }
{
    text.split_at(digits_at_front(text))
}

/// The digits behind a point at the front, and what follows them.
fn fraction_run(text: &[u8]) -> (&[u8], &[u8])
    ensures front { result.0.now
        ≡ (if begins 46 text.now then front_digits (drop 1 text.now) else []) }
    ensures digits { AllDigits 10 result.0.now }
    ensures behind { result.1.now
        ≡ (if begins 46 text.now then behind_digits (drop 1 text.now) else text.now) }
{
    if begins_with(text, b'.') {
        digit_run(behind_first(text))
    } else {
        (&[], text)
    }
}

/// The text without its first byte, where it has one.
fn behind_letter(text: &[u8]) -> &[u8]
    ensures { result.now ≡ drop 1 text.now }
{
    match text {
        [_, rest @ ..] => rest,
        [] => text,
    }
}
