//! A decimal as a whole number and what is left over, without numbers of more than 128 bits.

ghost use Rattle.std.specs.Prelude.{◌≡◌, ◌+◌, ◌<◌, ◌≤◌, ◌*◌, ◌/◌, ◌%◌, ◌^◌, ◌==◌, ◌&&◌, not};
ghost use Rattle.std.specs.Prelude.{length};
ghost use Rattle.std.specs.List.{list_all};
ghost use Rattle.std.specs.Str.Parse.{AllDigits, digits_value_after};
ghost use Rattle.decimal_quote.specs.Values.{below, is_zero, raised};

/// A quotient: its whole number, None where that is not below the end that was asked for, and
/// whether something is left over.
#[derive(Clone, Copy)]
pub(crate) struct Share {
    pub amount: Option<u128>,
    pub has_rest: bool,
}

/// All digits as one whole number, times ten to the power `up`, divided by ten once for each digit
/// of the fraction and `down` times more.
///
/// The point moves `up` places to the right and `down` places to the left; what stands
/// before it is the whole number.
pub(crate) fn divide(whole: &[u8], fraction: &[u8], up: u128, down: u128, end: u128) -> Share
    requires digits_before { AllDigits 10 whole.now }
    requires digits_behind { AllDigits 10 fraction.now }
    requires up { up < 2 ^ 80 }
    requires some { 0 < end }
    requires end { end ≤ 2 ^ 64 }
    ensures amount { result.amount
        ≡ below end (raised whole.now fraction.now up / 10 ^ (length fraction.now + down)) }
    ensures rest { result.has_rest
        ≡ not (raised whole.now fraction.now up % 10 ^ (length fraction.now + down) == 0) }
{
    let point = (whole.len() as u128 + up).saturating_sub(down);
    let of_whole = point.min(whole.len() as u128);
    let of_fraction = (point - of_whole).min(fraction.len() as u128);
    let (front, rest) = whole.split_at(of_whole as usize);
    let (more, more_rest) = fraction.split_at(of_fraction as usize);
    Share {
        amount: amount_before(front, more, point - of_whole - of_fraction, end),
        has_rest: !are_zeros_alone(rest, more_rest),
    }
}

/// The digits of both runs as one whole number with zeros behind it.
fn amount_before(front: &[u8], more: &[u8], zeros: u128, end: u128) -> Option<u128>
    requires digits { AllDigits 10 front.now }
    requires more_digits { AllDigits 10 more.now }
    requires some { 0 < end }
    requires end { end ≤ 2 ^ 64 }
    ensures { result ≡ below end
        (digits_value_after 10 (digits_value_after 10 0 front.now) more.now * 10 ^ zeros) }
{
    let Some(amount) = digits_below(0, front, end) else {
        return None;
    };
    let Some(amount) = digits_below(amount, more, end) else {
        return None;
    };
    zeros_below(amount, zeros, end)
}

/// The number that the digits write when they follow those of an amount.
pub(crate) fn digits_below(amount: u128, digits: &[u8], end: u128) -> Option<u128>
    requires digits { AllDigits 10 digits.now }
    requires room { amount < end }
    requires end { end ≤ 2 ^ 80 }
    ensures { result ≡ below end (digits_value_after 10 amount digits.now) }
{
    let mut total = amount;
    'digits: for digit in digits {
        total = total * 10 + u128::from(*digit - b'0');
        if total >= end {
            return None;
        }
    }
    Some(total)
}

/// The amount with zeros behind it.
fn zeros_below(amount: u128, zeros: u128, end: u128) -> Option<u128>
    requires room { amount < end }
    requires end { end ≤ 2 ^ 64 }
    ensures { result ≡ below end (amount * 10 ^ zeros) }
{
    if amount == 0 {
        return Some(0);
    }
    let mut total = amount;
    let mut left = zeros;
    'zeros: while left > 0 {
        total *= 10;
        if total >= end {
            return None;
        }
        left -= 1;
    }
    Some(total)
}

fn are_zeros_alone(rest: &[u8], more_rest: &[u8]) -> bool
    ensures { result ≡ (list_all is_zero rest.now && list_all is_zero more_rest.now) }
{
    are_zeros(rest) && are_zeros(more_rest)
}

fn are_zeros(digits: &[u8]) -> bool
    ensures { result ≡ list_all is_zero digits.now }
{
    digits.iter().all(|digit| *digit == b'0')
}
