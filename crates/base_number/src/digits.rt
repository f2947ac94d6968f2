//! Digits of numbers as ASCII text.
ghost use Rattle.std.specs.Prelude.{◌≡◌, ◌+◌, ◌*◌, ◌^◌, ◌<◌, ◌≤◌, ◌++◌, IfOk, map, Some, None, length};
ghost use Rattle.std.specs.Option.{SomeIff, option_copied};
ghost use Rattle.std.specs.Char.{to_ascii_lowercase, digit_value};
ghost use Rattle.std.specs.Str.Parse.{digits_value};
ghost use Rattle.base_number.specs.Numbers.{spells_digits, before, after, trim_front, trim_back};
ghost use Rattle.base_number.specs.DigitText.{is_between, digits_in};

use smallvec::SmallVec;
use std::alloc::{AllocError, Global};

/// Digits: up to 24 in the value itself, more in an allocation.
pub(crate) type Digits = SmallVec<u8, 24>;

/// Whether the text is digits of the radix, with `_` between two of them alone.
pub(crate) fn spells_digits(text: &[u8], radix: u32) -> bool
    requires lower { 2 ≤ radix }
    requires upper { radix ≤ 36 }
    ensures { result ≡ spells_digits radix text.now }
{
    let mut behind_digit = false;
    for byte in text {
        if char::from(*byte).is_digit(radix) {
            behind_digit = true;
        } else if behind_digit && *byte == b'_' {
            behind_digit = false;
        } else {
            return false;
        }
    }
    behind_digit
}

/// What stands before the mark, in either case, and what after it, if it is there.
pub(crate) fn cut(text: &[u8], mark: u8) -> (&[u8], Option<&[u8]>)
    ensures before { result.0.now ≡ before mark text.now }
    ensures after { option_copied result.1 ≡ after mark text.now }
{
    for (i, byte) in text.iter().enumerate() {
        if byte.to_ascii_lowercase() == mark {
            return (&text[..i], Some(&text[i + 1..]));
        }
    }
    (text, None)
}

/// Whether a byte may stand between two digits: a separator or the point.
fn is_between(byte: u8) -> bool
    ensures { result ≡ is_between byte }
{
    matches!(byte, b'_' | b'.')
}

/// The digits of the text.
pub(crate) fn digits_in(alloc: Global, text: &[u8]) -> Result<Digits, AllocError>
    ensures { IfOk result (λ digits. digits.items ≡ digits_in text.now) }
{
    let mut digits = Digits::new(alloc);
    for byte in text {
        if !is_between(*byte) {
            digits.push(*byte)?;
        }
    }
    Ok(digits)
}

/// The digits of the text, in lower case.
pub(crate) fn lower_digits_in(alloc: Global, text: &[u8]) -> Result<Digits, AllocError>
    ensures { IfOk result (λ digits. digits.items ≡ map to_ascii_lowercase (digits_in text.now)) }
{
    let mut digits = Digits::new(alloc);
    for byte in text {
        if !is_between(*byte) {
            digits.push(byte.to_ascii_lowercase())?;
        }
    }
    Ok(digits)
}

/// How many digits the text has.
pub(crate) fn count_digits(text: &[u8]) -> u64
    ensures { result ≡ length (digits_in text.now) }
{
    text.iter().filter(|b| !is_between(**b)).count() as u64
}

/// The text from its first digit on that is not 0.
pub(crate) fn trim_front(text: &[u8]) -> &[u8]
    ensures { digits_in result.now ≡ trim_front (digits_in text.now) }
{
    let mut left = text;
    while let [b'0' | b'_' | b'.', rest @ ..] = left {
        left = rest;
    }
    left
}

/// The text up to its last digit that is not 0, and how many zeros come after that.
pub(crate) fn trim_back(text: &[u8]) -> (&[u8], u64)
    ensures value { digits_in result.0.now ≡ trim_back (digits_in text.now) }
    ensures zeros { length (digits_in result.0.now) + result.1 ≡ length (digits_in text.now) }
{
    let mut left = text;
    let mut zeros = 0;
    while let Some((last, front)) = left.split_last() {
        if *last == b'0' {
            zeros += 1;
        } else if !is_between(*last) {
            return (left, zeros);
        }
        left = front;
    }
    (left, zeros)
}

/// The value of a digit in a radix up to 36, or 36.
fn digit_of(byte: u8) -> u32
    ensures { result ≡ digit_value byte }
{
    char::from(byte).to_digit(36).unwrap_or(36)
}

/// The value with one digit more, if it fits 64 bits.
fn with_digit(value: u64, radix: u32, digit: u32) -> Option<u64>
    ensures { SomeIff result (value * radix + digit < 2 ^ 64) (value * radix + digit) }
{
    value
        .checked_mul(u64::from(radix))?
        .checked_add(u64::from(digit))
}

/// The value of the digits of the text, if it fits 64 bits.
pub(crate) fn small_value(text: &[u8], radix: u32) -> Option<u64>
    requires { 2 ≤ radix }
    ensures { SomeIff result (digits_value radix (digits_in text.now) < 2 ^ 64) (digits_value radix (digits_in text.now)) }
{
    let mut value: u64 = 0;
    for byte in text {
        if is_between(*byte) {
            continue;
        }
        match with_digit(value, radix, digit_of(*byte)) {
            Some(more) => value = more,
            None => return None,
        }
    }
    Some(value)
}
