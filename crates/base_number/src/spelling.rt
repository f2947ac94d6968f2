//! Which texts spell numbers.
ghost use Rattle.std.specs.Prelude.{◌≡◌, ◌≤◌, IfSome, length, not};
ghost use Rattle.std.specs.List.{list_all, list_any};
ghost use Rattle.std.specs.Char.{is_digit};
ghost use Rattle.std.specs.Option.{option_copied};
ghost use Rattle.base_number.specs.Numbers.{prefix_radix, spells_octal, spells_non_octal, spells_integer, spells_mantissa, spells_exponent, is_negative, unsigned};

use crate::digits::spells_digits;

/// The radix of a prefix, in either case.
pub(crate) fn prefix_radix(text: &[u8]) -> Option<u32>
    ensures value { result ≡ prefix_radix text.now }
    ensures long { IfSome result (λ _. 2 ≤ length text.now) }
    ensures lower { IfSome result (λ radix. 2 ≤ radix) }
    ensures upper { IfSome result (λ radix. radix ≤ 16) }
{
    match text {
        [b'0', letter, ..] => match letter.to_ascii_lowercase() {
            b'x' => Some(16),
            b'o' => Some(8),
            b'b' => Some(2),
            _ => None,
        },
        _ => None,
    }
}

/// Whether each byte is a digit of the radix.
fn all_digits(text: &[u8], radix: u32) -> bool
    requires lower { 2 ≤ radix }
    requires upper { radix ≤ 36 }
    ensures { result ≡ list_all (λ c. is_digit c radix) text.now }
{
    text.iter().all(|b| char::from(*b).is_digit(radix))
}

/// Whether some byte is no octal digit.
fn has_non_octal(text: &[u8]) -> bool
    ensures { result ≡ list_any (λ c. not (is_digit c 8)) text.now }
{
    text.iter().any(|b| !char::from(*b).is_digit(8))
}

/// Whether the text after a 0 makes it an octal number of the old form.
pub(crate) fn spells_octal(text: &[u8]) -> bool
    ensures { result ≡ spells_octal text.now }
{
    match text {
        [] => false,
        _ => all_digits(text, 8),
    }
}

/// Whether the text after a 0 makes it a decimal number of the old form.
fn spells_non_octal(text: &[u8]) -> bool
    ensures { result ≡ spells_non_octal text.now }
{
    all_digits(text, 10) && has_non_octal(text)
}

/// Whether the text is the integer of a decimal number.
fn spells_integer(text: &[u8]) -> bool
    ensures { result ≡ spells_integer text.now }
{
    match text {
        [] => false,
        [b'0'] => true,
        [b'0', rest @ ..] => spells_non_octal(rest),
        _ => spells_digits(text, 10),
    }
}

/// Whether the parts before and after a point, if there is one, are a decimal number.
pub(crate) fn spells_mantissa(integer: &[u8], fraction: Option<&[u8]>) -> bool
    ensures { result ≡ spells_mantissa integer.now (option_copied fraction.entry) }
{
    match fraction {
        None => spells_integer(integer),
        Some(fraction) if integer.is_empty() => spells_digits(fraction, 10),
        Some(fraction) => {
            spells_integer(integer) && (fraction.is_empty() || spells_digits(fraction, 10))
        }
    }
}

/// Whether a minus stands first.
pub(crate) fn is_negative(text: &[u8]) -> bool
    ensures { result ≡ is_negative text.now }
{
    matches!(text, [b'-', ..])
}

/// The text without the sign in front.
pub(crate) fn unsigned(text: &[u8]) -> &[u8]
    ensures { result.now ≡ unsigned text.now }
{
    match text {
        [b'+' | b'-', rest @ ..] => rest,
        _ => text,
    }
}

/// Whether the text is an exponent, if there is one.
pub(crate) fn spells_exponent(exponent: Option<&[u8]>) -> bool
    ensures { result ≡ spells_exponent (option_copied exponent.entry) }
{
    match exponent {
        None => true,
        Some(text) => spells_digits(unsigned(text), 10),
    }
}
