//! Numbers and big integers in parts.

ghost use Rattle.std.specs.Prelude.{◌≡◌, ◌^◌, ◌<◌, ◌≤◌, []};
ghost use Rattle.std.specs.Option.{SomeIff};
ghost use Rattle.std.specs.Str.{IsAscii};
ghost use Rattle.std.specs.Str.Parse.{digits_value};
ghost use Rattle.base_number.specs.Numbers.{numeral};
ghost use Rattle.print_spelling.specs.Number.Numbers as spec;
ghost use Rattle.print_spelling.specs.Number.NumberTexts.{joined};

use base_number::NumValue;

/// The text of a number in three parts, one after the other: slices of its digits, and texts of the
/// grammar. It takes no memory.
#[derive(Clone, Copy, Debug)]
pub struct NumberText<'a> {
    pub first: &'a str,
    pub second: &'a str,
    pub third: &'a str,
}

/// The power of ten that a numeral writes, if it is below 2 to the 64.
pub(crate) fn small_power(power: &str) -> Option<usize>
    requires { power.now ≡ numeral (digits_value 10 power.now) }
    ensures { SomeIff result (digits_value 10 power.now < 2 ^ 64) (digits_value 10 power.now) }
{
    match power.parse::<usize>() {
        Ok(value) => Some(value),
        Err(_) => None,
    }
}

/// Up to two zeros.
fn zeros(count: usize) -> &'static str
    requires { count ≤ 2 }
    ensures { result.now ≡ spec.zeros count [] }
{
    match count {
        0 => "",
        1 => "0",
        _ => "00",
    }
}

/// Digits times a power of ten.
fn large<'a>(digits: &'a str, power: &'a str) -> NumberText<'a>
    requires { power.now ≡ numeral (digits_value 10 power.now) }
    ensures { joined result ≡ spec.large_text digits.now (digits_value 10 power.now) }
{
    match small_power(power) {
        Some(count) if count < 3 => NumberText {
            first: digits,
            second: zeros(count),
            third: "",
        },
        _ => NumberText {
            first: digits,
            second: "e",
            third: power,
        },
    }
}

/// Digits divided by a power of ten.
fn small<'a>(digits: &'a str, power: &'a str) -> NumberText<'a>
    requires digits { IsAscii digits.now }
    requires power { power.now ≡ numeral (digits_value 10 power.now) }
    ensures { joined result ≡ spec.small_text digits.now (digits_value 10 power.now) }
{
    let count = digits.len();
    match small_power(power) {
        Some(places) if places < count => {
            let (integer, fraction) = digits.split_at(count - places);
            NumberText {
                first: integer,
                second: ".",
                third: fraction,
            }
        }
        Some(places) if places <= count + 2 => NumberText {
            first: ".",
            second: zeros(places - count),
            third: digits,
        },
        _ => NumberText {
            first: digits,
            second: "e-",
            third: power,
        },
    }
}

/// A `0` and the letter of a radix.
fn prefix(radix: u32) -> &'static str
    ensures { result.now ≡ spec.prefix radix }
{
    match radix {
        2 => "0b",
        8 => "0o",
        _ => "0x",
    }
}

/// A number as short as it goes: digits and a power of ten, a point among them, or digits behind the
/// prefix of their radix (ECMA-262, 12.9.3).
pub fn minified(value: &NumValue) -> NumberText<'_>
    ensures { joined result ≡ spec.minified value.now }
{
    let digits = value.digits();
    let radix = value.radix();
    if radix != 10 {
        return NumberText {
            first: prefix(radix),
            second: digits,
            third: "",
        };
    }
    if digits.is_empty() {
        return NumberText {
            first: "0",
            second: "",
            third: "",
        };
    }
    if value.has_negative_exponent() {
        small(digits, value.exponent_digits())
    } else {
        large(digits, value.exponent_digits())
    }
}

/// A big integer, by its radix and its digits as they were spelled, without `_` (ECMA-262, 12.9.3).
pub fn big_int(radix: u32, digits: &str) -> NumberText<'_>
    ensures { joined result ≡ spec.big_text radix digits.now }
{
    NumberText {
        first: if radix == 10 { "" } else { prefix(radix) },
        second: digits,
        third: "n",
    }
}
