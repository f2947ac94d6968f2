//! Whether a number takes a point of its own before the point of a member.

ghost use Rattle.std.specs.Prelude.{◌≡◌, ◌||◌, ◌==◌, option_map};
ghost use Rattle.std.specs.Char.{is_digit};
ghost use Rattle.std.specs.List.{list_all, list_any};
ghost use Rattle.lex_literal.specs.Standing as standing;
ghost use Rattle.base_number.specs.Numbers as numbers;
ghost use Rattle.print_spelling.specs.Number.Numbers as spec;
ghost use Rattle.print_spelling.specs.Number.NumberTexts.{is_digit_byte};

use crate::Style;
use crate::number::as_read::{past_separators, whole_in_edition};
use crate::number::text::small_power;
use base_number::NumValue;

/// Whether all bytes are decimal digits or separators.
fn is_digits(text: &str) -> bool
    ensures { result ≡ list_all standing.is_digit_or_separator text.now }
{
    text.bytes().all(|b| matches!(b, b'0'..=b'9' | b'_'))
}

/// Whether all bytes are octal digits.
fn are_octal(bytes: &[u8]) -> bool
    ensures { result ≡ list_all (λ c. is_digit c 8) bytes.now }
{
    bytes.iter().all(|b| matches!(*b, b'0'..=b'7'))
}

/// Whether all bytes are octal digits or separators.
fn are_octal_or_separators(bytes: &[u8]) -> bool
    ensures { result ≡ list_all (λ c. is_digit c 8 || c == 95) bytes.now }
{
    bytes.iter().all(|b| matches!(*b, b'0'..=b'7' | b'_'))
}

/// Whether one of the bytes is no separator.
fn has_digit(bytes: &[u8]) -> bool
    ensures { result ≡ list_any is_digit_byte bytes.now }
{
    bytes.iter().any(|b| *b != b'_')
}

/// Whether a text is a 0 and octal digits.
fn is_octal(text: &str) -> bool
    ensures { result ≡ numbers.is_legacy_octal text.now }
{
    match text.as_bytes() {
        [first, rest @ ..] => {
            if *first != b'0' {
                return false;
            }
            !rest.is_empty() && are_octal(rest)
        }
        [] => false,
    }
}

/// Whether a text without its separators is a 0 and octal digits.
fn is_plain_octal(text: &str) -> bool
    ensures { result ≡ numbers.is_legacy_octal (numbers.plain text.now) }
{
    match past_separators(text).as_bytes() {
        [first, rest @ ..] => {
            if *first != b'0' {
                return false;
            }
            has_digit(rest) && are_octal_or_separators(rest)
        }
        [] => false,
    }
}

/// Whether a spelling takes a point.
fn raw_takes_point(raw: &str) -> bool
    ensures { result ≡ standing.takes_point raw.now }
{
    is_digits(raw) && !is_octal(raw)
}

/// Whether a spelling without its separators takes a point.
fn plain_takes_point(raw: &str) -> bool
    ensures { result ≡ standing.takes_point (numbers.plain raw.now) }
{
    is_digits(raw) && !is_plain_octal(raw)
}

/// Whether a minified number takes a point.
fn minified_takes_point(value: &NumValue) -> bool
    ensures { result ≡ standing.takes_point (spec.minified value.now) }
{
    let digits = value.digits();
    // For the proof: two tests in place of one `||`, so that each way out has a goal of its own.
    if value.radix() != 10 {
        return false;
    }
    if value.has_negative_exponent() {
        return false;
    }
    if digits.is_empty() {
        return true;
    }
    match small_power(value.exponent_digits()) {
        Some(count) => count < 3,
        None => false,
    }
}

/// Whether a number as the edition has it takes a point.
fn edition_takes_point(style: Style, value: &NumValue, raw: &str) -> bool
    ensures { result ≡ standing.takes_point (spec.in_edition style raw.now (spec.whole_text value.now)) }
{
    if whole_in_edition(style, value, raw).is_some() {
        return true;
    }
    if style.is_below_es2021() {
        plain_takes_point(raw)
    } else {
        raw_takes_point(raw)
    }
}

/// Whether a number when formatting, or minified where it has no text as it was read, takes a point of its
/// own before the point of a member: it is digits and `_` alone, and no legacy octal number.
pub fn takes_point(style: Style, value: &NumValue, raw: Option<&str>) -> bool
    ensures { result ≡ standing.takes_point (spec.formatted style value.now (option_map (λ t. t.now) raw.entry)) }
{
    match raw {
        Some(raw) => edition_takes_point(style, value, raw),
        None => minified_takes_point(value),
    }
}
