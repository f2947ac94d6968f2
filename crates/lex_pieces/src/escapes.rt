//! The digits of Unicode escapes.
ghost use Rattle.std.specs.Prelude.{◌≡◌, ◌+◌, ◌*◌, ◌<◌, ◌≤◌, min, length, option_map, IfSome, IsUtf8};
ghost use Rattle.std.specs.Str.{chars};
ghost use Rattle.lex_pieces.specs.Characters.{is_hex_digit};
ghost use Rattle.lex_pieces.specs.Runs.{run, after};
ghost use Rattle.lex_pieces.specs.Escapes as spec;

use crate::characters::pop;
use crate::runs::strip;

/// The first number past all code points. A code point from there on is told as this one.
const LIMIT: u32 = 0x11_0000;

/// The value of a hexadecimal digit.
fn digit_value(c: char) -> Option<u32>
    ensures value { result ≡ spec.hex_value c }
    ensures small { IfSome result (λ v. v < 16) }
{
    match c {
        '0'..='9' => Some(c as u32 - '0' as u32),
        'A'..='F' => Some(c as u32 - 'A' as u32 + 10),
        'a'..='f' => Some(c as u32 - 'a' as u32 + 10),
        _ => None,
    }
}

/// The hexadecimal digit at the front of a text, and what follows it.
fn hex_digit(text: &str) -> Option<(u32, &str)>
    ensures value { option_map (λ x. (x.0, chars x.1.now)) result ≡ spec.hex (chars text.now) }
    ensures small { IfSome result (λ x. x.0 < 16) }
    ensures rest { IfSome result (λ x. IsUtf8 x.1.now × (length x.1.now < length text.now)) }
{
    let (c, rest) = pop(text)?;
    Some((digit_value(c)?, rest))
}

/// The value of four hexadecimal digits.
fn four_digits(text: &str) -> Option<(u32, &str)>
    ensures value { option_map (λ x. (x.0, chars x.1.now)) result ≡ spec.four (chars text.now) }
    ensures small { IfSome result (λ x. x.0 < 65536) }
    ensures rest { IfSome result (λ x. IsUtf8 x.1.now × (length x.1.now < length text.now)) }
{
    let (first, text) = hex_digit(text)?;
    let (second, text) = hex_digit(text)?;
    let (third, text) = hex_digit(text)?;
    let (fourth, text) = hex_digit(text)?;
    Some((16 * (16 * (16 * first + second) + third) + fourth, text))
}

/// The value of the hexadecimal digits at the front of a text, at most `LIMIT`, and what follows them.
fn hex_run(text: &str) -> (u32, &str)
    ensures value { result.0 ≡ min (spec.value_after 0 (run is_hex_digit (chars text.now))) 0x11_0000 }
    ensures after { chars result.1.now ≡ after is_hex_digit (chars text.now) }
    ensures rest { IsUtf8 result.1.now × (length result.1.now ≤ length text.now) }
{
    let mut value = 0;
    let mut rest = text;
    while let Some((digit, more)) = hex_digit(rest) {
        value = (16 * value + digit).min(LIMIT);
        rest = more;
    }
    (value, rest)
}

/// The value of the digits between braces, after the first brace.
fn braced(text: &str) -> Option<(u32, &str)>
    ensures value { option_map (λ x. (x.0, chars x.1.now)) result ≡ option_map spec.capped (spec.braced (chars text.now)) }
    ensures rest { IfSome result (λ x. IsUtf8 x.1.now × (length x.1.now ≤ length text.now)) }
{
    hex_digit(text)?;
    let (value, rest) = hex_run(text);
    Some((value, strip(rest, '}')?))
}

/// The code point that the digits after `\\u` stand for, at most `LIMIT`, and what follows them.
pub(crate) fn digits(text: &str) -> Option<(u32, &str)>
    ensures value { option_map (λ x. (x.0, chars x.1.now)) result ≡ option_map spec.capped (spec.digits (chars text.now)) }
    ensures rest { IfSome result (λ x. IsUtf8 x.1.now × (length x.1.now < length text.now)) }
{
    match pop(text)? {
        ('{', inner) => braced(inner),
        _ => four_digits(text),
    }
}
