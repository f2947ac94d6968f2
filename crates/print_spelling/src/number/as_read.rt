//! Numbers as they were read, in parts.

ghost use Rattle.std.specs.Prelude.{◌≡◌, ◌<◌, ◌++◌, true, false, [], length, IfSome, IsUtf8, MatchOption, option_map};
ghost use Rattle.std.specs.List.{prefix_len};
ghost use Rattle.std.specs.Str.Parse.{digits_value};
ghost use Rattle.lex_literal.specs.Escapes.{begins};
ghost use Rattle.lex_literal.specs.Standing.{takes_point};
ghost use Rattle.base_number.specs.Numbers as numbers;
ghost use Rattle.print_spelling.specs.Number.Numbers as spec;
ghost use Rattle.print_spelling.specs.Number.NumberTexts.{joined, left_bytes, is_separator, is_digit_byte};

use crate::Style;
use crate::number::text::{NumberText, big_int, minified, small_power};
use base_number::NumValue;
use lex_pieces::characters::pop;
use std::marker::Model;

/// A number when formatting, part by part. It takes no memory. A contract sees the bytes to come.
#[derive(Drop)]
pub struct FormattedText<'a> {
    plain: bool,
    text: NumberText<'a>,
}

impl<'a> Model for FormattedText<'a> {
    ghost use Rattle.std.specs.Prelude.{ℕ, List, ◌++◌};
    ghost use Rattle.print_spelling.specs.Number.NumberTexts.{left_bytes};

    ghost Value = { List ℕ };

    ghost view = { λ t. left_bytes t.plain t.text.first.now (t.text.second.now ++ t.text.third.now) };
}

/// Whether a spelling has a prefix that the editions up to ES5 have not.
fn has_new_prefix(raw: &str) -> bool
    ensures { result ≡ spec.is_new_prefix (numbers.prefix_radix raw.now) }
{
    match raw.as_bytes() {
        [first, letter, ..] => *first == b'0' && matches!(*letter, b'b' | b'B' | b'o' | b'O'),
        _ => false,
    }
}

/// Fewer than 20 zeros.
fn zeros(count: usize) -> &'static str
    requires { count < 20 }
    ensures { result.now ≡ spec.zeros count [] }
{
    let (front, _) = "00000000000000000000".split_at(count);
    front
}

/// Digits and as many zeros as their power of ten.
fn whole_digits<'a>(digits: &'a str, power: &'a str) -> Option<NumberText<'a>>
    requires { power.now ≡ numbers.numeral (digits_value 10 power.now) }
    ensures { option_map joined result ≡ spec.whole_digits digits.now (digits_value 10 power.now) }
{
    if digits.is_empty() {
        return Some(NumberText {
            first: "0",
            second: "",
            third: "",
        });
    }
    match small_power(power) {
        Some(count) if count < 20 => Some(NumberText {
            first: digits,
            second: zeros(count),
            third: "",
        }),
        _ => None,
    }
}

/// A number by decimal digits alone, where it has them.
fn whole(value: &NumValue) -> Option<NumberText<'_>>
    ensures text { option_map joined result ≡ spec.whole_text value.now }
    ensures point { IfSome result (λ t. takes_point (joined t) ≡ true) }
{
    let digits = value.digits();
    if value.radix() != 10 || value.has_negative_exponent() {
        return None;
    }
    whole_digits(digits, value.exponent_digits())
}

/// A number by decimal digits alone, where the edition has not its prefix.
pub(crate) fn whole_in_edition<'a>(
    style: Style,
    value: &'a NumValue,
    raw: &str,
) -> Option<NumberText<'a>>
    ensures text { option_map joined result ≡ spec.whole_in_edition style raw.now (spec.whole_text value.now) }
    ensures point { IfSome result (λ t. takes_point (joined t) ≡ true) }
{
    if style.is_up_to_es5() && has_new_prefix(raw) {
        whole(value)
    } else {
        None
    }
}

/// A spelling as it was read, without `_` below ES2021.
fn as_read(style: Style, raw: &str) -> FormattedText<'_>
    ensures { result ≡ spec.separated style raw.now }
{
    FormattedText {
        plain: style.is_below_es2021(),
        text: NumberText {
            first: raw,
            second: "",
            third: "",
        },
    }
}

/// A number as it was read, as the edition has it.
fn in_edition<'a>(style: Style, value: &'a NumValue, raw: &'a str) -> FormattedText<'a>
    ensures { result ≡ spec.in_edition style raw.now (spec.whole_text value.now) }
{
    match whole_in_edition(style, value, raw) {
        Some(text) => FormattedText { plain: false, text },
        None => as_read(style, raw),
    }
}

/// A number when formatting: as it was read, if it was, without `_` below ES2021; up to ES5 one with `0b` or
/// `0o` by its decimal digits, where it fits 64 bits; else as short as it goes (ECMA-262, 12.9.3).
pub fn formatted<'a>(style: Style, value: &'a NumValue, raw: Option<&'a str>) -> FormattedText<'a>
    ensures { result ≡ spec.formatted style value.now (option_map (λ t. t.now) raw.entry) }
{
    match raw {
        Some(raw) => in_edition(style, value, raw),
        None => FormattedText {
            plain: false,
            text: minified(value),
        },
    }
}

/// A big integer when formatting: as it was read, if it was, without `_` below ES2021; else by its radix and
/// its digits (ECMA-262, 12.9.3).
pub fn formatted_big_int<'a>(
    style: Style,
    radix: u32,
    digits: &'a str,
    raw: Option<&'a str>,
) -> FormattedText<'a>
    ensures { result ≡ spec.formatted_big style radix digits.now (option_map (λ t. t.now) raw.entry) }
{
    match raw {
        Some(raw) => as_read(style, raw),
        None => FormattedText {
            plain: false,
            text: big_int(radix, digits),
        },
    }
}

/// What follows the separators at the front.
pub(crate) fn past_separators(text: &str) -> &str
    ensures same { numbers.plain result.now ≡ numbers.plain text.now }
    ensures stop { begins is_separator result.now ≡ false }
    ensures text { IsUtf8 result.now }
{
    let mut rest = text;
    'separators: while let Some((c, more)) = pop(rest) {
        if c != '_' {
            break;
        }
        rest = more;
    }
    rest
}

/// How many bytes stand before the first separator.
fn run_len(bytes: &[u8]) -> usize
    ensures { result ≡ prefix_len is_digit_byte bytes.now }
{
    let digit = |b: &&u8| **b != b'_';
    bytes.iter().take_while(digit).count()
}

/// The next bytes without separators, and what follows them.
fn next_run(text: &str) -> Option<(&str, &str)>
    ensures { MatchOption result (numbers.plain text.now ≡ []) (λ x. (numbers.plain text.now ≡ x.0.now ++ numbers.plain x.1.now) × (0 < length x.0.now)) }
{
    let rest = past_separators(text);
    if rest.is_empty() {
        return None;
    }
    Some(rest.split_at(run_len(rest.as_bytes())))
}

/// The next part of three, which is not empty, and what is left of them.
fn next_part(text: NumberText<'_>) -> Option<(&str, NumberText<'_>)>
    ensures { MatchOption result (joined text.entry ≡ []) (λ x. (joined text.entry ≡ x.0.now ++ joined x.1) × (0 < length x.0.now) × (x.1.first.now ≡ [])) }
{
    let NumberText {
        first,
        second,
        third,
    } = text;
    if !first.is_empty() {
        return Some((
            first,
            NumberText {
                first: "",
                second,
                third,
            },
        ));
    }
    if !second.is_empty() {
        return Some((
            second,
            NumberText {
                first: "",
                second: "",
                third,
            },
        ));
    }
    if third.is_empty() {
        return None;
    }
    Some((
        third,
        NumberText {
            first: "",
            second: "",
            third: "",
        },
    ))
}

/// The next part of a number, and what is left of it.
fn next_step(plain: bool, text: NumberText<'_>) -> Option<(&str, NumberText<'_>)>
    ensures { MatchOption result (left_bytes plain text.entry.first.now (text.entry.second.now ++ text.entry.third.now) ≡ [])
        (λ x. (left_bytes plain text.entry.first.now (text.entry.second.now ++ text.entry.third.now)
        ≡ x.0.now ++ left_bytes plain x.1.first.now (x.1.second.now ++ x.1.third.now)) × (0 < length x.0.now)) }
{
    if !plain {
        return next_part(text);
    }
    match next_run(text.first) {
        Some((run, rest)) => Some((
            run,
            NumberText {
                first: rest,
                ..text
            },
        )),
        None => next_part(NumberText { first: "", ..text }),
    }
}

impl<'a> FormattedText<'a> {
    /// The next part of it, which is not empty, and none where all is written.
    pub fn next_piece(&mut self) -> Option<&'a str>
        ensures { MatchOption result ((self.old ≡ []) × (self.new ≡ [])) (λ piece. (self.old ≡ piece.now ++ self.new) × (0 < length piece.now)) }
    {
        match next_step(self.plain, self.text) {
            Some((piece, rest)) => {
                self.text = rest;
                Some(piece)
            }
            None => None,
        }
    }
}
