//! The parts of the raw text of a template, one after the other.

ghost use Rattle.std.specs.Prelude.{◌≡◌, ◌≢◌, ◌<◌, ◌≤◌, zero, true, false, [], ◌∷◌, length, IfSome, IsUtf8, MatchOption};
ghost use Rattle.std.specs.Char.{IsScalar};
ghost use Rattle.std.specs.Str.{chars};
ghost use Rattle.std.specs.Str.Parse.{digits_value};
ghost use Rattle.lex_literal.specs.Escapes.{begins, is_hex};
ghost use Rattle.lex_literal.specs.Templates.{is_brace, line_feeds};
ghost use Rattle.print_spelling.specs.declared.template.part.Part.TheVariants.{Nothing};
ghost use Rattle.print_spelling.specs.Template.Left.{PartWrites, past_nothing};
ghost use Rattle.print_spelling.specs.Template.Templates as spec;

use crate::template::part::Part;
use lex_pieces::characters::pop;

/// The first character of a raw text and what follows it, with LF for each CR LF and each other CR.
pub(crate) fn pop_line(text: &str) -> Option<(char, &str)>
    ensures cut { MatchOption result (line_feeds (chars text.now) ≡ []) (λ x. line_feeds (chars text.now) ≡ x.0 ∷ line_feeds (chars x.1.now)) }
    ensures shorter { IfSome result (λ x. IsUtf8 x.1.now × (length x.1.now < length text.now)) }
{
    let (c, rest) = pop(text)?;
    if c != '\r' {
        return Some((c, rest));
    }
    match pop(rest) {
        Some(('\n', more)) => Some(('\n', more)),
        _ => Some(('\n', rest)),
    }
}

/// Whether a brace comes first.
fn begins_brace(text: &str) -> bool
    ensures { result ≡ begins is_brace (line_feeds (chars text.now)) }
{
    match pop_line(text) {
        Some((c, _)) => c == '{',
        None => false,
    }
}

/// Two hexadecimal digits, the number that they write, and what follows them.
#[derive(Clone, Copy)]
struct TwoDigits<'a> {
    first: u8,
    second: u8,
    value: u32,
    rest: &'a str,
}

/// Two hexadecimal digits at the front.
fn two_digits(text: &str) -> Option<TwoDigits<'_>>
    ensures cut { MatchOption result (spec.begins_digits (line_feeds (chars text.now)) ≡ false)
        (λ x. (line_feeds (chars text.now) ≡ x.first ∷ x.second ∷ line_feeds (chars x.rest.now)) × (is_hex x.first ≡ true) × (is_hex x.second ≡ true)) }
    ensures value { IfSome result (λ x. (x.value ≡ digits_value 16 (x.first ∷ x.second ∷ [])) × (x.value < 256)) }
    ensures ascii { IfSome result (λ x. (x.first < 128) × (x.second < 128)) }
    ensures shorter { IfSome result (λ x. IsUtf8 x.rest.now × (length x.rest.now < length text.now)) }
{
    let (first, more) = pop_line(text)?;
    let (second, rest) = pop_line(more)?;
    let value = first.to_digit(16)? * 16 + second.to_digit(16)?;
    Some(TwoDigits {
        first: first as u8,
        second: second as u8,
        value,
        rest,
    })
}

/// The part of `\x` and two digits.
fn hex_part(digits: TwoDigits<'_>) -> Part
    requires value { digits.value < 256 }
    requires ascii { (digits.first < 128) × (digits.second < 128) }
    ensures value { result ≡ spec.hex_part digits.entry.first digits.entry.second digits.entry.value }
    ensures writes { PartWrites result × (result ≢ Nothing) }
{
    match digits.value {
        0x24 | 0x5C | 0x60 => Part::Digits(digits.first, digits.second),
        0 | 0x20..=0x7E => Part::Code(digits.value),
        value => Part::Hexed(value),
    }
}

/// A part of a raw text, and what follows it.
#[derive(Clone, Copy)]
pub(crate) struct Cut<'a> {
    pub(crate) part: Part,
    pub(crate) rest: &'a str,
}

/// The part behind `\x`.
fn behind_x(text: &str) -> Cut<'_>
    ensures part { result.part ≡ spec.escaped 120 (line_feeds (chars text.now)) }
    ensures rest { spec.parts (spec.escape_more (120 ∷ line_feeds (chars text.now))) (120 ∷ line_feeds (chars text.now))
        ≡ spec.parts zero (line_feeds (chars result.rest.now)) }
    ensures writes { PartWrites result.part }
    ensures within { IsUtf8 result.rest.now × (length result.rest.now ≤ length text.now) }
{
    match two_digits(text) {
        Some(digits) => Cut {
            part: hex_part(digits),
            rest: digits.rest,
        },
        None => Cut {
            part: Part::Pair(b'x'),
            rest: text,
        },
    }
}

/// The part behind a backslash and this character.
fn escaped(c: char, text: &str) -> Part
    requires { c ≢ 120 }
    ensures part { result ≡ spec.escaped c (line_feeds (chars text.now)) }
    ensures writes { PartWrites result }
{
    match c {
        'n' => Part::Code(10),
        't' => Part::Code(9),
        '0' => Part::Code(0),
        '\u{2028}' | '\u{2029}' => Part::Nothing,
        '\n' | '\\' | '`' | 'b' | 'f' | 'r' | 'u' | 'v' => Part::Pair(c as u8),
        '$' if begins_brace(text) => Part::Pair(b'$'),
        _ => Part::Code(c as u32),
    }
}

/// The part behind a backslash.
fn behind_backslash(text: &str) -> Cut<'_>
    ensures part { result.part ≡ spec.behind_backslash (line_feeds (chars text.now)) }
    ensures rest { spec.parts (spec.escape_more (line_feeds (chars text.now))) (line_feeds (chars text.now))
        ≡ spec.parts zero (line_feeds (chars result.rest.now)) }
    ensures writes { PartWrites result.part }
    ensures within { IsUtf8 result.rest.now × (length result.rest.now ≤ length text.now) }
{
    match pop_line(text) {
        Some(('x', rest)) => behind_x(rest),
        Some((c, rest)) => Cut {
            part: escaped(c, rest),
            rest,
        },
        None => Cut {
            part: Part::Last,
            rest: text,
        },
    }
}

/// The first part of a raw text.
pub(crate) fn part_at(text: &str) -> Option<Cut<'_>>
    ensures cut { MatchOption result (line_feeds (chars text.now) ≡ [])
        (λ x. spec.parts zero (line_feeds (chars text.now)) ≡ x.part ∷ spec.parts zero (line_feeds (chars x.rest.now))) }
    ensures writes { IfSome result (λ x. PartWrites x.part) }
    ensures shorter { IfSome result (λ x. IsUtf8 x.rest.now × (length x.rest.now < length text.now)) }
{
    let (c, rest) = pop_line(text)?;
    if c == '\\' {
        return Some(behind_backslash(rest));
    }
    Some(Cut {
        part: Part::Code(c as u32),
        rest,
    })
}

/// The first part of a raw text that writes something.
pub(crate) fn first_part(text: &str) -> Option<Cut<'_>>
    ensures cut { MatchOption result (past_nothing (spec.parts zero (line_feeds (chars text.now))) ≡ [])
        (λ x. past_nothing (spec.parts zero (line_feeds (chars text.now))) ≡ x.part ∷ spec.parts zero (line_feeds (chars x.rest.now))) }
    ensures writes { IfSome result (λ x. PartWrites x.part × (x.part ≢ Nothing)) }
    ensures text { IfSome result (λ x. IsUtf8 x.rest.now) }
{
    let mut rest = text;
    'parts: while let Some(cut) = part_at(rest) {
        if cut.part != Part::Nothing {
            return Some(cut);
        }
        rest = cut.rest;
    }
    None
}
