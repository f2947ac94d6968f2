//! Escapes of strings and templates, as they stand behind their backslash.

ghost use Rattle.std.specs.Prelude.{◌≡◌, ◌+◌, ◌*◌, ◌++◌, ◌<◌, ◌≤◌, true, length, IfOk, IfSome, IsUtf8, MatchResult, OnOk};
ghost use Rattle.std.specs.Option.{option_map};
ghost use Rattle.std.specs.Str.{chars};
ghost use Rattle.lex_pieces.specs.Runs.{Each};
ghost use Rattle.lex_literal.specs.Escapes as spec;
ghost use Rattle.lex_literal.specs.Reading as reading;
ghost use Rattle.lex_literal.specs.Units.{escape_units, CodeFits};

use crate::runs::split_hex;
use base_token::SyntaxError;
use base_token::utf16::push_code;
use lex_pieces::CharExt;
use lex_pieces::characters::pop;
use std::alloc::AllocError;

/// What an escape stands for.
#[derive(Clone, Copy, Debug, PartialEq, Eq)]
pub enum Escape {
    /// No character: the escape is the end of a line.
    Continuation,
    /// A code point, which may be a surrogate.
    Code(u32),
    /// A code point in the old octal form, or by `\8` or `\9`: no strict code and no template has it.
    Legacy(u32),
}

impl Escape {
    ghost use Rattle.std.specs.Prelude.{◌≡◌};
    ghost use Rattle.lex_literal.specs.Units.{is_legacy};

    /// Whether strict code and templates bar it.
    pub fn is_legacy(self) -> bool
        ensures { result ≡ is_legacy self }
    {
        matches!(self, Escape::Legacy(_))
    }
}

/// Why no escape stands behind a backslash.
#[derive(Clone, Copy)]
pub struct BadEscape<'a> {
    /// The kind of the fault.
    pub kind: SyntaxError,
    /// What follows the characters that the fault is about.
    pub rest: &'a str,
}

/// What an escape stands for, and the text behind it, if one stands there.
type Found<'a> = Option<(Escape, &'a str)>;

/// The greatest code point.
const GREATEST_CODE: u32 = 0x10_FFFF;

/// A hexadecimal digit behind those that write `before`: what all of them write, and the text behind.
#[tactic(auto, unfolding(crate::specs::Reading::next_hex))]
fn next_hex(before: u32, text: &str) -> Option<(u32, &str)>
    requires { before < 65536 }
    ensures value { option_map (λ x. (x.0, chars x.1.now)) result ≡ reading.next_hex before (chars text.now) }
    ensures rest { IfSome result (λ x. IsUtf8 x.1.now × (length x.1.now ≤ length text.now)) }
    ensures bound { IfSome result (λ x. x.0 < before * 16 + 16) }
{
    let (c, rest) = pop(text)?;
    let digit = c.to_digit(16)?;
    Some((before * 16 + digit, rest))
}

/// The escape behind `x`.
#[tactic(auto, unfolding(crate::specs::Reading::hex_escape))]
fn hex_escape(text: &str) -> Found<'_>
    ensures value { option_map (λ x. (x.0, chars x.1.now)) result ≡ reading.hex_escape (chars text.now) }
    ensures rest { IfSome result (λ x. IsUtf8 x.1.now × (length x.1.now ≤ length text.now)) }
    ensures fits { IfSome result (λ x. CodeFits x.0) }
{
    let (a, rest) = next_hex(0, text)?;
    let (b, rest) = next_hex(a, rest)?;
    Some((Escape::Code(b), rest))
}

/// The escape behind `u`, where no brace follows.
#[tactic(auto, unfolding(crate::specs::Reading::four_hex))]
fn four_hex(text: &str) -> Found<'_>
    ensures value { option_map (λ x. (x.0, chars x.1.now)) result ≡ reading.four_hex (chars text.now) }
    ensures rest { IfSome result (λ x. IsUtf8 x.1.now × (length x.1.now ≤ length text.now)) }
    ensures fits { IfSome result (λ x. CodeFits x.0) }
{
    let (a, rest) = next_hex(0, text)?;
    let (b, rest) = next_hex(a, rest)?;
    let (c, rest) = next_hex(b, rest)?;
    let (d, rest) = next_hex(c, rest)?;
    Some((Escape::Code(d), rest))
}

/// The code point that hexadecimal digits write, if they do.
fn code_point(digits: &str) -> Option<u32>
    requires { Each spec.is_hex (chars digits.now) }
    ensures value { result ≡ reading.code_of (chars digits.now) }
    ensures bound { IfSome result (λ code. code < 0x110000) }
{
    match u32::from_str_radix(digits, 16) {
        Ok(code) if code <= GREATEST_CODE => Some(code),
        _ => None,
    }
}

/// The escape behind `u{`.
#[tactic(auto, unfolding(crate::specs::Reading::braced))]
fn braced(text: &str) -> Found<'_>
    ensures value { option_map (λ x. (x.0, chars x.1.now)) result ≡ reading.braced (chars text.now) }
    ensures rest { IfSome result (λ x. IsUtf8 x.1.now × (length x.1.now ≤ length text.now)) }
    ensures fits { IfSome result (λ x. CodeFits x.0) }
{
    let (digits, more) = split_hex(text);
    let code = code_point(digits)?;
    match pop(more)? {
        ('}', rest) => Some((Escape::Code(code), rest)),
        _ => None,
    }
}

/// The escape behind `u`.
#[tactic(auto, unfolding(crate::specs::Reading::unicode_escape))]
fn unicode_escape(text: &str) -> Found<'_>
    ensures value { option_map (λ x. (x.0, chars x.1.now)) result ≡ reading.unicode_escape (chars text.now) }
    ensures rest { IfSome result (λ x. IsUtf8 x.1.now × (length x.1.now ≤ length text.now)) }
    ensures fits { IfSome result (λ x. CodeFits x.0) }
{
    match pop(text)? {
        ('{', rest) => braced(rest),
        _ => four_hex(text),
    }
}

/// One more octal digit behind those that write `before`, if it comes.
#[tactic(auto, unfolding(crate::specs::Reading::next_octal))]
fn next_octal(before: u32, text: &str) -> (u32, &str)
    requires { before < 64 }
    ensures value { (result.0, chars result.1.now) ≡ reading.next_octal before (chars text.now) }
    ensures rest { IsUtf8 result.1.now × (length result.1.now ≤ length text.now) }
    ensures bound { result.0 < before * 8 + 8 }
{
    if let Some((c, rest)) = pop(text)
        && let Some(digit) = c.to_digit(8)
    {
        return (before * 8 + digit, rest);
    }
    (before, text)
}

/// The digits of an octal escape, behind the first of them.
#[tactic(auto, unfolding(crate::specs::Reading::octal_digits))]
fn octal_digits(first: char, text: &str) -> (u32, &str)
    requires { spec.is_octal first ≡ true }
    ensures value { (result.0, chars result.1.now) ≡ reading.octal_digits first (chars text.now) }
    ensures rest { IsUtf8 result.1.now × (length result.1.now ≤ length text.now) }
    ensures bound { result.0 < 512 }
{
    let (two, rest) = next_octal(first as u32 - '0' as u32, text);
    if first <= '3' {
        next_octal(two, rest)
    } else {
        (two, rest)
    }
}

/// Whether a decimal digit comes first.
pub(crate) fn begins_with_digit(text: &str) -> bool
    ensures { result ≡ spec.begins spec.is_decimal (chars text.now) }
{
    match pop(text) {
        Some((c, _)) => c.is_digit(10),
        None => false,
    }
}

/// The escape behind its first octal digit.
#[tactic(auto, unfolding(crate::specs::Reading::octal_escape))]
fn octal_escape(first: char, text: &str) -> (Escape, &str)
    requires { spec.is_octal first ≡ true }
    ensures value { (result.0, chars result.1.now) ≡ reading.octal_escape first (chars text.now) }
    ensures rest { IsUtf8 result.1.now × (length result.1.now ≤ length text.now) }
    ensures fits { CodeFits result.0 }
{
    if first == '0' && !begins_with_digit(text) {
        return (Escape::Code(0), text);
    }
    let (code, rest) = octal_digits(first, text);
    (Escape::Legacy(code), rest)
}

/// The text without a line feed at its front.
pub(crate) fn past_line_feed(text: &str) -> &str
    ensures value { chars result.now ≡ reading.past_line_feed (chars text.now) }
    ensures text { IsUtf8 result.now }
    ensures length { length result.now ≤ length text.now }
{
    match pop(text) {
        Some(('\n', rest)) => rest,
        _ => text,
    }
}

/// The character of an escape that is one character.
fn single(c: char) -> char
    ensures { result ≡ spec.single c }
{
    match c {
        'b' => '\u{8}',
        't' => '\t',
        'n' => '\n',
        'v' => '\u{b}',
        'f' => '\u{c}',
        'r' => '\r',
        _ => c,
    }
}

/// The escape behind its backslash.
#[tactic(auto, unfolding(crate::specs::Reading::escape_by))]
fn escape_at(text: &str) -> Found<'_>
    ensures value { option_map (λ x. (x.0, chars x.1.now)) result ≡ reading.escape_at (chars text.now) }
    ensures rest { IfSome result (λ x. IsUtf8 x.1.now × (length x.1.now ≤ length text.now)) }
    ensures fits { IfSome result (λ x. CodeFits x.0) }
{
    let (c, rest) = pop(text)?;
    match c {
        'x' => hex_escape(rest),
        'u' => unicode_escape(rest),
        '0'..='7' => Some(octal_escape(c, rest)),
        '8' | '9' => Some((Escape::Legacy(c as u32), rest)),
        '\r' => Some((Escape::Continuation, past_line_feed(rest))),
        _ if c.is_line_terminator() => Some((Escape::Continuation, rest)),
        _ => Some((Escape::Code(single(c) as u32), rest)),
    }
}

/// What follows a hexadecimal digit, where one comes first.
fn past_hex(text: &str) -> &str
    ensures value { chars result.now ≡ spec.past_hex (chars text.now) }
    ensures text { IsUtf8 result.now }
    ensures length { length result.now ≤ length text.now }
{
    match pop(text) {
        Some((c, rest)) if c.is_digit(16) => rest,
        _ => text,
    }
}

/// The fault behind `u{`.
fn bad_braced(text: &str) -> BadEscape<'_>
    ensures value { (result.kind, chars result.rest.now) ≡ spec.bad_braced (chars text.now) }
    ensures rest { IsUtf8 result.rest.now × (length result.rest.now ≤ length text.now) }
{
    let (digits, rest) = split_hex(text);
    let kind = match code_point(digits) {
        Some(_) => SyntaxError::InvalidUnicodeEscape,
        None => SyntaxError::BadCharacterEscapeSequence,
    };
    BadEscape { kind, rest }
}

/// The fault behind `u`.
fn bad_unicode(text: &str) -> BadEscape<'_>
    ensures value { (result.kind, chars result.rest.now) ≡ spec.bad_unicode (chars text.now) }
    ensures rest { IsUtf8 result.rest.now × (length result.rest.now ≤ length text.now) }
{
    match pop(text) {
        Some(('{', rest)) => bad_braced(rest),
        _ => BadEscape {
            kind: SyntaxError::BadCharacterEscapeSequence,
            rest: past_hex(past_hex(past_hex(past_hex(text)))),
        },
    }
}

/// The fault behind a backslash where no escape stands.
#[cold]
fn bad_escape(text: &str) -> BadEscape<'_>
    ensures value { (result.kind, chars result.rest.now) ≡ spec.bad_escape (chars text.now) }
    ensures rest { IsUtf8 result.rest.now × (length result.rest.now ≤ length text.now) }
{
    match pop(text) {
        None => BadEscape {
            kind: SyntaxError::InvalidStrEscape,
            rest: text,
        },
        Some(('x', rest)) => BadEscape {
            kind: SyntaxError::BadCharacterEscapeSequence,
            rest: past_hex(past_hex(rest)),
        },
        Some((_, rest)) => bad_unicode(rest),
    }
}

/// The escape behind its backslash: what it stands for, and the text behind it (ECMA-262, 12.9.4 and
/// B.1.2). The legacy forms are read too.
///
/// # Errors
///
/// No escape stands there.
pub fn read_escape(text: &str) -> Result<(Escape, &str), BadEscape<'_>>
    ensures escape { MatchResult result (λ x. spec.IsEscape x.0 (chars text.now) (chars x.1.now))
        (λ bad. spec.NoEscape (chars text.now) × ((bad.kind, chars bad.rest.now) ≡ spec.bad_escape (chars text.now))) }
    ensures rest { MatchResult result (λ x. IsUtf8 x.1.now × (length x.1.now ≤ length text.now))
        (λ bad. IsUtf8 bad.rest.now × (length bad.rest.now ≤ length text.now)) }
    ensures fits { IfOk result (λ x. CodeFits x.0) }
{
    match escape_at(text) {
        Some((escape, rest)) => Ok((escape, rest)),
        None => Err(bad_escape(text)),
    }
}

/// Adds the code units that an escape stands for.
pub(crate) fn push_escape(units: &mut Vec<u16>, escape: Escape) -> Result<(), AllocError>
    requires { CodeFits escape }
    ensures { OnOk result (units.new.items ≡ units.old.items ++ escape_units escape) }
{
    match escape {
        Escape::Continuation => Ok(()),
        Escape::Code(code) | Escape::Legacy(code) => push_code(units, code),
    }
}
