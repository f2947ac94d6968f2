//! Numbers and big integers.

ghost use Rattle.std.specs.Prelude.{◌≡◌, ◌&&◌, ◌+◌, ◌<◌, ◌≤◌, ◌++◌, ◌∷◌, [], true, length, IfOk, IfSome, IsUtf8, MatchOption, Some, None};
ghost use Rattle.std.specs.Cow.{cow_str_bytes};
ghost use Rattle.std.specs.Option.{option_map};
ghost use Rattle.std.specs.Char.{is_digit};
ghost use Rattle.std.specs.List.{list_all};
ghost use Rattle.std.specs.Str.{IsAscii, chars};
ghost use Rattle.base_token.specs.Numbers.{number_of, prefix_radix, plain, spells_octal, unsigned};
ghost use Rattle.base_token.specs.declared.error.SyntaxError.TheVariants.{Memory};
ghost use Rattle.lex_literal.specs.Escapes.{begins, is_decimal};
ghost use Rattle.lex_literal.specs.Numbers as spec;
ghost use Rattle.lex_literal.specs.NumberSteps.{IsFront, is_whole, big_radix, exponent_follows};

use crate::escape::begins_with_digit;
use crate::number_state::{Front, State, split_number};
use crate::place::before;
use base_token::{Error, NumValue, SyntaxError};
use lex_pieces::CharExt;
use lex_pieces::characters::pop;
use lex_pieces::place::{fault, out_of_memory};
use memchr::memchr;
use std::alloc::{AllocError, Global};
use std::borrow::CowStr;

/// What a numeric literal stands for.
#[derive(Debug, Drop)]
pub enum Numeral<'a> {
    /// A number.
    Number(NumValue),
    /// A big integer: its radix, and its digits as they are spelled, without prefix, separators and
    /// `n`.
    BigInt { radix: u32, digits: CowStr<'a> },
}

/// A numeric literal.
#[derive(Debug, Drop)]
pub struct NumericLiteral<'a> {
    /// What it stands for.
    pub value: Numeral<'a>,
    /// The fault that strict code has with it: an octal number of the old form, or a decimal number
    /// that begins with 0.
    pub legacy: Option<SyntaxError>,
    /// Its own text.
    pub raw: &'a str,
    /// The text behind it.
    pub rest: &'a str,
}

/// Whether a text begins as a number does: with a digit, or with a dot and a digit.
pub fn begins_number(text: &str) -> bool
    ensures { result ≡ spec.is_number_start (chars text.now) }
{
    match pop(text) {
        Some(('.', rest)) => begins_with_digit(rest),
        Some((c, _)) => c.is_digit(10),
        None => false,
    }
}

/// Whether a character may not follow a numeric literal.
fn is_barred(c: char) -> bool
    ensures { result ≡ spec.is_barred c }
{
    c.is_digit(10) || c.is_ident_start() || c == '\\'
}

/// Whether a text begins with what may not follow a numeric literal.
fn bars(rest: &str) -> bool
    ensures { result ≡ begins spec.is_barred (chars rest.now) }
{
    match pop(rest) {
        Some((c, _)) => is_barred(c),
        None => false,
    }
}

/// The fault where digits were to come, from the front of `text`: a separator in their place, or else
/// this.
#[cold]
fn missing_digits(end: u32, text: &str, behind: &str, kind: SyntaxError) -> Error
    requires order { length behind.now ≤ length text.now }
    requires within { length text.now < end }
    ensures { spec.IsFlaw end (spec.missing_digits kind (chars text.now) (chars behind.now)) result }
{
    match pop(behind) {
        Some(('_', rest)) => fault(
            end,
            behind,
            rest,
            SyntaxError::NumericSeparatorIsAllowedOnlyBetweenTwoDigits,
        ),
        _ => fault(end, text, behind, kind),
    }
}

/// The fault of a character that may not follow.
#[cold]
fn barred_next(end: u32, rest: &str) -> Error
    requires { length rest.now < end }
    ensures { spec.IsFlaw end (spec.barred_next (chars rest.now)) result }
{
    match pop(rest) {
        Some(('_', behind)) => fault(
            end,
            rest,
            behind,
            SyntaxError::NumericSeparatorIsAllowedOnlyBetweenTwoDigits,
        ),
        Some((_, behind)) => fault(end, rest, behind, SyntaxError::IdentAfterNum),
        None => fault(end, rest, rest, SyntaxError::IdentAfterNum),
    }
}

/// A text without a sign at its front.
fn past_sign(text: &str) -> &str
    ensures value { chars result.now ≡ unsigned (chars text.now) }
    ensures text { IsUtf8 result.now }
    ensures length { length result.now ≤ length text.now }
{
    match pop(text) {
        Some(('+' | '-', rest)) => rest,
        _ => text,
    }
}

/// Whether this character behind the number makes it a prefix.
fn is_prefix(own: &str, c: char) -> bool
    ensures { result ≡ (spec.is_zero own.now && spec.is_prefix_letter c) }
{
    own == "0" && matches!(c, 'x' | 'X' | 'o' | 'O' | 'b' | 'B')
}

/// Whether this character behind the number begins its exponent.
fn is_exponent(state: State, c: char) -> bool
    ensures { result ≡ (exponent_follows state && spec.is_exponent_mark c) }
{
    state.exponent_follows() && matches!(c, 'e' | 'E')
}

/// The fault behind a number, where what follows it may not.
#[cold]
fn number_fault(end: u32, text: &str, state: State, own: &str, rest: &str) -> Error
    requires parts { chars text.now ≡ own.now ++ chars rest.now }
    requires exponent { exponent_follows state ≡ spec.takes_exponent own.now }
    requires order { length rest.now ≤ length text.now }
    requires within { length text.now < end }
    ensures { spec.IsFlaw end (spec.flaw own.now (chars rest.now)) result }
{
    let Some((c, behind)) = pop(rest) else {
        return barred_next(end, rest);
    };
    if is_prefix(own, c) {
        return missing_digits(end, text, behind, SyntaxError::ExpectedDigit);
    }
    if is_exponent(state, c) {
        let behind = past_sign(behind);
        return missing_digits(end, text, behind, SyntaxError::NumLitTerminatedWithExp);
    }
    barred_next(end, rest)
}

/// Whether these make an octal number of the old form of the 0 before them.
fn spells_octal(digits: &[u8]) -> bool
    ensures { result ≡ spells_octal digits.now }
{
    !digits.is_empty() && all_octal(digits)
}

/// Whether each byte is an octal digit.
fn all_octal(digits: &[u8]) -> bool
    ensures { result ≡ list_all (λ c. is_digit c 8) digits.now }
{
    digits.iter().all(|b| char::from(*b).is_digit(8))
}

/// Whether a decimal digit is the first byte.
fn has_digit_first(bytes: &[u8]) -> bool
    ensures { result ≡ begins is_decimal bytes.now }
{
    matches!(bytes, [b'0'..=b'9', ..])
}

/// The fault that strict code has with a number (ECMA-262, 12.9.3.1).
fn legacy(own: &str) -> Option<SyntaxError>
    requires { spec.is_some (number_of own.now) ≡ true }
    ensures { result ≡ spec.legacy_of_number own.now }
{
    let (first, digits) = own.as_bytes().split_first()?;
    if *first != b'0' {
        return None;
    }
    if spells_octal(digits) {
        return Some(SyntaxError::LegacyOctal);
    }
    if has_digit_first(digits) {
        return Some(SyntaxError::LegacyDecimal);
    }
    None
}

/// The digits of a big integer, behind its prefix.
fn behind_prefix(own: &str) -> &str
    ensures { chars result.now ≡ spec.behind_prefix (prefix_radix (chars own.now)) (chars own.now) }
{
    let Some(('0', rest)) = pop(own) else {
        return own;
    };
    match pop(rest) {
        Some(('x' | 'X' | 'o' | 'O' | 'b' | 'B', digits)) => digits,
        _ => own,
    }
}

/// The bytes but for `_`.
fn plain_bytes(alloc: Global, digits: &[u8]) -> Result<Vec<u8>, AllocError>
    ensures { IfOk result (λ bytes. bytes.items ≡ plain digits.now) }
{
    digits.iter().copied().filter(|b| *b != b'_').collect(alloc)
}

/// Digits without their separators.
fn without_separators(alloc: Global, digits: &str) -> Result<CowStr<'_>, AllocError>
    requires { IsAscii (chars digits.now) }
    ensures { IfOk result (λ text. cow_str_bytes text ≡ plain (chars digits.now)) }
{
    let Some(_separator) = memchr(b'_', digits.as_bytes()) else {
        return Ok(CowStr::Borrowed(digits));
    };
    let bytes = plain_bytes(alloc, digits.as_bytes())?;
    match String::from_utf8(bytes) {
        Ok(made) => Ok(CowStr::Owned(made)),
        Err(_) => unreachable!(),
    }
}

/// What follows the `n` behind a number that it makes a big integer, and the radix of that.
fn big_rest(state: State, rest: &str) -> Option<(u32, &str)>
    ensures big { MatchOption result (begins spec.is_n (chars rest.now) ≡ true → big_radix state ≡ None)
        (λ x. (big_radix state ≡ Some x.0) × (chars rest.now ≡ 110 ∷ chars x.1.now)) }
    ensures rest { IfSome result (λ x. IsUtf8 x.1.now × (length x.1.now < length rest.now)) }
{
    let radix = state.big_radix()?;
    match pop(rest)? {
        ('n', behind) => Some((radix, behind)),
        _ => None,
    }
}

/// The big integer that an `n` behind this front makes; `rest` follows the `n`.
fn read_big<'a>(
    alloc: Global,
    text: &'a str,
    end: u32,
    front: Front<'a>,
    radix: u32,
    rest: &'a str,
) -> Result<NumericLiteral<'a>, Error>
    requires front { IsFront (chars text.now) front.state front.own.now (110 ∷ chars rest.now) }
    requires own { chars front.own.now ≡ front.own.now }
    requires big { big_radix front.state ≡ Some radix }
    requires shorter { length rest.now < length text.now }
    requires within { length text.now < end }
    ensures number { spec.ReadsNumber end (chars text.now) result }
    ensures rest { IfOk result (λ n. IsUtf8 n.raw.now × IsUtf8 n.rest.now × (length n.rest.now < length text.now)) }
{
    if bars(rest) {
        return Err(barred_next(end, rest));
    }
    let Ok(digits) = without_separators(alloc, behind_prefix(front.own)) else {
        return Err(out_of_memory());
    };
    Ok(NumericLiteral {
        value: Numeral::BigInt { radix, digits },
        legacy: None,
        raw: before(text, rest),
        rest,
    })
}

/// The number of this front, which no `n` makes a big integer.
fn read_plain<'a>(
    alloc: Global,
    text: &'a str,
    end: u32,
    front: Front<'a>,
) -> Result<NumericLiteral<'a>, Error>
    requires front { IsFront (chars text.now) front.state front.own.now (chars front.rest.now) }
    requires own { chars front.own.now ≡ front.own.now }
    requires whole { is_whole front.state ≡ true }
    requires no_big { begins spec.is_n (chars front.rest.now) ≡ true → big_radix front.state ≡ None }
    requires shorter { length front.rest.now < length text.now }
    requires within { length text.now < end }
    ensures number { spec.ReadsNumber end (chars text.now) result }
    ensures rest { IfOk result (λ n. IsUtf8 n.raw.now × IsUtf8 n.rest.now × (length n.rest.now < length text.now)) }
{
    let Front { state, own, rest } = front;
    if bars(rest) {
        return Err(number_fault(end, text, state, own, rest));
    }
    let Ok(value) = NumValue::read(alloc, own) else {
        return Err(out_of_memory());
    };
    let Some(value) = value else {
        unreachable!();
    };
    Ok(NumericLiteral {
        value: Numeral::Number(value),
        legacy: legacy(own),
        raw: own,
        rest,
    })
}

/// The numeric literal at the front of a text that begins with a digit, or with a dot and a digit: what
/// it stands for, its own text and what follows it (ECMA-262, 12.9.3 and B.1.1). The text ends at the
/// place `end`. Besides the digits of a number, only those of a big integer with separators are copied.
///
/// # Errors
///
/// A separator that is not between two digits, a prefix or an exponent without digits, or a digit or
/// the front of a name right behind the number; or memory ran out.
pub fn read_number(alloc: Global, text: &str, end: u32) -> Result<NumericLiteral<'_>, Error>
    requires starts { spec.is_number_start (chars text.now) ≡ true }
    requires within { length text.now < end }
    ensures number { spec.ReadsNumber end (chars text.now) result }
    ensures rest { IfOk result (λ n. IsUtf8 n.raw.now × IsUtf8 n.rest.now × (length n.rest.now < length text.now)) }
{
    let front = split_number(text);
    match big_rest(front.state, front.rest) {
        Some((radix, rest)) => read_big(alloc, text, end, front, radix, rest),
        None => read_plain(alloc, text, end, front),
    }
}
