//! Names at the front of a text.
ghost use Rattle.std.specs.Prelude.{ℕ, true, ◌≡◌, ◌<◌, ◌≤◌, ◌⊎◌, ◌∷◌, ◌++◌, length, IfErr, IfOk, IfSome, IsUtf8, MatchOption, MatchResult, OnOk, string_bytes};
ghost use Rattle.std.specs.Str.{chars, encode_utf8_all};
ghost use Rattle.base_token.specs.declared.error.SyntaxError.TheVariants.{Memory};
ghost use Rattle.lex_pieces.specs.Characters as spec;
ghost use Rattle.lex_pieces.specs.Names.{HasEscape, IsBad, IsBareFront, IsFaultWithin, IsName, IsNameChar, IsNameFault, IsUnescaped, NoName, is_name_char, is_nil, is_opening};
ghost use Rattle.lex_pieces.specs.NamesRead.{IsNamed};
ghost use Rattle.lex_pieces.specs.Words.{name_bytes};
ghost use Rattle.lex_pieces.specs.Runs.{Ends};

use crate::bytes::{ByteClass, byte_class};
use crate::characters::{CharExt, first_byte, past_ascii, pop};
use crate::escapes::digits;
use crate::place::{fault, out_of_memory};
use crate::runs::{after_name_part, split_name_part, strip};
use base_token::{Error, SyntaxError};
use std::alloc::Global;

/// A name without its escapes.
#[derive(Debug, Drop)]
pub enum Name<'a> {
    /// One that is spelled as it is.
    Bare(&'a str),
    /// One that is spelled with an escape.
    Escaped(String),
}

fn is_allowed(first: bool, c: char) -> bool
    ensures { result ≡ is_name_char first c }
{
    if first {
        c.is_ident_start()
    } else {
        c.is_ident_part()
    }
}

/// The character that the escape at the front of a text stands for, and what follows it. `rest`
/// follows the backslash, and the text runs to the place `end`.
fn escape<'a>(end: u32, first: bool, text: &str, rest: &'a str) -> Result<(char, &'a str), Error>
    requires within { length text.now < end }
    requires order { length rest.now ≤ length text.now }
    requires cut { chars text.now ≡ 92 ∷ chars rest.now }
    ensures escape { MatchResult result
        (λ x. IsNameChar first (chars text.now) x.0 (chars x.1.now))
        (λ e. IsBad end first (chars text.now) e) }
    ensures rest { IfOk result (λ x. IsUtf8 x.1.now × (length x.1.now ≤ length rest.now)) }
{
    let Some(inner) = strip(rest, 'u') else {
        return Err(fault(end, text, rest, SyntaxError::ExpectedUnicodeEscape));
    };
    let Some((code, after)) = digits(inner) else {
        return Err(fault(end, text, inner, SyntaxError::InvalidUnicodeEscape));
    };
    let Some(c) = char::from_u32(code) else {
        return Err(fault(end, text, after, SyntaxError::InvalidIdentChar));
    };
    if !is_allowed(first, c) {
        return Err(fault(end, text, after, SyntaxError::InvalidIdentChar));
    }
    Ok((c, after))
}

/// Writes a character and a text.
fn put(made: &mut String, c: char, more: &str) -> Result<(), Error>
    ensures put { OnOk result (string_bytes made.new ≡ string_bytes made.old ++ encode_utf8_all (c ∷ chars more.now)) }
    ensures memory { IfErr result (λ e. e.kind ≡ Memory) }
{
    match made.push(c) {
        Ok(()) => {}
        Err(_) => return Err(out_of_memory()),
    }
    match made.push_str(more) {
        Ok(()) => Ok(()),
        Err(_) => Err(out_of_memory()),
    }
}

/// A copy of a text.
fn copied(alloc: Global, text: &str) -> Result<String, Error>
    ensures copy { IfOk result (λ s. string_bytes s ≡ text.now) }
    ensures memory { IfErr result (λ e. e.kind ≡ Memory) }
{
    match String::from_str(alloc, text) {
        Ok(copy) => Ok(copy),
        Err(_) => Err(out_of_memory()),
    }
}

/// The front of a name up to its first escape, and what follows it. `after` follows its first
/// character.
#[inline(always)]
fn split_front<'a>(text: &'a str, after: &str) -> (&'a str, &'a str)
    requires start { (c : ℕ) × (spec.is_name_start c ≡ true) × (chars text.now ≡ c ∷ chars after.now) }
    requires order { length after.now ≤ length text.now }
    ensures front { IsBareFront (chars text.now) (chars result.0.now) (chars result.1.now) }
    ensures rest { IsUtf8 result.0.now × IsUtf8 result.1.now × (length result.1.now ≤ length text.now) }
{
    let rest = after_name_part(after);
    text.split_at(text.len() - rest.len())
}

/// The front of a name that begins with a character past ASCII.
#[inline(never)]
fn wide_front<'a>(text: &'a str) -> Option<(&'a str, &'a str)>
    ensures front { MatchOption result (Ends spec.is_name_start (chars text.now)) (λ x. IsBareFront (chars text.now) (chars x.0.now) (chars x.1.now)) }
    ensures rest { IfSome result (λ x. IsUtf8 x.0.now × IsUtf8 x.1.now × (length x.1.now ≤ length text.now)) }
{
    let (c, after) = pop(text)?;
    if c.is_ident_start() {
        Some(split_front(text, after))
    } else {
        None
    }
}

/// The front of a name up to its first escape, and what follows it, or nothing where no name begins.
/// The class of the first byte tells, except past ASCII.
#[inline(always)]
fn bare<'a>(text: &'a str) -> Option<(&'a str, &'a str)>
    ensures front { MatchOption result (Ends is_opening (chars text.now)) (λ x. IsBareFront (chars text.now) (chars x.0.now) (chars x.1.now)) }
    ensures rest { IfSome result (λ x. IsUtf8 x.0.now × IsUtf8 x.1.now × (length x.1.now ≤ length text.now)) }
{
    let byte = first_byte(text)?;
    match byte_class(byte) {
        ByteClass::NameStart => Some(split_front(text, past_ascii(text))),
        ByteClass::NonAscii => wide_front(text),
        ByteClass::Backslash => Some(("", text)),
        _ => None,
    }
}

/// The text of a name with escapes after its front `own`, and what follows the name. The rest begins
/// after that front and runs to the place `end`.
fn unescape<'a>(
    alloc: Global,
    end: u32,
    own: &str,
    rest: &'a str,
) -> Result<(String, &'a str), Error>
    requires within { length rest.now < end }
    requires ends { Ends spec.is_name_part (chars rest.now) }
    ensures name { MatchResult result
        (λ x. IsUnescaped (chars own.now) (chars rest.now) (string_bytes x.0) (chars x.1.now))
        (λ e. (e.kind ≡ Memory) ⊎ IsFaultWithin end (is_nil (chars own.now)) (chars rest.now) e) }
    ensures rest { IfOk result (λ x. IsUtf8 x.1.now × (length x.1.now ≤ length rest.now)) }
{
    let mut made = copied(alloc, own)?;
    let mut first = own.is_empty();
    let mut left = rest;
    while let Some(more) = strip(left, '\\') {
        let (c, after) = escape(end, first, left, more)?;
        let (bare, next) = split_name_part(after);
        put(&mut made, c, bare)?;
        first = false;
        left = next;
    }
    Ok((made, left))
}

/// The name at the front of a text that is spelled without an escape (ECMA-262, 12.7), and what follows it, or nothing
/// where no name begins there or an escape stands in it.
#[inline(always)]
pub fn bare_name<'a>(text: &'a str) -> Option<(&'a str, &'a str)>
    ensures name { MatchOption result (Ends is_opening (chars text.now) ⊎ HasEscape (chars text.now))
        (λ x. IsName (chars text.now) (chars x.0.now) (chars x.1.now) × (chars text.now ≡ chars x.0.now ++ chars x.1.now)) }
    ensures rest { IfSome result (λ x. IsUtf8 x.0.now × IsUtf8 x.1.now × (length x.1.now ≤ length text.now)) }
{
    let Some((own, rest)) = bare(text) else {
        return None;
    };
    match strip(rest, '\\') {
        Some(_escape) => None,
        None => Some((own, rest)),
    }
}

/// The name at the front of a text (ECMA-262, 12.7), and what follows it, or nothing where none begins
/// there. The text runs to the place `end`. A name with no escape is borrowed. A backslash that begins
/// no escape, an escape without digits and one of a character that no name has there are faults; where
/// memory runs out the fault is `Memory`.
pub fn identifier_name<'a>(
    alloc: Global,
    end: u32,
    text: &'a str,
) -> Result<Option<(Name<'a>, &'a str)>, Error>
    requires { length text.now < end }
    ensures name { MatchResult result
        (λ o. MatchOption o (Ends is_opening (chars text.now)) (λ x. IsNamed (chars text.now) x.0 (chars x.1.now)))
        (λ e. (e.kind ≡ Memory) ⊎ (NoName (chars text.now) × IsNameFault end (chars text.now) e)) }
    ensures text { IfOk result (λ o. IfSome o (λ x. IsUtf8 (name_bytes x.0))) }
    ensures rest { IfOk result (λ o. IfSome o (λ x. IsUtf8 x.1.now × (length x.1.now ≤ length text.now))) }
{
    let Some((own, rest)) = bare(text) else {
        return Ok(None);
    };
    let Some(_escape) = strip(rest, '\\') else {
        return Ok(Some((Name::Bare(own), rest)));
    };
    let (made, left) = unescape(alloc, end, own, rest)?;
    Ok(Some((Name::Escaped(made), left)))
}
