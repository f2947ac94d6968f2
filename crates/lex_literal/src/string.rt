//! String literals.

ghost use Rattle.std.specs.Prelude.{◌≡◌, ◌<◌, ◌∷◌, true, length, IfOk, IsUtf8};
ghost use Rattle.std.specs.Str.{chars};
ghost use Rattle.lex_literal.specs.Escapes.{begins};
ghost use Rattle.lex_literal.specs.Strings.{is_quote, ReadsString};

use crate::escape::{push_escape, read_escape};
use crate::place::before;
use crate::runs::split_plain;
use base_token::utf16::push_text;
use base_token::{Error, SyntaxError, Units};
use lex_pieces::characters::pop;
use lex_pieces::place::{fault, out_of_memory};
use std::alloc::Global;

/// A string literal.
#[derive(Debug, Drop)]
pub struct StringLiteral<'a> {
    /// What it stands for.
    pub value: Units<'a>,
    /// Whether it has an octal escape, or `\8` or `\9`, which strict code bars.
    pub legacy: bool,
    /// Its own text, with its quotes.
    pub raw: &'a str,
    /// The text behind it.
    pub rest: &'a str,
}

/// The string literal at the front of a text that begins with a quote: what it stands for, its own
/// text and what follows it (ECMA-262, 12.9.4 and B.1.2). The text ends at the place `end`. Nothing is
/// allocated where the string has no escape.
///
/// # Errors
///
/// The string has no end, or a bad escape; or memory ran out.
pub fn read_string(alloc: Global, text: &str, end: u32) -> Result<StringLiteral<'_>, Error>
    requires quote { begins is_quote (chars text.now) ≡ true }
    requires within { length text.now < end }
    ensures string { ReadsString end (chars text.now) result }
    ensures rest { IfOk result (λ s. IsUtf8 s.raw.now × IsUtf8 s.rest.now × (length s.rest.now < length text.now)) }
{
    let Some((quote, inner)) = pop(text) else {
        unreachable!();
    };
    let (own, more) = split_plain(inner, quote);
    match pop(more) {
        Some((c, rest)) if c == quote => Ok(StringLiteral {
            value: Units::from(own),
            legacy: false,
            raw: before(text, rest),
            rest,
        }),
        _ => read_escaped(alloc, text, quote, inner, end),
    }
}

/// The string literal at the front of a text, behind whose quote comes `inner`.
fn read_escaped<'a>(
    alloc: Global,
    text: &'a str,
    quote: char,
    inner: &'a str,
    end: u32,
) -> Result<StringLiteral<'a>, Error>
    requires quote { is_quote quote ≡ true }
    requires cut { chars text.now ≡ quote ∷ chars inner.now }
    requires shorter { length inner.now < length text.now }
    requires within { length text.now < end }
    ensures string { ReadsString end (chars text.now) result }
    ensures rest { IfOk result (λ s. IsUtf8 s.raw.now × IsUtf8 s.rest.now × (length s.rest.now < length text.now)) }
{
    let mut units = Vec::new(alloc);
    let mut legacy = false;
    let mut rest = inner;
    'pieces: loop {
        let (own, more) = split_plain(rest, quote);
        let Ok(()) = push_text(&mut units, own) else {
            return Err(out_of_memory());
        };
        let Some((c, behind)) = pop(more) else {
            return Err(fault(end, text, more, SyntaxError::UnterminatedStrLit));
        };
        if c == quote {
            let raw = before(text, behind);
            let value = Units::from(units);
            return Ok(StringLiteral {
                value,
                legacy,
                raw,
                rest: behind,
            });
        }
        if c != '\\' {
            return Err(fault(end, text, more, SyntaxError::UnterminatedStrLit));
        }
        let (escape, after) = match read_escape(behind) {
            Ok(found) => found,
            Err(bad) => return Err(fault(end, more, bad.rest, bad.kind)),
        };
        let Ok(()) = push_escape(&mut units, escape) else {
            return Err(out_of_memory());
        };
        legacy = legacy || escape.is_legacy();
        rest = after;
    }
}
