//! Pieces of templates.

ghost use Rattle.std.specs.Prelude.{◌≡◌, [], ◌∷◌, ◌<◌, ◌≤◌, length, IfOk, IsErrAnd, IsOkAnd, IsUtf8, MatchOption, is_some, option_map, encode_utf8_all, string_bytes};
ghost use Rattle.std.specs.List.{list_any};
ghost use Rattle.std.specs.Str.{chars};
ghost use Rattle.lex_literal.specs.Templates as spec;
ghost use Rattle.lex_literal.specs.TemplateSteps.{IsNext, RestOf};

use crate::escape::{Escape, past_line_feed, push_escape, read_escape};
use crate::place::before;
use crate::runs::split_bare;
use base_token::utf16::push_text;
use base_token::{Error, SyntaxError, Units};
use lex_pieces::characters::pop;
use lex_pieces::place::{fault, out_of_memory};
use memchr::memchr;
use std::alloc::{AllocError, Global};

/// What ends a piece of a template.
#[derive(Clone, Copy, Debug, PartialEq, Eq)]
pub enum Ending {
    /// The back quote that closes the template.
    BackQuote,
    /// `${`, behind which an expression comes.
    Substitution,
}

/// A piece of a template.
#[derive(Debug, Drop)]
pub struct TemplatePiece<'a> {
    /// Its own text, without what ends it.
    pub raw: &'a str,
    /// What it stands for, or the fault of its first bad escape, which an untagged template has.
    pub cooked: Result<Units<'a>, Error>,
    /// What ends it.
    pub ending: Ending,
    /// The text behind that.
    pub rest: &'a str,
}

/// What comes where no character stands for itself.
#[derive(Clone, Copy)]
enum Next<'a> {
    /// The end of the piece, and the text behind it.
    End(Ending, &'a str),
    /// An escape of this meaning, or a line break that has the same, and the text behind it.
    Escape(Escape, &'a str),
    /// A bad escape, and the text behind its first character.
    Bad(Error, &'a str),
    /// The end of the text, perhaps behind a backslash.
    Open,
}

/// The escape of a template behind its backslash.
fn next_escape<'a>(text: &'a str, behind: &'a str, end: u32) -> Next<'a>
    requires cut { chars text.now ≡ 92 ∷ chars behind.now }
    requires shorter { length behind.now < length text.now }
    requires within { length text.now < end }
    ensures next { IsNext end (chars text.now) result }
    ensures rest { RestOf (length text.now) result }
{
    let Some((_, more)) = pop(behind) else {
        return Next::Open;
    };
    match read_escape(behind) {
        Ok((escape, rest)) if escape.is_legacy() => {
            Next::Bad(fault(end, text, rest, SyntaxError::LegacyOctal), more)
        }
        Ok((escape, rest)) => Next::Escape(escape, rest),
        Err(bad) => Next::Bad(fault(end, text, bad.rest, bad.kind), more),
    }
}

/// What comes at the front of a text where no character stands for itself.
fn next_part(text: &str, end: u32) -> Next<'_>
    requires bare { spec.bare_run (chars text.now) ≡ [] }
    requires within { length text.now < end }
    ensures next { IsNext end (chars text.now) result }
    ensures rest { RestOf (length text.now) result }
{
    let Some((c, behind)) = pop(text) else {
        return Next::Open;
    };
    match c {
        '`' => Next::End(Ending::BackQuote, behind),
        '\r' => Next::Escape(Escape::Code(10), past_line_feed(behind)),
        '\\' => next_escape(text, behind, end),
        _ => match pop(behind) {
            Some((_, rest)) => Next::End(Ending::Substitution, rest),
            None => Next::Open,
        },
    }
}

/// The piece of a template at the front of a text, which is behind a back quote or a closing brace: what
/// it stands for, its own text, what ends it and what follows that (ECMA-262, 12.9.6). The text ends at
/// the place `end`. Nothing is allocated where each character of the piece stands for itself.
///
/// # Errors
///
/// The template has no end, or memory ran out.
pub fn read_template(alloc: Global, text: &str, end: u32) -> Result<TemplatePiece<'_>, Error>
    requires within { length text.now < end }
    ensures piece { spec.ReadsPiece end (chars text.now) result }
    ensures rest { IfOk result (λ t. IsUtf8 t.raw.now × IsUtf8 t.rest.now × (length t.rest.now < length text.now)) }
{
    let (own, more) = split_bare(text);
    match next_part(more, end) {
        Next::End(ending, rest) => Ok(TemplatePiece {
            raw: own,
            cooked: Ok(Units::from(own)),
            ending,
            rest,
        }),
        _ => read_parts(alloc, text, end),
    }
}

/// What a piece stands for, by its code units and by the fault of its first bad escape.
fn cooked<'a>(units: Vec<u16>, bad: Option<Error>) -> Result<Units<'a>, Error>
    ensures { MatchOption bad (IsOkAnd result (λ v. v ≡ units.items)) (λ e. IsErrAnd result (λ f. f ≡ e)) }
{
    match bad {
        Some(error) => Err(error),
        None => Ok(Units::from(units)),
    }
}

/// The piece of a template at the front of a text, part by part.
fn read_parts(alloc: Global, text: &str, end: u32) -> Result<TemplatePiece<'_>, Error>
    requires within { length text.now < end }
    ensures piece { spec.ReadsPiece end (chars text.now) result }
    ensures rest { IfOk result (λ t. IsUtf8 t.raw.now × IsUtf8 t.rest.now × (length t.rest.now < length text.now)) }
{
    let mut units = Vec::new(alloc);
    let mut bad = None;
    let mut rest = text;
    'parts: loop {
        let (own, more) = split_bare(rest);
        let Ok(()) = push_text(&mut units, own) else {
            return Err(out_of_memory());
        };
        match next_part(more, end) {
            Next::End(ending, behind) => {
                return Ok(TemplatePiece {
                    raw: before(text, more),
                    cooked: cooked(units, bad),
                    ending,
                    rest: behind,
                });
            }
            Next::Escape(escape, behind) => {
                let Ok(()) = push_escape(&mut units, escape) else {
                    return Err(out_of_memory());
                };
                rest = behind;
            }
            Next::Bad(error, behind) => {
                bad = Some(bad.unwrap_or(error));
                rest = behind;
            }
            Next::Open => return Err(fault(end, text, "", SyntaxError::UnterminatedTpl)),
        }
    }
}

/// The text with LF for each CR LF and each other CR.
fn with_line_feeds(alloc: Global, own: &str) -> Result<String, AllocError>
    ensures { IfOk result (λ made. string_bytes made ≡ encode_utf8_all (spec.line_feeds (chars own.now))) }
{
    let mut made = String::new(alloc);
    let mut rest = own;
    'characters: while let Some((c, more)) = pop(rest) {
        if c == '\r' {
            made.push('\n')?;
            rest = past_line_feed(more);
        } else {
            made.push(c)?;
            rest = more;
        }
    }
    Ok(made)
}

/// The raw text of a piece of a template, of its own text: with LF for each CR LF and each other CR
/// (ECMA-262, 12.9.6). `None` where the own text has no CR, and is the raw text.
///
/// # Errors
///
/// Want of memory.
pub fn raw_text(alloc: Global, own: &str) -> Result<Option<String>, AllocError>
    ensures text { IfOk result (λ made. spec.raw_bytes own.now (option_map string_bytes made) ≡ encode_utf8_all (spec.line_feeds (chars own.now))) }
    ensures made { IfOk result (λ made. is_some made ≡ list_any spec.is_return (chars own.now)) }
{
    match memchr(b'\r', own.as_bytes()) {
        Some(_) => Ok(Some(with_line_feeds(alloc, own)?)),
        None => Ok(None),
    }
}
