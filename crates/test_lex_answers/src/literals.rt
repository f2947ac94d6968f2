//! Strings, pieces of templates and numbers.

use crate::told::{end_of, failed, fault, units, value};
use base_token::Units;
use lex_literal::{
    Ending, Numeral, NumericLiteral, StringLiteral, TemplatePiece, begins_number, raw_text,
    read_number, read_string, read_template,
};
use lex_pieces::characters::pop;
use std::borrow::CowStr;
use test_answers::{Answer, Question};

/// Whether a literal's own text and the rest are what the text is.
fn is_cut(text: &str, own: &str, rest: &str) -> bool {
    text.strip_prefix(own) == Some(rest)
}

/// How many units there are, and the last of them, where they are too many to tell.
fn tell_units(value: &Units<'_>, legacy: &str, answer: &mut Answer) -> anyhow::Result<()> {
    let all = value.clone()?.into_vec(answer.alloc())?;
    match all.last() {
        Some(last) if all.len() > 1000 => {
            let last = *last;
            Ok(answer.say(format_args!("{} units, the last {last}", all.len()))?)
        }
        _ => {
            let units = units(value, answer)?;
            Ok(answer.say(format_args!("{units}{legacy}"))?)
        }
    }
}

/// The units of a string, whether strict code bars it, and the rest.
fn tell_string(text: &str, literal: &StringLiteral<'_>, answer: &mut Answer) -> anyhow::Result<()> {
    if !is_cut(text, literal.raw, literal.rest) {
        return failed("the literal isn't cut out of the text");
    }
    if literal.value.as_plain().is_some() == literal.raw.contains('\\') {
        return failed("a string is lent where it has no escape");
    }
    let legacy = if literal.legacy { " legacy" } else { "" };
    tell_units(&literal.value, legacy, answer)?;
    Ok(answer.say(literal.rest)?)
}

/// The string at the front.
pub fn string(text: &str, answer: &mut Answer) -> anyhow::Result<()> {
    let end = end_of(text);
    if text.len() >= end as usize {
        return failed("too long");
    }
    let Some(('"' | '\'', _)) = pop(text) else {
        return failed("no quote");
    };
    match read_string(answer.alloc(), text, end) {
        Ok(literal) => tell_string(text, &literal, answer),
        Err(found) => fault(&found, answer),
    }
}

/// The raw text of a piece.
fn tell_raw(own: &str, answer: &mut Answer) -> anyhow::Result<()> {
    match raw_text(answer.alloc(), own)? {
        Some(made) => Ok(answer.say(made.as_str())?),
        None => Ok(answer.say(own)?),
    }
}

/// The cooked units of a piece, or that it is bad.
fn tell_cooked(piece: &TemplatePiece<'_>, answer: &mut Answer) -> anyhow::Result<()> {
    let Ok(value) = &piece.cooked else {
        return Ok(answer.say("bad")?);
    };
    let is_lent = value.as_plain().is_some();
    if is_lent == (piece.raw.contains('\\') || piece.raw.contains('\r')) {
        return failed("a piece is lent where it has no escape and no CR");
    }
    tell_units(value, "", answer)
}

/// The cooked units of a piece, its raw text, what ends it, and the rest.
fn tell_piece(text: &str, piece: &TemplatePiece<'_>, answer: &mut Answer) -> anyhow::Result<()> {
    tell_cooked(piece, answer)?;
    if !text.starts_with(piece.raw) {
        return failed("the piece isn't cut out of the text");
    }
    tell_raw(piece.raw, answer)?;
    answer.say(match piece.ending {
        Ending::BackQuote => "`",
        Ending::Substitution => "${",
    })?;
    Ok(answer.say(piece.rest)?)
}

/// The piece of a template at the front; or the fault of its cooked text alone, as the setting says.
pub fn template(question: &Question<'_>, text: &str, answer: &mut Answer) -> anyhow::Result<()> {
    let end = end_of(text);
    if text.len() >= end as usize {
        return failed("too long");
    }
    match read_template(answer.alloc(), text, end) {
        Err(_) if question.has("cooked") => failed("an open piece"),
        Err(found) => fault(&found, answer),
        Ok(piece) if question.has("cooked") => match &piece.cooked {
            Ok(_) => failed("no fault"),
            Err(found) => fault(found, answer),
        },
        Ok(piece) => tell_piece(text, &piece, answer),
    }
}

/// How many pieces stand before the last of a template, one behind the other, and the rest.
pub fn pieces(text: &str, answer: &mut Answer) -> anyhow::Result<()> {
    let end = end_of(text);
    let mut rest = text;
    for found in 0..text.len() {
        if rest.len() >= end as usize {
            return failed("too long");
        }
        let Ok(piece) = read_template(answer.alloc(), rest, end) else {
            return failed("a fault");
        };
        rest = piece.rest;
        if piece.ending == Ending::BackQuote {
            answer.say(found)?;
            return Ok(answer.say(rest)?);
        }
    }
    failed("no end")
}

/// The raw text, where it is not the text itself.
pub fn raw(text: &str, answer: &mut Answer) -> anyhow::Result<()> {
    match raw_text(answer.alloc(), text)? {
        Some(made) => Ok(answer.say(made.as_str())?),
        None => failed("no CR"),
    }
}

/// The value of a number, what strict code has with it, and the rest.
fn tell_number(
    text: &str,
    literal: &NumericLiteral<'_>,
    answer: &mut Answer,
) -> anyhow::Result<()> {
    if !is_cut(text, literal.raw, literal.rest) {
        return failed("the literal isn't cut out of the text");
    }
    let own = match &literal.value {
        Numeral::Number(number) => value(number, answer)?,
        Numeral::BigInt { radix, digits } => {
            if matches!(digits, CowStr::Borrowed(_)) == literal.raw.contains('_') {
                return failed("digits are lent where no separator stands among them");
            }
            format!(in answer.alloc(); "BigInt {radix}:{}", digits.as_str())?
        }
    };
    match &literal.legacy {
        Some(kind) => answer.say(format_args!("{own} {kind:?}"))?,
        None => answer.say(own.as_str())?,
    }
    Ok(answer.say(literal.rest)?)
}

/// The number at the front.
pub fn number(text: &str, answer: &mut Answer) -> anyhow::Result<()> {
    let end = end_of(text);
    if text.len() >= end as usize {
        return failed("too long");
    }
    if !begins_number(text) {
        return failed("no number");
    }
    match read_number(answer.alloc(), text, end) {
        Ok(literal) => tell_number(text, &literal, answer),
        Err(found) => fault(&found, answer),
    }
}
