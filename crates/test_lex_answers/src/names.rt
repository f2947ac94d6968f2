//! Names, words and punctuators.

use crate::told::{end_of, failed, fault};
use base_token::{Context, Word};
use lex_pieces::{Name, identifier_name, is_escaped_reserved};
use std::convert::AsStr;
use test_answers::{Answer, Question};

/// The name at the front, whether it is spelled with an escape, and the rest.
pub fn name(text: &str, answer: &mut Answer) -> anyhow::Result<()> {
    let end = end_of(text);
    if text.len() >= end as usize {
        return failed("too long");
    }
    match identifier_name(answer.alloc(), end, text) {
        Ok(None) => Ok(answer.say("none")?),
        Ok(Some((name, rest))) => {
            match name {
                Name::Bare(own) => answer.say(own)?,
                Name::Escaped(own) => answer.say(format_args!("escaped {own}"))?,
            }
            Ok(answer.say(rest)?)
        }
        Err(found) => fault(&found, answer),
    }
}

/// The kind and the text of the word that a name is, and the rest.
pub fn word(text: &str, answer: &mut Answer) -> anyhow::Result<()> {
    let end = end_of(text);
    if text.len() >= end as usize {
        return failed("too long");
    }
    match identifier_name(answer.alloc(), end, text) {
        Ok(Some((name, rest))) => {
            let word = lex_pieces::word(name);
            answer.say(format_args!("{:?} {}", word.kind(), word.as_str()))?;
            Ok(answer.say(rest)?)
        }
        _ => failed("no name"),
    }
}

/// Whether a word that is spelled as the setting says is a reserved one with an escape.
pub fn escaped(question: &Question<'_>, text: &str, answer: &mut Answer) -> anyhow::Result<()> {
    let context = Context {
        strict: question.has("strict"),
        ..Context::default()
    };
    let is_barred = is_escaped_reserved(context, &Word::from_str(text), question.has("with"));
    Ok(answer.say(if is_barred { "barred" } else { "allowed" })?)
}

/// The kind of the longest punctuator at the front, and the rest.
pub fn punctuator(text: &str, answer: &mut Answer) -> anyhow::Result<()> {
    match lex_pieces::punctuator(text) {
        None => Ok(answer.say("none")?),
        Some((kind, rest)) => {
            answer.say(format_args!("{kind:?}"))?;
            Ok(answer.say(rest)?)
        }
    }
}

/// How many punctuators of one kind stand in a row at the front, their kind, and the rest.
pub fn punctuators(text: &str, answer: &mut Answer) -> anyhow::Result<()> {
    let Some((first, mut rest)) = lex_pieces::punctuator(text) else {
        return failed("no punctuator");
    };
    let mut count = 1usize;
    for _ in 0..text.len() {
        match lex_pieces::punctuator(rest) {
            Some((kind, more)) if kind == first => {
                count = count.saturating_add(1);
                rest = more;
            }
            _ => break,
        }
    }
    answer.say(format_args!("{count} {first:?}"))?;
    Ok(answer.say(rest)?)
}
