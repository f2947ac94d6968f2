//! Texts as atoms hold them, and settings as they are written.

use base_token::{Atom, EsSyntax, StrValue};
use print_config::Config;
use std::convert::AsStr;
use test_answers::{Answer, Question};

/// The text of an atom, its length, and how it is shown and padded.
pub fn atom(text: &str, answer: &mut Answer) -> anyhow::Result<()> {
    let atom = Atom::new(answer.alloc(), text)?;
    let copy = atom.clone()?;
    if copy.as_str() != text || copy != atom {
        return Err(anyhow::Error::msg("the copy holds another text"));
    }
    answer.say(atom.as_str())?;
    answer.say(atom.len())?;
    Ok(answer.say(format_args!("{atom} {atom:?} {atom:>5}|"))?)
}

/// The units of a string's value.
pub fn str_value(text: &str, answer: &mut Answer) -> anyhow::Result<()> {
    let value = StrValue::from_text(answer.alloc(), text)?;
    Ok(answer.say(format_args!("{:?}", value.clone()?.into_vec()))?)
}

/// Settings that are read from JSON, and written again: of the syntax, and else of the printer.
pub fn settings(question: &Question<'_>, text: &str, answer: &mut Answer) -> anyhow::Result<()> {
    let alloc = answer.alloc();
    let again = if question.has("syntax") {
        let read: EsSyntax = serde_json::from_str(alloc, text)?;
        serde_json::to_string(alloc, &read)?
    } else {
        let read: Config = serde_json::from_str(alloc, text)?;
        serde_json::to_string(alloc, &read)?
    };
    Ok(answer.say(again.as_str())?)
}
