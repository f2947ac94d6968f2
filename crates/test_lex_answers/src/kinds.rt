//! Kinds of words, and code units.

use base_token::utf16::push_text;
use base_token::{Context, IdentKind, IdentLike, KnownIdent, Units, Word, WordKind};
use std::convert::AsStr;
use test_answers::Answer;

/// The text of a name, as it is shown.
fn shown(text: &str, kind: WordKind, answer: &Answer) -> anyhow::Result<String> {
    let alloc = answer.alloc();
    match kind {
        WordKind::Ident(IdentKind::Other) => { Ok(format!(in alloc; "{}", IdentLike::from(text))?) }
        WordKind::Ident(_) => match text.parse::<KnownIdent>() {
            Ok(known) => Ok(format!(in alloc; "{known}")?),
            Err(_) => Err(anyhow::Error::msg("no known name")),
        },
        _ => Ok(String::from_str(alloc, text)?),
    }
}

/// What the word of a text is, and its text.
pub fn kind(text: &str, answer: &mut Answer) -> anyhow::Result<()> {
    let word = Word::from_str(text);
    let kind = word.kind();
    if shown(text, kind, answer)?.as_str() != word.as_str() {
        return Err(anyhow::Error::msg("the name is shown by another text"));
    }
    Ok(answer.say(format_args!("{kind:?} {}", word.as_str()))?)
}

/// Code of this kind.
fn context(name: &str) -> Context {
    Context {
        strict: name == "strict",
        in_generator: name == "generator",
        in_async: name == "async",
        in_static_block: name == "block",
        module_: name == "module",
        ..Context::default()
    }
}

/// Each kind of code that reserves a word.
pub fn reserving(text: &str, answer: &mut Answer) -> anyhow::Result<()> {
    let word = Word::from_str(text);
    let mut found = String::new(answer.alloc());
    for name in ["sloppy", "strict", "generator", "async", "block", "module"] {
        let context = context(name);
        let is_reserved = context.is_reserved(&word);
        if context.is_reserved_word(text) != is_reserved {
            return Err(anyhow::Error::msg("the word and its text differ"));
        }
        if is_reserved {
            if !found.is_empty() {
                found.push(' ')?;
            }
            found.push_str(name)?;
        }
    }
    Ok(answer.say(found.as_str())?)
}

/// The code units of a text.
pub fn units(text: &str, answer: &mut Answer) -> anyhow::Result<()> {
    let units = Units::from(text);
    if units.as_plain() != Some(text) || units.clone()?.as_plain() != Some(text) {
        return Err(anyhow::Error::msg("the text isn't lent"));
    }
    let own = units.into_vec(answer.alloc())?;
    let mut added = Vec::new(answer.alloc());
    push_text(&mut added, text)?;
    if added != own {
        return Err(anyhow::Error::msg("adding the text has other units"));
    }
    Ok(answer.say(format_args!("{own:?}"))?)
}
