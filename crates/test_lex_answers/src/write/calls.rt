//! Calls of a writer, read from a question.

use base_token::{BytePos, Span};
use print_writers::{EmitError, WriteJs};

/// Words and punctuators, which a writer takes for the whole run of a program.
const WORDS: [&str; 12] = [
    "}", "{", ";", "(", ")", ",", "if", "else", "return", "typeof", "`", "",
];

fn known(text: &str) -> Option<&'static str> {
    WORDS.iter().copied().find(|word| *word == text)
}

pub(crate) fn number(text: &str) -> Option<u32> {
    text.parse::<u32>().ok()
}

/// A span as `3-5`.
pub(crate) fn span(text: &str) -> Option<Span> {
    let (lo, hi) = text.split_once('-')?;
    Some(Span {
        lo: BytePos(number(lo)?),
        hi: BytePos(number(hi)?),
    })
}

/// Makes a call that has only a name. `None` where there is no such call.
fn plain<W: WriteJs>(writer: &mut W, name: &str) -> Option<Result<(), EmitError>> {
    match name {
        "increase" => Some(writer.increase_indent()),
        "decrease" => Some(writer.decrease_indent()),
        "line" => Some(writer.write_line()),
        "space" => Some(writer.write_space()),
        "semi" => Some(writer.write_semi(None)),
        "commit" => Some(writer.commit_pending_semi()),
        _ => None,
    }
}

/// Makes a call with a text, or with a number.
fn with_text<W: WriteJs>(writer: &mut W, name: &str, text: &str) -> Option<Result<(), EmitError>> {
    match name {
        "str" => Some(writer.write_str(text)),
        "param" => Some(writer.write_param(text)),
        "property" => Some(writer.write_property(text)),
        "comment" => Some(writer.write_comment(text)),
        "operator" => Some(writer.write_operator(None, text)),
        "keyword" => Some(writer.write_keyword(None, known(text)?)),
        "punct" => Some(writer.write_punct(None, known(text)?)),
        "mark" => Some(writer.add_srcmap(BytePos(number(text)?))),
        "semi" => Some(writer.write_semi(span(text))),
        _ => None,
    }
}

/// Makes a call with a span and a text.
fn with_span<W: WriteJs>(
    writer: &mut W,
    name: &str,
    span: Span,
    text: &str,
) -> Option<Result<(), EmitError>> {
    match name {
        "operator" => Some(writer.write_operator(Some(span), text)),
        "keyword" => Some(writer.write_keyword(Some(span), known(text)?)),
        "punct" => Some(writer.write_punct(Some(span), known(text)?)),
        "lit" => Some(writer.write_lit(span, text)),
        "strlit" => Some(writer.write_str_lit(span, text)),
        "symbol" => Some(writer.write_symbol(span, text)),
        _ => None,
    }
}

/// Makes one call: `line`, `str:text`, `symbol:3-5:text`.
fn call<W: WriteJs>(writer: &mut W, words: &str) -> Option<Result<(), EmitError>> {
    let Some((name, rest)) = words.split_once(':') else {
        return plain(writer, words);
    };
    match rest.split_once(':') {
        Some((place, text)) => match span(place) {
            Some(span) => with_span(writer, name, span, text),
            None => with_text(writer, name, rest),
        },
        None => with_text(writer, name, rest),
    }
}

/// Makes the calls one after another, up to the first that is refused.
pub(crate) fn perform<W: WriteJs>(
    writer: &mut W,
    calls: &str,
) -> anyhow::Result<Option<EmitError>> {
    for words in calls.split(' ') {
        match call(writer, words) {
            Some(Ok(())) => {}
            Some(Err(fault)) => return Ok(Some(fault)),
            None => return Err(anyhow::Error::msg("no such call")),
        }
    }
    Ok(None)
}
