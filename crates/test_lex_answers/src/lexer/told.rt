//! What is told of tokens and faults.

use base_token::{BytePos, Error, Span, Token, TokenAndSpan};
use lex_comments::{Comment, CommentKind, Comments};
use std::alloc::Global;
use std::convert::AsStr;
use std::fmt::Write;
use test_answers::Answer;

/// No answer, for this reason.
pub fn failed<T>(reason: &'static str) -> anyhow::Result<T> {
    Err(anyhow::Error::msg(reason))
}

/// A letter for each sort of token.
fn letter(token: &Token<'_>) -> &'static str {
    match token {
        Token::Word(_) => "W",
        Token::Num { .. } => "N",
        Token::BigInt { .. } => "B",
        Token::Str { .. } => "S",
        Token::Regex(_, _) => "R",
        Token::Template { .. } => "T",
        Token::Shebang(_) => "H",
        Token::Error(_) => "E",
        _ => "P",
    }
}

/// Whether a token is a word whose text is shorter than its own bytes.
fn is_shortened(token: &Token<'_>, own: &str) -> bool {
    match token {
        Token::Word(word) => word.as_str().len() < own.len(),
        _ => false,
    }
}

/// Parts what is told from what was told before.
fn part(out: &mut String) -> anyhow::Result<()> {
    if out.is_empty() {
        return Ok(());
    }
    Ok(out.push_str(" | ")?)
}

/// Adds the end.
fn tell_end(out: &mut String) -> anyhow::Result<()> {
    part(out)?;
    Ok(out.push_str("end")?)
}

/// Adds a token: `^` where a line break stands before it, its sort, and its own bytes.
pub fn tell(token: &TokenAndSpan<'_>, text: &str, out: &mut String) -> anyhow::Result<()> {
    part(out)?;
    tell_token(token, text, out)
}

/// Adds a token, or the end.
pub fn tell_next(
    token: Option<TokenAndSpan<'_>>,
    text: &str,
    out: &mut String,
) -> anyhow::Result<()> {
    match token {
        Some(token) => tell(&token, text, out),
        None => tell_end(out),
    }
}

/// The tokens of a list, as `tell` has them.
pub fn tell_list(tokens: &[TokenAndSpan<'_>], text: &str, alloc: Global) -> anyhow::Result<String> {
    let mut out = String::new(alloc);
    for token in tokens {
        tell(token, text, &mut out)?;
    }
    Ok(out)
}

/// Adds a token behind what was told.
fn tell_token(token: &TokenAndSpan<'_>, text: &str, out: &mut String) -> anyhow::Result<()> {
    let lo = (token.span.lo.0 as usize).wrapping_sub(1);
    let hi = (token.span.hi.0 as usize).wrapping_sub(1);
    let Some(own) = text.get(lo..hi) else {
        return failed("a place outside of the text");
    };
    if is_shortened(&token.token, own) != (letter(&token.token) == "W" && own.contains('\\')) {
        return failed("a word is shorter than its own bytes where it has an escape");
    }
    let mark = if token.had_line_break { "^" } else { "" };
    write!(out, "{mark}{}", letter(&token.token))?;
    match &token.token {
        Token::Error(error) => Ok(write!(
            out,
            " {:?} {}..{}",
            error.kind, error.span.lo.0, error.span.hi.0
        )?),
        _ => Ok(write!(out, " {own}")?),
    }
}

/// The comments of a side at a place.
fn tell_side(comments: &[Comment], side: &str, at: u32, answer: &mut Answer) -> anyhow::Result<()> {
    for comment in comments {
        let mark = match comment.kind {
            CommentKind::Line => "//",
            CommentKind::Block => "/*",
        };
        let Span { lo, hi } = comment.span;
        answer.say(format_args!("{side} {at} {mark} {}..{}{}", lo.0, hi.0, comment.text))?;
    }
    Ok(())
}

/// The comments that were kept, by their places up to the end of the text.
pub fn tell_comments(comments: &mut Comments, len: u32, answer: &mut Answer) -> anyhow::Result<()> {
    for at in 1..len.saturating_add(2) {
        let trailing = comments.take_trailing(BytePos(at));
        tell_side(trailing.as_slice(), "trails", at, answer)?;
        let leading = comments.take_leading(BytePos(at));
        tell_side(leading.as_slice(), "leads", at, answer)?;
    }
    Ok(())
}

/// The faults that were recorded.
pub fn tell_faults(faults: &[Error], answer: &mut Answer) -> anyhow::Result<()> {
    for fault in faults {
        answer.say(format_args!("{:?} {}..{}", fault.kind, fault.span.lo.0, fault.span.hi.0))?;
    }
    Ok(())
}
