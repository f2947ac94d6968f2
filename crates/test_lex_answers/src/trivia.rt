//! Trivia, hashbangs and regular expressions.

use crate::told::{end_of, failed, fault};
use lex_pieces::{
    Comment, CommentKind, Goal, LineMark, RegExp, Trivia, collect_trivia, regular_expression,
    skip_trivia, split_line, split_reg_exp_char, trivia_piece,
};
use test_answers::{Answer, Question};

/// The goal that the setting names.
fn goal(question: &Question<'_>) -> Goal {
    if question.has("module") {
        Goal::Module
    } else {
        Goal::Script
    }
}

/// A piece with what follows it.
fn tell_piece(piece: Trivia<'_>, rest: &str, answer: &mut Answer) -> anyhow::Result<()> {
    match piece {
        Trivia::WhiteSpace => answer.say("space")?,
        Trivia::LineTerminator => answer.say("break")?,
        Trivia::LineComment(LineMark::Slashes, own) => answer.say(format_args!("//{own}"))?,
        Trivia::LineComment(LineMark::HtmlOpen, own) => answer.say(format_args!("<!--{own}"))?,
        Trivia::LineComment(LineMark::HtmlClose, own) => answer.say(format_args!("-->{own}"))?,
        Trivia::BlockComment(own) => answer.say(format_args!("/*{own}*/"))?,
    }
    Ok(answer.say(rest)?)
}

/// The piece of trivia at the front, and the rest.
pub fn piece(question: &Question<'_>, text: &str, answer: &mut Answer) -> anyhow::Result<()> {
    let end = end_of(text);
    if text.len() >= end as usize {
        return failed("too long");
    }
    match trivia_piece(end, goal(question), question.has("first"), text) {
        Ok(None) => Ok(answer.say("none")?),
        Ok(Some((piece, rest))) => tell_piece(piece, rest, answer),
        Err(found) => fault(&found, answer),
    }
}

/// Whether the line breaks, and the rest.
fn tell_passed(broke: bool, rest: &str, answer: &mut Answer) -> anyhow::Result<()> {
    answer.say(if broke { "new line" } else { "same line" })?;
    Ok(answer.say(rest)?)
}

/// Whether all trivia at the front breaks the line, and the rest.
pub fn skip(question: &Question<'_>, text: &str, answer: &mut Answer) -> anyhow::Result<()> {
    let end = end_of(text);
    if text.len() >= end as usize {
        return failed("too long");
    }
    match skip_trivia(end, goal(question), question.has("first"), text) {
        Ok((broke, rest)) => tell_passed(broke, rest, answer),
        Err(found) => fault(&found, answer),
    }
}

/// A comment with its place.
fn tell_comment(comment: &Comment<'_>, answer: &mut Answer) -> anyhow::Result<()> {
    let kind = match comment.kind {
        CommentKind::Line => "line",
        CommentKind::Block => "block",
    };
    let (lo, hi) = (comment.span.lo.0, comment.span.hi.0);
    Ok(answer.say(format_args!("{kind} {lo}..{hi} <{}>", comment.text))?)
}

/// The comments of all trivia at the front (or how many they are, as the setting says), whether that breaks
/// the line, and the rest.
pub fn comments(question: &Question<'_>, text: &str, answer: &mut Answer) -> anyhow::Result<()> {
    let end = end_of(text);
    if text.len() >= end as usize {
        return failed("too long");
    }
    let mut comments = Vec::new(answer.alloc());
    let passed = collect_trivia(
        end,
        goal(question),
        question.has("first"),
        text,
        &mut comments,
    );
    if question.has("counted") {
        answer.say(comments.len())?;
    } else {
        for comment in comments.iter() {
            tell_comment(comment, answer)?;
        }
    }
    match passed {
        Ok((broke, rest)) => tell_passed(broke, rest, answer),
        Err(found) => fault(&found, answer),
    }
}

/// The characters up to the end of the line, and the rest.
pub fn line(text: &str, answer: &mut Answer) -> anyhow::Result<()> {
    let (own, rest) = split_line(text);
    answer.say(own)?;
    Ok(answer.say(rest)?)
}

/// The text of a hashbang, and the rest.
pub fn hashbang(text: &str, answer: &mut Answer) -> anyhow::Result<()> {
    match lex_pieces::hashbang(text) {
        None => Ok(answer.say("none")?),
        Some((own, rest)) => {
            answer.say(format_args!("<{own}>"))?;
            Ok(answer.say(rest)?)
        }
    }
}

/// The body and the flags of a regular expression, and the rest.
pub fn regexp(text: &str, answer: &mut Answer) -> anyhow::Result<()> {
    let end = end_of(text);
    if text.len() >= end as usize {
        return failed("too long");
    }
    match regular_expression(end, text) {
        Ok(None) => Ok(answer.say("none")?),
        Ok(Some(RegExp { body, flags, rest })) => {
            answer.say(format_args!("<{body}> <{flags}>"))?;
            Ok(answer.say(rest)?)
        }
        Err(found) => fault(&found, answer),
    }
}

/// The run of what stands for itself in a regular expression, and the rest.
pub fn run(text: &str, answer: &mut Answer) -> anyhow::Result<()> {
    let (own, rest) = split_reg_exp_char(text);
    answer.say(format_args!("<{own}>"))?;
    Ok(answer.say(rest)?)
}
