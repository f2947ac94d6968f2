//! Whole tokens.

ghost use Rattle.std.specs.Prelude.{IfOk, IfSome, IsUtf8};

use crate::told::{end_of, failed, fault, units, value};
use base_token::{Context, Error, Token};
use lex_pieces::is_escaped_reserved;
use lex_token::{Lexeme, LexicalGoal, read_token};
use std::alloc::Global;
use std::convert::AsStr;
use test_answers::{Answer, Question};

/// The goal of a word of a setting.
fn goal(word: &str) -> anyhow::Result<LexicalGoal> {
    match word {
        "div" => Ok(LexicalGoal::Div),
        "regexp" => Ok(LexicalGoal::RegExp),
        "tail" => Ok(LexicalGoal::TemplateTail),
        "end" => Ok(LexicalGoal::TemplateEnd),
        _ => failed("no such goal"),
    }
}

/// Reads a token of a text that ends at this place.
fn read<'a>(
    alloc: Global,
    goal: LexicalGoal,
    text: &'a str,
    end: u32,
) -> anyhow::Result<Result<Option<Lexeme<'a>>, Error>>
    ensures rest { IfOk result (λ answer. IfOk answer (λ o. IfSome o (λ l. IsUtf8 l.rest.now))) }
{
    if text.len() >= end as usize {
        return failed("too long");
    }
    Ok(read_token(alloc, goal, text, end))
}

/// What a token is, without its place.
fn token(token: &Token<'_>, answer: &Answer) -> anyhow::Result<String> {
    let alloc = answer.alloc();
    match token {
        Token::Word(word) => Ok(format!(in alloc; "{:?} {}", word.kind(), word.as_str())?),
        Token::Num { value: number, raw } => {
            let number = value(number, answer)?;
            Ok(format!(in alloc; "Num {number} {raw}")?)
        }
        Token::BigInt { radix, digits, raw } => {
            Ok(format!(in alloc; "BigInt {radix}:{} {raw}", digits.as_str())?)
        }
        Token::Str { units: own, raw } => {
            let own = units(own, answer)?;
            Ok(format!(in alloc; "Str {own} {raw}")?)
        }
        Token::Regex(body, flags) => Ok(format!(in alloc; "Regex <{body}> <{flags}>")?),
        Token::Template { raw, cooked } => {
            let cooked = match cooked {
                Ok(own) => units(own, answer)?,
                Err(found) => {
                    let (lo, hi) = (found.span.lo.0, found.span.hi.0);
                    format!(in alloc; "{:?} {lo}..{hi}", found.kind)?
                }
            };
            Ok(format!(in alloc; "Template <{raw}> {cooked}")?)
        }
        other => Ok(format!(in alloc; "{:?}", other.kind())?),
    }
}

/// A token with what strict code has with its spelling, and its place.
fn lexeme(lexeme: &Lexeme<'_>, lo: u32, hi: u32, answer: &mut Answer) -> anyhow::Result<()> {
    let own = token(&lexeme.token, answer)?;
    let escaped = if lexeme.escaped { " escaped" } else { "" };
    match &lexeme.legacy {
        Some(kind) => answer.say(format_args!("{own}{escaped} {kind:?} {lo}..{hi}"))?,
        None => answer.say(format_args!("{own}{escaped} {lo}..{hi}"))?,
    }
    Ok(())
}

/// The goals of the words of a setting.
fn goals(alloc: Global, words: &str) -> anyhow::Result<Vec<LexicalGoal>> {
    let mut found = Vec::new(alloc);
    for word in words.split(' ') {
        if word != "*" {
            found.push(goal(word)?)?;
        }
    }
    Ok(found)
}

/// Where in a text its rest begins, counted from 1.
fn place(text: &str, rest: &str) -> u32 {
    end_of(text).saturating_sub(end_of(rest)).saturating_add(1)
}

/// The tokens of a text under these goals, the last of them for all that follow where a star stands: up to
/// the end, a fault or the last goal.
fn tell(words: &str, text: &str, answer: &mut Answer) -> anyhow::Result<()> {
    let goals = goals(answer.alloc(), words)?;
    let later = if words.ends_with('*') {
        goals.last()
    } else {
        None
    };
    let mut left = text;
    for index in 0..=text.len().saturating_add(goals.len()) {
        let Some(goal) = goals.get(index).or(later) else {
            return Ok(());
        };
        match read(answer.alloc(), *goal, left, end_of(text))? {
            Ok(Some(found)) => {
                lexeme(&found, place(text, left), place(text, found.rest), answer)?;
                left = found.rest;
            }
            Ok(None) => return Ok(answer.say("end")?),
            Err(found) => return fault(&found, answer),
        }
    }
    failed("no end")
}

/// The words of a setting behind its first.
fn behind<'q>(question: &Question<'q>) -> anyhow::Result<&'q str> {
    match question.setting.split_once(' ') {
        Some((_, goals)) => Ok(goals),
        None => failed("no goals"),
    }
}

/// The tokens of a text, under the goals of the setting.
pub fn tokens(question: &Question<'_>, text: &str, answer: &mut Answer) -> anyhow::Result<()> {
    tell(behind(question)?, text, answer)
}

/// How many tokens a text has under the goals of the setting, over and over, up to its end.
pub fn count(question: &Question<'_>, text: &str, answer: &mut Answer) -> anyhow::Result<()> {
    let goals = goals(answer.alloc(), behind(question)?)?;
    let mut left = text;
    for found in 0..=text.len().saturating_mul(4) {
        if left.is_empty() {
            return Ok(answer.say(found)?);
        }
        let turn = found.checked_rem(goals.len()).unwrap_or(0);
        let Some(goal) = goals.get(turn) else {
            return failed("no goals");
        };
        match read(answer.alloc(), *goal, left, end_of(text))? {
            Ok(Some(lexeme)) => left = lexeme.rest,
            Ok(None) => return failed("an end before the end"),
            Err(other) => return fault(&other, answer),
        }
    }
    failed("no end")
}

/// The one token of a text.
fn only<'a>(alloc: Global, text: &'a str) -> anyhow::Result<Lexeme<'a>> {
    match read(alloc, LexicalGoal::Div, text, end_of(text))? {
        Ok(Some(lexeme)) => Ok(lexeme),
        Ok(None) => failed("no token"),
        Err(_) => failed("a fault"),
    }
}

/// What code of the setting has against the spelling of a token.
pub fn context(question: &Question<'_>, text: &str, answer: &mut Answer) -> anyhow::Result<()> {
    let context = Context {
        strict: question.has("strict"),
        module_: question.has("module"),
        in_generator: question.has("generator"),
        in_async: question.has("async"),
        ..Context::default()
    };
    match only(answer.alloc(), text)?.fault_in(context) {
        None => Ok(answer.say("allowed")?),
        Some(kind) => Ok(answer.say(format_args!("{kind:?}"))?),
    }
}

/// Each code in which a word is a reserved one with an escape: code that is neither strict nor a generator, strict code, a
/// module (which is strict) and a generator.
pub fn reserved(text: &str, answer: &mut Answer) -> anyhow::Result<()> {
    let lexeme = only(answer.alloc(), text)?;
    let Token::Word(word) = &lexeme.token else {
        return failed("no word");
    };
    for name in ["sloppy", "strict", "module", "generator"] {
        let context = Context {
            strict: name == "strict" || name == "module",
            module_: name == "module",
            in_generator: name == "generator",
            ..Context::default()
        };
        if is_escaped_reserved(context, word, lexeme.escaped) {
            answer.say(name)?;
        }
    }
    Ok(())
}
