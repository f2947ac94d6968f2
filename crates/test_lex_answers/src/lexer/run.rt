//! Runs of a lexer over a text, alone and as the sources above it hand its tokens on.

use crate::lexer::again::read_again;
use crate::lexer::steps;
use crate::lexer::told::{failed, tell, tell_comments, tell_faults, tell_list, tell_next};
use base_token::{BytePos, Context, EsVersion, Syntax, Token, TokenAndSpan};
use ecma_lexer::{Lexer, Look, Tokens, canonical_text};
use lex_other_sources::{Capturing, TokensInput};
use std::alloc::Global;
use test_answers::{Answer, Question};

/// The code round the text, by the words of the setting.
fn context(question: &Question<'_>) -> Context {
    Context {
        module_: question.has("module"),
        strict: question.has("strict") || question.has("module"),
        ..Context::default()
    }
}

/// A lexer at the start of a text, whose first place is 1.
pub fn lexer<'a>(
    question: &Question<'_>,
    text: &'a str,
    alloc: Global,
) -> anyhow::Result<Lexer<'a>> {
    if text.len() > 1_000_000 {
        return failed("too long");
    }
    let syntax = Syntax::default();
    let mut lexer = Lexer::new(
        alloc,
        syntax,
        EsVersion::latest(),
        text,
        BytePos(1),
        question.has("comments"),
    );
    lexer.set_ctx(context(question));
    Ok(lexer)
}

/// A token that is looked at, told.
fn seen<'a, I: Tokens<'a>>(
    input: &I,
    at: Look,
    text: &str,
    alloc: Global,
) -> anyhow::Result<String> {
    let mut out = String::new(alloc);
    tell_next(input.look(at)?, text, &mut out)?;
    Ok(out)
}

/// The next token, which is the one that was looked at; and the one behind it is the one that comes then.
fn next_seen<'a, I: Tokens<'a>>(
    input: &mut I,
    text: &str,
    alloc: Global,
) -> anyhow::Result<Option<TokenAndSpan<'a>>> {
    let first = seen(input, Look::Next, text, alloc)?;
    let second = seen(input, Look::Second, text, alloc)?;
    let Some(token) = input.next()? else {
        return Ok(None);
    };
    let mut told = String::new(alloc);
    tell(&token, text, &mut told)?;
    if told != first || second != seen(input, Look::Next, text, alloc)? {
        return failed("another token was looked at");
    }
    Ok(Some(token))
}

/// Adds the tokens that come, up to the end, of which there are two a byte at most. The end comes again. Each is looked at first.
fn tell_rest<'a, I: Tokens<'a>>(
    input: &mut I,
    text: &str,
    alloc: Global,
    out: &mut String,
) -> anyhow::Result<()> {
    for _ in 0..text.len().saturating_mul(2).saturating_add(2) {
        match next_seen(input, text, alloc)? {
            Some(token) => tell(&token, text, out)?,
            None => {
                return match input.next()? {
                    Some(_) => failed("a token behind the end"),
                    None => Ok(()),
                };
            }
        }
    }
    failed("more than two tokens a byte")
}

/// Reads a text by steps and then up to the end, and answers the source at its end.
fn read_by<'a, I: Tokens<'a> + Drop>(
    source: I,
    text: &str,
    steps: &str,
    alloc: Global,
    out: &mut String,
) -> anyhow::Result<I> {
    let mut input = steps::by_steps(source, text, steps, alloc, out)?;
    tell_rest(&mut input, text, alloc, out)?;
    Ok(input)
}

/// Adds what the question expects: the tokens of a text by steps and then up to the end, comments and faults.
fn tell_all(
    question: &Question<'_>,
    text: &str,
    steps: &str,
    answer: &mut Answer,
    out: &mut String,
) -> anyhow::Result<()> {
    let alloc = answer.alloc();
    let mut lexer = read_by(lexer(question, text, alloc)?, text, steps, alloc, out)?;
    let Ok(len) = u32::try_from(text.len()) else {
        return failed("too long");
    };
    if question.has("canonical") {
        return Ok(());
    }
    answer.say(out.as_str())?;
    tell_comments(&mut lexer.take_comments(), len, answer)?;
    tell_faults(lexer.take_errors().as_slice(), answer)
}

/// The tokens that are kept where they are handed out in the same way.
fn kept<'a>(
    question: &Question<'_>,
    text: &'a str,
    steps: &str,
    told: &str,
    alloc: Global,
) -> anyhow::Result<Vec<TokenAndSpan<'a>>> {
    let mut out = String::new(alloc);
    let source = Capturing::new(alloc, lexer(question, text, alloc)?);
    let mut input = read_by(source, text, steps, alloc, &mut out)?;
    if out.as_str() != told {
        return failed("a source that keeps its tokens hands out others");
    }
    Ok(input.take())
}

/// The tokens as a list hands them out.
fn from_list<'a>(
    tokens: Vec<TokenAndSpan<'a>>,
    ctx: Context,
    text: &str,
    alloc: Global,
) -> anyhow::Result<String> {
    let mut out = String::new(alloc);
    let mut input = TokensInput::new(alloc, tokens, ctx, Syntax::default(), EsVersion::latest());
    tell_rest(&mut input, text, alloc, &mut out)?;
    Ok(out)
}

/// Whether a text was read without a fault.
fn is_clean(tokens: &[TokenAndSpan<'_>]) -> bool {
    !tokens
        .iter()
        .any(|token| matches!(&token.token, Token::Error(_)))
}

/// The canonical text, which has the same tokens and is its own.
fn canonical(
    question: &Question<'_>,
    text: &str,
    tokens: &[TokenAndSpan<'_>],
    alloc: Global,
) -> anyhow::Result<String> {
    let canonical = canonical_text(alloc, text, tokens)?;
    let source = lexer(question, canonical.as_str(), alloc)?;
    let again = read_again(source, tokens, alloc)?;
    let told = tell_list(again.as_slice(), canonical.as_str(), alloc)?;
    if told != tell_list(tokens, text, alloc)? {
        return failed("the canonical text has other tokens");
    }
    let of_it = canonical_text(alloc, canonical.as_str(), again.as_slice())?;
    drop(again);
    if of_it != canonical {
        return failed("the canonical text has another one");
    }
    Ok(canonical)
}

/// The tokens of a text by steps, and then up to the end; or its canonical text.
pub fn by_steps(
    question: &Question<'_>,
    text: &str,
    steps: &str,
    answer: &mut Answer,
) -> anyhow::Result<()> {
    let alloc = answer.alloc();
    let mut told = String::new(alloc);
    tell_all(question, text, steps, answer, &mut told)?;
    let tokens = kept(question, text, steps, told.as_str(), alloc)?;
    if question.has("canonical") {
        answer.say(canonical(question, text, tokens.as_slice(), alloc)?)?;
    }
    Ok(())
}

/// The tokens of a whole text, or its canonical text. A list and a source that keeps tokens hand out the
/// same ones.
pub fn to_the_end(question: &Question<'_>, text: &str, answer: &mut Answer) -> anyhow::Result<()> {
    let alloc = answer.alloc();
    let mut told = String::new(alloc);
    tell_all(question, text, "", answer, &mut told)?;
    let tokens = kept(question, text, "", told.as_str(), alloc)?;
    if is_clean(tokens.as_slice()) {
        let canonical = canonical(question, text, tokens.as_slice(), alloc)?;
        if question.has("canonical") {
            answer.say(canonical)?;
        }
    }
    if from_list(tokens, context(question), text, alloc)? != told {
        return failed("a list hands out other tokens");
    }
    Ok(())
}
