//! Steps of a source of tokens, by their words.

use crate::lexer::told::{failed, tell_next};
use base_token::{BytePos, Error, Span, SyntaxError};
use lex_source::{Look, TokenContext, TokenContexts, Tokens};
use std::alloc::Global;

/// The place that a step names.
fn place(step: &str) -> anyhow::Result<BytePos> {
    match step.parse::<u32>() {
        Ok(place) => Ok(BytePos(place)),
        Err(_) => failed("no place"),
    }
}

/// What a step looks at, or nothing where it is another step.
fn look(step: &str) -> Option<Look> {
    match step {
        "look" => Some(Look::Next),
        "second" => Some(Look::Second),
        _ => match place(step.strip_prefix("look=")?) {
            Ok(place) => Some(Look::Slash(place)),
            Err(_) => None,
        },
    }
}

/// A fault to be recorded.
fn some_fault() -> Error {
    Error {
        span: Span {
            lo: BytePos(1),
            hi: BytePos(2),
        },
        kind: SyntaxError::Unexpected,
    }
}

/// Contexts with a template alone.
fn in_template(alloc: Global) -> anyhow::Result<TokenContexts> {
    let mut contexts = TokenContexts::new(alloc);
    contexts.push(TokenContext::Tpl)?;
    Ok(contexts)
}

/// Does what a step says with faults and contexts, or says that it is none of these.
fn record<'a, I: Tokens<'a>>(input: &mut I, step: &str, alloc: Global) -> anyhow::Result<bool> {
    match step {
        "fault" => input.add_error(some_fault())?,
        "wait" => input.add_module_mode_error(some_fault())?,
        "take" => drop(input.take_errors()),
        "template" => input.set_token_context(in_template(alloc)?),
        "leave" => {
            input.token_context_mut().pop();
        }
        _ => return Ok(false),
    }
    Ok(true)
}

/// Tells of the context, or asks for a slash.
fn set<'a, I: Tokens<'a>>(input: &mut I, step: &str) -> anyhow::Result<()> {
    let mut ctx = input.ctx();
    match step {
        "strict" => ctx.strict = true,
        "sloppy" => ctx.strict = false,
        "module" => ctx.module_ = true,
        "withdraw" => input.set_next_regexp(None),
        _ => {
            let place = place(step)?;
            input.set_next_regexp(Some(place));
        }
    }
    input.set_ctx(ctx);
    Ok(())
}

/// Tells a source what a step says.
fn tell_source<'a, I: Tokens<'a>>(input: &mut I, step: &str, alloc: Global) -> anyhow::Result<()> {
    if record(input, step, alloc)? {
        return Ok(());
    }
    set(input, step)
}

/// Takes the steps, tells of each token that they hand out, and answers the source behind them.
pub fn by_steps<'a, I: Tokens<'a> + Drop>(
    source: I,
    text: &str,
    steps: &str,
    alloc: Global,
    out: &mut String,
) -> anyhow::Result<I> {
    let mut input = source;
    for step in steps.split(' ') {
        match step {
            "" => {}
            "next" => tell_next(input.next()?, text, out)?,
            "clone" => input = input.try_clone()?,
            _ => match look(step) {
                Some(at) => tell_next(input.look(at)?, text, out)?,
                None => tell_source(&mut input, step, alloc)?,
            },
        }
    }
    Ok(input)
}
