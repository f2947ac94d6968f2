//! Reading once more what was read.

use crate::lexer::told::failed;
use base_token::{Token, TokenAndSpan};
use ecma_lexer::{Lexer, Tokens};
use std::alloc::Global;

/// The next token; a slash is read again where it is a regular expression that is looked for.
fn next_like<'a>(
    lexer: &mut Lexer<'a>,
    wanted: &TokenAndSpan<'_>,
) -> anyhow::Result<Option<TokenAndSpan<'a>>> {
    let Some(token) = lexer.next()? else {
        return Ok(None);
    };
    if !matches!(&wanted.token, Token::Regex(_, _)) {
        return Ok(Some(token));
    }
    lexer.set_next_regexp(Some(token.span.lo));
    let again = lexer.next()?;
    lexer.set_next_regexp(None);
    Ok(again)
}

/// The tokens of a text by the steps that gave these tokens, up to the end.
pub fn read_again<'a>(
    source: Lexer<'a>,
    tokens: &[TokenAndSpan<'_>],
    alloc: Global,
) -> anyhow::Result<Vec<TokenAndSpan<'a>>> {
    let mut lexer = source;
    let mut again = Vec::new(alloc);
    for wanted in tokens {
        match next_like(&mut lexer, wanted)? {
            Some(token) => again.push(token)?,
            None => return failed("the text ends early"),
        }
    }
    match lexer.next()? {
        Some(_) => failed("the text goes on"),
        None => Ok(again),
    }
}
