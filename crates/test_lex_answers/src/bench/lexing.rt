//! The tokens of a script, counted by the lexer. Which slash opens a regular expression is guessed from the token before
//! it, as a parser would know it.

ghost use Rattle.std.specs.Prelude.{◌<◌, length};

use crate::bench::LONGEST;
use base_token::{AssignOp, BinOpToken, BytePos, Error, EsVersion, Keyword, Syntax, Token, Word};
use ecma_lexer::{Lexer, Tokens};
use std::alloc::Global;
use std::fs;

/// Whether a slash behind this token divides. Of brackets it is a guess that holds for most code.
fn divides(token: &Token<'_>) -> bool {
    match token {
        Token::Word(Word::Keyword(keyword)) => matches!(keyword, Keyword::This | Keyword::Super),
        Token::Word(_)
        | Token::Num { .. }
        | Token::BigInt { .. }
        | Token::Str { .. }
        | Token::Regex(_, _)
        | Token::RParen
        | Token::RBracket
        | Token::RBrace
        | Token::BackQuote
        | Token::PlusPlus
        | Token::MinusMinus => true,
        _ => false,
    }
}

/// Reads the token that begins where a slash was read, a regular expression, and says whether a slash behind it divides.
#[inline(never)]
fn read_again(lexer: &mut Lexer<'_>, lo: BytePos) -> Result<Option<bool>, Error> {
    lexer.set_next_regexp(Some(lo));
    let again = lexer.next()?;
    lexer.set_next_regexp(None);
    match again {
        Some(read) => Ok(Some(divides(&read.token))),
        None => Ok(None),
    }
}

/// Reads the next token, and says whether a slash behind it divides. A slash opens a regular expression where none
/// divides.
#[inline(always)]
fn read(lexer: &mut Lexer<'_>, may_divide: bool) -> Result<Option<bool>, Error> {
    let Some(read) = lexer.next()? else {
        return Ok(None);
    };
    match &read.token {
        Token::Error(error) => Err(*error),
        Token::BinOp(BinOpToken::Div) | Token::AssignOp(AssignOp::DivAssign) if !may_divide => {
            read_again(lexer, read.span.lo)
        }
        token => Ok(Some(divides(token))),
    }
}

/// Counts the tokens of a script.
///
/// # Errors
///
/// What is wrong with the first token that can't be read; or memory ran out.
fn count(alloc: Global, text: &str, keeps: bool) -> Result<u32, Error>
    requires { length text.now < 0xFFFF_FFFF }
{
    let syntax = Syntax::default();
    let mut lexer = Lexer::new(alloc, syntax, EsVersion::latest(), text, BytePos(1), keeps);
    let mut tokens = 0u32;
    let mut may_divide = false;
    for _ in 0..=2 * text.len() {
        let Some(divides) = read(&mut lexer, may_divide)? else {
            break;
        };
        may_divide = divides;
        tokens = tokens.saturating_add(1);
    }
    Ok(tokens)
}

/// Reads the file, then its tokens so many times, and prints how many there are.
pub fn run(rt: &HostRuntime, path: &str, times: u32, keeps: bool) -> anyhow::Result<()> {
    let text = fs::read_to_string(rt, path)?;
    if text.len() > LONGEST {
        return Err(anyhow::Error::msg("the file is too long"));
    }
    let mut tokens = 0;
    for _ in 0..times {
        tokens = count(rt.alloc(), text.as_str(), keeps)?;
    }
    println!(rt; "{tokens}")?;
    Ok(())
}
