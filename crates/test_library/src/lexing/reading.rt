//! Reading one token.

ghost use Rattle.std.specs.Prelude.{◌≤◌, length, IfOk, IfSome, IsUtf8};

use base_token::Error;
use lex_token::{Lexeme, LexicalGoal, read_token};
use std::alloc::Global;
use std::test::Fail;

/// The length of a text, unless that is beyond all tests.
fn len_of(text: &str) -> u32 {
    text.len().min(100_000_000) as u32
}

/// The place of the end of a text that starts at 1.
pub fn end_of(text: &str) -> u32 {
    len_of(text).saturating_add(1)
}

/// Reads a token of a text that ends at this place.
pub fn read<'a>(
    alloc: Global,
    goal: LexicalGoal,
    text: &'a str,
    end: u32,
) -> Result<Result<Option<Lexeme<'a>>, Error>, Fail>
    ensures rest { IfOk result (λ answer. IfOk answer (λ o. IfSome o (λ l. IsUtf8 l.rest.now × (length l.rest.now ≤ length text.now)))) }
{
    if text.len() < end as usize {
        Ok(read_token(alloc, goal, text, end))
    } else {
        Err(Fail::from("too long"))
    }
}
