//! Tokens once more.
ghost use Rattle.std.specs.Prelude.{◌≡◌, map, IfOk};
ghost use Rattle.lex_source.specs.Machine.{shown_spot};

use base_token::TokenAndSpan;
use std::alloc::{AllocError, Global};

/// The same token once more.
///
/// # Errors
///
/// Want of memory, for a name, a string or a number that has a text of its own.
pub(crate) fn clone_token<'a>(token: &TokenAndSpan<'a>) -> Result<TokenAndSpan<'a>, AllocError>
    ensures { IfOk result (λ t. shown_spot t ≡ shown_spot token.now) }
{
    token.clone()
}

/// The same tokens once more.
///
/// # Errors
///
/// Want of memory.
pub(crate) fn clone_tokens<'a>(
    alloc: Global,
    tokens: &[TokenAndSpan<'a>],
) -> Result<Vec<TokenAndSpan<'a>>, AllocError>
    ensures { IfOk result (λ ts. map shown_spot ts.items ≡ map shown_spot tokens.now) }
{
    let mut copies = Vec::with_capacity(alloc, tokens.len())?;
    for token in tokens {
        copies.push(clone_token(token)?)?;
    }
    Ok(copies)
}
