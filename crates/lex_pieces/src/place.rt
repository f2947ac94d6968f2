//! Places of parts of a text, counted back from its end.
ghost use Rattle.std.specs.Prelude.{◌≡◌, ◌<◌, ◌≤◌, length};
ghost use Rattle.std.specs.Str.{chars};
ghost use Rattle.base_token.specs.declared.error.SyntaxError.TheVariants.{Memory};
ghost use Rattle.lex_pieces.specs.Places.{IsAt};

use base_token::{BytePos, DUMMY_SP, Error, Span, SyntaxError};

/// The part of a text from where the first of these begins up to where the second begins. Both run
/// to the end of the text, whose place is `end`.
pub fn span(end: u32, from: &str, to: &str) -> Span
    requires order { length to.now ≤ length from.now }
    requires within { length from.now < end }
    ensures { IsAt end (chars from.now) (chars to.now) result }
{
    Span {
        lo: BytePos(end - from.len() as u32),
        hi: BytePos(end - to.len() as u32),
    }
}

/// A fault of this kind, of the part of the text that `span` gives.
#[cold]
pub fn fault(end: u32, from: &str, to: &str, kind: SyntaxError) -> Error
    requires order { length to.now ≤ length from.now }
    requires within { length from.now < end }
    ensures kind { result.kind ≡ kind }
    ensures place { IsAt end (chars from.now) (chars to.now) result.span }
{
    let span = span(end, from, to);
    Error { span, kind }
}

/// Want of memory, which has no place.
#[cold]
pub fn out_of_memory() -> Error
    ensures { result.kind ≡ Memory }
{
    Error {
        span: DUMMY_SP,
        kind: SyntaxError::Memory,
    }
}
