//! Why nothing was parsed, as a user is told.
ghost use Rattle.std.specs.Prelude.{◌≡◌, ◌≤◌};
ghost use Rattle.base_token.specs.declared.error.SyntaxError.TheVariants.{Memory};
ghost use Rattle.parse_state.specs.Answers.{IsMemory};
ghost use Rattle.ecma_parser.specs.Answers.{Tells};

use base_token::{BytePos, DUMMY_SP, Error, Span, SyntaxError};
use parse_state::Failure;

/// What an entry answers. After an Err that is not want of memory the parser stands where reading found that: what was taken
/// stays taken, and no token is taken that doesn't fit.
pub type PResult<T> = Result<T, Error>;

/// The fault that a user is told by a parser in front of a token that begins here. No fault of a text is called want of memory or
/// too deep, and none begins behind that token's start, since nothing further on was read.
pub(crate) fn told(failure: Failure, here: BytePos) -> Error
    ensures tells { Tells failure result.kind }
    ensures memory { IsMemory failure → result.kind ≡ Memory }
    ensures place { result.span.lo.0 ≤ here.0 }
{
    match failure {
        Failure::Memory => Error {
            span: DUMMY_SP,
            kind: SyntaxError::Memory,
        },
        Failure::TooDeep => Error {
            span: DUMMY_SP,
            kind: SyntaxError::TooDeep,
        },
        Failure::Syntax(error) => Error {
            span: Span {
                lo: BytePos(error.span.lo.0.min(here.0)),
                hi: error.span.hi,
            },
            kind: match error.kind {
                SyntaxError::Memory | SyntaxError::TooDeep => SyntaxError::Unexpected,
                kind => kind,
            },
        },
    }
}
