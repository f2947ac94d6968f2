//! What is asked of each finished part: it nests no deeper than the limit, which is looked at first, and nothing of a cover
//! is left in it.
ghost use Rattle.std.specs.Prelude.{◌≡◌, ◌<◌, IfOk};
ghost use Rattle.parse_state.specs.Answers.{Gives, IsSyntax};
ghost use Rattle.parse_state.specs.Cursors.{stream_of};
ghost use Rattle.parse_state.specs.States.{state_of};
ghost use Rattle.parse_state.specs.Reads.{to_come};
ghost use Rattle.parse_alone.specs.Within as within;

use crate::{cover_in, is_clean};
use base_token::{BytePos, Error, Span, SyntaxError};
use parse_state::{Failure, Parser, Tokens};
use tree_nesting::Nesting;
use tree_visit::Walk;

/// What is said of a part that is read and may not stand here: a fault of this kind, from here to the last token that was
/// taken.
pub fn left_over<'a, I: Tokens<'a> + Drop>(
    p: &Parser<'a, I>,
    start: BytePos,
    kind: SyntaxError,
) -> Failure
    ensures { IsSyntax result }
{
    Failure::Syntax(Error {
        span: p.since(start),
        kind,
    })
}

/// What is said of a part in which something of a cover is left: an unexpected token where that stands, and at the place of
/// the part where it isn't found.
pub(crate) fn unfinished<T: Walk>(part: &T, place: Span) -> Failure
    ensures { IsSyntax result }
{
    Failure::Syntax(Error {
        span: cover_in(part).unwrap_or(place),
        kind: SyntaxError::Unexpected,
    })
}

/// A part that was read from here on, where it is finished.
///
/// # Errors
///
/// A part that nests deeper than the limit, or in which something of a cover is left.
#[inline(never)]
#[tactic(auto, unfolding(crate::specs::Within::settled))]
pub fn settle<'a, I: Tokens<'a> + Drop, T: Nesting + Walk + Drop>(
    p: &Parser<'a, I>,
    start: BytePos,
    limit: u32,
    part: T,
) -> Result<T, Failure>
    requires limit { limit < 4294967295 }
    requires tree { T.Walk.tree part ≡ T.Nesting.tree part }
    ensures value { Gives (λ x. (T.Nesting.tree x, state_of I.state p.now))
        (to_come I.machine I.state p.now) result
        (within.settled (stream_of I.machine) limit (T.Nesting.tree part, state_of I.state p.now)) }
    ensures stays { IfOk result (λ x. x ≡ part) }
{
    if part.nesting() > limit {
        return Err(Failure::TooDeep);
    }
    if !is_clean(&part) {
        return Err(unfinished(&part, p.since(start)));
    }
    Ok(part)
}
