//! What is looked at of the tokens to come.
use base_token::BytePos;

/// Which token is looked at without going on.
#[derive(Clone, Copy, Debug, PartialEq, Eq)]
pub enum Look {
    /// The one that comes.
    Next,
    /// The one that comes where the slash at this place, which was handed out last, is asked for again as a
    /// regular expression.
    Slash(BytePos),
    /// The one behind the one that comes.
    Second,
}
