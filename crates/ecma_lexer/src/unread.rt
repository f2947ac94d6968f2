//! The text that a lexer has not read yet.
ghost use Rattle.std.specs.Prelude.{◌≡◌, ◌<◌, ◌^◌, length};
ghost use Rattle.std.specs.Str.{chars};

use crate::last::Last;
use std::marker::Model;

/// What is left of a text, where the text ends, and what came last. A contract sees the state of the text.
#[derive(Drop)]
pub(crate) struct Unread<'a> {
    pub(crate) rest: &'a str,
    pub(crate) end: u32,
    pub(crate) last: Last<'a>,
    pub(crate) had_line_break: bool,
}

impl<'a> Model for Unread<'a> {
    ghost use Rattle.std.specs.Prelude.{◌<◌, length};
    ghost use Rattle.std.specs.Str.{chars};
    ghost use Rattle.lex_step_laws.specs.States.{Text};
    ghost use Rattle.ecma_lexer.specs.Last.{BackFits, last_view};

    ghost Value = { Text };

    ghost view = { λ u. record { left = chars u.rest.now; end = u.end; last = last_view u.last; line_break = u.had_line_break } };

    ghost invariant = { λ u. (length u.rest.now < u.end) × BackFits u.end u.last };
}

/// How many characters a text has, which is shorter than this place.
fn count(text: &str, end: u32) -> u64
    requires within { length text.now < end }
    ensures all { result ≡ length (chars text.now) }
    ensures fits { result < 2 ^ 32 }
{
    text.chars().count() as u64
}

impl<'a> Unread<'a> {
    ghost use Rattle.lex_step_laws.specs.Bounds.{bound};

    /// How many tokens may come of it at most.
    pub(crate) fn may_come(&self) -> u64
        ensures bound { result ≡ bound self.now }
        ensures fits { result < 2 ^ 35 }
    {
        let least = 4 * count(self.rest, self.end);
        match self.last {
            Last::Fault => 0,
            Last::Characters => least + 2,
            Last::Slash(from) => (least + 3).max(4 * count(from, self.end) + 1),
            Last::Start | Last::Other => least + 3,
        }
    }

    /// The same text once more.
    pub(crate) fn copied(&self) -> Unread<'a>
        ensures { result ≡ self.now }
    {
        Unread {
            rest: self.rest,
            end: self.end,
            last: self.last,
            had_line_break: self.had_line_break,
        }
    }
}
