//! What a lexer handed out last.
ghost use Rattle.std.specs.Prelude.{◌≡◌, ◌≤◌, length};
ghost use Rattle.std.specs.Str.{chars};
ghost use Rattle.base_token.specs.TokenViews.{token_view};
ghost use Rattle.lex_step_laws.specs.States.{is_start, last_after};
ghost use Rattle.ecma_lexer.specs.Last.{back_bytes, last_view};

use base_token::{AssignOp, BinOpToken, Token};

/// What came last in a text that is read.
#[derive(Clone, Copy, Debug)]
pub(crate) enum Last<'a> {
    /// Nothing: the text starts here.
    Start,
    /// A slash, with the text from it on.
    Slash(&'a str),
    /// The characters of a template.
    Characters,
    /// A fault, behind which nothing comes.
    Fault,
    /// Any other token.
    Other,
}

impl<'a> Last<'a> {
    /// What came last behind a token, which begins this text.
    pub(crate) fn after(token: &Token<'a>, from: &'a str) -> Last<'a>
        ensures view { last_view result ≡ last_after (token_view token.now).kind (chars from.now) }
        ensures fits { back_bytes result ≤ length from.now }
    {
        match token {
            Token::Template { .. } => Last::Characters,
            Token::BinOp(BinOpToken::Div) | Token::AssignOp(AssignOp::DivAssign) => Last::Slash(
                from,
            ),
            _ => Last::Other,
        }
    }

    /// Whether nothing was handed out yet.
    pub(crate) fn is_start(self) -> bool
        ensures { result ≡ is_start (last_view self.entry) }
    {
        matches!(self, Last::Start)
    }
}
