//! A token at a front, with what a parser asks of its spelling.

ghost use Rattle.std.specs.Prelude.{◌≡◌, ◌<◌, ◌≤◌, [], length, MatchOption};
ghost use Rattle.std.specs.Str.{chars};
ghost use Rattle.base_token.specs.TokenViews.{token_view};
ghost use Rattle.base_token.specs.WordViews.{word_view};
ghost use Rattle.lex_token.specs.Lexemes as spec;
ghost use Rattle.lex_token.specs.Readings.{lexeme_view};

use base_token::word::Word;
use base_token::{Context, Error, SyntaxError, Token};
use lex_pieces::place::fault;
use lex_pieces::words::is_escaped_reserved;

/// A token at the front of a text.
#[derive(Debug)]
pub struct Lexeme<'a> {
    /// The token.
    pub token: Token<'a>,
    /// Whether it is a word that is spelled with an escape.
    pub escaped: bool,
    /// The fault that strict code has with its spelling.
    pub legacy: Option<SyntaxError>,
    /// The text behind it.
    pub rest: &'a str,
}

impl<'a> Lexeme<'a> {
    /// The token alone.
    pub fn into_token(self) -> Token<'a>
        ensures { result ≡ self.entry.token }
    {
        let Lexeme {
            token,
            escaped: _,
            legacy: _,
            rest: _,
        } = self;
        token
    }
}

impl Drop for Lexeme<'_> {
    #[inline(always)]
    fn drop(self) {
        let Lexeme {
            token: _token,
            escaped: _,
            legacy: _,
            rest: _,
        } = self;
    }
}

/// The word that a token is.
fn word_in<'t, 'a>(token: &'t Token<'a>) -> Option<&'t Word<'a>>
    ensures { MatchOption result (spec.text_in (token_view token.now).content ≡ [])
        (λ word. spec.text_in (token_view token.now).content ≡ (word_view word.now).text) }
{
    match token {
        Token::Word(word) => Some(word),
        _ => None,
    }
}

impl Lexeme<'_> {
    ghost use Rattle.lex_pieces.specs.Words.{is_escaped_reserved};
    ghost use Rattle.lex_token.specs.Lexemes.{fault_in};

    /// Whether it is a reserved word of this context, with an escape.
    fn is_escaped_reserved(&self, context: Context) -> bool
        ensures { result ≡ is_escaped_reserved context (spec.text_in (token_view self.now.token).content) self.now.escaped }
    {
        match word_in(&self.token) {
            Some(word) => is_escaped_reserved(context, word, self.escaped),
            None => false,
        }
    }

    /// The fault that code of this context has with the spelling, if any: `EscapeInReservedWord` of a
    /// reserved word with an escape, which stands only where every word may, and in strict code that of
    /// an old form (ECMA-262, 12.7.2, 12.9.3.1 and 12.9.4.1).
    pub fn fault_in(&self, context: Context) -> Option<SyntaxError>
        ensures { result ≡ fault_in context (lexeme_view self.now) }
    {
        if self.is_escaped_reserved(context) {
            return Some(SyntaxError::EscapeInReservedWord);
        }
        if context.strict { self.legacy } else { None }
    }
}

/// A token that any code may have.
pub(crate) fn plain<'a>(token: Token<'a>, rest: &'a str) -> Lexeme<'a>
    ensures view { lexeme_view result ≡ spec.plain (token_view token.entry) }
    ensures token { result.token ≡ token.entry }
    ensures rest { result.rest.now ≡ rest.now }
{
    Lexeme {
        token,
        escaped: false,
        legacy: None,
        rest,
    }
}

/// The fault of a text with whose first character no token begins. `rest` follows that character.
#[cold]
pub(crate) fn stray(end: u32, text: &str, rest: &str) -> Error
    requires cut { spec.IsPast (chars text.now) (chars rest.now) }
    requires order { length rest.now ≤ length text.now }
    requires within { length text.now < end }
    ensures { spec.IsStray end (chars text.now) result }
{
    fault(end, text, rest, SyntaxError::UnexpectedChar)
}
