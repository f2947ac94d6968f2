//! Words and punctuators as tokens.

ghost use Rattle.std.specs.Prelude.{◌≡◌, ◌<◌, ◌≤◌, true, length, IfOk, IsUtf8};
ghost use Rattle.std.specs.Str.{chars};
ghost use Rattle.base_token.specs.TokenViews.{token_kind_number, token_view};
ghost use Rattle.base_token.specs.Tokens.{bare};
ghost use Rattle.lex_pieces.specs.Names.{IsNameFault, is_opening};
ghost use Rattle.lex_pieces.specs.Words.{name_bytes};
ghost use Rattle.lex_literal.specs.Escapes.{begins};
ghost use Rattle.lex_token.specs.Lexemes as spec;
ghost use Rattle.lex_token.specs.Marks.{is_mark};
ghost use Rattle.lex_token.specs.Readings.{ReadsAs, has_escape, lexeme_view};

use crate::lexeme::{Lexeme, plain, stray};
use base_token::token::TokenKind;
use base_token::{Error, Token};
use lex_pieces::words::word as word_of_name;
use lex_pieces::{Name, identifier_name, punctuator};
use std::alloc::Global;

/// Whether a name is spelled with an escape.
fn has_escape(name: &Name<'_>) -> bool
    ensures { result ≡ has_escape name.now }
{
    matches!(name, Name::Escaped(_))
}

/// A name as a token.
fn named<'a>(name: Name<'a>, rest: &'a str) -> Lexeme<'a>
    ensures view { lexeme_view result ≡ spec.word_spelled (name_bytes name.entry) (has_escape name.entry) }
    ensures rest { result.rest.now ≡ rest.now }
{
    let escaped = has_escape(&name);
    Lexeme {
        token: Token::Word(word_of_name(name)),
        escaped,
        legacy: None,
        rest,
    }
}

/// The word at the front of a text.
pub(crate) fn word(alloc: Global, text: &str, end: u32) -> Result<Lexeme<'_>, Error>
    requires begins { begins is_opening (chars text.now) ≡ true }
    requires within { length text.now < end }
    ensures word { ReadsAs spec.IsWord (IsNameFault end (chars text.now)) (chars text.now) result }
    ensures rest { IfOk result (λ l. IsUtf8 l.rest.now × (length l.rest.now ≤ length text.now)) }
{
    match identifier_name(alloc, end, text) {
        Ok(Some((name, rest))) => Ok(named(name, rest)),
        Ok(None) => unreachable!(),
        Err(error) => Err(error),
    }
}

/// The token of a punctuator's kind.
#[inline]
pub fn mark_token<'a>(kind: TokenKind) -> Token<'a>
    requires { is_mark kind ≡ true }
    ensures { token_view result ≡ bare (token_kind_number kind) }
{
    match kind {
        TokenKind::BinOp(op) => Token::BinOp(op),
        TokenKind::AssignOp(op) => Token::AssignOp(op),
        TokenKind::Arrow => Token::Arrow,
        TokenKind::Hash => Token::Hash,
        TokenKind::At => Token::At,
        TokenKind::Dot => Token::Dot,
        TokenKind::DotDotDot => Token::DotDotDot,
        TokenKind::Bang => Token::Bang,
        TokenKind::LParen => Token::LParen,
        TokenKind::RParen => Token::RParen,
        TokenKind::LBracket => Token::LBracket,
        TokenKind::RBracket => Token::RBracket,
        TokenKind::LBrace => Token::LBrace,
        TokenKind::RBrace => Token::RBrace,
        TokenKind::Semi => Token::Semi,
        TokenKind::Comma => Token::Comma,
        TokenKind::BackQuote => Token::BackQuote,
        TokenKind::Colon => Token::Colon,
        TokenKind::QuestionMark => Token::QuestionMark,
        TokenKind::PlusPlus => Token::PlusPlus,
        TokenKind::MinusMinus => Token::MinusMinus,
        TokenKind::Tilde => Token::Tilde,
        _ => unreachable!(),
    }
}

/// The punctuator at the front of a text. `behind` follows its first character.
pub(crate) fn mark<'a>(text: &'a str, behind: &str, end: u32) -> Result<Lexeme<'a>, Error>
    requires cut { spec.IsPast (chars text.now) (chars behind.now) }
    requires order { length behind.now ≤ length text.now }
    requires within { length text.now < end }
    ensures mark { ReadsAs spec.IsMark (spec.IsStray end (chars text.now)) (chars text.now) result }
    ensures rest { IfOk result (λ l. IsUtf8 l.rest.now × (length l.rest.now ≤ length text.now)) }
{
    match punctuator(text) {
        Some((kind, rest)) => Ok(plain(mark_token(kind), rest)),
        None => Err(stray(end, text, behind)),
    }
}
