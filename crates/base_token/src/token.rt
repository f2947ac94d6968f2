//! Tokens (ECMA-262, clause 12).
ghost use Rattle.std.specs.Prelude.{◌≡◌};

use crate::error::Error;
use crate::literal::Units;
use crate::operator::{AssignOp, BinOpToken};
use crate::place::{Span, Spanned};
use crate::word::{Word, WordKind};
use base_number::NumValue;
use std::borrow::CowStr;

/// A token. What it spells is borrowed from the text, and what it stands for too where no escape and no
/// separator is in it.
#[derive(Clone, Debug, Drop)]
pub enum Token<'a> {
    /// A keyword, a word that is a value, or a name.
    Word(Word<'a>),
    /// `=>`
    Arrow,
    /// `#`
    Hash,
    /// `@`
    At,
    /// `.`
    Dot,
    /// `...`
    DotDotDot,
    /// `!`
    Bang,
    /// `(`
    LParen,
    /// `)`
    RParen,
    /// `[`
    LBracket,
    /// `]`
    RBracket,
    /// `{`
    LBrace,
    /// `}`
    RBrace,
    /// `;`
    Semi,
    /// `,`
    Comma,
    /// A back quote.
    BackQuote,
    /// A piece of a template between its marks: as it is spelled, and its units, or the fault of a bad escape.
    Template {
        raw: &'a str,
        cooked: Result<Units<'a>, Error>,
    },
    /// `:`
    Colon,
    /// A binary operator.
    BinOp(BinOpToken),
    /// An operator that assigns.
    AssignOp(AssignOp),
    /// `${`
    DollarLBrace,
    /// `?`
    QuestionMark,
    /// `++`
    PlusPlus,
    /// `--`
    MinusMinus,
    /// `~`
    Tilde,
    /// A string: its units, and as it is spelled with its quotes.
    Str {
        units: Units<'a>,
        raw: &'a str,
    },
    /// A regular expression: what stands between its slashes, and its flags.
    Regex(&'a str, &'a str),
    /// A number: its value, and as it is spelled.
    Num {
        value: NumValue,
        raw: &'a str,
    },
    /// A big integer: its radix and its digits as spelled without separators, and as it is spelled.
    BigInt {
        radix: u32,
        digits: CowStr<'a>,
        raw: &'a str,
    },
    /// What follows `#!` on the first line of a text.
    Shebang(&'a str),
    /// A fault of the text.
    Error(Error),
}

/// A token without what it spells.
#[derive(Clone, Copy, Debug, PartialEq, Eq, Hash)]
pub enum TokenKind {
    Word(WordKind),
    Arrow,
    Hash,
    At,
    Dot,
    DotDotDot,
    Bang,
    LParen,
    RParen,
    LBracket,
    RBracket,
    LBrace,
    RBrace,
    Semi,
    Comma,
    BackQuote,
    Template,
    Colon,
    BinOp(BinOpToken),
    AssignOp(AssignOp),
    DollarLBrace,
    QuestionMark,
    PlusPlus,
    MinusMinus,
    Tilde,
    Str,
    Regex,
    Num,
    BigInt,
    Shebang,
    Error,
}

/// A token, whether a line break stands before it, and its place.
#[derive(Clone, Debug)]
pub struct TokenAndSpan<'a> {
    pub token: Token<'a>,
    /// Whether a line break stands between it and the token before.
    pub had_line_break: bool,
    pub span: Span,
}

impl<'a> TokenAndSpan<'a> {
    /// The token alone.
    pub fn into_token(self) -> Token<'a>
        ensures { result ≡ self.entry.token }
    {
        let TokenAndSpan {
            token,
            had_line_break: _,
            span: _,
        } = self;
        token
    }
}

impl Drop for TokenAndSpan<'_> {
    #[inline(always)]
    fn drop(self) {
        let TokenAndSpan {
            token: _token,
            had_line_break: _,
            span: _,
        } = self;
    }
}

impl Spanned for TokenAndSpan<'_> {
    ghost span_of = { λ t. t.span };

    fn span(&self) -> Span {
        self.span
    }
}

impl Token<'_> {
    ghost use Rattle.base_token.specs.TokenViews.{token_view, token_kind_number};

    /// The token without what it spells.
    pub fn kind(&self) -> TokenKind
        ensures { token_kind_number result ≡ (token_view self.now).kind }
    {
        match self {
            Token::Word(word) => TokenKind::Word(word.kind()),
            Token::Arrow => TokenKind::Arrow,
            Token::Hash => TokenKind::Hash,
            Token::At => TokenKind::At,
            Token::Dot => TokenKind::Dot,
            Token::DotDotDot => TokenKind::DotDotDot,
            Token::Bang => TokenKind::Bang,
            Token::LParen => TokenKind::LParen,
            Token::RParen => TokenKind::RParen,
            Token::LBracket => TokenKind::LBracket,
            Token::RBracket => TokenKind::RBracket,
            Token::LBrace => TokenKind::LBrace,
            Token::RBrace => TokenKind::RBrace,
            Token::Semi => TokenKind::Semi,
            Token::Comma => TokenKind::Comma,
            Token::BackQuote => TokenKind::BackQuote,
            Token::Template { .. } => TokenKind::Template,
            Token::Colon => TokenKind::Colon,
            Token::BinOp(op) => TokenKind::BinOp(*op),
            Token::AssignOp(op) => TokenKind::AssignOp(*op),
            Token::DollarLBrace => TokenKind::DollarLBrace,
            Token::QuestionMark => TokenKind::QuestionMark,
            Token::PlusPlus => TokenKind::PlusPlus,
            Token::MinusMinus => TokenKind::MinusMinus,
            Token::Tilde => TokenKind::Tilde,
            Token::Str { .. } => TokenKind::Str,
            Token::Regex(_, _) => TokenKind::Regex,
            Token::Num { .. } => TokenKind::Num,
            Token::BigInt { .. } => TokenKind::BigInt,
            Token::Shebang(_) => TokenKind::Shebang,
            Token::Error(_) => TokenKind::Error,
        }
    }
}
