//! The place where a token waits.
ghost use Rattle.std.specs.Prelude.{◌≡◌, is_none, option_map, true, None, Some, IfOk, MatchOption};
ghost use Rattle.base_token.specs.Tokens.{bare, word_token};
ghost use Rattle.base_token.specs.TokenViews.{token_kind_number, token_view};
ghost use Rattle.base_token.specs.Words.{word_of};
ghost use Rattle.lex_source.specs.Ahead as spec;
ghost use Rattle.lex_source.specs.Ahead.{is_bare, IsPlain};
ghost use Rattle.lex_source.specs.Machine.{shown_spot, told, without_fault};

use crate::kind_numbers::{kind_number, token_number, word_number};
use crate::kinds;
use base_token::{BytePos, Span, Token, TokenAndSpan, TokenKind, Word};
use std::alloc::AllocError;
use std::convert::AsStr;
use std::marker::Model;

/// In which form a token is kept.
#[derive(Clone, Copy, Debug)]
enum Form {
    /// No token waits: the end.
    Nothing,
    /// A word that is spelled without an escape, by its text.
    Word,
    /// A token that its kind tells.
    Mark(TokenKind),
    /// Any other, with what it holds.
    Held,
}

/// The place where the token waits that comes, or none at the end. It keeps the kind, the line break and the two places
/// of the token, and of what it holds no more than the text, unless the token is no word and no mark. So a token is made
/// where it waits, and asked for what it holds where that is needed. A contract sees the token, or none.
#[derive(Debug, Drop)]
pub struct Ahead<'a> {
    kind: u8,
    had_line_break: bool,
    lo: BytePos,
    hi: BytePos,
    form: Form,
    word: &'a str,
    held: Option<TokenAndSpan<'a>>,
}

impl<'a> Model for Ahead<'a> {
    ghost use Rattle.std.specs.Prelude.{◌≡◌, Option, true};
    ghost use Rattle.base_token.specs.Tokens.{Spot};
    ghost use Rattle.lex_source.specs.Ahead.{FitsIts, kept, marks_bare};

    ghost Value = { Option Spot };

    ghost view = { λ a. kept a.form a.word.now a.had_line_break a.lo.0 a.hi.0 a.held };

    ghost invariant = { λ a. FitsIts a.kind a.had_line_break a.lo.0 a.hi.0 (kept a.form a.word.now a.had_line_break a.lo.0 a.hi.0 a.held) × (marks_bare a.form ≡ true) };
}

/// The token that a kind tells.
fn bare_token<'a>(kind: TokenKind) -> Token<'a>
    requires { is_bare kind ≡ true }
    ensures { token_view result ≡ bare (token_kind_number kind) }
{
    match kind {
        TokenKind::BinOp(op) => Token::BinOp(op),
        TokenKind::AssignOp(op) => Token::AssignOp(op),
        TokenKind::Arrow => Token::Arrow,
        TokenKind::Hash => Token::Hash,
        TokenKind::At => Token::At,
        TokenKind::Dot => Token::Dot,
        TokenKind::DotDotDot => Token::DotDotDot,
        TokenKind::Bang => Token::Bang,
        TokenKind::LParen => Token::LParen,
        TokenKind::RParen => Token::RParen,
        TokenKind::LBracket => Token::LBracket,
        TokenKind::RBracket => Token::RBracket,
        TokenKind::LBrace => Token::LBrace,
        TokenKind::RBrace => Token::RBrace,
        TokenKind::Semi => Token::Semi,
        TokenKind::Comma => Token::Comma,
        TokenKind::BackQuote => Token::BackQuote,
        TokenKind::Colon => Token::Colon,
        TokenKind::DollarLBrace => Token::DollarLBrace,
        TokenKind::QuestionMark => Token::QuestionMark,
        TokenKind::PlusPlus => Token::PlusPlus,
        TokenKind::MinusMinus => Token::MinusMinus,
        TokenKind::Tilde => Token::Tilde,
        _ => unreachable!(),
    }
}

/// The same token once more.
///
/// # Errors
///
/// Want of memory, for a name, a string or a number that has a text of its own.
fn copy_of<'a>(token: &TokenAndSpan<'a>) -> Result<TokenAndSpan<'a>, AllocError>
    ensures { IfOk result (λ t. shown_spot t ≡ shown_spot token.now) }
{
    token.clone()
}

impl<'a> Ahead<'a> {
    /// With no token.
    fn empty() -> Ahead<'a>
        ensures { result ≡ None }
    {
        Ahead {
            kind: kinds::END,
            had_line_break: false,
            lo: BytePos(0),
            hi: BytePos(0),
            form: Form::Nothing,
            word: "",
            held: None,
        }
    }

    /// With a token, or with none.
    pub fn new(token: Option<TokenAndSpan<'a>>) -> Ahead<'a>
        ensures { result ≡ option_map shown_spot token.entry }
    {
        let mut ahead = Ahead::empty();
        ahead.put(token);
        ahead
    }

    /// Puts a token, or none, in the place of the one that waits.
    #[inline(never)]
    pub fn put(&mut self, token: Option<TokenAndSpan<'a>>)
        ensures { self.new ≡ option_map shown_spot token.entry }
    {
        match token {
            Some(token) => self.hold(token),
            None => self.clear(),
        }
    }

    /// Holds a token.
    #[inline(always)]
    fn hold(&mut self, token: TokenAndSpan<'a>)
        ensures { self.new ≡ Some (shown_spot token.entry) }
    {
        self.kind = token_number(&token.token);
        self.had_line_break = token.had_line_break;
        self.lo = token.span.lo;
        self.hi = token.span.hi;
        self.form = Form::Held;
        self.held = Some(token);
    }

    /// Lets go what the token holds that waits.
    #[inline(never)]
    fn clear(&mut self)
        ensures { self.new ≡ None }
    {
        self.kind = kinds::END;
        self.had_line_break = false;
        self.form = Form::Nothing;
        self.held = None;
    }

    /// Puts the word of a text, which is spelled without an escape.
    #[inline(always)]
    pub fn put_word(&mut self, text: &'a str, had_line_break: bool, span: Span)
        ensures { self.new ≡ Some (record { token = word_token (word_of text.now); line_break = had_line_break; lo = span.lo.0; hi = span.hi.0 }) }
    {
        if self.held.is_some() {
            self.clear();
        }
        self.kind = word_number(&Word::from_str(text));
        self.had_line_break = had_line_break;
        self.lo = span.lo;
        self.hi = span.hi;
        self.form = Form::Word;
        self.word = text;
    }

    /// Puts the token that a kind tells.
    #[inline(always)]
    pub fn put_mark(&mut self, kind: TokenKind, had_line_break: bool, span: Span)
        requires { is_bare kind ≡ true }
        ensures { self.new ≡ Some (record { token = bare (token_kind_number kind); line_break = had_line_break; lo = span.lo.0; hi = span.hi.0 }) }
    {
        if self.held.is_some() {
            self.clear();
        }
        self.kind = kind_number(kind);
        self.had_line_break = had_line_break;
        self.lo = span.lo;
        self.hi = span.hi;
        self.form = Form::Mark(kind);
    }

    /// Puts any token.
    #[inline(always)]
    pub fn put_token(&mut self, token: Token<'a>, had_line_break: bool, span: Span)
        ensures { self.new ≡ Some (record { token = told (token_view token.entry); line_break = had_line_break; lo = span.lo.0; hi = span.hi.0 }) }
    {
        self.hold(TokenAndSpan {
            token,
            had_line_break,
            span,
        });
    }

    /// The token that waits, or none.
    fn into_token(self) -> Option<TokenAndSpan<'a>>
        ensures { option_map shown_spot result ≡ self.entry }
    {
        let Ahead {
            kind: _,
            had_line_break,
            lo,
            hi,
            form,
            word,
            held,
        } = self;
        let token = match form {
            Form::Nothing => return None,
            Form::Word => Token::Word(Word::from_str(word)),
            Form::Mark(kind) => bare_token(kind),
            Form::Held => return held,
        };
        Some(TokenAndSpan {
            token,
            had_line_break,
            span: Span { lo, hi },
        })
    }

    /// Hands out the token that waits. None waits then.
    #[inline(never)]
    pub fn take(&mut self) -> Option<TokenAndSpan<'a>>
        ensures token { option_map shown_spot result ≡ self.old }
        ensures taken { self.new ≡ None }
    {
        std::mem::replace(self, Ahead::empty()).into_token()
    }

    /// The same token once more, or none.
    ///
    /// # Errors
    ///
    /// Want of memory, for a name, a string or a number that has a text of its own.
    pub fn try_clone(&self) -> Result<Ahead<'a>, AllocError>
        ensures { IfOk result (λ x. x ≡ self.now) }
    {
        let mut made = Ahead::empty();
        let span = Span {
            lo: self.lo,
            hi: self.hi,
        };
        match self.form {
            Form::Nothing => {}
            Form::Word => made.put_word(self.word, self.had_line_break, span),
            Form::Mark(kind) => made.put_mark(kind, self.had_line_break, span),
            Form::Held => {
                if let Some(token) = &self.held {
                    made.hold(copy_of(token)?);
                }
            }
        }
        Ok(made)
    }

    /// The number of the token's kind, or that of the end.
    #[inline(always)]
    pub fn kind(&self) -> u8
        ensures { result ≡ spec.kind_in self.now }
    {
        self.kind
    }

    /// Whether a line break stands before the token.
    #[inline(always)]
    pub fn breaks(&self) -> bool
        ensures { result ≡ spec.break_in self.now }
    {
        self.had_line_break
    }

    /// Whether no token waits.
    #[inline(always)]
    pub fn is_none(&self) -> bool
        ensures { result ≡ is_none self.now }
    {
        match self.form {
            Form::Nothing => true,
            Form::Word => false,
            Form::Mark(_) => false,
            Form::Held => self.held.is_none(),
        }
    }

    /// Where the token begins, or this place where none waits.
    #[inline(always)]
    #[tactic(auto, using(crate::proofs::AheadLemmas::ends))]
    pub fn lo(&self, last: BytePos) -> BytePos
        ensures { result.0 ≡ spec.lo_in last.0 self.now }
    {
        if self.is_none() { last } else { self.lo }
    }

    /// Where the token ends, or this place where none waits.
    #[inline(always)]
    #[tactic(auto, using(crate::proofs::AheadLemmas::ends))]
    pub fn hi(&self, last: BytePos) -> BytePos
        ensures { result.0 ≡ spec.hi_in last.0 self.now }
    {
        if self.is_none() { last } else { self.hi }
    }

    /// The text of the word that waits, or nothing.
    #[inline(always)]
    pub fn text(&self) -> &str
        ensures { result.now ≡ spec.word_in (spec.content_in self.now) }
    {
        match self.form {
            Form::Nothing => "",
            Form::Word => self.word,
            Form::Mark(_) => "",
            Form::Held => match &self.held {
                Some(token) => match &token.token {
                    Token::Word(word) => word.as_str(),
                    _ => "",
                },
                None => "",
            },
        }
    }

    /// The token that waits, where it was put whole. Of any other the kind and the text tell all.
    #[inline(always)]
    pub fn token(&self) -> Option<&Token<'a>>
        ensures { MatchOption result (IsPlain (spec.content_in self.now))
            (λ t. (spec.kind_in self.now ≡ (token_view t.now).kind) × (spec.content_in self.now ≡ without_fault (token_view t.now).content)) }
    {
        match self.form {
            Form::Nothing => None,
            Form::Word => None,
            Form::Mark(_) => None,
            Form::Held => match &self.held {
                Some(token) => Some(&token.token),
                None => None,
            },
        }
    }
}
