//! The common way of a step: where no template is open, a word without an escape or a punctuator, which open and close
//! nothing.
ghost use Rattle.std.specs.Prelude.{◌≡◌, ◌<◌, ◌≤◌, [], false, true, is_err, length, option_map, IfOk, OnOk, IfSome, IsErr, IsUtf8};
ghost use Rattle.std.specs.Str.{chars};
ghost use Rattle.base_token.specs.Tokens.{bare, word_token};
ghost use Rattle.base_token.specs.TokenViews.{token_kind_number};
ghost use Rattle.base_token.specs.Words.{word_of};
ghost use Rattle.lex_pieces.specs.Punctuators.{IsPunctuator};
ghost use Rattle.lex_literal.specs.Escapes.{begins};
ghost use Rattle.lex_literal.specs.Strings.{is_quote};
ghost use Rattle.lex_token.specs.Lexemes.{IsQuoted, string_spelled};
ghost use Rattle.lex_token.specs.Marks.{is_mark};
ghost use Rattle.lex_token.specs.declared.goal.LexicalGoal.TheVariants.{Div};
ghost use Rattle.lex_source.specs.Machine.{SameTold, shown_spot};
ghost use Rattle.lex_source.specs.Settings.{settings_in};
ghost use Rattle.lex_step_laws.specs.States as spec;
ghost use Rattle.lex_step_laws.specs.Steps.{IsRead, IsStep};
ghost use Rattle.ecma_lexer.specs.Kept.{KeepsAsAsked};
ghost use Rattle.ecma_lexer.specs.Lexer.{comments_in, is_full, keeps_comments, state_in};
ghost use Rattle.ecma_lexer.specs.Quick.{IsHanded, is_quiet_mark, passed};
ghost use Rattle.ecma_lexer.specs.Stepping.{Steps};

use crate::last::Last;
use crate::lexer::Lexer;
use crate::step::part;
use base_token::operator::{AssignOp, BinOpToken};
use base_token::token::TokenKind;
use base_token::{Error, Token, TokenAndSpan, Word};
use lex_literal::{StringLiteral, read_string};
use lex_pieces::characters::pop;
use lex_pieces::place::out_of_memory;
use lex_pieces::punctuator;
use lex_source::Ahead;
use lex_token::{LexicalGoal, mark_token};
use std::alloc::{AllocError, Global};

/// Whether a punctuator opens and closes nothing where nothing is open, and is no slash.
#[inline(always)]
fn is_quiet_mark(kind: TokenKind) -> bool
    ensures { result ≡ is_quiet_mark kind }
{
    !matches!(
        kind,
        TokenKind::BackQuote
            | TokenKind::BinOp(BinOpToken::Div)
            | TokenKind::AssignOp(AssignOp::DivAssign)
    )
}

/// The punctuator at the front of a text, and what follows it, where it opens and closes nothing and is no slash.
#[inline(always)]
pub(crate) fn quiet_mark<'a>(text: &'a str) -> Option<(TokenKind, &'a str)>
    ensures mark { IfSome result (λ x. IsPunctuator (chars text.now) x.0 (chars x.1.now) × (is_quiet_mark x.0 ≡ true)) }
    ensures rest { IfSome result (λ x. IsUtf8 x.1.now × (length x.1.now < length text.now)) }
{
    match punctuator(text) {
        Some((kind, rest)) if is_quiet_mark(kind) => Some((kind, rest)),
        _ => None,
    }
}

/// Whether a string begins a text.
#[inline(always)]
fn begins_string(text: &str) -> bool
    ensures { result ≡ begins is_quote (chars text.now) }
{
    match pop(text) {
        Some((c, _)) => c == '"' || c == '\'',
        None => false,
    }
}

/// The string at the front of a text, where one stands there with no escape that strict code bars.
#[inline(always)]
pub(crate) fn quiet_string<'a>(alloc: Global, text: &'a str, end: u32) -> Option<StringLiteral<'a>>
    requires { length text.now < end }
    ensures string { IfSome result (λ s. IsQuoted (chars text.now) (string_spelled s.value s.raw.now false) (chars s.rest.now)) }
    ensures rest { IfSome result (λ s. IsUtf8 s.rest.now × (length s.rest.now < length text.now)) }
{
    if !begins_string(text) {
        return None;
    }
    let Ok(literal) = read_string(alloc, text, end) else {
        return None;
    };
    if literal.legacy {
        return None;
    }
    Some(literal)
}

impl<'a> Lexer<'a> {
    /// Whether no template is open, and neither a slash nor a fault came last nor the text starts here.
    #[inline(always)]
    #[tactic(auto, using(crate::proofs::QuickLemmas::nil_of))]
    pub(crate) fn is_outside(&self) -> bool
        ensures last { result ≡ true → (state_in self.now).tokens.last ≡ spec.Other }
        ensures open { result ≡ true → (state_in self.now).settings.contexts ≡ [] }
    {
        matches!(self.text.last, Last::Other) && self.settings.contexts.is_empty()
    }

    /// Goes on behind a token that opens and closes nothing.
    #[inline(always)]
    fn pass(&mut self, line_break: bool, rest: &'a str)
        requires { length rest.now < self.old.text.end }
        ensures state { state_in self.new ≡ passed (state_in self.old) line_break (chars rest.now) }
        ensures full { is_full self.new ≡ is_full self.old }
        ensures kept { (comments_in self.new ≡ comments_in self.old) × (keeps_comments self.new ≡ keeps_comments self.old) }
        ensures told { SameTold (settings_in self.old.settings) (settings_in self.new.settings) }
    {
        self.text.last = Last::Other;
        self.text.rest = rest;
        self.text.had_line_break = line_break;
    }

    /// Hands out a word that is spelled without an escape: it stands at the front of the one text, and the other follows it.
    #[inline(always)]
    pub(crate) fn hand_word(
        &mut self,
        line_break: bool,
        name: &'a str,
        from: &str,
        rest: &'a str,
    ) -> Result<Option<TokenAndSpan<'a>>, Error>
        requires order { length rest.now ≤ length from.now }
        requires within { length from.now < self.old.text.end }
        ensures step { Steps (IsHanded line_break (word_token (word_of name.now)) (chars from.now) (chars rest.now) (state_in self.old)) result (state_in self.new) }
        ensures full { is_full self.new ≡ is_err result }
        ensures kept { (comments_in self.new ≡ comments_in self.old) × (keeps_comments self.new ≡ keeps_comments self.old) }
        ensures told { SameTold (settings_in self.old.settings) (settings_in self.new.settings) }
    {
        let span = part(self.text.end, from, rest);
        self.pass(line_break, rest);
        self.full = false;
        Ok(Some(TokenAndSpan {
            token: Token::Word(Word::from_str(name)),
            had_line_break: line_break,
            span,
        }))
    }

    /// Hands out a punctuator, in the same way.
    #[inline(always)]
    pub(crate) fn hand_mark(
        &mut self,
        line_break: bool,
        kind: TokenKind,
        from: &str,
        rest: &'a str,
    ) -> Result<Option<TokenAndSpan<'a>>, Error>
        requires mark { is_mark kind ≡ true }
        requires order { length rest.now ≤ length from.now }
        requires within { length from.now < self.old.text.end }
        ensures step { Steps (IsHanded line_break (bare (token_kind_number kind)) (chars from.now) (chars rest.now) (state_in self.old)) result (state_in self.new) }
        ensures full { is_full self.new ≡ is_err result }
        ensures kept { (comments_in self.new ≡ comments_in self.old) × (keeps_comments self.new ≡ keeps_comments self.old) }
        ensures told { SameTold (settings_in self.old.settings) (settings_in self.new.settings) }
    {
        let span = part(self.text.end, from, rest);
        self.pass(line_break, rest);
        self.full = false;
        Ok(Some(TokenAndSpan {
            token: mark_token(kind),
            had_line_break: line_break,
            span,
        }))
    }

    /// Puts a word that is spelled without an escape, in the same way.
    #[inline(always)]
    pub(crate) fn put_word(
        &mut self,
        line_break: bool,
        name: &'a str,
        from: &str,
        rest: &'a str,
        ahead: &mut Ahead<'a>,
    )
        requires order { length rest.now ≤ length from.now }
        requires within { length from.now < self.old.text.end }
        ensures step { IsHanded line_break (word_token (word_of name.now)) (chars from.now) (chars rest.now) (state_in self.old) ahead.new (state_in self.new) }
        ensures full { is_full self.new ≡ is_full self.old }
        ensures kept { (comments_in self.new ≡ comments_in self.old) × (keeps_comments self.new ≡ keeps_comments self.old) }
        ensures told { SameTold (settings_in self.old.settings) (settings_in self.new.settings) }
    {
        let span = part(self.text.end, from, rest);
        self.pass(line_break, rest);
        ahead.put_word(name, line_break, span);
    }

    /// Puts a punctuator, in the same way.
    #[inline(always)]
    #[tactic(auto, using(crate::proofs::QuickLemmas::mark_tells))]
    pub(crate) fn put_mark(
        &mut self,
        line_break: bool,
        kind: TokenKind,
        from: &str,
        rest: &'a str,
        ahead: &mut Ahead<'a>,
    )
        requires mark { is_mark kind ≡ true }
        requires order { length rest.now ≤ length from.now }
        requires within { length from.now < self.old.text.end }
        ensures step { IsHanded line_break (bare (token_kind_number kind)) (chars from.now) (chars rest.now) (state_in self.old) ahead.new (state_in self.new) }
        ensures full { is_full self.new ≡ is_full self.old }
        ensures kept { (comments_in self.new ≡ comments_in self.old) × (keeps_comments self.new ≡ keeps_comments self.old) }
        ensures told { SameTold (settings_in self.old.settings) (settings_in self.new.settings) }
    {
        let span = part(self.text.end, from, rest);
        self.pass(line_break, rest);
        ahead.put_mark(kind, line_break, span);
    }

    /// Puts a string in which no escape is one that strict code bars, in the same way.
    #[inline(always)]
    pub(crate) fn put_string(
        &mut self,
        line_break: bool,
        literal: StringLiteral<'a>,
        from: &str,
        ahead: &mut Ahead<'a>,
    )
        requires order { length literal.rest.now ≤ length from.now }
        requires within { length from.now < self.old.text.end }
        ensures step { IsHanded line_break (string_spelled literal.entry.value literal.entry.raw.now false).token (chars from.now) (chars literal.entry.rest.now) (state_in self.old) ahead.new (state_in self.new) }
        ensures full { is_full self.new ≡ is_full self.old }
        ensures kept { (comments_in self.new ≡ comments_in self.old) × (keeps_comments self.new ≡ keeps_comments self.old) }
        ensures told { SameTold (settings_in self.old.settings) (settings_in self.new.settings) }
    {
        let StringLiteral {
            value,
            legacy: _,
            raw,
            rest,
        } = literal;
        let span = part(self.text.end, from, rest);
        self.pass(line_break, rest);
        ahead.put_token(Token::Str { units: value, raw }, line_break, span);
    }

    /// Puts what stands behind trivia, outside of templates.
    ///
    /// # Errors
    ///
    /// Want of memory.
    #[inline(never)]
    pub(crate) fn put_behind(
        &mut self,
        line_break: bool,
        from: &'a str,
        ahead: &mut Ahead<'a>,
    ) -> Result<(), AllocError>
        requires within { length from.now < self.old.text.end }
        ensures step { OnOk result (IsRead Div line_break (chars from.now) (state_in self.old) ahead.new (state_in self.new)) }
        ensures full { is_full self.new ≡ is_err result }
        ensures kept { (comments_in self.new ≡ comments_in self.old) × (keeps_comments self.new ≡ keeps_comments self.old) }
        ensures told { SameTold (settings_in self.old.settings) (settings_in self.new.settings) }
    {
        match self.next_behind(line_break, from) {
            Ok(token) => {
                ahead.put(token);
                Ok(())
            }
            Err(_) => Err(AllocError),
        }
    }

    /// Puts the next token, of any kind.
    ///
    /// # Errors
    ///
    /// Want of memory.
    #[inline(never)]
    pub(crate) fn put_any(&mut self, ahead: &mut Ahead<'a>) -> Result<(), AllocError>
        ensures step { OnOk result (IsStep (state_in self.old) ahead.new (state_in self.new)) }
        ensures full { is_full self.new ≡ is_err result }
        ensures stays_full { is_full self.old ≡ true → IsErr result }
        ensures comments { OnOk result (KeepsAsAsked (keeps_comments self.old) (state_in self.old) ahead.new (comments_in self.old) (comments_in self.new)) }
        ensures keeps { keeps_comments self.new ≡ keeps_comments self.old }
        ensures told { SameTold (settings_in self.old.settings) (settings_in self.new.settings) }
    {
        match self.next_of_any() {
            Ok(token) => {
                ahead.put(token);
                Ok(())
            }
            Err(_) => Err(AllocError),
        }
    }

    /// What stands behind trivia, outside of templates.
    ///
    /// # Errors
    ///
    /// Want of memory.
    #[inline(never)]
    pub(crate) fn next_behind(
        &mut self,
        line_break: bool,
        from: &'a str,
    ) -> Result<Option<TokenAndSpan<'a>>, Error>
        requires within { length from.now < self.old.text.end }
        ensures step { Steps (IsRead Div line_break (chars from.now) (state_in self.old)) result (state_in self.new) }
        ensures full { is_full self.new ≡ is_err result }
        ensures kept { (comments_in self.new ≡ comments_in self.old) × (keeps_comments self.new ≡ keeps_comments self.old) }
        ensures told { SameTold (settings_in self.old.settings) (settings_in self.new.settings) }
    {
        let token = self.read(LexicalGoal::Div, line_break, from);
        self.full = token.is_err();
        token
    }

    /// The next token, of any kind.
    ///
    /// # Errors
    ///
    /// Want of memory.
    #[inline(never)]
    pub(crate) fn next_of_any(&mut self) -> Result<Option<TokenAndSpan<'a>>, Error>
        ensures step { Steps (IsStep (state_in self.old)) result (state_in self.new) }
        ensures full { is_full self.new ≡ is_err result }
        ensures stays_full { is_full self.old ≡ true → IsErr result }
        ensures comments { IfOk result (λ t. KeepsAsAsked (keeps_comments self.old) (state_in self.old) (option_map shown_spot t) (comments_in self.old) (comments_in self.new)) }
        ensures keeps { keeps_comments self.new ≡ keeps_comments self.old }
        ensures told { SameTold (settings_in self.old.settings) (settings_in self.new.settings) }
    {
        if self.full {
            return Err(out_of_memory());
        }
        let read = if self.keeps {
            self.advance_noting()
        } else {
            self.advance()
        };
        self.full = read.is_err();
        read
    }
}
