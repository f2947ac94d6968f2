//! The lexer of a text.
ghost use Rattle.std.specs.Prelude.{◌≡◌, ◌<◌, ◌+◌, ◌^◌, false, is_err, length, option_map, true, IfErr, IfOk, IsErr, OnOk};

use crate::last::Last;
use crate::quick::{quiet_mark, quiet_string};
use crate::step::goal_of;
use crate::unread::Unread;
use base_token::{BytePos, Error, EsVersion, Syntax, TokenAndSpan};
use lex_comments::Comments;
use lex_pieces::bare_name;
use lex_pieces::place::out_of_memory;
use lex_pieces::trivia::skip_trivia;
use lex_source::{Ahead, Settings};
use std::alloc::{AllocError, Global};

/// A text that is read token after token.
#[derive(Drop)]
pub struct Lexer<'a> {
    pub(crate) alloc: Global,
    pub(crate) text: Unread<'a>,
    pub(crate) settings: Settings,
    pub(crate) full: bool,
    pub(crate) keeps: bool,
    pub(crate) comments: Comments,
}

impl<'a> Lexer<'a> {
    ghost use Rattle.std.specs.Str.{chars};
    ghost use Rattle.ecma_lexer.specs.Kept.{IsEmpty, IsUntouched, KeepsAsAsked};
    ghost use Rattle.ecma_lexer.specs.Lexer.{comments_in, is_full, keeps_comments, state_in};
    ghost use Rattle.ecma_lexer.specs.Stepping.{Steps};
    ghost use Rattle.lex_step_laws.specs.Bounds.{bound};
    ghost use Rattle.lex_step_laws.specs.Steps.{IsStep};
    ghost use Rattle.base_token.specs.declared.error.SyntaxError.TheVariants.{Memory};
    ghost use Rattle.lex_step_laws.specs.States.{at_start_of};
    ghost use Rattle.lex_source.specs.Machine.{SameTold, shown_spot};
    ghost use Rattle.lex_source.specs.Settings.{settings_in};

    /// A lexer at the start of a text, which begins at this place. It keeps the comments of the text where
    /// that is asked for.
    ///
    /// It requires a place of 1 or later, and that the place and the length of the text in bytes are together
    /// at most 4,294,967,295.
    pub fn new(
        alloc: Global,
        syntax: Syntax,
        target: EsVersion,
        text: &'a str,
        start: BytePos,
        keep_comments: bool,
    ) -> Lexer<'a>
        requires place { 0 < start.0 }
        requires fits { start.0 + length text.now < 2 ^ 32 }
        ensures state { state_in result ≡ at_start_of syntax target start.0 (chars text.now) (start.0 + length text.now) }
        ensures keeps { keeps_comments result ≡ keep_comments }
        ensures comments { IsEmpty (comments_in result) }
        ensures full { is_full result ≡ false }
    {
        Lexer {
            alloc,
            text: Unread {
                rest: text,
                end: start.0 + text.len() as u32,
                last: Last::Start,
                had_line_break: false,
            },
            settings: Settings::new(alloc, syntax, target, start),
            full: false,
            keeps: keep_comments,
            comments: Comments::new(alloc),
        }
    }

    /// Whether a line break stands before the token that was handed out last.
    pub fn had_line_break_before_last(&self) -> bool
        ensures { result ≡ (state_in self.now).tokens.line_break }
    {
        self.text.had_line_break
    }

    /// How many tokens may come at most: none behind a fault, else four for each character that is left, or for each from a slash on
    /// that may be read again, and some more.
    pub fn may_come(&self) -> u64
        ensures bound { result ≡ bound (state_in self.now).tokens }
        ensures fits { result < 2 ^ 35 }
    {
        self.text.may_come()
    }

    /// The next token, or nothing at the end. A fault of the text is an error token, and nothing comes
    /// behind it. What strict code has against the spelling of a token is recorded. Where comments are kept,
    /// each comment before the token, or before the end, is kept once: it trails the last token or leads
    /// what comes.
    ///
    /// # Errors
    ///
    /// Want of memory alone, and then from then on.
    pub fn next(&mut self) -> Result<Option<TokenAndSpan<'a>>, Error>
        ensures step { Steps (IsStep (state_in self.old)) result (state_in self.new) }
        ensures full { is_full self.new ≡ is_err result }
        ensures stays_full { is_full self.old ≡ true → IsErr result }
        ensures comments { IfOk result (λ t. KeepsAsAsked (keeps_comments self.old) (state_in self.old) (option_map shown_spot t) (comments_in self.old) (comments_in self.new)) }
        ensures keeps { keeps_comments self.new ≡ keeps_comments self.old }
        ensures told { SameTold (settings_in self.old.settings) (settings_in self.new.settings) }
    {
        if self.full || self.keeps || !self.is_outside() {
            return self.next_of_any();
        }
        let goal = goal_of(self.settings.ctx);
        let Ok((line_break, from)) = skip_trivia(self.text.end, goal, false, self.text.rest) else {
            return self.next_of_any();
        };
        if let Some((name, rest)) = bare_name(from) {
            return self.hand_word(line_break, name, from, rest);
        }
        if let Some((kind, rest)) = quiet_mark(from) {
            return self.hand_mark(line_break, kind, from, rest);
        }
        self.next_behind(line_break, from)
    }

    /// The same, where the token is made where it waits.
    ///
    /// # Errors
    ///
    /// Want of memory alone, and then from then on.
    #[inline(never)]
    pub fn next_into(&mut self, ahead: &mut Ahead<'a>) -> Result<(), AllocError>
        ensures step { OnOk result (IsStep (state_in self.old) ahead.new (state_in self.new)) }
        ensures full { is_full self.new ≡ is_err result }
        ensures stays_full { is_full self.old ≡ true → IsErr result }
        ensures comments { OnOk result (KeepsAsAsked (keeps_comments self.old) (state_in self.old) ahead.new (comments_in self.old) (comments_in self.new)) }
        ensures keeps { keeps_comments self.new ≡ keeps_comments self.old }
        ensures told { SameTold (settings_in self.old.settings) (settings_in self.new.settings) }
    {
        if self.full || self.keeps || !self.is_outside() {
            return self.put_any(ahead);
        }
        let goal = goal_of(self.settings.ctx);
        let Ok((line_break, from)) = skip_trivia(self.text.end, goal, false, self.text.rest) else {
            return self.put_any(ahead);
        };
        if let Some((name, rest)) = bare_name(from) {
            self.put_word(line_break, name, from, rest, ahead);
            return Ok(());
        }
        if let Some((kind, rest)) = quiet_mark(from) {
            self.put_mark(line_break, kind, from, rest, ahead);
            return Ok(());
        }
        if let Some(literal) = quiet_string(self.alloc, from, self.text.end) {
            self.put_string(line_break, literal, from, ahead);
            return Ok(());
        }
        self.put_behind(line_break, from, ahead)
    }

    /// A lexer that stands where this one stands, with the same comments. The text is shared.
    ///
    /// # Errors
    ///
    /// Want of memory.
    pub fn try_clone(&self) -> Result<Lexer<'a>, Error>
        ensures same { IfOk result (λ c. state_in c ≡ state_in self.now) }
        ensures full { IfOk result (λ c. is_full c ≡ is_full self.now) }
        ensures keeps { IfOk result (λ c. keeps_comments c ≡ keeps_comments self.now) }
        ensures comments { IfOk result (λ c. IsUntouched (comments_in self.now) (comments_in c)) }
        ensures memory { IfErr result (λ e. e.kind ≡ Memory) }
    {
        let comments: Result<Comments, AllocError> = self.comments.clone();
        match (self.settings.try_clone(), comments) {
            (Ok(settings), Ok(comments)) => Ok(Lexer {
                alloc: self.alloc,
                text: self.text.copied(),
                settings,
                full: self.full,
                keeps: self.keeps,
                comments,
            }),
            _ => Err(out_of_memory()),
        }
    }

    /// Takes the comments away that were kept so far. It takes no memory.
    pub fn take_comments(&mut self) -> Comments
        ensures answer { IsUntouched (comments_in self.old) result }
        ensures taken { IsEmpty (comments_in self.new) }
        ensures state { state_in self.new ≡ state_in self.old }
        ensures full { is_full self.new ≡ is_full self.old }
        ensures keeps { keeps_comments self.new ≡ keeps_comments self.old }
    {
        std::mem::replace(&mut self.comments, Comments::new(self.alloc))
    }
}
