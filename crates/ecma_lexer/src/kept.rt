//! The comments that a lexer keeps.
ghost use Rattle.std.specs.Prelude.{◌≡◌, ◌≤◌, ◌<◌, ℕ, [], map, option_map, length, true, false, IfErr, IfOk, MatchBool, is_none, OnOk, drop, take};
ghost use Rattle.std.specs.Str.{chars};
ghost use Rattle.base_token.specs.declared.error.SyntaxError.TheVariants.{Memory};
ghost use Rattle.lex_comments.specs.Comments.{IsSame, owned_comment};
ghost use Rattle.lex_comments.specs.Store.{leading_at, trailing_at};
ghost use Rattle.ecma_lexer.specs.Kept.{AreAdded, AreKept, AreLeft, ArePassed, AreThere, EndsSlash, PassesTrivia, lead_place};
ghost use Rattle.ecma_lexer.specs.Lexer.{state_in};
ghost use Rattle.ecma_lexer.specs.Stepping.{Steps};
ghost use Rattle.lex_step_laws.specs.States.{again};
ghost use Rattle.lex_step_laws.specs.Steps.{IsStep};
ghost use Rattle.lex_source.specs.Machine.{SameTold, shown_spot};
ghost use Rattle.lex_source.specs.Settings.{settings_in};

use crate::last::Last;
use crate::lexer::Lexer;
use crate::step::{goal_of, part, template_goal};
use base_token::{BytePos, Error, SyntaxError, TokenAndSpan};
use lex_comments::{Comment, Comments};
use lex_pieces::place::out_of_memory;
use lex_pieces::trivia::{Goal, Trivia, hashbang, trivia_piece};
use lex_pieces::{Comment as Read, collect_trivia, punctuator};
use std::alloc::{AllocError, Global};

/// Keeps comments as those that lead what begins at a place.
fn lead(
    alloc: Global,
    comments: &mut Comments,
    notes: &[Read<'_>],
    pos: BytePos,
) -> Result<(), AllocError>
    ensures leading { OnOk result (AreAdded (leading_at comments.old) (leading_at comments.new) pos.0 (map owned_comment notes.now)) }
    ensures trailing { IsSame (trailing_at comments.old) (trailing_at comments.new) }
{
    for note in notes {
        comments.add_leading(pos, Comment::read(alloc, note)?)?;
    }
    Ok(())
}

/// Keeps comments as those that trail what ends at a place.
fn trail(
    alloc: Global,
    comments: &mut Comments,
    notes: &[Read<'_>],
    pos: BytePos,
) -> Result<(), AllocError>
    ensures trailing { OnOk result (AreAdded (trailing_at comments.old) (trailing_at comments.new) pos.0 (map owned_comment notes.now)) }
    ensures leading { IsSame (leading_at comments.old) (leading_at comments.new) }
{
    for note in notes {
        comments.add_trailing(pos, Comment::read(alloc, note)?)?;
    }
    Ok(())
}

/// How many of the comments at the front of a text begin before its first line break.
fn on_this_line(end: u32, goal: Goal, text: &str) -> usize
    requires { length text.now < end }
{
    let mut rest = text;
    let mut count: usize = 0;
    while let Ok(Some((piece, more))) = trivia_piece(end, goal, false, rest) {
        if let Trivia::LineComment(_, _) | Trivia::BlockComment(_) = piece {
            count = count.saturating_add(1);
        }
        if piece.breaks_line() {
            break;
        }
        rest = more;
    }
    count
}

/// How many of so many comments trail the last token, where this many stand on its line.
fn trailing(is_start: bool, at_end: bool, on_this_line: usize, count: usize) -> usize
    ensures within { result ≤ count }
    ensures first { is_start ≡ true → result ≡ 0 }
    ensures last { is_start ≡ false → at_end ≡ true → result ≡ count }
{
    if is_start {
        0
    } else if at_end {
        count
    } else {
        on_this_line.min(count)
    }
}

/// Whether the text ended.
fn is_end(token: &Option<TokenAndSpan<'_>>) -> bool
    ensures { result ≡ is_none (option_map shown_spot token.now) }
{
    token.is_none()
}

/// Where comments lead: the place of the token that comes, or at the end the place behind the last one.
fn lead_place(token: &Option<TokenAndSpan<'_>>, behind: BytePos) -> BytePos
    ensures { result.0 ≡ lead_place (option_map shown_spot token.now) behind.0 }
{
    match token {
        Some(token) => token.span.lo,
        None => behind,
    }
}

/// Whether memory ran out.
fn is_memory(error: &Error) -> bool
    ensures { MatchBool result (error.now.kind ≡ Memory) (error.now.kind ≡ Memory → ⊥) }
{
    matches!(error.kind, SyntaxError::Memory)
}

impl<'a> Lexer<'a> {
    /// Whether the next step passes trivia.
    fn passes_trivia(&self) -> bool
        ensures { MatchBool result (PassesTrivia (state_in self.now)) (PassesTrivia (state_in self.now) → ⊥) }
    {
        if let Last::Fault = self.text.last {
            return false;
        }
        if self.again().is_some() {
            return false;
        }
        if template_goal(&self.settings.contexts, self.text.last).is_some() {
            return false;
        }
        !self.text.last.is_start() || hashbang(self.text.rest).is_none()
    }

    /// The comments of the trivia at the front of what is left.
    ///
    /// # Errors
    ///
    /// Want of memory.
    #[tactic(auto, using(crate::proofs::KeptLemmas::are_there))]
    fn notes_there(&self) -> Result<Vec<Read<'a>>, Error>
        ensures notes { IfOk result (λ v. AreThere (state_in self.now) v.items) }
        ensures full { IfErr result (λ e. e.kind ≡ Memory) }
    {
        let mut notes = Vec::new(self.alloc);
        let goal = goal_of(self.settings.ctx);
        let first = self.text.last.is_start();
        match collect_trivia(self.text.end, goal, first, self.text.rest, &mut notes) {
            Ok(_) => Ok(notes),
            Err(error) => {
                if is_memory(&error) {
                    return Err(error);
                }
                Ok(notes)
            }
        }
    }

    /// The comments that the next step passes.
    ///
    /// # Errors
    ///
    /// Want of memory.
    fn passed_notes(&self) -> Result<Vec<Read<'a>>, Error>
        ensures notes { IfOk result (λ v. ArePassed (state_in self.now) v.items) }
        ensures full { IfErr result (λ e. e.kind ≡ Memory) }
    {
        if self.passes_trivia() {
            self.notes_there()
        } else {
            Ok(Vec::new(self.alloc))
        }
    }

    /// Where the slash ends that the next step reads again.
    #[tactic(auto, using(crate::proofs::KeptLemmas::ends_slash))]
    fn behind_slash(&self) -> Option<BytePos>
        ensures { EndsSlash (again (state_in self.now)) self.now.text.end (option_map (λ p. p.0) result) }
    {
        let from = self.again()?;
        let (_, rest) = punctuator(from)?;
        Some(part(self.text.end, rest, "").lo)
    }

    /// Those that trail this place are kept no longer.
    fn withdraw(&mut self, behind_slash: Option<BytePos>)
        ensures trailing { AreLeft (option_map (λ p. p.0) behind_slash) (trailing_at self.old.comments) (trailing_at self.new.comments) }
        ensures leading { IsSame (leading_at self.old.comments) (leading_at self.new.comments) }
        ensures state { state_in self.new ≡ state_in self.old }
        ensures keeps { self.new.keeps ≡ self.old.keeps }
    {
        if let Some(pos) = behind_slash {
            drop(self.comments.take_trailing(pos));
        }
    }

    /// Keeps the comments that a step passed: so many of them trail the last token, which ends at this
    /// place, and the others lead what comes.
    fn keep(
        &mut self,
        notes: &[Read<'_>],
        trails: usize,
        behind: BytePos,
        lo: BytePos,
    ) -> Result<(), Error>
        requires { trails ≤ length notes.now }
        ensures trailing { OnOk result (AreAdded (trailing_at self.old.comments) (trailing_at self.new.comments) behind.0 (map owned_comment (take trails notes.now))) }
        ensures leading { OnOk result (AreAdded (leading_at self.old.comments) (leading_at self.new.comments) lo.0 (map owned_comment (drop trails notes.now))) }
        ensures full { IfErr result (λ e. e.kind ≡ Memory) }
        ensures state { state_in self.new ≡ state_in self.old }
        ensures keeps { self.new.keeps ≡ self.old.keeps }
    {
        let (own, others) = notes.split_at(trails);
        if trail(self.alloc, &mut self.comments, own, behind).is_err() {
            return Err(out_of_memory());
        }
        match lead(self.alloc, &mut self.comments, others, lo) {
            Ok(()) => Ok(()),
            Err(_) => Err(out_of_memory()),
        }
    }

    /// One step, whose comments are kept.
    pub(crate) fn advance_noting(&mut self) -> Result<Option<TokenAndSpan<'a>>, Error>
        ensures step { Steps (IsStep (state_in self.old)) result (state_in self.new) }
        ensures told { SameTold (settings_in self.old.settings) (settings_in self.new.settings) }
        ensures kept { IfOk result (λ t. AreKept (state_in self.old) (option_map shown_spot t) self.old.comments self.new.comments) }
        ensures keeps { self.new.keeps ≡ self.old.keeps }
    {
        let notes = self.passed_notes()?;
        let behind_slash = self.behind_slash();
        let is_start = self.text.last.is_start();
        let here = on_this_line(self.text.end, goal_of(self.settings.ctx), self.text.rest);
        let behind = part(self.text.end, self.text.rest, "").lo;
        let token = self.advance()?;
        let trails = trailing(is_start, is_end(&token), here, notes.len());
        let lo = lead_place(&token, behind);
        self.withdraw(behind_slash);
        self.keep(notes.as_slice(), trails, behind, lo)?;
        Ok(token)
    }
}
