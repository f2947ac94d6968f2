//! One step of a lexer.
ghost use Rattle.std.specs.Prelude.{◌≡◌, ◌≢◌, ◌++◌, ◌<◌, ◌≤◌, Ok, Some, length, option_map, IfErr, IfOk, IfSome, IsUtf8, MatchBool, OnErr, OnOk};
ghost use Rattle.std.specs.Str.{chars};
ghost use Rattle.base_token.specs.declared.error.SyntaxError.TheVariants.{Memory};
ghost use Rattle.base_token.specs.TokenViews.{token_view};
ghost use Rattle.lex_token.specs.Readings.{lexeme_view};
ghost use Rattle.lex_source.specs.Contexts.{outward};
ghost use Rattle.lex_source.specs.Machine.{SameTold, shown_spot};
ghost use Rattle.lex_source.specs.Settings.{settings_in};
ghost use Rattle.lex_step_laws.specs.States as spec;
ghost use Rattle.lex_step_laws.specs.Steps as steps;
ghost use Rattle.ecma_lexer.specs.Last.{last_view};
ghost use Rattle.ecma_lexer.specs.Lexer.{state_in};
ghost use Rattle.ecma_lexer.specs.Stepping.{IsTaken, Steps};

use crate::last::Last;
use crate::lexer::Lexer;
use base_token::{BytePos, Context, Error, Span, SyntaxError, Token, TokenAndSpan};
use lex_pieces::place::{out_of_memory, span};
use lex_pieces::trivia::{Goal, hashbang, skip_trivia};
use lex_source::{Settings, TokenContext, TokenContexts};
use lex_token::{Lexeme, LexicalGoal, read_token};
use std::alloc::AllocError;

/// The goal symbol of a text.
pub(crate) fn goal_of(ctx: Context) -> Goal
    ensures { result ≡ spec.goal_of ctx }
{
    if ctx.module_ {
        Goal::Module
    } else {
        Goal::Script
    }
}

/// The goal of what comes next inside a template.
pub(crate) fn template_goal(contexts: &TokenContexts, last: Last<'_>) -> Option<LexicalGoal>
    ensures { result ≡ spec.template_goal (outward contexts.now) (last_view last.entry) }
{
    match (contexts.current(), last) {
        (Some(TokenContext::Tpl), Last::Characters) => Some(LexicalGoal::TemplateEnd),
        (Some(TokenContext::Tpl), _) => Some(LexicalGoal::TemplateTail),
        _ => None,
    }
}

/// Enters and leaves what a token opens and closes.
fn follow(contexts: &mut TokenContexts, token: &Token<'_>) -> Result<(), AllocError>
    ensures { OnOk result (outward contexts.new ≡ spec.contexts_after (token_view token.now).kind (outward contexts.old)) }
{
    match token {
        Token::LBrace => open(contexts),
        Token::RBrace => {
            close(contexts);
            Ok(())
        }
        Token::BackQuote => quote(contexts),
        Token::DollarLBrace => contexts.push(TokenContext::TplQuasi),
        _ => Ok(()),
    }
}

/// Enters a brace, inside a template alone.
fn open(contexts: &mut TokenContexts) -> Result<(), AllocError>
    ensures { OnOk result (outward contexts.new ≡ spec.opened (outward contexts.old)) }
{
    match contexts.current() {
        Some(_) => contexts.push(TokenContext::BraceStmt),
        None => Ok(()),
    }
}

/// Leaves a brace or a `${`.
fn close(contexts: &mut TokenContexts)
    ensures { outward contexts.new ≡ spec.closed (outward contexts.old) }
{
    if let Some(
        TokenContext::BraceStmt | TokenContext::BraceExpr | TokenContext::TplQuasi,
    ) = contexts.current()
    {
        contexts.pop();
    }
}

/// Enters a template, or leaves it.
fn quote(contexts: &mut TokenContexts) -> Result<(), AllocError>
    ensures { OnOk result (outward contexts.new ≡ spec.quoted (outward contexts.old)) }
{
    match contexts.current() {
        Some(TokenContext::Tpl) => {
            contexts.pop();
            Ok(())
        }
        _ => contexts.push(TokenContext::Tpl),
    }
}

/// The part of a text from here up to there. Both run to the place `end`.
pub(crate) fn part(end: u32, from: &str, rest: &str) -> Span
    requires order { length rest.now ≤ length from.now }
    requires within { length from.now < end }
    ensures { result ≡ spec.span_at end (chars from.now) (chars rest.now) }
{
    span(end, from, rest)
}

/// Records what strict code has against the spelling of a token.
fn judge(settings: &mut Settings, legacy: Option<SyntaxError>, span: Span) -> Result<(), AllocError>
    ensures recorded { OnOk result (settings_in settings.new ≡ record (settings_in settings.old) {
      recorded = (settings_in settings.old).recorded ++ spec.strict_faults settings.old.ctx span legacy;
    }) }
    ensures unchanged { OnErr result (settings_in settings.new ≡ settings_in settings.old) }
{
    match legacy {
        Some(kind) if settings.ctx.strict && !settings.ctx.ignore_error => {
            settings.add_error(Error { span, kind })
        }
        _ => Ok(()),
    }
}

/// A hashbang as a token.
#[tactic(auto, using(crate::proofs::StepLemmas::shebang_is))]
fn shebang<'a>(own: &'a str, rest: &'a str) -> Lexeme<'a>
    ensures view { lexeme_view result ≡ spec.shebang (chars own.now) }
    ensures rest { result.rest.now ≡ rest.now }
{
    Lexeme {
        token: Token::Shebang(own),
        escaped: false,
        legacy: None,
        rest,
    }
}

/// Whether the text ends here, and no template is open.
fn ends(goal: LexicalGoal, from: &str) -> bool
    ensures { MatchBool result (steps.Ends goal (chars from.now)) (steps.Ends goal (chars from.now) → ⊥) }
{
    match goal {
        LexicalGoal::TemplateTail => false,
        _ => from.is_empty(),
    }
}

impl<'a> Lexer<'a> {
    /// The text of the slash that is to be read again.
    pub(crate) fn again(&self) -> Option<&'a str>
        ensures value { option_map (λ r. chars r.now) result ≡ spec.again (state_in self.now) }
        ensures fits { IfSome result (λ r. length r.now < self.now.text.end) }
    {
        let Last::Slash(from) = self.text.last else {
            return None;
        };
        let lo = part(self.text.end, from, "").lo;
        match self.settings.next_regexp {
            Some(place) if place.0 == lo.0 => Some(from),
            _ => None,
        }
    }

    /// Goes on behind a token, which stands at the front of this text.
    fn take(
        &mut self,
        lexeme: Lexeme<'a>,
        line_break: bool,
        from: &'a str,
    ) -> Result<Option<TokenAndSpan<'a>>, Error>
        requires order { length lexeme.rest.now ≤ length from.now }
        requires within { length from.now < self.old.text.end }
        ensures step { Steps (λ out new. IsTaken line_break (chars from.now) (lexeme_view lexeme.entry) (chars lexeme.entry.rest.now) (state_in self.old) out new) result (state_in self.new) }
        ensures kept { (self.new.comments ≡ self.old.comments) × (self.new.keeps ≡ self.old.keeps) }
        ensures told { SameTold (settings_in self.old.settings) (settings_in self.new.settings) }
    {
        let (legacy, rest) = (lexeme.legacy, lexeme.rest);
        let token = lexeme.into_token();
        let span = part(self.text.end, from, rest);
        if follow(&mut self.settings.contexts, &token).is_err() {
            return Err(out_of_memory());
        }
        if judge(&mut self.settings, legacy, span).is_err() {
            return Err(out_of_memory());
        }
        self.text.last = Last::after(&token, from);
        self.text.rest = rest;
        self.text.had_line_break = line_break;
        Ok(Some(TokenAndSpan {
            token,
            had_line_break: line_break,
            span,
        }))
    }

    /// Stops at a fault, which begins at this place.
    #[tactic(auto, using(crate::proofs::StepLemmas::nothing_left))]
    fn fail(&mut self, error: Error, line_break: bool, lo: BytePos) -> TokenAndSpan<'a>
        ensures spot { shown_spot result ≡ spec.faulty_from self.old.text.end line_break lo.0 }
        ensures state { state_in self.new ≡ spec.stopped (state_in self.old) line_break }
        ensures kept { (self.new.comments ≡ self.old.comments) × (self.new.keeps ≡ self.old.keeps) }
        ensures told { SameTold (settings_in self.old.settings) (settings_in self.new.settings) }
    {
        self.text.rest = "";
        self.text.last = Last::Fault;
        self.text.had_line_break = line_break;
        TokenAndSpan {
            token: Token::Error(error),
            had_line_break: line_break,
            span: Span {
                lo,
                hi: BytePos(self.text.end),
            },
        }
    }

    /// Reads what stands at the front of this text under a goal.
    pub(crate) fn read(
        &mut self,
        goal: LexicalGoal,
        line_break: bool,
        from: &'a str,
    ) -> Result<Option<TokenAndSpan<'a>>, Error>
        requires within { length from.now < self.old.text.end }
        ensures step { Steps (steps.IsRead goal line_break (chars from.now) (state_in self.old)) result (state_in self.new) }
        ensures kept { (self.new.comments ≡ self.old.comments) × (self.new.keeps ≡ self.old.keeps) }
        ensures told { SameTold (settings_in self.old.settings) (settings_in self.new.settings) }
    {
        if ends(goal, from) {
            self.text.rest = "";
            return Ok(None);
        }
        let lo = part(self.text.end, from, "").lo;
        match read_token(self.alloc, goal, from, self.text.end) {
            Ok(Some(lexeme)) => self.take(lexeme, line_break, from),
            Ok(None) => Ok(Some(self.fail(unterminated(lo), line_break, lo))),
            Err(error) if matches!(error.kind, SyntaxError::Memory) => Err(error),
            Err(error) => Ok(Some(self.fail(error, line_break, lo))),
        }
    }

    /// Passes trivia, and reads what stands behind it.
    fn plain(&mut self) -> Result<Option<TokenAndSpan<'a>>, Error>
        ensures step { Steps (steps.IsPlain (state_in self.old)) result (state_in self.new) }
        ensures kept { (self.new.comments ≡ self.old.comments) × (self.new.keeps ≡ self.old.keeps) }
        ensures told { SameTold (settings_in self.old.settings) (settings_in self.new.settings) }
    {
        let goal = goal_of(self.settings.ctx);
        match skip_trivia(
            self.text.end,
            goal,
            self.text.last.is_start(),
            self.text.rest,
        ) {
            Ok((broke, rest)) => self.read(LexicalGoal::Div, broke, rest),
            Err(error) => Ok(Some(self.fail(error, false, error.span.lo))),
        }
    }

    /// Reads what stands outside of templates: at the start of a text a hashbang first.
    fn outside(&mut self) -> Result<Option<TokenAndSpan<'a>>, Error>
        ensures step { Steps (steps.IsOutside (state_in self.old).tokens.last (state_in self.old)) result (state_in self.new) }
        ensures kept { (self.new.comments ≡ self.old.comments) × (self.new.keeps ≡ self.old.keeps) }
        ensures told { SameTold (settings_in self.old.settings) (settings_in self.new.settings) }
    {
        if self.text.last.is_start() {
            let from = self.text.rest;
            if let Some((own, rest)) = hashbang(from) {
                return self.take(shebang(own, rest), false, from);
            }
        }
        self.plain()
    }

    /// One step.
    pub(crate) fn advance(&mut self) -> Result<Option<TokenAndSpan<'a>>, Error>
        ensures step { Steps (steps.IsStep (state_in self.old)) result (state_in self.new) }
        ensures kept { (self.new.comments ≡ self.old.comments) × (self.new.keeps ≡ self.old.keeps) }
        ensures told { SameTold (settings_in self.old.settings) (settings_in self.new.settings) }
    {
        if let Last::Fault = self.text.last {
            return Ok(None);
        }
        if let Some(from) = self.again() {
            return self.read(LexicalGoal::RegExp, self.text.had_line_break, from);
        }
        match template_goal(&self.settings.contexts, self.text.last) {
            Some(goal) => self.read(goal, false, self.text.rest),
            None => self.outside(),
        }
    }
}

/// The fault of a template with no end.
#[cold]
fn unterminated(lo: BytePos) -> Error {
    Error {
        span: Span { lo, hi: lo },
        kind: SyntaxError::UnterminatedTpl,
    }
}
