//! A source that keeps the tokens that another hands out.
ghost use Rattle.std.specs.Prelude.{◌≡◌, ◌<◌, ◌≤◌, ◌==◌, ◌||◌, [], map, option_map, IfErr, IfOk, MatchOption, OnErr, OnOk, Some};
ghost use Rattle.std.specs.Borrow.{sem};
ghost use Rattle.base_token.specs.Kinds.{div_kind, div_assign_kind};
ghost use Rattle.base_token.specs.OperatorKinds.{bin_op_kind, assign_op_kind};
ghost use Rattle.base_token.specs.TokenViews.{token_view};
ghost use Rattle.base_token.specs.declared.error.SyntaxError.TheVariants.{Memory};
ghost use Rattle.lex_source.specs.Contexts.{outward};
ghost use Rattle.lex_source.specs.Machine.{IsPut, SameTold, StepGives, shown_spot};
ghost use Rattle.lex_source.specs.Settings as spec;
ghost use Rattle.lex_other_sources.specs.Captures.{captured_as, captured_with, is_slash_at, without_reread};
ghost use Rattle.lex_other_sources.specs.Lending.{capturing_with_open, CapturingLends};

use crate::copies::{clone_token, clone_tokens};
use base_token::{
    AssignOp, BinOpToken, BytePos, Context, Error, EsVersion, Syntax, Token, TokenAndSpan,
};
use lex_source::settings::out_of_memory;
use lex_source::{Ahead, Look, TokenContexts, Tokens};
use std::alloc::{AllocError, Global};

/// A source of tokens that keeps each token that it hands out. What a slash is when it is read again takes
/// the place of its first reading. A clone copies what is kept.
#[derive(Debug, Drop)]
pub struct Capturing<'a, I> {
    alloc: Global,
    input: I,
    captured: Vec<TokenAndSpan<'a>>,
}

/// Whether an operator is a division.
fn is_div(op: BinOpToken) -> bool
    ensures { result ≡ (bin_op_kind op == div_kind) }
{
    matches!(op, BinOpToken::Div)
}

/// Whether an operator divides what it assigns to.
fn is_div_assign(op: AssignOp) -> bool
    ensures { result ≡ (assign_op_kind op == div_assign_kind) }
{
    matches!(op, AssignOp::DivAssign)
}

/// Whether a token is a slash.
fn is_slash(token: &Token<'_>) -> bool
    ensures { result ≡ ((token_view token.now).kind == div_kind || (token_view token.now).kind == div_assign_kind) }
{
    match token {
        Token::BinOp(op) => is_div(*op),
        Token::AssignOp(op) => is_div_assign(*op),
        _ => false,
    }
}

/// Whether a token is a slash that begins at this place.
fn is_slash_at(token: &TokenAndSpan<'_>, lo: BytePos) -> bool
    ensures { result ≡ is_slash_at lo.0 (shown_spot token.now) }
{
    is_slash(&token.token) && token.span.lo.0 == lo.0
}

/// Leaves the last token where it is a slash at this place, since it is read again.
///
/// # Errors
///
/// Want of memory.
#[tactic(auto, using(crate::proofs::CaptureLemmas::last_kept, crate::proofs::CaptureLemmas::last_left))]
fn leave_reread(captured: &mut Vec<TokenAndSpan<'_>>, lo: BytePos) -> Result<(), AllocError>
    ensures { OnOk result (map shown_spot captured.new.items ≡ without_reread lo.0 (map shown_spot captured.old.items)) }
{
    let Some(last) = captured.pop() else {
        return Ok(());
    };
    if !is_slash_at(&last, lo) {
        captured.push(last)?;
    }
    Ok(())
}

/// Keeps a copy of a token that comes.
///
/// # Errors
///
/// Want of memory.
fn keep<'a>(
    captured: &mut Vec<TokenAndSpan<'a>>,
    token: &TokenAndSpan<'a>,
) -> Result<(), AllocError>
    ensures { OnOk result (map shown_spot captured.new.items ≡ captured_with (Some token.now) (map shown_spot captured.old.items)) }
{
    leave_reread(captured, token.span.lo)?;
    captured.push(clone_token(token)?)?;
    Ok(())
}

impl<'a, I: Tokens<'a> + Drop> Capturing<'a, I> {
    /// Keeps nothing yet. It takes no memory.
    pub fn new(alloc: Global, input: I) -> Capturing<'a, I>
        ensures input { I.state result.input ≡ I.state input }
        ensures captured { result.captured.items ≡ [] }
    {
        Capturing {
            alloc,
            input,
            captured: Vec::new(alloc),
        }
    }

    /// The tokens that were handed out.
    pub fn tokens(&self) -> &[TokenAndSpan<'a>]
        ensures { result.now ≡ self.now.captured.items }
    {
        self.captured.as_slice()
    }

    /// The same, taken away. It takes no memory.
    pub fn take(&mut self) -> Vec<TokenAndSpan<'a>>
        ensures answer { result.items ≡ self.old.captured.items }
        ensures taken { self.new.captured.items ≡ [] }
        ensures input { I.state self.new.input ≡ I.state self.old.input }
    {
        std::mem::replace(&mut self.captured, Vec::new(self.alloc))
    }
}

impl<'a, I: Tokens<'a> + Drop> Tokens<'a> for Capturing<'a, I> {
    ghost State = { I.State };

    ghost machine = { I.machine };

    ghost state = { λ x. I.state x.input };

    ghost with_open = { capturing_with_open I.with_open };

    fn next(&mut self) -> Result<Option<TokenAndSpan<'a>>, Error>
        ensures value { StepGives result (I.machine.step (I.state self.old.input)) (I.state self.new.input) }
        ensures falls { IfOk result (λ t. MatchOption t (I.machine.bound (I.state self.new.input).tokens ≤ I.machine.bound (I.state self.old.input).tokens)
            (λ _. I.machine.bound (I.state self.new.input).tokens < I.machine.bound (I.state self.old.input).tokens)) }
        ensures told { SameTold (I.state self.old.input).settings (I.state self.new.input).settings }
        ensures captured { IfOk result (λ t. map shown_spot self.new.captured.items ≡ captured_with t (map shown_spot self.old.captured.items)) }
    {
        let Some(token) = self.input.next()? else {
            return Ok(None);
        };
        keep(&mut self.captured, &token).map_err(out_of_memory)?;
        Ok(Some(token))
    }

    fn next_into(&mut self, ahead: &mut Ahead<'a>) -> Result<(), AllocError>
        ensures value { OnOk result (IsPut ahead.new (I.machine.step (I.state self.old.input)) (I.state self.new.input)) }
        ensures falls { OnOk result (MatchOption ahead.new (I.machine.bound (I.state self.new.input).tokens ≤ I.machine.bound (I.state self.old.input).tokens)
            (λ _. I.machine.bound (I.state self.new.input).tokens < I.machine.bound (I.state self.old.input).tokens)) }
        ensures told { SameTold (I.state self.old.input).settings (I.state self.new.input).settings }
        ensures captured { OnOk result (map shown_spot self.new.captured.items ≡ captured_as ahead.new (map shown_spot self.old.captured.items)) }
    {
        match self.next() {
            Ok(token) => {
                ahead.put(token);
                Ok(())
            }
            Err(_) => Err(AllocError),
        }
    }

    fn look(&self, at: Look) -> Result<Option<TokenAndSpan<'a>>, Error> {
        self.input.look(at)
    }

    fn try_clone(&self) -> Result<Self, Error>
        ensures same { IfOk result (λ c. I.state c.input ≡ I.state self.now.input) }
        ensures full { IfErr result (λ e. e.kind ≡ Memory) }
        ensures captured { IfOk result (λ c. map shown_spot c.captured.items ≡ map shown_spot self.now.captured.items) }
    {
        let captured = clone_tokens(self.alloc, self.captured.as_slice()).map_err(out_of_memory)?;
        let input = self.input.try_clone()?;
        Ok(Capturing {
            alloc: self.alloc,
            input,
            captured,
        })
    }

    fn set_ctx(&mut self, ctx: Context)
        ensures state { I.state self.new.input ≡ record (I.state self.old.input) { settings = spec.with_ctx ctx (I.state self.old.input).settings } }
        ensures captured { self.new.captured.items ≡ self.old.captured.items }
    {
        self.input.set_ctx(ctx);
    }

    fn ctx(&self) -> Context {
        self.input.ctx()
    }

    fn syntax(&self) -> Syntax {
        self.input.syntax()
    }

    fn target(&self) -> EsVersion {
        self.input.target()
    }

    fn start_pos(&self) -> BytePos {
        self.input.start_pos()
    }

    fn set_expr_allowed(&mut self, allowed: bool)
        ensures state { I.state self.new.input ≡ record (I.state self.old.input) { settings = spec.with_expr_allowed allowed (I.state self.old.input).settings } }
        ensures captured { self.new.captured.items ≡ self.old.captured.items }
    {
        self.input.set_expr_allowed(allowed);
    }

    fn set_next_regexp(&mut self, place: Option<BytePos>)
        ensures state { I.state self.new.input ≡ record (I.state self.old.input) { settings = spec.with_next_regexp (option_map (λ p. p.0) place) (I.state self.old.input).settings } }
        ensures captured { self.new.captured.items ≡ self.old.captured.items }
    {
        self.input.set_next_regexp(place);
    }

    fn token_context(&self) -> &TokenContexts {
        self.input.token_context()
    }

    fn token_context_mut(&mut self) -> &mut TokenContexts
        ensures* writes_back { sem 𝓛 (CapturingLends I.row I.with_open self.entry result) }
        ensures value { outward result.now ≡ (I.state self.old.input).settings.contexts }
    {
        self.input.token_context_mut()
    }

    fn set_token_context(&mut self, contexts: TokenContexts)
        ensures state { I.state self.new.input ≡ record (I.state self.old.input) { settings = spec.with_contexts (outward contexts) (I.state self.old.input).settings } }
        ensures captured { self.new.captured.items ≡ self.old.captured.items }
    {
        self.input.set_token_context(contexts);
    }

    fn add_error(&mut self, error: Error) -> Result<(), Error>
        ensures added { OnOk result (I.state self.new.input ≡ record (I.state self.old.input) { settings = spec.with_error error (I.state self.old.input).settings }) }
        ensures unchanged { OnErr result (I.state self.new.input ≡ I.state self.old.input) }
        ensures full { IfErr result (λ e. e.kind ≡ Memory) }
        ensures captured { self.new.captured.items ≡ self.old.captured.items }
    {
        self.input.add_error(error)
    }

    fn add_module_mode_error(&mut self, error: Error) -> Result<(), Error>
        ensures added { OnOk result (I.state self.new.input ≡ record (I.state self.old.input) { settings = spec.with_module_error error (I.state self.old.input).settings }) }
        ensures unchanged { OnErr result (I.state self.new.input ≡ I.state self.old.input) }
        ensures full { IfErr result (λ e. e.kind ≡ Memory) }
        ensures captured { self.new.captured.items ≡ self.old.captured.items }
    {
        self.input.add_module_mode_error(error)
    }

    fn take_errors(&mut self) -> Vec<Error>
        ensures answer { result.items ≡ (I.state self.old.input).settings.recorded }
        ensures taken { I.state self.new.input ≡ record (I.state self.old.input) { settings = spec.without_errors (I.state self.old.input).settings } }
        ensures captured { self.new.captured.items ≡ self.old.captured.items }
    {
        self.input.take_errors()
    }

    ghost opens = { λ x. I.opens x.input };
}
