//! Sources of tokens.
ghost use Rattle.std.specs.Prelude.{◌≡◌, ◌<◌, ◌≤◌, option_map, IfErr, IfOk, MatchOption, MatchResult, OnErr, OnOk};
ghost use Rattle.std.specs.Borrow.{Lends, sem};
ghost use Rattle.base_token.specs.declared.error.SyntaxError.TheVariants.{Memory};
ghost use Rattle.lex_source.specs.Contexts.{outward};
ghost use Rattle.lex_source.specs.Looks.{seen};
ghost use Rattle.lex_source.specs.Machine.{IsPut, Machine, SameTold, Source, StepGives, shown_spot};
ghost use Rattle.lex_source.specs.Settings as spec;
ghost use Rattle.lex_source.specs.contracts.contexts.TokenContexts.{the_row as contexts_row};

use crate::ahead::Ahead;
use crate::contexts::TokenContexts;
use crate::look::Look;
use base_token::{BytePos, Context, Error, EsVersion, Syntax, TokenAndSpan};
use std::alloc::AllocError;

/// A source of tokens. It is told of the code around the next token, and records faults.
pub trait Tokens<'a> {
    ghost use Rattle.lex_source.specs.declared.contexts.TokenContexts.{TokenContexts};

    /// The form in which a source keeps its tokens.
    ghost State: { Type 0 };

    /// How sources of this type go on, and that their end stays the end (`Machine.end_stays`).
    ghost machine: { Machine State };

    /// A source at one moment.
    ghost state: { Self → Source State };

    /// A source once other token contexts were left behind the loan of `token_context_mut`.
    ghost with_open: { Self → TokenContexts → Self };

    /// The next token, or nothing at the end. Behind the end nothing comes and nothing changes, while no
    /// slash is asked for and no token contexts are set, whatever else is told: `machine.end_stays`.
    ///
    /// # Errors
    ///
    /// Want of memory alone. Faults of the text are tokens of their own, or are recorded.
    fn next(&mut self) -> Result<Option<TokenAndSpan<'a>>, Error>
        ensures value { StepGives result (machine.step (state self.old)) (state self.new) }
        ensures falls { IfOk result (λ t. MatchOption t (machine.bound (state self.new).tokens ≤ machine.bound (state self.old).tokens)
            (λ _. machine.bound (state self.new).tokens < machine.bound (state self.old).tokens)) }
        ensures told { SameTold (state self.old).settings (state self.new).settings };

    /// The same, where the token is made where it waits: in the place of the one that waited there.
    ///
    /// # Errors
    ///
    /// Want of memory alone.
    fn next_into(&mut self, ahead: &mut Ahead<'a>) -> Result<(), AllocError>
        ensures value { OnOk result (IsPut ahead.new (machine.step (state self.old)) (state self.new)) }
        ensures falls { OnOk result (MatchOption ahead.new (machine.bound (state self.new).tokens ≤ machine.bound (state self.old).tokens)
            (λ _. machine.bound (state self.new).tokens < machine.bound (state self.old).tokens)) }
        ensures told { SameTold (state self.old).settings (state self.new).settings };

    /// A token that comes, without going on: nothing changes. It takes no more time for what was handed out,
    /// kept and recorded so far.
    ///
    /// # Errors
    ///
    /// Want of memory.
    fn look(&self, at: Look) -> Result<Option<TokenAndSpan<'a>>, Error>
        ensures { MatchResult result (λ t. option_map shown_spot t ≡ seen machine.step at (state self.now)) (λ e. e.kind ≡ Memory) };

    /// A source that stands where this one stands.
    ///
    /// # Errors
    ///
    /// Want of memory.
    fn try_clone(&self) -> Result<Self, Error>
    where
        Self: Sized,
        ensures same { IfOk result (λ c. state c ≡ state self.now) }
        ensures full { IfErr result (λ e. e.kind ≡ Memory) };

    /// Tells of the code around the next token. In a module the faults that waited are recorded.
    fn set_ctx(&mut self, ctx: Context)
        ensures { state self.new ≡ record (state self.old) { settings = spec.with_ctx ctx (state self.old).settings } };

    /// The code around the next token.
    fn ctx(&self) -> Context
        ensures { result ≡ (state self.now).settings.ctx };

    /// The dialect.
    fn syntax(&self) -> Syntax
        ensures { result ≡ (state self.now).settings.syntax };

    /// The edition that the text is written for.
    fn target(&self) -> EsVersion
        ensures { result ≡ (state self.now).settings.target };

    /// The place at which the text starts.
    fn start_pos(&self) -> BytePos
        ensures { result.0 ≡ (state self.now).settings.start };

    /// Tells whether an expression may come next.
    fn set_expr_allowed(&mut self, allowed: bool)
        ensures { state self.new ≡ record (state self.old) { settings = spec.with_expr_allowed allowed (state self.old).settings } };

    /// Asks for the slash at this place, the last token that was handed out, to be read again as a
    /// regular expression; or withdraws that.
    fn set_next_regexp(&mut self, place: Option<BytePos>)
        ensures { state self.new ≡ record (state self.old) { settings = spec.with_next_regexp (option_map (λ p. p.0) place) (state self.old).settings } };

    /// What encloses the next token.
    fn token_context(&self) -> &TokenContexts
        ensures { outward result.now ≡ (state self.now).settings.contexts };

    /// The same, to change it. Once the loan is over, other token contexts are all that changed: `with_open`.
    fn token_context_mut(&mut self) -> &mut TokenContexts
        ensures* writes_back { sem 𝓛 (Lends Self.row contexts_row self.entry result (with_open self.old)) }
        ensures value { outward result.now ≡ (state self.old).settings.contexts };

    /// Tells what encloses the next token.
    fn set_token_context(&mut self, contexts: TokenContexts)
        ensures { state self.new ≡ record (state self.old) { settings = spec.with_contexts (outward contexts) (state self.old).settings } };

    /// Records a fault.
    ///
    /// # Errors
    ///
    /// Want of memory. Nothing changes then.
    fn add_error(&mut self, error: Error) -> Result<(), Error>
        ensures added { OnOk result (state self.new ≡ record (state self.old) { settings = spec.with_error error (state self.old).settings }) }
        ensures unchanged { OnErr result (state self.new ≡ state self.old) }
        ensures full { IfErr result (λ e. e.kind ≡ Memory) };

    /// Records a fault that modules alone have. It waits until the context says module.
    ///
    /// # Errors
    ///
    /// Want of memory. Nothing changes then.
    fn add_module_mode_error(&mut self, error: Error) -> Result<(), Error>
        ensures added { OnOk result (state self.new ≡ record (state self.old) { settings = spec.with_module_error error (state self.old).settings }) }
        ensures unchanged { OnErr result (state self.new ≡ state self.old) }
        ensures full { IfErr result (λ e. e.kind ≡ Memory) };

    /// Takes the recorded faults away, in order. Those that wait stay. It takes no memory.
    fn take_errors(&mut self) -> Vec<Error>
        ensures answer { result.items ≡ (state self.old).settings.recorded }
        ensures taken { state self.new ≡ record (state self.old) { settings = spec.without_errors (state self.old).settings } };

    /// Of what contracts see, other token contexts change the settings alone.
    ghost opens: { (x : Self) (contexts : TokenContexts) → state (with_open x contexts) ≡ record (state x) { settings = spec.with_contexts (outward contexts) (state x).settings } };
}
