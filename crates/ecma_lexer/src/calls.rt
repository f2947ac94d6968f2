//! The lexer as a source of tokens.
ghost use Rattle.std.specs.Borrow.{sem};
ghost use Rattle.std.specs.Prelude.{◌≡◌, option_map, refl, IfErr, OnErr, OnOk};
ghost use Rattle.base_token.specs.declared.error.SyntaxError.TheVariants.{Memory};
ghost use Rattle.lex_source.specs.Contexts.{outward};
ghost use Rattle.lex_source.specs.Settings as spec;
ghost use Rattle.lex_step_laws.specs.States.{Text};
ghost use Rattle.ecma_lexer.specs.Lending.{lexer_with_open, LendsContexts};
ghost use Rattle.ecma_lexer.specs.Lexer.{SameKept, state_in};
ghost use Rattle.ecma_lexer.specs.Machine.{lexer_machine};

use crate::lexer::Lexer;
use base_token::{BytePos, Context, Error, EsVersion, Syntax, TokenAndSpan};
use lex_pieces::place::out_of_memory;
use lex_source::{Ahead, Look, TokenContexts, Tokens};
use std::alloc::AllocError;

impl<'a> Tokens<'a> for Lexer<'a> {
    ghost State = { Text };

    ghost machine = { lexer_machine };

    ghost state = { state_in };

    ghost with_open = { lexer_with_open };

    #[tactic(auto, using(crate::proofs::MachineLemmas::gives))]
    fn next(&mut self) -> Result<Option<TokenAndSpan<'a>>, Error> {
        Lexer::next(self)
    }

    #[inline(always)]
    #[tactic(auto, using(crate::proofs::MachineLemmas::puts))]
    fn next_into(&mut self, ahead: &mut Ahead<'a>) -> Result<(), AllocError> {
        Lexer::next_into(self, ahead)
    }

    fn look(&self, at: Look) -> Result<Option<TokenAndSpan<'a>>, Error> {
        Lexer::look(self, at)
    }

    fn try_clone(&self) -> Result<Self, Error> {
        Lexer::try_clone(self)
    }

    fn set_ctx(&mut self, ctx: Context)
        ensures state { state_in self.new ≡ record (state_in self.old) { settings = spec.with_ctx ctx (state_in self.old).settings } }
        ensures kept { SameKept self.old self.new }
    {
        self.settings.set_ctx(ctx);
    }

    fn ctx(&self) -> Context {
        self.settings.ctx
    }

    fn syntax(&self) -> Syntax {
        self.settings.syntax
    }

    fn target(&self) -> EsVersion {
        self.settings.target
    }

    fn start_pos(&self) -> BytePos {
        self.settings.start
    }

    // No token depends on it: a slash is a punctuator until it is asked for again.
    fn set_expr_allowed(&mut self, allowed: bool)
        ensures state { state_in self.new ≡ record (state_in self.old) { settings = spec.with_expr_allowed allowed (state_in self.old).settings } }
        ensures kept { SameKept self.old self.new }
    {
        self.settings.expr_allowed = allowed;
    }

    fn set_next_regexp(&mut self, place: Option<BytePos>)
        ensures state { state_in self.new ≡ record (state_in self.old) { settings = spec.with_next_regexp (option_map (λ p. p.0) place) (state_in self.old).settings } }
        ensures kept { SameKept self.old self.new }
    {
        self.settings.next_regexp = place;
    }

    fn token_context(&self) -> &TokenContexts {
        &self.settings.contexts
    }

    fn token_context_mut(&mut self) -> &mut TokenContexts
        ensures* writes_back { sem 𝓛 (LendsContexts self.entry result) }
        ensures value { outward result.now ≡ (state_in self.old).settings.contexts }
    {
        self.settings.contexts_mut()
    }

    fn set_token_context(&mut self, contexts: TokenContexts)
        ensures state { state_in self.new ≡ record (state_in self.old) { settings = spec.with_contexts (outward contexts) (state_in self.old).settings } }
        ensures kept { SameKept self.old self.new }
    {
        self.settings.contexts = contexts;
    }

    fn add_error(&mut self, error: Error) -> Result<(), Error>
        ensures added { OnOk result (state_in self.new ≡ record (state_in self.old) { settings = spec.with_error error (state_in self.old).settings }) }
        ensures unchanged { OnErr result (state_in self.new ≡ state_in self.old) }
        ensures full { IfErr result (λ e. e.kind ≡ Memory) }
        ensures kept { SameKept self.old self.new }
    {
        match self.settings.add_error(error) {
            Ok(()) => Ok(()),
            Err(_) => Err(out_of_memory()),
        }
    }

    fn add_module_mode_error(&mut self, error: Error) -> Result<(), Error>
        ensures added { OnOk result (state_in self.new ≡ record (state_in self.old) { settings = spec.with_module_error error (state_in self.old).settings }) }
        ensures unchanged { OnErr result (state_in self.new ≡ state_in self.old) }
        ensures full { IfErr result (λ e. e.kind ≡ Memory) }
        ensures kept { SameKept self.old self.new }
    {
        match self.settings.add_module_mode_error(error) {
            Ok(()) => Ok(()),
            Err(_) => Err(out_of_memory()),
        }
    }

    fn take_errors(&mut self) -> Vec<Error>
        ensures answer { result.items ≡ (state_in self.old).settings.recorded }
        ensures taken { state_in self.new ≡ record (state_in self.old) { settings = spec.without_errors (state_in self.old).settings } }
        ensures kept { SameKept self.old self.new }
    {
        self.settings.take_errors()
    }

    ghost opens = { λ x contexts. refl };
}
