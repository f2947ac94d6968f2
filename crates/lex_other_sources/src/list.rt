//! A list as a source of tokens.
ghost use Rattle.std.specs.Prelude.{◌≡◌, List, map, option_map, refl, reverse};
ghost use Rattle.std.specs.Borrow.{sem};
ghost use Rattle.base_token.specs.Tokens.{Spot};
ghost use Rattle.lex_source.specs.Contexts.{outward};
ghost use Rattle.lex_other_sources.specs.Lending.{list_with_open, ListLends};
ghost use Rattle.lex_source.specs.Machine.{shown_spot};
ghost use Rattle.lex_other_sources.specs.Lists.{list_in, list_machine, list_source, seen_in, start_of};

use crate::copies::{clone_token, clone_tokens};
use base_token::{BytePos, Context, Error, EsVersion, Syntax, TokenAndSpan};
use lex_source::settings::out_of_memory;
use lex_source::{Ahead, Look, Settings, TokenContexts, Tokens};
use std::alloc::{AllocError, Global};

/// A list of tokens as a source. Nothing that it is told changes what it hands out.
#[derive(Debug, Drop)]
pub struct TokensInput<'a> {
    alloc: Global,
    from_end: Vec<TokenAndSpan<'a>>,
    settings: Settings,
}

/// Where the first token begins.
fn start_of(tokens: &[TokenAndSpan<'_>]) -> BytePos
    ensures { result.0 ≡ start_of (map shown_spot tokens.now) }
{
    match tokens {
        [first, ..] => first.span.lo,
        [] => BytePos(0),
    }
}

/// The token that is looked at in a list that is kept from its end.
#[tactic(auto, using(crate::proofs::LookLemmas::looks))]
fn seen_in<'s, 'a>(from_end: &'s [TokenAndSpan<'a>], at: Look) -> Option<&'s TokenAndSpan<'a>>
    ensures { option_map (λ t. shown_spot t.now) result ≡ seen_in at (reverse (map shown_spot from_end.now)) }
{
    match at {
        Look::Next | Look::Slash(_) => from_end.last(),
        Look::Second => from_end.split_at(from_end.len().saturating_sub(1)).0.last(),
    }
}

impl<'a> TokensInput<'a> {
    #[tactic(auto, using(crate::proofs::ListLemmas::reverse_back))]
    /// A source of these tokens, in their order, in this code. It takes no memory.
    pub fn new(
        alloc: Global,
        tokens: Vec<TokenAndSpan<'a>>,
        ctx: Context,
        syntax: Syntax,
        target: EsVersion,
    ) -> TokensInput<'a>
        ensures { list_source result ≡ list_in (map shown_spot tokens.entry.items) ctx syntax target }
    {
        let start = start_of(tokens.as_slice());
        let mut settings = Settings::new(alloc, syntax, target, start);
        settings.set_ctx(ctx);
        let mut from_end = tokens;
        from_end.reverse();
        TokensInput {
            alloc,
            from_end,
            settings,
        }
    }
}

impl<'a> Tokens<'a> for TokensInput<'a> {
    ghost State = { List Spot };

    ghost machine = { list_machine };

    ghost state = { list_source };

    ghost with_open = { list_with_open };

    fn next(&mut self) -> Result<Option<TokenAndSpan<'a>>, Error> {
        Ok(self.from_end.pop())
    }

    fn next_into(&mut self, ahead: &mut Ahead<'a>) -> Result<(), AllocError> {
        ahead.put(self.from_end.pop());
        Ok(())
    }

    #[tactic(auto, using(crate::proofs::LookLemmas::looked))]
    fn look(&self, at: Look) -> Result<Option<TokenAndSpan<'a>>, Error> {
        let Some(token) = seen_in(self.from_end.as_slice(), at) else {
            return Ok(None);
        };
        let copy = clone_token(token).map_err(out_of_memory)?;
        Ok(Some(copy))
    }

    fn try_clone(&self) -> Result<Self, Error> {
        let settings = self.settings.try_clone().map_err(out_of_memory)?;
        let from_end = clone_tokens(self.alloc, self.from_end.as_slice()).map_err(out_of_memory)?;
        Ok(TokensInput {
            alloc: self.alloc,
            from_end,
            settings,
        })
    }

    fn set_ctx(&mut self, ctx: Context) {
        self.settings.set_ctx(ctx);
    }

    fn ctx(&self) -> Context {
        self.settings.ctx
    }

    fn syntax(&self) -> Syntax {
        self.settings.syntax
    }

    fn target(&self) -> EsVersion {
        self.settings.target
    }

    fn start_pos(&self) -> BytePos {
        self.settings.start
    }

    fn set_expr_allowed(&mut self, allowed: bool) {
        self.settings.expr_allowed = allowed;
    }

    fn set_next_regexp(&mut self, place: Option<BytePos>) {
        self.settings.next_regexp = place;
    }

    fn token_context(&self) -> &TokenContexts {
        &self.settings.contexts
    }

    fn token_context_mut(&mut self) -> &mut TokenContexts
        ensures* writes_back { sem 𝓛 (ListLends self.entry result) }
        ensures value { outward result.now ≡ (list_source self.old).settings.contexts }
    {
        self.settings.contexts_mut()
    }

    fn set_token_context(&mut self, contexts: TokenContexts) {
        self.settings.contexts = contexts;
    }

    fn add_error(&mut self, error: Error) -> Result<(), Error> {
        self.settings.add_error(error).map_err(out_of_memory)
    }

    fn add_module_mode_error(&mut self, error: Error) -> Result<(), Error> {
        self.settings
            .add_module_mode_error(error)
            .map_err(out_of_memory)
    }

    fn take_errors(&mut self) -> Vec<Error> {
        self.settings.take_errors()
    }

    ghost opens = { λ x contexts. refl };
}
