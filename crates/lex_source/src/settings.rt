//! What every source of tokens keeps besides its tokens.
ghost use Rattle.std.specs.Prelude.{◌≡◌, [], None, false, option_map, IfErr, IfOk, OnErr, OnOk};
ghost use Rattle.base_token.specs.declared.error.SyntaxError.TheVariants.{Memory};
ghost use Rattle.std.specs.Borrow.{sem};
ghost use Rattle.lex_source.specs.Contexts.{outward};
ghost use Rattle.lex_source.specs.Lending.{LendsContexts};
ghost use Rattle.lex_source.specs.Settings as spec;

use crate::contexts::TokenContexts;
use crate::faults::FaultLog;
use base_token::{BytePos, Context, Error, EsVersion, Syntax};
use std::alloc::{AllocError, Global};

/// What a source of tokens is told, and the faults that were recorded with it.
#[derive(Debug, Drop)]
pub struct Settings {
    /// The dialect.
    pub syntax: Syntax,
    /// The edition that the text is written for.
    pub target: EsVersion,
    /// The place at which the text starts.
    pub start: BytePos,
    /// The code around the next token.
    pub ctx: Context,
    /// What encloses the next token.
    pub contexts: TokenContexts,
    /// Whether an expression may come next.
    pub expr_allowed: bool,
    /// The place of the slash that is to be read again as a regular expression.
    pub next_regexp: Option<BytePos>,
    /// The faults.
    pub faults: FaultLog,
}

impl Settings {
    /// At the start of a text: no flag is set, nothing encloses the place, and nothing was recorded.
    pub fn new(alloc: Global, syntax: Syntax, target: EsVersion, start: BytePos) -> Settings
        ensures { spec.settings_in result ≡ spec.at_start syntax target start.0 }
    {
        Settings {
            syntax,
            target,
            start,
            ctx: Context::default(),
            contexts: TokenContexts::new(alloc),
            expr_allowed: false,
            next_regexp: None,
            faults: FaultLog::new(alloc),
        }
    }

    /// The code around the next token is this. Faults of modules that waited are recorded where it is a
    /// module.
    pub fn set_ctx(&mut self, ctx: Context)
        ensures { spec.settings_in self.new ≡ spec.with_ctx ctx (spec.settings_in self.old) }
    {
        if ctx.module_ {
            self.faults.turn_module();
        }
        self.ctx = ctx;
    }

    /// Records a fault.
    ///
    /// # Errors
    ///
    /// Want of memory. Nothing changes then.
    pub fn add_error(&mut self, error: Error) -> Result<(), AllocError>
        ensures added { OnOk result (spec.settings_in self.new ≡ spec.with_error error (spec.settings_in self.old)) }
        ensures unchanged { OnErr result (spec.settings_in self.new ≡ spec.settings_in self.old) }
    {
        self.faults.add(error)
    }

    /// Records a fault that modules alone have: at once in a module, else once the text is known to be
    /// one.
    ///
    /// # Errors
    ///
    /// Want of memory. Nothing changes then.
    pub fn add_module_mode_error(&mut self, error: Error) -> Result<(), AllocError>
        ensures added { OnOk result (spec.settings_in self.new ≡ spec.with_module_error error (spec.settings_in self.old)) }
        ensures unchanged { OnErr result (spec.settings_in self.new ≡ spec.settings_in self.old) }
    {
        if self.ctx.module_ {
            self.faults.add(error)
        } else {
            self.faults.add_waiting(error)
        }
    }

    /// Takes the faults away that were recorded. It takes no memory.
    pub fn take_errors(&mut self) -> Vec<Error>
        ensures answer { result.items ≡ (spec.settings_in self.old).recorded }
        ensures taken { spec.settings_in self.new ≡ spec.without_errors (spec.settings_in self.old) }
    {
        self.faults.take()
    }

    /// What encloses the next token, to change it.
    pub fn contexts_mut(&mut self) -> &mut TokenContexts
        ensures* writes_back { sem 𝓛 (LendsContexts self.entry result) }
        ensures value { outward result.now ≡ (spec.settings_in self.old).contexts }
    {
        &mut self.contexts
    }

    /// What the next two tokens depend on: the same settings without faults, and with the innermost two of what
    /// encloses the next token. It takes no memory.
    pub fn scout(&self, alloc: Global) -> Settings
        ensures { spec.settings_in result ≡ spec.scout_of (spec.settings_in self.now) }
    {
        Settings {
            syntax: self.syntax,
            target: self.target,
            start: self.start,
            ctx: self.ctx,
            contexts: self.contexts.innermost_two(),
            expr_allowed: self.expr_allowed,
            next_regexp: self.next_regexp,
            faults: FaultLog::new(alloc),
        }
    }

    /// The same settings once more.
    ///
    /// # Errors
    ///
    /// Want of memory.
    pub fn try_clone(&self) -> Result<Settings, AllocError>
        ensures { IfOk result (λ s. spec.settings_in s ≡ spec.settings_in self.now) }
    {
        let contexts = self.contexts.try_clone()?;
        let faults = self.faults.try_clone()?;
        Ok(Settings {
            syntax: self.syntax,
            target: self.target,
            start: self.start,
            ctx: self.ctx,
            contexts,
            expr_allowed: self.expr_allowed,
            next_regexp: self.next_regexp,
            faults,
        })
    }
}

/// Want of memory as a fault.
#[cold]
pub fn out_of_memory(_: AllocError) -> Error
    ensures { result.kind ≡ Memory }
{
    Error {
        span: base_token::DUMMY_SP,
        kind: base_token::SyntaxError::Memory,
    }
}
