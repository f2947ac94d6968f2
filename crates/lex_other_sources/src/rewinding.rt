//! A source that can go back in front of the token that it handed out last.
ghost use Rattle.std.specs.Prelude.{◌≡◌, ◌<◌, ◌≤◌, None, Some, true, option_map, IfErr, IfOk, MatchBool, MatchOption, OnErr, OnOk};
ghost use Rattle.base_token.specs.declared.error.SyntaxError.TheVariants.{Memory};
ghost use Rattle.lex_source.specs.Contexts.{outward};
ghost use Rattle.lex_source.specs.Machine.{IsPut, SameTold, StepGives};
ghost use Rattle.lex_source.specs.Settings as settings;
ghost use Rattle.lex_other_sources.specs.Rewinding.{back_in, IsLed, IsLedAlone};
ghost use Rattle.lex_other_sources.specs.Steps as spec;
ghost use Rattle.lex_other_sources.specs.Steps.{stepped};

use base_token::{BytePos, Context, Error, EsVersion, Syntax, TokenAndSpan};
use lex_source::{Ahead, Look, TokenContexts, Tokens};
use std::alloc::AllocError;

/// A source of tokens that can go back in front of the token that it handed out last, which is then read
/// again in other code. Where it is asked to keep what that takes, it keeps a copy of the source, made
/// where that was told something, and counts the tokens that came since; to go back it reads them again.
/// So it copies once for a run of tokens.
#[derive(Drop)]
pub struct Rewinding<I> {
    input: I,
    keeps: bool,
    copy: Option<I>,
    steps: u32,
    untold: bool,
}

/// Whether one flag is set, but not both.
fn differ(one: bool, other: bool) -> bool
    ensures { result ≡ spec.differ one other }
{
    if one { !other } else { other }
}

/// Whether tokens are read otherwise in the second code than in the first.
fn turns(old: Context, new: Context) -> bool
    ensures { result ≡ spec.turns old new }
{
    differ(old.module_, new.module_) || differ(old.strict, new.strict)
}

/// Reads so many tokens.
///
/// # Errors
///
/// Want of memory.
#[tactic(auto, using(crate::proofs::StepLemmas::stepped_none, crate::proofs::StepLemmas::stepped_more))]
fn walk<'a, I: Tokens<'a> + Drop>(source: &mut I, count: u32) -> Result<(), Error>
    ensures state { OnOk result (I.state source.new ≡ stepped I.machine count (I.state source.old)) }
    ensures full { IfErr result (λ e. e.kind ≡ Memory) }
{
    let mut done: u32 = 0;
    'steps: while done != count {
        source.next()?;
        done += 1;
    }
    Ok(())
}

/// The same copy once more.
///
/// # Errors
///
/// Want of memory.
fn copy_of<'a, I: Tokens<'a> + Drop>(copy: &Option<I>) -> Result<Option<I>, Error>
    ensures same { IfOk result (λ c. option_map I.state c ≡ option_map I.state copy.now) }
    ensures full { IfErr result (λ e. e.kind ≡ Memory) }
{
    match copy {
        Some(copy) => Ok(Some(copy.try_clone()?)),
        None => Ok(None),
    }
}

impl<'a, I: Tokens<'a> + Drop> Rewinding<I> {
    /// Over a source. It keeps nothing yet by which to go back.
    pub fn new(input: I) -> Rewinding<I>
        ensures input { I.state result.input ≡ I.state input }
        ensures led { IsLed I.machine I.state result }
    {
        Rewinding {
            input,
            keeps: false,
            copy: None,
            steps: 0,
            untold: false,
        }
    }

    /// The source.
    pub fn input(&self) -> &I
        ensures { I.state result.now ≡ I.state self.now.input }
    {
        &self.input
    }

    /// Tells whether it is to keep from here on what it takes to go back.
    pub fn keep(&mut self, keeps: bool)
        ensures same { I.state self.new.input ≡ I.state self.old.input }
        ensures led { IsLed I.machine I.state self.old → IsLed I.machine I.state self.new }
    {
        if keeps {
            self.keeps = true;
            return;
        }
        self.copy = None;
        self.keeps = false;
    }

    /// Goes back in front of the last token where that was read in other code than this, and tells whether
    /// it did. It can't do so twice.
    ///
    /// # Errors
    ///
    /// Want of memory.
    #[tactic(auto, using(crate::proofs::StepLemmas::goes_back))]
    pub fn go_back(&mut self, ctx: Context) -> Result<bool, Error>
        ensures went { IfOk result (λ b. MatchBool b (back_in I.machine I.state ctx self.old ≡ Some (I.state self.new.input))
            ((back_in I.machine I.state ctx self.old ≡ None) × (I.state self.new.input ≡ I.state self.old.input))) }
        ensures led { IsLed I.machine I.state self.new }
        ensures full { IfErr result (λ e. e.kind ≡ Memory) }
    {
        let Some(mut copy) = self.copy.take() else {
            return Ok(false);
        };
        if self.steps == 0 {
            return Ok(false);
        }
        if !turns(copy.ctx(), ctx) {
            return Ok(false);
        }
        walk(&mut copy, self.steps - 1)?;
        self.input = copy;
        Ok(true)
    }

    /// The same source once more, which goes back where this one does.
    ///
    /// # Errors
    ///
    /// Want of memory.
    pub fn copied(&self) -> Result<Rewinding<I>, Error>
        ensures same { IfOk result (λ c. I.state c.input ≡ I.state self.now.input) }
        ensures back { IfOk result (λ c. (ctx : _) → back_in I.machine I.state ctx c ≡ back_in I.machine I.state ctx self.now) }
        ensures led { IfOk result (λ c. IsLed I.machine I.state self.now → IsLed I.machine I.state c) }
        ensures full { IfErr result (λ e. e.kind ≡ Memory) }
    {
        let input = self.input.try_clone()?;
        let copy = copy_of(&self.copy)?;
        Ok(Rewinding {
            input,
            keeps: self.keeps,
            copy,
            steps: self.steps,
            untold: self.untold,
        })
    }

    /// Makes a copy from which steps alone lead to where the source stands, unless there is one.
    ///
    /// # Errors
    ///
    /// Want of memory.
    #[tactic(auto, using(crate::proofs::StepLemmas::fresh))]
    fn ready(&mut self) -> Result<(), Error>
        ensures alone { OnOk result (IsLed I.machine I.state self.old → IsLedAlone I.machine I.state self.new) }
        ensures fits { OnOk result (self.new.steps < 4294967295) }
        ensures none { OnErr result (self.new.copy ≡ None) }
        ensures same { I.state self.new.input ≡ I.state self.old.input }
        ensures full { IfErr result (λ e. e.kind ≡ Memory) }
    {
        if self.untold && self.steps < u32::MAX && self.copy.is_some() {
            return Ok(());
        }
        self.copy = None;
        self.copy = Some(self.input.try_clone()?);
        self.steps = 0;
        self.untold = true;
        Ok(())
    }

    /// The next token where it keeps what it takes to go back, or has kept it.
    ///
    /// # Errors
    ///
    /// Want of memory.
    #[inline(never)]
    fn next_slowly(&mut self) -> Result<Option<TokenAndSpan<'a>>, Error>
        ensures value { StepGives result (I.machine.step (I.state self.old.input)) (I.state self.new.input) }
        ensures falls { IfOk result (λ t. MatchOption t (I.machine.bound (I.state self.new.input).tokens ≤ I.machine.bound (I.state self.old.input).tokens)
            (λ _. I.machine.bound (I.state self.new.input).tokens < I.machine.bound (I.state self.old.input).tokens)) }
        ensures told { SameTold (I.state self.old.input).settings (I.state self.new.input).settings }
        ensures led { IsLed I.machine I.state self.old → IsLed I.machine I.state self.new }
    {
        if self.keeps {
            return self.next_kept();
        }
        self.copy = None;
        self.input.next()
    }

    /// The same, where the token is made where it waits.
    ///
    /// # Errors
    ///
    /// Want of memory.
    #[inline(never)]
    fn put_slowly(&mut self, ahead: &mut Ahead<'a>) -> Result<(), AllocError>
        ensures value { OnOk result (IsPut ahead.new (I.machine.step (I.state self.old.input)) (I.state self.new.input)) }
        ensures falls { OnOk result (MatchOption ahead.new (I.machine.bound (I.state self.new.input).tokens ≤ I.machine.bound (I.state self.old.input).tokens)
            (λ _. I.machine.bound (I.state self.new.input).tokens < I.machine.bound (I.state self.old.input).tokens)) }
        ensures told { SameTold (I.state self.old.input).settings (I.state self.new.input).settings }
        ensures led { IsLed I.machine I.state self.old → IsLed I.machine I.state self.new }
    {
        match self.next_slowly() {
            Ok(token) => {
                ahead.put(token);
                Ok(())
            }
            Err(_) => Err(AllocError),
        }
    }

    /// The next token, in front of which it can go back.
    ///
    /// # Errors
    ///
    /// Want of memory.
    #[inline(never)]
    #[tactic(auto, using(crate::proofs::StepLemmas::one_more))]
    fn next_kept(&mut self) -> Result<Option<TokenAndSpan<'a>>, Error>
        ensures value { StepGives result (I.machine.step (I.state self.old.input)) (I.state self.new.input) }
        ensures falls { IfOk result (λ t. MatchOption t (I.machine.bound (I.state self.new.input).tokens ≤ I.machine.bound (I.state self.old.input).tokens)
            (λ _. I.machine.bound (I.state self.new.input).tokens < I.machine.bound (I.state self.old.input).tokens)) }
        ensures told { SameTold (I.state self.old.input).settings (I.state self.new.input).settings }
        ensures led { IsLed I.machine I.state self.old → IsLed I.machine I.state self.new }
    {
        self.ready()?;
        match self.input.next() {
            Ok(token) => {
                self.steps += 1;
                Ok(token)
            }
            Err(error) => {
                self.copy = None;
                Err(error)
            }
        }
    }
}

impl<'a, I: Tokens<'a> + Drop> Tokens<'a> for Rewinding<I> {
    ghost State = { I.State };

    ghost machine = { I.machine };

    ghost state = { λ x. I.state x.input };

    ghost with_open = { λ x contexts. record x { input = I.with_open x.input contexts; copy = None } };

    #[inline(always)]
    fn next(&mut self) -> Result<Option<TokenAndSpan<'a>>, Error>
        ensures value { StepGives result (I.machine.step (I.state self.old.input)) (I.state self.new.input) }
        ensures falls { IfOk result (λ t. MatchOption t (I.machine.bound (I.state self.new.input).tokens ≤ I.machine.bound (I.state self.old.input).tokens)
            (λ _. I.machine.bound (I.state self.new.input).tokens < I.machine.bound (I.state self.old.input).tokens)) }
        ensures told { SameTold (I.state self.old.input).settings (I.state self.new.input).settings }
        ensures led { IsLed I.machine I.state self.old → IsLed I.machine I.state self.new }
    {
        if self.keeps || self.copy.is_some() {
            return self.next_slowly();
        }
        self.input.next()
    }

    #[inline(always)]
    #[tactic(auto, using(crate::proofs::StepLemmas::leads_none))]
    fn next_into(&mut self, ahead: &mut Ahead<'a>) -> Result<(), AllocError>
        ensures value { OnOk result (IsPut ahead.new (I.machine.step (I.state self.old.input)) (I.state self.new.input)) }
        ensures falls { OnOk result (MatchOption ahead.new (I.machine.bound (I.state self.new.input).tokens ≤ I.machine.bound (I.state self.old.input).tokens)
            (λ _. I.machine.bound (I.state self.new.input).tokens < I.machine.bound (I.state self.old.input).tokens)) }
        ensures told { SameTold (I.state self.old.input).settings (I.state self.new.input).settings }
        ensures led { IsLed I.machine I.state self.old → IsLed I.machine I.state self.new }
    {
        if self.keeps || self.copy.is_some() {
            return self.put_slowly(ahead);
        }
        self.input.next_into(ahead)
    }

    fn look(&self, at: Look) -> Result<Option<TokenAndSpan<'a>>, Error> {
        self.input.look(at)
    }

    /// One that can't go back in front of the last token.
    fn try_clone(&self) -> Result<Self, Error>
        ensures same { IfOk result (λ c. I.state c.input ≡ I.state self.now.input) }
        ensures full { IfErr result (λ e. e.kind ≡ Memory) }
        ensures led { IfOk result (λ c. IsLed I.machine I.state c) }
    {
        let input = self.input.try_clone()?;
        Ok(Rewinding {
            input,
            keeps: self.keeps,
            copy: None,
            steps: 0,
            untold: false,
        })
    }

    #[tactic(auto, using(crate::proofs::StepLemmas::told_leads))]
    fn set_ctx(&mut self, ctx: Context)
        ensures state { I.state self.new.input ≡ record (I.state self.old.input) { settings = settings.with_ctx ctx (I.state self.old.input).settings } }
        ensures led { IsLed I.machine I.state self.old → IsLed I.machine I.state self.new }
    {
        self.input.set_ctx(ctx);
        self.untold = false;
    }

    fn ctx(&self) -> Context {
        self.input.ctx()
    }

    fn syntax(&self) -> Syntax {
        self.input.syntax()
    }

    fn target(&self) -> EsVersion {
        self.input.target()
    }

    fn start_pos(&self) -> BytePos {
        self.input.start_pos()
    }

    fn set_expr_allowed(&mut self, allowed: bool)
        ensures state { I.state self.new.input ≡ record (I.state self.old.input) { settings = settings.with_expr_allowed allowed (I.state self.old.input).settings } }
        ensures led { IsLed I.machine I.state self.old → IsLed I.machine I.state self.new }
    {
        self.copy = None;
        self.input.set_expr_allowed(allowed);
    }

    #[tactic(auto, using(crate::proofs::StepLemmas::told_leads))]
    fn set_next_regexp(&mut self, place: Option<BytePos>)
        ensures state { I.state self.new.input ≡ record (I.state self.old.input) { settings = settings.with_next_regexp (option_map (λ p. p.0) place) (I.state self.old.input).settings } }
        ensures led { IsLed I.machine I.state self.old → IsLed I.machine I.state self.new }
    {
        self.input.set_next_regexp(place);
        self.untold = false;
    }

    fn token_context(&self) -> &TokenContexts {
        self.input.token_context()
    }

    fn token_context_mut(&mut self) -> &mut TokenContexts {
        self.copy = None;
        self.input.token_context_mut()
    }

    fn set_token_context(&mut self, contexts: TokenContexts)
        ensures state { I.state self.new.input ≡ record (I.state self.old.input) { settings = settings.with_contexts (outward contexts) (I.state self.old.input).settings } }
        ensures led { IsLed I.machine I.state self.old → IsLed I.machine I.state self.new }
    {
        self.copy = None;
        self.input.set_token_context(contexts);
    }

    fn add_error(&mut self, error: Error) -> Result<(), Error>
        ensures added { OnOk result (I.state self.new.input ≡ record (I.state self.old.input) { settings = settings.with_error error (I.state self.old.input).settings }) }
        ensures unchanged { OnErr result (I.state self.new.input ≡ I.state self.old.input) }
        ensures full { IfErr result (λ e. e.kind ≡ Memory) }
        ensures led { IsLed I.machine I.state self.old → IsLed I.machine I.state self.new }
    {
        self.copy = None;
        self.input.add_error(error)
    }

    fn add_module_mode_error(&mut self, error: Error) -> Result<(), Error>
        ensures added { OnOk result (I.state self.new.input ≡ record (I.state self.old.input) { settings = settings.with_module_error error (I.state self.old.input).settings }) }
        ensures unchanged { OnErr result (I.state self.new.input ≡ I.state self.old.input) }
        ensures full { IfErr result (λ e. e.kind ≡ Memory) }
        ensures led { IsLed I.machine I.state self.old → IsLed I.machine I.state self.new }
    {
        self.copy = None;
        self.input.add_module_mode_error(error)
    }

    fn take_errors(&mut self) -> Vec<Error>
        ensures answer { result.items ≡ (I.state self.old.input).settings.recorded }
        ensures taken { I.state self.new.input ≡ record (I.state self.old.input) { settings = settings.without_errors (I.state self.old.input).settings } }
        ensures led { IsLed I.machine I.state self.old → IsLed I.machine I.state self.new }
    {
        self.copy = None;
        self.input.take_errors()
    }

    ghost opens = { λ x. I.opens x.input };
}
