//! A parser as a user holds it.
ghost use Rattle.std.specs.Prelude.{◌≡◌, ◌<◌, ◌+◌, ◌^◌, [], false, true, length, min, option_map, IfErr, IfOk, OnOk};
ghost use Rattle.std.specs.Str.{chars};
ghost use Rattle.base_token.specs.declared.error.SyntaxError.TheVariants.{Memory};
ghost use Rattle.base_token.specs.declared.version.EsVersion.TheVariants.{EsNext};
ghost use Rattle.lex_source.specs.Machine.{shown_spot};
ghost use Rattle.ecma_lexer.specs.States.{at_start_of};
ghost use Rattle.ecma_lexer.specs.Lexer.{state_in};
ghost use Rattle.parse_state.specs.Answers.{IsMemory};
ghost use Rattle.parse_state.specs.Cursors.{told_of};

use base_token::{BytePos, Context, Error, EsVersion, Syntax};
use ecma_lexer::Lexer;
use lex_other_sources::Rewinding;
use lex_source::Tokens;
use lex_source::settings::out_of_memory;
use parse_state::{Ahead, Failure};
use std::alloc::{AllocError, Global};
use std::mem;

/// A parser, over what it reads from.
#[derive(Drop)]
pub struct Entries<P> {
    /// What it reads from.
    pub(crate) reading: P,
    /// Whether the first token was read.
    pub(crate) started: bool,
    /// How deep a tree may nest.
    pub(crate) limit: u32,
    /// The faults that were recorded.
    pub(crate) faults: Vec<Error>,
    ghost limit_fits: { limit < 4294967295 },
}

/// What a parser over a source of tokens reads from.
pub(crate) type Reading<'a, I> = parse_state::Parser<'a, Rewinding<I>>;

/// A parser over a source of tokens.
pub type Parser<'a, I> = Entries<Reading<'a, I>>;

/// How deep a tree may nest at first.
const NESTING: u32 = 256;

impl<'a> Entries<Reading<'a, Lexer<'a>>> {
    ghost use Rattle.ecma_lexer.specs.Machine.{lexer_machine};
    ghost use Rattle.grammar_spec.specs.Reader.Source.{bound};
    ghost use Rattle.parse_state.specs.Cursors.{stream_of};
    ghost use Rattle.ecma_parser.specs.Entries.{faults_in, limit_in, source_in, stood};

    /// A parser of a text. Its places count from 1. It requires a text of at most 4,294,967,294 bytes.
    pub fn new(alloc: Global, syntax: Syntax, text: &'a str) -> Self
        requires fits { 1 + length text.now < 2 ^ 32 }
        ensures source { source_in state_in result
            ≡ at_start_of syntax EsNext 1 (chars text.now) (1 + length text.now) }
        ensures limit { limit_in result ≡ 256 }
        ensures faults { faults_in result ≡ [] }
        ensures started { result.started ≡ false }
    {
        let lexer = Lexer::new(alloc, syntax, EsVersion::latest(), text, BytePos(1), false);
        Entries::new_from(alloc, lexer)
    }

    /// How many tokens may come at most, the one among them that was read ahead.
    #[tactic(auto, using(parse_state::proofs::Firsts::ones), unfolding(parse_state::specs::Cursors::stream_of))]
    pub fn may_come(&self) -> u64
        ensures { result ≡ bound (stream_of lexer_machine) (stood state_in self.now) }
    {
        let behind = self.reading.input.input().may_come();
        if self.reading.ahead.is_none() {
            behind
        } else {
            behind + 1
        }
    }
}

impl<'a, I: Tokens<'a> + Drop> Entries<Reading<'a, I>> {
    ghost use Rattle.ecma_parser.specs.Entries.{ahead_of, faults_in, limit_in, opened, source_in, stood};

    /// A parser over a source of tokens. No token is read yet, and trees may nest 256 deep.
    pub fn new_from(alloc: Global, input: I) -> Self
        ensures source { source_in I.state result ≡ I.state input }
        ensures limit { limit_in result ≡ 256 }
        ensures faults { faults_in result ≡ [] }
        ensures started { result.started ≡ false }
    {
        Entries {
            reading: parse_state::Parser {
                alloc,
                input: Rewinding::new(input),
                ahead: Ahead::new(None),
                last: BytePos(0),
                commas: Vec::new(alloc),
                awaited: None,
            },
            started: false,
            limit: NESTING,
            faults: Vec::new(alloc),
        }
    }

    /// Sets how deep a tree may nest, 4,294,967,294 at most: a leaf counts 1, and another node one more than its deepest
    /// child.
    pub fn set_nesting(&mut self, limit: u32)
        ensures limit { limit_in self.new ≡ min limit 4294967294 }
        ensures reading { self.new.reading ≡ self.old.reading }
        ensures started { self.new.started ≡ self.old.started }
        ensures faults { faults_in self.new ≡ faults_in self.old }
    {
        self.limit = limit.min(u32::MAX - 1);
    }

    /// The source of tokens. It stands behind the token that was read ahead, where one was.
    pub fn input(&self) -> &I
        ensures { I.state result.now ≡ source_in I.state self.now }
    {
        self.reading.input.input()
    }

    /// Takes the recorded faults away, in order. It takes no memory.
    pub fn take_errors(&mut self) -> Vec<Error>
        ensures answer { result.items ≡ faults_in self.old }
        ensures taken { faults_in self.new ≡ [] }
        ensures reading { self.new.reading ≡ self.old.reading }
        ensures started { self.new.started ≡ self.old.started }
        ensures limit { limit_in self.new ≡ limit_in self.old }
    {
        mem::replace(&mut self.faults, Vec::new(self.reading.alloc))
    }

    /// Tells the source of the code, and whether it is to keep what it takes to go back; and stands in front of the token that
    /// comes, which is read again where it was read in other code.
    ///
    /// # Errors
    ///
    /// Want of memory.
    pub(crate) fn open(&mut self, ctx: Context, keeps: bool) -> Result<(), Failure>
        ensures stand { OnOk result (stood I.state self.new ≡ opened I.machine I.state ctx self.old) }
        ensures started { IfOk result (λ _. self.new.started ≡ true) }
        ensures limit { limit_in self.new ≡ limit_in self.old }
        ensures faults { faults_in self.new ≡ faults_in self.old }
        ensures full { IfErr result IsMemory }
    {
        if !self.started {
            self.reading.last = self.reading.input.start_pos();
            return self.read_ahead(ctx, keeps);
        }
        match self.reading.input.go_back(ctx) {
            Ok(true) => self.read_ahead(ctx, keeps),
            Ok(false) => {
                self.tell(ctx, keeps);
                Ok(())
            }
            Err(_) => Err(Failure::Memory),
        }
    }

    /// Tells the source of the code, and whether it is to keep what it takes to go back.
    fn tell(&mut self, ctx: Context, keeps: bool)
        ensures source { source_in I.state self.new ≡ told_of ctx (source_in I.state self.old) }
        ensures ahead { self.new.reading.ahead ≡ self.old.reading.ahead }
        ensures last { self.new.reading.last ≡ self.old.reading.last }
        ensures commas { self.new.reading.commas.items ≡ [] }
        ensures started { self.new.started ≡ self.old.started }
        ensures limit { limit_in self.new ≡ limit_in self.old }
        ensures faults { faults_in self.new ≡ faults_in self.old }
    {
        self.reading.commas.clear();
        self.reading.input.keep(keeps);
        self.reading.input.set_ctx(ctx);
    }

    /// Tells the source of the code, and reads the token that comes.
    ///
    /// # Errors
    ///
    /// Want of memory.
    fn read_ahead(&mut self, ctx: Context, keeps: bool) -> Result<(), Failure>
        ensures stand { OnOk result (stood I.state self.new
            ≡ ahead_of I.machine ctx self.old.reading.last.0 (source_in I.state self.old)) }
        ensures started { IfOk result (λ _. self.new.started ≡ true) }
        ensures limit { limit_in self.new ≡ limit_in self.old }
        ensures faults { faults_in self.new ≡ faults_in self.old }
        ensures full { IfErr result IsMemory }
    {
        self.tell(ctx, keeps);
        let mut ahead = Ahead::new(None);
        self.reading.input.next_into(&mut ahead)?;
        self.reading.ahead = ahead;
        self.started = true;
        Ok(())
    }

    /// A parser that stands where this one stands, with the same faults.
    ///
    /// # Errors
    ///
    /// Want of memory.
    pub fn try_clone(&self) -> Result<Self, Error>
        ensures stand { IfOk result (λ c. stood I.state c ≡ stood I.state self.now) }
        ensures source { IfOk result (λ c. source_in I.state c ≡ source_in I.state self.now) }
        ensures opened { IfOk result (λ c. (ctx : _) → opened I.machine I.state ctx c
            ≡ opened I.machine I.state ctx self.now) }
        ensures started { IfOk result (λ c. c.started ≡ self.now.started) }
        ensures limit { IfOk result (λ c. limit_in c ≡ limit_in self.now) }
        ensures faults { IfOk result (λ c. faults_in c ≡ faults_in self.now) }
        ensures full { IfErr result (λ e. e.kind ≡ Memory) }
    {
        let input = self.reading.input.copied()?;
        let (ahead, commas, faults) = self.copied().map_err(out_of_memory)?;
        Ok(Entries {
            reading: parse_state::Parser {
                alloc: self.reading.alloc,
                input,
                ahead,
                last: self.reading.last,
                commas,
                awaited: self.reading.awaited,
            },
            started: self.started,
            limit: self.limit,
            faults,
        })
    }

    /// The token that comes, the noted starts and the faults once more.
    ///
    /// # Errors
    ///
    /// Want of memory.
    fn copied(&self) -> Result<(Ahead<'a>, Vec<u32>, Vec<Error>), AllocError>
        ensures ahead { IfOk result (λ x. x.0 ≡ self.now.reading.ahead) }
        ensures commas { IfOk result (λ x. x.1.items ≡ self.now.reading.commas.items) }
        ensures faults { IfOk result (λ x. x.2.items ≡ self.now.faults.items) }
    {
        let alloc = self.reading.alloc;
        let ahead = self.reading.ahead.try_clone()?;
        let commas = Vec::from_slice(alloc, self.reading.commas.as_slice())?;
        let faults = Vec::from_slice(alloc, self.faults.as_slice())?;
        Ok((ahead, commas, faults))
    }
}
