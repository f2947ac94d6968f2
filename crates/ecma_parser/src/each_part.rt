//! What is the same for each part of a program that is read alone, whatever its rule.
ghost use Rattle.std.specs.Prelude.{◌≡◌, ◌<◌, ℕ, List, true, IfOk};
ghost use Rattle.base_token.specs.declared.error.Error.{Error};
ghost use Rattle.base_token.specs.declared.syntax.EsSyntax.{EsSyntax};
ghost use Rattle.lex_source.specs.Machine.{Machine};
ghost use Rattle.tree_spec.specs.Tree.{Tree};
ghost use Rattle.grammar_spec.specs.Tokens.Input.{Code};
ghost use Rattle.grammar_spec.specs.Reader.Source.{Read};
ghost use Rattle.grammar_spec.specs.Reader.Source as spec;
ghost use Rattle.parse_state.specs.Answers.{Gives, Stays};
ghost use Rattle.parse_state.specs.Codes.{code_of};
ghost use Rattle.parse_state.specs.Cursors.{Cursor, stream_of};
ghost use Rattle.parse_state.specs.States.{state_of};
ghost use Rattle.parse_state.specs.Reads.{to_come, NotLonger};
ghost use Rattle.ecma_parser.specs.Answers.{StayRead};
ghost use Rattle.ecma_parser.specs.Entries.{Keeps, ctx_in, faults_in, limit_in, stood, syntax_in};
ghost use Rattle.ecma_parser.specs.Parts.{ParsesPart, ReadsPart, script_part};
ghost use Rattle.ecma_parser.specs.Programs.{script_start};

use crate::entries::{Entries, Reading};
use crate::faults::{PResult, told};
use base_token::{Error, EsSyntax};
use lex_other_sources::Rewinding;
use lex_source::Tokens;
use parse_state::{Around, Failure, Parser};
use std::alloc::{AllocError, Global};

/// A rule whose part is read alone, in a script's code.
pub(crate) trait Rule<'a, I: Tokens<'a> + Drop> {
    /// What its part is in the tree.
    type Node: Drop;

    /// What it stands for.
    ghost tree: { Self.Node → Tree };

    /// Its children are of their sorts.
    ghost fits: { Self.Node → Type 0 };

    /// What is read by the rule, within a limit.
    ghost reads: { Self → (S : Type 0) → Machine S → ℕ → Code → Read (Cursor S) Tree };

    /// The early errors of what is read.
    ghost faults: { Self → EsSyntax → Tree → List Error };

    /// Reads the part that stands here.
    fn read(&self, p: &mut Parser<'a, I>, limit: u32, code: Around) -> Result<Self::Node, Failure>
        requires { limit < 4294967295 }
        ensures value { Gives (λ x. (tree x, state_of I.state p.new))
            (to_come I.machine I.state p.new) result
            (reads self.now I.State I.machine limit (code_of code) (state_of I.state p.old)) }
        ensures fits { IfOk result fits }
        ensures not_longer { NotLonger I.machine I.state p.old p.new result };

    /// The early errors of a part.
    fn errors(
        &self,
        alloc: Global,
        syntax: EsSyntax,
        node: &Self::Node,
    ) -> Result<Vec<Error>, AllocError>
        ensures { IfOk result (λ found. found.items ≡ faults self.now syntax (tree node.now)) };
}

impl<'a, I: Tokens<'a> + Drop> Entries<Reading<'a, I>> {
    /// The part of a rule. Its early errors are recorded.
    #[tactic(auto, using(crate::proofs::Read::fails_read))]
    fn read_part<R: Rule<'a, Rewinding<I>>>(&mut self, rule: &R) -> Result<R::Node, Failure>
        ensures value { ReadsPart (stream_of I.machine) R.tree
            (R.faults rule.now (syntax_in I.state self.old)) result
            (script_part I.machine I.state (R.reads rule.now I.State I.machine) self.old)
            (stood I.state self.new) (faults_in self.old) (faults_in self.new) }
        ensures fits { IfOk result R.fits }
        ensures started { IfOk result (λ _. self.new.started ≡ true) }
        ensures limit { limit_in self.new ≡ limit_in self.old }
        ensures stays { Stays result (spec.bound (stream_of I.machine) (stood I.state self.new))
            (spec.bound (stream_of I.machine) (script_start I.machine I.state self.old)) }
    {
        let code = self.open_script()?;
        let node = rule.read(&mut self.reading, self.limit, code)?;
        let found = rule.errors(self.reading.alloc, code.syntax, &node)?;
        self.record(found)?;
        Ok(node)
    }

    /// The same, with a failure told as a fault, and the source told the code again that it was told before.
    #[tactic(auto, unfolding(crate::specs::Parts::left_in))]
    pub(crate) fn parse_part<R: Rule<'a, Rewinding<I>>>(&mut self, rule: &R) -> PResult<R::Node>
        ensures value { ParsesPart (stream_of I.machine) (ctx_in I.state self.old) R.tree
            (R.faults rule.now (syntax_in I.state self.old)) result
            (script_part I.machine I.state (R.reads rule.now I.State I.machine) self.old)
            (stood I.state self.new) (faults_in self.old) (faults_in self.new) }
        ensures fits { IfOk result R.fits }
        ensures keeps { Keeps I.state result self.old self.new }
        ensures stays { StayRead (stream_of I.machine) result
            (script_start I.machine I.state self.old) (stood I.state self.new) }
    {
        let before = self.reading.input.ctx();
        let answer = self.read_part(rule);
        self.leave(before);
        match answer {
            Ok(node) => Ok(node),
            Err(failure) => Err(told(failure, self.reading.lo())),
        }
    }
}
