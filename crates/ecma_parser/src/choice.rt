//! A program that is not said to be a script or a module: it is parsed as a module where it tells that it is one.
ghost use Rattle.std.specs.Prelude.{◌≡◌, false, true, IfOk, IfSome, MatchOption, MatchResult};
ghost use Rattle.tree_nodes.specs.Fits.{fits_module};
ghost use Rattle.tree_nodes.specs.Placed.{inner};
ghost use Rattle.tree_nodes.specs.View.{view_module};
ghost use Rattle.grammar_spec.specs.Reader.Source as spec;
ghost use Rattle.parse_state.specs.Answers.{IsMemory};
ghost use Rattle.parse_state.specs.Cursors.{stream_of};
ghost use Rattle.ecma_parser.specs.Answers.{StayRead};
ghost use Rattle.ecma_parser.specs.Choice.{Chooses, IsMeant, NotMeant};
ghost use Rattle.ecma_parser.specs.Entries.{Keeps, ctx_in, faults_in, limit_in, stood, syntax_in};
ghost use Rattle.ecma_parser.specs.Programs.{module_read, script_read, script_start};

use crate::entries::{Entries, Reading};
use crate::faults::{PResult, told};
use judge_is_module::tells_module;
use lex_source::Tokens;
use parse_state::Failure;
use tree_nodes::{Module, Program, ProgramKind};

impl<'a, I: Tokens<'a> + Drop> Entries<Reading<'a, I>> {
    /// The rest of the source as a module, where that reading has no early error and holds an import, an export or,
    /// outside functions, an `await`, an awaiting `for` or an awaiting `using`; else as a script.
    ///
    /// # Errors
    ///
    /// Want of memory, or the fault of the script.
    pub fn parse_program(&mut self) -> PResult<Program>
        ensures value { Chooses (syntax_in I.state self.old)
            (spec.bound (stream_of I.machine) (stood I.state self.new)) result
            (module_read I.machine I.state self.old) (script_read I.machine I.state self.old)
            (faults_in self.old) (faults_in self.new) }
        ensures keeps { Keeps I.state result self.old self.new }
        ensures stays { StayRead (stream_of I.machine) result
            (script_start I.machine I.state self.old) (stood I.state self.new) }
    {
        match self.meant_module() {
            Ok(Some(module)) => Ok(Program {
                kind: ProgramKind::Module(module),
            }),
            Ok(None) => {
                let script = self.parse_script()?;
                Ok(Program {
                    kind: ProgramKind::Script(script),
                })
            }
            Err(failure) => Err(told(failure, self.reading.lo())),
        }
    }

    /// The rest of the source as a module, where one is meant. Else nothing is read.
    ///
    /// # Errors
    ///
    /// Want of memory.
    fn meant_module(&mut self) -> Result<Option<Module>, Failure>
        ensures meant { IfOk result (λ m. MatchOption m
            (NotMeant (syntax_in I.state self.old) (module_read I.machine I.state self.old))
            (λ x. IsMeant (syntax_in I.state self.old) (module_read I.machine I.state self.old)
            (view_module inner x))) }
        ensures stays { IfOk result (λ m. MatchOption m (self.new ≡ self.old)
            (λ x. ctx_in I.state self.new ≡ ctx_in I.state self.old)) }
        ensures fits { IfOk result (λ m. IfSome m (λ x. fits_module (λ p. p) x)) }
        ensures started { IfOk result (λ m. IfSome m (λ _. self.new.started ≡ true)) }
        ensures failed { MatchResult result (λ m. limit_in self.new ≡ limit_in self.old)
            (λ e. IsMemory e × (self.new ≡ self.old)) }
        ensures faults { faults_in self.new ≡ faults_in self.old }
    {
        let Ok(mut copy) = self.try_clone() else {
            return Err(Failure::Memory);
        };
        let recorded = copy.take_errors();
        match copy.read_module() {
            Ok(module) => {
                if !copy.faults.is_empty() || !tells_module(&module) {
                    return Ok(None);
                }
                copy.faults = recorded;
                *self = copy;
                Ok(Some(module))
            }
            Err(Failure::Memory) => Err(Failure::Memory),
            Err(Failure::TooDeep | Failure::Syntax(_)) => Ok(None),
        }
    }
}
