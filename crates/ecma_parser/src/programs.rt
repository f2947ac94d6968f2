//! Whole scripts and modules (ECMA-262, clause 16).
ghost use Rattle.std.specs.Prelude.{◌≡◌, false, true, IfOk};
ghost use Rattle.tree_nodes.specs.Fits.{fits_module, fits_script};
ghost use Rattle.tree_nodes.specs.Placed.{inner};
ghost use Rattle.tree_nodes.specs.View.{view_module, view_script};
ghost use Rattle.grammar_spec.specs.Tokens.Input.{module_code, script_code};
ghost use Rattle.grammar_spec.specs.Reader.Source as spec;
ghost use Rattle.parse_state.specs.Answers.{Stays};
ghost use Rattle.parse_state.specs.Codes.{code_of};
ghost use Rattle.parse_state.specs.Cursors.{stream_of};
ghost use Rattle.ecma_parser.specs.Answers.{Parses, ReadsProgram, StayRead};
ghost use Rattle.ecma_parser.specs.Entries.{Keeps, faults_in, limit_in, stood, syntax_in};
ghost use Rattle.ecma_parser.specs.Programs.{module_read, module_start, script_read, script_start};

use crate::entries::{Entries, Reading};
use crate::faults::{PResult, told};
use base_token::{Context, EsSyntax, Syntax};
use judge::{module_errors, script_errors};
use lex_source::Tokens;
use parse_alone::programs::{module_within, script_within};
use parse_state::{Around, Failure};
use tree_nodes::{Module, Script};

/// The code around a script's tokens.
pub(crate) fn in_script(syntax: EsSyntax) -> Around
    ensures code { code_of result ≡ script_code syntax }
    ensures syntax { result.syntax ≡ syntax }
{
    let context = Context {
        include_in_expr: true,
        ..Context::default()
    };
    Around {
        syntax,
        context,
        listed: true,
    }
}

/// The code around a module's tokens.
pub(crate) fn in_module(syntax: EsSyntax) -> Around
    ensures code { code_of result ≡ module_code syntax }
    ensures syntax { result.syntax ≡ syntax }
{
    let context = Context {
        include_in_expr: true,
        module_: true,
        strict: true,
        in_async: true,
        ..Context::default()
    };
    Around {
        syntax,
        context,
        listed: true,
    }
}

impl<'a, I: Tokens<'a> + Drop> Entries<Reading<'a, I>> {
    /// The rest of the source as a script. Its early errors are recorded.
    ///
    /// # Errors
    ///
    /// Want of memory, a text that nests deeper than the limit, or a fault of the text.
    pub fn parse_script(&mut self) -> PResult<Script>
        ensures value { Parses (view_script inner) (syntax_in I.state self.old)
            (spec.bound (stream_of I.machine) (stood I.state self.new)) result
            (script_read I.machine I.state self.old) (faults_in self.old) (faults_in self.new) }
        ensures fits { IfOk result (λ x. fits_script (λ p. p) x) }
        ensures keeps { Keeps I.state result self.old self.new }
        ensures stays { StayRead (stream_of I.machine) result
            (script_start I.machine I.state self.old) (stood I.state self.new) }
    {
        match self.read_script() {
            Ok(script) => Ok(script),
            Err(failure) => Err(told(failure, self.reading.lo())),
        }
    }

    /// The same as `parse_script`, but a failure is answered as it is.
    ///
    /// # Errors
    ///
    /// Want of memory, a text that nests deeper than the limit, or a fault of the text.
    pub fn read_script(&mut self) -> Result<Script, Failure>
        ensures value { ReadsProgram (view_script inner) (syntax_in I.state self.old)
            (spec.bound (stream_of I.machine) (stood I.state self.new)) result
            (script_read I.machine I.state self.old) (faults_in self.old) (faults_in self.new) }
        ensures fits { IfOk result (λ x. fits_script (λ p. p) x) }
        ensures keeps { Keeps I.state result self.old self.new }
        ensures stays { Stays result (spec.bound (stream_of I.machine) (stood I.state self.new))
            (spec.bound (stream_of I.machine) (script_start I.machine I.state self.old)) }
    {
        let before = self.reading.input.ctx();
        let script = self.script();
        self.leave(before);
        script
    }

    /// The rest of the source as a module. Its early errors are recorded.
    ///
    /// # Errors
    ///
    /// Want of memory, a text that nests deeper than the limit, or a fault of the text.
    pub fn parse_module(&mut self) -> PResult<Module>
        ensures value { Parses (view_module inner) (syntax_in I.state self.old)
            (spec.bound (stream_of I.machine) (stood I.state self.new)) result
            (module_read I.machine I.state self.old) (faults_in self.old) (faults_in self.new) }
        ensures fits { IfOk result (λ x. fits_module (λ p. p) x) }
        ensures keeps { Keeps I.state result self.old self.new }
        ensures stays { StayRead (stream_of I.machine) result
            (module_start I.machine I.state self.old) (stood I.state self.new) }
    {
        match self.read_module() {
            Ok(module) => Ok(module),
            Err(failure) => Err(told(failure, self.reading.lo())),
        }
    }

    /// The same as `parse_module`, but a failure is answered as it is.
    ///
    /// # Errors
    ///
    /// Want of memory, a text that nests deeper than the limit, or a fault of the text.
    pub fn read_module(&mut self) -> Result<Module, Failure>
        ensures value { ReadsProgram (view_module inner) (syntax_in I.state self.old)
            (spec.bound (stream_of I.machine) (stood I.state self.new)) result
            (module_read I.machine I.state self.old) (faults_in self.old) (faults_in self.new) }
        ensures fits { IfOk result (λ x. fits_module (λ p. p) x) }
        ensures keeps { Keeps I.state result self.old self.new }
        ensures stays { Stays result (spec.bound (stream_of I.machine) (stood I.state self.new))
            (spec.bound (stream_of I.machine) (module_start I.machine I.state self.old)) }
    {
        let before = self.reading.input.ctx();
        let module = self.module();
        self.leave(before);
        module
    }

    /// A script, in its own code.
    fn script(&mut self) -> Result<Script, Failure>
        ensures value { ReadsProgram (view_script inner) (syntax_in I.state self.old)
            (spec.bound (stream_of I.machine) (stood I.state self.new)) result
            (script_read I.machine I.state self.old) (faults_in self.old) (faults_in self.new) }
        ensures fits { IfOk result (λ x. fits_script (λ p. p) x) }
        ensures started { IfOk result (λ _. self.new.started ≡ true) }
        ensures limit { limit_in self.new ≡ limit_in self.old }
        ensures stays { Stays result (spec.bound (stream_of I.machine) (stood I.state self.new))
            (spec.bound (stream_of I.machine) (script_start I.machine I.state self.old)) }
    {
        let Syntax::Es(syntax) = self.reading.input.syntax();
        let code = in_script(syntax);
        self.open(code.context, false)?;
        let script = script_within(&mut self.reading, self.limit, code)?;
        let mut faults = script_errors(self.reading.alloc, syntax, &script)?;
        self.faults.append(&mut faults)?;
        Ok(script)
    }

    /// A module, in its own code.
    fn module(&mut self) -> Result<Module, Failure>
        ensures value { ReadsProgram (view_module inner) (syntax_in I.state self.old)
            (spec.bound (stream_of I.machine) (stood I.state self.new)) result
            (module_read I.machine I.state self.old) (faults_in self.old) (faults_in self.new) }
        ensures fits { IfOk result (λ x. fits_module (λ p. p) x) }
        ensures started { IfOk result (λ _. self.new.started ≡ true) }
        ensures limit { limit_in self.new ≡ limit_in self.old }
        ensures stays { Stays result (spec.bound (stream_of I.machine) (stood I.state self.new))
            (spec.bound (stream_of I.machine) (module_start I.machine I.state self.old)) }
    {
        let Syntax::Es(syntax) = self.reading.input.syntax();
        let code = in_module(syntax);
        self.open(code.context, false)?;
        let module = module_within(&mut self.reading, self.limit, code)?;
        let mut faults = module_errors(self.reading.alloc, syntax, &module)?;
        self.faults.append(&mut faults)?;
        Ok(module)
    }
}
