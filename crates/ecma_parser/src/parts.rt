//! Parts of programs: expressions, patterns, parameters, keys, statements and items.
ghost use Rattle.std.specs.Prelude.{◌≡◌, ◌++◌, true, All, IfErr, IfOk, MatchResult, OnOk};
ghost use Rattle.tree_spec.specs.Tree.{list, trees_by};
ghost use Rattle.tree_nodes.specs.Fits.{fits_module_item, fits_param, fits_prop_name};
ghost use Rattle.tree_nodes.specs.Placed.{holds_expr, holds_pat, holds_stmt, inner};
ghost use Rattle.tree_nodes.specs.View.{view_module_item, view_param, view_prop_name};
ghost use Rattle.grammar_spec.specs.Tokens.Input.{module_code, script_code};
ghost use Rattle.grammar_spec.specs.Tokens.Operators.{assignment_level, expression_level};
ghost use Rattle.grammar_spec.specs.Judge.Early.{early_errors, outermost};
ghost use Rattle.grammar_spec.specs.Judge.Early as early;
ghost use Rattle.judge_is_module.specs.Items as program;
ghost use Rattle.grammar_spec.specs.Reader.Source as spec;
ghost use Rattle.parse_state.specs.Answers.{IsMemory, Stays};
ghost use Rattle.parse_state.specs.Codes.{code_of};
ghost use Rattle.parse_state.specs.Cursors.{stream_of};
ghost use Rattle.parse_alone.specs.Items as items;
ghost use Rattle.parse_alone.specs.Parts as reads;
ghost use Rattle.ecma_parser.specs.Answers.{StayRead};
ghost use Rattle.ecma_parser.specs.Entries.{Keeps, ctx_in, faults_in, limit_in, stood, syntax_in};
ghost use Rattle.ecma_parser.specs.Parts.{ParsesPart, ReadsPart, module_part, script_part};
ghost use Rattle.ecma_parser.specs.Programs.{module_start, script_start};

use crate::entries::{Entries, Reading};
use crate::faults::{PResult, told};
use crate::programs::{in_module, in_script};
use crate::rules::{Binding, Expression, Key, ListItem, Parameters, Statement};
use base_token::{Context, Error, Syntax};
use judge::part_errors;
use lex_source::Tokens;
use parse_alone::items::module_item_part;
use parse_state::operators::{ASSIGNMENT, EXPRESSION};
use parse_state::{Around, Failure};
use tree_nodes::{ExprBox, ModuleItem, Param, PatBox, PropName, StmtBox};

impl<'a, I: Tokens<'a> + Drop> Entries<Reading<'a, I>> {
    /// An expression (ECMA-262, 13.16), as in a script, up to what doesn't go on with it. Its early errors are recorded.
    ///
    /// # Errors
    ///
    /// Want of memory, a text that nests deeper than the limit, or a fault of the text: also where the expression would
    /// go on, or a line break alone keeps the next token off.
    pub fn parse_expr(&mut self) -> PResult<ExprBox>
        ensures value { ParsesPart (stream_of I.machine) (ctx_in I.state self.old)
            (λ x. inner x.part.value) (early_errors (syntax_in I.state self.old)) result
            (script_part I.machine I.state
            (reads.expression_part (stream_of I.machine) expression_level) self.old)
            (stood I.state self.new) (faults_in self.old) (faults_in self.new) }
        ensures holds { IfOk result (λ x. holds_expr x.part.value) }
        ensures keeps { Keeps I.state result self.old self.new }
        ensures stays { StayRead (stream_of I.machine) result
            (script_start I.machine I.state self.old) (stood I.state self.new) }
    {
        self.parse_part(&Expression { level: EXPRESSION })
    }

    /// An expression without commas of its own (ECMA-262, 13.15), in the same way. A comma may follow it.
    ///
    /// # Errors
    ///
    /// Want of memory, a text that nests deeper than the limit, or a fault of the text: also where the expression would
    /// go on, or a line break alone keeps the next token off.
    pub fn parse_assignment_expr(&mut self) -> PResult<ExprBox>
        ensures value { ParsesPart (stream_of I.machine) (ctx_in I.state self.old)
            (λ x. inner x.part.value) (early_errors (syntax_in I.state self.old)) result
            (script_part I.machine I.state
            (reads.expression_part (stream_of I.machine) assignment_level) self.old)
            (stood I.state self.new) (faults_in self.old) (faults_in self.new) }
        ensures holds { IfOk result (λ x. holds_expr x.part.value) }
        ensures keeps { Keeps I.state result self.old self.new }
        ensures stays { StayRead (stream_of I.machine) result
            (script_start I.machine I.state self.old) (stood I.state self.new) }
    {
        self.parse_part(&Expression { level: ASSIGNMENT })
    }

    /// A name or a pattern that binds (ECMA-262, 14.3.3), without an initialiser, as in a script. Its early errors are
    /// recorded.
    ///
    /// # Errors
    ///
    /// Want of memory, a text that nests deeper than the limit, or a fault of the text.
    pub fn parse_pat(&mut self) -> PResult<PatBox>
        ensures value { ParsesPart (stream_of I.machine) (ctx_in I.state self.old)
            (λ x. inner x.part.value) (early_errors (syntax_in I.state self.old)) result
            (script_part I.machine I.state (reads.binding_part (stream_of I.machine)) self.old)
            (stood I.state self.new) (faults_in self.old) (faults_in self.new) }
        ensures holds { IfOk result (λ x. holds_pat x.part.value) }
        ensures keeps { Keeps I.state result self.old self.new }
        ensures stays { StayRead (stream_of I.machine) result
            (script_start I.machine I.state self.old) (stood I.state self.new) }
    {
        self.parse_part(&Binding)
    }

    /// The same as `parse_pat`.
    ///
    /// # Errors
    ///
    /// Want of memory, a text that nests deeper than the limit, or a fault of the text.
    pub fn parse_binding_pat_or_ident(&mut self) -> PResult<PatBox>
        ensures value { ParsesPart (stream_of I.machine) (ctx_in I.state self.old)
            (λ x. inner x.part.value) (early_errors (syntax_in I.state self.old)) result
            (script_part I.machine I.state (reads.binding_part (stream_of I.machine)) self.old)
            (stood I.state self.new) (faults_in self.old) (faults_in self.new) }
        ensures holds { IfOk result (λ x. holds_pat x.part.value) }
        ensures keeps { Keeps I.state result self.old self.new }
        ensures stays { StayRead (stream_of I.machine) result
            (script_start I.machine I.state self.old) (stood I.state self.new) }
    {
        self.parse_pat()
    }

    /// The parameters of a function (ECMA-262, 15.1) without their parentheses, as many as stand here, as in a script.
    /// Their early errors are recorded.
    ///
    /// # Errors
    ///
    /// Want of memory, a text that nests deeper than the limit, or a fault of the text.
    pub fn parse_formal_params(&mut self) -> PResult<Vec<Param>>
        ensures value { ParsesPart (stream_of I.machine) (ctx_in I.state self.old)
            (λ x. list (trees_by (view_param inner) x.items))
            (early_errors (syntax_in I.state self.old)) result
            (script_part I.machine I.state (reads.parameters_part (stream_of I.machine)) self.old)
            (stood I.state self.new) (faults_in self.old) (faults_in self.new) }
        ensures fits { IfOk result (λ x. All (λ x. fits_param (λ p. p) x) x.items) }
        ensures keeps { Keeps I.state result self.old self.new }
        ensures stays { StayRead (stream_of I.machine) result
            (script_start I.machine I.state self.old) (stood I.state self.new) }
    {
        self.parse_part(&Parameters)
    }

    /// The key of a property (ECMA-262, 13.2.5), as in a script. Its early errors are recorded.
    ///
    /// # Errors
    ///
    /// Want of memory, a text that nests deeper than the limit, or a fault of the text.
    pub fn parse_prop_name(&mut self) -> PResult<PropName>
        ensures value { ParsesPart (stream_of I.machine) (ctx_in I.state self.old)
            (view_prop_name inner) (early_errors (syntax_in I.state self.old)) result
            (script_part I.machine I.state (reads.key_part (stream_of I.machine)) self.old)
            (stood I.state self.new) (faults_in self.old) (faults_in self.new) }
        ensures fits { IfOk result (λ x. fits_prop_name (λ p. p) x) }
        ensures keeps { Keeps I.state result self.old self.new }
        ensures stays { StayRead (stream_of I.machine) result
            (script_start I.machine I.state self.old) (stood I.state self.new) }
    {
        self.parse_part(&Key)
    }

    /// A statement that is no declaration (ECMA-262, clause 14), as in a script: directly in its body or not. Its early
    /// errors are recorded.
    ///
    /// # Errors
    ///
    /// Want of memory, a text that nests deeper than the limit, or a fault of the text.
    pub fn parse_stmt(&mut self, top_level: bool) -> PResult<StmtBox>
        ensures value { ParsesPart (stream_of I.machine) (ctx_in I.state self.old)
            (λ x. inner x.part.value) (program.item_errors (syntax_in I.state self.old) top_level)
            result (script_part I.machine I.state (items.statement_part (stream_of I.machine))
            self.old) (stood I.state self.new) (faults_in self.old) (faults_in self.new) }
        ensures holds { IfOk result (λ x. holds_stmt x.part.value) }
        ensures keeps { Keeps I.state result self.old self.new }
        ensures stays { StayRead (stream_of I.machine) result
            (script_start I.machine I.state self.old) (stood I.state self.new) }
    {
        self.parse_part(&Statement { top_level })
    }

    /// A statement or a declaration (ECMA-262, 14.2), as in a script: directly in its body or not. Its early errors are
    /// recorded.
    ///
    /// # Errors
    ///
    /// Want of memory, a text that nests deeper than the limit, or a fault of the text.
    pub fn parse_stmt_list_item(&mut self, top_level: bool) -> PResult<StmtBox>
        ensures value { ParsesPart (stream_of I.machine) (ctx_in I.state self.old)
            (λ x. inner x.part.value) (program.item_errors (syntax_in I.state self.old) top_level)
            result (script_part I.machine I.state (items.list_item_part (stream_of I.machine))
            self.old) (stood I.state self.new) (faults_in self.old) (faults_in self.new) }
        ensures holds { IfOk result (λ x. holds_stmt x.part.value) }
        ensures keeps { Keeps I.state result self.old self.new }
        ensures stays { StayRead (stream_of I.machine) result
            (script_start I.machine I.state self.old) (stood I.state self.new) }
    {
        self.parse_part(&ListItem { top_level })
    }

    /// An item of a module (ECMA-262, 16.2): an import, an export, a statement or a declaration. Its early errors are
    /// recorded.
    ///
    /// # Errors
    ///
    /// Want of memory, a text that nests deeper than the limit, or a fault of the text.
    #[tactic(auto, unfolding(crate::specs::Parts::left_in))]
    pub fn parse_module_item(&mut self) -> PResult<ModuleItem>
        ensures value { ParsesPart (stream_of I.machine) (ctx_in I.state self.old)
            (view_module_item inner) (early.faults_in (outermost (syntax_in I.state self.old) true))
            result (module_part I.machine I.state (items.module_item_part (stream_of I.machine))
            self.old) (stood I.state self.new) (faults_in self.old) (faults_in self.new) }
        ensures fits { IfOk result (λ x. fits_module_item (λ p. p) x) }
        ensures keeps { Keeps I.state result self.old self.new }
        ensures stays { StayRead (stream_of I.machine) result
            (module_start I.machine I.state self.old) (stood I.state self.new) }
    {
        let before = self.reading.input.ctx();
        let answer = self.module_item();
        self.leave(before);
        match answer {
            Ok(item) => Ok(item),
            Err(failure) => Err(told(failure, self.reading.lo())),
        }
    }

    /// Tells the source of a script's code, and stands in front of the token that comes.
    pub(crate) fn open_script(&mut self) -> Result<Around, Failure>
        ensures code { IfOk result (λ c. code_of c ≡ script_code (syntax_in I.state self.old)) }
        ensures syntax { IfOk result (λ c. c.syntax ≡ syntax_in I.state self.old) }
        ensures stand { OnOk result (stood I.state self.new ≡ script_start I.machine I.state self.old) }
        ensures started { IfOk result (λ _. self.new.started ≡ true) }
        ensures limit { limit_in self.new ≡ limit_in self.old }
        ensures faults { faults_in self.new ≡ faults_in self.old }
        ensures full { IfErr result IsMemory }
    {
        let Syntax::Es(syntax) = self.reading.input.syntax();
        let code = in_script(syntax);
        self.open(code.context, true)?;
        Ok(code)
    }

    /// Tells the source of a module's code, and stands in front of the token that comes.
    fn open_module(&mut self) -> Result<Around, Failure>
        ensures code { IfOk result (λ c. code_of c ≡ module_code (syntax_in I.state self.old)) }
        ensures syntax { IfOk result (λ c. c.syntax ≡ syntax_in I.state self.old) }
        ensures stand { OnOk result (stood I.state self.new ≡ module_start I.machine I.state self.old) }
        ensures started { IfOk result (λ _. self.new.started ≡ true) }
        ensures limit { limit_in self.new ≡ limit_in self.old }
        ensures faults { faults_in self.new ≡ faults_in self.old }
        ensures full { IfErr result IsMemory }
    {
        let Syntax::Es(syntax) = self.reading.input.syntax();
        let code = in_module(syntax);
        self.open(code.context, true)?;
        Ok(code)
    }

    /// Tells the source of the code again that it was told before.
    #[tactic(auto, unfolding(parse_state::specs::Cursors::stream_of))]
    pub(crate) fn leave(&mut self, before: Context)
        ensures stand { stood I.state self.new ≡ spec.retold (stream_of I.machine) before (stood I.state self.old) }
        ensures context { ctx_in I.state self.new ≡ before }
        ensures same { spec.bound (stream_of I.machine) (stood I.state self.new)
            ≡ spec.bound (stream_of I.machine) (stood I.state self.old) }
        ensures started { self.new.started ≡ self.old.started }
        ensures limit { limit_in self.new ≡ limit_in self.old }
        ensures faults { faults_in self.new ≡ faults_in self.old }
    {
        self.reading.input.set_ctx(before);
    }

    /// Puts faults behind those that were recorded.
    pub(crate) fn record(&mut self, found: Vec<Error>) -> Result<(), Failure>
        ensures faults { MatchResult result (λ _. faults_in self.new ≡ faults_in self.old
            ++ found.items) (λ _. faults_in self.new ≡ faults_in self.old) }
        ensures reading { self.new.reading ≡ self.old.reading }
        ensures started { self.new.started ≡ self.old.started }
        ensures limit { limit_in self.new ≡ limit_in self.old }
        ensures full { IfErr result IsMemory }
    {
        let mut found = found;
        self.faults.append(&mut found)?;
        Ok(())
    }

    /// An item of a module.
    #[tactic(auto, using(crate::proofs::Read::fails_read))]
    fn module_item(&mut self) -> Result<ModuleItem, Failure>
        ensures value { ReadsPart (stream_of I.machine) (view_module_item inner)
            (early.faults_in (outermost (syntax_in I.state self.old) true)) result
            (module_part I.machine I.state (items.module_item_part (stream_of I.machine)) self.old)
            (stood I.state self.new) (faults_in self.old) (faults_in self.new) }
        ensures fits { IfOk result (λ x. fits_module_item (λ p. p) x) }
        ensures started { IfOk result (λ _. self.new.started ≡ true) }
        ensures limit { limit_in self.new ≡ limit_in self.old }
        ensures stays { Stays result (spec.bound (stream_of I.machine) (stood I.state self.new))
            (spec.bound (stream_of I.machine) (module_start I.machine I.state self.old)) }
    {
        let code = self.open_module()?;
        let item = module_item_part(&mut self.reading, self.limit, code)?;
        let found = part_errors(self.reading.alloc, code.syntax, true, &item)?;
        self.record(found)?;
        Ok(item)
    }
}
