//! What the rules call for nested parts.
ghost use Rattle.std.specs.Prelude.{◌≡◌, All, IfOk, map};
ghost use Rattle.tree_nodes.specs.Fits.{fits_assign_target, fits_block_stmt, fits_class};
ghost use Rattle.tree_nodes.specs.Placed.{inner, holds_pat, holds_stmt};
ghost use Rattle.tree_nodes.specs.View.{view_assign_target};
ghost use Rattle.grammar_spec.specs.Reader.Source.{Inner};
ghost use Rattle.grammar_spec.specs.Reader.Cover.{to_target};
ghost use Rattle.grammar_spec.specs.Reader.Expressions.{is_read, params_of};
ghost use Rattle.parse_state.specs.Machine.{Machine};
ghost use Rattle.parse_state.specs.Answers.{Gives};
ghost use Rattle.parse_state.specs.Codes.{code_of};
ghost use Rattle.parse_state.specs.Cursors.{Cursor, stream_of};
ghost use Rattle.parse_state.specs.States.{state_of};
ghost use Rattle.parse_state.specs.Reads.{Shorter};
ghost use Rattle.parse_operands.specs.Operands.{tree_of};
ghost use Rattle.parse_operands.specs.Lists.{arguments_of, FitArguments};
ghost use Rattle.parse_operands.specs.Rules.{ReadsExpr, ReadsPat, ReadsStmt, ReadsBody, ReadsClassTail};

use crate::lists::Arguments;
use crate::operand::Operand;
use base_token::BytePos;
use parse_state::{Around, Failure, Parser, Tokens};
use tree_nodes::{AssignTarget, BlockStmt, Class, PatBox, StmtBox};

/// The parsers of nested parts, at one depth.
pub trait Nested<'a, I: Tokens<'a> + Drop> {
    /// What they read.
    ghost reads: { Self → (S : Type 0) → Machine S → Inner (Cursor S) };

    /// That they may be called, and read that.
    ghost ready: { Self → Type 0 };

    /// An expression of a level or a tighter one.
    fn expr(&self, p: &mut Parser<'a, I>, code: Around, level: u8) -> Result<Operand, Failure>
        requires { ready self.now }
        ensures value { ReadsExpr (stream_of I.machine) (state_of I.state) p.old p.new result
            ((reads self.now I.State I.machine).expr (code_of code) level) }
        ensures shorter { Shorter I.machine I.state p.old p.new result };

    /// A binding: a name or a pattern.
    fn pat(&self, p: &mut Parser<'a, I>, code: Around) -> Result<PatBox, Failure>
        requires { ready self.now }
        ensures value { ReadsPat (stream_of I.machine) (state_of I.state) p.old p.new result
            ((reads self.now I.State I.machine).pat (code_of code)) }
        ensures holds { IfOk result (λ x. holds_pat x.part.value) }
        ensures shorter { Shorter I.machine I.state p.old p.new result };

    /// A statement; where the code says so, a declaration.
    fn stmt(&self, p: &mut Parser<'a, I>, code: Around) -> Result<StmtBox, Failure>
        requires { ready self.now }
        ensures value { ReadsStmt (stream_of I.machine) (state_of I.state) p.old p.new result
            ((reads self.now I.State I.machine).stmt (code_of code)) }
        ensures holds { IfOk result (λ x. holds_stmt x.part.value) }
        ensures shorter { Shorter I.machine I.state p.old p.new result };

    /// A function's body in its braces.
    fn body(&self, p: &mut Parser<'a, I>, code: Around) -> Result<BlockStmt, Failure>
        requires { ready self.now }
        ensures value { ReadsBody (stream_of I.machine) (state_of I.state) p.old p.new result
            ((reads self.now I.State I.machine).body (code_of code)) }
        ensures fits { IfOk result (λ x. fits_block_stmt (λ p. p) x) }
        ensures shorter { Shorter I.machine I.state p.old p.new result };

    /// What follows a class's name. The span of the class starts at `whole`.
    fn class_tail(
        &self,
        p: &mut Parser<'a, I>,
        code: Around,
        whole: BytePos,
    ) -> Result<Box<Class>, Failure>
        requires { ready self.now }
        ensures value { ReadsClassTail (stream_of I.machine) (state_of I.state) p.old p.new result
            ((reads self.now I.State I.machine).class_tail (code_of code) whole.0) }
        ensures fits { IfOk result (λ x. fits_class (λ p. p) x.value) }
        ensures shorter { Shorter I.machine I.state p.old p.new result };

    /// The target of an assignment by an operator of this kind, which was read as an expression.
    fn target(&self, p: &Parser<'a, I>, kind: u8, left: Operand) -> Result<AssignTarget, Failure>
        ensures value { Gives (λ x. view_assign_target inner x) 0 result
            (to_target kind (state_of I.state p.now).commas (tree_of left)) }
        ensures fits { IfOk result (λ x. fits_assign_target (λ p. p) x) };

    /// Whether what stands between parentheses may be the parameters of an arrow.
    fn are_params(&self, p: &Parser<'a, I>, list: &Arguments) -> bool
        requires { FitArguments list.now }
        ensures { result ≡ is_read (params_of (stream_of I.machine)
            (reads self.now I.State I.machine) (state_of I.state p.now).commas
            (arguments_of list.now)) };

    /// What stands between parentheses, as the parameters of an arrow.
    fn params(&self, p: &Parser<'a, I>, list: Arguments) -> Result<Vec<PatBox>, Failure>
        ensures value { Gives (λ x. map (λ y. inner y.part.value) x.items) 0 result
            (params_of (stream_of I.machine) (reads self.now I.State I.machine)
            (state_of I.state p.now).commas (arguments_of list)) }
        ensures fits { IfOk result (λ x. All (λ y. holds_pat y.part.value) x.items) };
}
