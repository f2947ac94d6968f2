//! The rules over a parser.
ghost use Rattle.std.specs.Prelude.{◌≡◌, ◌<◌, All, IfOk, map};
ghost use Rattle.tree_nodes.specs.Fits.{fits_assign_target, fits_block_stmt, fits_class};
ghost use Rattle.tree_nodes.specs.Placed.{inner, holds_pat, holds_stmt};
ghost use Rattle.tree_nodes.specs.View.{view_assign_target, view_block_stmt, view_class};
ghost use Rattle.grammar_spec.specs.Reader.Source as spec;
ghost use Rattle.grammar_spec.specs.Reader.Source.{Inner, Stream};
ghost use Rattle.grammar_spec.specs.Reader.Expressions as reads;
ghost use Rattle.grammar_spec.specs.Reader.Statements as stmts;
ghost use Rattle.grammar_spec.specs.Reader.Reading.{readers};
ghost use Rattle.parse_state.specs.Answers.{Gives};
ghost use Rattle.parse_state.specs.Codes.{code_of};
ghost use Rattle.parse_state.specs.Cursors.{Cursor, stream_of};
ghost use Rattle.parse_state.specs.States.{state_of};
ghost use Rattle.parse_operands.specs.Operands.{tree_of};
ghost use Rattle.grammar_spec.specs.Reader.Cover.{to_target};
ghost use Rattle.grammar_spec.specs.Reader.Expressions.{params_of};
ghost use Rattle.parse_operands.specs.Lists.{arguments_of};

use crate::layer::{Inside, Layer, Stood};
use base_token::BytePos;
use parse_any_statement::statements::statement;
use parse_any_statement::{body, class_tail};
use parse_operands::lists::Arguments;
use parse_operands::{Nested, Operand};
use parse_patterns::patterns::pattern;
use parse_primary::expressions::expr;
use parse_refine::params::{are_params, params};
use parse_refine::targets::target;
use parse_state::{Around, Failure, Parser, Tokens};
use tree_nodes::{AssignTarget, BlockStmt, Class, PatBox, StmtBox};

/// What is inside, as the rules call it.
#[derive(Drop)]
pub struct Through<'n, N> {
    pub inside: &'n N,
}

impl<'a, I: Tokens<'a> + Drop> Stood for Parser<'a, I> {
    ghost State = { Cursor I.State };

    ghost machine = { stream_of I.machine };

    ghost stood = { λ p. state_of I.state p };
}

impl<'a, 'n, I: Tokens<'a> + Drop, N: Inside<Parser<'a, I>>> Nested<'a, I> for Through<'n, N> {
    ghost reads = { λ t State m. N.reads t.inside.now (Cursor State) (stream_of m) };

    ghost ready = { λ t. N.ready t.inside.now };

    #[inline(always)]
    fn expr(&self, p: &mut Parser<'a, I>, code: Around, level: u8) -> Result<Operand, Failure> {
        self.inside.expr(p, code, level)
    }

    #[inline(always)]
    fn pat(&self, p: &mut Parser<'a, I>, code: Around) -> Result<PatBox, Failure> {
        self.inside.pat(p, code)
    }

    #[inline(always)]
    fn stmt(&self, p: &mut Parser<'a, I>, code: Around) -> Result<StmtBox, Failure> {
        self.inside.stmt(p, code)
    }

    #[inline(always)]
    fn body(&self, p: &mut Parser<'a, I>, code: Around) -> Result<BlockStmt, Failure> {
        self.inside.body(p, code)
    }

    #[inline(always)]
    fn class_tail(
        &self,
        p: &mut Parser<'a, I>,
        code: Around,
        whole: BytePos,
    ) -> Result<Box<Class>, Failure> {
        self.inside.class_tail(p, code, whole)
    }

    #[inline(never)]
    fn target(&self, p: &Parser<'a, I>, kind: u8, left: Operand) -> Result<AssignTarget, Failure> {
        target(p.alloc, p.commas.as_slice(), kind, left.expr)
    }

    #[tactic(auto, unfolding(grammar_spec::specs::Reader::Expressions::params_of))]
    fn are_params(&self, p: &Parser<'a, I>, list: &Arguments) -> bool {
        are_params(p.commas.as_slice(), list)
    }

    #[tactic(auto, unfolding(grammar_spec::specs::Reader::Expressions::params_of))]
    fn params(&self, p: &Parser<'a, I>, list: Arguments) -> Result<Vec<PatBox>, Failure> {
        params(p.alloc, p.commas.as_slice(), list)
    }
}

impl<'a, I: Tokens<'a> + Drop> Layer for Parser<'a, I> {
    #[inline(always)]
    fn read_expr<N: Inside<Parser<'a, I>>>(
        &mut self,
        nested: &N,
        code: Around,
        level: u8,
    ) -> Result<Operand, Failure> {
        expr(self, &Through { inside: nested }, code, level)
    }

    #[inline(always)]
    fn read_pat<N: Inside<Parser<'a, I>>>(
        &mut self,
        nested: &N,
        code: Around,
    ) -> Result<PatBox, Failure> {
        pattern(self, &Through { inside: nested }, code)
    }

    #[inline(always)]
    fn read_stmt<N: Inside<Parser<'a, I>>>(
        &mut self,
        nested: &N,
        code: Around,
    ) -> Result<StmtBox, Failure> {
        statement(self, &Through { inside: nested }, code)
    }

    #[inline(always)]
    fn read_body<N: Inside<Parser<'a, I>>>(
        &mut self,
        nested: &N,
        code: Around,
    ) -> Result<BlockStmt, Failure> {
        body(self, &Through { inside: nested }, code)
    }

    #[inline(always)]
    fn read_class_tail<N: Inside<Parser<'a, I>>>(
        &mut self,
        nested: &N,
        code: Around,
        whole: BytePos,
    ) -> Result<Box<Class>, Failure> {
        class_tail(self, &Through { inside: nested }, code, whole)
    }
}
