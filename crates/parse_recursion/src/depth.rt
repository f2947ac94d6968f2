//! Nested parts that are read up to a depth: what the rules of a part call that stands alone.
ghost use Rattle.parse_state.specs.Cursors.{stream_of};
ghost use Rattle.grammar_spec.specs.Reader.Reading.{readers};

use crate::tie::{parse_body, parse_class_tail, parse_expr, parse_pat, parse_stmt};
use base_token::BytePos;
use parse_operands::lists::Arguments;
use parse_operands::{Nested, Operand};
use parse_refine::params::{are_params, params};
use parse_refine::targets::target;
use parse_state::{Around, Failure, Parser, Tokens};
use tree_nodes::{AssignTarget, BlockStmt, Class, PatBox, StmtBox};

/// The parsers of nested parts, each up to so many levels deep.
#[derive(Clone, Copy, Debug)]
pub struct Depth {
    /// How many levels may still be entered; at none the answer is too deep.
    pub levels: u32,
}

impl<'a, I: Tokens<'a> + Drop> Nested<'a, I> for Depth {
    ghost reads = { λ d State m. readers (stream_of m) d.levels };

    ghost ready = { λ _. Unit {0} };

    #[inline(always)]
    fn expr(&self, p: &mut Parser<'a, I>, code: Around, level: u8) -> Result<Operand, Failure> {
        parse_expr(p, self.levels, code, level)
    }

    #[inline(always)]
    fn pat(&self, p: &mut Parser<'a, I>, code: Around) -> Result<PatBox, Failure> {
        parse_pat(p, self.levels, code)
    }

    #[inline(always)]
    fn stmt(&self, p: &mut Parser<'a, I>, code: Around) -> Result<StmtBox, Failure> {
        parse_stmt(p, self.levels, code)
    }

    #[inline(always)]
    fn body(&self, p: &mut Parser<'a, I>, code: Around) -> Result<BlockStmt, Failure> {
        parse_body(p, self.levels, code)
    }

    #[inline(always)]
    fn class_tail(
        &self,
        p: &mut Parser<'a, I>,
        code: Around,
        whole: BytePos,
    ) -> Result<Box<Class>, Failure> {
        parse_class_tail(p, self.levels, code, whole)
    }

    fn target(&self, p: &Parser<'a, I>, kind: u8, left: Operand) -> Result<AssignTarget, Failure> {
        target(p.alloc, p.commas.as_slice(), kind, left.expr)
    }

    #[tactic(auto, unfolding(grammar_spec::specs::Reader::Expressions::params_of))]
    fn are_params(&self, p: &Parser<'a, I>, list: &Arguments) -> bool {
        are_params(p.commas.as_slice(), list)
    }

    #[tactic(auto, unfolding(grammar_spec::specs::Reader::Expressions::params_of))]
    fn params(&self, p: &Parser<'a, I>, list: Arguments) -> Result<Vec<PatBox>, Failure> {
        params(p.alloc, p.commas.as_slice(), list)
    }
}
