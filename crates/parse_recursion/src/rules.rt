//! The functions of the tie, as what the rules call.
ghost use Rattle.std.specs.Prelude.{IfOk};
ghost use Rattle.tree_nodes.specs.Fits.{fits_block_stmt, fits_class};
ghost use Rattle.tree_nodes.specs.Placed.{holds_pat, holds_stmt};
ghost use Rattle.grammar_spec.specs.Reader.Reading.{readers};
ghost use Rattle.parse_state.specs.Codes.{code_of};
ghost use Rattle.parse_state.specs.Reads.{ShorterOver};
ghost use Rattle.parse_operands.specs.Rules.{ReadsExpr, ReadsPat, ReadsStmt, ReadsBody, ReadsClassTail};
ghost use Rattle.parse_recursion.specs.Nests.{Nests, NestsAt};

use crate::layer::{Inside, Stood};
use base_token::BytePos;
use parse_operands::Operand;
use parse_state::{Around, Failure};
use tree_nodes::{BlockStmt, Class, PatBox, StmtBox};

/// The five functions, and how many levels may still be entered.
#[derive(Drop)]
pub struct Rules<E, P, S, B, C> {
    pub left: u32,
    pub expr: E,
    pub pat: P,
    pub stmt: S,
    pub body: B,
    pub class_tail: C,
}

impl<
    T: Stood,
    E: Fn(&mut T, u32, Around, u8) -> Result<Operand, Failure>,
    P: Fn(&mut T, u32, Around) -> Result<PatBox, Failure>,
    S: Fn(&mut T, u32, Around) -> Result<StmtBox, Failure>,
    B: Fn(&mut T, u32, Around) -> Result<BlockStmt, Failure>,
    C: Fn(&mut T, u32, Around, BytePos) -> Result<Box<Class>, Failure>,
> Inside<T> for Rules<E, P, S, B, C> {
    ghost reads = { λ r State m. readers m r.left };

    ghost ready = { λ r. record {
      expr : NestsAt r.left (E.pre r.expr) (E.post r.expr) (λ code level old result new. record {
        value : ReadsExpr T.machine T.stood old new result
            ((readers T.machine r.left).expr (code_of code) level);
        shorter : ShorterOver T.machine T.stood old new result;
      });
      pat : Nests r.left (P.pre r.pat) (P.post r.pat) (λ code old result new. record {
        value : ReadsPat T.machine T.stood old new result
            ((readers T.machine r.left).pat (code_of code));
        holds : IfOk result (λ x. holds_pat x.part.value);
        shorter : ShorterOver T.machine T.stood old new result;
      });
      stmt : Nests r.left (S.pre r.stmt) (S.post r.stmt) (λ code old result new. record {
        value : ReadsStmt T.machine T.stood old new result
            ((readers T.machine r.left).stmt (code_of code));
        holds : IfOk result (λ x. holds_stmt x.part.value);
        shorter : ShorterOver T.machine T.stood old new result;
      });
      body : Nests r.left (B.pre r.body) (B.post r.body) (λ code old result new. record {
        value : ReadsBody T.machine T.stood old new result
            ((readers T.machine r.left).body (code_of code));
        fits : IfOk result (λ x. fits_block_stmt (λ p. p) x);
        shorter : ShorterOver T.machine T.stood old new result;
      });
      class_tail : NestsAt r.left (C.pre r.class_tail) (C.post r.class_tail) (λ code whole old result new. record {
        value : ReadsClassTail T.machine T.stood old new result
            ((readers T.machine r.left).class_tail (code_of code) whole.0);
        fits : IfOk result (λ x. fits_class (λ p. p) x.value);
        shorter : ShorterOver T.machine T.stood old new result;
      });
    } };

    #[inline(always)]
    fn expr(&self, p: &mut T, code: Around, level: u8) -> Result<Operand, Failure> {
        (self.expr)(p, self.left, code, level)
    }

    #[inline(always)]
    fn pat(&self, p: &mut T, code: Around) -> Result<PatBox, Failure> {
        (self.pat)(p, self.left, code)
    }

    #[inline(always)]
    fn stmt(&self, p: &mut T, code: Around) -> Result<StmtBox, Failure> {
        (self.stmt)(p, self.left, code)
    }

    #[inline(always)]
    fn body(&self, p: &mut T, code: Around) -> Result<BlockStmt, Failure> {
        (self.body)(p, self.left, code)
    }

    #[inline(always)]
    fn class_tail(&self, p: &mut T, code: Around, whole: BytePos) -> Result<Box<Class>, Failure> {
        (self.class_tail)(p, self.left, code, whole)
    }
}
