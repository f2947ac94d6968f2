//! Makers of sequences.
ghost use Rattle.std.specs.Prelude.{◌≡◌, [], All, IfErr, IfOk};
ghost use Rattle.tree_nodes.specs.Fits.{fits_expr_kind};
ghost use Rattle.tree_nodes.specs.Placed.{holds_expr, inner};
ghost use Rattle.tree_nodes.specs.View.{view_expr_kind, view_seq_expr};
ghost use Rattle.base_token.specs.declared.place.Span.{Span};
ghost use Rattle.tree_spec.specs.Tree.{Tree, more, none, seq_expr};
ghost use Rattle.grammar_spec.specs.Reader.Expressions.{extended};
ghost use Rattle.parse_state.specs.Answers.{IsMemory};
ghost use Rattle.parse_operands.specs.Operands.{tree_of};

use base_token::Span;
use parse_operands::Operand;
use parse_operands::made::operand;
use parse_state::Failure;
use parse_state::operators::EXPRESSION;
use std::alloc::Global;
use tree_nodes::{Expr, ExprBox, ExprKind, SeqExpr};

/// A sequence, apart from other expressions.
// For the proof: a function of its own, whose clauses say what a match on all kinds comes to.
fn as_seq(kind: ExprKind) -> Result<SeqExpr, ExprKind>
    requires { fits_expr_kind (λ p. p) kind }
    ensures seq { IfOk result (λ x. view_expr_kind inner kind ≡ view_seq_expr inner x) }
    ensures holds { IfOk result (λ x. All (λ e. holds_expr e.part.value) x.exprs.items) }
    ensures other { IfErr result (λ k. k ≡ kind) }
    ensures apart { IfErr result (λ k. (t : Tree) (n : Span) → extended (view_expr_kind inner k) t n
        ≡ seq_expr n (more (view_expr_kind inner k) (more t none))) }
{
    match kind {
        ExprKind::Seq(node) => Ok(node),
        other => Err(other),
    }
}

/// A sequence with one more expression.
#[tactic(auto, using(parse_operands::proofs::Packs::packs))]
fn more_seq(alloc: Global, span: Span, node: SeqExpr, right: Operand) -> Result<Operand, Failure>
    requires { All (λ e. holds_expr e.part.value) node.exprs.items }
    ensures value { IfOk result (λ o. tree_of o ≡ extended (view_seq_expr inner node) (tree_of right) span) }
    ensures full { IfErr result IsMemory }
{
    let end = right.end;
    let mut exprs = node.exprs;
    exprs.push(right.expr)?;
    operand(
        alloc,
        ExprKind::Seq(SeqExpr { span, exprs }),
        EXPRESSION,
        end,
    )
}

/// A sequence of two expressions.
fn two_seq(alloc: Global, span: Span, kind: ExprKind, right: Operand) -> Result<Operand, Failure>
    requires { fits_expr_kind (λ p. p) kind }
    ensures value { IfOk result (λ o. tree_of o
        ≡ seq_expr span (more (view_expr_kind inner kind) (more (tree_of right) none))) }
    ensures full { IfErr result IsMemory }
{
    let end = right.end;
    let first = ExprBox::new(alloc, Expr { kind })?;
    let mut exprs = Vec::with_capacity(alloc, 2)?;
    exprs.push(first)?;
    exprs.push(right.expr)?;
    operand(
        alloc,
        ExprKind::Seq(SeqExpr { span, exprs }),
        EXPRESSION,
        end,
    )
}

/// A sequence of two expressions, or a longer one where the first is a sequence.
#[inline(never)]
pub fn seq_expr(
    alloc: Global,
    span: Span,
    left: Operand,
    right: Operand,
) -> Result<Operand, Failure>
    ensures value { IfOk result (λ o. tree_of o ≡ extended (tree_of left) (tree_of right) span) }
    ensures full { IfErr result IsMemory }
{
    match as_seq(left.expr.into_inner().kind) {
        Ok(node) => more_seq(alloc, span, node, right),
        Err(kind) => two_seq(alloc, span, kind, right),
    }
}
