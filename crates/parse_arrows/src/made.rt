//! Makers of arrows, functions and parentheses. Each stands in a function of its own, so that rules keep small frames.
ghost use Rattle.std.specs.Prelude.{◌≡◌, [], ◌∷◌, All, IfErr, IfOk, map};
ghost use Rattle.tree_spec.specs.Tree.{arrow_expr, binding_ident, ident, paren_expr, trees_by};
ghost use Rattle.grammar_spec.specs.Tokens.Shape as shape;
ghost use Rattle.tree_nodes.specs.Fits.{fits_block_stmt, fits_fn_expr};
ghost use Rattle.tree_nodes.specs.Placed.{holds_expr, holds_pat, inner};
ghost use Rattle.tree_nodes.specs.View.{view_block_stmt, view_fn_expr};
ghost use Rattle.parse_state.specs.Answers.{IsMemory};
ghost use Rattle.parse_operands.specs.Operands.{tree_of};

use base_token::{Atom, Span};
use parse_operands::Operand;
use parse_operands::made::operand;
use parse_state::Failure;
use parse_state::operators::{ASSIGNMENT, CLOSED_END, OTHER_END, PRIMARY};
use std::alloc::Global;
use tree_nodes::{
    ArrowExpr, BindingIdent, BlockStmt, BlockStmtOrExpr, ExprBox, ExprKind, FnExpr, Ident,
    ParenExpr, Pat, PatBox, PatKind,
};

/// An arrow with a block for its body.
#[inline(never)]
pub fn block_arrow(
    alloc: Global,
    span: Span,
    params: Vec<PatBox>,
    body: BlockStmt,
    is_async: bool,
) -> Result<Operand, Failure>
    requires params { All (λ x. holds_pat x.part.value) params.items }
    requires body { fits_block_stmt (λ p. p) body }
    ensures value { IfOk result (λ o. tree_of o
        ≡ arrow_expr span (trees_by (λ x. inner x.part.value) params.items)
        (view_block_stmt inner body) is_async) }
    ensures full { IfErr result IsMemory }
{
    let node = ArrowExpr {
        span,
        params,
        body: BlockStmtOrExpr::BlockStmt(body),
        is_async,
    };
    operand(alloc, ExprKind::Arrow(node), ASSIGNMENT, CLOSED_END)
}

/// Whether an expression is a block, which none is.
fn is_block(operand: &Operand) -> bool
    ensures { result ≡ shape.is_block (tree_of operand.now) }
{
    // For the proof: the match shows the kind, and by it no expression is a block.
    match &operand.expr.get().kind {
        ExprKind::Seq(_) => false,
        _ => false,
    }
}

/// An arrow with an expression for its body.
#[inline(never)]
pub fn plain_arrow(
    alloc: Global,
    span: Span,
    params: Vec<PatBox>,
    body: Operand,
    is_async: bool,
) -> Result<Operand, Failure>
    requires params { All (λ x. holds_pat x.part.value) params.items }
    ensures value { IfOk result (λ o. tree_of o
        ≡ arrow_expr span (trees_by (λ x. inner x.part.value) params.items) (tree_of body)
        is_async) }
    ensures full { IfErr result IsMemory }
{
    let end = if is_block(&body) {
        CLOSED_END
    } else {
        body.end
    };
    let node = ArrowExpr {
        span,
        params,
        body: BlockStmtOrExpr::Expr(body.expr),
        is_async,
    };
    operand(alloc, ExprKind::Arrow(node), ASSIGNMENT, end)
}

/// The parameters of an arrow that has one name for them.
#[inline(never)]
pub fn one_param(alloc: Global, span: Span, sym: Atom) -> Result<Vec<PatBox>, Failure>
    ensures value { IfOk result (λ x. map (λ y. inner y.part.value) x.items
        ≡ binding_ident span (ident span sym) ∷ []) }
    ensures fits { IfOk result (λ x. All (λ y. holds_pat y.part.value) x.items) }
    ensures full { IfErr result IsMemory }
{
    let id = Ident { span, sym };
    let kind = PatKind::Ident(BindingIdent { span, id });
    let param = PatBox::new(alloc, Pat { kind })?;
    let mut params = Vec::with_capacity(alloc, 1)?;
    params.push(param)?;
    Ok(params)
}

/// A function as an expression.
#[inline(never)]
pub fn fn_expr(alloc: Global, node: FnExpr) -> Result<Operand, Failure>
    requires { fits_fn_expr (λ p. p) node }
    ensures value { IfOk result (λ o. tree_of o ≡ view_fn_expr inner node) }
    ensures full { IfErr result IsMemory }
{
    operand(alloc, ExprKind::Fn(node), PRIMARY, OTHER_END)
}

/// An expression in parentheses.
#[inline(never)]
pub fn paren_expr(alloc: Global, span: Span, expr: ExprBox) -> Result<Operand, Failure>
    requires { holds_expr expr.part.value }
    ensures value { IfOk result (λ o. tree_of o ≡ paren_expr span (inner expr.part.value)) }
    ensures full { IfErr result IsMemory }
{
    operand(
        alloc,
        ExprKind::Paren(ParenExpr { span, expr }),
        PRIMARY,
        OTHER_END,
    )
}
