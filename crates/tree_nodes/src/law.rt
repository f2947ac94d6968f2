//! Laws of nodes that are called for the fact that they state. They have no code.
ghost use Rattle.std.specs.Prelude.{◌≡◌, true};
ghost use Rattle.tree_nodes.specs.Placed.{inner};
ghost use Rattle.tree_nodes.specs.Sorts.{expression, is_sorted, pattern, sort_of, statement};
ghost use Rattle.tree_nodes.specs.View.{view_expr_kind, view_pat_kind, view_stmt_kind};

use crate::expressions::ExprKind;
use crate::knot::{Part, PartKind};
use crate::patterns::PatKind;
use crate::statements::StmtKind;

/// Law: each kind of expression is an expression.
pub fn is_expression(kind: &ExprKind)
    ensures { sort_of (view_expr_kind inner kind.now) ≡ expression }
{}

/// Law: each kind of statement is a statement.
pub fn is_statement(kind: &StmtKind)
    ensures { sort_of (view_stmt_kind inner kind.now) ≡ statement }
{}

/// Law: each kind of pattern is a pattern.
pub fn is_pattern(kind: &PatKind)
    ensures { sort_of (view_pat_kind inner kind.now) ≡ pattern }
{}

/// Law: a part is of one of the three sorts.
pub fn is_sorted(part: &Part)
    ensures { is_sorted (sort_of (inner part.now)) ≡ true }
{
    match &part.sort {
        PartKind::Expr(x) => is_expression(&x.kind),
        PartKind::Stmt(x) => is_statement(&x.kind),
        PartKind::Pat(x) => is_pattern(&x.kind),
    }
}
