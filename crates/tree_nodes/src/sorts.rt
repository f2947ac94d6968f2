//! What a part is of.
ghost use Rattle.std.specs.Prelude.{◌≡◌, false, MatchOption};
ghost use Rattle.tree_nodes.specs.Placed.{inner};
ghost use Rattle.tree_nodes.specs.Sorts.{is_expression, is_pattern, is_statement, sort_of};

use crate::knot::{Expr, Part, PartKind, Pat, Stmt};
use crate::law;

impl Part {
    /// The expression that it is.
    pub fn as_expr(&self) -> Option<&Expr>
        ensures { MatchOption result (is_expression (sort_of (inner self.now)) ≡ false) (λ x. inner self.now ≡ x.now) }
    {
        match &self.sort {
            PartKind::Expr(x) => Some(x),
            PartKind::Stmt(x) => {
                law::is_statement(&x.kind);
                None
            }
            PartKind::Pat(x) => {
                law::is_pattern(&x.kind);
                None
            }
        }
    }

    /// The statement that it is.
    pub fn as_stmt(&self) -> Option<&Stmt>
        ensures { MatchOption result (is_statement (sort_of (inner self.now)) ≡ false) (λ x. inner self.now ≡ x.now) }
    {
        match &self.sort {
            PartKind::Expr(x) => {
                law::is_expression(&x.kind);
                None
            }
            PartKind::Stmt(x) => Some(x),
            PartKind::Pat(x) => {
                law::is_pattern(&x.kind);
                None
            }
        }
    }

    /// The pattern that it is.
    pub fn as_pat(&self) -> Option<&Pat>
        ensures { MatchOption result (is_pattern (sort_of (inner self.now)) ≡ false) (λ x. inner self.now ≡ x.now) }
    {
        match &self.sort {
            PartKind::Expr(x) => {
                law::is_expression(&x.kind);
                None
            }
            PartKind::Stmt(x) => {
                law::is_statement(&x.kind);
                None
            }
            PartKind::Pat(x) => Some(x),
        }
    }
}
