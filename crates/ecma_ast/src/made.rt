//! What makes a tree, and its short functions.
ghost use Rattle.std.specs.Prelude.{◌≡◌, ◌++◌, [], IfOk, None, length};
ghost use Rattle.tree_nodes.specs.Placed.{holds_expr, holds_stmt, inner, in_expr, in_stmt, in_pat};
ghost use Rattle.tree_nodes.specs.Fits.{fits_expr_kind, fits_stmt_kind, fits_pat_kind, fits_expr_or_spread};
ghost use Rattle.tree_nodes.specs.View.{view_expr_kind, view_stmt_kind, view_pat_kind, view_ident, view_expr_or_spread};
ghost use Rattle.tree_spec.specs.Places.{no_place};
ghost use Rattle.tree_spec.specs.Tree.{ident, expr_or_spread, expr_pat};

use base_token::{Atom, DUMMY_SP};
use std::alloc::{AllocError, Global};
use tree_nodes::{
    Expr, ExprBox, ExprKind, ExprOrSpread, Ident, Pat, PatBox, PatKind, Stmt, StmtBox, StmtKind,
};

/// Makes nodes, in the memory that it is given.
#[derive(Clone, Copy, Drop)]
pub struct Build {
    pub alloc: Global,
}

impl Build {
    /// An expression of any kind, as a child.
    pub fn expr(&self, kind: ExprKind) -> Result<ExprBox, AllocError>
        requires { fits_expr_kind (λ p. p) kind }
        ensures { IfOk result (λ c. c.part.value ≡ in_expr (view_expr_kind inner kind)) }
    {
        ExprBox::new(self.alloc, Expr { kind })
    }

    /// A statement of any kind, as a child.
    pub fn stmt(&self, kind: StmtKind) -> Result<StmtBox, AllocError>
        requires { fits_stmt_kind (λ p. p) kind }
        ensures { IfOk result (λ c. c.part.value ≡ in_stmt (view_stmt_kind inner kind)) }
    {
        StmtBox::new(self.alloc, Stmt { kind })
    }

    /// A pattern of any kind, as a child.
    pub fn pat(&self, kind: PatKind) -> Result<PatBox, AllocError>
        requires { fits_pat_kind (λ p. p) kind }
        ensures { IfOk result (λ c. c.part.value ≡ in_pat (view_pat_kind inner kind)) }
    {
        PatBox::new(self.alloc, Pat { kind })
    }

    /// An expression in the place of a pattern.
    pub fn expr_pat(&self, expr: ExprBox) -> Result<PatBox, AllocError>
        requires { holds_expr expr.part.value }
        ensures { IfOk result (λ c. c.part.value ≡ in_pat (expr_pat (inner expr.part.value))) }
    {
        self.pat(PatKind::Expr(expr))
    }

    /// A name, as it stands in a declaration or a label.
    pub fn name(&self, text: &str) -> Result<Ident, AllocError>
        ensures { IfOk result (λ x. view_ident x ≡ ident no_place text.now) }
    {
        let sym = Atom::new(self.alloc, text)?;
        Ok(Ident {
            span: DUMMY_SP,
            sym,
        })
    }

    /// A name as an expression.
    pub fn var(&self, text: &str) -> Result<ExprBox, AllocError>
        ensures { IfOk result (λ c. c.part.value ≡ in_expr (ident no_place text.now)) }
    {
        let node = self.name(text)?;
        self.expr(ExprKind::Ident(node))
    }

    /// An argument, or an element of an array.
    pub fn arg(&self, expr: ExprBox) -> ExprOrSpread
        requires { holds_expr expr.part.value }
        ensures value { view_expr_or_spread inner result ≡ expr_or_spread no_place None (inner expr.part.value) }
        ensures fits { fits_expr_or_spread (λ p. p) result }
    {
        ExprOrSpread {
            span: DUMMY_SP,
            spread: None,
            expr,
        }
    }
}
