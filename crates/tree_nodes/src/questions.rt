//! Questions about nodes. Those about a child in its box need no more than the box, so that a closure may
//! ask them.
ghost use Rattle.std.specs.Prelude.{◌≡◌, false, MatchOption};
ghost use Rattle.tree_nodes.specs.View.{view_ident, view_binding_ident};
ghost use Rattle.tree_nodes.specs.Questions.{expr_in, stmt_in, pat_in, is_debugger, is_empty, is_directive, is_name, is_bound_name};

use crate::expressions::{ExprKindOf, Ident};
use crate::knot::{Child, Expr, ExprTag, Part, PartKind, Pat, PatTag, Stmt, StmtTag};
use crate::literals::Lit;
use crate::patterns::{BindingIdent, PatKindOf};
use crate::statements::StmtKindOf;

impl Expr {
    /// The name that it is.
    pub fn as_ident(&self) -> Option<&Ident>
        ensures { MatchOption result (is_name self.now ≡ false) (λ x. self.now ≡ view_ident x.now) }
    {
        match &self.kind {
            ExprKindOf::Ident(x) => Some(x),
            _ => None,
        }
    }
}

impl Stmt {
    /// Whether it is `debugger;`.
    pub fn is_debugger(&self) -> bool
        ensures { result ≡ is_debugger self.now }
    {
        matches!(&self.kind, StmtKindOf::Debugger(_))
    }

    /// Whether it is `;`.
    pub fn is_empty(&self) -> bool
        ensures { result ≡ is_empty self.now }
    {
        matches!(&self.kind, StmtKindOf::Empty(_))
    }

    /// Whether it is a string without parentheses, as a directive is.
    pub fn is_directive(&self) -> bool
        ensures { result ≡ is_directive self.now }
    {
        match &self.kind {
            StmtKindOf::Expr(x) => matches!(&x.expr.get().kind, ExprKindOf::Lit(Lit::Str(_))),
            _ => false,
        }
    }
}

impl Pat {
    /// The name that it is.
    pub fn as_ident(&self) -> Option<&BindingIdent>
        ensures { MatchOption result (is_bound_name self.now ≡ false) (λ x. self.now ≡ view_binding_ident x.now) }
    {
        match &self.kind {
            PatKindOf::Ident(x) => Some(x),
            _ => None,
        }
    }
}

impl Child<Part, ExprTag> {
    /// The name that it is.
    pub fn as_ident(&self) -> Option<&Ident>
        ensures { MatchOption result (is_name (expr_in self.now.part.value) ≡ false) (λ x. expr_in self.now.part.value ≡ view_ident x.now) }
    {
        match &self.part.sort {
            PartKind::Expr(x) => x.as_ident(),
            _ => None,
        }
    }
}

impl Child<Part, StmtTag> {
    /// Whether it is `debugger;`.
    pub fn is_debugger(&self) -> bool
        ensures { result ≡ is_debugger (stmt_in self.now.part.value) }
    {
        match &self.part.sort {
            PartKind::Stmt(x) => x.is_debugger(),
            _ => false,
        }
    }

    /// Whether it is `;`.
    pub fn is_empty(&self) -> bool
        ensures { result ≡ is_empty (stmt_in self.now.part.value) }
    {
        match &self.part.sort {
            PartKind::Stmt(x) => x.is_empty(),
            _ => false,
        }
    }

    /// Whether it is a string without parentheses, as a directive is.
    pub fn is_directive(&self) -> bool
        ensures { result ≡ is_directive (stmt_in self.now.part.value) }
    {
        match &self.part.sort {
            PartKind::Stmt(x) => x.is_directive(),
            _ => false,
        }
    }
}

impl Child<Part, PatTag> {
    /// The name that it is.
    pub fn as_ident(&self) -> Option<&BindingIdent>
        ensures { MatchOption result (is_bound_name (pat_in self.now.part.value) ≡ false) (λ x. pat_in self.now.part.value ≡ view_binding_ident x.now) }
    {
        match &self.part.sort {
            PartKind::Pat(x) => x.as_ident(),
            _ => None,
        }
    }
}
