//! What is asked of expressions, statements and patterns.
ghost use Rattle.std.specs.Prelude.{◌≡◌, true, false, MatchOption, Some, None};
ghost use Rattle.grammar_spec.specs.Tokens.Shape.{is_bound_name, is_directive};
ghost use Rattle.tree_nodes.specs.Placed.{inner};
ghost use Rattle.tree_nodes.specs.View.{view_ident};
ghost use Rattle.grammar_spec.specs.Judge.Early.{is_loop, is_updatable, name_in, own_use_strict};
ghost use Rattle.tree_spec.specs.Tree.{trees_by};
ghost use Rattle.judge.specs.Faults.Asked.{own_of, use_strict_of, using_of};

use crate::faults::check::Held;
use base_token::Span;
use std::convert::AsStr;
use tree_nodes::{DeclOf, Expr, ExprKind, Ident, Lit, Part, Stmt, StmtBox, StmtKind, law};

/// Whether a statement is a loop, or a loop behind labels.
fn is_loop(stmt: &Stmt) -> bool
    ensures { result ≡ is_loop stmt.now }
{
    let mut stmt = stmt;
    while let StmtKind::Labeled(labeled) = &stmt.kind {
        stmt = labeled.body.get();
    }
    matches!(
        &stmt.kind,
        StmtKind::While(_)
            | StmtKind::DoWhile(_)
            | StmtKind::For(_)
            | StmtKind::ForIn(_)
            | StmtKind::ForOf(_)
    )
}

/// The place of the directive `'use strict'`.
fn use_strict(stmt: &Stmt) -> Option<Span>
    ensures { result ≡ use_strict_of stmt.now }
{
    let StmtKind::Expr(x) = &stmt.kind else {
        return None;
    };
    let ExprKind::Lit(Lit::Str(string)) = &x.expr.get().kind else {
        return None;
    };
    match &string.raw {
        Some(raw) if raw.as_str() == "\"use strict\"" || raw.as_str() == "'use strict'" => {
            Some(x.span)
        }
        _ => None,
    }
}

/// The place of the first `'use strict'` among the directives of a block.
#[tactic(auto, using(crate::proofs::faults::Asking::own_step))]
fn block_use_strict(items: &[StmtBox]) -> Option<Span>
    ensures { result ≡ own_use_strict (trees_by (λ x. inner x.part.value) items.now) }
{
    for x in items {
        if let Some(span) = x.part.use_strict() {
            return Some(span);
        }
        if !x.part.is_directive() {
            return None;
        }
    }
    None
}

/// The name that an expression is, in parentheses or not.
fn name(expr: &Expr) -> Option<&Ident>
    ensures { MatchOption result (name_in expr.now ≡ None) (λ x. name_in expr.now ≡ Some (view_ident x.now)) }
{
    let mut expr = expr;
    while let ExprKind::Paren(paren) = &expr.kind {
        expr = paren.expr.get();
    }
    expr.as_ident()
}

/// Whether an expression is what `++` and `--` may change.
fn is_updatable(expr: &Expr) -> bool
    ensures { result ≡ is_updatable expr.now }
{
    let mut expr = expr;
    while let ExprKind::Paren(paren) = &expr.kind {
        expr = paren.expr.get();
    }
    matches!(
        &expr.kind,
        ExprKind::Ident(_) | ExprKind::Member(_) | ExprKind::SuperProp(_)
    )
}

impl Held for Part {
    #[tactic(auto, using(crate::proofs::faults::Sorted::child_sort))]
    fn is_child(&self) {
        law::is_sorted(self);
    }

    #[tactic(auto, using(crate::proofs::faults::Sorted::loop_sort))]
    fn is_loop(&self) -> bool {
        match self.as_stmt() {
            Some(x) => is_loop(x),
            None => false,
        }
    }

    #[tactic(auto, using(crate::proofs::faults::Sorted::directive_sort))]
    fn is_directive(&self) -> bool {
        match self.as_stmt() {
            Some(x) => x.is_directive(),
            None => false,
        }
    }

    #[tactic(auto, using(crate::proofs::faults::Sorted::use_strict_sort))]
    fn use_strict(&self) -> Option<Span> {
        match self.as_stmt() {
            Some(x) => use_strict(x),
            None => None,
        }
    }

    #[tactic(auto, using(crate::proofs::faults::Sorted::own_sort))]
    fn own_use_strict(&self) -> Option<Span> {
        match self.as_stmt() {
            Some(x) => match &x.kind {
                StmtKind::Block(block) => block_use_strict(block.stmts.as_slice()),
                _ => None,
            },
            None => None,
        }
    }

    #[tactic(auto, using(crate::proofs::faults::Sorted::using_sort))]
    fn using_place(&self) -> Option<Span> {
        match self.as_stmt() {
            Some(x) => match &x.kind {
                StmtKind::Decl(DeclOf::Using(decl)) => Some(decl.span),
                _ => None,
            },
            None => None,
        }
    }

    #[tactic(auto, using(crate::proofs::faults::Sorted::updatable_sort))]
    fn is_updatable(&self) -> bool {
        match self.as_expr() {
            Some(x) => is_updatable(x),
            None => false,
        }
    }

    #[tactic(auto, using(crate::proofs::faults::Sorted::name_sort))]
    fn name(&self) -> Option<&Ident> {
        match self.as_expr() {
            Some(x) => name(x),
            None => None,
        }
    }

    #[tactic(auto, using(crate::proofs::faults::Sorted::bound_sort))]
    fn is_bound_name(&self) -> bool {
        match self.as_pat() {
            Some(x) => x.as_ident().is_some(),
            None => false,
        }
    }
}
