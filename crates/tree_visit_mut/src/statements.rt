// Written by tools/tree/visit_mut.py from tools/tree/tree.table. Don't edit this file.
//! Changes statements (ECMA-262, clause 14).
ghost use Rattle.tree_nodes.specs.Fits.{fits_stmt_kind, fits_block_stmt, fits_switch_case, fits_try_stmt, fits_catch_clause, fits_var_decl_or_expr, fits_for_head};

use crate::walk::{
    Change, WalkMut, walk_all, walk_expr_at, walk_part, walk_stmt_at, walk_stmts, walk_value,
    walk_value_at,
};
use tree_nodes::{
    BlockStmtOf, CatchClauseOf, ForHeadOf, StmtKindOf, SwitchCaseOf, TryStmtOf, VarDeclOrExprOf,
};

impl<T, C: Change<T>> WalkMut<T, C> for StmtKindOf<T> {
    ghost fits = { λ x. fits_stmt_kind C.placed x };

    fn walk_mut(&mut self, by: &mut C) {
        match self {
            StmtKindOf::Block(x) => x.walk_mut(by),
            StmtKindOf::Empty(x) => by.span(&mut x.span),
            StmtKindOf::Debugger(x) => by.span(&mut x.span),
            StmtKindOf::With(x) => {
                x.obj.walk_mut(by);
                walk_stmt_at(&mut x.body, &mut x.span, by);
            }
            StmtKindOf::Return(x) => walk_value_at(&mut x.arg, &mut x.span, by),
            StmtKindOf::Labeled(x) => {
                x.label.walk_mut(by);
                walk_stmt_at(&mut x.body, &mut x.span, by);
            }
            StmtKindOf::Break(x) => {
                if let Some(part) = &mut x.label {
                    part.walk_mut(by);
                }
                by.span(&mut x.span);
            }
            StmtKindOf::Continue(x) => {
                if let Some(part) = &mut x.label {
                    part.walk_mut(by);
                }
                by.span(&mut x.span);
            }
            StmtKindOf::If(x) => {
                x.test.walk_mut(by);
                x.cons.walk_mut(by);
                walk_part(&mut x.alt, by);
                by.span(&mut x.span);
            }
            StmtKindOf::Switch(x) => {
                x.discriminant.walk_mut(by);
                walk_all(&mut x.cases, by);
                by.span(&mut x.span);
            }
            StmtKindOf::Throw(x) => walk_expr_at(&mut x.arg, &mut x.span, by),
            StmtKindOf::Try(x) => x.walk_mut(by),
            StmtKindOf::While(x) => {
                x.test.walk_mut(by);
                walk_stmt_at(&mut x.body, &mut x.span, by);
            }
            StmtKindOf::DoWhile(x) => {
                x.body.walk_mut(by);
                walk_expr_at(&mut x.test, &mut x.span, by);
            }
            StmtKindOf::For(x) => {
                walk_part(&mut x.init, by);
                walk_value(&mut x.test, by);
                walk_value(&mut x.update, by);
                walk_stmt_at(&mut x.body, &mut x.span, by);
            }
            StmtKindOf::ForIn(x) => {
                x.left.walk_mut(by);
                x.right.walk_mut(by);
                walk_stmt_at(&mut x.body, &mut x.span, by);
            }
            StmtKindOf::ForOf(x) => {
                x.left.walk_mut(by);
                x.right.walk_mut(by);
                walk_stmt_at(&mut x.body, &mut x.span, by);
            }
            StmtKindOf::Decl(x) => x.walk_mut(by),
            StmtKindOf::Expr(x) => walk_expr_at(&mut x.expr, &mut x.span, by),
        }
    }
}

impl<T, C: Change<T>> WalkMut<T, C> for BlockStmtOf<T> {
    ghost fits = { λ x. fits_block_stmt C.placed x };

    fn walk_mut(&mut self, by: &mut C) {
        walk_stmts(&mut self.stmts, by);
        by.span(&mut self.span);
    }
}

impl<T, C: Change<T>> WalkMut<T, C> for SwitchCaseOf<T> {
    ghost fits = { λ x. fits_switch_case C.placed x };

    fn walk_mut(&mut self, by: &mut C) {
        walk_value(&mut self.test, by);
        walk_stmts(&mut self.cons, by);
        by.span(&mut self.span);
    }
}

impl<T, C: Change<T>> WalkMut<T, C> for TryStmtOf<T> {
    ghost fits = { λ x. fits_try_stmt C.placed x };

    fn walk_mut(&mut self, by: &mut C) {
        self.block.walk_mut(by);
        walk_part(&mut self.handler, by);
        walk_part(&mut self.finalizer, by);
        by.span(&mut self.span);
    }
}

impl<T, C: Change<T>> WalkMut<T, C> for CatchClauseOf<T> {
    ghost fits = { λ x. fits_catch_clause C.placed x };

    fn walk_mut(&mut self, by: &mut C) {
        walk_part(&mut self.param, by);
        self.body.walk_mut(by);
        by.span(&mut self.span);
    }
}

impl<T, C: Change<T>> WalkMut<T, C> for VarDeclOrExprOf<T> {
    ghost fits = { λ x. fits_var_decl_or_expr C.placed x };

    fn walk_mut(&mut self, by: &mut C) {
        match self {
            VarDeclOrExprOf::VarDecl(x) => x.walk_mut(by),
            VarDeclOrExprOf::UsingDecl(x) => x.walk_mut(by),
            VarDeclOrExprOf::Expr(x) => x.walk_mut(by),
        }
    }
}

impl<T, C: Change<T>> WalkMut<T, C> for ForHeadOf<T> {
    ghost fits = { λ x. fits_for_head C.placed x };

    fn walk_mut(&mut self, by: &mut C) {
        match self {
            ForHeadOf::VarDecl(x) => x.walk_mut(by),
            ForHeadOf::UsingDecl(x) => x.walk_mut(by),
            ForHeadOf::Pat(x) => x.walk_mut(by),
        }
    }
}
