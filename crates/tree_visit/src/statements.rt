// Written by tools/tree/visit.py from tools/tree/tree.table. Don't edit this file.
//! Goes over statements (ECMA-262, clause 14).
ghost use Rattle.tree_nodes.specs.View.{view_stmt_kind, view_block_stmt, view_empty_stmt, view_if_stmt, view_switch_case, view_try_stmt, view_catch_clause, view_for_stmt, view_var_decl_or_expr, view_for_head};

use crate::kinds::Kind;
use crate::lists::{walk_all, walk_headed, walk_part, walk_three, walk_two};
use crate::told::{enter_part, leave_part, tell_leaf, tell_list};
use crate::watch::{Inside, Walk, Watch};
use tree_nodes::{
    BlockStmtOf, CatchClauseOf, EmptyStmt, ForHeadOf, ForStmtOf, IfStmtOf, StmtKindOf,
    SwitchCaseOf, TryStmtOf, VarDeclOrExprOf,
};

impl<T: Walk> Inside for StmtKindOf<T> {
    ghost tree = { view_stmt_kind T.tree };

    fn inside<V: Watch>(&self, visitor: &mut V) {
        match self {
            StmtKindOf::Block(x) => walk_all(x.stmts.as_slice(), visitor),
            StmtKindOf::Empty(_) => {}
            StmtKindOf::Debugger(_) => {}
            StmtKindOf::With(x) => walk_two(&x.obj, &x.body, visitor),
            StmtKindOf::Return(x) => walk_part(&x.arg, visitor),
            StmtKindOf::Labeled(x) => walk_two(&x.label, &x.body, visitor),
            StmtKindOf::Break(x) => walk_part(&x.label, visitor),
            StmtKindOf::Continue(x) => walk_part(&x.label, visitor),
            StmtKindOf::If(x) => x.inside(visitor),
            StmtKindOf::Switch(x) => walk_headed(&x.discriminant, x.cases.as_slice(), visitor),
            StmtKindOf::Throw(x) => x.arg.walk(visitor),
            StmtKindOf::Try(x) => x.inside(visitor),
            StmtKindOf::While(x) => walk_two(&x.test, &x.body, visitor),
            StmtKindOf::DoWhile(x) => walk_two(&x.body, &x.test, visitor),
            StmtKindOf::For(x) => x.inside(visitor),
            StmtKindOf::ForIn(x) => walk_three(&x.left, &x.right, &x.body, visitor),
            StmtKindOf::ForOf(x) => walk_three(&x.left, &x.right, &x.body, visitor),
            StmtKindOf::Decl(x) => x.inside(visitor),
            StmtKindOf::Expr(x) => x.expr.walk(visitor),
        }
    }
}

impl<T: Walk> Walk for BlockStmtOf<T> {
    ghost tree = { view_block_stmt T.tree };

    fn walk<V: Watch>(&self, visitor: &mut V) {
        tell_list(Kind::BlockStmt, self.span, self.stmts.as_slice(), visitor);
    }
}

impl Walk for EmptyStmt {
    ghost tree = { view_empty_stmt };

    fn walk<V: Watch>(&self, visitor: &mut V) {
        tell_leaf(Kind::EmptyStmt, self.span, visitor);
    }
}

impl<T: Walk> Inside for IfStmtOf<T> {
    ghost tree = { view_if_stmt T.tree };

    fn inside<V: Watch>(&self, visitor: &mut V) {
        self.test.walk(visitor);
        self.cons.walk(visitor);
        walk_part(&self.alt, visitor);
    }
}

impl<T: Walk> Walk for SwitchCaseOf<T> {
    ghost tree = { view_switch_case T.tree };

    fn walk<V: Watch>(&self, visitor: &mut V) {
        enter_part(Kind::SwitchCase, self.span, visitor);
        walk_part(&self.test, visitor);
        walk_all(self.cons.as_slice(), visitor);
        leave_part(Kind::SwitchCase, self.span, visitor);
    }
}

impl<T: Walk> Inside for TryStmtOf<T> {
    ghost tree = { view_try_stmt T.tree };

    fn inside<V: Watch>(&self, visitor: &mut V) {
        self.block.walk(visitor);
        walk_part(&self.handler, visitor);
        walk_part(&self.finalizer, visitor);
    }
}

impl<T: Walk> Walk for CatchClauseOf<T> {
    ghost tree = { view_catch_clause T.tree };

    fn walk<V: Watch>(&self, visitor: &mut V) {
        enter_part(Kind::CatchClause, self.span, visitor);
        walk_part(&self.param, visitor);
        self.body.walk(visitor);
        leave_part(Kind::CatchClause, self.span, visitor);
    }
}

impl<T: Walk> Inside for ForStmtOf<T> {
    ghost tree = { view_for_stmt T.tree };

    fn inside<V: Watch>(&self, visitor: &mut V) {
        walk_part(&self.init, visitor);
        walk_part(&self.test, visitor);
        walk_part(&self.update, visitor);
        self.body.walk(visitor);
    }
}

impl<T: Walk> Walk for VarDeclOrExprOf<T> {
    ghost tree = { view_var_decl_or_expr T.tree };

    fn walk<V: Watch>(&self, visitor: &mut V) {
        match self {
            VarDeclOrExprOf::VarDecl(x) => x.walk(visitor),
            VarDeclOrExprOf::UsingDecl(x) => x.walk(visitor),
            VarDeclOrExprOf::Expr(x) => x.walk(visitor),
        }
    }
}

impl<T: Walk> Walk for ForHeadOf<T> {
    ghost tree = { view_for_head T.tree };

    fn walk<V: Watch>(&self, visitor: &mut V) {
        match self {
            ForHeadOf::VarDecl(x) => x.walk(visitor),
            ForHeadOf::UsingDecl(x) => x.walk(visitor),
            ForHeadOf::Pat(x) => x.walk(visitor),
        }
    }
}
