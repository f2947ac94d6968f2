// Written by tools/tree/nesting.py from tools/tree/tree.table. Don't edit this file.
//! How deep statements (ECMA-262, clause 14) go.
ghost use Rattle.tree_nodes.specs.View.{view_stmt_kind, view_block_stmt, view_empty_stmt, view_debugger_stmt, view_with_stmt, view_return_stmt, view_labeled_stmt, view_break_stmt, view_continue_stmt, view_if_stmt, view_switch_stmt, view_switch_case, view_throw_stmt, view_try_stmt, view_catch_clause, view_while_stmt, view_do_while_stmt, view_for_stmt, view_for_in_stmt, view_for_of_stmt, view_expr_stmt, view_var_decl_or_expr, view_for_head};

use crate::counts::{Held, Nesting, above};
use tree_nodes::{
    BlockStmtOf, BreakStmt, CatchClauseOf, ContinueStmt, DebuggerStmt, DoWhileStmtOf, EmptyStmt,
    ExprStmtOf, ForHeadOf, ForInStmtOf, ForOfStmtOf, ForStmtOf, IfStmtOf, LabeledStmtOf,
    ReturnStmtOf, StmtKindOf, SwitchCaseOf, SwitchStmtOf, ThrowStmtOf, TryStmtOf, VarDeclOrExprOf,
    WhileStmtOf, WithStmtOf,
};

impl<T: Held> Nesting for StmtKindOf<T> {
    ghost tree = { view_stmt_kind T.tree };

    fn nesting(&self) -> u32 {
        match self {
            StmtKindOf::Block(x) => x.nesting(),
            StmtKindOf::Empty(x) => x.nesting(),
            StmtKindOf::Debugger(x) => x.nesting(),
            StmtKindOf::With(x) => x.nesting(),
            StmtKindOf::Return(x) => x.nesting(),
            StmtKindOf::Labeled(x) => x.nesting(),
            StmtKindOf::Break(x) => x.nesting(),
            StmtKindOf::Continue(x) => x.nesting(),
            StmtKindOf::If(x) => x.nesting(),
            StmtKindOf::Switch(x) => x.nesting(),
            StmtKindOf::Throw(x) => x.nesting(),
            StmtKindOf::Try(x) => x.nesting(),
            StmtKindOf::While(x) => x.nesting(),
            StmtKindOf::DoWhile(x) => x.nesting(),
            StmtKindOf::For(x) => x.nesting(),
            StmtKindOf::ForIn(x) => x.nesting(),
            StmtKindOf::ForOf(x) => x.nesting(),
            StmtKindOf::Decl(x) => x.nesting(),
            StmtKindOf::Expr(x) => x.nesting(),
        }
    }
}

impl<T: Held> Nesting for BlockStmtOf<T> {
    ghost tree = { view_block_stmt T.tree };

    fn nesting(&self) -> u32 {
        above(self.stmts.nesting())
    }
}

impl Nesting for EmptyStmt {
    ghost tree = { view_empty_stmt };

    fn nesting(&self) -> u32 {
        1
    }
}

impl Nesting for DebuggerStmt {
    ghost tree = { view_debugger_stmt };

    fn nesting(&self) -> u32 {
        1
    }
}

impl<T: Held> Nesting for WithStmtOf<T> {
    ghost tree = { view_with_stmt T.tree };

    fn nesting(&self) -> u32 {
        above(self.obj.nesting().max(self.body.nesting()))
    }
}

impl<T: Held> Nesting for ReturnStmtOf<T> {
    ghost tree = { view_return_stmt T.tree };

    fn nesting(&self) -> u32 {
        above(self.arg.nesting())
    }
}

impl<T: Held> Nesting for LabeledStmtOf<T> {
    ghost tree = { view_labeled_stmt T.tree };

    fn nesting(&self) -> u32 {
        above(self.label.nesting().max(self.body.nesting()))
    }
}

impl Nesting for BreakStmt {
    ghost tree = { view_break_stmt };

    fn nesting(&self) -> u32 {
        above(self.label.nesting())
    }
}

impl Nesting for ContinueStmt {
    ghost tree = { view_continue_stmt };

    fn nesting(&self) -> u32 {
        above(self.label.nesting())
    }
}

impl<T: Held> Nesting for IfStmtOf<T> {
    ghost tree = { view_if_stmt T.tree };

    fn nesting(&self) -> u32 {
        let head = above(self.test.nesting().max(self.cons.nesting()));
        match &self.alt {
            Some(alt) if alt.part.is_if() => alt.nesting().max(head),
            Some(alt) => above(alt.nesting()).max(head),
            None => head,
        }
    }
}

impl<T: Held> Nesting for SwitchStmtOf<T> {
    ghost tree = { view_switch_stmt T.tree };

    fn nesting(&self) -> u32 {
        above(self.discriminant.nesting().max(self.cases.nesting()))
    }
}

impl<T: Held> Nesting for SwitchCaseOf<T> {
    ghost tree = { view_switch_case T.tree };

    fn nesting(&self) -> u32 {
        above(self.test.nesting().max(self.cons.nesting()))
    }
}

impl<T: Held> Nesting for ThrowStmtOf<T> {
    ghost tree = { view_throw_stmt T.tree };

    fn nesting(&self) -> u32 {
        above(self.arg.nesting())
    }
}

impl<T: Held> Nesting for TryStmtOf<T> {
    ghost tree = { view_try_stmt T.tree };

    fn nesting(&self) -> u32 {
        let block = self.block.nesting();
        let handler = self.handler.nesting();
        let finalizer = self.finalizer.nesting();
        above(block.max(handler).max(finalizer))
    }
}

impl<T: Held> Nesting for CatchClauseOf<T> {
    ghost tree = { view_catch_clause T.tree };

    fn nesting(&self) -> u32 {
        above(self.param.nesting().max(self.body.nesting()))
    }
}

impl<T: Held> Nesting for WhileStmtOf<T> {
    ghost tree = { view_while_stmt T.tree };

    fn nesting(&self) -> u32 {
        above(self.test.nesting().max(self.body.nesting()))
    }
}

impl<T: Held> Nesting for DoWhileStmtOf<T> {
    ghost tree = { view_do_while_stmt T.tree };

    fn nesting(&self) -> u32 {
        above(self.test.nesting().max(self.body.nesting()))
    }
}

impl<T: Held> Nesting for ForStmtOf<T> {
    ghost tree = { view_for_stmt T.tree };

    fn nesting(&self) -> u32 {
        let init = self.init.nesting();
        let test = self.test.nesting();
        let update = self.update.nesting();
        let body = self.body.nesting();
        above(init.max(test).max(update).max(body))
    }
}

impl<T: Held> Nesting for ForInStmtOf<T> {
    ghost tree = { view_for_in_stmt T.tree };

    fn nesting(&self) -> u32 {
        let left = self.left.nesting();
        let right = self.right.nesting();
        let body = self.body.nesting();
        above(left.max(right).max(body))
    }
}

impl<T: Held> Nesting for ForOfStmtOf<T> {
    ghost tree = { view_for_of_stmt T.tree };

    fn nesting(&self) -> u32 {
        let left = self.left.nesting();
        let right = self.right.nesting();
        let body = self.body.nesting();
        above(left.max(right).max(body))
    }
}

impl<T: Held> Nesting for ExprStmtOf<T> {
    ghost tree = { view_expr_stmt T.tree };

    fn nesting(&self) -> u32 {
        above(self.expr.nesting())
    }
}

impl<T: Held> Nesting for VarDeclOrExprOf<T> {
    ghost tree = { view_var_decl_or_expr T.tree };

    fn nesting(&self) -> u32 {
        match self {
            VarDeclOrExprOf::VarDecl(x) => x.nesting(),
            VarDeclOrExprOf::UsingDecl(x) => x.nesting(),
            VarDeclOrExprOf::Expr(x) => x.nesting(),
        }
    }
}

impl<T: Held> Nesting for ForHeadOf<T> {
    ghost tree = { view_for_head T.tree };

    fn nesting(&self) -> u32 {
        match self {
            ForHeadOf::VarDecl(x) => x.nesting(),
            ForHeadOf::UsingDecl(x) => x.nesting(),
            ForHeadOf::Pat(x) => x.nesting(),
        }
    }
}
