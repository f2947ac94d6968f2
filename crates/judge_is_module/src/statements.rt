// Written by tools/tree/goal.py from tools/tree/tree.table. Don't edit this file.
//! What tells of a module in statements (ECMA-262, clause 14).
ghost use Rattle.tree_nodes.specs.View.{view_stmt_kind, view_block_stmt, view_with_stmt, view_return_stmt, view_labeled_stmt, view_if_stmt, view_switch_stmt, view_switch_case, view_throw_stmt, view_try_stmt, view_catch_clause, view_while_stmt, view_do_while_stmt, view_for_stmt, view_for_in_stmt, view_for_of_stmt, view_expr_stmt, view_var_decl_or_expr, view_for_head};

use crate::parts::Tells;
use tree_nodes::{
    BlockStmtOf, CatchClauseOf, DoWhileStmtOf, ExprStmtOf, ForHeadOf, ForInStmtOf, ForOfStmtOf,
    ForStmtOf, IfStmtOf, LabeledStmtOf, ReturnStmtOf, StmtKindOf, SwitchCaseOf, SwitchStmtOf,
    ThrowStmtOf, TryStmtOf, VarDeclOrExprOf, WhileStmtOf, WithStmtOf,
};

impl<T: Tells> Tells for StmtKindOf<T> {
    ghost tree = { view_stmt_kind T.tree };

    fn tells(&self) -> bool {
        match self {
            StmtKindOf::Block(x) => x.tells(),
            StmtKindOf::With(x) => x.tells(),
            StmtKindOf::Return(x) => x.tells(),
            StmtKindOf::Labeled(x) => x.tells(),
            StmtKindOf::If(x) => x.tells(),
            StmtKindOf::Switch(x) => x.tells(),
            StmtKindOf::Throw(x) => x.tells(),
            StmtKindOf::Try(x) => x.tells(),
            StmtKindOf::While(x) => x.tells(),
            StmtKindOf::DoWhile(x) => x.tells(),
            StmtKindOf::For(x) => x.tells(),
            StmtKindOf::ForIn(x) => x.tells(),
            StmtKindOf::ForOf(x) => x.tells(),
            StmtKindOf::Decl(x) => x.tells(),
            StmtKindOf::Expr(x) => x.tells(),
            StmtKindOf::Empty(_)
            | StmtKindOf::Debugger(_)
            | StmtKindOf::Break(_)
            | StmtKindOf::Continue(_) => false,
        }
    }
}

impl<T: Tells> Tells for BlockStmtOf<T> {
    ghost tree = { view_block_stmt T.tree };

    fn tells(&self) -> bool {
        self.stmts.tells()
    }
}

impl<T: Tells> Tells for WithStmtOf<T> {
    ghost tree = { view_with_stmt T.tree };

    fn tells(&self) -> bool {
        self.obj.tells() || self.body.tells()
    }
}

impl<T: Tells> Tells for ReturnStmtOf<T> {
    ghost tree = { view_return_stmt T.tree };

    fn tells(&self) -> bool {
        self.arg.tells()
    }
}

impl<T: Tells> Tells for LabeledStmtOf<T> {
    ghost tree = { view_labeled_stmt T.tree };

    fn tells(&self) -> bool {
        self.body.tells()
    }
}

impl<T: Tells> Tells for IfStmtOf<T> {
    ghost tree = { view_if_stmt T.tree };

    fn tells(&self) -> bool {
        self.test.tells() || self.cons.tells() || self.alt.tells()
    }
}

impl<T: Tells> Tells for SwitchStmtOf<T> {
    ghost tree = { view_switch_stmt T.tree };

    fn tells(&self) -> bool {
        self.discriminant.tells() || self.cases.tells()
    }
}

impl<T: Tells> Tells for SwitchCaseOf<T> {
    ghost tree = { view_switch_case T.tree };

    fn tells(&self) -> bool {
        self.test.tells() || self.cons.tells()
    }
}

impl<T: Tells> Tells for ThrowStmtOf<T> {
    ghost tree = { view_throw_stmt T.tree };

    fn tells(&self) -> bool {
        self.arg.tells()
    }
}

impl<T: Tells> Tells for TryStmtOf<T> {
    ghost tree = { view_try_stmt T.tree };

    fn tells(&self) -> bool {
        self.block.tells() || self.handler.tells() || self.finalizer.tells()
    }
}

impl<T: Tells> Tells for CatchClauseOf<T> {
    ghost tree = { view_catch_clause T.tree };

    fn tells(&self) -> bool {
        self.param.tells() || self.body.tells()
    }
}

impl<T: Tells> Tells for WhileStmtOf<T> {
    ghost tree = { view_while_stmt T.tree };

    fn tells(&self) -> bool {
        self.test.tells() || self.body.tells()
    }
}

impl<T: Tells> Tells for DoWhileStmtOf<T> {
    ghost tree = { view_do_while_stmt T.tree };

    fn tells(&self) -> bool {
        self.test.tells() || self.body.tells()
    }
}

impl<T: Tells> Tells for ForStmtOf<T> {
    ghost tree = { view_for_stmt T.tree };

    fn tells(&self) -> bool {
        self.init.tells() || self.test.tells() || self.update.tells() || self.body.tells()
    }
}

impl<T: Tells> Tells for ForInStmtOf<T> {
    ghost tree = { view_for_in_stmt T.tree };

    fn tells(&self) -> bool {
        self.left.tells() || self.right.tells() || self.body.tells()
    }
}

impl<T: Tells> Tells for ForOfStmtOf<T> {
    ghost tree = { view_for_of_stmt T.tree };

    fn tells(&self) -> bool {
        self.is_await || self.left.tells() || self.right.tells() || self.body.tells()
    }
}

impl<T: Tells> Tells for ExprStmtOf<T> {
    ghost tree = { view_expr_stmt T.tree };

    fn tells(&self) -> bool {
        self.expr.tells()
    }
}

impl<T: Tells> Tells for VarDeclOrExprOf<T> {
    ghost tree = { view_var_decl_or_expr T.tree };

    fn tells(&self) -> bool {
        match self {
            VarDeclOrExprOf::VarDecl(x) => x.tells(),
            VarDeclOrExprOf::UsingDecl(x) => x.tells(),
            VarDeclOrExprOf::Expr(x) => x.tells(),
        }
    }
}

impl<T: Tells> Tells for ForHeadOf<T> {
    ghost tree = { view_for_head T.tree };

    fn tells(&self) -> bool {
        match self {
            ForHeadOf::VarDecl(x) => x.tells(),
            ForHeadOf::UsingDecl(x) => x.tells(),
            ForHeadOf::Pat(x) => x.tells(),
        }
    }
}
