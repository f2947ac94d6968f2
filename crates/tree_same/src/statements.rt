// Written by tools/tree/same.py from tools/tree/tree.table. Don't edit this file.
//! Whether statements (ECMA-262, clause 14) say the same.
ghost use Rattle.tree_nodes.specs.View.{view_block_stmt, view_empty_stmt, view_debugger_stmt, view_with_stmt, view_return_stmt, view_labeled_stmt, view_break_stmt, view_continue_stmt, view_if_stmt, view_switch_stmt, view_switch_case, view_throw_stmt, view_try_stmt, view_catch_clause, view_while_stmt, view_do_while_stmt, view_expr_stmt};
ghost use Rattle.tree_same.specs.Seen.{seen_stmt_kind, seen_for_stmt, seen_for_in_stmt, seen_for_of_stmt, seen_var_decl_or_expr, seen_for_head};

use crate::parts::{Held, Present, Same, is_nothing, is_statement, same_in_place};
use tree_nodes::{
    BlockStmtOf, BreakStmt, CatchClauseOf, ContinueStmt, DebuggerStmt, DoWhileStmtOf, EmptyStmt,
    ExprStmtOf, ForHeadOf, ForInStmtOf, ForOfStmtOf, ForStmtOf, IfStmtOf, LabeledStmtOf,
    ReturnStmtOf, StmtKindOf, SwitchCaseOf, SwitchStmtOf, ThrowStmtOf, TryStmtOf, VarDeclOrExprOf,
    WhileStmtOf, WithStmtOf,
};

impl<T: Held> Same for StmtKindOf<T> {
    ghost tree = { seen_stmt_kind T.in_stmt T.tree };

    #[tactic(auto, using(crate::proofs::Apart::stmt_kind_apart))]
    fn same(&self, other: &StmtKindOf<T>) -> bool {
        match (self, other) {
            (StmtKindOf::Block(x), StmtKindOf::Block(y)) => x.same(y),
            (StmtKindOf::Empty(x), StmtKindOf::Empty(y)) => x.same(y),
            (StmtKindOf::Debugger(x), StmtKindOf::Debugger(y)) => x.same(y),
            (StmtKindOf::With(x), StmtKindOf::With(y)) => x.same(y),
            (StmtKindOf::Return(x), StmtKindOf::Return(y)) => x.same(y),
            (StmtKindOf::Labeled(x), StmtKindOf::Labeled(y)) => x.same(y),
            (StmtKindOf::Break(x), StmtKindOf::Break(y)) => x.same(y),
            (StmtKindOf::Continue(x), StmtKindOf::Continue(y)) => x.same(y),
            (StmtKindOf::If(x), StmtKindOf::If(y)) => x.same(y),
            (StmtKindOf::Switch(x), StmtKindOf::Switch(y)) => x.same(y),
            (StmtKindOf::Throw(x), StmtKindOf::Throw(y)) => x.same(y),
            (StmtKindOf::Try(x), StmtKindOf::Try(y)) => x.same(y),
            (StmtKindOf::While(x), StmtKindOf::While(y)) => x.same(y),
            (StmtKindOf::DoWhile(x), StmtKindOf::DoWhile(y)) => x.same(y),
            (StmtKindOf::For(x), StmtKindOf::For(y)) => x.same(y),
            (StmtKindOf::ForIn(x), StmtKindOf::ForIn(y)) => x.same(y),
            (StmtKindOf::ForOf(x), StmtKindOf::ForOf(y)) => x.same(y),
            (StmtKindOf::Decl(x), StmtKindOf::Decl(y)) => x.same(y),
            (StmtKindOf::Expr(x), StmtKindOf::Expr(y)) => x.same(y),
            _ => false,
        }
    }
}

impl<T: Held> Same for BlockStmtOf<T> {
    ghost tree = { view_block_stmt T.tree };

    #[tactic(auto, using(crate::proofs::Rules::block_stmt_rule))]
    fn same(&self, other: &BlockStmtOf<T>) -> bool {
        self.stmts.same(&other.stmts)
    }
}

impl<T: Held> Present for BlockStmtOf<T> {
    fn is_left_out(&self) -> bool {
        false
    }
}

impl Same for EmptyStmt {
    ghost tree = { view_empty_stmt };

    #[tactic(auto, using(crate::proofs::Rules::empty_stmt_rule))]
    fn same(&self, _other: &EmptyStmt) -> bool {
        true
    }
}

impl Same for DebuggerStmt {
    ghost tree = { view_debugger_stmt };

    #[tactic(auto, using(crate::proofs::Rules::debugger_stmt_rule))]
    fn same(&self, _other: &DebuggerStmt) -> bool {
        true
    }
}

impl<T: Held> Same for WithStmtOf<T> {
    ghost tree = { view_with_stmt T.tree };

    #[tactic(auto, using(crate::proofs::Rules::with_stmt_rule))]
    fn same(&self, other: &WithStmtOf<T>) -> bool {
        self.obj.same(&other.obj) && self.body.same(&other.body)
    }
}

impl<T: Held> Same for ReturnStmtOf<T> {
    ghost tree = { view_return_stmt T.tree };

    #[tactic(auto, using(crate::proofs::Rules::return_stmt_rule))]
    fn same(&self, other: &ReturnStmtOf<T>) -> bool {
        self.arg.same(&other.arg)
    }
}

impl<T: Held> Same for LabeledStmtOf<T> {
    ghost tree = { view_labeled_stmt T.tree };

    #[tactic(auto, using(crate::proofs::Rules::labeled_stmt_rule))]
    fn same(&self, other: &LabeledStmtOf<T>) -> bool {
        self.label.same(&other.label) && self.body.same(&other.body)
    }
}

impl Same for BreakStmt {
    ghost tree = { view_break_stmt };

    #[tactic(auto, using(crate::proofs::Rules::break_stmt_rule))]
    fn same(&self, other: &BreakStmt) -> bool {
        self.label.same(&other.label)
    }
}

impl Same for ContinueStmt {
    ghost tree = { view_continue_stmt };

    #[tactic(auto, using(crate::proofs::Rules::continue_stmt_rule))]
    fn same(&self, other: &ContinueStmt) -> bool {
        self.label.same(&other.label)
    }
}

impl<T: Held> Same for IfStmtOf<T> {
    ghost tree = { view_if_stmt T.tree };

    #[tactic(auto, using(crate::proofs::Rules::if_stmt_rule))]
    fn same(&self, other: &IfStmtOf<T>) -> bool {
        self.test.same(&other.test) && self.cons.same(&other.cons) && self.alt.same(&other.alt)
    }
}

impl<T: Held> Same for SwitchStmtOf<T> {
    ghost tree = { view_switch_stmt T.tree };

    #[tactic(auto, using(crate::proofs::Rules::switch_stmt_rule))]
    fn same(&self, other: &SwitchStmtOf<T>) -> bool {
        self.discriminant.same(&other.discriminant) && self.cases.same(&other.cases)
    }
}

impl<T: Held> Same for SwitchCaseOf<T> {
    ghost tree = { view_switch_case T.tree };

    #[tactic(auto, using(crate::proofs::Rules::switch_case_rule))]
    fn same(&self, other: &SwitchCaseOf<T>) -> bool {
        self.test.same(&other.test) && self.cons.same(&other.cons)
    }
}

impl<T: Held> Same for ThrowStmtOf<T> {
    ghost tree = { view_throw_stmt T.tree };

    #[tactic(auto, using(crate::proofs::Rules::throw_stmt_rule))]
    fn same(&self, other: &ThrowStmtOf<T>) -> bool {
        self.arg.same(&other.arg)
    }
}

impl<T: Held> Same for TryStmtOf<T> {
    ghost tree = { view_try_stmt T.tree };

    #[tactic(auto, using(crate::proofs::Rules::try_stmt_rule))]
    fn same(&self, other: &TryStmtOf<T>) -> bool {
        self.block.same(&other.block)
            && self.handler.same(&other.handler)
            && self.finalizer.same(&other.finalizer)
    }
}

impl<T: Held> Same for CatchClauseOf<T> {
    ghost tree = { view_catch_clause T.tree };

    #[tactic(auto, using(crate::proofs::Rules::catch_clause_rule))]
    fn same(&self, other: &CatchClauseOf<T>) -> bool {
        self.param.same(&other.param) && self.body.same(&other.body)
    }
}

impl<T: Held> Present for CatchClauseOf<T> {
    fn is_left_out(&self) -> bool {
        false
    }
}

impl<T: Held> Same for WhileStmtOf<T> {
    ghost tree = { view_while_stmt T.tree };

    #[tactic(auto, using(crate::proofs::Rules::while_stmt_rule))]
    fn same(&self, other: &WhileStmtOf<T>) -> bool {
        self.test.same(&other.test) && self.body.same(&other.body)
    }
}

impl<T: Held> Same for DoWhileStmtOf<T> {
    ghost tree = { view_do_while_stmt T.tree };

    #[tactic(auto, using(crate::proofs::Rules::do_while_stmt_rule))]
    fn same(&self, other: &DoWhileStmtOf<T>) -> bool {
        self.test.same(&other.test) && self.body.same(&other.body)
    }
}

impl<T: Held> Same for ForStmtOf<T> {
    ghost tree = { seen_for_stmt T.in_stmt T.tree };

    #[tactic(auto, using(crate::proofs::Rules::for_stmt_rule))]
    fn same(&self, other: &ForStmtOf<T>) -> bool {
        self.init.same(&other.init)
            && self.test.same(&other.test)
            && self.update.same(&other.update)
            && self.body.same(&other.body)
    }
}

impl<T: Held> Same for ForInStmtOf<T> {
    ghost tree = { seen_for_in_stmt T.in_stmt T.tree };

    #[tactic(auto, using(crate::proofs::Rules::for_in_stmt_rule))]
    fn same(&self, other: &ForInStmtOf<T>) -> bool {
        self.left.same(&other.left) && self.right.same(&other.right) && self.body.same(&other.body)
    }
}

impl<T: Held> Same for ForOfStmtOf<T> {
    ghost tree = { seen_for_of_stmt T.in_stmt T.tree };

    #[tactic(auto, using(crate::proofs::Rules::for_of_stmt_rule))]
    fn same(&self, other: &ForOfStmtOf<T>) -> bool {
        self.is_await == other.is_await
            && self.left.same(&other.left)
            && self.right.same(&other.right)
            && self.body.same(&other.body)
    }
}

impl<T: Held> Same for ExprStmtOf<T> {
    ghost tree = { view_expr_stmt T.tree };

    #[tactic(auto, using(crate::proofs::Spellings::expr_stmt_rule))]
    fn same(&self, other: &ExprStmtOf<T>) -> bool {
        self.expr.same(&other.expr)
            && self.expr.part.is_use_strict() == other.expr.part.is_use_strict()
    }
}

impl<T: Held> Same for VarDeclOrExprOf<T> {
    ghost tree = { seen_var_decl_or_expr T.in_stmt T.tree };

    #[tactic(auto, using(crate::proofs::Mixed::var_decl_or_expr_cases))]
    fn same(&self, other: &VarDeclOrExprOf<T>) -> bool {
        match (self, other) {
            (VarDeclOrExprOf::VarDecl(x), VarDeclOrExprOf::VarDecl(y)) => x.same(y),
            (VarDeclOrExprOf::UsingDecl(x), VarDeclOrExprOf::UsingDecl(y)) => x.same(y),
            (VarDeclOrExprOf::Expr(x), VarDeclOrExprOf::Expr(y)) => same_in_place(x, y),
            // For the proof: no child is a statement here; the calls bring that fact.
            (VarDeclOrExprOf::Expr(x), _) => is_statement(x),
            (_, VarDeclOrExprOf::Expr(y)) => is_statement(y),
            _ => false,
        }
    }
}

impl<T: Held> Present for VarDeclOrExprOf<T> {
    fn is_left_out(&self) -> bool {
        match self {
            VarDeclOrExprOf::VarDecl(_) => false,
            VarDeclOrExprOf::UsingDecl(_) => false,
            // For the proof: a child is never left out; the call brings that fact.
            VarDeclOrExprOf::Expr(x) => is_nothing(x),
        }
    }
}

impl<T: Held> Same for ForHeadOf<T> {
    ghost tree = { seen_for_head T.in_stmt T.tree };

    #[tactic(auto, using(crate::proofs::Mixed::for_head_cases))]
    fn same(&self, other: &ForHeadOf<T>) -> bool {
        match (self, other) {
            (ForHeadOf::VarDecl(x), ForHeadOf::VarDecl(y)) => x.same(y),
            (ForHeadOf::UsingDecl(x), ForHeadOf::UsingDecl(y)) => x.same(y),
            (ForHeadOf::Pat(x), ForHeadOf::Pat(y)) => same_in_place(x, y),
            // For the proof: no child is a statement here; the calls bring that fact.
            (ForHeadOf::Pat(x), _) => is_statement(x),
            (_, ForHeadOf::Pat(y)) => is_statement(y),
            _ => false,
        }
    }
}
