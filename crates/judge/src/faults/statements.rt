//! Statements (ECMA-262, clause 14).
ghost use Rattle.tree_nodes.specs.View.{view_stmt_kind, view_block_stmt, view_with_stmt, view_return_stmt, view_labeled_stmt, view_break_stmt, view_continue_stmt, view_if_stmt, view_switch_stmt, view_switch_case, view_throw_stmt, view_try_stmt, view_catch_clause, view_while_stmt, view_do_while_stmt, view_for_stmt, view_for_in_stmt, view_for_of_stmt, view_expr_stmt, view_var_decl_or_expr, view_for_head};

use crate::base::listed::add;
use crate::base::{Code, Labels};
use crate::faults::bodies::check_statements;
use crate::faults::check::{Check, Held};
use crate::faults::targets::using_fault;
use base_token::{Error, SyntaxError};
use std::alloc::AllocError;
use tree_nodes::{
    BlockStmtOf, BreakStmt, CatchClauseOf, ContinueStmt, DoWhileStmtOf, ExprStmtOf, ForHeadOf,
    ForInStmtOf, ForOfStmtOf, ForStmtOf, IfStmtOf, LabeledStmtOf, ReturnStmtOf, StmtKindOf,
    SwitchCaseOf, SwitchStmtOf, ThrowStmtOf, TryStmtOf, VarDeclOrExprOf, WhileStmtOf, WithStmtOf,
};

impl<T: Held> Check for StmtKindOf<T> {
    ghost tree = { view_stmt_kind T.tree };

    fn check(&self, code: Code<'_>, faults: &mut Vec<Error>) -> Result<(), AllocError> {
        match self {
            StmtKindOf::Block(x) => x.check(code, faults),
            StmtKindOf::Empty(_) => Ok(()),
            StmtKindOf::Debugger(_) => Ok(()),
            StmtKindOf::With(x) => x.check(code, faults),
            StmtKindOf::Return(x) => x.check(code, faults),
            StmtKindOf::Labeled(x) => x.check(code, faults),
            StmtKindOf::Break(x) => x.check(code, faults),
            StmtKindOf::Continue(x) => x.check(code, faults),
            StmtKindOf::If(x) => x.check(code, faults),
            StmtKindOf::Switch(x) => x.check(code, faults),
            StmtKindOf::Throw(x) => x.check(code, faults),
            StmtKindOf::Try(x) => x.check(code, faults),
            StmtKindOf::While(x) => x.check(code, faults),
            StmtKindOf::DoWhile(x) => x.check(code, faults),
            StmtKindOf::For(x) => x.check(code, faults),
            StmtKindOf::ForIn(x) => x.check(code, faults),
            StmtKindOf::ForOf(x) => x.check(code, faults),
            StmtKindOf::Decl(x) => x.check(code, faults),
            StmtKindOf::Expr(x) => x.check(code, faults),
        }
    }
}

impl<T: Held> Check for BlockStmtOf<T> {
    ghost tree = { view_block_stmt T.tree };

    fn check(&self, code: Code<'_>, faults: &mut Vec<Error>) -> Result<(), AllocError> {
        check_statements(self.stmts.as_slice(), code, faults)?;
        Ok(())
    }
}

impl<T: Held> Check for WithStmtOf<T> {
    ghost tree = { view_with_stmt T.tree };

    fn check(&self, code: Code<'_>, faults: &mut Vec<Error>) -> Result<(), AllocError> {
        add(faults, code.strict, SyntaxError::WithInStrict, self.span)?;
        self.obj.check(code, faults)?;
        self.body.check(code, faults)
    }
}

impl<T: Held> Check for ReturnStmtOf<T> {
    ghost tree = { view_return_stmt T.tree };

    fn check(&self, code: Code<'_>, faults: &mut Vec<Error>) -> Result<(), AllocError> {
        let allowed = code.returns || code.syntax.allow_return_outside_function;
        add(faults, !allowed, SyntaxError::ReturnNotAllowed, self.span)?;
        self.arg.check(code, faults)
    }
}

impl<T: Held> Check for LabeledStmtOf<T> {
    ghost tree = { view_labeled_stmt T.tree };

    fn check(&self, code: Code<'_>, faults: &mut Vec<Error>) -> Result<(), AllocError> {
        let name = &self.label.sym;
        let doubled = code.labels.has(name);
        add(
            faults,
            doubled,
            SyntaxError::DuplicateLabel,
            self.label.span,
        )?;
        self.label.check(code, faults)?;
        let labels = Labels::Label(name, self.body.part.is_loop(), &code.labels);
        self.body.check(Code { labels, ..code }, faults)
    }
}

impl Check for BreakStmt {
    ghost tree = { view_break_stmt };

    fn check(&self, code: Code<'_>, faults: &mut Vec<Error>) -> Result<(), AllocError> {
        match &self.label {
            Some(label) => {
                let unknown = !code.labels.has(&label.sym);
                add(faults, unknown, SyntaxError::UndefinedLabel, self.span)?;
                label.check(code, faults)
            }
            None => add(faults, !code.breaks, SyntaxError::IllegalBreak, self.span),
        }
    }
}

impl Check for ContinueStmt {
    ghost tree = { view_continue_stmt };

    fn check(&self, code: Code<'_>, faults: &mut Vec<Error>) -> Result<(), AllocError> {
        match &self.label {
            Some(label) => {
                let unknown = !code.labels.has_loop(&label.sym);
                add(faults, unknown, SyntaxError::UndefinedLabel, self.span)?;
                label.check(code, faults)
            }
            None => add(faults, !code.loops, SyntaxError::IllegalContinue, self.span),
        }
    }
}

impl<T: Held> Check for IfStmtOf<T> {
    ghost tree = { view_if_stmt T.tree };

    fn check(&self, code: Code<'_>, faults: &mut Vec<Error>) -> Result<(), AllocError> {
        self.test.check(code, faults)?;
        self.cons.check(code, faults)?;
        self.alt.check(code, faults)
    }
}

impl<T: Held> Check for SwitchStmtOf<T> {
    ghost tree = { view_switch_stmt T.tree };

    fn check(&self, code: Code<'_>, faults: &mut Vec<Error>) -> Result<(), AllocError> {
        self.discriminant.check(code, faults)?;
        self.cases.check(code.switching(), faults)
    }
}

impl<T: Held> Check for SwitchCaseOf<T> {
    ghost tree = { view_switch_case T.tree };

    fn check(&self, code: Code<'_>, faults: &mut Vec<Error>) -> Result<(), AllocError> {
        self.test.check(code, faults)?;
        self.cons.check(code, faults)
    }
}

impl<T: Held> Check for ThrowStmtOf<T> {
    ghost tree = { view_throw_stmt T.tree };

    fn check(&self, code: Code<'_>, faults: &mut Vec<Error>) -> Result<(), AllocError> {
        self.arg.check(code, faults)
    }
}

impl<T: Held> Check for TryStmtOf<T> {
    ghost tree = { view_try_stmt T.tree };

    fn check(&self, code: Code<'_>, faults: &mut Vec<Error>) -> Result<(), AllocError> {
        self.block.check(code, faults)?;
        self.handler.check(code, faults)?;
        self.finalizer.check(code, faults)
    }
}

impl<T: Held> Check for CatchClauseOf<T> {
    ghost tree = { view_catch_clause T.tree };

    fn check(&self, code: Code<'_>, faults: &mut Vec<Error>) -> Result<(), AllocError> {
        self.param.check(code, faults)?;
        self.body.check(code, faults)
    }
}

impl<T: Held> Check for WhileStmtOf<T> {
    ghost tree = { view_while_stmt T.tree };

    fn check(&self, code: Code<'_>, faults: &mut Vec<Error>) -> Result<(), AllocError> {
        self.test.check(code, faults)?;
        self.body.check(code.looping(), faults)
    }
}

impl<T: Held> Check for DoWhileStmtOf<T> {
    ghost tree = { view_do_while_stmt T.tree };

    fn check(&self, code: Code<'_>, faults: &mut Vec<Error>) -> Result<(), AllocError> {
        self.test.check(code, faults)?;
        self.body.check(code.looping(), faults)
    }
}

impl<T: Held> Check for ForStmtOf<T> {
    ghost tree = { view_for_stmt T.tree };

    fn check(&self, code: Code<'_>, faults: &mut Vec<Error>) -> Result<(), AllocError> {
        let inside = code.looping();
        self.init.check(inside, faults)?;
        self.test.check(inside, faults)?;
        self.update.check(inside, faults)?;
        self.body.check(inside, faults)
    }
}

impl<T: Held> Check for ForInStmtOf<T> {
    ghost tree = { view_for_in_stmt T.tree };

    fn check(&self, code: Code<'_>, faults: &mut Vec<Error>) -> Result<(), AllocError> {
        using_fault(&self.left, faults)?;
        self.left.check(code.heading(), faults)?;
        self.right.check(code.looping(), faults)?;
        self.body.check(code.looping(), faults)?;
        Ok(())
    }
}

impl<T: Held> Check for ForOfStmtOf<T> {
    ghost tree = { view_for_of_stmt T.tree };

    fn check(&self, code: Code<'_>, faults: &mut Vec<Error>) -> Result<(), AllocError> {
        self.left.check(code.heading(), faults)?;
        self.right.check(code.looping(), faults)?;
        self.body.check(code.looping(), faults)
    }
}

impl<T: Held> Check for ExprStmtOf<T> {
    ghost tree = { view_expr_stmt T.tree };

    fn check(&self, code: Code<'_>, faults: &mut Vec<Error>) -> Result<(), AllocError> {
        self.expr.check(code, faults)
    }
}

impl<T: Held> Check for VarDeclOrExprOf<T> {
    ghost tree = { view_var_decl_or_expr T.tree };

    fn check(&self, code: Code<'_>, faults: &mut Vec<Error>) -> Result<(), AllocError> {
        match self {
            VarDeclOrExprOf::VarDecl(x) => x.check(code, faults),
            VarDeclOrExprOf::UsingDecl(x) => x.check(code, faults),
            VarDeclOrExprOf::Expr(x) => x.check(code, faults),
        }
    }
}

impl<T: Held> Check for ForHeadOf<T> {
    ghost tree = { view_for_head T.tree };

    fn check(&self, code: Code<'_>, faults: &mut Vec<Error>) -> Result<(), AllocError> {
        match self {
            ForHeadOf::VarDecl(x) => x.check(code, faults),
            ForHeadOf::UsingDecl(x) => x.check(code, faults),
            ForHeadOf::Pat(x) => x.check(code, faults),
        }
    }
}
