// Written by tools/tree/build.py from tools/tree/tree.table. Don't edit this file.
//! Makes statements and declarations.
ghost use Rattle.std.specs.Prelude.{◌≡◌};
ghost use Rattle.std.specs.Prelude.{All, IfOk};
ghost use Rattle.tree_spec.specs.Places.{no_place};
ghost use Rattle.tree_nodes.specs.Placed.{holds_expr, holds_stmt, in_stmt, inner};
ghost use Rattle.tree_nodes.specs.Fits.{fits_block_stmt, fits_catch_clause, fits_class, fits_for_head, fits_function, fits_held, fits_switch_case, fits_var_decl_or_expr, fits_var_declarator};
ghost use Rattle.tree_nodes.specs.View.{var_decl_kind_word, view_block_stmt, view_catch_clause, view_class, view_for_head, view_function, view_ident, view_switch_case, view_var_decl_or_expr, view_var_declarator};
ghost use Rattle.tree_spec.specs.Tree.{block_stmt, break_stmt, class_decl, continue_stmt, debugger_stmt, do_while_stmt, empty_stmt, expr_stmt, fn_decl, for_in_stmt, for_of_stmt, for_stmt, if_stmt, labeled_stmt, part_by, return_stmt, switch_stmt, throw_stmt, trees_by, try_stmt, using_decl, var_decl, while_stmt, with_stmt};

use crate::Build;
use base_token::DUMMY_SP;
use std::alloc::AllocError;
use tree_nodes::{
    BlockStmt, BreakStmt, CatchClause, Class, ClassDecl, ContinueStmt, DebuggerStmt, Decl,
    DoWhileStmt, EmptyStmt, ExprBox, ExprStmt, FnDecl, ForHead, ForInStmt, ForOfStmt, ForStmt,
    Function, Ident, IfStmt, LabeledStmt, ReturnStmt, StmtBox, StmtKind, SwitchCase, SwitchStmt,
    ThrowStmt, TryStmt, UsingDecl, VarDecl, VarDeclKind, VarDeclOrExpr, VarDeclarator, WhileStmt,
    WithStmt,
};

impl Build {
    /// `{ .. }`.
    pub fn block_stmt(&self, stmts: Vec<StmtBox>) -> Result<StmtBox, AllocError>
        requires stmts { All (λ x. holds_stmt (x.part.value)) stmts.items }
        ensures { IfOk result (λ c. c.part.value ≡ in_stmt (block_stmt no_place (trees_by (λ x. inner x.part.value) stmts.items))) }
    {
        let node = BlockStmt {
            span: DUMMY_SP,
            stmts,
        };
        self.stmt(StmtKind::Block(node))
    }

    /// `;`, as a statement or as a member of a class.
    pub fn empty_stmt(&self) -> Result<StmtBox, AllocError>
        ensures { IfOk result (λ c. c.part.value ≡ in_stmt (empty_stmt no_place)) }
    {
        let node = EmptyStmt { span: DUMMY_SP };
        self.stmt(StmtKind::Empty(node))
    }

    /// `debugger;`.
    pub fn debugger_stmt(&self) -> Result<StmtBox, AllocError>
        ensures { IfOk result (λ c. c.part.value ≡ in_stmt (debugger_stmt no_place)) }
    {
        let node = DebuggerStmt { span: DUMMY_SP };
        self.stmt(StmtKind::Debugger(node))
    }

    /// `with (obj) body`.
    pub fn with_stmt(&self, obj: ExprBox, body: StmtBox) -> Result<StmtBox, AllocError>
        requires obj { holds_expr (obj.part.value) }
        requires body { holds_stmt (body.part.value) }
        ensures { IfOk result (λ c. c.part.value ≡ in_stmt (with_stmt no_place (inner obj.part.value) (inner body.part.value))) }
    {
        let node = WithStmt {
            span: DUMMY_SP,
            obj,
            body,
        };
        self.stmt(StmtKind::With(node))
    }

    /// `return arg;`.
    pub fn return_stmt(&self, arg: Option<ExprBox>) -> Result<StmtBox, AllocError>
        requires arg { fits_held (λ x. holds_expr (x.part.value)) arg }
        ensures { IfOk result (λ c. c.part.value ≡ in_stmt (return_stmt no_place (part_by (λ x. inner x.part.value) arg))) }
    {
        let node = ReturnStmt {
            span: DUMMY_SP,
            arg,
        };
        self.stmt(StmtKind::Return(node))
    }

    /// `label: body`.
    pub fn labeled_stmt(&self, label: Ident, body: StmtBox) -> Result<StmtBox, AllocError>
        requires body { holds_stmt (body.part.value) }
        ensures { IfOk result (λ c. c.part.value ≡ in_stmt (labeled_stmt no_place (view_ident label) (inner body.part.value))) }
    {
        let node = LabeledStmt {
            span: DUMMY_SP,
            label,
            body,
        };
        self.stmt(StmtKind::Labeled(node))
    }

    /// `break label;`.
    pub fn break_stmt(&self, label: Option<Ident>) -> Result<StmtBox, AllocError>
        ensures { IfOk result (λ c. c.part.value ≡ in_stmt (break_stmt no_place (part_by view_ident label))) }
    {
        let node = BreakStmt {
            span: DUMMY_SP,
            label,
        };
        self.stmt(StmtKind::Break(node))
    }

    /// `continue label;`.
    pub fn continue_stmt(&self, label: Option<Ident>) -> Result<StmtBox, AllocError>
        ensures { IfOk result (λ c. c.part.value ≡ in_stmt (continue_stmt no_place (part_by view_ident label))) }
    {
        let node = ContinueStmt {
            span: DUMMY_SP,
            label,
        };
        self.stmt(StmtKind::Continue(node))
    }

    /// `if (test) cons else alt`.
    pub fn if_stmt(
        &self,
        test: ExprBox,
        cons: StmtBox,
        alt: Option<StmtBox>,
    ) -> Result<StmtBox, AllocError>
        requires test { holds_expr (test.part.value) }
        requires cons { holds_stmt (cons.part.value) }
        requires alt { fits_held (λ x. holds_stmt (x.part.value)) alt }
        ensures { IfOk result (λ c. c.part.value ≡ in_stmt (if_stmt no_place (inner test.part.value) (inner cons.part.value) (part_by (λ x. inner x.part.value) alt))) }
    {
        let node = IfStmt {
            span: DUMMY_SP,
            test,
            cons,
            alt,
        };
        self.stmt(StmtKind::If(node))
    }

    /// `switch (discriminant) { .. }`.
    pub fn switch_stmt(
        &self,
        discriminant: ExprBox,
        cases: Vec<SwitchCase>,
    ) -> Result<StmtBox, AllocError>
        requires discriminant { holds_expr (discriminant.part.value) }
        requires cases { All (λ x. fits_switch_case (λ p. p) x) cases.items }
        ensures { IfOk result (λ c. c.part.value ≡ in_stmt (switch_stmt no_place (inner discriminant.part.value) (trees_by (view_switch_case inner) cases.items))) }
    {
        let node = SwitchStmt {
            span: DUMMY_SP,
            discriminant,
            cases,
        };
        self.stmt(StmtKind::Switch(node))
    }

    /// `throw arg;`.
    pub fn throw_stmt(&self, arg: ExprBox) -> Result<StmtBox, AllocError>
        requires arg { holds_expr (arg.part.value) }
        ensures { IfOk result (λ c. c.part.value ≡ in_stmt (throw_stmt no_place (inner arg.part.value))) }
    {
        let node = ThrowStmt {
            span: DUMMY_SP,
            arg,
        };
        self.stmt(StmtKind::Throw(node))
    }

    /// `try { .. } catch .. finally { .. }`; the grammar asks for one of the last two.
    pub fn try_stmt(
        &self,
        block: BlockStmt,
        handler: Option<CatchClause>,
        finalizer: Option<BlockStmt>,
    ) -> Result<StmtBox, AllocError>
        requires block { fits_block_stmt (λ p. p) block }
        requires handler { fits_held (λ x. fits_catch_clause (λ p. p) x) handler }
        requires finalizer { fits_held (λ x. fits_block_stmt (λ p. p) x) finalizer }
        ensures { IfOk result (λ c. c.part.value ≡ in_stmt (try_stmt no_place (view_block_stmt inner block) (part_by (view_catch_clause inner) handler) (part_by (view_block_stmt inner) finalizer))) }
    {
        let node = TryStmt {
            span: DUMMY_SP,
            block,
            handler,
            finalizer,
        };
        let node = Box::new(self.alloc, node)?;
        self.stmt(StmtKind::Try(node))
    }

    /// `while (test) body`.
    pub fn while_stmt(&self, test: ExprBox, body: StmtBox) -> Result<StmtBox, AllocError>
        requires test { holds_expr (test.part.value) }
        requires body { holds_stmt (body.part.value) }
        ensures { IfOk result (λ c. c.part.value ≡ in_stmt (while_stmt no_place (inner test.part.value) (inner body.part.value))) }
    {
        let node = WhileStmt {
            span: DUMMY_SP,
            test,
            body,
        };
        self.stmt(StmtKind::While(node))
    }

    /// `do body while (test);`.
    pub fn do_while_stmt(&self, test: ExprBox, body: StmtBox) -> Result<StmtBox, AllocError>
        requires test { holds_expr (test.part.value) }
        requires body { holds_stmt (body.part.value) }
        ensures { IfOk result (λ c. c.part.value ≡ in_stmt (do_while_stmt no_place (inner test.part.value) (inner body.part.value))) }
    {
        let node = DoWhileStmt {
            span: DUMMY_SP,
            test,
            body,
        };
        self.stmt(StmtKind::DoWhile(node))
    }

    /// `for (init; test; update) body`.
    pub fn for_stmt(
        &self,
        init: Option<VarDeclOrExpr>,
        test: Option<ExprBox>,
        update: Option<ExprBox>,
        body: StmtBox,
    ) -> Result<StmtBox, AllocError>
        requires init { fits_held (λ x. fits_var_decl_or_expr (λ p. p) x) init }
        requires test { fits_held (λ x. holds_expr (x.part.value)) test }
        requires update { fits_held (λ x. holds_expr (x.part.value)) update }
        requires body { holds_stmt (body.part.value) }
        ensures { IfOk result (λ c. c.part.value ≡ in_stmt (for_stmt no_place (part_by (view_var_decl_or_expr inner) init) (part_by (λ x. inner x.part.value) test) (part_by (λ x. inner x.part.value) update) (inner body.part.value))) }
    {
        let node = ForStmt {
            span: DUMMY_SP,
            init,
            test,
            update,
            body,
        };
        self.stmt(StmtKind::For(node))
    }

    /// `for (left in right) body`.
    pub fn for_in_stmt(
        &self,
        left: ForHead,
        right: ExprBox,
        body: StmtBox,
    ) -> Result<StmtBox, AllocError>
        requires left { fits_for_head (λ p. p) left }
        requires right { holds_expr (right.part.value) }
        requires body { holds_stmt (body.part.value) }
        ensures { IfOk result (λ c. c.part.value ≡ in_stmt (for_in_stmt no_place (view_for_head inner left) (inner right.part.value) (inner body.part.value))) }
    {
        let node = ForInStmt {
            span: DUMMY_SP,
            left,
            right,
            body,
        };
        self.stmt(StmtKind::ForIn(node))
    }

    /// `for (left of right) body`, or `for await`.
    pub fn for_of_stmt(
        &self,
        is_await: bool,
        left: ForHead,
        right: ExprBox,
        body: StmtBox,
    ) -> Result<StmtBox, AllocError>
        requires left { fits_for_head (λ p. p) left }
        requires right { holds_expr (right.part.value) }
        requires body { holds_stmt (body.part.value) }
        ensures { IfOk result (λ c. c.part.value ≡ in_stmt (for_of_stmt no_place is_await (view_for_head inner left) (inner right.part.value) (inner body.part.value))) }
    {
        let node = ForOfStmt {
            span: DUMMY_SP,
            is_await,
            left,
            right,
            body,
        };
        self.stmt(StmtKind::ForOf(node))
    }

    /// A class with its name.
    pub fn class_decl(&self, ident: Ident, class: Box<Class>) -> Result<StmtBox, AllocError>
        requires class { fits_class (λ p. p) class.value }
        ensures { IfOk result (λ c. c.part.value ≡ in_stmt (class_decl no_place (view_ident ident) (view_class inner class.value))) }
    {
        let node = ClassDecl {
            span: DUMMY_SP,
            ident,
            class,
        };
        self.stmt(StmtKind::Decl(Decl::Class(node)))
    }

    /// A function with its name.
    pub fn fn_decl(&self, ident: Ident, function: Box<Function>) -> Result<StmtBox, AllocError>
        requires function { fits_function (λ p. p) function.value }
        ensures { IfOk result (λ c. c.part.value ≡ in_stmt (fn_decl no_place (view_ident ident) (view_function inner function.value))) }
    {
        let node = FnDecl {
            span: DUMMY_SP,
            ident,
            function,
        };
        self.stmt(StmtKind::Decl(Decl::Fn(node)))
    }

    /// `var`, `let` or `const` with what it declares.
    pub fn var_decl(
        &self,
        kind: VarDeclKind,
        decls: Vec<VarDeclarator>,
    ) -> Result<StmtBox, AllocError>
        requires decls { All (λ x. fits_var_declarator (λ p. p) x) decls.items }
        ensures { IfOk result (λ c. c.part.value ≡ in_stmt (var_decl no_place (var_decl_kind_word kind) (trees_by (view_var_declarator inner) decls.items))) }
    {
        let node = VarDecl {
            span: DUMMY_SP,
            kind,
            decls,
        };
        self.stmt(StmtKind::Decl(Decl::Var(node)))
    }

    /// `using` or `await using` with what it declares.
    pub fn using_decl(
        &self,
        is_await: bool,
        decls: Vec<VarDeclarator>,
    ) -> Result<StmtBox, AllocError>
        requires decls { All (λ x. fits_var_declarator (λ p. p) x) decls.items }
        ensures { IfOk result (λ c. c.part.value ≡ in_stmt (using_decl no_place is_await (trees_by (view_var_declarator inner) decls.items))) }
    {
        let node = UsingDecl {
            span: DUMMY_SP,
            is_await,
            decls,
        };
        self.stmt(StmtKind::Decl(Decl::Using(node)))
    }

    /// An expression as a statement.
    pub fn expr_stmt(&self, expr: ExprBox) -> Result<StmtBox, AllocError>
        requires expr { holds_expr (expr.part.value) }
        ensures { IfOk result (λ c. c.part.value ≡ in_stmt (expr_stmt no_place (inner expr.part.value))) }
    {
        let node = ExprStmt {
            span: DUMMY_SP,
            expr,
        };
        self.stmt(StmtKind::Expr(node))
    }
}
