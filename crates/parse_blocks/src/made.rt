//! Makers of statements. Each stands in a function of its own, so that rules keep small frames.
ghost use Rattle.std.specs.Prelude.{◌≡◌, All, IfErr, IfOk};
ghost use Rattle.tree_nodes.specs.Fits.{fits_block_stmt, fits_catch_clause, fits_held, fits_stmt_kind, fits_switch_case, fits_var_declarator};
ghost use Rattle.tree_nodes.specs.Placed.{holds_stmt, inner};
ghost use Rattle.tree_nodes.specs.View.{var_decl_kind_word, view_block_stmt, view_catch_clause, view_ident};
ghost use Rattle.tree_nodes.specs.View.{view_stmt_kind, view_switch_case, view_var_declarator};
ghost use Rattle.tree_nodes.specs.Tree.{break_stmt, continue_stmt, debugger_stmt, expr_stmt, if_stmt, labeled_stmt, part_by, return_stmt};
ghost use Rattle.tree_nodes.specs.Tree.{switch_stmt, throw_stmt, trees_by, try_stmt, using_decl, var_decl, with_stmt};
ghost use Rattle.parse_state.specs.Answers.{IsMemory};
ghost use Rattle.parse_operands.specs.Operands.{tree_of};

use base_token::Span;
use parse_operands::Operand;
use parse_state::Failure;
use std::alloc::Global;
use tree_nodes::{
    BlockStmt, BreakStmt, CatchClause, ContinueStmt, DebuggerStmt, Decl, ExprStmt, Ident, IfStmt,
    LabeledStmt, ReturnStmt, Stmt, StmtBox, StmtKind, SwitchCase, SwitchStmt, ThrowStmt, TryStmt,
    UsingDecl, VarDecl, VarDeclKind, VarDeclarator, WithStmt,
};

/// A statement of any kind.
pub fn stmt(alloc: Global, kind: StmtKind) -> Result<StmtBox, Failure>
    requires { fits_stmt_kind (λ p. p) kind }
    ensures value { IfOk result (λ x. inner x.part.value ≡ view_stmt_kind inner kind) }
    ensures holds { IfOk result (λ x. holds_stmt x.part.value) }
    ensures full { IfErr result IsMemory }
{
    Ok(StmtBox::new(alloc, Stmt { kind })?)
}

/// `with (obj) body`.
#[inline(never)]
pub fn with_stmt(alloc: Global, span: Span, obj: Operand, body: StmtBox) -> Result<StmtBox, Failure>
    requires body { holds_stmt body.part.value }
    ensures value { IfOk result (λ x. inner x.part.value ≡ with_stmt span (tree_of obj) (inner body.part.value)) }
    ensures holds { IfOk result (λ x. holds_stmt x.part.value) }
    ensures full { IfErr result IsMemory }
{
    stmt(
        alloc,
        StmtKind::With(WithStmt {
            span,
            obj: obj.expr,
            body,
        }),
    )
}

/// `return;`, or with an operand.
#[inline(never)]
pub fn return_stmt(alloc: Global, span: Span, arg: Option<Operand>) -> Result<StmtBox, Failure>
    ensures value { IfOk result (λ x. inner x.part.value ≡ return_stmt span (part_by tree_of arg)) }
    ensures holds { IfOk result (λ x. holds_stmt x.part.value) }
    ensures full { IfErr result IsMemory }
{
    let arg = match arg {
        Some(arg) => Some(arg.expr),
        None => None,
    };
    stmt(alloc, StmtKind::Return(ReturnStmt { span, arg }))
}

/// `throw arg;`.
#[inline(never)]
pub fn throw_stmt(alloc: Global, span: Span, arg: Operand) -> Result<StmtBox, Failure>
    ensures value { IfOk result (λ x. inner x.part.value ≡ throw_stmt span (tree_of arg)) }
    ensures holds { IfOk result (λ x. holds_stmt x.part.value) }
    ensures full { IfErr result IsMemory }
{
    stmt(
        alloc,
        StmtKind::Throw(ThrowStmt {
            span,
            arg: arg.expr,
        }),
    )
}

/// `break;`, or with a label.
#[inline(never)]
pub fn break_stmt(alloc: Global, span: Span, label: Option<Ident>) -> Result<StmtBox, Failure>
    ensures value { IfOk result (λ x. inner x.part.value ≡ break_stmt span (part_by view_ident label)) }
    ensures holds { IfOk result (λ x. holds_stmt x.part.value) }
    ensures full { IfErr result IsMemory }
{
    stmt(alloc, StmtKind::Break(BreakStmt { span, label }))
}

/// `continue;`, or with a label.
#[inline(never)]
pub fn continue_stmt(alloc: Global, span: Span, label: Option<Ident>) -> Result<StmtBox, Failure>
    ensures value { IfOk result (λ x. inner x.part.value ≡ continue_stmt span (part_by view_ident label)) }
    ensures holds { IfOk result (λ x. holds_stmt x.part.value) }
    ensures full { IfErr result IsMemory }
{
    stmt(alloc, StmtKind::Continue(ContinueStmt { span, label }))
}

/// `debugger;`.
#[inline(never)]
pub fn debugger_stmt(alloc: Global, span: Span) -> Result<StmtBox, Failure>
    ensures value { IfOk result (λ x. inner x.part.value ≡ debugger_stmt span) }
    ensures holds { IfOk result (λ x. holds_stmt x.part.value) }
    ensures full { IfErr result IsMemory }
{
    stmt(alloc, StmtKind::Debugger(DebuggerStmt { span }))
}

/// `label: body`.
#[inline(never)]
pub fn labeled_stmt(
    alloc: Global,
    span: Span,
    label: Ident,
    body: StmtBox,
) -> Result<StmtBox, Failure>
    requires body { holds_stmt body.part.value }
    ensures value { IfOk result (λ x. inner x.part.value
        ≡ labeled_stmt span (view_ident label) (inner body.part.value)) }
    ensures holds { IfOk result (λ x. holds_stmt x.part.value) }
    ensures full { IfErr result IsMemory }
{
    stmt(alloc, StmtKind::Labeled(LabeledStmt { span, label, body }))
}

/// An expression as a statement.
#[inline(never)]
pub fn expr_stmt(alloc: Global, span: Span, expr: Operand) -> Result<StmtBox, Failure>
    ensures value { IfOk result (λ x. inner x.part.value ≡ expr_stmt span (tree_of expr)) }
    ensures holds { IfOk result (λ x. holds_stmt x.part.value) }
    ensures full { IfErr result IsMemory }
{
    stmt(
        alloc,
        StmtKind::Expr(ExprStmt {
            span,
            expr: expr.expr,
        }),
    )
}

/// `if (test) cons else alt`.
#[inline(never)]
pub fn if_stmt(
    alloc: Global,
    span: Span,
    test: Operand,
    cons: StmtBox,
    alt: Option<StmtBox>,
) -> Result<StmtBox, Failure>
    requires cons { holds_stmt cons.part.value }
    requires alt { fits_held (λ x. holds_stmt x.part.value) alt }
    ensures value { IfOk result (λ x. inner x.part.value
        ≡ if_stmt span (tree_of test) (inner cons.part.value)
        (part_by (λ x. inner x.part.value) alt)) }
    ensures holds { IfOk result (λ x. holds_stmt x.part.value) }
    ensures full { IfErr result IsMemory }
{
    stmt(
        alloc,
        StmtKind::If(IfStmt {
            span,
            test: test.expr,
            cons,
            alt,
        }),
    )
}

/// `switch (discriminant) { .. }`.
#[inline(never)]
pub fn switch_stmt(
    alloc: Global,
    span: Span,
    discriminant: Operand,
    cases: Vec<SwitchCase>,
) -> Result<StmtBox, Failure>
    requires { All (λ x. fits_switch_case (λ p. p) x) cases.items }
    ensures value { IfOk result (λ x. inner x.part.value
        ≡ switch_stmt span (tree_of discriminant) (trees_by (view_switch_case inner) cases.items)) }
    ensures holds { IfOk result (λ x. holds_stmt x.part.value) }
    ensures full { IfErr result IsMemory }
{
    stmt(
        alloc,
        StmtKind::Switch(SwitchStmt {
            span,
            discriminant: discriminant.expr,
            cases,
        }),
    )
}

/// `try`, with what follows it.
#[inline(never)]
pub fn try_stmt(
    alloc: Global,
    span: Span,
    block: BlockStmt,
    handler: Option<CatchClause>,
    finalizer: Option<BlockStmt>,
) -> Result<StmtBox, Failure>
    requires block { fits_block_stmt (λ p. p) block }
    requires handler { fits_held (λ x. fits_catch_clause (λ p. p) x) handler }
    requires finalizer { fits_held (λ x. fits_block_stmt (λ p. p) x) finalizer }
    ensures value { IfOk result (λ x. inner x.part.value
        ≡ try_stmt span (view_block_stmt inner block) (part_by (view_catch_clause inner) handler)
        (part_by (view_block_stmt inner) finalizer)) }
    ensures holds { IfOk result (λ x. holds_stmt x.part.value) }
    ensures full { IfErr result IsMemory }
{
    let node = TryStmt {
        span,
        block,
        handler,
        finalizer,
    };
    stmt(alloc, StmtKind::Try(Box::new(alloc, node)?))
}

/// `var`, `let` or `const`, with what it declares.
#[inline(never)]
pub fn var_decl(
    alloc: Global,
    span: Span,
    kind: VarDeclKind,
    decls: Vec<VarDeclarator>,
) -> Result<StmtBox, Failure>
    requires { All (λ x. fits_var_declarator (λ p. p) x) decls.items }
    ensures value { IfOk result (λ x. inner x.part.value
        ≡ var_decl span (var_decl_kind_word kind)
        (trees_by (view_var_declarator inner) decls.items)) }
    ensures holds { IfOk result (λ x. holds_stmt x.part.value) }
    ensures full { IfErr result IsMemory }
{
    stmt(
        alloc,
        StmtKind::Decl(Decl::Var(VarDecl { span, kind, decls })),
    )
}

/// `using` or `await using`, with what it declares.
#[inline(never)]
pub fn using_decl(
    alloc: Global,
    span: Span,
    is_await: bool,
    decls: Vec<VarDeclarator>,
) -> Result<StmtBox, Failure>
    requires { All (λ x. fits_var_declarator (λ p. p) x) decls.items }
    ensures value { IfOk result (λ x. inner x.part.value
        ≡ using_decl span is_await (trees_by (view_var_declarator inner) decls.items)) }
    ensures holds { IfOk result (λ x. holds_stmt x.part.value) }
    ensures full { IfErr result IsMemory }
{
    stmt(
        alloc,
        StmtKind::Decl(Decl::Using(UsingDecl {
            span,
            is_await,
            decls,
        })),
    )
}
