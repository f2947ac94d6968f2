//! Makers of loops and of what heads them. Each stands in a function of its own, so that rules keep small frames.
ghost use Rattle.std.specs.Prelude.{◌≡◌, IfErr, IfOk};
ghost use Rattle.tree_nodes.specs.Fits.{fits_for_head, fits_held, fits_var_decl_or_expr};
ghost use Rattle.tree_nodes.specs.Placed.{holds_stmt, inner};
ghost use Rattle.tree_nodes.specs.View.{view_for_head, view_var_decl_or_expr};
ghost use Rattle.tree_spec.specs.Tree.{do_while_stmt, for_in_stmt, for_of_stmt, for_stmt, part_by, while_stmt};
ghost use Rattle.parse_state.specs.Answers.{IsMemory};
ghost use Rattle.parse_operands.specs.Operands.{tree_of};

use base_token::Span;
use parse_blocks::made::stmt;
use parse_operands::Operand;
use parse_state::Failure;
use std::alloc::Global;
use tree_nodes::{
    DoWhileStmt, ForHead, ForInStmt, ForOfStmt, ForStmt, StmtBox, StmtKind, UsingDecl, VarDecl,
    VarDeclKind, VarDeclOrExpr, VarDeclarator, WhileStmt,
};

/// `do body while (test);`.
#[inline(never)]
pub fn do_while_stmt(
    alloc: Global,
    span: Span,
    test: Operand,
    body: StmtBox,
) -> Result<StmtBox, Failure>
    requires body { holds_stmt body.part.value }
    ensures value { IfOk result (λ x. inner x.part.value ≡ do_while_stmt span (tree_of test) (inner body.part.value)) }
    ensures holds { IfOk result (λ x. holds_stmt x.part.value) }
    ensures full { IfErr result IsMemory }
{
    stmt(
        alloc,
        StmtKind::DoWhile(DoWhileStmt {
            span,
            test: test.expr,
            body,
        }),
    )
}

/// `while (test) body`.
#[inline(never)]
pub fn while_stmt(
    alloc: Global,
    span: Span,
    test: Operand,
    body: StmtBox,
) -> Result<StmtBox, Failure>
    requires body { holds_stmt body.part.value }
    ensures value { IfOk result (λ x. inner x.part.value ≡ while_stmt span (tree_of test) (inner body.part.value)) }
    ensures holds { IfOk result (λ x. holds_stmt x.part.value) }
    ensures full { IfErr result IsMemory }
{
    stmt(
        alloc,
        StmtKind::While(WhileStmt {
            span,
            test: test.expr,
            body,
        }),
    )
}

/// `for (init; test; update) body`.
#[inline(never)]
pub fn for_stmt(
    alloc: Global,
    span: Span,
    init: Option<VarDeclOrExpr>,
    test: Option<Operand>,
    update: Option<Operand>,
    body: StmtBox,
) -> Result<StmtBox, Failure>
    requires init { fits_held (λ x. fits_var_decl_or_expr (λ p. p) x) init }
    requires body { holds_stmt body.part.value }
    ensures value { IfOk result (λ x. inner x.part.value
        ≡ for_stmt span (part_by (view_var_decl_or_expr inner) init) (part_by tree_of test)
        (part_by tree_of update) (inner body.part.value)) }
    ensures holds { IfOk result (λ x. holds_stmt x.part.value) }
    ensures full { IfErr result IsMemory }
{
    let first = match test {
        Some(x) => Some(x.expr),
        None => None,
    };
    let second = match update {
        Some(x) => Some(x.expr),
        None => None,
    };
    stmt(
        alloc,
        StmtKind::For(ForStmt {
            span,
            init,
            test: first,
            update: second,
            body,
        }),
    )
}

/// `for (left in right) body`.
#[inline(never)]
pub fn for_in_stmt(
    alloc: Global,
    span: Span,
    left: ForHead,
    right: Operand,
    body: StmtBox,
) -> Result<StmtBox, Failure>
    requires left { fits_for_head (λ p. p) left }
    requires body { holds_stmt body.part.value }
    ensures value { IfOk result (λ x. inner x.part.value
        ≡ for_in_stmt span (view_for_head inner left) (tree_of right) (inner body.part.value)) }
    ensures holds { IfOk result (λ x. holds_stmt x.part.value) }
    ensures full { IfErr result IsMemory }
{
    stmt(
        alloc,
        StmtKind::ForIn(ForInStmt {
            span,
            left,
            right: right.expr,
            body,
        }),
    )
}

/// `for (left of right) body`, or `for await`.
#[inline(never)]
pub fn for_of_stmt(
    alloc: Global,
    span: Span,
    is_await: bool,
    left: ForHead,
    right: Operand,
    body: StmtBox,
) -> Result<StmtBox, Failure>
    requires left { fits_for_head (λ p. p) left }
    requires body { holds_stmt body.part.value }
    ensures value { IfOk result (λ x. inner x.part.value
        ≡ for_of_stmt span is_await (view_for_head inner left) (tree_of right)
        (inner body.part.value)) }
    ensures holds { IfOk result (λ x. holds_stmt x.part.value) }
    ensures full { IfErr result IsMemory }
{
    stmt(
        alloc,
        StmtKind::ForOf(ForOfStmt {
            span,
            is_await,
            left,
            right: right.expr,
            body,
        }),
    )
}

/// Variables that a `for` declares.
#[inline(never)]
pub fn variables(
    alloc: Global,
    span: Span,
    kind: VarDeclKind,
    decls: Vec<VarDeclarator>,
) -> Result<Box<VarDecl>, Failure>
    ensures value { IfOk result (λ x. x.value ≡ record { span = span; kind = kind; decls = decls }) }
    ensures full { IfErr result IsMemory }
{
    let node = VarDecl { span, kind, decls };
    Ok(Box::new(alloc, node)?)
}

/// What a `for` declares by `using`.
#[inline(never)]
pub fn using(
    alloc: Global,
    span: Span,
    is_await: bool,
    decls: Vec<VarDeclarator>,
) -> Result<Box<UsingDecl>, Failure>
    ensures value { IfOk result (λ x. x.value ≡ record { span = span; is_await = is_await; decls = decls }) }
    ensures full { IfErr result IsMemory }
{
    let node = UsingDecl {
        span,
        is_await,
        decls,
    };
    Ok(Box::new(alloc, node)?)
}
