//! Chains of a million links, made, measured, gone over, compared and dropped on the stack of the main thread.
ghost use Rattle.tree_nodes.specs.Placed.{holds_expr, holds_stmt};

use crate::made::{empty, ok, var, word};
use base_token::BinaryOp;
use ecma_ast::Build;
use std::process::Abort;
use tree_nesting::Nesting;
use tree_nodes::{Callee, ExprBox, MemberProp, StmtBox};
use tree_same::Same;
use tree_visit::{Node, Walk, Watch};

/// What stands round an expression.
#[derive(Clone, Copy)]
enum Shape {
    Sum,
    Member,
    Call,
}

/// Counts the nodes that are entered.
#[derive(Drop)]
struct Count {
    nodes: u64,
}

impl Watch for Count {
    ghost State = { Unit {0} };

    ghost step = { λ event s. s };

    ghost state = { λ count. tt };

    fn enter(&mut self, _node: Node<'_>) {
        self.nodes = self.nodes.saturating_add(1);
    }

    fn leave(&mut self, _node: Node<'_>) {}
}

/// An expression in so many of a shape.
fn exprs(rt: &impl Abort, b: &Build, shape: Shape, inmost: ExprBox, count: u32) -> ExprBox
    requires { holds_expr inmost.part.value }
    ensures { holds_expr result.part.value }
{
    let mut expr = inmost;
    for _i in 0..count {
        expr = expr_in(rt, b, shape, expr);
    }
    expr
}

/// An expression in one of a shape.
fn expr_in(rt: &impl Abort, b: &Build, shape: Shape, expr: ExprBox) -> ExprBox
    requires { holds_expr expr.part.value }
    ensures { holds_expr result.part.value }
{
    let made = match shape {
        Shape::Sum => b.bin_expr(BinaryOp::Add, expr, var(rt, b)),
        Shape::Member => b.member_expr(expr, MemberProp::Ident(word(rt, b))),
        Shape::Call => b.call_expr(Callee::Expr(expr), Vec::new(b.alloc)),
    };
    ok(rt, made)
}

/// `if (a) ; else` so many times before a statement.
fn branches(rt: &impl Abort, b: &Build, inmost: StmtBox, count: u32) -> StmtBox
    requires { holds_stmt inmost.part.value }
    ensures { holds_stmt result.part.value }
{
    let mut stmt = inmost;
    for _i in 0..count {
        stmt = ok(rt, b.if_stmt(var(rt, b), empty(rt, b), Some(stmt)));
    }
    stmt
}

/// Measures a chain of a million links, goes over it, and compares it with one that is the same and one that isn't.
fn check_chain(rt: &impl Abort, b: &Build, shape: Shape, nesting: u32, nodes: u64) {
    let chain = exprs(rt, b, shape, var(rt, b), 1_000_000);
    assert_eq!(rt; chain.nesting(), nesting);
    let mut count = Count { nodes: 0 };
    chain.walk(&mut count);
    assert_eq!(rt; count.nodes, nodes);
    let same = exprs(rt, b, shape, var(rt, b), 1_000_000);
    assert!(rt; chain.same(&same));
    let other = exprs(rt, b, shape, ok(rt, b.this_expr()), 1_000_000);
    assert!(rt; !chain.same(&other));
}

#[test]
fn long_chains(rt: HostRuntime) {
    let b = &Build { alloc: rt.alloc() };
    check_chain(&rt, b, Shape::Sum, 2, 2_000_001);
    check_chain(&rt, b, Shape::Member, 2, 2_000_001);
    check_chain(&rt, b, Shape::Call, 1, 1_000_001);
}

#[test]
fn long_branches(rt: HostRuntime) {
    let b = &Build { alloc: rt.alloc() };
    let long = branches(&rt, b, empty(&rt, b), 1_000_000);
    assert_eq!(rt; long.nesting(), 2);
    let same = branches(&rt, b, empty(&rt, b), 1_000_000);
    assert!(rt; long.same(&same));
    let other = branches(&rt, b, ok(&rt, b.debugger_stmt()), 1_000_000);
    assert!(rt; !long.same(&other));
}
