//! Statements.
ghost use Rattle.std.specs.Prelude.{All};
ghost use Rattle.tree_nodes.specs.Fits.{fits_var_declarator};

use crate::made::{block, bound, deep, deep_stmt, deeper, empty, name, ok, var};
use crate::told::stmt;
use base_token::DUMMY_SP;
use ecma_ast::Build;
use std::process::Abort;
use tree_nodes::{
    CatchClause, ForHead, SwitchCase, UsingDecl, VarDeclKind, VarDeclOrExpr, VarDeclarator,
};

#[test]
fn plain(rt: HostRuntime) {
    let b = &Build { alloc: rt.alloc() };
    stmt(&rt, b, b.empty_stmt(), "(1:1)");
    stmt(&rt, b, b.debugger_stmt(), "(1:1)");
    stmt(&rt, b, b.expr_stmt(deep(&rt, b)), "(3:3 (2:2 (1:1)))");
    let stmts = ok(&rt, vec![in b.alloc; deep_stmt(&rt, b)]);
    stmt(&rt, b, b.block_stmt(stmts), "(4:4 (3:3 (2:2 (1:1))))");
    let tree = b.with_stmt(var(&rt, b), deep_stmt(&rt, b));
    stmt(&rt, b, tree, "(5:4 (1:1) (4:3 (3:2 (2:1))))");
}

#[test]
fn jumps(rt: HostRuntime) {
    let b = &Build { alloc: rt.alloc() };
    stmt(&rt, b, b.return_stmt(None), "(1:1)");
    let tree = b.return_stmt(Some(deep(&rt, b)));
    stmt(&rt, b, tree, "(3:3 (2:2 (1:1)))");
    stmt(&rt, b, b.throw_stmt(deep(&rt, b)), "(3:3 (2:2 (1:1)))");
    let tree = b.labeled_stmt(name(&rt, b), empty(&rt, b));
    stmt(&rt, b, tree, "(3:2 (1:1) (2:1))");
    stmt(&rt, b, b.break_stmt(Some(name(&rt, b))), "(2:2 (1:1))");
    stmt(&rt, b, b.continue_stmt(None), "(1:1)");
}

#[test]
fn branches(rt: HostRuntime) {
    let b = &Build { alloc: rt.alloc() };
    let tree = b.if_stmt(deeper(&rt, b), empty(&rt, b), None);
    stmt(&rt, b, tree, "(5:4 (3:3 (2:2 (1:1))) (4:1))");
    let alt = b.if_stmt(var(&rt, b), empty(&rt, b), Some(empty(&rt, b)));
    let alt = ok(&rt, alt);
    let tree = b.if_stmt(var(&rt, b), empty(&rt, b), Some(alt));
    stmt(&rt, b, tree, "(7:2 (1:1) (2:1) (6:2 (3:1) (4:1) (5:1)))");
}

#[test]
fn loops(rt: HostRuntime) {
    let b = &Build { alloc: rt.alloc() };
    let tree = b.while_stmt(var(&rt, b), deep_stmt(&rt, b));
    stmt(&rt, b, tree, "(5:4 (1:1) (4:3 (3:2 (2:1))))");
    let tree = b.do_while_stmt(deep(&rt, b), empty(&rt, b));
    stmt(&rt, b, tree, "(4:3 (1:1) (3:2 (2:1)))");
    let init = Some(VarDeclOrExpr::Expr(var(&rt, b)));
    let test = Some(deep(&rt, b));
    let update = Some(deeper(&rt, b));
    let tree = b.for_stmt(init, test, update, empty(&rt, b));
    stmt(
        &rt,
        b,
        tree,
        "(8:4 (1:1) (3:2 (2:1)) (6:3 (5:2 (4:1))) (7:1))",
    );
    let left = ForHead::Pat(bound(&rt, b));
    let tree = b.for_in_stmt(left, deep(&rt, b), empty(&rt, b));
    stmt(&rt, b, tree, "(6:3 (2:1 (1:1)) (4:2 (3:1)) (5:1))");
}

/// `a`, as it is declared.
fn declared(rt: &impl Abort, b: &Build) -> Vec<VarDeclarator>
    ensures { All (λ x. fits_var_declarator (λ p. p) x) result.items }
{
    let declarator = VarDeclarator {
        span: DUMMY_SP,
        name: bound(rt, b),
        init: None,
    };
    ok(rt, vec![in b.alloc; declarator])
}

#[test]
fn heads(rt: HostRuntime) {
    let b = &Build { alloc: rt.alloc() };
    let decl = UsingDecl {
        span: DUMMY_SP,
        is_await: false,
        decls: declared(&rt, b),
    };
    let left = ForHead::UsingDecl(ok(&rt, Box::new(b.alloc, decl)));
    let tree = b.for_of_stmt(true, left, var(&rt, b), empty(&rt, b));
    stmt(&rt, b, tree, "(7:4 (4 (3 (2:1 (1:1)))) (5:1) (6:1))");
}

#[test]
fn switches(rt: HostRuntime) {
    let b = &Build { alloc: rt.alloc() };
    let case = SwitchCase {
        span: DUMMY_SP,
        test: Some(deep(&rt, b)),
        cons: Vec::new(b.alloc),
    };
    let default = SwitchCase {
        span: DUMMY_SP,
        test: None,
        cons: ok(&rt, vec![in b.alloc; empty(&rt, b)]),
    };
    let cases = ok(&rt, vec![in b.alloc; case, default]);
    let tree = b.switch_stmt(var(&rt, b), cases);
    stmt(&rt, b, tree, "(7:4 (1:1) (4 (3:2 (2:1))) (6 (5:1)))");
}

#[test]
fn attempts(rt: HostRuntime) {
    let b = &Build { alloc: rt.alloc() };
    let clause = CatchClause {
        span: DUMMY_SP,
        param: Some(bound(&rt, b)),
        body: block(&rt, b),
    };
    let tree = b.try_stmt(block(&rt, b), Some(clause), Some(block(&rt, b)));
    let want =
        "(16:6 (4 (3:3 (2:2 (1:1)))) (11 (6:1 (5:1)) (10 (9:3 (8:2 (7:1))))) (15 (14:3 (13:2 (12:1)))))";
    stmt(&rt, b, tree, want);
}

#[test]
fn variables(rt: HostRuntime) {
    let b = &Build { alloc: rt.alloc() };
    let tree = b.var_decl(VarDeclKind::Const, declared(&rt, b));
    stmt(&rt, b, tree, "(4:3 (3 (2:1 (1:1))))");
    let tree = b.using_decl(true, declared(&rt, b));
    stmt(&rt, b, tree, "(4:3 (3 (2:1 (1:1))))");
}
