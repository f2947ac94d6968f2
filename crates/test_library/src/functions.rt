//! Functions, classes and objects.
ghost use Rattle.std.specs.Prelude.{All};
ghost use Rattle.tree_nodes.specs.Fits.{fits_decorator, fits_function};

use crate::made::{block, bound, deep, deeper, name, ok, private, var};
use crate::told::{expr, stmt};
use base_token::DUMMY_SP;
use ecma_ast::Build;
use std::process::Abort;
use tree_nodes::{
    AssignProp, AutoAccessor, BlockStmtOrExpr, Class, ClassMember, Decorator, Function, Key, Param,
    Prop, PropOrSpread,
};

/// `@a`.
fn decorators(rt: &impl Abort, b: &Build) -> Vec<Decorator>
    ensures { All (λ x. fits_decorator (λ p. p) x) result.items }
{
    let decorator = Decorator {
        span: DUMMY_SP,
        expr: var(rt, b),
    };
    ok(rt, vec![in b.alloc; decorator])
}

/// `@a (@a a) { (a); }`.
fn function(rt: &impl Abort, b: &Build) -> Box<Function>
    ensures { fits_function (λ p. p) result.value }
{
    let param = Param {
        span: DUMMY_SP,
        decorators: decorators(rt, b),
        pat: bound(rt, b),
    };
    let function = Function {
        span: DUMMY_SP,
        params: ok(rt, vec![in b.alloc; param]),
        decorators: decorators(rt, b),
        body: block(rt, b),
        is_generator: false,
        is_async: false,
    };
    ok(rt, Box::new(b.alloc, function))
}

#[test]
fn functions(rt: HostRuntime) {
    let b = &Build { alloc: rt.alloc() };
    let want = "(13:6 (12 (2 (1:1)) (7 (4 (3:1)) (6:1 (5:1))) (11 (10:3 (9:2 (8:1))))))";
    expr(&rt, b, b.fn_expr(None, function(&rt, b)), want);
    let want = "(14:6 (1:1) (13 (3 (2:1)) (8 (5 (4:1)) (7:1 (6:1))) (12 (11:3 (10:2 (9:1))))))";
    stmt(&rt, b, b.fn_decl(name(&rt, b), function(&rt, b)), want);
}

#[test]
fn arrows(rt: HostRuntime) {
    let b = &Build { alloc: rt.alloc() };
    let params = ok(&rt, vec![in b.alloc; bound(&rt, b)]);
    let body = BlockStmtOrExpr::Expr(deeper(&rt, b));
    let tree = b.arrow_expr(params, body, false);
    expr(&rt, b, tree, "(6:4 (2:1 (1:1)) (5:3 (4:2 (3:1))))");
    let body = BlockStmtOrExpr::BlockStmt(block(&rt, b));
    let tree = b.arrow_expr(Vec::new(b.alloc), body, true);
    expr(&rt, b, tree, "(5:5 (4 (3:3 (2:2 (1:1)))))");
}

#[test]
fn accessors(rt: HostRuntime) {
    let b = &Build { alloc: rt.alloc() };
    let accessor = AutoAccessor {
        span: DUMMY_SP,
        key: Key::Private(private(&rt, b)),
        value: Some(deep(&rt, b)),
        is_static: false,
        decorators: decorators(&rt, b),
    };
    let class = Class {
        span: DUMMY_SP,
        decorators: Vec::new(b.alloc),
        body: ok(&rt, vec![in b.alloc; ClassMember::AutoAccessor(accessor)]),
        super_class: None,
    };
    let class = ok(&rt, Box::new(b.alloc, class));
    let want = "(8:5 (7 (6 (2 (1:1)) (3:1) (5:2 (4:1)))))";
    expr(&rt, b, b.class_expr(None, class), want);
}

#[test]
fn classes(rt: HostRuntime) {
    let b = &Build { alloc: rt.alloc() };
    let class = Class {
        span: DUMMY_SP,
        decorators: decorators(&rt, b),
        body: Vec::new(b.alloc),
        super_class: Some(deeper(&rt, b)),
    };
    let class = ok(&rt, Box::new(b.alloc, class));
    let want = "(8:5 (1:1) (7 (3 (2:1)) (6:3 (5:2 (4:1)))))";
    stmt(&rt, b, b.class_decl(name(&rt, b), class), want);
}

#[test]
fn objects(rt: HostRuntime) {
    let b = &Build { alloc: rt.alloc() };
    let prop = AssignProp {
        span: DUMMY_SP,
        key: name(&rt, b),
        value: deep(&rt, b),
    };
    let prop = ok(&rt, Box::new(b.alloc, Prop::Assign(prop)));
    let props = ok(&rt, vec![in b.alloc; PropOrSpread::Prop(prop)]);
    expr(&rt, b, b.object_lit(props), "(5:4 (4 (1:1) (3:2 (2:1))))");
}
