//! Expressions without functions and classes.
ghost use Rattle.std.specs.Prelude.{All};
ghost use Rattle.tree_nodes.specs.Fits.{fits_assign_target, fits_expr_or_spread, fits_member_expr, fits_super_prop_expr, fits_tpl};

use crate::made::{atom, deep, deeper, name, ok, str, var, word};
use crate::told::expr;
use base_token::{AssignOp, BinaryOp, DUMMY_SP, NumValue};
use ecma_ast::Build;
use std::process::Abort;
use tree_nodes::{
    AssignTarget, BindingIdent, Callee, ComputedPropName, ExprOrSpread, Invalid, MemberExpr,
    MemberProp, MetaPropKind, OptChainBase, Super, SuperProp, SuperPropExpr, Tpl, TplElement,
    UnaryOp, UpdateOp,
};

#[test]
fn leaves(rt: HostRuntime) {
    let b = &Build { alloc: rt.alloc() };
    expr(&rt, b, b.this_expr(), "(1:1)");
    expr(&rt, b, b.var("a"), "(1:1)");
    expr(&rt, b, b.private_name(atom(&rt, b)), "(1:1)");
    expr(&rt, b, b.meta_prop_expr(MetaPropKind::NewTarget), "(1:1)");
    expr(&rt, b, b.invalid(), "(1:1)");
}

#[test]
fn literals(rt: HostRuntime) {
    let b = &Build { alloc: rt.alloc() };
    expr(&rt, b, b.null(), "(1:1)");
    expr(&rt, b, b.bool(true), "(1:1)");
    expr(&rt, b, b.str(str(&rt, b).units, None), "(1:1)");
    expr(&rt, b, b.big_int(10, atom(&rt, b), None), "(1:1)");
    expr(&rt, b, b.regex(atom(&rt, b), atom(&rt, b)), "(1:1)");
    let value = ok(&rt, NumValue::read(b.alloc, "1.5"));
    let value = value.expect(&rt, "a number");
    let value = ok(&rt, Box::new(b.alloc, value));
    expr(&rt, b, b.number(value, None), "(1:1)");
}

#[test]
fn operators(rt: HostRuntime) {
    let b = &Build { alloc: rt.alloc() };
    let tree = b.unary_expr(UnaryOp::Void, deep(&rt, b));
    expr(&rt, b, tree, "(3:3 (2:2 (1:1)))");
    let tree = b.update_expr(UpdateOp::PlusPlus, true, var(&rt, b));
    expr(&rt, b, tree, "(2:2 (1:1))");
    let tree = b.bin_expr(BinaryOp::Add, deeper(&rt, b), var(&rt, b));
    expr(&rt, b, tree, "(5:3 (3:3 (2:2 (1:1))) (4:1))");
    let tree = b.cond_expr(var(&rt, b), deep(&rt, b), deeper(&rt, b));
    expr(&rt, b, tree, "(7:4 (1:1) (3:2 (2:1)) (6:3 (5:2 (4:1))))");
}

#[test]
fn words(rt: HostRuntime) {
    let b = &Build { alloc: rt.alloc() };
    let exprs = ok(&rt, vec![in b.alloc; deep(&rt, b), var(&rt, b)]);
    expr(&rt, b, b.seq_expr(exprs), "(4:3 (2:2 (1:1)) (3:1))");
    let tree = b.yield_expr(Some(deep(&rt, b)), true);
    expr(&rt, b, tree, "(3:3 (2:2 (1:1)))");
    expr(&rt, b, b.yield_expr(None, false), "(1:1)");
    expr(&rt, b, b.await_expr(deep(&rt, b)), "(3:3 (2:2 (1:1)))");
    expr(&rt, b, b.paren_expr(deep(&rt, b)), "(3:3 (2:2 (1:1)))");
}

/// `((a))`, as a list of arguments.
fn args(rt: &impl Abort, b: &Build) -> Vec<ExprOrSpread>
    ensures { All (λ x. fits_expr_or_spread (λ p. p) x) result.items }
{
    ok(rt, vec![in b.alloc; b.arg(deep(rt, b))])
}

#[test]
fn calls(rt: HostRuntime) {
    let b = &Build { alloc: rt.alloc() };
    let tree = b.call_expr(Callee::Expr(var(&rt, b)), args(&rt, b));
    expr(&rt, b, tree, "(5:4 (1:1) (4 (3:2 (2:1))))");
    let tree = b.new_expr(var(&rt, b), Some(args(&rt, b)));
    expr(&rt, b, tree, "(5:4 (1:1) (4 (3:2 (2:1))))");
}

#[test]
fn lists(rt: HostRuntime) {
    let b = &Build { alloc: rt.alloc() };
    let spread = ExprOrSpread {
        span: DUMMY_SP,
        spread: Some(DUMMY_SP),
        expr: deep(&rt, b),
    };
    let elems = ok(&rt, vec![in b.alloc; None, Some(spread)]);
    expr(&rt, b, b.array_lit(elems), "(5:4 (3 (2:2 (1:1))))");
}

/// `a.a`.
fn member(rt: &impl Abort, b: &Build) -> MemberExpr
    ensures { fits_member_expr (λ p. p) result }
{
    let prop = MemberProp::Ident(word(rt, b));
    let obj = var(rt, b);
    MemberExpr {
        span: DUMMY_SP,
        obj,
        prop,
    }
}

/// `super[(a)]`.
fn super_member(rt: &impl Abort, b: &Build) -> SuperPropExpr
    ensures { fits_super_prop_expr (λ p. p) result }
{
    let key = ComputedPropName {
        span: DUMMY_SP,
        expr: deep(rt, b),
    };
    SuperPropExpr {
        span: DUMMY_SP,
        obj: Super { span: DUMMY_SP },
        prop: SuperProp::Computed(key),
    }
}

#[test]
fn members(rt: HostRuntime) {
    let b = &Build { alloc: rt.alloc() };
    let tree = b.member_expr(var(&rt, b), MemberProp::Ident(word(&rt, b)));
    expr(&rt, b, tree, "(3:2 (1:1) (2:1))");
    let SuperPropExpr { obj, prop, .. } = super_member(&rt, b);
    let tree = b.super_prop_expr(obj, prop);
    expr(&rt, b, tree, "(5:4 (1) (4 (3:2 (2:1))))");
    let tree = b.opt_chain_expr(true, OptChainBase::Member(member(&rt, b)));
    expr(&rt, b, tree, "(4:2 (3 (1:1) (2:1)))");
}

/// An assignment to a target.
fn assign(rt: &impl Abort, b: &Build, left: AssignTarget, want: &str)
    requires { fits_assign_target (λ p. p) left }
{
    let tree = b.assign_expr(AssignOp::Assign, left, var(rt, b));
    expr(rt, b, tree, want);
}

#[test]
fn plain_targets(rt: HostRuntime) {
    let b = &Build { alloc: rt.alloc() };
    let bound = BindingIdent {
        span: DUMMY_SP,
        id: name(&rt, b),
    };
    assign(
        &rt,
        b,
        AssignTarget::Ident(bound),
        "(4:2 (2:1 (1:1)) (3:1))",
    );
    let target = Invalid { span: DUMMY_SP };
    assign(&rt, b, AssignTarget::Invalid(target), "(3:2 (1) (2:1))");
}

/// A template of two texts round `(a)`.
fn template(rt: &impl Abort, b: &Build) -> Tpl
    ensures { fits_tpl (λ p. p) result }
{
    let exprs = ok(rt, vec![in b.alloc; deep(rt, b)]);
    let texts = vec![in b.alloc; text(rt, b, false), text(rt, b, true)];
    Tpl {
        span: DUMMY_SP,
        exprs,
        quasis: ok(rt, texts),
    }
}

/// A text of a template.
fn text(rt: &impl Abort, b: &Build, tail: bool) -> TplElement {
    TplElement {
        span: DUMMY_SP,
        tail,
        raw: atom(rt, b),
        cooked: None,
    }
}

#[test]
fn templates(rt: HostRuntime) {
    let b = &Build { alloc: rt.alloc() };
    let Tpl { exprs, quasis, .. } = template(&rt, b);
    let want = "(5:3 (3:1) (2:2 (1:1)) (4:1))";
    expr(&rt, b, b.tpl(exprs, quasis), want);
    let tpl = ok(&rt, Box::new(b.alloc, template(&rt, b)));
    let want = "(7:4 (1:1) (6 (4:1) (3:2 (2:1)) (5:1)))";
    expr(&rt, b, b.tagged_tpl(var(&rt, b), tpl), want);
}
