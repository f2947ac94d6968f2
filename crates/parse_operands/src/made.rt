//! Makers of expressions. Each stands in a function of its own, so that rules keep small frames.
ghost use Rattle.std.specs.Prelude.{◌≡◌, false, true, All, IfErr, IfOk};
ghost use Rattle.grammar_spec.specs.Tokens.Shape as shape;
ghost use Rattle.tree_nodes.specs.Fits.{fits_expr_kind, fits_assign_target, fits_expr_or_spread, fits_held};
ghost use Rattle.tree_nodes.specs.Fits.{fits_member_prop, fits_prop_or_spread, fits_super_prop, fits_tpl};
ghost use Rattle.tree_nodes.specs.Placed.{inner};
ghost use Rattle.tree_nodes.specs.View.{meta_prop_kind_word, unary_op_word, update_op_word, view_assign_target, view_expr_kind, view_expr_or_spread};
ghost use Rattle.tree_nodes.specs.View.{view_member_prop, view_prop_or_spread, view_private_name, view_super_prop, view_tpl};
ghost use Rattle.base_token.specs.OperatorKinds.{assign_op_kind, binary_op_kind};
ghost use Rattle.tree_nodes.specs.Tree.{absent, array_lit, assign_expr, await_expr, bin_expr, bool_lit, call_expr, cond_expr};
ghost use Rattle.tree_nodes.specs.Tree.{element_by, ident, import, list, member_expr, meta_prop_expr, new_expr, null_lit};
ghost use Rattle.tree_nodes.specs.Tree.{object_lit, opt_call, opt_chain_expr, paren_expr, super, super_prop_expr, tagged_tpl};
ghost use Rattle.tree_nodes.specs.Tree.{this_expr, trees_by, unary_expr, update_expr, yield_expr};
ghost use Rattle.parse_state.specs.Answers.{IsMemory};
ghost use Rattle.parse_operands.specs.Operands.{call_tree, on_chain, tree_of};

use crate::operand::Operand;
use base_token::{AssignOp, Atom, BinaryOp, Span};
use parse_state::operators::{
    ASSIGNMENT, BIT_OR, CALL, CLOSED_END, COALESCE, CONDITIONAL, MEMBER, NEW_LEVEL, OTHER_END,
    POSTFIX_END, PRIMARY, UNARY, UPDATE_LEVEL, binary_level,
};
use parse_state::{Failure, kinds};
use std::alloc::Global;
use tree_nodes::{
    ArrayLit, AssignExpr, AssignTarget, AwaitExpr, BinExpr, Bool, CallExpr, Callee, CondExpr, Expr,
    ExprBox, ExprKind, ExprOrSpread, Ident, Import, Lit, MemberExpr, MemberProp, MetaPropExpr,
    MetaPropKind, NewExpr, Null, ObjectLit, OptCall, OptChainBase, OptChainExpr, ParenExpr,
    PrivateName, PropOrSpread, Super, SuperProp, SuperPropExpr, TaggedTpl, ThisExpr, Tpl,
    UnaryExpr, UnaryOp, UpdateExpr, UpdateOp, YieldExpr,
};

/// An expression of any kind, of a level and an end that it has.
pub fn operand(alloc: Global, kind: ExprKind, level: u8, end: u8) -> Result<Operand, Failure>
    requires fits { fits_expr_kind (λ p. p) kind }
    requires level { level ≡ shape.level (view_expr_kind inner kind) }
    requires end { end ≡ shape.ends (view_expr_kind inner kind) }
    ensures value { IfOk result (λ o. tree_of o ≡ view_expr_kind inner kind) }
    ensures full { IfErr result IsMemory }
{
    let expr = ExprBox::new(alloc, Expr { kind })?;
    Ok(Operand { expr, level, end })
}

/// `this`.
#[inline(never)]
pub fn this_expr(alloc: Global, span: Span) -> Result<Operand, Failure>
    ensures value { IfOk result (λ o. tree_of o ≡ this_expr span) }
    ensures full { IfErr result IsMemory }
{
    operand(alloc, ExprKind::This(ThisExpr { span }), PRIMARY, OTHER_END)
}

/// A name.
#[inline(never)]
pub fn name(alloc: Global, span: Span, sym: Atom) -> Result<Operand, Failure>
    ensures value { IfOk result (λ o. tree_of o ≡ ident span sym) }
    ensures full { IfErr result IsMemory }
{
    operand(
        alloc,
        ExprKind::Ident(Ident { span, sym }),
        PRIMARY,
        OTHER_END,
    )
}

/// `test ? cons : alt`.
#[inline(never)]
pub fn cond_expr(
    alloc: Global,
    span: Span,
    test: Operand,
    cons: Operand,
    alt: Operand,
) -> Result<Operand, Failure>
    ensures value { IfOk result (λ o. tree_of o ≡ cond_expr span (tree_of test) (tree_of cons) (tree_of alt)) }
    ensures full { IfErr result IsMemory }
{
    let end = alt.end;
    let node = CondExpr {
        span,
        test: test.expr,
        cons: cons.expr,
        alt: alt.expr,
    };
    operand(alloc, ExprKind::Cond(node), CONDITIONAL, end)
}

/// An operator between two operands.
#[inline(never)]
pub fn bin_expr(
    alloc: Global,
    span: Span,
    op: BinaryOp,
    kind: u8,
    left: Operand,
    right: Operand,
) -> Result<Operand, Failure>
    requires { kind ≡ binary_op_kind op }
    ensures value { IfOk result (λ o. tree_of o ≡ bin_expr span kind (tree_of left) (tree_of right)) }
    ensures full { IfErr result IsMemory }
{
    let end = right.end;
    let node = BinExpr {
        span,
        op,
        left: left.expr,
        right: right.expr,
    };
    operand(alloc, ExprKind::Bin(node), binary_level(kind), end)
}

/// An operator before its operand.
#[inline(never)]
pub fn unary_expr(alloc: Global, span: Span, op: UnaryOp, arg: Operand) -> Result<Operand, Failure>
    ensures value { IfOk result (λ o. tree_of o ≡ unary_expr span (unary_op_word op) (tree_of arg)) }
    ensures full { IfErr result IsMemory }
{
    let end = arg.end;
    let node = UnaryExpr {
        span,
        op,
        arg: arg.expr,
    };
    operand(alloc, ExprKind::Unary(node), UNARY, end)
}

/// `++` or `--` before its operand.
#[inline(never)]
pub fn prefix_expr(
    alloc: Global,
    span: Span,
    op: UpdateOp,
    arg: Operand,
) -> Result<Operand, Failure>
    ensures value { IfOk result (λ o. tree_of o ≡ update_expr span (update_op_word op) true (tree_of arg)) }
    ensures full { IfErr result IsMemory }
{
    let end = arg.end;
    let node = UpdateExpr {
        span,
        op,
        prefix: true,
        arg: arg.expr,
    };
    operand(alloc, ExprKind::Update(node), UPDATE_LEVEL, end)
}

/// `++` or `--` after its operand.
#[inline(never)]
pub fn postfix_expr(
    alloc: Global,
    span: Span,
    op: UpdateOp,
    arg: Operand,
) -> Result<Operand, Failure>
    ensures value { IfOk result (λ o. tree_of o ≡ update_expr span (update_op_word op) false (tree_of arg)) }
    ensures full { IfErr result IsMemory }
{
    let node = UpdateExpr {
        span,
        op,
        prefix: false,
        arg: arg.expr,
    };
    operand(alloc, ExprKind::Update(node), UPDATE_LEVEL, POSTFIX_END)
}

/// `await` with its operand.
#[inline(never)]
pub fn await_expr(alloc: Global, span: Span, arg: Operand) -> Result<Operand, Failure>
    ensures value { IfOk result (λ o. tree_of o ≡ await_expr span (tree_of arg)) }
    ensures full { IfErr result IsMemory }
{
    let end = arg.end;
    let node = AwaitExpr {
        span,
        arg: arg.expr,
    };
    operand(alloc, ExprKind::Await(node), UNARY, end)
}

/// Whether an expression is left out, which none is.
fn is_absent(operand: &Operand) -> bool
    ensures { result ≡ shape.is_absent (tree_of operand.now) }
{
    // For the proof: the match shows the kind, and by it no expression is left out.
    match &operand.expr.get().kind {
        ExprKind::Seq(_) => false,
        _ => false,
    }
}

/// `yield` with an operand.
#[inline(never)]
pub fn yield_expr(
    alloc: Global,
    span: Span,
    arg: Operand,
    delegate: bool,
) -> Result<Operand, Failure>
    ensures value { IfOk result (λ o. tree_of o ≡ yield_expr span (tree_of arg) delegate) }
    ensures full { IfErr result IsMemory }
{
    let end = if is_absent(&arg) { CLOSED_END } else { arg.end };
    let node = YieldExpr {
        span,
        arg: Some(arg.expr),
        delegate,
    };
    operand(alloc, ExprKind::Yield(node), ASSIGNMENT, end)
}

/// An expression in parentheses.
#[inline(never)]
pub fn paren_expr(alloc: Global, span: Span, expr: Operand) -> Result<Operand, Failure>
    ensures value { IfOk result (λ o. tree_of o ≡ paren_expr span (tree_of expr)) }
    ensures full { IfErr result IsMemory }
{
    let node = ParenExpr {
        span,
        expr: expr.expr,
    };
    operand(alloc, ExprKind::Paren(node), PRIMARY, OTHER_END)
}

/// A member by a name or in brackets.
#[inline(never)]
pub fn member_expr(
    alloc: Global,
    span: Span,
    obj: Operand,
    prop: MemberProp,
) -> Result<Operand, Failure>
    requires { fits_member_prop (λ p. p) prop }
    ensures value { IfOk result (λ o. tree_of o ≡ member_expr span (tree_of obj) (view_member_prop inner prop)) }
    ensures full { IfErr result IsMemory }
{
    let level = if obj.level < MEMBER {
        obj.level
    } else {
        MEMBER
    };
    let node = MemberExpr {
        span,
        obj: obj.expr,
        prop,
    };
    operand(alloc, ExprKind::Member(node), level, OTHER_END)
}

/// A member that goes on a chain, or starts one.
#[inline(never)]
pub fn chain_member(
    alloc: Global,
    span: Span,
    optional: bool,
    obj: Operand,
    prop: MemberProp,
) -> Result<Operand, Failure>
    requires { fits_member_prop (λ p. p) prop }
    ensures value { IfOk result (λ o. tree_of o
        ≡ opt_chain_expr span optional
        (member_expr span (tree_of obj) (view_member_prop inner prop))) }
    ensures full { IfErr result IsMemory }
{
    let node = OptChainExpr {
        span,
        optional,
        base: OptChainBase::Member(MemberExpr {
            span,
            obj: obj.expr,
            prop,
        }),
    };
    operand(alloc, ExprKind::OptChain(node), CALL, OTHER_END)
}

/// A call.
#[inline(never)]
pub fn call_expr(
    alloc: Global,
    span: Span,
    callee: Operand,
    args: Vec<ExprOrSpread>,
) -> Result<Operand, Failure>
    requires { All (λ x. fits_expr_or_spread (λ p. p) x) args.items }
    ensures value { IfOk result (λ o. tree_of o
        ≡ call_expr span (tree_of callee) (trees_by (view_expr_or_spread inner) args.items)) }
    ensures full { IfErr result IsMemory }
{
    let node = CallExpr {
        span,
        callee: Callee::Expr(callee.expr),
        args,
    };
    operand(alloc, ExprKind::Call(node), CALL, OTHER_END)
}

/// A call that goes on a chain, or starts one.
#[inline(never)]
pub fn chain_call(
    alloc: Global,
    span: Span,
    optional: bool,
    callee: Operand,
    args: Vec<ExprOrSpread>,
) -> Result<Operand, Failure>
    requires { All (λ x. fits_expr_or_spread (λ p. p) x) args.items }
    ensures value { IfOk result (λ o. tree_of o
        ≡ opt_chain_expr span optional
        (opt_call span (tree_of callee) (trees_by (view_expr_or_spread inner) args.items))) }
    ensures full { IfErr result IsMemory }
{
    let node = OptChainExpr {
        span,
        optional,
        base: OptChainBase::Call(OptCall {
            span,
            callee: callee.expr,
            args,
        }),
    };
    operand(alloc, ExprKind::OptChain(node), CALL, OTHER_END)
}

/// `new` with arguments.
#[inline(never)]
pub fn new_expr(
    alloc: Global,
    span: Span,
    callee: Operand,
    args: Vec<ExprOrSpread>,
) -> Result<Operand, Failure>
    requires { All (λ x. fits_expr_or_spread (λ p. p) x) args.items }
    ensures value { IfOk result (λ o. tree_of o
        ≡ new_expr span (tree_of callee) (list (trees_by (view_expr_or_spread inner) args.items))) }
    ensures full { IfErr result IsMemory }
{
    let node = NewExpr {
        span,
        callee: callee.expr,
        args: Some(args),
    };
    operand(alloc, ExprKind::New(node), MEMBER, OTHER_END)
}

/// `new` without arguments.
#[inline(never)]
pub fn bare_new(alloc: Global, span: Span, callee: Operand) -> Result<Operand, Failure>
    ensures value { IfOk result (λ o. tree_of o ≡ new_expr span (tree_of callee) absent) }
    ensures full { IfErr result IsMemory }
{
    let node = NewExpr {
        span,
        callee: callee.expr,
        args: None,
    };
    operand(alloc, ExprKind::New(node), NEW_LEVEL, OTHER_END)
}

/// An array.
#[inline(never)]
pub fn array_lit(
    alloc: Global,
    span: Span,
    elems: Vec<Option<ExprOrSpread>>,
) -> Result<Operand, Failure>
    requires { All (λ x. fits_held (λ x. fits_expr_or_spread (λ p. p) x) x) elems.items }
    ensures value { IfOk result (λ o. tree_of o
        ≡ array_lit span (trees_by (λ x. element_by (view_expr_or_spread inner) x) elems.items)) }
    ensures full { IfErr result IsMemory }
{
    let node = ArrayLit { span, elems };
    operand(alloc, ExprKind::Array(node), PRIMARY, OTHER_END)
}

/// An object.
#[inline(never)]
pub fn object_lit(alloc: Global, span: Span, props: Vec<PropOrSpread>) -> Result<Operand, Failure>
    requires { All (λ x. fits_prop_or_spread (λ p. p) x) props.items }
    ensures value { IfOk result (λ o. tree_of o ≡ object_lit span (trees_by (view_prop_or_spread inner) props.items)) }
    ensures full { IfErr result IsMemory }
{
    let node = ObjectLit { span, props };
    operand(alloc, ExprKind::Object(node), PRIMARY, OTHER_END)
}

/// `yield` alone.
#[inline(never)]
pub fn bare_yield(alloc: Global, span: Span) -> Result<Operand, Failure>
    ensures value { IfOk result (λ o. tree_of o ≡ yield_expr span absent false) }
    ensures full { IfErr result IsMemory }
{
    let node = YieldExpr {
        span,
        arg: None,
        delegate: false,
    };
    operand(alloc, ExprKind::Yield(node), ASSIGNMENT, CLOSED_END)
}

/// `null`.
#[inline(never)]
pub fn null_lit(alloc: Global, span: Span) -> Result<Operand, Failure>
    ensures value { IfOk result (λ o. tree_of o ≡ null_lit span) }
    ensures full { IfErr result IsMemory }
{
    operand(
        alloc,
        ExprKind::Lit(Lit::Null(Null { span })),
        PRIMARY,
        OTHER_END,
    )
}

/// `true` or `false`.
#[inline(never)]
pub fn bool_lit(alloc: Global, span: Span, value: bool) -> Result<Operand, Failure>
    ensures value { IfOk result (λ o. tree_of o ≡ bool_lit span value) }
    ensures full { IfErr result IsMemory }
{
    operand(
        alloc,
        ExprKind::Lit(Lit::Bool(Bool { span, value })),
        PRIMARY,
        OTHER_END,
    )
}

/// `new.target` or `import.meta`.
#[inline(never)]
pub fn meta_prop_expr(alloc: Global, span: Span, kind: MetaPropKind) -> Result<Operand, Failure>
    ensures value { IfOk result (λ o. tree_of o ≡ meta_prop_expr span (meta_prop_kind_word kind)) }
    ensures full { IfErr result IsMemory }
{
    operand(
        alloc,
        ExprKind::MetaProp(MetaPropExpr { span, kind }),
        MEMBER,
        OTHER_END,
    )
}

/// `super` with a member.
#[inline(never)]
pub fn super_prop_expr(
    alloc: Global,
    span: Span,
    place: Span,
    prop: SuperProp,
) -> Result<Operand, Failure>
    requires { fits_super_prop (λ p. p) prop }
    ensures value { IfOk result (λ o. tree_of o ≡ super_prop_expr span (super place) (view_super_prop inner prop)) }
    ensures full { IfErr result IsMemory }
{
    let node = SuperPropExpr {
        span,
        obj: Super { span: place },
        prop,
    };
    operand(alloc, ExprKind::SuperProp(node), MEMBER, OTHER_END)
}

/// A call of `super`.
#[inline(never)]
pub fn super_call(
    alloc: Global,
    span: Span,
    place: Span,
    args: Vec<ExprOrSpread>,
) -> Result<Operand, Failure>
    requires { All (λ x. fits_expr_or_spread (λ p. p) x) args.items }
    ensures value { IfOk result (λ o. tree_of o
        ≡ call_expr span (super place) (trees_by (view_expr_or_spread inner) args.items)) }
    ensures full { IfErr result IsMemory }
{
    let node = CallExpr {
        span,
        callee: Callee::Super(Super { span: place }),
        args,
    };
    operand(alloc, ExprKind::Call(node), CALL, OTHER_END)
}

/// A call of `import`.
#[inline(never)]
pub fn import_call(
    alloc: Global,
    span: Span,
    place: Span,
    args: Vec<ExprOrSpread>,
) -> Result<Operand, Failure>
    requires { All (λ x. fits_expr_or_spread (λ p. p) x) args.items }
    ensures value { IfOk result (λ o. tree_of o
        ≡ call_expr span (import place) (trees_by (view_expr_or_spread inner) args.items)) }
    ensures full { IfErr result IsMemory }
{
    let node = CallExpr {
        span,
        callee: Callee::Import(Import { span: place }),
        args,
    };
    operand(alloc, ExprKind::Call(node), CALL, OTHER_END)
}

/// Whether an expression is a chain.
pub fn is_chain(operand: &Operand) -> bool
    ensures { result ≡ shape.is_chain (tree_of operand.now) }
{
    matches!(&operand.expr.get().kind, ExprKind::OptChain(_))
}

/// A member, which goes on its object's chain where that is one.
pub fn member_of(
    alloc: Global,
    span: Span,
    obj: Operand,
    prop: MemberProp,
) -> Result<Operand, Failure>
    requires { fits_member_prop (λ p. p) prop }
    ensures value { IfOk result (λ o. tree_of o
        ≡ on_chain (shape.is_chain (tree_of obj)) span
        (member_expr span (tree_of obj) (view_member_prop inner prop))) }
    ensures full { IfErr result IsMemory }
{
    if is_chain(&obj) {
        chain_member(alloc, span, false, obj, prop)
    } else {
        member_expr(alloc, span, obj, prop)
    }
}

/// A call, which goes on its callee's chain where that is one.
pub fn call_of(
    alloc: Global,
    span: Span,
    callee: Operand,
    args: Vec<ExprOrSpread>,
) -> Result<Operand, Failure>
    requires { All (λ x. fits_expr_or_spread (λ p. p) x) args.items }
    ensures value { IfOk result (λ o. tree_of o
        ≡ call_tree span (tree_of callee) (trees_by (view_expr_or_spread inner) args.items)) }
    ensures full { IfErr result IsMemory }
{
    if is_chain(&callee) {
        chain_call(alloc, span, false, callee, args)
    } else {
        call_expr(alloc, span, callee, args)
    }
}

/// An assignment.
#[inline(never)]
pub fn assign_expr(
    alloc: Global,
    span: Span,
    op: AssignOp,
    left: AssignTarget,
    right: Operand,
) -> Result<Operand, Failure>
    requires { fits_assign_target (λ p. p) left }
    ensures value { IfOk result (λ o. tree_of o
        ≡ assign_expr span (assign_op_kind op) (view_assign_target inner left) (tree_of right)) }
    ensures full { IfErr result IsMemory }
{
    let end = right.end;
    let node = AssignExpr {
        span,
        op,
        left,
        right: right.expr,
    };
    operand(alloc, ExprKind::Assign(node), ASSIGNMENT, end)
}

/// A template behind its tag.
#[inline(never)]
pub fn tagged_tpl(
    alloc: Global,
    span: Span,
    tag: Operand,
    tpl: Box<Tpl>,
) -> Result<Operand, Failure>
    requires { fits_tpl (λ p. p) tpl.value }
    ensures value { IfOk result (λ o. tree_of o ≡ tagged_tpl span (tree_of tag) (view_tpl inner tpl.value)) }
    ensures full { IfErr result IsMemory }
{
    let level = if tag.level < MEMBER {
        tag.level
    } else {
        MEMBER
    };
    let node = TaggedTpl {
        span,
        tag: tag.expr,
        tpl,
    };
    operand(alloc, ExprKind::TaggedTpl(node), level, OTHER_END)
}

/// Whether an expression is a private name.
fn is_private(operand: &Operand) -> bool
    ensures { result ≡ shape.is_private (tree_of operand.now) }
{
    matches!(&operand.expr.get().kind, ExprKind::PrivateName(_))
}

/// Whether an operand may stand on the left of a binary operator.
pub fn fits_left(kind: u8, left: &Operand) -> bool
    ensures { result ≡ shape.fits_left kind (tree_of left.now) }
{
    if is_private(left) {
        return kind == kinds::IN;
    }
    if kind == kinds::EXP {
        UPDATE_LEVEL <= left.level
    } else if kind == kinds::NULLISH_COALESCING {
        left.level == COALESCE || BIT_OR <= left.level
    } else {
        binary_level(kind) <= left.level
    }
}

/// A private name in the place of an operand, as before `in`.
#[inline(never)]
pub fn private_operand(alloc: Global, name: PrivateName) -> Result<Operand, Failure>
    ensures value { IfOk result (λ o. tree_of o ≡ view_private_name name) }
    ensures full { IfErr result IsMemory }
{
    operand(alloc, ExprKind::PrivateName(name), 0, OTHER_END)
}
