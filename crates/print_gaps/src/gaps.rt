//! Where two operators would run together without a blank between them.
ghost use Rattle.std.specs.Prelude.{◌≡◌, ◌<◌, false, MatchOption};
ghost use Rattle.base_token.specs.OperatorKinds.{binary_op_kind};
ghost use Rattle.tree_nodes.specs.Fits.{fits_assign_target, fits_opt_chain_expr, fits_seq_expr};
ghost use Rattle.tree_nodes.specs.Placed.{inner};
ghost use Rattle.tree_nodes.specs.View.{unary_op_word, view_assign_target, view_opt_chain_expr, view_seq_expr};
ghost use Rattle.print_gaps.specs.Edges as edges;
ghost use Rattle.tree_nodes.specs.Codes.{tree_size};

use crate::ends::EndsWithAlphaNum;
use crate::starts::StartsWithAlphaNum;
use base_token::BinaryOp;
use tree_nodes::{
    AssignTarget, AssignTargetOf, CalleeOf, Expr, ExprKind, Lit, OptChainBaseOf, OptChainExpr,
    SeqExpr, UnaryOp, UpdateOp,
};

/// Whether a blank has to stand between a left operand and its operator. It takes no memory.
pub fn gap_before(op: BinaryOp, left: &Expr) -> bool
    ensures { result ≡ edges.gap_before (binary_op_kind op) left.now }
{
    match op {
        BinaryOp::In | BinaryOp::InstanceOf => left.ends_with_alpha_num(),
        BinaryOp::Gt | BinaryOp::RShift | BinaryOp::ZeroFillRShift | BinaryOp::GtEq => {
            is_postfix_decrement(left)
        }
        _ => false,
    }
}

/// Whether a blank has to stand between an operator and its right operand. It takes no memory.
pub fn gap_after(op: BinaryOp, right: &Expr) -> bool
    ensures { result ≡ edges.gap_after (binary_op_kind op) right.now }
{
    match op {
        BinaryOp::In | BinaryOp::InstanceOf => right.starts_with_alpha_num(),
        BinaryOp::Add => is_plus(first_operand(right)),
        BinaryOp::Sub => is_minus(first_operand(right)),
        BinaryOp::Lt | BinaryOp::LShift => is_not_of_decrement(first_operand(right)),
        BinaryOp::Div => starts_with_regexp(right),
        _ => false,
    }
}

/// Whether a blank has to stand between an operator and its one operand. It takes no memory.
pub fn gap_of_unary(op: UnaryOp, arg: &Expr) -> bool
    ensures { result ≡ edges.gap_of_unary (unary_op_word op) arg.now }
{
    match op {
        UnaryOp::TypeOf | UnaryOp::Void | UnaryOp::Delete => arg.starts_with_alpha_num(),
        UnaryOp::Plus => is_plus(arg),
        UnaryOp::Minus => is_minus(arg),
        UnaryOp::Bang | UnaryOp::Tilde => false,
    }
}

/// What stands first in a right operand, whose own left operands come before.
fn first_operand(expr: &Expr) -> &Expr
    ensures { result.now ≡ edges.first_operand expr.now }
{
    let mut first = expr;
    while let ExprKind::Bin(bin) = &first.kind {
        first = bin.left.get();
    }
    first
}

/// Whether it is `+` or `++` with its operand.
fn is_plus(expr: &Expr) -> bool
    ensures { result ≡ edges.is_plus expr.now }
{
    match &expr.kind {
        ExprKind::Unary(x) => matches!(x.op, UnaryOp::Plus),
        ExprKind::Update(x) => x.prefix && matches!(x.op, UpdateOp::PlusPlus),
        _ => false,
    }
}

/// Whether it is `-` or `--` with its operand.
fn is_minus(expr: &Expr) -> bool
    ensures { result ≡ edges.is_minus expr.now }
{
    match &expr.kind {
        ExprKind::Unary(x) => matches!(x.op, UnaryOp::Minus),
        ExprKind::Update(x) => x.prefix && matches!(x.op, UpdateOp::MinusMinus),
        _ => false,
    }
}

/// Whether it is `--` with its operand.
fn is_decrement(expr: &Expr) -> bool
    ensures { result ≡ edges.is_decrement expr.now }
{
    match &expr.kind {
        ExprKind::Update(x) => matches!(x.op, UpdateOp::MinusMinus),
        _ => false,
    }
}

/// Whether it is `--` with its operand before it.
fn is_postfix_decrement(expr: &Expr) -> bool
    ensures { result ≡ edges.is_postfix_decrement expr.now }
{
    match &expr.kind {
        ExprKind::Update(x) => !x.prefix && matches!(x.op, UpdateOp::MinusMinus),
        _ => false,
    }
}

/// Whether it is `!` of a `--`: `!--` behind `<` opens a comment in a page.
fn is_not_of_decrement(expr: &Expr) -> bool
    ensures { result ≡ edges.is_not_of_decrement expr.now }
{
    match &expr.kind {
        ExprKind::Unary(x) => matches!(x.op, UnaryOp::Bang) && is_decrement(x.arg.get()),
        _ => false,
    }
}

/// Whether its first token is a regular expression, which behind `/` opens a comment.
fn starts_with_regexp(expr: &Expr) -> bool
    ensures { result ≡ edges.starts_with_regexp expr.now }
{
    let mut first = expr;
    while let Some(head) = head(first) {
        first = head;
    }
    matches!(&first.kind, ExprKind::Lit(Lit::Regex(_)))
}

/// The expression that a link of an optional chain goes on from.
fn chain_head(chain: &OptChainExpr) -> &Expr
    requires { fits_opt_chain_expr (λ p. p) chain.now }
    ensures same { edges.starts_with_regexp (view_opt_chain_expr inner chain.now) ≡ edges.starts_with_regexp result.now }
    ensures smaller { tree_size result.now < tree_size (view_opt_chain_expr inner chain.now) }
{
    match &chain.base {
        OptChainBaseOf::Member(x) => x.obj.get(),
        OptChainBaseOf::Call(x) => x.callee.get(),
    }
}

/// The expression that the text of a target starts with.
fn target_head(target: &AssignTarget) -> Option<&Expr>
    requires { fits_assign_target (λ p. p) target.now }
    ensures { MatchOption result (edges.starts_with_regexp (view_assign_target inner target.now) ≡ false)
        (λ x. (edges.starts_with_regexp (view_assign_target inner target.now) ≡ edges.starts_with_regexp x.now)
        × (tree_size x.now < tree_size (view_assign_target inner target.now))) }
{
    match target {
        AssignTargetOf::Member(x) => Some(x.obj.get()),
        AssignTargetOf::OptChain(x) => Some(chain_head(x)),
        _ => None,
    }
}

/// The first of the expressions with commas between them.
fn first_of(seq: &SeqExpr) -> Option<&Expr>
    requires { fits_seq_expr (λ p. p) seq.now }
    ensures { MatchOption result (edges.starts_with_regexp (view_seq_expr inner seq.now) ≡ false)
        (λ x. (edges.starts_with_regexp (view_seq_expr inner seq.now) ≡ edges.starts_with_regexp x.now)
        × (tree_size x.now < tree_size (view_seq_expr inner seq.now))) }
{
    match seq.exprs.as_slice() {
        [first, ..] => Some(first.get()),
        [] => None,
    }
}

/// The expression that the text of another starts with.
fn head(expr: &Expr) -> Option<&Expr>
    ensures { MatchOption result (edges.starts_with_regexp expr.now ≡ edges.is_regexp expr.now)
        (λ x. (edges.starts_with_regexp expr.now ≡ edges.starts_with_regexp x.now) × (tree_size x.now < tree_size expr.now)) }
{
    match &expr.kind {
        ExprKind::Bin(x) => Some(x.left.get()),
        ExprKind::Assign(x) => target_head(&x.left),
        ExprKind::Cond(x) => Some(x.test.get()),
        ExprKind::Seq(x) => first_of(x),
        ExprKind::Member(x) => Some(x.obj.get()),
        ExprKind::TaggedTpl(x) => Some(x.tag.get()),
        ExprKind::Update(x) if !x.prefix => Some(x.arg.get()),
        ExprKind::Call(x) => match &x.callee {
            CalleeOf::Expr(x) => Some(x.get()),
            _ => None,
        },
        ExprKind::OptChain(x) => Some(chain_head(x)),
        _ => None,
    }
}
