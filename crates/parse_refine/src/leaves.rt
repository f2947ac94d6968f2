//! What holds no other item: the target of an assignment, and questions about expressions.
ghost use Rattle.std.specs.Prelude.{◌≡◌, ◌==◌, false, true, reverse, IfOk, Ok, ℕ, List, Bool, if◌then◌else◌};
ghost use Rattle.base_token.specs.Kinds.{assign_kind};
ghost use Rattle.base_token.specs.OperatorKinds.{assign_op_kind};
ghost use Rattle.tree_nodes.specs.Fits.{fits_assign_expr, fits_assign_target, fits_expr_kind};
ghost use Rattle.tree_nodes.specs.Placed.{holds_expr, holds_pat, inner};
ghost use Rattle.tree_nodes.specs.View.{view_assign_expr, view_assign_target, view_expr_kind, view_rest_pat};
ghost use Rattle.tree_spec.specs.Tree.{rest_pat};
ghost use Rattle.base_token.specs.declared.place.Span.{Span};
ghost use Rattle.grammar_spec.specs.Tokens.Input.{dots_at};
ghost use Rattle.grammar_spec.specs.Tokens.Shape as shape;
ghost use Rattle.grammar_spec.specs.Reader.Source.{unfit};
ghost use Rattle.grammar_spec.specs.Reader.Cover.{has, rest_of, to_item};
ghost use Rattle.parse_state.specs.Answers.{Gives};
ghost use Rattle.parse_refine.specs.Items.{default_of, is_cover, is_leaf};

use crate::bindings::{array_binds, object_binds};
use crate::made;
use base_token::{AssignOp, BytePos, Span};
use parse_state::Failure;
use std::alloc::Global;
use tree_nodes::{AssignExpr, AssignTarget, ExprBox, ExprKind, PartKind, PatBox, PatKind, RestPat};

/// Whether a comma follows the last spread of the literal that starts here.
#[tactic(auto, using(crate::proofs::Commas::has_reversed))]
pub fn is_noted(commas: &[u32], start: BytePos) -> bool
    ensures { result ≡ has start.0 (reverse commas.now) }
{
    commas.contains(&start.0)
}

/// Whether an operator is `=`.
pub fn is_assign(op: AssignOp) -> bool
    ensures { result ≡ (assign_op_kind op == assign_kind) }
{
    matches!(op, AssignOp::Assign)
}

/// Whether a child may be a pattern, by its kind. What is no expression is none.
pub fn is_cover(expr: &ExprBox) -> bool
    ensures some { result ≡ true → is_cover (inner expr.now.part.value) ≡ true }
    ensures holds { result ≡ true → holds_expr expr.now.part.value }
    ensures none { result ≡ false → (binds : Bool) (commas : List ℕ)
        → to_item binds commas (inner expr.now.part.value) ≡ unfit }
{
    match &expr.part.sort {
        PartKind::Expr(x) => match &x.kind {
            ExprKind::Ident(_) | ExprKind::Array(_) | ExprKind::Object(_) => true,
            ExprKind::Assign(_) | ExprKind::Paren(_) => true,
            ExprKind::Member(_) | ExprKind::SuperProp(_) => true,
            _ => false,
        },
        PartKind::Stmt(x) => {
            // For the proof: the read shows the kind, and by it no statement is a cover.
            let _ = &x.kind;
            false
        }
        PartKind::Pat(x) => {
            // For the proof: the read shows the kind, and by it no pattern is a cover.
            let _ = &x.kind;
            false
        }
    }
}

/// Whether an expression is a name or a member, or one in parentheses.
pub fn is_simple(expr: &ExprBox) -> bool
    requires { holds_expr expr.now.part.value }
    ensures { result ≡ shape.is_simple (inner expr.now.part.value) }
{
    let mut at = expr.get();
    'parens: while let ExprKind::Paren(x) = &at.kind {
        at = x.expr.get();
    }
    matches!(
        &at.kind,
        ExprKind::Ident(_) | ExprKind::Member(_) | ExprKind::SuperProp(_)
    )
}

/// Whether a pattern is an array or an object.
pub fn is_structured(pat: &PatBox) -> bool
    requires { holds_pat pat.now.part.value }
    ensures { result ≡ shape.is_structured (inner pat.now.part.value) }
{
    matches!(&pat.get().kind, PatKind::Array(_) | PatKind::Object(_))
}

/// Whether a pattern has an initialiser.
fn has_default(pat: &PatBox) -> bool
    requires { holds_pat pat.now.part.value }
    ensures { (span : Span) → rest_of span (inner pat.now.part.value)
        ≡ (if result then unfit else Ok
        (rest_pat span (dots_at span.lo.0) (inner pat.now.part.value))) }
{
    matches!(&pat.get().kind, PatKind::Assign(_))
}

/// What stands behind dots, as a rest.
#[inline(never)]
pub fn rest(span: Span, pat: PatBox) -> Result<RestPat, Failure>
    requires { holds_pat pat.part.value }
    ensures value { Gives (view_rest_pat inner) 0 result (rest_of span (inner pat.part.value)) }
    ensures holds { IfOk result (λ x. holds_pat x.arg.part.value) }
{
    if has_default(&pat) {
        return Err(made::refused(span));
    }
    let dot3_token = made::dots(span.lo);
    Ok(RestPat {
        span,
        dot3_token,
        arg: pat,
    })
}

/// What an assignment with `=` assigns to, as a pattern, which a chain is not.
#[tactic(auto, unfolding(crate::specs::Items::default_of))]
pub fn default_target(alloc: Global, binds: bool, target: AssignTarget) -> Result<PatBox, Failure>
    requires { fits_assign_target (λ p. p) target }
    ensures value { Gives (λ x. inner x.part.value) 0 result (default_of binds (view_assign_target inner target)) }
    ensures holds { IfOk result (λ x. holds_pat x.part.value) }
{
    match target {
        AssignTarget::Ident(x) => made::pat(alloc, PatKind::Ident(x)),
        AssignTarget::Array(x) => {
            if binds && !array_binds(&x) {
                return Err(made::refused(x.span));
            }
            made::pat(alloc, PatKind::Array(x))
        }
        AssignTarget::Object(x) => {
            if binds && !object_binds(&x) {
                return Err(made::refused(x.span));
            }
            made::pat(alloc, PatKind::Object(x))
        }
        AssignTarget::Member(x) => {
            if binds {
                return Err(made::refused(x.span));
            }
            made::target(alloc, ExprKind::Member(Box::into_inner(x)))
        }
        AssignTarget::SuperProp(x) => {
            if binds {
                return Err(made::refused(x.span));
            }
            made::target(alloc, ExprKind::SuperProp(Box::into_inner(x)))
        }
        AssignTarget::Paren(x) => {
            if binds {
                return Err(made::refused(x.span));
            }
            made::target(alloc, ExprKind::Paren(x))
        }
        AssignTarget::OptChain(x) => Err(made::refused(x.span)),
        AssignTarget::Invalid(x) => Err(made::refused(x.span)),
    }
}

/// A pattern with an initialiser, or what else was assigned.
#[inline(never)]
#[tactic(auto, using(crate::proofs::Defaults::initialised_is))]
pub fn default(alloc: Global, binds: bool, node: AssignExpr) -> Result<PatBox, Failure>
    requires { fits_assign_expr (λ p. p) node }
    ensures value { (commas : List ℕ) → Gives
        (λ x. inner x.part.value) 0 result (to_item binds commas (view_assign_expr inner node)) }
    ensures holds { IfOk result (λ x. holds_pat x.part.value) }
{
    if !is_assign(node.op) {
        return Err(made::refused(node.span));
    }
    let left = default_target(alloc, binds, node.left)?;
    made::assign_pat(alloc, node.span, left, node.right)
}

/// What is no array and no object, as a pattern.
#[inline(never)]
pub fn leaf(alloc: Global, binds: bool, kind: ExprKind) -> Result<PatBox, Failure>
    requires fits { fits_expr_kind (λ p. p) kind }
    requires leaf { is_leaf (view_expr_kind inner kind) ≡ true }
    ensures value { (commas : List ℕ) → Gives
        (λ x. inner x.part.value) 0 result (to_item binds commas (view_expr_kind inner kind)) }
    ensures holds { IfOk result (λ x. holds_pat x.part.value) }
{
    match kind {
        ExprKind::Ident(x) => made::pat(alloc, PatKind::Ident(made::name(x))),
        ExprKind::Assign(x) => default(alloc, binds, x),
        ExprKind::Member(x) => {
            if binds {
                return Err(made::refused(x.span));
            }
            made::target(alloc, ExprKind::Member(x))
        }
        ExprKind::SuperProp(x) => {
            if binds {
                return Err(made::refused(x.span));
            }
            made::target(alloc, ExprKind::SuperProp(x))
        }
        ExprKind::Paren(x) => {
            if binds || !is_simple(&x.expr) {
                return Err(made::refused(x.span));
            }
            made::target(alloc, ExprKind::Paren(x))
        }
        _ => unreachable!(),
    }
}
