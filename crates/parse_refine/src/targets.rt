//! The target of an assignment, which was read as an expression.
ghost use Rattle.std.specs.Prelude.{◌≡◌, false, true, reverse, IfOk, ℕ, List};
ghost use Rattle.tree_nodes.specs.Fits.{fits_assign_target};
ghost use Rattle.tree_nodes.specs.Placed.{holds_expr, inner};
ghost use Rattle.tree_nodes.specs.View.{view_assign_target};
ghost use Rattle.grammar_spec.specs.Reader.Source.{unfit};
ghost use Rattle.grammar_spec.specs.Reader.Cover.{to_target};
ghost use Rattle.parse_state.specs.Answers.{Gives};
ghost use Rattle.parse_refine.specs.Items.{may_be_target};

use crate::items::{array, object};
use crate::leaves::is_simple;
use crate::made;
use base_token::Spanned;
use parse_state::{Failure, kinds};
use std::alloc::Global;
use tree_nodes::{AssignTarget, ExprBox, ExprKind};

/// Whether an operator of this kind may assign to an expression.
pub fn is_target(kind: u8, expr: &ExprBox) -> bool
    requires { holds_expr expr.now.part.value }
    ensures some { result ≡ true → may_be_target kind (inner expr.now.part.value) ≡ true }
    ensures none { result ≡ false → (commas : List ℕ) → to_target kind commas (inner expr.now.part.value) ≡ unfit }
{
    match &expr.get().kind {
        ExprKind::Ident(_) | ExprKind::Member(_) | ExprKind::SuperProp(_) => true,
        ExprKind::Array(_) | ExprKind::Object(_) => kind == kinds::ASSIGN,
        ExprKind::Paren(x) => is_simple(&x.expr),
        _ => false,
    }
}

/// The target of an assignment by an operator of this kind.
pub fn target(
    alloc: Global,
    commas: &[u32],
    kind: u8,
    left: ExprBox,
) -> Result<AssignTarget, Failure>
    requires { holds_expr left.part.value }
    ensures value { Gives (λ x. view_assign_target inner x) 0 result
        (to_target kind (reverse commas.now) (inner left.part.value)) }
    ensures fits { IfOk result (λ x. fits_assign_target (λ p. p) x) }
{
    if !is_target(kind, &left) {
        return Err(made::no_target(left.span()));
    }
    match left.into_inner().kind {
        ExprKind::Ident(x) => Ok(AssignTarget::Ident(made::name(x))),
        ExprKind::Member(x) => Ok(AssignTarget::Member(Box::new(alloc, x)?)),
        ExprKind::SuperProp(x) => Ok(AssignTarget::SuperProp(Box::new(alloc, x)?)),
        ExprKind::Paren(x) => Ok(AssignTarget::Paren(x)),
        ExprKind::Array(x) => Ok(AssignTarget::Array(array(alloc, false, commas, x)?)),
        ExprKind::Object(x) => Ok(AssignTarget::Object(object(alloc, false, commas, x)?)),
        _ => unreachable!(),
    }
}
