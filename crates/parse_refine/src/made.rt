//! Makers of patterns, and what refuses one.
ghost use Rattle.std.specs.Prelude.{◌≡◌, IfErr, IfOk};
ghost use Rattle.tree_nodes.specs.Fits.{fits_expr_kind, fits_pat_kind};
ghost use Rattle.tree_nodes.specs.Placed.{holds_expr, holds_pat, inner};
ghost use Rattle.tree_nodes.specs.View.{view_expr_kind, view_pat_kind};
ghost use Rattle.tree_spec.specs.Tree.{assign_pat, expr_pat};
ghost use Rattle.grammar_spec.specs.Tokens.Input.{dots_at};
ghost use Rattle.parse_state.specs.Answers.{IsMemory, IsSyntax};

use base_token::{BytePos, Error, Span, SyntaxError};
use parse_state::Failure;
use std::alloc::Global;
use tree_nodes::{AssignPat, BindingIdent, Expr, ExprBox, ExprKind, Ident, Pat, PatBox, PatKind};

/// What is said of an expression that is no pattern, at its place.
pub fn refused(span: Span) -> Failure
    ensures { IsSyntax result }
{
    Failure::Syntax(Error {
        span,
        kind: SyntaxError::Unexpected,
    })
}

/// What is said of an expression that an operator cannot assign to, at its place.
pub fn no_target(span: Span) -> Failure
    ensures { IsSyntax result }
{
    Failure::Syntax(Error {
        span,
        kind: SyntaxError::NotSimpleAssign,
    })
}

/// The place of the dots that start here. It ends at the greatest place where no dots fit, as in no text.
pub fn dots(start: BytePos) -> Span
    ensures { result ≡ dots_at start.0 }
{
    Span {
        lo: start,
        hi: BytePos(start.0.saturating_add(3)),
    }
}

/// A pattern in its box.
#[inline(never)]
pub fn pat(alloc: Global, kind: PatKind) -> Result<PatBox, Failure>
    requires { fits_pat_kind (λ p. p) kind }
    ensures value { IfOk result (λ x. inner x.part.value ≡ view_pat_kind inner kind) }
    ensures holds { IfOk result (λ x. holds_pat x.part.value) }
    ensures full { IfErr result IsMemory }
{
    Ok(PatBox::new(alloc, Pat { kind })?)
}

/// A name that is bound or assigned to.
pub fn name(id: Ident) -> BindingIdent
    ensures { (result.span ≡ id.span) × (result.id ≡ id) }
{
    BindingIdent { span: id.span, id }
}

/// An expression as what is assigned to.
#[inline(never)]
pub fn target(alloc: Global, kind: ExprKind) -> Result<PatBox, Failure>
    requires { fits_expr_kind (λ p. p) kind }
    ensures value { IfOk result (λ x. inner x.part.value ≡ expr_pat (view_expr_kind inner kind)) }
    ensures holds { IfOk result (λ x. holds_pat x.part.value) }
    ensures full { IfErr result IsMemory }
{
    let expr = ExprBox::new(alloc, Expr { kind })?;
    pat(alloc, PatKind::Expr(expr))
}

/// A pattern with an initialiser.
#[inline(never)]
pub fn assign_pat(
    alloc: Global,
    span: Span,
    left: PatBox,
    right: ExprBox,
) -> Result<PatBox, Failure>
    requires left { holds_pat left.part.value }
    requires right { holds_expr right.part.value }
    ensures value { IfOk result (λ x. inner x.part.value
        ≡ assign_pat span (inner left.part.value) (inner right.part.value)) }
    ensures holds { IfOk result (λ x. holds_pat x.part.value) }
    ensures full { IfErr result IsMemory }
{
    pat(alloc, PatKind::Assign(AssignPat { span, left, right }))
}
