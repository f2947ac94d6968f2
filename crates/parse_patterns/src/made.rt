//! Makers of patterns. Each stands in a function of its own, so that rules keep small frames.
ghost use Rattle.std.specs.Prelude.{◌≡◌, All, IfErr, IfOk};
ghost use Rattle.tree_nodes.specs.Fits.{fits_held, fits_object_pat_prop, fits_pat_kind, fits_rest_pat};
ghost use Rattle.tree_nodes.specs.Placed.{holds_pat, inner};
ghost use Rattle.tree_nodes.specs.View.{view_object_pat_prop, view_pat_kind, view_rest_pat};
ghost use Rattle.tree_spec.specs.Tree.{array_pat, assign_pat, binding_ident, element_by, ident, object_pat, trees_by};
ghost use Rattle.parse_state.specs.Answers.{IsMemory};
ghost use Rattle.parse_operands.specs.Operands.{tree_of};

use base_token::{Atom, Span};
use parse_operands::Operand;
use parse_state::Failure;
use std::alloc::Global;
use tree_nodes::{
    ArrayPat, AssignPat, BindingIdent, Ident, ObjectPat, ObjectPatProp, Pat, PatBox, PatKind,
    RestPat,
};

/// A pattern of any kind.
pub fn pat(alloc: Global, kind: PatKind) -> Result<PatBox, Failure>
    requires { fits_pat_kind (λ p. p) kind }
    ensures value { IfOk result (λ x. inner x.part.value ≡ view_pat_kind inner kind) }
    ensures holds { IfOk result (λ x. holds_pat x.part.value) }
    ensures full { IfErr result IsMemory }
{
    Ok(PatBox::new(alloc, Pat { kind })?)
}

/// A name that is bound.
#[inline(never)]
pub fn name(alloc: Global, span: Span, sym: Atom) -> Result<PatBox, Failure>
    ensures value { IfOk result (λ x. inner x.part.value ≡ binding_ident span (ident span sym)) }
    ensures holds { IfOk result (λ x. holds_pat x.part.value) }
    ensures full { IfErr result IsMemory }
{
    pat(
        alloc,
        PatKind::Ident(BindingIdent {
            span,
            id: Ident { span, sym },
        }),
    )
}

/// `[a, , b]`.
#[inline(never)]
pub fn array_pat(alloc: Global, span: Span, elems: Vec<Option<PatBox>>) -> Result<PatBox, Failure>
    requires { All (λ x. fits_held (λ y. holds_pat y.part.value) x) elems.items }
    ensures value { IfOk result (λ x. inner x.part.value
        ≡ array_pat span (trees_by (λ x. element_by (λ y. inner y.part.value) x) elems.items)) }
    ensures holds { IfOk result (λ x. holds_pat x.part.value) }
    ensures full { IfErr result IsMemory }
{
    pat(alloc, PatKind::Array(ArrayPat { span, elems }))
}

/// `{ a, b: c }`.
#[inline(never)]
pub fn object_pat(alloc: Global, span: Span, props: Vec<ObjectPatProp>) -> Result<PatBox, Failure>
    requires { All (λ x. fits_object_pat_prop (λ p. p) x) props.items }
    ensures value { IfOk result (λ x. inner x.part.value
        ≡ object_pat span (trees_by (view_object_pat_prop inner) props.items)) }
    ensures holds { IfOk result (λ x. holds_pat x.part.value) }
    ensures full { IfErr result IsMemory }
{
    pat(alloc, PatKind::Object(ObjectPat { span, props }))
}

/// A pattern with its initialiser.
#[inline(never)]
pub fn assign_pat(
    alloc: Global,
    span: Span,
    left: PatBox,
    right: Operand,
) -> Result<PatBox, Failure>
    requires { holds_pat left.part.value }
    ensures value { IfOk result (λ x. inner x.part.value ≡ assign_pat span (inner left.part.value) (tree_of right)) }
    ensures holds { IfOk result (λ x. holds_pat x.part.value) }
    ensures full { IfErr result IsMemory }
{
    pat(
        alloc,
        PatKind::Assign(AssignPat {
            span,
            left,
            right: right.expr,
        }),
    )
}

/// A rest, as an item of an array.
#[inline(never)]
pub fn rest_pat(alloc: Global, rest: RestPat) -> Result<PatBox, Failure>
    requires { fits_rest_pat (λ p. p) rest }
    ensures value { IfOk result (λ x. inner x.part.value ≡ view_rest_pat inner rest) }
    ensures holds { IfOk result (λ x. holds_pat x.part.value) }
    ensures full { IfErr result IsMemory }
{
    pat(alloc, PatKind::Rest(rest))
}
