// Written by tools/tree/build.py from tools/tree/tree.table. Don't edit this file.
//! Makes patterns.
ghost use Rattle.std.specs.Prelude.{◌≡◌};
ghost use Rattle.std.specs.Prelude.{All, IfOk};
ghost use Rattle.tree_spec.specs.Places.{no_place};
ghost use Rattle.tree_nodes.specs.Placed.{holds_expr, holds_pat, in_pat, inner};
ghost use Rattle.tree_nodes.specs.Fits.{fits_held, fits_object_pat_prop};
ghost use Rattle.tree_nodes.specs.View.{view_ident, view_object_pat_prop};
ghost use Rattle.tree_spec.specs.Tree.{array_pat, assign_pat, binding_ident, element_by, invalid_pat, object_pat, rest_pat, trees_by};

use crate::Build;
use base_token::{DUMMY_SP, Span};
use std::alloc::AllocError;
use tree_nodes::{
    ArrayPat, AssignPat, BindingIdent, ExprBox, Ident, Invalid, ObjectPat, ObjectPatProp, PatBox,
    PatKind, RestPat,
};

impl Build {
    /// A name as a pattern.
    pub fn binding_ident(&self, id: Ident) -> Result<PatBox, AllocError>
        ensures { IfOk result (λ c. c.part.value ≡ in_pat (binding_ident no_place (view_ident id))) }
    {
        let node = BindingIdent { span: DUMMY_SP, id };
        self.pat(PatKind::Ident(node))
    }

    /// `[a, , ...b]` as a pattern.
    pub fn array_pat(&self, elems: Vec<Option<PatBox>>) -> Result<PatBox, AllocError>
        requires elems { All (λ x. fits_held (λ x. holds_pat (x.part.value)) x) elems.items }
        ensures { IfOk result (λ c. c.part.value ≡ in_pat (array_pat no_place (trees_by (λ x. element_by (λ x. inner x.part.value) x) elems.items))) }
    {
        let node = ArrayPat {
            span: DUMMY_SP,
            elems,
        };
        self.pat(PatKind::Array(node))
    }

    /// `...arg` in a pattern, with the place of `...`.
    pub fn rest_pat(&self, dot3_token: Span, arg: PatBox) -> Result<PatBox, AllocError>
        requires arg { holds_pat (arg.part.value) }
        ensures { IfOk result (λ c. c.part.value ≡ in_pat (rest_pat no_place dot3_token (inner arg.part.value))) }
    {
        let node = RestPat {
            span: DUMMY_SP,
            dot3_token,
            arg,
        };
        self.pat(PatKind::Rest(node))
    }

    /// `{ a, b: c, ...d }` as a pattern.
    pub fn object_pat(&self, props: Vec<ObjectPatProp>) -> Result<PatBox, AllocError>
        requires props { All (λ x. fits_object_pat_prop (λ p. p) x) props.items }
        ensures { IfOk result (λ c. c.part.value ≡ in_pat (object_pat no_place (trees_by (view_object_pat_prop inner) props.items))) }
    {
        let node = ObjectPat {
            span: DUMMY_SP,
            props,
        };
        self.pat(PatKind::Object(node))
    }

    /// `left = right` in a pattern.
    pub fn assign_pat(&self, left: PatBox, right: ExprBox) -> Result<PatBox, AllocError>
        requires left { holds_pat (left.part.value) }
        requires right { holds_expr (right.part.value) }
        ensures { IfOk result (λ c. c.part.value ≡ in_pat (assign_pat no_place (inner left.part.value) (inner right.part.value))) }
    {
        let node = AssignPat {
            span: DUMMY_SP,
            left,
            right,
        };
        self.pat(PatKind::Assign(node))
    }

    /// What stands in the place of an expression or a pattern that could not be read.
    pub fn invalid_pat(&self) -> Result<PatBox, AllocError>
        ensures { IfOk result (λ c. c.part.value ≡ in_pat (invalid_pat no_place)) }
    {
        let node = Invalid { span: DUMMY_SP };
        self.pat(PatKind::Invalid(node))
    }
}
