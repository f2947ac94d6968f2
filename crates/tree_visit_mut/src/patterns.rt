// Written by tools/tree/visit_mut.py from tools/tree/tree.table. Don't edit this file.
//! Changes patterns (ECMA-262, 13.15.5 and 14.3.3).
ghost use Rattle.tree_nodes.specs.Fits.{fits_pat_kind, fits_array_pat, fits_rest_pat, fits_object_pat, fits_object_pat_prop, fits_assign_target};

use crate::walk::{Change, WalkMut, walk_all, walk_elements, walk_expr_at, walk_value_at};
use tree_nodes::{
    ArrayPatOf, AssignTargetOf, BindingIdent, ObjectPatOf, ObjectPatPropOf, PatKindOf, RestPatOf,
};

impl<T, C: Change<T>> WalkMut<T, C> for PatKindOf<T> {
    ghost fits = { λ x. fits_pat_kind C.placed x };

    fn walk_mut(&mut self, by: &mut C) {
        match self {
            PatKindOf::Ident(x) => x.walk_mut(by),
            PatKindOf::Array(x) => x.walk_mut(by),
            PatKindOf::Rest(x) => x.walk_mut(by),
            PatKindOf::Object(x) => x.walk_mut(by),
            PatKindOf::Assign(x) => {
                x.left.walk_mut(by);
                walk_expr_at(&mut x.right, &mut x.span, by);
            }
            PatKindOf::Expr(x) => x.walk_mut(by),
            PatKindOf::Invalid(x) => by.span(&mut x.span),
        }
    }
}

impl<T, C: Change<T>> WalkMut<T, C> for BindingIdent {
    ghost fits = { λ _. Unit {0} };

    fn walk_mut(&mut self, by: &mut C) {
        self.id.walk_mut(by);
        by.span(&mut self.span);
    }
}

impl<T, C: Change<T>> WalkMut<T, C> for ArrayPatOf<T> {
    ghost fits = { λ x. fits_array_pat C.placed x };

    fn walk_mut(&mut self, by: &mut C) {
        walk_elements(&mut self.elems, by);
        by.span(&mut self.span);
    }
}

impl<T, C: Change<T>> WalkMut<T, C> for RestPatOf<T> {
    ghost fits = { λ x. fits_rest_pat C.placed x };

    fn walk_mut(&mut self, by: &mut C) {
        self.arg.walk_mut(by);
        by.span(&mut self.span);
        by.span(&mut self.dot3_token);
    }
}

impl<T, C: Change<T>> WalkMut<T, C> for ObjectPatOf<T> {
    ghost fits = { λ x. fits_object_pat C.placed x };

    fn walk_mut(&mut self, by: &mut C) {
        walk_all(&mut self.props, by);
        by.span(&mut self.span);
    }
}

impl<T, C: Change<T>> WalkMut<T, C> for ObjectPatPropOf<T> {
    ghost fits = { λ x. fits_object_pat_prop C.placed x };

    fn walk_mut(&mut self, by: &mut C) {
        match self {
            ObjectPatPropOf::KeyValue(x) => {
                x.key.walk_mut(by);
                x.value.walk_mut(by);
                by.span(&mut x.span);
            }
            ObjectPatPropOf::Assign(x) => {
                x.key.walk_mut(by);
                walk_value_at(&mut x.value, &mut x.span, by);
            }
            ObjectPatPropOf::Rest(x) => x.walk_mut(by),
        }
    }
}

impl<T, C: Change<T>> WalkMut<T, C> for AssignTargetOf<T> {
    ghost fits = { λ x. fits_assign_target C.placed x };

    fn walk_mut(&mut self, by: &mut C) {
        match self {
            AssignTargetOf::Ident(x) => x.walk_mut(by),
            AssignTargetOf::Member(x) => x.walk_mut(by),
            AssignTargetOf::SuperProp(x) => x.walk_mut(by),
            AssignTargetOf::Paren(x) => walk_expr_at(&mut x.expr, &mut x.span, by),
            AssignTargetOf::OptChain(x) => x.walk_mut(by),
            AssignTargetOf::Array(x) => x.walk_mut(by),
            AssignTargetOf::Object(x) => x.walk_mut(by),
            AssignTargetOf::Invalid(x) => by.span(&mut x.span),
        }
    }
}
