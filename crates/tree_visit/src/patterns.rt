// Written by tools/tree/visit.py from tools/tree/tree.table. Don't edit this file.
//! Goes over patterns (ECMA-262, 13.15.5 and 14.3.3).
ghost use Rattle.tree_nodes.specs.View.{view_pat_kind, view_binding_ident, view_array_pat, view_rest_pat, view_object_pat, view_object_pat_prop, view_key_value_pat_prop, view_assign_pat_prop, view_assign_target};

use crate::kinds::Kind;
use crate::lists::{walk_all, walk_elements, walk_part, walk_two};
use crate::told::{enter_part, leave_part, tell_leaf, tell_list, tell_one, tell_two};
use crate::watch::{Inside, Node, Walk, Watch};
use tree_nodes::{
    ArrayPatOf, AssignPatPropOf, AssignTargetOf, BindingIdent, KeyValuePatPropOf, ObjectPatOf,
    ObjectPatPropOf, PatKindOf, RestPatOf,
};

impl<T: Walk> Inside for PatKindOf<T> {
    ghost tree = { view_pat_kind T.tree };

    fn inside<V: Watch>(&self, visitor: &mut V) {
        match self {
            PatKindOf::Ident(x) => x.id.walk(visitor),
            PatKindOf::Array(x) => walk_elements(x.elems.as_slice(), visitor),
            PatKindOf::Rest(x) => x.arg.walk(visitor),
            PatKindOf::Object(x) => walk_all(x.props.as_slice(), visitor),
            PatKindOf::Assign(x) => walk_two(&x.left, &x.right, visitor),
            PatKindOf::Expr(x) => x.walk(visitor),
            PatKindOf::Invalid(_) => {}
        }
    }
}

impl Walk for BindingIdent {
    ghost tree = { view_binding_ident };

    fn walk<V: Watch>(&self, visitor: &mut V) {
        visitor.enter(Node::BindingIdent(self));
        self.id.walk(visitor);
        visitor.leave(Node::BindingIdent(self));
    }
}

impl<T: Walk> Walk for ArrayPatOf<T> {
    ghost tree = { view_array_pat T.tree };

    fn walk<V: Watch>(&self, visitor: &mut V) {
        enter_part(Kind::ArrayPat, self.span, visitor);
        walk_elements(self.elems.as_slice(), visitor);
        leave_part(Kind::ArrayPat, self.span, visitor);
    }
}

impl<T: Walk> Walk for RestPatOf<T> {
    ghost tree = { view_rest_pat T.tree };

    fn walk<V: Watch>(&self, visitor: &mut V) {
        tell_one(Kind::RestPat, self.span, &self.arg, visitor);
    }
}

impl<T: Walk> Walk for ObjectPatOf<T> {
    ghost tree = { view_object_pat T.tree };

    fn walk<V: Watch>(&self, visitor: &mut V) {
        tell_list(Kind::ObjectPat, self.span, self.props.as_slice(), visitor);
    }
}

impl<T: Walk> Walk for ObjectPatPropOf<T> {
    ghost tree = { view_object_pat_prop T.tree };

    fn walk<V: Watch>(&self, visitor: &mut V) {
        match self {
            ObjectPatPropOf::KeyValue(x) => x.walk(visitor),
            ObjectPatPropOf::Assign(x) => x.walk(visitor),
            ObjectPatPropOf::Rest(x) => x.walk(visitor),
        }
    }
}

impl<T: Walk> Walk for KeyValuePatPropOf<T> {
    ghost tree = { view_key_value_pat_prop T.tree };

    fn walk<V: Watch>(&self, visitor: &mut V) {
        tell_two(
            Kind::KeyValuePatProp,
            self.span,
            &self.key,
            &self.value,
            visitor,
        );
    }
}

impl<T: Walk> Walk for AssignPatPropOf<T> {
    ghost tree = { view_assign_pat_prop T.tree };

    fn walk<V: Watch>(&self, visitor: &mut V) {
        enter_part(Kind::AssignPatProp, self.span, visitor);
        self.key.walk(visitor);
        walk_part(&self.value, visitor);
        leave_part(Kind::AssignPatProp, self.span, visitor);
    }
}

impl<T: Walk> Walk for AssignTargetOf<T> {
    ghost tree = { view_assign_target T.tree };

    fn walk<V: Watch>(&self, visitor: &mut V) {
        match self {
            AssignTargetOf::Ident(x) => x.walk(visitor),
            AssignTargetOf::Member(x) => x.walk(visitor),
            AssignTargetOf::SuperProp(x) => x.walk(visitor),
            AssignTargetOf::Paren(x) => x.walk(visitor),
            AssignTargetOf::OptChain(x) => x.walk(visitor),
            AssignTargetOf::Array(x) => x.walk(visitor),
            AssignTargetOf::Object(x) => x.walk(visitor),
            AssignTargetOf::Invalid(x) => tell_leaf(Kind::InvalidTarget, x.span, visitor),
        }
    }
}
