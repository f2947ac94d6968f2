// Written by tools/tree/goal.py from tools/tree/tree.table. Don't edit this file.
//! What tells of a module in patterns (ECMA-262, 13.15.5 and 14.3.3).
ghost use Rattle.tree_nodes.specs.View.{view_pat_kind, view_array_pat, view_rest_pat, view_object_pat, view_assign_pat, view_object_pat_prop, view_key_value_pat_prop, view_assign_pat_prop, view_assign_target};

use crate::parts::{Tells, any_element};
use tree_nodes::{
    ArrayPatOf, AssignPatOf, AssignPatPropOf, AssignTargetOf, KeyValuePatPropOf, ObjectPatOf,
    ObjectPatPropOf, PatKindOf, RestPatOf,
};

impl<T: Tells> Tells for PatKindOf<T> {
    ghost tree = { view_pat_kind T.tree };

    fn tells(&self) -> bool {
        match self {
            PatKindOf::Array(x) => x.tells(),
            PatKindOf::Rest(x) => x.tells(),
            PatKindOf::Object(x) => x.tells(),
            PatKindOf::Assign(x) => x.tells(),
            PatKindOf::Expr(x) => x.tells(),
            PatKindOf::Ident(_) | PatKindOf::Invalid(_) => false,
        }
    }
}

impl<T: Tells> Tells for ArrayPatOf<T> {
    ghost tree = { view_array_pat T.tree };

    fn tells(&self) -> bool {
        any_element(self.elems.as_slice())
    }
}

impl<T: Tells> Tells for RestPatOf<T> {
    ghost tree = { view_rest_pat T.tree };

    fn tells(&self) -> bool {
        self.arg.tells()
    }
}

impl<T: Tells> Tells for ObjectPatOf<T> {
    ghost tree = { view_object_pat T.tree };

    fn tells(&self) -> bool {
        self.props.tells()
    }
}

impl<T: Tells> Tells for AssignPatOf<T> {
    ghost tree = { view_assign_pat T.tree };

    fn tells(&self) -> bool {
        self.left.tells() || self.right.tells()
    }
}

impl<T: Tells> Tells for ObjectPatPropOf<T> {
    ghost tree = { view_object_pat_prop T.tree };

    fn tells(&self) -> bool {
        match self {
            ObjectPatPropOf::KeyValue(x) => x.tells(),
            ObjectPatPropOf::Assign(x) => x.tells(),
            ObjectPatPropOf::Rest(x) => x.tells(),
        }
    }
}

impl<T: Tells> Tells for KeyValuePatPropOf<T> {
    ghost tree = { view_key_value_pat_prop T.tree };

    fn tells(&self) -> bool {
        self.key.tells() || self.value.tells()
    }
}

impl<T: Tells> Tells for AssignPatPropOf<T> {
    ghost tree = { view_assign_pat_prop T.tree };

    fn tells(&self) -> bool {
        self.value.tells()
    }
}

impl<T: Tells> Tells for AssignTargetOf<T> {
    ghost tree = { view_assign_target T.tree };

    fn tells(&self) -> bool {
        match self {
            AssignTargetOf::Member(x) => x.tells(),
            AssignTargetOf::SuperProp(x) => x.tells(),
            AssignTargetOf::Paren(x) => x.tells(),
            AssignTargetOf::OptChain(x) => x.tells(),
            AssignTargetOf::Array(x) => x.tells(),
            AssignTargetOf::Object(x) => x.tells(),
            AssignTargetOf::Ident(_) | AssignTargetOf::Invalid(_) => false,
        }
    }
}
