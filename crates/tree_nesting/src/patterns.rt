// Written by tools/tree/nesting.py from tools/tree/tree.table. Don't edit this file.
//! How deep patterns (ECMA-262, 13.15.5 and 14.3.3) go.
ghost use Rattle.tree_nodes.specs.View.{view_pat_kind, view_binding_ident, view_array_pat, view_rest_pat, view_object_pat, view_assign_pat, view_object_pat_prop, view_key_value_pat_prop, view_assign_pat_prop, view_assign_target};

use crate::counts::{Held, Nesting, above, deepest_element};
use tree_nodes::{
    ArrayPatOf, AssignPatOf, AssignPatPropOf, AssignTargetOf, BindingIdent, KeyValuePatPropOf,
    ObjectPatOf, ObjectPatPropOf, PatKindOf, RestPatOf,
};

impl<T: Held> Nesting for PatKindOf<T> {
    ghost tree = { view_pat_kind T.tree };

    fn nesting(&self) -> u32 {
        match self {
            PatKindOf::Ident(x) => x.nesting(),
            PatKindOf::Array(x) => x.nesting(),
            PatKindOf::Rest(x) => x.nesting(),
            PatKindOf::Object(x) => x.nesting(),
            PatKindOf::Assign(x) => x.nesting(),
            PatKindOf::Expr(x) => x.nesting(),
            PatKindOf::Invalid(x) => x.nesting(),
        }
    }
}

impl Nesting for BindingIdent {
    ghost tree = { view_binding_ident };

    fn nesting(&self) -> u32 {
        1
    }
}

impl<T: Held> Nesting for ArrayPatOf<T> {
    ghost tree = { view_array_pat T.tree };

    fn nesting(&self) -> u32 {
        above(deepest_element(self.elems.as_slice()))
    }
}

impl<T: Held> Nesting for RestPatOf<T> {
    ghost tree = { view_rest_pat T.tree };

    fn nesting(&self) -> u32 {
        above(self.arg.nesting())
    }
}

impl<T: Held> Nesting for ObjectPatOf<T> {
    ghost tree = { view_object_pat T.tree };

    fn nesting(&self) -> u32 {
        above(self.props.nesting())
    }
}

impl<T: Held> Nesting for AssignPatOf<T> {
    ghost tree = { view_assign_pat T.tree };

    fn nesting(&self) -> u32 {
        above(self.left.nesting().max(self.right.nesting()))
    }
}

impl<T: Held> Nesting for ObjectPatPropOf<T> {
    ghost tree = { view_object_pat_prop T.tree };

    fn nesting(&self) -> u32 {
        match self {
            ObjectPatPropOf::KeyValue(x) => x.nesting(),
            ObjectPatPropOf::Assign(x) => x.nesting(),
            ObjectPatPropOf::Rest(x) => x.nesting(),
        }
    }
}

impl<T: Held> Nesting for KeyValuePatPropOf<T> {
    ghost tree = { view_key_value_pat_prop T.tree };

    fn nesting(&self) -> u32 {
        above(self.key.nesting().max(self.value.nesting()))
    }
}

impl<T: Held> Nesting for AssignPatPropOf<T> {
    ghost tree = { view_assign_pat_prop T.tree };

    fn nesting(&self) -> u32 {
        above(self.key.nesting().max(self.value.nesting()))
    }
}

impl<T: Held> Nesting for AssignTargetOf<T> {
    ghost tree = { view_assign_target T.tree };

    fn nesting(&self) -> u32 {
        match self {
            AssignTargetOf::Ident(x) => x.nesting(),
            AssignTargetOf::Member(x) => x.nesting(),
            AssignTargetOf::SuperProp(x) => x.nesting(),
            AssignTargetOf::Paren(x) => x.nesting(),
            AssignTargetOf::OptChain(x) => x.nesting(),
            AssignTargetOf::Array(x) => x.nesting(),
            AssignTargetOf::Object(x) => x.nesting(),
            AssignTargetOf::Invalid(x) => x.nesting(),
        }
    }
}
