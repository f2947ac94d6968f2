// Written by tools/tree/same.py from tools/tree/tree.table. Don't edit this file.
//! Whether patterns (ECMA-262, 13.15.5 and 14.3.3) say the same.
ghost use Rattle.tree_nodes.specs.View.{view_pat_kind, view_binding_ident, view_array_pat, view_rest_pat, view_object_pat, view_assign_pat, view_object_pat_prop, view_key_value_pat_prop, view_assign_pat_prop, view_assign_target};

use crate::keys::same_key;
use crate::parts::{Held, Same, same_elements};
use tree_nodes::{
    ArrayPatOf, AssignPatOf, AssignPatPropOf, AssignTargetOf, BindingIdent, KeyValuePatPropOf,
    ObjectPatOf, ObjectPatPropOf, PatKindOf, RestPatOf,
};

impl<T: Held> Same for PatKindOf<T> {
    ghost tree = { view_pat_kind T.tree };

    #[tactic(auto, using(crate::proofs::Apart::pat_kind_cases))]
    fn same(&self, other: &PatKindOf<T>) -> bool {
        match (self, other) {
            (PatKindOf::Ident(x), PatKindOf::Ident(y)) => x.same(y),
            (PatKindOf::Array(x), PatKindOf::Array(y)) => x.same(y),
            (PatKindOf::Rest(x), PatKindOf::Rest(y)) => x.same(y),
            (PatKindOf::Object(x), PatKindOf::Object(y)) => x.same(y),
            (PatKindOf::Assign(x), PatKindOf::Assign(y)) => x.same(y),
            (PatKindOf::Expr(x), PatKindOf::Expr(y)) => x.same(y),
            (PatKindOf::Invalid(x), PatKindOf::Invalid(y)) => x.same(y),
            _ => false,
        }
    }
}

impl Same for BindingIdent {
    ghost tree = { view_binding_ident };

    #[tactic(auto, using(crate::proofs::Rules::binding_ident_rule))]
    fn same(&self, other: &BindingIdent) -> bool {
        self.id.same(&other.id)
    }
}

impl<T: Held> Same for ArrayPatOf<T> {
    ghost tree = { view_array_pat T.tree };

    #[tactic(auto, using(crate::proofs::Rules::array_pat_rule))]
    fn same(&self, other: &ArrayPatOf<T>) -> bool {
        same_elements(self.elems.as_slice(), other.elems.as_slice())
    }
}

impl<T: Held> Same for RestPatOf<T> {
    ghost tree = { view_rest_pat T.tree };

    #[tactic(auto, using(crate::proofs::Rules::rest_pat_rule))]
    fn same(&self, other: &RestPatOf<T>) -> bool {
        self.arg.same(&other.arg)
    }
}

impl<T: Held> Same for ObjectPatOf<T> {
    ghost tree = { view_object_pat T.tree };

    #[tactic(auto, using(crate::proofs::Rules::object_pat_rule))]
    fn same(&self, other: &ObjectPatOf<T>) -> bool {
        self.props.same(&other.props)
    }
}

impl<T: Held> Same for AssignPatOf<T> {
    ghost tree = { view_assign_pat T.tree };

    #[tactic(auto, using(crate::proofs::Rules::assign_pat_rule))]
    fn same(&self, other: &AssignPatOf<T>) -> bool {
        self.left.same(&other.left) && self.right.same(&other.right)
    }
}

impl<T: Held> Same for ObjectPatPropOf<T> {
    ghost tree = { view_object_pat_prop T.tree };

    #[tactic(auto, using(crate::proofs::Apart::object_pat_prop_apart))]
    fn same(&self, other: &ObjectPatPropOf<T>) -> bool {
        match (self, other) {
            (ObjectPatPropOf::KeyValue(x), ObjectPatPropOf::KeyValue(y)) => x.same(y),
            (ObjectPatPropOf::Assign(x), ObjectPatPropOf::Assign(y)) => x.same(y),
            (ObjectPatPropOf::Rest(x), ObjectPatPropOf::Rest(y)) => x.same(y),
            _ => false,
        }
    }
}

impl<T: Held> Same for KeyValuePatPropOf<T> {
    ghost tree = { view_key_value_pat_prop T.tree };

    #[tactic(auto, using(crate::proofs::Rules::key_value_pat_prop_rule))]
    fn same(&self, other: &KeyValuePatPropOf<T>) -> bool {
        same_key(&self.key, &other.key) && self.value.same(&other.value)
    }
}

impl<T: Held> Same for AssignPatPropOf<T> {
    ghost tree = { view_assign_pat_prop T.tree };

    #[tactic(auto, using(crate::proofs::Rules::assign_pat_prop_rule))]
    fn same(&self, other: &AssignPatPropOf<T>) -> bool {
        self.key.same(&other.key) && self.value.same(&other.value)
    }
}

impl<T: Held> Same for AssignTargetOf<T> {
    ghost tree = { view_assign_target T.tree };

    #[tactic(auto, using(crate::proofs::Apart::assign_target_cases))]
    fn same(&self, other: &AssignTargetOf<T>) -> bool {
        match (self, other) {
            (AssignTargetOf::Ident(x), AssignTargetOf::Ident(y)) => x.same(y),
            (AssignTargetOf::Member(x), AssignTargetOf::Member(y)) => x.same(y),
            (AssignTargetOf::SuperProp(x), AssignTargetOf::SuperProp(y)) => x.same(y),
            (AssignTargetOf::Paren(x), AssignTargetOf::Paren(y)) => x.same(y),
            (AssignTargetOf::OptChain(x), AssignTargetOf::OptChain(y)) => x.same(y),
            (AssignTargetOf::Array(x), AssignTargetOf::Array(y)) => x.same(y),
            (AssignTargetOf::Object(x), AssignTargetOf::Object(y)) => x.same(y),
            (AssignTargetOf::Invalid(x), AssignTargetOf::Invalid(y)) => x.same(y),
            _ => false,
        }
    }
}
