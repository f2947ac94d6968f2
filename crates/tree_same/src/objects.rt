// Written by tools/tree/same.py from tools/tree/tree.table. Don't edit this file.
//! Whether properties of objects (ECMA-262, 13.2.5) say the same.
ghost use Rattle.tree_nodes.specs.View.{view_prop_or_spread, view_prop, view_key_value_prop, view_assign_prop, view_getter_prop, view_setter_prop, view_method_prop};

use crate::keys::same_key;
use crate::parts::{Held, Same};
use tree_nodes::{
    AssignPropOf, GetterPropOf, KeyValuePropOf, MethodPropOf, PropOf, PropOrSpreadOf, SetterPropOf,
};

impl<T: Held> Same for PropOrSpreadOf<T> {
    ghost tree = { view_prop_or_spread T.tree };

    #[tactic(auto, using(crate::proofs::Apart::prop_or_spread_apart))]
    fn same(&self, other: &PropOrSpreadOf<T>) -> bool {
        match (self, other) {
            (PropOrSpreadOf::Spread(x), PropOrSpreadOf::Spread(y)) => x.same(y),
            (PropOrSpreadOf::Prop(x), PropOrSpreadOf::Prop(y)) => x.same(y),
            _ => false,
        }
    }
}

impl<T: Held> Same for PropOf<T> {
    ghost tree = { view_prop T.tree };

    #[tactic(auto, using(crate::proofs::Apart::prop_apart))]
    fn same(&self, other: &PropOf<T>) -> bool {
        match (self, other) {
            (PropOf::Shorthand(x), PropOf::Shorthand(y)) => x.same(y),
            (PropOf::KeyValue(x), PropOf::KeyValue(y)) => x.same(y),
            (PropOf::Assign(x), PropOf::Assign(y)) => x.same(y),
            (PropOf::Getter(x), PropOf::Getter(y)) => x.same(y),
            (PropOf::Setter(x), PropOf::Setter(y)) => x.same(y),
            (PropOf::Method(x), PropOf::Method(y)) => x.same(y),
            _ => false,
        }
    }
}

impl<T: Held> Same for KeyValuePropOf<T> {
    ghost tree = { view_key_value_prop T.tree };

    #[tactic(auto, using(crate::proofs::Rules::key_value_prop_rule))]
    fn same(&self, other: &KeyValuePropOf<T>) -> bool {
        same_key(&self.key, &other.key) && self.value.same(&other.value)
    }
}

impl<T: Held> Same for AssignPropOf<T> {
    ghost tree = { view_assign_prop T.tree };

    #[tactic(auto, using(crate::proofs::Rules::assign_prop_rule))]
    fn same(&self, other: &AssignPropOf<T>) -> bool {
        self.key.same(&other.key) && self.value.same(&other.value)
    }
}

impl<T: Held> Same for GetterPropOf<T> {
    ghost tree = { view_getter_prop T.tree };

    #[tactic(auto, using(crate::proofs::Rules::getter_prop_rule))]
    fn same(&self, other: &GetterPropOf<T>) -> bool {
        same_key(&self.key, &other.key) && self.body.same(&other.body)
    }
}

impl<T: Held> Same for SetterPropOf<T> {
    ghost tree = { view_setter_prop T.tree };

    #[tactic(auto, using(crate::proofs::Rules::setter_prop_rule))]
    fn same(&self, other: &SetterPropOf<T>) -> bool {
        same_key(&self.key, &other.key)
            && self.param.same(&other.param)
            && self.body.same(&other.body)
    }
}

impl<T: Held> Same for MethodPropOf<T> {
    ghost tree = { view_method_prop T.tree };

    #[tactic(auto, using(crate::proofs::Rules::method_prop_rule))]
    fn same(&self, other: &MethodPropOf<T>) -> bool {
        same_key(&self.key, &other.key) && self.function.same(&other.function)
    }
}
