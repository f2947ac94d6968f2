// Written by tools/tree/goal.py from tools/tree/tree.table. Don't edit this file.
//! What tells of a module in properties of objects (ECMA-262, 13.2.5).
ghost use Rattle.tree_nodes.specs.View.{view_prop_or_spread, view_prop, view_key_value_prop, view_assign_prop, view_getter_prop, view_setter_prop, view_method_prop};

use crate::parts::Tells;
use tree_nodes::{
    AssignPropOf, GetterPropOf, KeyValuePropOf, MethodPropOf, PropOf, PropOrSpreadOf, SetterPropOf,
};

impl<T: Tells> Tells for PropOrSpreadOf<T> {
    ghost tree = { view_prop_or_spread T.tree };

    fn tells(&self) -> bool {
        match self {
            PropOrSpreadOf::Spread(x) => x.tells(),
            PropOrSpreadOf::Prop(x) => x.tells(),
        }
    }
}

impl<T: Tells> Tells for PropOf<T> {
    ghost tree = { view_prop T.tree };

    fn tells(&self) -> bool {
        match self {
            PropOf::KeyValue(x) => x.tells(),
            PropOf::Assign(x) => x.tells(),
            PropOf::Getter(x) => x.tells(),
            PropOf::Setter(x) => x.tells(),
            PropOf::Method(x) => x.tells(),
            PropOf::Shorthand(_) => false,
        }
    }
}

impl<T: Tells> Tells for KeyValuePropOf<T> {
    ghost tree = { view_key_value_prop T.tree };

    fn tells(&self) -> bool {
        self.key.tells() || self.value.tells()
    }
}

impl<T: Tells> Tells for AssignPropOf<T> {
    ghost tree = { view_assign_prop T.tree };

    fn tells(&self) -> bool {
        self.value.tells()
    }
}

impl<T: Tells> Tells for GetterPropOf<T> {
    ghost tree = { view_getter_prop T.tree };

    fn tells(&self) -> bool {
        self.key.tells() || self.body.tells()
    }
}

impl<T: Tells> Tells for SetterPropOf<T> {
    ghost tree = { view_setter_prop T.tree };

    fn tells(&self) -> bool {
        self.key.tells() || self.param.tells() || self.body.tells()
    }
}

impl<T: Tells> Tells for MethodPropOf<T> {
    ghost tree = { view_method_prop T.tree };

    fn tells(&self) -> bool {
        self.key.tells()
    }
}
