// Written by tools/tree/nesting.py from tools/tree/tree.table. Don't edit this file.
//! How deep properties of objects (ECMA-262, 13.2.5) go.
ghost use Rattle.tree_nodes.specs.View.{view_prop_or_spread, view_prop, view_key_value_prop, view_assign_prop, view_getter_prop, view_setter_prop, view_method_prop};

use crate::counts::{Held, Nesting, above};
use tree_nodes::{
    AssignPropOf, GetterPropOf, KeyValuePropOf, MethodPropOf, PropOf, PropOrSpreadOf, SetterPropOf,
};

impl<T: Held> Nesting for PropOrSpreadOf<T> {
    ghost tree = { view_prop_or_spread T.tree };

    fn nesting(&self) -> u32 {
        match self {
            PropOrSpreadOf::Spread(x) => x.nesting(),
            PropOrSpreadOf::Prop(x) => x.nesting(),
        }
    }
}

impl<T: Held> Nesting for PropOf<T> {
    ghost tree = { view_prop T.tree };

    fn nesting(&self) -> u32 {
        match self {
            PropOf::Shorthand(x) => x.nesting(),
            PropOf::KeyValue(x) => x.nesting(),
            PropOf::Assign(x) => x.nesting(),
            PropOf::Getter(x) => x.nesting(),
            PropOf::Setter(x) => x.nesting(),
            PropOf::Method(x) => x.nesting(),
        }
    }
}

impl<T: Held> Nesting for KeyValuePropOf<T> {
    ghost tree = { view_key_value_prop T.tree };

    fn nesting(&self) -> u32 {
        above(self.key.nesting().max(self.value.nesting()))
    }
}

impl<T: Held> Nesting for AssignPropOf<T> {
    ghost tree = { view_assign_prop T.tree };

    fn nesting(&self) -> u32 {
        above(self.key.nesting().max(self.value.nesting()))
    }
}

impl<T: Held> Nesting for GetterPropOf<T> {
    ghost tree = { view_getter_prop T.tree };

    fn nesting(&self) -> u32 {
        above(self.key.nesting().max(self.body.nesting()))
    }
}

impl<T: Held> Nesting for SetterPropOf<T> {
    ghost tree = { view_setter_prop T.tree };

    fn nesting(&self) -> u32 {
        let key = self.key.nesting();
        let param = self.param.nesting();
        let body = self.body.nesting();
        above(key.max(param).max(body))
    }
}

impl<T: Held> Nesting for MethodPropOf<T> {
    ghost tree = { view_method_prop T.tree };

    fn nesting(&self) -> u32 {
        above(self.key.nesting().max(self.function.nesting()))
    }
}
