// Written by tools/tree/visit.py from tools/tree/tree.table. Don't edit this file.
//! Goes over properties of objects (ECMA-262, 13.2.5).
ghost use Rattle.tree_nodes.specs.View.{view_prop_or_spread, view_prop, view_key_value_prop, view_assign_prop, view_getter_prop, view_setter_prop, view_method_prop};

use crate::kinds::Kind;
use crate::lists::walk_three;
use crate::told::{enter_part, leave_part, tell_two};
use crate::watch::{Walk, Watch};
use tree_nodes::{
    AssignPropOf, GetterPropOf, KeyValuePropOf, MethodPropOf, PropOf, PropOrSpreadOf, SetterPropOf,
};

impl<T: Walk> Walk for PropOrSpreadOf<T> {
    ghost tree = { view_prop_or_spread T.tree };

    fn walk<V: Watch>(&self, visitor: &mut V) {
        match self {
            PropOrSpreadOf::Spread(x) => x.walk(visitor),
            PropOrSpreadOf::Prop(x) => x.walk(visitor),
        }
    }
}

impl<T: Walk> Walk for PropOf<T> {
    ghost tree = { view_prop T.tree };

    fn walk<V: Watch>(&self, visitor: &mut V) {
        match self {
            PropOf::Shorthand(x) => x.walk(visitor),
            PropOf::KeyValue(x) => x.walk(visitor),
            PropOf::Assign(x) => x.walk(visitor),
            PropOf::Getter(x) => x.walk(visitor),
            PropOf::Setter(x) => x.walk(visitor),
            PropOf::Method(x) => x.walk(visitor),
        }
    }
}

impl<T: Walk> Walk for KeyValuePropOf<T> {
    ghost tree = { view_key_value_prop T.tree };

    fn walk<V: Watch>(&self, visitor: &mut V) {
        tell_two(
            Kind::KeyValueProp,
            self.span,
            &self.key,
            &self.value,
            visitor,
        );
    }
}

impl<T: Walk> Walk for AssignPropOf<T> {
    ghost tree = { view_assign_prop T.tree };

    fn walk<V: Watch>(&self, visitor: &mut V) {
        tell_two(Kind::AssignProp, self.span, &self.key, &self.value, visitor);
    }
}

impl<T: Walk> Walk for GetterPropOf<T> {
    ghost tree = { view_getter_prop T.tree };

    fn walk<V: Watch>(&self, visitor: &mut V) {
        tell_two(Kind::GetterProp, self.span, &self.key, &self.body, visitor);
    }
}

impl<T: Walk> Walk for SetterPropOf<T> {
    ghost tree = { view_setter_prop T.tree };

    fn walk<V: Watch>(&self, visitor: &mut V) {
        enter_part(Kind::SetterProp, self.span, visitor);
        walk_three(&self.key, &self.param, &self.body, visitor);
        leave_part(Kind::SetterProp, self.span, visitor);
    }
}

impl<T: Walk> Walk for MethodPropOf<T> {
    ghost tree = { view_method_prop T.tree };

    fn walk<V: Watch>(&self, visitor: &mut V) {
        tell_two(
            Kind::MethodProp,
            self.span,
            &self.key,
            &*self.function,
            visitor,
        );
    }
}
