//! Properties of objects (ECMA-262, 13.2.5).
ghost use Rattle.tree_nodes.specs.View.{view_prop_or_spread, view_prop, view_key_value_prop, view_assign_prop, view_getter_prop, view_setter_prop, view_method_prop};

use crate::base::Code;
use crate::faults::bodies::own_use_strict;
use crate::faults::check::{Check, Held};
use crate::faults::modes::{Bare, mode};
use base_token::Error;
use std::alloc::AllocError;
use tree_nodes::{
    AssignPropOf, GetterPropOf, KeyValuePropOf, MethodPropOf, PropOf, PropOrSpreadOf, SetterPropOf,
};

impl<T: Held> Check for PropOrSpreadOf<T> {
    ghost tree = { view_prop_or_spread T.tree };

    fn check(&self, code: Code<'_>, faults: &mut Vec<Error>) -> Result<(), AllocError> {
        match self {
            PropOrSpreadOf::Spread(x) => x.check(code, faults),
            PropOrSpreadOf::Prop(x) => x.check(code, faults),
        }
    }
}

impl<T: Held> Check for PropOf<T> {
    ghost tree = { view_prop T.tree };

    fn check(&self, code: Code<'_>, faults: &mut Vec<Error>) -> Result<(), AllocError> {
        match self {
            PropOf::Shorthand(x) => x.check(code, faults),
            PropOf::KeyValue(x) => x.check(code, faults),
            PropOf::Assign(x) => x.check(code, faults),
            PropOf::Getter(x) => x.check(code, faults),
            PropOf::Setter(x) => x.check(code, faults),
            PropOf::Method(x) => x.check(code, faults),
        }
    }
}

impl<T: Held> Check for KeyValuePropOf<T> {
    ghost tree = { view_key_value_prop T.tree };

    fn check(&self, code: Code<'_>, faults: &mut Vec<Error>) -> Result<(), AllocError> {
        self.key.check(code, faults)?;
        self.value.check(code, faults)
    }
}

impl<T: Held> Check for AssignPropOf<T> {
    ghost tree = { view_assign_prop T.tree };

    fn check(&self, code: Code<'_>, faults: &mut Vec<Error>) -> Result<(), AllocError> {
        self.key.check(code, faults)?;
        self.value.check(code, faults)
    }
}

impl<T: Held> Check for GetterPropOf<T> {
    ghost tree = { view_getter_prop T.tree };

    fn check(&self, code: Code<'_>, faults: &mut Vec<Error>) -> Result<(), AllocError> {
        self.key.check(code, faults)?;
        let inside = code.as_method().in_function();
        self.body.check(inside.as_body(), faults)
    }
}

impl<T: Held> Check for SetterPropOf<T> {
    ghost tree = { view_setter_prop T.tree };

    fn check(&self, code: Code<'_>, faults: &mut Vec<Error>) -> Result<(), AllocError> {
        let bare = self.param.is_bare();
        mode(bare, own_use_strict(self.body.stmts.as_slice()), faults)?;
        self.key.check(code, faults)?;
        let inside = code.as_method().in_function();
        self.param.check(inside, faults)?;
        self.body.check(inside.as_body(), faults)?;
        Ok(())
    }
}

impl<T: Held> Check for MethodPropOf<T> {
    ghost tree = { view_method_prop T.tree };

    fn check(&self, code: Code<'_>, faults: &mut Vec<Error>) -> Result<(), AllocError> {
        self.key.check(code, faults)?;
        self.function.check(code.as_method(), faults)
    }
}
