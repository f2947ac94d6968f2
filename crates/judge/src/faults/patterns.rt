//! Patterns (ECMA-262, 13.15.5 and 14.3.3).
ghost use Rattle.tree_nodes.specs.View.{view_pat_kind, view_binding_ident, view_array_pat, view_rest_pat, view_object_pat, view_assign_pat, view_object_pat_prop, view_key_value_pat_prop, view_assign_pat_prop, view_assign_target};

use crate::base::Code;
use crate::faults::check::{Check, Held, check_elements};
use crate::faults::names::{evil, evil_name};
use base_token::Error;
use std::alloc::AllocError;
use tree_nodes::{
    ArrayPatOf, AssignPatOf, AssignPatPropOf, AssignTargetOf, BindingIdent, KeyValuePatPropOf,
    ObjectPatOf, ObjectPatPropOf, PatKindOf, RestPatOf,
};

impl<T: Held> Check for PatKindOf<T> {
    ghost tree = { view_pat_kind T.tree };

    fn check(&self, code: Code<'_>, faults: &mut Vec<Error>) -> Result<(), AllocError> {
        match self {
            PatKindOf::Ident(x) => x.check(code, faults),
            PatKindOf::Array(x) => x.check(code, faults),
            PatKindOf::Rest(x) => x.check(code, faults),
            PatKindOf::Object(x) => x.check(code, faults),
            PatKindOf::Assign(x) => x.check(code, faults),
            PatKindOf::Expr(x) => {
                evil_name(&*x.part, code, faults)?;
                x.check(code, faults)
            }
            PatKindOf::Invalid(_) => Ok(()),
        }
    }
}

impl Check for BindingIdent {
    ghost tree = { view_binding_ident };

    fn check(&self, code: Code<'_>, faults: &mut Vec<Error>) -> Result<(), AllocError> {
        self.id.check(code, faults)?;
        evil(&self.id, code, faults)
    }
}

impl<T: Held> Check for ArrayPatOf<T> {
    ghost tree = { view_array_pat T.tree };

    fn check(&self, code: Code<'_>, faults: &mut Vec<Error>) -> Result<(), AllocError> {
        check_elements(self.elems.as_slice(), code, faults)?;
        Ok(())
    }
}

impl<T: Held> Check for RestPatOf<T> {
    ghost tree = { view_rest_pat T.tree };

    fn check(&self, code: Code<'_>, faults: &mut Vec<Error>) -> Result<(), AllocError> {
        self.arg.check(code, faults)
    }
}

impl<T: Held> Check for ObjectPatOf<T> {
    ghost tree = { view_object_pat T.tree };

    fn check(&self, code: Code<'_>, faults: &mut Vec<Error>) -> Result<(), AllocError> {
        self.props.check(code, faults)
    }
}

impl<T: Held> Check for AssignPatOf<T> {
    ghost tree = { view_assign_pat T.tree };

    fn check(&self, code: Code<'_>, faults: &mut Vec<Error>) -> Result<(), AllocError> {
        self.left.check(code, faults)?;
        self.right.check(code, faults)
    }
}

impl<T: Held> Check for ObjectPatPropOf<T> {
    ghost tree = { view_object_pat_prop T.tree };

    fn check(&self, code: Code<'_>, faults: &mut Vec<Error>) -> Result<(), AllocError> {
        match self {
            ObjectPatPropOf::KeyValue(x) => x.check(code, faults),
            ObjectPatPropOf::Assign(x) => x.check(code, faults),
            ObjectPatPropOf::Rest(x) => x.check(code, faults),
        }
    }
}

impl<T: Held> Check for KeyValuePatPropOf<T> {
    ghost tree = { view_key_value_pat_prop T.tree };

    fn check(&self, code: Code<'_>, faults: &mut Vec<Error>) -> Result<(), AllocError> {
        self.key.check(code, faults)?;
        self.value.check(code, faults)
    }
}

impl<T: Held> Check for AssignPatPropOf<T> {
    ghost tree = { view_assign_pat_prop T.tree };

    fn check(&self, code: Code<'_>, faults: &mut Vec<Error>) -> Result<(), AllocError> {
        self.key.check(code, faults)?;
        self.value.check(code, faults)
    }
}

impl<T: Held> Check for AssignTargetOf<T> {
    ghost tree = { view_assign_target T.tree };

    fn check(&self, code: Code<'_>, faults: &mut Vec<Error>) -> Result<(), AllocError> {
        match self {
            AssignTargetOf::Ident(x) => x.check(code, faults),
            AssignTargetOf::Member(x) => x.check(code, faults),
            AssignTargetOf::SuperProp(x) => x.check(code, faults),
            AssignTargetOf::Paren(x) => x.check(code, faults),
            AssignTargetOf::OptChain(x) => x.check(code, faults),
            AssignTargetOf::Array(x) => x.check(code, faults),
            AssignTargetOf::Object(x) => x.check(code, faults),
            AssignTargetOf::Invalid(_) => Ok(()),
        }
    }
}
