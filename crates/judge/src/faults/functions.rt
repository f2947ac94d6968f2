//! Functions, classes and keys (ECMA-262, clause 15).
ghost use Rattle.tree_nodes.specs.View.{view_function, view_param, view_decorator, view_class, view_class_member, view_constructor, view_class_method, view_private_method, view_class_prop, view_private_prop, view_static_block, view_auto_accessor, view_key, view_prop_name, view_computed_prop_name};

use crate::base::Code;
use crate::faults::check::{Check, Held, is_there};
use crate::faults::members::{check_members, second_constructors};
use crate::faults::modes::check_mode;
use base_token::Error;
use std::alloc::AllocError;
use tree_nodes::{
    AutoAccessorOf, ClassMemberOf, ClassMethodOf, ClassOf, ClassPropOf, ComputedPropNameOf,
    ConstructorOf, DecoratorOf, FunctionOf, KeyOf, ParamOf, PrivateMethodOf, PrivatePropOf,
    PropNameOf, StaticBlockOf,
};

impl<T: Held> Check for FunctionOf<T> {
    ghost tree = { view_function T.tree };

    fn check(&self, code: Code<'_>, faults: &mut Vec<Error>) -> Result<(), AllocError> {
        let inside = code.in_function();
        check_mode(self.params.as_slice(), &self.body, faults)?;
        self.params.check(inside, faults)?;
        self.decorators.check(inside.as_body(), faults)?;
        self.body.check(inside.as_body(), faults)
    }
}

impl<T: Held> Check for ParamOf<T> {
    ghost tree = { view_param T.tree };

    fn check(&self, code: Code<'_>, faults: &mut Vec<Error>) -> Result<(), AllocError> {
        self.decorators.check(code, faults)?;
        self.pat.check(code, faults)
    }
}

impl<T: Held> Check for DecoratorOf<T> {
    ghost tree = { view_decorator T.tree };

    fn check(&self, code: Code<'_>, faults: &mut Vec<Error>) -> Result<(), AllocError> {
        self.expr.check(code, faults)
    }
}

impl<T: Held> Check for ClassOf<T> {
    ghost tree = { view_class T.tree };

    fn check(&self, code: Code<'_>, faults: &mut Vec<Error>) -> Result<(), AllocError> {
        let inside = code.strictly();
        let members = self.body.as_slice();
        second_constructors(members, faults)?;
        self.decorators.check(inside, faults)?;
        check_members(members, is_there(&self.super_class), inside, faults)?;
        self.super_class.check(inside, faults)
    }
}

impl<T: Held> Check for ClassMemberOf<T> {
    ghost tree = { view_class_member T.tree };

    fn check(&self, code: Code<'_>, faults: &mut Vec<Error>) -> Result<(), AllocError> {
        match self {
            ClassMemberOf::Constructor(x) => x.check(code, faults),
            ClassMemberOf::Method(x) => x.check(code, faults),
            ClassMemberOf::PrivateMethod(x) => x.check(code, faults),
            ClassMemberOf::ClassProp(x) => x.check(code, faults),
            ClassMemberOf::PrivateProp(x) => x.check(code, faults),
            ClassMemberOf::StaticBlock(x) => x.check(code, faults),
            ClassMemberOf::AutoAccessor(x) => x.check(code, faults),
            ClassMemberOf::Empty(_) => Ok(()),
        }
    }
}

impl<T: Held> Check for ConstructorOf<T> {
    ghost tree = { view_constructor T.tree };

    fn check(&self, code: Code<'_>, faults: &mut Vec<Error>) -> Result<(), AllocError> {
        let inside = code.in_constructor(code.calls);
        check_mode(self.params.as_slice(), &self.body, faults)?;
        self.key.check(code, faults)?;
        self.params.check(inside, faults)?;
        self.body.check(inside.as_body(), faults)
    }
}

impl<T: Held> Check for ClassMethodOf<T> {
    ghost tree = { view_class_method T.tree };

    fn check(&self, code: Code<'_>, faults: &mut Vec<Error>) -> Result<(), AllocError> {
        self.key.check(code, faults)?;
        self.function.check(code.as_method(), faults)
    }
}

impl<T: Held> Check for PrivateMethodOf<T> {
    ghost tree = { view_private_method T.tree };

    fn check(&self, code: Code<'_>, faults: &mut Vec<Error>) -> Result<(), AllocError> {
        self.function.check(code.as_method(), faults)
    }
}

impl<T: Held> Check for ClassPropOf<T> {
    ghost tree = { view_class_prop T.tree };

    fn check(&self, code: Code<'_>, faults: &mut Vec<Error>) -> Result<(), AllocError> {
        self.key.check(code, faults)?;
        self.value.check(code.in_part(), faults)?;
        self.decorators.check(code.in_part(), faults)
    }
}

impl<T: Held> Check for PrivatePropOf<T> {
    ghost tree = { view_private_prop T.tree };

    fn check(&self, code: Code<'_>, faults: &mut Vec<Error>) -> Result<(), AllocError> {
        self.value.check(code.in_part(), faults)?;
        self.decorators.check(code.in_part(), faults)
    }
}

impl<T: Held> Check for StaticBlockOf<T> {
    ghost tree = { view_static_block T.tree };

    fn check(&self, code: Code<'_>, faults: &mut Vec<Error>) -> Result<(), AllocError> {
        self.body.check(code.in_part(), faults)
    }
}

impl<T: Held> Check for AutoAccessorOf<T> {
    ghost tree = { view_auto_accessor T.tree };

    fn check(&self, code: Code<'_>, faults: &mut Vec<Error>) -> Result<(), AllocError> {
        self.key.check(code, faults)?;
        self.value.check(code.in_part(), faults)?;
        self.decorators.check(code.in_part(), faults)
    }
}

impl<T: Held> Check for KeyOf<T> {
    ghost tree = { view_key T.tree };

    fn check(&self, code: Code<'_>, faults: &mut Vec<Error>) -> Result<(), AllocError> {
        match self {
            KeyOf::Private(_) => Ok(()),
            KeyOf::Public(x) => x.check(code, faults),
        }
    }
}

impl<T: Held> Check for PropNameOf<T> {
    ghost tree = { view_prop_name T.tree };

    fn check(&self, code: Code<'_>, faults: &mut Vec<Error>) -> Result<(), AllocError> {
        match self {
            PropNameOf::Ident(_) => Ok(()),
            PropNameOf::Str(x) => x.check(code, faults),
            PropNameOf::Num(x) => x.check(code, faults),
            PropNameOf::BigInt(_) => Ok(()),
            PropNameOf::Computed(x) => x.check(code, faults),
        }
    }
}

impl<T: Held> Check for ComputedPropNameOf<T> {
    ghost tree = { view_computed_prop_name T.tree };

    fn check(&self, code: Code<'_>, faults: &mut Vec<Error>) -> Result<(), AllocError> {
        self.expr.check(code, faults)
    }
}
