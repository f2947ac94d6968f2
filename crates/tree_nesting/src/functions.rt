// Written by tools/tree/nesting.py from tools/tree/tree.table. Don't edit this file.
//! How deep functions, classes and keys (ECMA-262, clause 15) go.
ghost use Rattle.tree_nodes.specs.View.{view_function, view_param, view_decorator, view_class, view_class_member, view_constructor, view_class_method, view_private_method, view_class_prop, view_private_prop, view_static_block, view_auto_accessor, view_key, view_prop_name, view_ident_name, view_computed_prop_name, view_private_name};

use crate::counts::{Held, Nesting, above};
use tree_nodes::{
    AutoAccessorOf, ClassMemberOf, ClassMethodOf, ClassOf, ClassPropOf, ComputedPropNameOf,
    ConstructorOf, DecoratorOf, FunctionOf, IdentName, KeyOf, ParamOf, PrivateMethodOf,
    PrivateName, PrivatePropOf, PropNameOf, StaticBlockOf,
};

impl<T: Held> Nesting for FunctionOf<T> {
    ghost tree = { view_function T.tree };

    fn nesting(&self) -> u32 {
        let params = self.params.nesting();
        let decorators = self.decorators.nesting();
        let body = self.body.nesting();
        above(params.max(decorators).max(body))
    }
}

impl<T: Held> Nesting for ParamOf<T> {
    ghost tree = { view_param T.tree };

    fn nesting(&self) -> u32 {
        above(self.decorators.nesting().max(self.pat.nesting()))
    }
}

impl<T: Held> Nesting for DecoratorOf<T> {
    ghost tree = { view_decorator T.tree };

    fn nesting(&self) -> u32 {
        above(self.expr.nesting())
    }
}

impl<T: Held> Nesting for ClassOf<T> {
    ghost tree = { view_class T.tree };

    fn nesting(&self) -> u32 {
        let decorators = self.decorators.nesting();
        let body = self.body.nesting();
        let super_class = self.super_class.nesting();
        above(decorators.max(body).max(super_class))
    }
}

impl<T: Held> Nesting for ClassMemberOf<T> {
    ghost tree = { view_class_member T.tree };

    fn nesting(&self) -> u32 {
        match self {
            ClassMemberOf::Constructor(x) => x.nesting(),
            ClassMemberOf::Method(x) => x.nesting(),
            ClassMemberOf::PrivateMethod(x) => x.nesting(),
            ClassMemberOf::ClassProp(x) => x.nesting(),
            ClassMemberOf::PrivateProp(x) => x.nesting(),
            ClassMemberOf::StaticBlock(x) => x.nesting(),
            ClassMemberOf::AutoAccessor(x) => x.nesting(),
            ClassMemberOf::Empty(x) => x.nesting(),
        }
    }
}

impl<T: Held> Nesting for ConstructorOf<T> {
    ghost tree = { view_constructor T.tree };

    fn nesting(&self) -> u32 {
        let key = self.key.nesting();
        let params = self.params.nesting();
        let body = self.body.nesting();
        above(key.max(params).max(body))
    }
}

impl<T: Held> Nesting for ClassMethodOf<T> {
    ghost tree = { view_class_method T.tree };

    fn nesting(&self) -> u32 {
        above(self.key.nesting().max(self.function.nesting()))
    }
}

impl<T: Held> Nesting for PrivateMethodOf<T> {
    ghost tree = { view_private_method T.tree };

    fn nesting(&self) -> u32 {
        above(self.key.nesting().max(self.function.nesting()))
    }
}

impl<T: Held> Nesting for ClassPropOf<T> {
    ghost tree = { view_class_prop T.tree };

    fn nesting(&self) -> u32 {
        let key = self.key.nesting();
        let value = self.value.nesting();
        let decorators = self.decorators.nesting();
        above(key.max(value).max(decorators))
    }
}

impl<T: Held> Nesting for PrivatePropOf<T> {
    ghost tree = { view_private_prop T.tree };

    fn nesting(&self) -> u32 {
        let key = self.key.nesting();
        let value = self.value.nesting();
        let decorators = self.decorators.nesting();
        above(key.max(value).max(decorators))
    }
}

impl<T: Held> Nesting for StaticBlockOf<T> {
    ghost tree = { view_static_block T.tree };

    fn nesting(&self) -> u32 {
        above(self.body.nesting())
    }
}

impl<T: Held> Nesting for AutoAccessorOf<T> {
    ghost tree = { view_auto_accessor T.tree };

    fn nesting(&self) -> u32 {
        let key = self.key.nesting();
        let value = self.value.nesting();
        let decorators = self.decorators.nesting();
        above(key.max(value).max(decorators))
    }
}

impl<T: Held> Nesting for KeyOf<T> {
    ghost tree = { view_key T.tree };

    fn nesting(&self) -> u32 {
        match self {
            KeyOf::Private(x) => x.nesting(),
            KeyOf::Public(x) => x.nesting(),
        }
    }
}

impl<T: Held> Nesting for PropNameOf<T> {
    ghost tree = { view_prop_name T.tree };

    fn nesting(&self) -> u32 {
        match self {
            PropNameOf::Ident(x) => x.nesting(),
            PropNameOf::Str(x) => x.nesting(),
            PropNameOf::Num(x) => x.nesting(),
            PropNameOf::BigInt(x) => x.nesting(),
            PropNameOf::Computed(x) => x.nesting(),
        }
    }
}

impl Nesting for IdentName {
    ghost tree = { view_ident_name };

    fn nesting(&self) -> u32 {
        1
    }
}

impl<T: Held> Nesting for ComputedPropNameOf<T> {
    ghost tree = { view_computed_prop_name T.tree };

    fn nesting(&self) -> u32 {
        above(self.expr.nesting())
    }
}

impl Nesting for PrivateName {
    ghost tree = { view_private_name };

    fn nesting(&self) -> u32 {
        1
    }
}
