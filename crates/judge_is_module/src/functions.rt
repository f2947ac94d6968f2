// Written by tools/tree/goal.py from tools/tree/tree.table. Don't edit this file.
//! What tells of a module in functions, classes and keys (ECMA-262, clause 15).
ghost use Rattle.tree_nodes.specs.View.{view_param, view_decorator, view_class, view_class_member, view_constructor, view_class_method, view_class_prop, view_private_prop, view_static_block, view_auto_accessor, view_key, view_prop_name, view_computed_prop_name};

use crate::parts::Tells;
use tree_nodes::{
    AutoAccessorOf, ClassMemberOf, ClassMethodOf, ClassOf, ClassPropOf, ComputedPropNameOf,
    ConstructorOf, DecoratorOf, KeyOf, ParamOf, PrivatePropOf, PropNameOf, StaticBlockOf,
};

impl<T: Tells> Tells for ParamOf<T> {
    ghost tree = { view_param T.tree };

    fn tells(&self) -> bool {
        self.decorators.tells() || self.pat.tells()
    }
}

impl<T: Tells> Tells for DecoratorOf<T> {
    ghost tree = { view_decorator T.tree };

    fn tells(&self) -> bool {
        self.expr.tells()
    }
}

impl<T: Tells> Tells for ClassOf<T> {
    ghost tree = { view_class T.tree };

    fn tells(&self) -> bool {
        self.decorators.tells() || self.body.tells() || self.super_class.tells()
    }
}

impl<T: Tells> Tells for ClassMemberOf<T> {
    ghost tree = { view_class_member T.tree };

    fn tells(&self) -> bool {
        match self {
            ClassMemberOf::Constructor(x) => x.tells(),
            ClassMemberOf::Method(x) => x.tells(),
            ClassMemberOf::ClassProp(x) => x.tells(),
            ClassMemberOf::PrivateProp(x) => x.tells(),
            ClassMemberOf::StaticBlock(x) => x.tells(),
            ClassMemberOf::AutoAccessor(x) => x.tells(),
            ClassMemberOf::PrivateMethod(_) | ClassMemberOf::Empty(_) => false,
        }
    }
}

impl<T: Tells> Tells for ConstructorOf<T> {
    ghost tree = { view_constructor T.tree };

    fn tells(&self) -> bool {
        self.key.tells() || self.params.tells() || self.body.tells()
    }
}

impl<T: Tells> Tells for ClassMethodOf<T> {
    ghost tree = { view_class_method T.tree };

    fn tells(&self) -> bool {
        self.key.tells()
    }
}

impl<T: Tells> Tells for ClassPropOf<T> {
    ghost tree = { view_class_prop T.tree };

    fn tells(&self) -> bool {
        self.key.tells() || self.value.tells() || self.decorators.tells()
    }
}

impl<T: Tells> Tells for PrivatePropOf<T> {
    ghost tree = { view_private_prop T.tree };

    fn tells(&self) -> bool {
        self.value.tells() || self.decorators.tells()
    }
}

impl<T: Tells> Tells for StaticBlockOf<T> {
    ghost tree = { view_static_block T.tree };

    fn tells(&self) -> bool {
        self.body.tells()
    }
}

impl<T: Tells> Tells for AutoAccessorOf<T> {
    ghost tree = { view_auto_accessor T.tree };

    fn tells(&self) -> bool {
        self.key.tells() || self.value.tells() || self.decorators.tells()
    }
}

impl<T: Tells> Tells for KeyOf<T> {
    ghost tree = { view_key T.tree };

    fn tells(&self) -> bool {
        match self {
            KeyOf::Public(x) => x.tells(),
            KeyOf::Private(_) => false,
        }
    }
}

impl<T: Tells> Tells for PropNameOf<T> {
    ghost tree = { view_prop_name T.tree };

    fn tells(&self) -> bool {
        match self {
            PropNameOf::Computed(x) => x.tells(),
            PropNameOf::Ident(_)
            | PropNameOf::Str(_)
            | PropNameOf::Num(_)
            | PropNameOf::BigInt(_) => false,
        }
    }
}

impl<T: Tells> Tells for ComputedPropNameOf<T> {
    ghost tree = { view_computed_prop_name T.tree };

    fn tells(&self) -> bool {
        self.expr.tells()
    }
}
