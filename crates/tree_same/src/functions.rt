// Written by tools/tree/same.py from tools/tree/tree.table. Don't edit this file.
//! Whether functions, classes and keys (ECMA-262, clause 15) say the same.
ghost use Rattle.tree_nodes.specs.View.{view_function, view_param, view_decorator, view_class, view_class_member, view_constructor, view_class_method, view_private_method, view_class_prop, view_private_prop, view_static_block, view_auto_accessor, view_ident_name, view_computed_prop_name, view_private_name};

use crate::keys::{same_key, same_member_key};
use crate::parts::{Held, Same};
use crate::words::same_method_kind;
use tree_nodes::{
    AutoAccessorOf, ClassMemberOf, ClassMethodOf, ClassOf, ClassPropOf, ComputedPropNameOf,
    ConstructorOf, DecoratorOf, FunctionOf, IdentName, ParamOf, PrivateMethodOf, PrivateName,
    PrivatePropOf, StaticBlockOf,
};

impl<T: Held> Same for FunctionOf<T> {
    ghost tree = { view_function T.tree };

    #[tactic(auto, using(crate::proofs::Rules::function_rule))]
    fn same(&self, other: &FunctionOf<T>) -> bool {
        self.params.same(&other.params)
            && self.decorators.same(&other.decorators)
            && self.body.same(&other.body)
            && self.is_generator == other.is_generator
            && self.is_async == other.is_async
    }
}

impl<T: Held> Same for ParamOf<T> {
    ghost tree = { view_param T.tree };

    #[tactic(auto, using(crate::proofs::Rules::param_rule))]
    fn same(&self, other: &ParamOf<T>) -> bool {
        self.decorators.same(&other.decorators) && self.pat.same(&other.pat)
    }
}

impl<T: Held> Same for DecoratorOf<T> {
    ghost tree = { view_decorator T.tree };

    #[tactic(auto, using(crate::proofs::Rules::decorator_rule))]
    fn same(&self, other: &DecoratorOf<T>) -> bool {
        self.expr.same(&other.expr)
    }
}

impl<T: Held> Same for ClassOf<T> {
    ghost tree = { view_class T.tree };

    #[tactic(auto, using(crate::proofs::Rules::class_rule))]
    fn same(&self, other: &ClassOf<T>) -> bool {
        self.decorators.same(&other.decorators)
            && self.body.same(&other.body)
            && self.super_class.same(&other.super_class)
    }
}

impl<T: Held> Same for ClassMemberOf<T> {
    ghost tree = { view_class_member T.tree };

    #[tactic(auto, using(crate::proofs::Apart::class_member_apart))]
    fn same(&self, other: &ClassMemberOf<T>) -> bool {
        match (self, other) {
            (ClassMemberOf::Constructor(x), ClassMemberOf::Constructor(y)) => x.same(y),
            (ClassMemberOf::Method(x), ClassMemberOf::Method(y)) => x.same(y),
            (ClassMemberOf::PrivateMethod(x), ClassMemberOf::PrivateMethod(y)) => x.same(y),
            (ClassMemberOf::ClassProp(x), ClassMemberOf::ClassProp(y)) => x.same(y),
            (ClassMemberOf::PrivateProp(x), ClassMemberOf::PrivateProp(y)) => x.same(y),
            (ClassMemberOf::StaticBlock(x), ClassMemberOf::StaticBlock(y)) => x.same(y),
            (ClassMemberOf::AutoAccessor(x), ClassMemberOf::AutoAccessor(y)) => x.same(y),
            (ClassMemberOf::Empty(x), ClassMemberOf::Empty(y)) => x.same(y),
            _ => false,
        }
    }
}

impl<T: Held> Same for ConstructorOf<T> {
    ghost tree = { view_constructor T.tree };

    #[tactic(auto, using(crate::proofs::Rules::constructor_rule))]
    fn same(&self, other: &ConstructorOf<T>) -> bool {
        same_key(&self.key, &other.key)
            && self.params.same(&other.params)
            && self.body.same(&other.body)
    }
}

impl<T: Held> Same for ClassMethodOf<T> {
    ghost tree = { view_class_method T.tree };

    #[tactic(auto, using(crate::proofs::Rules::class_method_rule))]
    fn same(&self, other: &ClassMethodOf<T>) -> bool {
        same_key(&self.key, &other.key)
            && self.function.same(&other.function)
            && same_method_kind(self.kind, other.kind)
            && self.is_static == other.is_static
    }
}

impl<T: Held> Same for PrivateMethodOf<T> {
    ghost tree = { view_private_method T.tree };

    #[tactic(auto, using(crate::proofs::Rules::private_method_rule))]
    fn same(&self, other: &PrivateMethodOf<T>) -> bool {
        self.key.same(&other.key)
            && self.function.same(&other.function)
            && same_method_kind(self.kind, other.kind)
            && self.is_static == other.is_static
    }
}

impl<T: Held> Same for ClassPropOf<T> {
    ghost tree = { view_class_prop T.tree };

    #[tactic(auto, using(crate::proofs::Rules::class_prop_rule))]
    fn same(&self, other: &ClassPropOf<T>) -> bool {
        same_key(&self.key, &other.key)
            && self.value.same(&other.value)
            && self.is_static == other.is_static
            && self.decorators.same(&other.decorators)
    }
}

impl<T: Held> Same for PrivatePropOf<T> {
    ghost tree = { view_private_prop T.tree };

    #[tactic(auto, using(crate::proofs::Rules::private_prop_rule))]
    fn same(&self, other: &PrivatePropOf<T>) -> bool {
        self.key.same(&other.key)
            && self.value.same(&other.value)
            && self.is_static == other.is_static
            && self.decorators.same(&other.decorators)
    }
}

impl<T: Held> Same for StaticBlockOf<T> {
    ghost tree = { view_static_block T.tree };

    #[tactic(auto, using(crate::proofs::Rules::static_block_rule))]
    fn same(&self, other: &StaticBlockOf<T>) -> bool {
        self.body.same(&other.body)
    }
}

impl<T: Held> Same for AutoAccessorOf<T> {
    ghost tree = { view_auto_accessor T.tree };

    #[tactic(auto, using(crate::proofs::Rules::auto_accessor_rule))]
    fn same(&self, other: &AutoAccessorOf<T>) -> bool {
        same_member_key(&self.key, &other.key)
            && self.value.same(&other.value)
            && self.is_static == other.is_static
            && self.decorators.same(&other.decorators)
    }
}

impl Same for IdentName {
    ghost tree = { view_ident_name };

    #[tactic(auto, using(crate::proofs::Rules::ident_name_rule))]
    fn same(&self, other: &IdentName) -> bool {
        self.sym == other.sym
    }
}

impl<T: Held> Same for ComputedPropNameOf<T> {
    ghost tree = { view_computed_prop_name T.tree };

    #[tactic(auto, using(crate::proofs::Rules::computed_prop_name_rule))]
    fn same(&self, other: &ComputedPropNameOf<T>) -> bool {
        self.expr.same(&other.expr)
    }
}

impl Same for PrivateName {
    ghost tree = { view_private_name };

    #[tactic(auto, using(crate::proofs::Rules::private_name_rule))]
    fn same(&self, other: &PrivateName) -> bool {
        self.name == other.name
    }
}
