// Written by tools/tree/visit.py from tools/tree/tree.table. Don't edit this file.
//! Goes over functions, classes and keys (ECMA-262, clause 15).
ghost use Rattle.tree_nodes.specs.View.{view_function, view_param, view_decorator, view_class, view_class_member, view_constructor, view_class_method, view_private_method, view_class_prop, view_private_prop, view_static_block, view_auto_accessor, view_key, view_prop_name, view_ident_name, view_computed_prop_name, view_private_name};

use crate::kinds::Kind;
use crate::lists::{walk_all, walk_part};
use crate::told::{enter_part, leave_part, tell_one, tell_two};
use crate::watch::{Node, Walk, Watch};
use tree_nodes::{
    AutoAccessorOf, ClassMemberOf, ClassMethodOf, ClassOf, ClassPropOf, ComputedPropNameOf,
    ConstructorOf, DecoratorOf, FunctionOf, IdentName, KeyOf, ParamOf, PrivateMethodOf,
    PrivateName, PrivatePropOf, PropNameOf, StaticBlockOf,
};

impl<T: Walk> Walk for FunctionOf<T> {
    ghost tree = { view_function T.tree };

    fn walk<V: Watch>(&self, visitor: &mut V) {
        enter_part(Kind::Function, self.span, visitor);
        walk_all(self.decorators.as_slice(), visitor);
        walk_all(self.params.as_slice(), visitor);
        self.body.walk(visitor);
        leave_part(Kind::Function, self.span, visitor);
    }
}

impl<T: Walk> Walk for ParamOf<T> {
    ghost tree = { view_param T.tree };

    fn walk<V: Watch>(&self, visitor: &mut V) {
        enter_part(Kind::Param, self.span, visitor);
        walk_all(self.decorators.as_slice(), visitor);
        self.pat.walk(visitor);
        leave_part(Kind::Param, self.span, visitor);
    }
}

impl<T: Walk> Walk for DecoratorOf<T> {
    ghost tree = { view_decorator T.tree };

    fn walk<V: Watch>(&self, visitor: &mut V) {
        tell_one(Kind::Decorator, self.span, &self.expr, visitor);
    }
}

impl<T: Walk> Walk for ClassOf<T> {
    ghost tree = { view_class T.tree };

    fn walk<V: Watch>(&self, visitor: &mut V) {
        enter_part(Kind::Class, self.span, visitor);
        walk_all(self.decorators.as_slice(), visitor);
        walk_part(&self.super_class, visitor);
        walk_all(self.body.as_slice(), visitor);
        leave_part(Kind::Class, self.span, visitor);
    }
}

impl<T: Walk> Walk for ClassMemberOf<T> {
    ghost tree = { view_class_member T.tree };

    fn walk<V: Watch>(&self, visitor: &mut V) {
        match self {
            ClassMemberOf::Constructor(x) => x.walk(visitor),
            ClassMemberOf::Method(x) => x.walk(visitor),
            ClassMemberOf::PrivateMethod(x) => x.walk(visitor),
            ClassMemberOf::ClassProp(x) => x.walk(visitor),
            ClassMemberOf::PrivateProp(x) => x.walk(visitor),
            ClassMemberOf::StaticBlock(x) => x.walk(visitor),
            ClassMemberOf::AutoAccessor(x) => x.walk(visitor),
            ClassMemberOf::Empty(x) => x.walk(visitor),
        }
    }
}

impl<T: Walk> Walk for ConstructorOf<T> {
    ghost tree = { view_constructor T.tree };

    fn walk<V: Watch>(&self, visitor: &mut V) {
        enter_part(Kind::Constructor, self.span, visitor);
        self.key.walk(visitor);
        walk_all(self.params.as_slice(), visitor);
        self.body.walk(visitor);
        leave_part(Kind::Constructor, self.span, visitor);
    }
}

impl<T: Walk> Walk for ClassMethodOf<T> {
    ghost tree = { view_class_method T.tree };

    fn walk<V: Watch>(&self, visitor: &mut V) {
        tell_two(
            Kind::ClassMethod,
            self.span,
            &self.key,
            &*self.function,
            visitor,
        );
    }
}

impl<T: Walk> Walk for PrivateMethodOf<T> {
    ghost tree = { view_private_method T.tree };

    fn walk<V: Watch>(&self, visitor: &mut V) {
        tell_two(
            Kind::PrivateMethod,
            self.span,
            &self.key,
            &*self.function,
            visitor,
        );
    }
}

impl<T: Walk> Walk for ClassPropOf<T> {
    ghost tree = { view_class_prop T.tree };

    fn walk<V: Watch>(&self, visitor: &mut V) {
        enter_part(Kind::ClassProp, self.span, visitor);
        walk_all(self.decorators.as_slice(), visitor);
        self.key.walk(visitor);
        walk_part(&self.value, visitor);
        leave_part(Kind::ClassProp, self.span, visitor);
    }
}

impl<T: Walk> Walk for PrivatePropOf<T> {
    ghost tree = { view_private_prop T.tree };

    fn walk<V: Watch>(&self, visitor: &mut V) {
        enter_part(Kind::PrivateProp, self.span, visitor);
        walk_all(self.decorators.as_slice(), visitor);
        self.key.walk(visitor);
        walk_part(&self.value, visitor);
        leave_part(Kind::PrivateProp, self.span, visitor);
    }
}

impl<T: Walk> Walk for StaticBlockOf<T> {
    ghost tree = { view_static_block T.tree };

    fn walk<V: Watch>(&self, visitor: &mut V) {
        tell_one(Kind::StaticBlock, self.span, &self.body, visitor);
    }
}

impl<T: Walk> Walk for AutoAccessorOf<T> {
    ghost tree = { view_auto_accessor T.tree };

    fn walk<V: Watch>(&self, visitor: &mut V) {
        enter_part(Kind::AutoAccessor, self.span, visitor);
        walk_all(self.decorators.as_slice(), visitor);
        self.key.walk(visitor);
        walk_part(&self.value, visitor);
        leave_part(Kind::AutoAccessor, self.span, visitor);
    }
}

impl<T: Walk> Walk for KeyOf<T> {
    ghost tree = { view_key T.tree };

    fn walk<V: Watch>(&self, visitor: &mut V) {
        match self {
            KeyOf::Private(x) => x.walk(visitor),
            KeyOf::Public(x) => x.walk(visitor),
        }
    }
}

impl<T: Walk> Walk for PropNameOf<T> {
    ghost tree = { view_prop_name T.tree };

    fn walk<V: Watch>(&self, visitor: &mut V) {
        match self {
            PropNameOf::Ident(x) => x.walk(visitor),
            PropNameOf::Str(x) => x.walk(visitor),
            PropNameOf::Num(x) => x.walk(visitor),
            PropNameOf::BigInt(x) => x.walk(visitor),
            PropNameOf::Computed(x) => x.walk(visitor),
        }
    }
}

impl Walk for IdentName {
    ghost tree = { view_ident_name };

    fn walk<V: Watch>(&self, visitor: &mut V) {
        visitor.enter(Node::IdentName(self));
        visitor.leave(Node::IdentName(self));
    }
}

impl<T: Walk> Walk for ComputedPropNameOf<T> {
    ghost tree = { view_computed_prop_name T.tree };

    fn walk<V: Watch>(&self, visitor: &mut V) {
        tell_one(Kind::ComputedPropName, self.span, &self.expr, visitor);
    }
}

impl Walk for PrivateName {
    ghost tree = { view_private_name };

    fn walk<V: Watch>(&self, visitor: &mut V) {
        visitor.enter(Node::PrivateName(self));
        visitor.leave(Node::PrivateName(self));
    }
}
