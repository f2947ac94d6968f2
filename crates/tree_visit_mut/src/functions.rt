// Written by tools/tree/visit_mut.py from tools/tree/tree.table. Don't edit this file.
//! Changes functions, classes and keys (ECMA-262, clause 15).
ghost use Rattle.tree_nodes.specs.Fits.{fits_function, fits_param, fits_decorator, fits_class, fits_class_member, fits_key, fits_prop_name};

use crate::walk::{
    Change, WalkMut, Word, walk_all, walk_decorators, walk_expr_at, walk_params, walk_value,
    walk_value_at,
};
use tree_nodes::{
    ClassMemberOf, ClassOf, DecoratorOf, FunctionOf, IdentName, KeyOf, ParamOf, PrivateName,
    PropNameOf,
};

impl<T, C: Change<T>> WalkMut<T, C> for FunctionOf<T> {
    ghost fits = { λ x. fits_function C.placed x };

    fn walk_mut(&mut self, by: &mut C) {
        by.enter_function(self);
        walk_decorators(&mut self.decorators, by);
        walk_params(&mut self.params, by);
        self.body.walk_mut(by);
        by.span(&mut self.span);
        by.leave_function(self);
    }
}

impl<T, C: Change<T>> WalkMut<T, C> for ParamOf<T> {
    ghost fits = { λ x. fits_param C.placed x };

    fn walk_mut(&mut self, by: &mut C) {
        walk_decorators(&mut self.decorators, by);
        self.pat.walk_mut(by);
        by.span(&mut self.span);
    }
}

impl<T, C: Change<T>> WalkMut<T, C> for DecoratorOf<T> {
    ghost fits = { λ x. fits_decorator C.placed x };

    fn walk_mut(&mut self, by: &mut C) {
        walk_expr_at(&mut self.expr, &mut self.span, by);
    }
}

impl<T, C: Change<T>> WalkMut<T, C> for ClassOf<T> {
    ghost fits = { λ x. fits_class C.placed x };

    fn walk_mut(&mut self, by: &mut C) {
        by.enter_class(self);
        walk_decorators(&mut self.decorators, by);
        walk_value(&mut self.super_class, by);
        walk_all(&mut self.body, by);
        by.span(&mut self.span);
        by.leave_class(self);
    }
}

impl<T, C: Change<T>> WalkMut<T, C> for ClassMemberOf<T> {
    ghost fits = { λ x. fits_class_member C.placed x };

    fn walk_mut(&mut self, by: &mut C) {
        match self {
            ClassMemberOf::Constructor(x) => {
                x.key.walk_mut(by);
                walk_params(&mut x.params, by);
                x.body.walk_mut(by);
                by.span(&mut x.span);
            }
            ClassMemberOf::Method(x) => {
                x.key.walk_mut(by);
                x.function.walk_mut(by);
                by.span(&mut x.span);
            }
            ClassMemberOf::PrivateMethod(x) => {
                x.key.walk_mut(by);
                x.function.walk_mut(by);
                by.span(&mut x.span);
            }
            ClassMemberOf::ClassProp(x) => {
                walk_decorators(&mut x.decorators, by);
                x.key.walk_mut(by);
                walk_value_at(&mut x.value, &mut x.span, by);
            }
            ClassMemberOf::PrivateProp(x) => {
                walk_decorators(&mut x.decorators, by);
                x.key.walk_mut(by);
                walk_value_at(&mut x.value, &mut x.span, by);
            }
            ClassMemberOf::StaticBlock(x) => {
                x.body.walk_mut(by);
                by.span(&mut x.span);
            }
            ClassMemberOf::AutoAccessor(x) => {
                walk_decorators(&mut x.decorators, by);
                x.key.walk_mut(by);
                walk_value_at(&mut x.value, &mut x.span, by);
            }
            ClassMemberOf::Empty(x) => by.span(&mut x.span),
        }
    }
}

impl<T, C: Change<T>> WalkMut<T, C> for KeyOf<T> {
    ghost fits = { λ x. fits_key C.placed x };

    fn walk_mut(&mut self, by: &mut C) {
        match self {
            KeyOf::Private(x) => x.walk_mut(by),
            KeyOf::Public(x) => x.walk_mut(by),
        }
    }
}

impl<T, C: Change<T>> WalkMut<T, C> for PropNameOf<T> {
    ghost fits = { λ x. fits_prop_name C.placed x };

    fn walk_mut(&mut self, by: &mut C) {
        match self {
            PropNameOf::Ident(x) => x.walk_mut(by),
            PropNameOf::Str(x) => x.walk_mut(by),
            PropNameOf::Num(x) => x.walk_mut(by),
            PropNameOf::BigInt(x) => x.walk_mut(by),
            PropNameOf::Computed(x) => walk_expr_at(&mut x.expr, &mut x.span, by),
        }
    }
}

impl<T, C: Change<T>> WalkMut<T, C> for IdentName {
    ghost fits = { λ _. Unit {0} };

    fn walk_mut(&mut self, by: &mut C) {
        by.span(&mut self.span);
        by.word(Word::IdentName(self));
    }
}

impl<T, C: Change<T>> WalkMut<T, C> for PrivateName {
    ghost fits = { λ _. Unit {0} };

    fn walk_mut(&mut self, by: &mut C) {
        by.span(&mut self.span);
        by.word(Word::PrivateName(self));
    }
}
