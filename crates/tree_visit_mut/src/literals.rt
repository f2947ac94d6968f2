// Written by tools/tree/visit_mut.py from tools/tree/tree.table. Don't edit this file.
//! Changes literals (ECMA-262, 13.2.3, 13.2.7 and 13.2.8).
use crate::walk::{Change, WalkMut, Word};
use tree_nodes::{BigInt, Lit, Number, Str};

impl<T, C: Change<T>> WalkMut<T, C> for Lit {
    ghost fits = { λ _. Unit {0} };

    fn walk_mut(&mut self, by: &mut C) {
        match self {
            Lit::Str(x) => x.walk_mut(by),
            Lit::Bool(x) => by.span(&mut x.span),
            Lit::Null(x) => by.span(&mut x.span),
            Lit::Num(x) => x.walk_mut(by),
            Lit::BigInt(x) => x.walk_mut(by),
            Lit::Regex(x) => by.span(&mut x.span),
        }
    }
}

impl<T, C: Change<T>> WalkMut<T, C> for Str {
    ghost fits = { λ _. Unit {0} };

    fn walk_mut(&mut self, by: &mut C) {
        by.span(&mut self.span);
        by.word(Word::Str(self));
    }
}

impl<T, C: Change<T>> WalkMut<T, C> for Number {
    ghost fits = { λ _. Unit {0} };

    fn walk_mut(&mut self, by: &mut C) {
        by.span(&mut self.span);
        by.word(Word::Number(self));
    }
}

impl<T, C: Change<T>> WalkMut<T, C> for BigInt {
    ghost fits = { λ _. Unit {0} };

    fn walk_mut(&mut self, by: &mut C) {
        by.span(&mut self.span);
        by.word(Word::BigInt(self));
    }
}
