// Written by tools/tree/visit_mut.py from tools/tree/tree.table. Don't edit this file.
//! Changes properties of objects (ECMA-262, 13.2.5).
ghost use Rattle.tree_nodes.specs.Fits.{fits_prop_or_spread, fits_prop};

use crate::walk::{Change, WalkMut, walk_expr_at};
use tree_nodes::{PropOf, PropOrSpreadOf};

impl<T, C: Change<T>> WalkMut<T, C> for PropOrSpreadOf<T> {
    ghost fits = { λ x. fits_prop_or_spread C.placed x };

    fn walk_mut(&mut self, by: &mut C) {
        match self {
            PropOrSpreadOf::Spread(x) => walk_expr_at(&mut x.expr, &mut x.span, by),
            PropOrSpreadOf::Prop(x) => x.walk_mut(by),
        }
    }
}

impl<T, C: Change<T>> WalkMut<T, C> for PropOf<T> {
    ghost fits = { λ x. fits_prop C.placed x };

    fn walk_mut(&mut self, by: &mut C) {
        match self {
            PropOf::Shorthand(x) => x.walk_mut(by),
            PropOf::KeyValue(x) => {
                x.key.walk_mut(by);
                walk_expr_at(&mut x.value, &mut x.span, by);
            }
            PropOf::Assign(x) => {
                x.key.walk_mut(by);
                walk_expr_at(&mut x.value, &mut x.span, by);
            }
            PropOf::Getter(x) => {
                x.key.walk_mut(by);
                x.body.walk_mut(by);
                by.span(&mut x.span);
            }
            PropOf::Setter(x) => {
                x.key.walk_mut(by);
                x.param.walk_mut(by);
                x.body.walk_mut(by);
                by.span(&mut x.span);
            }
            PropOf::Method(x) => {
                x.key.walk_mut(by);
                x.function.walk_mut(by);
                by.span(&mut x.span);
            }
        }
    }
}
