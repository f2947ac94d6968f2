// Written by tools/tree/visit_mut.py from tools/tree/tree.table. Don't edit this file.
//! Changes declarations (ECMA-262, 14.3, 15.2 and 15.7).
ghost use Rattle.tree_nodes.specs.Fits.{fits_decl, fits_var_decl, fits_using_decl, fits_var_declarator};

use crate::walk::{Change, WalkMut, walk_declarators, walk_value_at};
use tree_nodes::{DeclOf, UsingDeclOf, VarDeclOf, VarDeclaratorOf};

impl<T, C: Change<T>> WalkMut<T, C> for DeclOf<T> {
    ghost fits = { λ x. fits_decl C.placed x };

    fn walk_mut(&mut self, by: &mut C) {
        match self {
            DeclOf::Class(x) => {
                x.ident.walk_mut(by);
                x.class.walk_mut(by);
                by.span(&mut x.span);
            }
            DeclOf::Fn(x) => {
                x.ident.walk_mut(by);
                x.function.walk_mut(by);
                by.span(&mut x.span);
            }
            DeclOf::Var(x) => x.walk_mut(by),
            DeclOf::Using(x) => x.walk_mut(by),
        }
    }
}

impl<T, C: Change<T>> WalkMut<T, C> for VarDeclOf<T> {
    ghost fits = { λ x. fits_var_decl C.placed x };

    fn walk_mut(&mut self, by: &mut C) {
        walk_declarators(&mut self.decls, by);
        by.span(&mut self.span);
    }
}

impl<T, C: Change<T>> WalkMut<T, C> for UsingDeclOf<T> {
    ghost fits = { λ x. fits_using_decl C.placed x };

    fn walk_mut(&mut self, by: &mut C) {
        walk_declarators(&mut self.decls, by);
        by.span(&mut self.span);
    }
}

impl<T, C: Change<T>> WalkMut<T, C> for VarDeclaratorOf<T> {
    ghost fits = { λ x. fits_var_declarator C.placed x };

    fn walk_mut(&mut self, by: &mut C) {
        self.name.walk_mut(by);
        walk_value_at(&mut self.init, &mut self.span, by);
    }
}
