// Written by tools/tree/visit.py from tools/tree/tree.table. Don't edit this file.
//! Goes over declarations (ECMA-262, 14.3, 15.2 and 15.7).
ghost use Rattle.tree_nodes.specs.View.{view_decl, view_class_decl, view_fn_decl, view_var_decl, view_using_decl, view_var_declarator};

use crate::kinds::Kind;
use crate::lists::{walk_all, walk_part, walk_two};
use crate::told::{enter_part, leave_part, tell_list, tell_two};
use crate::watch::{Inside, Walk, Watch};
use tree_nodes::{ClassDeclOf, DeclOf, FnDeclOf, UsingDeclOf, VarDeclOf, VarDeclaratorOf};

impl<T: Walk> Inside for DeclOf<T> {
    ghost tree = { view_decl T.tree };

    fn inside<V: Watch>(&self, visitor: &mut V) {
        match self {
            DeclOf::Class(x) => walk_two(&x.ident, &*x.class, visitor),
            DeclOf::Fn(x) => walk_two(&x.ident, &*x.function, visitor),
            DeclOf::Var(x) => walk_all(x.decls.as_slice(), visitor),
            DeclOf::Using(x) => walk_all(x.decls.as_slice(), visitor),
        }
    }
}

impl<T: Walk> Walk for DeclOf<T> {
    ghost tree = { view_decl T.tree };

    fn walk<V: Watch>(&self, visitor: &mut V) {
        match self {
            DeclOf::Class(x) => x.walk(visitor),
            DeclOf::Fn(x) => x.walk(visitor),
            DeclOf::Var(x) => x.walk(visitor),
            DeclOf::Using(x) => x.walk(visitor),
        }
    }
}

impl<T: Walk> Walk for ClassDeclOf<T> {
    ghost tree = { view_class_decl T.tree };

    fn walk<V: Watch>(&self, visitor: &mut V) {
        tell_two(
            Kind::ClassDecl,
            self.span,
            &self.ident,
            &*self.class,
            visitor,
        );
    }
}

impl<T: Walk> Walk for FnDeclOf<T> {
    ghost tree = { view_fn_decl T.tree };

    fn walk<V: Watch>(&self, visitor: &mut V) {
        tell_two(
            Kind::FnDecl,
            self.span,
            &self.ident,
            &*self.function,
            visitor,
        );
    }
}

impl<T: Walk> Walk for VarDeclOf<T> {
    ghost tree = { view_var_decl T.tree };

    fn walk<V: Watch>(&self, visitor: &mut V) {
        tell_list(Kind::VarDecl, self.span, self.decls.as_slice(), visitor);
    }
}

impl<T: Walk> Walk for UsingDeclOf<T> {
    ghost tree = { view_using_decl T.tree };

    fn walk<V: Watch>(&self, visitor: &mut V) {
        tell_list(Kind::UsingDecl, self.span, self.decls.as_slice(), visitor);
    }
}

impl<T: Walk> Walk for VarDeclaratorOf<T> {
    ghost tree = { view_var_declarator T.tree };

    fn walk<V: Watch>(&self, visitor: &mut V) {
        enter_part(Kind::VarDeclarator, self.span, visitor);
        self.name.walk(visitor);
        walk_part(&self.init, visitor);
        leave_part(Kind::VarDeclarator, self.span, visitor);
    }
}
