// Written by tools/tree/nesting.py from tools/tree/tree.table. Don't edit this file.
//! How deep declarations (ECMA-262, 14.3, 15.2 and 15.7) go.
ghost use Rattle.tree_nodes.specs.View.{view_decl, view_class_decl, view_fn_decl, view_var_decl, view_using_decl, view_var_declarator};

use crate::counts::{Held, Nesting, above};
use tree_nodes::{ClassDeclOf, DeclOf, FnDeclOf, UsingDeclOf, VarDeclOf, VarDeclaratorOf};

impl<T: Held> Nesting for DeclOf<T> {
    ghost tree = { view_decl T.tree };

    fn nesting(&self) -> u32 {
        match self {
            DeclOf::Class(x) => x.nesting(),
            DeclOf::Fn(x) => x.nesting(),
            DeclOf::Var(x) => x.nesting(),
            DeclOf::Using(x) => x.nesting(),
        }
    }
}

impl<T: Held> Nesting for ClassDeclOf<T> {
    ghost tree = { view_class_decl T.tree };

    fn nesting(&self) -> u32 {
        above(self.ident.nesting().max(self.class.nesting()))
    }
}

impl<T: Held> Nesting for FnDeclOf<T> {
    ghost tree = { view_fn_decl T.tree };

    fn nesting(&self) -> u32 {
        above(self.ident.nesting().max(self.function.nesting()))
    }
}

impl<T: Held> Nesting for VarDeclOf<T> {
    ghost tree = { view_var_decl T.tree };

    fn nesting(&self) -> u32 {
        above(self.decls.nesting())
    }
}

impl<T: Held> Nesting for UsingDeclOf<T> {
    ghost tree = { view_using_decl T.tree };

    fn nesting(&self) -> u32 {
        above(self.decls.nesting())
    }
}

impl<T: Held> Nesting for VarDeclaratorOf<T> {
    ghost tree = { view_var_declarator T.tree };

    fn nesting(&self) -> u32 {
        above(self.name.nesting().max(self.init.nesting()))
    }
}
