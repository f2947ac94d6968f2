// Written by tools/tree/goal.py from tools/tree/tree.table. Don't edit this file.
//! What tells of a module in declarations (ECMA-262, 14.3, 15.2 and 15.7).
ghost use Rattle.tree_nodes.specs.View.{view_decl, view_class_decl, view_var_decl, view_using_decl, view_var_declarator};

use crate::parts::Tells;
use tree_nodes::{ClassDeclOf, DeclOf, UsingDeclOf, VarDeclOf, VarDeclaratorOf};

impl<T: Tells> Tells for DeclOf<T> {
    ghost tree = { view_decl T.tree };

    fn tells(&self) -> bool {
        match self {
            DeclOf::Class(x) => x.tells(),
            DeclOf::Var(x) => x.tells(),
            DeclOf::Using(x) => x.tells(),
            DeclOf::Fn(_) => false,
        }
    }
}

impl<T: Tells> Tells for ClassDeclOf<T> {
    ghost tree = { view_class_decl T.tree };

    fn tells(&self) -> bool {
        self.class.tells()
    }
}

impl<T: Tells> Tells for VarDeclOf<T> {
    ghost tree = { view_var_decl T.tree };

    fn tells(&self) -> bool {
        self.decls.tells()
    }
}

impl<T: Tells> Tells for UsingDeclOf<T> {
    ghost tree = { view_using_decl T.tree };

    fn tells(&self) -> bool {
        self.is_await || self.decls.tells()
    }
}

impl<T: Tells> Tells for VarDeclaratorOf<T> {
    ghost tree = { view_var_declarator T.tree };

    fn tells(&self) -> bool {
        self.name.tells() || self.init.tells()
    }
}
