// Written by tools/tree/same.py from tools/tree/tree.table. Don't edit this file.
//! Whether declarations (ECMA-262, 14.3, 15.2 and 15.7) say the same.
ghost use Rattle.tree_nodes.specs.View.{view_decl, view_class_decl, view_fn_decl, view_var_decl, view_using_decl, view_var_declarator};

use crate::parts::{Held, Same};
use crate::words::same_var_decl_kind;
use tree_nodes::{ClassDeclOf, DeclOf, FnDeclOf, UsingDeclOf, VarDeclOf, VarDeclaratorOf};

impl<T: Held> Same for DeclOf<T> {
    ghost tree = { view_decl T.tree };

    #[tactic(auto, using(crate::proofs::Apart::decl_apart))]
    fn same(&self, other: &DeclOf<T>) -> bool {
        match (self, other) {
            (DeclOf::Class(x), DeclOf::Class(y)) => x.same(y),
            (DeclOf::Fn(x), DeclOf::Fn(y)) => x.same(y),
            (DeclOf::Var(x), DeclOf::Var(y)) => x.same(y),
            (DeclOf::Using(x), DeclOf::Using(y)) => x.same(y),
            _ => false,
        }
    }
}

impl<T: Held> Same for ClassDeclOf<T> {
    ghost tree = { view_class_decl T.tree };

    #[tactic(auto, using(crate::proofs::Rules::class_decl_rule))]
    fn same(&self, other: &ClassDeclOf<T>) -> bool {
        self.ident.same(&other.ident) && self.class.same(&other.class)
    }
}

impl<T: Held> Same for FnDeclOf<T> {
    ghost tree = { view_fn_decl T.tree };

    #[tactic(auto, using(crate::proofs::Rules::fn_decl_rule))]
    fn same(&self, other: &FnDeclOf<T>) -> bool {
        self.ident.same(&other.ident) && self.function.same(&other.function)
    }
}

impl<T: Held> Same for VarDeclOf<T> {
    ghost tree = { view_var_decl T.tree };

    #[tactic(auto, using(crate::proofs::Rules::var_decl_rule))]
    fn same(&self, other: &VarDeclOf<T>) -> bool {
        same_var_decl_kind(self.kind, other.kind) && self.decls.same(&other.decls)
    }
}

impl<T: Held> Same for UsingDeclOf<T> {
    ghost tree = { view_using_decl T.tree };

    #[tactic(auto, using(crate::proofs::Rules::using_decl_rule))]
    fn same(&self, other: &UsingDeclOf<T>) -> bool {
        self.is_await == other.is_await && self.decls.same(&other.decls)
    }
}

impl<T: Held> Same for VarDeclaratorOf<T> {
    ghost tree = { view_var_declarator T.tree };

    #[tactic(auto, using(crate::proofs::Rules::var_declarator_rule))]
    fn same(&self, other: &VarDeclaratorOf<T>) -> bool {
        self.name.same(&other.name) && self.init.same(&other.init)
    }
}
