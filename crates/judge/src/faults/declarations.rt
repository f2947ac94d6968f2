//! Declarations (ECMA-262, 14.3, 15.2 and 15.7).
ghost use Rattle.tree_nodes.specs.View.{view_decl, view_class_decl, view_fn_decl, view_var_decl, view_using_decl, view_var_declarator};

use crate::base::Code;
use crate::faults::check::{Check, Held};
use crate::faults::inits::{bad_using, unset, unset_using};
use crate::faults::names::evil;
use base_token::Error;
use std::alloc::AllocError;
use tree_nodes::{
    ClassDeclOf, DeclOf, FnDeclOf, UsingDeclOf, VarDeclKind, VarDeclOf, VarDeclaratorOf,
};

impl<T: Held> Check for DeclOf<T> {
    ghost tree = { view_decl T.tree };

    fn check(&self, code: Code<'_>, faults: &mut Vec<Error>) -> Result<(), AllocError> {
        match self {
            DeclOf::Class(x) => x.check(code, faults),
            DeclOf::Fn(x) => x.check(code, faults),
            DeclOf::Var(x) => x.check(code, faults),
            DeclOf::Using(x) => x.check(code, faults),
        }
    }
}

impl<T: Held> Check for ClassDeclOf<T> {
    ghost tree = { view_class_decl T.tree };

    fn check(&self, code: Code<'_>, faults: &mut Vec<Error>) -> Result<(), AllocError> {
        let inside = code.strictly();
        evil(&self.ident, inside, faults)?;
        self.ident.check(inside, faults)?;
        self.class.check(inside, faults)?;
        Ok(())
    }
}

impl<T: Held> Check for FnDeclOf<T> {
    ghost tree = { view_fn_decl T.tree };

    fn check(&self, code: Code<'_>, faults: &mut Vec<Error>) -> Result<(), AllocError> {
        evil(&self.ident, code, faults)?;
        self.ident.check(code.as_function(), faults)?;
        self.function.check(code.as_function(), faults)
    }
}

impl<T: Held> Check for VarDeclOf<T> {
    ghost tree = { view_var_decl T.tree };

    fn check(&self, code: Code<'_>, faults: &mut Vec<Error>) -> Result<(), AllocError> {
        if !code.heads {
            unset(
                self.kind == VarDeclKind::Const,
                self.decls.as_slice(),
                faults,
            )?;
        }
        self.decls.check(code.past_head(), faults)
    }
}

impl<T: Held> Check for UsingDeclOf<T> {
    ghost tree = { view_using_decl T.tree };

    fn check(&self, code: Code<'_>, faults: &mut Vec<Error>) -> Result<(), AllocError> {
        bad_using(self.decls.as_slice(), faults)?;
        if !code.heads {
            unset_using(self.decls.as_slice(), faults)?;
        }
        self.decls.check(code.past_head(), faults)
    }
}

impl<T: Held> Check for VarDeclaratorOf<T> {
    ghost tree = { view_var_declarator T.tree };

    fn check(&self, code: Code<'_>, faults: &mut Vec<Error>) -> Result<(), AllocError> {
        self.name.check(code, faults)?;
        self.init.check(code, faults)
    }
}
