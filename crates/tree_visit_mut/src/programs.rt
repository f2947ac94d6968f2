// Written by tools/tree/visit_mut.py from tools/tree/tree.table. Don't edit this file.
//! Changes scripts, modules, imports and exports (ECMA-262, 16.1 and 16.2).
ghost use Rattle.tree_nodes.specs.Fits.{fits_program_kind, fits_module_item, fits_module_decl, fits_default_decl};

use crate::walk::{Change, WalkMut, walk_all, walk_expr_at, walk_stmts};
use tree_nodes::{
    DefaultDeclOf, ExportSpecifier, ImportSpecifier, ModuleDeclOf, ModuleExportName, ModuleItemOf,
    ProgramKindOf,
};

impl<T, C: Change<T>> WalkMut<T, C> for ProgramKindOf<T> {
    ghost fits = { λ x. fits_program_kind C.placed x };

    fn walk_mut(&mut self, by: &mut C) {
        match self {
            ProgramKindOf::Script(x) => {
                walk_stmts(&mut x.body, by);
                by.span(&mut x.span);
            }
            ProgramKindOf::Module(x) => {
                walk_all(&mut x.body, by);
                by.span(&mut x.span);
            }
        }
    }
}

impl<T, C: Change<T>> WalkMut<T, C> for ModuleItemOf<T> {
    ghost fits = { λ x. fits_module_item C.placed x };

    fn walk_mut(&mut self, by: &mut C) {
        match self {
            ModuleItemOf::ModuleDecl(x) => x.walk_mut(by),
            ModuleItemOf::Stmt(x) => x.walk_mut(by),
        }
    }
}

impl<T, C: Change<T>> WalkMut<T, C> for ModuleDeclOf<T> {
    ghost fits = { λ x. fits_module_decl C.placed x };

    fn walk_mut(&mut self, by: &mut C) {
        match self {
            ModuleDeclOf::Import(x) => {
                walk_all(&mut x.specifiers, by);
                x.src.walk_mut(by);
                if let Some(part) = &mut x.with_ {
                    part.walk_mut(by);
                }
                by.span(&mut x.span);
            }
            ModuleDeclOf::ExportDecl(x) => {
                x.decl.walk_mut(by);
                by.span(&mut x.span);
            }
            ModuleDeclOf::ExportNamed(x) => {
                walk_all(&mut x.specifiers, by);
                if let Some(part) = &mut x.src {
                    part.walk_mut(by);
                }
                if let Some(part) = &mut x.with_ {
                    part.walk_mut(by);
                }
                by.span(&mut x.span);
            }
            ModuleDeclOf::ExportDefaultDecl(x) => {
                x.decl.walk_mut(by);
                by.span(&mut x.span);
            }
            ModuleDeclOf::ExportDefaultExpr(x) => walk_expr_at(&mut x.expr, &mut x.span, by),
            ModuleDeclOf::ExportAll(x) => {
                x.src.walk_mut(by);
                if let Some(part) = &mut x.with_ {
                    part.walk_mut(by);
                }
                by.span(&mut x.span);
            }
        }
    }
}

impl<T, C: Change<T>> WalkMut<T, C> for DefaultDeclOf<T> {
    ghost fits = { λ x. fits_default_decl C.placed x };

    fn walk_mut(&mut self, by: &mut C) {
        match self {
            DefaultDeclOf::Class(x) => x.walk_mut(by),
            DefaultDeclOf::Fn(x) => x.walk_mut(by),
        }
    }
}

impl<T, C: Change<T>> WalkMut<T, C> for ImportSpecifier {
    ghost fits = { λ _. Unit {0} };

    fn walk_mut(&mut self, by: &mut C) {
        match self {
            ImportSpecifier::Named(x) => {
                x.local.walk_mut(by);
                if let Some(part) = &mut x.imported {
                    part.walk_mut(by);
                }
                by.span(&mut x.span);
            }
            ImportSpecifier::Default(x) => {
                x.local.walk_mut(by);
                by.span(&mut x.span);
            }
            ImportSpecifier::Namespace(x) => {
                x.local.walk_mut(by);
                by.span(&mut x.span);
            }
        }
    }
}

impl<T, C: Change<T>> WalkMut<T, C> for ExportSpecifier {
    ghost fits = { λ _. Unit {0} };

    fn walk_mut(&mut self, by: &mut C) {
        match self {
            ExportSpecifier::Namespace(x) => {
                x.name.walk_mut(by);
                by.span(&mut x.span);
            }
            ExportSpecifier::Default(x) => {
                x.exported.walk_mut(by);
                by.span(&mut x.span);
            }
            ExportSpecifier::Named(x) => {
                x.orig.walk_mut(by);
                if let Some(part) = &mut x.exported {
                    part.walk_mut(by);
                }
                by.span(&mut x.span);
            }
        }
    }
}

impl<T, C: Change<T>> WalkMut<T, C> for ModuleExportName {
    ghost fits = { λ _. Unit {0} };

    fn walk_mut(&mut self, by: &mut C) {
        match self {
            ModuleExportName::Ident(x) => x.walk_mut(by),
            ModuleExportName::Str(x) => x.walk_mut(by),
        }
    }
}
