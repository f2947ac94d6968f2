// Written by tools/tree/visit.py from tools/tree/tree.table. Don't edit this file.
//! Goes over scripts, modules, imports and exports (ECMA-262, 16.1 and 16.2).
ghost use Rattle.tree_nodes.specs.View.{view_program_kind, view_module_item, view_module_decl, view_import_decl, view_export_decl, view_named_export, view_export_default_decl, view_export_default_expr, view_export_all, view_default_decl, view_import_specifier, view_import_named_specifier, view_import_default_specifier, view_import_star_as_specifier, view_export_specifier, view_export_namespace_specifier, view_export_default_specifier, view_export_named_specifier, view_module_export_name};

use crate::kinds::Kind;
use crate::lists::{walk_all, walk_part};
use crate::told::{enter_part, leave_part, tell_one};
use crate::watch::{Inside, Walk, Watch};
use tree_nodes::{
    DefaultDeclOf, ExportAllOf, ExportDeclOf, ExportDefaultDeclOf, ExportDefaultExprOf,
    ExportDefaultSpecifier, ExportNamedSpecifier, ExportNamespaceSpecifier, ExportSpecifier,
    ImportDeclOf, ImportDefaultSpecifier, ImportNamedSpecifier, ImportSpecifier,
    ImportStarAsSpecifier, ModuleDeclOf, ModuleExportName, ModuleItemOf, NamedExportOf,
    ProgramKindOf,
};

impl<T: Walk> Inside for ProgramKindOf<T> {
    ghost tree = { view_program_kind T.tree };

    fn inside<V: Watch>(&self, visitor: &mut V) {
        match self {
            ProgramKindOf::Script(x) => walk_all(x.body.as_slice(), visitor),
            ProgramKindOf::Module(x) => walk_all(x.body.as_slice(), visitor),
        }
    }
}

impl<T: Walk> Walk for ModuleItemOf<T> {
    ghost tree = { view_module_item T.tree };

    fn walk<V: Watch>(&self, visitor: &mut V) {
        match self {
            ModuleItemOf::ModuleDecl(x) => x.walk(visitor),
            ModuleItemOf::Stmt(x) => x.walk(visitor),
        }
    }
}

impl<T: Walk> Walk for ModuleDeclOf<T> {
    ghost tree = { view_module_decl T.tree };

    fn walk<V: Watch>(&self, visitor: &mut V) {
        match self {
            ModuleDeclOf::Import(x) => x.walk(visitor),
            ModuleDeclOf::ExportDecl(x) => x.walk(visitor),
            ModuleDeclOf::ExportNamed(x) => x.walk(visitor),
            ModuleDeclOf::ExportDefaultDecl(x) => x.walk(visitor),
            ModuleDeclOf::ExportDefaultExpr(x) => x.walk(visitor),
            ModuleDeclOf::ExportAll(x) => x.walk(visitor),
        }
    }
}

impl<T: Walk> Walk for ImportDeclOf<T> {
    ghost tree = { view_import_decl T.tree };

    fn walk<V: Watch>(&self, visitor: &mut V) {
        enter_part(Kind::ImportDecl, self.span, visitor);
        walk_all(self.specifiers.as_slice(), visitor);
        self.src.walk(visitor);
        if let Some(x) = &self.with_ {
            x.walk(visitor);
        }
        leave_part(Kind::ImportDecl, self.span, visitor);
    }
}

impl<T: Walk> Walk for ExportDeclOf<T> {
    ghost tree = { view_export_decl T.tree };

    fn walk<V: Watch>(&self, visitor: &mut V) {
        tell_one(Kind::ExportDecl, self.span, &self.decl, visitor);
    }
}

impl<T: Walk> Walk for NamedExportOf<T> {
    ghost tree = { view_named_export T.tree };

    fn walk<V: Watch>(&self, visitor: &mut V) {
        enter_part(Kind::NamedExport, self.span, visitor);
        walk_all(self.specifiers.as_slice(), visitor);
        if let Some(x) = &self.src {
            x.walk(visitor);
        }
        if let Some(x) = &self.with_ {
            x.walk(visitor);
        }
        leave_part(Kind::NamedExport, self.span, visitor);
    }
}

impl<T: Walk> Walk for ExportDefaultDeclOf<T> {
    ghost tree = { view_export_default_decl T.tree };

    fn walk<V: Watch>(&self, visitor: &mut V) {
        tell_one(Kind::ExportDefaultDecl, self.span, &self.decl, visitor);
    }
}

impl<T: Walk> Walk for ExportDefaultExprOf<T> {
    ghost tree = { view_export_default_expr T.tree };

    fn walk<V: Watch>(&self, visitor: &mut V) {
        tell_one(Kind::ExportDefaultExpr, self.span, &self.expr, visitor);
    }
}

impl<T: Walk> Walk for ExportAllOf<T> {
    ghost tree = { view_export_all T.tree };

    fn walk<V: Watch>(&self, visitor: &mut V) {
        enter_part(Kind::ExportAll, self.span, visitor);
        self.src.walk(visitor);
        if let Some(x) = &self.with_ {
            x.walk(visitor);
        }
        leave_part(Kind::ExportAll, self.span, visitor);
    }
}

impl<T: Walk> Walk for DefaultDeclOf<T> {
    ghost tree = { view_default_decl T.tree };

    fn walk<V: Watch>(&self, visitor: &mut V) {
        match self {
            DefaultDeclOf::Class(x) => x.walk(visitor),
            DefaultDeclOf::Fn(x) => x.walk(visitor),
        }
    }
}

impl Walk for ImportSpecifier {
    ghost tree = { view_import_specifier };

    fn walk<V: Watch>(&self, visitor: &mut V) {
        match self {
            ImportSpecifier::Named(x) => x.walk(visitor),
            ImportSpecifier::Default(x) => x.walk(visitor),
            ImportSpecifier::Namespace(x) => x.walk(visitor),
        }
    }
}

impl Walk for ImportNamedSpecifier {
    ghost tree = { view_import_named_specifier };

    fn walk<V: Watch>(&self, visitor: &mut V) {
        enter_part(Kind::ImportNamedSpecifier, self.span, visitor);
        self.local.walk(visitor);
        walk_part(&self.imported, visitor);
        leave_part(Kind::ImportNamedSpecifier, self.span, visitor);
    }
}

impl Walk for ImportDefaultSpecifier {
    ghost tree = { view_import_default_specifier };

    fn walk<V: Watch>(&self, visitor: &mut V) {
        tell_one(
            Kind::ImportDefaultSpecifier,
            self.span,
            &self.local,
            visitor,
        );
    }
}

impl Walk for ImportStarAsSpecifier {
    ghost tree = { view_import_star_as_specifier };

    fn walk<V: Watch>(&self, visitor: &mut V) {
        tell_one(Kind::ImportStarAsSpecifier, self.span, &self.local, visitor);
    }
}

impl Walk for ExportSpecifier {
    ghost tree = { view_export_specifier };

    fn walk<V: Watch>(&self, visitor: &mut V) {
        match self {
            ExportSpecifier::Namespace(x) => x.walk(visitor),
            ExportSpecifier::Default(x) => x.walk(visitor),
            ExportSpecifier::Named(x) => x.walk(visitor),
        }
    }
}

impl Walk for ExportNamespaceSpecifier {
    ghost tree = { view_export_namespace_specifier };

    fn walk<V: Watch>(&self, visitor: &mut V) {
        tell_one(
            Kind::ExportNamespaceSpecifier,
            self.span,
            &self.name,
            visitor,
        );
    }
}

impl Walk for ExportDefaultSpecifier {
    ghost tree = { view_export_default_specifier };

    fn walk<V: Watch>(&self, visitor: &mut V) {
        tell_one(
            Kind::ExportDefaultSpecifier,
            self.span,
            &self.exported,
            visitor,
        );
    }
}

impl Walk for ExportNamedSpecifier {
    ghost tree = { view_export_named_specifier };

    fn walk<V: Watch>(&self, visitor: &mut V) {
        enter_part(Kind::ExportNamedSpecifier, self.span, visitor);
        self.orig.walk(visitor);
        walk_part(&self.exported, visitor);
        leave_part(Kind::ExportNamedSpecifier, self.span, visitor);
    }
}

impl Walk for ModuleExportName {
    ghost tree = { view_module_export_name };

    fn walk<V: Watch>(&self, visitor: &mut V) {
        match self {
            ModuleExportName::Ident(x) => x.walk(visitor),
            ModuleExportName::Str(x) => x.walk(visitor),
        }
    }
}
