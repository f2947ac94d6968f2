// Written by tools/tree/nesting.py from tools/tree/tree.table. Don't edit this file.
//! How deep scripts, modules, imports and exports (ECMA-262, 16.1 and 16.2) go.
ghost use Rattle.tree_nodes.specs.View.{view_program_kind, view_script, view_module, view_module_item, view_module_decl, view_import_decl, view_export_decl, view_named_export, view_export_default_decl, view_export_default_expr, view_export_all, view_default_decl, view_import_specifier, view_import_named_specifier, view_import_default_specifier, view_import_star_as_specifier, view_export_specifier, view_export_namespace_specifier, view_export_default_specifier, view_export_named_specifier, view_module_export_name};

use crate::counts::{Held, Nesting, above};
use tree_nodes::{
    DefaultDeclOf, ExportAllOf, ExportDeclOf, ExportDefaultDeclOf, ExportDefaultExprOf,
    ExportDefaultSpecifier, ExportNamedSpecifier, ExportNamespaceSpecifier, ExportSpecifier,
    ImportDeclOf, ImportDefaultSpecifier, ImportNamedSpecifier, ImportSpecifier,
    ImportStarAsSpecifier, ModuleDeclOf, ModuleExportName, ModuleItemOf, ModuleOf, NamedExportOf,
    ProgramKindOf, ScriptOf,
};

impl<T: Held> Nesting for ProgramKindOf<T> {
    ghost tree = { view_program_kind T.tree };

    fn nesting(&self) -> u32 {
        match self {
            ProgramKindOf::Script(x) => x.nesting(),
            ProgramKindOf::Module(x) => x.nesting(),
        }
    }
}

impl<T: Held> Nesting for ScriptOf<T> {
    ghost tree = { view_script T.tree };

    fn nesting(&self) -> u32 {
        above(self.body.nesting())
    }
}

impl<T: Held> Nesting for ModuleOf<T> {
    ghost tree = { view_module T.tree };

    fn nesting(&self) -> u32 {
        above(self.body.nesting())
    }
}

impl<T: Held> Nesting for ModuleItemOf<T> {
    ghost tree = { view_module_item T.tree };

    fn nesting(&self) -> u32 {
        match self {
            ModuleItemOf::ModuleDecl(x) => x.nesting(),
            ModuleItemOf::Stmt(x) => x.nesting(),
        }
    }
}

impl<T: Held> Nesting for ModuleDeclOf<T> {
    ghost tree = { view_module_decl T.tree };

    fn nesting(&self) -> u32 {
        match self {
            ModuleDeclOf::Import(x) => x.nesting(),
            ModuleDeclOf::ExportDecl(x) => x.nesting(),
            ModuleDeclOf::ExportNamed(x) => x.nesting(),
            ModuleDeclOf::ExportDefaultDecl(x) => x.nesting(),
            ModuleDeclOf::ExportDefaultExpr(x) => x.nesting(),
            ModuleDeclOf::ExportAll(x) => x.nesting(),
        }
    }
}

impl<T: Held> Nesting for ImportDeclOf<T> {
    ghost tree = { view_import_decl T.tree };

    fn nesting(&self) -> u32 {
        let specifiers = self.specifiers.nesting();
        let src = self.src.nesting();
        let with_ = self.with_.nesting();
        above(specifiers.max(src).max(with_))
    }
}

impl<T: Held> Nesting for ExportDeclOf<T> {
    ghost tree = { view_export_decl T.tree };

    fn nesting(&self) -> u32 {
        above(self.decl.nesting())
    }
}

impl<T: Held> Nesting for NamedExportOf<T> {
    ghost tree = { view_named_export T.tree };

    fn nesting(&self) -> u32 {
        let specifiers = self.specifiers.nesting();
        let src = self.src.nesting();
        let with_ = self.with_.nesting();
        above(specifiers.max(src).max(with_))
    }
}

impl<T: Held> Nesting for ExportDefaultDeclOf<T> {
    ghost tree = { view_export_default_decl T.tree };

    fn nesting(&self) -> u32 {
        above(self.decl.nesting())
    }
}

impl<T: Held> Nesting for ExportDefaultExprOf<T> {
    ghost tree = { view_export_default_expr T.tree };

    fn nesting(&self) -> u32 {
        above(self.expr.nesting())
    }
}

impl<T: Held> Nesting for ExportAllOf<T> {
    ghost tree = { view_export_all T.tree };

    fn nesting(&self) -> u32 {
        above(self.src.nesting().max(self.with_.nesting()))
    }
}

impl<T: Held> Nesting for DefaultDeclOf<T> {
    ghost tree = { view_default_decl T.tree };

    fn nesting(&self) -> u32 {
        match self {
            DefaultDeclOf::Class(x) => x.nesting(),
            DefaultDeclOf::Fn(x) => x.nesting(),
        }
    }
}

impl Nesting for ImportSpecifier {
    ghost tree = { view_import_specifier };

    fn nesting(&self) -> u32 {
        match self {
            ImportSpecifier::Named(x) => x.nesting(),
            ImportSpecifier::Default(x) => x.nesting(),
            ImportSpecifier::Namespace(x) => x.nesting(),
        }
    }
}

impl Nesting for ImportNamedSpecifier {
    ghost tree = { view_import_named_specifier };

    fn nesting(&self) -> u32 {
        above(self.local.nesting().max(self.imported.nesting()))
    }
}

impl Nesting for ImportDefaultSpecifier {
    ghost tree = { view_import_default_specifier };

    fn nesting(&self) -> u32 {
        above(self.local.nesting())
    }
}

impl Nesting for ImportStarAsSpecifier {
    ghost tree = { view_import_star_as_specifier };

    fn nesting(&self) -> u32 {
        above(self.local.nesting())
    }
}

impl Nesting for ExportSpecifier {
    ghost tree = { view_export_specifier };

    fn nesting(&self) -> u32 {
        match self {
            ExportSpecifier::Namespace(x) => x.nesting(),
            ExportSpecifier::Default(x) => x.nesting(),
            ExportSpecifier::Named(x) => x.nesting(),
        }
    }
}

impl Nesting for ExportNamespaceSpecifier {
    ghost tree = { view_export_namespace_specifier };

    fn nesting(&self) -> u32 {
        above(self.name.nesting())
    }
}

impl Nesting for ExportDefaultSpecifier {
    ghost tree = { view_export_default_specifier };

    fn nesting(&self) -> u32 {
        above(self.exported.nesting())
    }
}

impl Nesting for ExportNamedSpecifier {
    ghost tree = { view_export_named_specifier };

    fn nesting(&self) -> u32 {
        above(self.orig.nesting().max(self.exported.nesting()))
    }
}

impl Nesting for ModuleExportName {
    ghost tree = { view_module_export_name };

    fn nesting(&self) -> u32 {
        match self {
            ModuleExportName::Ident(x) => x.nesting(),
            ModuleExportName::Str(x) => x.nesting(),
        }
    }
}
