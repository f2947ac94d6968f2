// Written by tools/tree/same.py from tools/tree/tree.table. Don't edit this file.
//! Whether scripts, modules, imports and exports (ECMA-262, 16.1 and 16.2) say the same.
ghost use Rattle.tree_nodes.specs.View.{view_program_kind, view_script, view_module, view_module_item, view_module_decl, view_import_decl, view_export_decl, view_named_export, view_export_default_decl, view_export_default_expr, view_export_all, view_default_decl, view_import_specifier, view_import_named_specifier, view_import_default_specifier, view_import_star_as_specifier, view_export_specifier, view_export_namespace_specifier, view_export_default_specifier, view_export_named_specifier, view_module_export_name};

use crate::parts::{Held, Present, Same};
use crate::texts::same_hashbang;
use tree_nodes::{
    DefaultDeclOf, ExportAllOf, ExportDeclOf, ExportDefaultDeclOf, ExportDefaultExprOf,
    ExportDefaultSpecifier, ExportNamedSpecifier, ExportNamespaceSpecifier, ExportSpecifier,
    ImportDeclOf, ImportDefaultSpecifier, ImportNamedSpecifier, ImportSpecifier,
    ImportStarAsSpecifier, ModuleDeclOf, ModuleExportName, ModuleItemOf, ModuleOf, NamedExportOf,
    ProgramKindOf, ScriptOf,
};

impl<T: Held> Same for ProgramKindOf<T> {
    ghost tree = { view_program_kind T.tree };

    #[tactic(auto, using(crate::proofs::Apart::program_kind_apart))]
    fn same(&self, other: &ProgramKindOf<T>) -> bool {
        match (self, other) {
            (ProgramKindOf::Script(x), ProgramKindOf::Script(y)) => x.same(y),
            (ProgramKindOf::Module(x), ProgramKindOf::Module(y)) => x.same(y),
            _ => false,
        }
    }
}

impl<T: Held> Same for ScriptOf<T> {
    ghost tree = { view_script T.tree };

    #[tactic(auto, using(crate::proofs::Rules::script_rule))]
    fn same(&self, other: &ScriptOf<T>) -> bool {
        self.body.same(&other.body) && same_hashbang(&self.shebang, &other.shebang)
    }
}

impl<T: Held> Same for ModuleOf<T> {
    ghost tree = { view_module T.tree };

    #[tactic(auto, using(crate::proofs::Rules::es_module_rule))]
    fn same(&self, other: &ModuleOf<T>) -> bool {
        self.body.same(&other.body) && same_hashbang(&self.shebang, &other.shebang)
    }
}

impl<T: Held> Same for ModuleItemOf<T> {
    ghost tree = { view_module_item T.tree };

    #[tactic(auto, using(crate::proofs::Mixed::module_item_cases))]
    fn same(&self, other: &ModuleItemOf<T>) -> bool {
        match (self, other) {
            (ModuleItemOf::ModuleDecl(x), ModuleItemOf::ModuleDecl(y)) => x.same(y),
            (ModuleItemOf::Stmt(x), ModuleItemOf::Stmt(y)) => x.same(y),
            // For the proof: a part is always a node; the calls bring that fact.
            (ModuleItemOf::Stmt(x), _) => !x.part.is_node(),
            (_, ModuleItemOf::Stmt(y)) => !y.part.is_node(),
        }
    }
}

impl<T: Held> Same for ModuleDeclOf<T> {
    ghost tree = { view_module_decl T.tree };

    #[tactic(auto, using(crate::proofs::Apart::module_decl_apart))]
    fn same(&self, other: &ModuleDeclOf<T>) -> bool {
        match (self, other) {
            (ModuleDeclOf::Import(x), ModuleDeclOf::Import(y)) => x.same(y),
            (ModuleDeclOf::ExportDecl(x), ModuleDeclOf::ExportDecl(y)) => x.same(y),
            (ModuleDeclOf::ExportNamed(x), ModuleDeclOf::ExportNamed(y)) => x.same(y),
            (ModuleDeclOf::ExportDefaultDecl(x), ModuleDeclOf::ExportDefaultDecl(y)) => x.same(y),
            (ModuleDeclOf::ExportDefaultExpr(x), ModuleDeclOf::ExportDefaultExpr(y)) => x.same(y),
            (ModuleDeclOf::ExportAll(x), ModuleDeclOf::ExportAll(y)) => x.same(y),
            _ => false,
        }
    }
}

impl<T: Held> Same for ImportDeclOf<T> {
    ghost tree = { view_import_decl T.tree };

    #[tactic(auto, using(crate::proofs::Rules::import_decl_rule))]
    fn same(&self, other: &ImportDeclOf<T>) -> bool {
        self.specifiers.same(&other.specifiers)
            && self.src.same(&other.src)
            && self.with_.same(&other.with_)
    }
}

impl<T: Held> Same for ExportDeclOf<T> {
    ghost tree = { view_export_decl T.tree };

    #[tactic(auto, using(crate::proofs::Rules::export_decl_rule))]
    fn same(&self, other: &ExportDeclOf<T>) -> bool {
        self.decl.same(&other.decl)
    }
}

impl<T: Held> Same for NamedExportOf<T> {
    ghost tree = { view_named_export T.tree };

    #[tactic(auto, using(crate::proofs::Rules::named_export_rule))]
    fn same(&self, other: &NamedExportOf<T>) -> bool {
        self.specifiers.same(&other.specifiers)
            && self.src.same(&other.src)
            && self.with_.same(&other.with_)
    }
}

impl<T: Held> Same for ExportDefaultDeclOf<T> {
    ghost tree = { view_export_default_decl T.tree };

    #[tactic(auto, using(crate::proofs::Rules::export_default_decl_rule))]
    fn same(&self, other: &ExportDefaultDeclOf<T>) -> bool {
        self.decl.same(&other.decl)
    }
}

impl<T: Held> Same for ExportDefaultExprOf<T> {
    ghost tree = { view_export_default_expr T.tree };

    #[tactic(auto, using(crate::proofs::Rules::export_default_expr_rule))]
    fn same(&self, other: &ExportDefaultExprOf<T>) -> bool {
        self.expr.same(&other.expr)
    }
}

impl<T: Held> Same for ExportAllOf<T> {
    ghost tree = { view_export_all T.tree };

    #[tactic(auto, using(crate::proofs::Rules::export_all_rule))]
    fn same(&self, other: &ExportAllOf<T>) -> bool {
        self.src.same(&other.src) && self.with_.same(&other.with_)
    }
}

impl<T: Held> Same for DefaultDeclOf<T> {
    ghost tree = { view_default_decl T.tree };

    #[tactic(auto, using(crate::proofs::Apart::default_decl_apart))]
    fn same(&self, other: &DefaultDeclOf<T>) -> bool {
        match (self, other) {
            (DefaultDeclOf::Class(x), DefaultDeclOf::Class(y)) => x.same(y),
            (DefaultDeclOf::Fn(x), DefaultDeclOf::Fn(y)) => x.same(y),
            _ => false,
        }
    }
}

impl Same for ImportSpecifier {
    ghost tree = { view_import_specifier };

    #[tactic(auto, using(crate::proofs::Apart::import_specifier_apart))]
    fn same(&self, other: &ImportSpecifier) -> bool {
        match (self, other) {
            (ImportSpecifier::Named(x), ImportSpecifier::Named(y)) => x.same(y),
            (ImportSpecifier::Default(x), ImportSpecifier::Default(y)) => x.same(y),
            (ImportSpecifier::Namespace(x), ImportSpecifier::Namespace(y)) => x.same(y),
            _ => false,
        }
    }
}

impl Same for ImportNamedSpecifier {
    ghost tree = { view_import_named_specifier };

    #[tactic(auto, using(crate::proofs::Rules::import_named_specifier_rule))]
    fn same(&self, other: &ImportNamedSpecifier) -> bool {
        self.local.same(&other.local) && self.imported.same(&other.imported)
    }
}

impl Same for ImportDefaultSpecifier {
    ghost tree = { view_import_default_specifier };

    #[tactic(auto, using(crate::proofs::Rules::import_default_specifier_rule))]
    fn same(&self, other: &ImportDefaultSpecifier) -> bool {
        self.local.same(&other.local)
    }
}

impl Same for ImportStarAsSpecifier {
    ghost tree = { view_import_star_as_specifier };

    #[tactic(auto, using(crate::proofs::Rules::import_star_as_specifier_rule))]
    fn same(&self, other: &ImportStarAsSpecifier) -> bool {
        self.local.same(&other.local)
    }
}

impl Same for ExportSpecifier {
    ghost tree = { view_export_specifier };

    #[tactic(auto, using(crate::proofs::Apart::export_specifier_apart))]
    fn same(&self, other: &ExportSpecifier) -> bool {
        match (self, other) {
            (ExportSpecifier::Namespace(x), ExportSpecifier::Namespace(y)) => x.same(y),
            (ExportSpecifier::Default(x), ExportSpecifier::Default(y)) => x.same(y),
            (ExportSpecifier::Named(x), ExportSpecifier::Named(y)) => x.same(y),
            _ => false,
        }
    }
}

impl Same for ExportNamespaceSpecifier {
    ghost tree = { view_export_namespace_specifier };

    #[tactic(auto, using(crate::proofs::Rules::export_namespace_specifier_rule))]
    fn same(&self, other: &ExportNamespaceSpecifier) -> bool {
        self.name.same(&other.name)
    }
}

impl Same for ExportDefaultSpecifier {
    ghost tree = { view_export_default_specifier };

    #[tactic(auto, using(crate::proofs::Rules::export_default_specifier_rule))]
    fn same(&self, other: &ExportDefaultSpecifier) -> bool {
        self.exported.same(&other.exported)
    }
}

impl Same for ExportNamedSpecifier {
    ghost tree = { view_export_named_specifier };

    #[tactic(auto, using(crate::proofs::Rules::export_named_specifier_rule))]
    fn same(&self, other: &ExportNamedSpecifier) -> bool {
        self.orig.same(&other.orig) && self.exported.same(&other.exported)
    }
}

impl Same for ModuleExportName {
    ghost tree = { view_module_export_name };

    #[tactic(auto, using(crate::proofs::Apart::module_export_name_apart))]
    fn same(&self, other: &ModuleExportName) -> bool {
        match (self, other) {
            (ModuleExportName::Ident(x), ModuleExportName::Ident(y)) => x.same(y),
            (ModuleExportName::Str(x), ModuleExportName::Str(y)) => x.same(y),
            _ => false,
        }
    }
}

impl Present for ModuleExportName {
    fn is_left_out(&self) -> bool {
        // For the proof: the match shows which it is, and by it none is left out.
        match self {
            ModuleExportName::Ident(_) => false,
            ModuleExportName::Str(_) => false,
        }
    }
}
