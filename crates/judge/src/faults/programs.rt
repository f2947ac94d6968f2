//! Scripts, modules, imports and exports (ECMA-262, 16.1 and 16.2).
ghost use Rattle.tree_nodes.specs.View.{view_program_kind, view_script, view_module, view_module_item, view_module_decl, view_import_decl, view_export_decl, view_named_export, view_export_default_decl, view_export_default_expr, view_export_all, view_default_decl, view_import_specifier, view_import_named_specifier, view_import_default_specifier, view_import_star_as_specifier, view_export_specifier, view_export_default_specifier, view_module_export_name};
ghost use Rattle.std.specs.Prelude.{◌≡◌, ◌++◌, IfOk};
ghost use Rattle.tree_spec.specs.Tree.{part_by};
ghost use Rattle.grammar_spec.specs.Judge.Early.{export_name};
ghost use Rattle.judge.specs.Base.Around.{scope_of};

use crate::base::Code;
use crate::faults::bodies::{check_statements, top_using};
use crate::faults::check::{Check, Held};
use crate::faults::names::evil;
use base_token::Error;
use std::alloc::AllocError;
use tree_nodes::{
    DefaultDeclOf, ExportAllOf, ExportDeclOf, ExportDefaultDeclOf, ExportDefaultExprOf,
    ExportDefaultSpecifier, ExportSpecifier, ImportDeclOf, ImportDefaultSpecifier,
    ImportNamedSpecifier, ImportSpecifier, ImportStarAsSpecifier, ModuleDeclOf, ModuleExportName,
    ModuleItemOf, ModuleOf, NamedExportOf, ProgramKindOf, ScriptOf,
};

impl<T: Held> Check for ProgramKindOf<T> {
    ghost tree = { view_program_kind T.tree };

    fn check(&self, code: Code<'_>, faults: &mut Vec<Error>) -> Result<(), AllocError> {
        match self {
            ProgramKindOf::Script(x) => x.check(code, faults),
            ProgramKindOf::Module(x) => x.check(code, faults),
        }
    }
}

impl<T: Held> Check for ScriptOf<T> {
    ghost tree = { view_script T.tree };

    fn check(&self, code: Code<'_>, faults: &mut Vec<Error>) -> Result<(), AllocError> {
        top_using(self.body.as_slice(), faults)?;
        check_statements(self.body.as_slice(), code.as_body(), faults)?;
        Ok(())
    }
}

impl<T: Held> Check for ModuleOf<T> {
    ghost tree = { view_module T.tree };

    fn check(&self, code: Code<'_>, faults: &mut Vec<Error>) -> Result<(), AllocError> {
        check_statements(self.body.as_slice(), code.strictly().as_body(), faults)
    }
}

impl<T: Held> Check for ModuleItemOf<T> {
    ghost tree = { view_module_item T.tree };

    fn check(&self, code: Code<'_>, faults: &mut Vec<Error>) -> Result<(), AllocError> {
        match self {
            ModuleItemOf::ModuleDecl(x) => x.check(code, faults),
            ModuleItemOf::Stmt(x) => x.check(code, faults),
        }
    }
}

impl<T: Held> Check for ModuleDeclOf<T> {
    ghost tree = { view_module_decl T.tree };

    fn check(&self, code: Code<'_>, faults: &mut Vec<Error>) -> Result<(), AllocError> {
        match self {
            ModuleDeclOf::Import(x) => x.check(code, faults),
            ModuleDeclOf::ExportDecl(x) => x.check(code, faults),
            ModuleDeclOf::ExportNamed(x) => x.check(code, faults),
            ModuleDeclOf::ExportDefaultDecl(x) => x.check(code, faults),
            ModuleDeclOf::ExportDefaultExpr(x) => x.check(code, faults),
            ModuleDeclOf::ExportAll(x) => x.check(code, faults),
        }
    }
}

impl<T: Held> Check for ImportDeclOf<T> {
    ghost tree = { view_import_decl T.tree };

    fn check(&self, code: Code<'_>, faults: &mut Vec<Error>) -> Result<(), AllocError> {
        self.specifiers.check(code, faults)?;
        self.src.check(code, faults)?;
        self.with_.check(code, faults)?;
        Ok(())
    }
}

impl<T: Held> Check for ExportDeclOf<T> {
    ghost tree = { view_export_decl T.tree };

    fn check(&self, code: Code<'_>, faults: &mut Vec<Error>) -> Result<(), AllocError> {
        self.decl.check(code, faults)
    }
}

impl<T: Held> Check for NamedExportOf<T> {
    ghost tree = { view_named_export T.tree };

    fn check(&self, code: Code<'_>, faults: &mut Vec<Error>) -> Result<(), AllocError> {
        self.specifiers.check(code, faults)?;
        self.src.check(code, faults)?;
        self.with_.check(code, faults)?;
        Ok(())
    }
}

impl<T: Held> Check for ExportDefaultDeclOf<T> {
    ghost tree = { view_export_default_decl T.tree };

    fn check(&self, code: Code<'_>, faults: &mut Vec<Error>) -> Result<(), AllocError> {
        self.decl.check(code, faults)
    }
}

impl<T: Held> Check for ExportDefaultExprOf<T> {
    ghost tree = { view_export_default_expr T.tree };

    fn check(&self, code: Code<'_>, faults: &mut Vec<Error>) -> Result<(), AllocError> {
        self.expr.check(code, faults)
    }
}

impl<T: Held> Check for ExportAllOf<T> {
    ghost tree = { view_export_all T.tree };

    fn check(&self, code: Code<'_>, faults: &mut Vec<Error>) -> Result<(), AllocError> {
        self.src.check(code, faults)?;
        self.with_.check(code, faults)?;
        Ok(())
    }
}

impl<T: Held> Check for DefaultDeclOf<T> {
    ghost tree = { view_default_decl T.tree };

    fn check(&self, code: Code<'_>, faults: &mut Vec<Error>) -> Result<(), AllocError> {
        match self {
            DefaultDeclOf::Class(x) => x.check(code, faults),
            DefaultDeclOf::Fn(x) => x.check(code, faults),
        }
    }
}

/// The faults of a name of an import or an export: those of a string. A word is no name that strict
/// code judges.
fn export_name(
    name: &ModuleExportName,
    code: Code<'_>,
    faults: &mut Vec<Error>,
) -> Result<(), AllocError>
    ensures { IfOk result (λ _. faults.new.items ≡ faults.old.items ++ export_name (view_module_export_name name.now) (scope_of code.entry)) }
{
    match name {
        ModuleExportName::Ident(_) => Ok(()),
        ModuleExportName::Str(x) => x.check(code, faults),
    }
}

/// The same of a name that may be left out.
fn export_name_option(
    name: &Option<ModuleExportName>,
    code: Code<'_>,
    faults: &mut Vec<Error>,
) -> Result<(), AllocError>
    ensures { IfOk result (λ _. faults.new.items ≡ faults.old.items ++ export_name (part_by view_module_export_name name.now) (scope_of code.entry)) }
{
    match name {
        Some(name) => export_name(name, code, faults),
        None => Ok(()),
    }
}

impl Check for ImportSpecifier {
    ghost tree = { view_import_specifier };

    fn check(&self, code: Code<'_>, faults: &mut Vec<Error>) -> Result<(), AllocError> {
        match self {
            ImportSpecifier::Named(x) => x.check(code, faults),
            ImportSpecifier::Default(x) => x.check(code, faults),
            ImportSpecifier::Namespace(x) => x.check(code, faults),
        }
    }
}

impl Check for ImportNamedSpecifier {
    ghost tree = { view_import_named_specifier };

    fn check(&self, code: Code<'_>, faults: &mut Vec<Error>) -> Result<(), AllocError> {
        evil(&self.local, code, faults)?;
        self.local.check(code, faults)?;
        export_name_option(&self.imported, code, faults)
    }
}

impl Check for ImportDefaultSpecifier {
    ghost tree = { view_import_default_specifier };

    fn check(&self, code: Code<'_>, faults: &mut Vec<Error>) -> Result<(), AllocError> {
        evil(&self.local, code, faults)?;
        self.local.check(code, faults)
    }
}

impl Check for ImportStarAsSpecifier {
    ghost tree = { view_import_star_as_specifier };

    fn check(&self, code: Code<'_>, faults: &mut Vec<Error>) -> Result<(), AllocError> {
        evil(&self.local, code, faults)?;
        self.local.check(code, faults)
    }
}

impl Check for ExportSpecifier {
    ghost tree = { view_export_specifier };

    fn check(&self, code: Code<'_>, faults: &mut Vec<Error>) -> Result<(), AllocError> {
        match self {
            ExportSpecifier::Namespace(x) => export_name(&x.name, code, faults),
            ExportSpecifier::Default(x) => x.check(code, faults),
            ExportSpecifier::Named(x) => {
                export_name(&x.orig, code, faults)?;
                export_name_option(&x.exported, code, faults)
            }
        }
    }
}

impl Check for ExportDefaultSpecifier {
    ghost tree = { view_export_default_specifier };

    fn check(&self, code: Code<'_>, faults: &mut Vec<Error>) -> Result<(), AllocError> {
        self.exported.check(code, faults)
    }
}

impl Check for ModuleExportName {
    ghost tree = { view_module_export_name };

    fn check(&self, code: Code<'_>, faults: &mut Vec<Error>) -> Result<(), AllocError> {
        match self {
            ModuleExportName::Ident(x) => x.check(code, faults),
            ModuleExportName::Str(x) => x.check(code, faults),
        }
    }
}
