// Written by tools/tree/node_types.py from tools/tree/tree.table. Don't edit this file.
//! Scripts, modules, imports and exports (ECMA-262, 16.1 and 16.2).
use crate::declarations::DeclOf;
use crate::expressions::{ClassExprOf, FnExprOf, Ident, ObjectLitOf};
use crate::knot::{Child, ExprTag, Part, StmtTag};
use crate::literals::Str;
use base_token::{Atom, Span};
use std::fmt;

/// A script or a module.
#[derive(Drop)]
pub enum ProgramKindOf<T> {
    Script(ScriptOf<T>),
    Module(ModuleOf<T>),
}

impl<T: fmt::Debug> fmt::Debug for ProgramKindOf<T> {
    fn fmt<W: fmt::Write>(&self, f: &mut fmt::Formatter<W>) -> fmt::Result {
        match self {
            ProgramKindOf::Script(x) => fmt::Debug::fmt(x, f),
            ProgramKindOf::Module(x) => fmt::Debug::fmt(x, f),
        }
    }
}

/// A script or a module.
pub type ProgramKind = ProgramKindOf<Part>;

/// A script: statements, after a hashbang's text without `#!`.
#[derive(Debug)]
pub struct ScriptOf<T> {
    pub span: Span,
    pub body: Vec<Child<T, StmtTag>>,
    pub shebang: Option<Atom>,
}

impl<T: Drop> Drop for ScriptOf<T> {
    /// One call where one is let go, in place of a step for each part.
    fn drop(self) {
        let ScriptOf {
            span: _span,
            body: _body,
            shebang: _shebang,
        } = self;
    }
}

/// A script: statements, after a hashbang's text without `#!`.
pub type Script = ScriptOf<Part>;

/// A module: statements and module declarations, after a hashbang's text without `#!`.
#[derive(Debug)]
pub struct ModuleOf<T> {
    pub span: Span,
    pub body: Vec<ModuleItemOf<T>>,
    pub shebang: Option<Atom>,
}

impl<T: Drop> Drop for ModuleOf<T> {
    /// One call where one is let go, in place of a step for each part.
    fn drop(self) {
        let ModuleOf {
            span: _span,
            body: _body,
            shebang: _shebang,
        } = self;
    }
}

/// A module: statements and module declarations, after a hashbang's text without `#!`.
pub type Module = ModuleOf<Part>;

/// A part of a module.
pub enum ModuleItemOf<T> {
    ModuleDecl(ModuleDeclOf<T>),
    Stmt(Child<T, StmtTag>),
}

impl<T: fmt::Debug> fmt::Debug for ModuleItemOf<T> {
    fn fmt<W: fmt::Write>(&self, f: &mut fmt::Formatter<W>) -> fmt::Result {
        match self {
            ModuleItemOf::ModuleDecl(x) => fmt::Debug::fmt(x, f),
            ModuleItemOf::Stmt(x) => fmt::Debug::fmt(x, f),
        }
    }
}

impl<T: Drop> Drop for ModuleItemOf<T> {
    /// One call where one is let go, in place of a step for each part.
    fn drop(self) {
        match self {
            ModuleItemOf::ModuleDecl(_moduledecl) => {}
            ModuleItemOf::Stmt(_stmt) => {}
        }
    }
}

/// A part of a module.
pub type ModuleItem = ModuleItemOf<Part>;

/// An import or an export.
#[derive(Drop)]
pub enum ModuleDeclOf<T> {
    Import(ImportDeclOf<T>),
    ExportDecl(ExportDeclOf<T>),
    ExportNamed(NamedExportOf<T>),
    ExportDefaultDecl(ExportDefaultDeclOf<T>),
    ExportDefaultExpr(ExportDefaultExprOf<T>),
    ExportAll(ExportAllOf<T>),
}

impl<T: fmt::Debug> fmt::Debug for ModuleDeclOf<T> {
    fn fmt<W: fmt::Write>(&self, f: &mut fmt::Formatter<W>) -> fmt::Result {
        match self {
            ModuleDeclOf::Import(x) => fmt::Debug::fmt(x, f),
            ModuleDeclOf::ExportDecl(x) => fmt::Debug::fmt(x, f),
            ModuleDeclOf::ExportNamed(x) => fmt::Debug::fmt(x, f),
            ModuleDeclOf::ExportDefaultDecl(x) => fmt::Debug::fmt(x, f),
            ModuleDeclOf::ExportDefaultExpr(x) => fmt::Debug::fmt(x, f),
            ModuleDeclOf::ExportAll(x) => fmt::Debug::fmt(x, f),
        }
    }
}

/// An import or an export.
pub type ModuleDecl = ModuleDeclOf<Part>;

/// `import a, { b } from "c" with { .. }`.
#[derive(Debug, Drop)]
pub struct ImportDeclOf<T> {
    pub span: Span,
    pub specifiers: Vec<ImportSpecifier>,
    pub src: Box<Str>,
    pub with_: Option<Box<ObjectLitOf<T>>>,
}

/// `import a, { b } from "c" with { .. }`.
pub type ImportDecl = ImportDeclOf<Part>;

/// `export` before a declaration.
#[derive(Debug, Drop)]
pub struct ExportDeclOf<T> {
    pub span: Span,
    pub decl: DeclOf<T>,
}

/// `export` before a declaration.
pub type ExportDecl = ExportDeclOf<Part>;

/// `export { a as b } from "c" with { .. }`.
#[derive(Debug, Drop)]
pub struct NamedExportOf<T> {
    pub span: Span,
    pub specifiers: Vec<ExportSpecifier>,
    pub src: Option<Box<Str>>,
    pub with_: Option<Box<ObjectLitOf<T>>>,
}

/// `export { a as b } from "c" with { .. }`.
pub type NamedExport = NamedExportOf<Part>;

/// `export default` before a function or a class.
#[derive(Debug, Drop)]
pub struct ExportDefaultDeclOf<T> {
    pub span: Span,
    pub decl: DefaultDeclOf<T>,
}

/// `export default` before a function or a class.
pub type ExportDefaultDecl = ExportDefaultDeclOf<Part>;

/// `export default` before an expression.
#[derive(Debug, Drop)]
pub struct ExportDefaultExprOf<T> {
    pub span: Span,
    pub expr: Child<T, ExprTag>,
}

/// `export default` before an expression.
pub type ExportDefaultExpr = ExportDefaultExprOf<Part>;

/// `export * from "a" with { .. }`.
#[derive(Debug, Drop)]
pub struct ExportAllOf<T> {
    pub span: Span,
    pub src: Box<Str>,
    pub with_: Option<Box<ObjectLitOf<T>>>,
}

/// `export * from "a" with { .. }`.
pub type ExportAll = ExportAllOf<Part>;

/// A function or a class after `export default`, with or without a name.
#[derive(Drop)]
pub enum DefaultDeclOf<T> {
    Class(ClassExprOf<T>),
    Fn(FnExprOf<T>),
}

impl<T: fmt::Debug> fmt::Debug for DefaultDeclOf<T> {
    fn fmt<W: fmt::Write>(&self, f: &mut fmt::Formatter<W>) -> fmt::Result {
        match self {
            DefaultDeclOf::Class(x) => fmt::Debug::fmt(x, f),
            DefaultDeclOf::Fn(x) => fmt::Debug::fmt(x, f),
        }
    }
}

/// A function or a class after `export default`, with or without a name.
pub type DefaultDecl = DefaultDeclOf<Part>;

/// What an import brings.
#[derive(Drop)]
pub enum ImportSpecifier {
    Named(ImportNamedSpecifier),
    Default(ImportDefaultSpecifier),
    Namespace(ImportStarAsSpecifier),
}

impl fmt::Debug for ImportSpecifier {
    fn fmt<W: fmt::Write>(&self, f: &mut fmt::Formatter<W>) -> fmt::Result {
        match self {
            ImportSpecifier::Named(x) => fmt::Debug::fmt(x, f),
            ImportSpecifier::Default(x) => fmt::Debug::fmt(x, f),
            ImportSpecifier::Namespace(x) => fmt::Debug::fmt(x, f),
        }
    }
}

/// `imported as local` between braces, or `local` alone.
#[derive(Debug, Drop)]
pub struct ImportNamedSpecifier {
    pub span: Span,
    pub local: Ident,
    pub imported: Option<ModuleExportName>,
}

/// A name for the default export.
#[derive(Debug, Drop)]
pub struct ImportDefaultSpecifier {
    pub span: Span,
    pub local: Ident,
}

/// `* as local`.
#[derive(Debug, Drop)]
pub struct ImportStarAsSpecifier {
    pub span: Span,
    pub local: Ident,
}

/// What an export gives.
#[derive(Drop)]
pub enum ExportSpecifier {
    Namespace(ExportNamespaceSpecifier),
    Default(ExportDefaultSpecifier),
    Named(ExportNamedSpecifier),
}

impl fmt::Debug for ExportSpecifier {
    fn fmt<W: fmt::Write>(&self, f: &mut fmt::Formatter<W>) -> fmt::Result {
        match self {
            ExportSpecifier::Namespace(x) => fmt::Debug::fmt(x, f),
            ExportSpecifier::Default(x) => fmt::Debug::fmt(x, f),
            ExportSpecifier::Named(x) => fmt::Debug::fmt(x, f),
        }
    }
}

/// `* as name`.
#[derive(Debug, Drop)]
pub struct ExportNamespaceSpecifier {
    pub span: Span,
    pub name: ModuleExportName,
}

/// A name before the braces, by the setting `export_default_from`.
#[derive(Debug, Drop)]
pub struct ExportDefaultSpecifier {
    pub span: Span,
    pub exported: Ident,
}

/// `orig as exported` between braces, or `orig` alone.
#[derive(Debug, Drop)]
pub struct ExportNamedSpecifier {
    pub span: Span,
    pub orig: ModuleExportName,
    pub exported: Option<ModuleExportName>,
}

/// The name of an export: a word or a string.
#[derive(Drop)]
pub enum ModuleExportName {
    Ident(Ident),
    Str(Str),
}

impl fmt::Debug for ModuleExportName {
    fn fmt<W: fmt::Write>(&self, f: &mut fmt::Formatter<W>) -> fmt::Result {
        match self {
            ModuleExportName::Ident(x) => fmt::Debug::fmt(x, f),
            ModuleExportName::Str(x) => fmt::Debug::fmt(x, f),
        }
    }
}
