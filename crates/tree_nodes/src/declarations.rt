// Written by tools/tree/node_types.py from tools/tree/tree.table. Don't edit this file.
//! Declarations (ECMA-262, 14.3, 15.2 and 15.7).
use crate::expressions::Ident;
use crate::functions::{ClassOf, FunctionOf};
use crate::knot::{Child, ExprTag, Part, PatTag};
use base_token::Span;
use std::fmt;

/// A declaration.
#[derive(Drop)]
pub enum DeclOf<T> {
    Class(ClassDeclOf<T>),
    Fn(FnDeclOf<T>),
    Var(VarDeclOf<T>),
    Using(UsingDeclOf<T>),
}

impl<T: fmt::Debug> fmt::Debug for DeclOf<T> {
    fn fmt<W: fmt::Write>(&self, f: &mut fmt::Formatter<W>) -> fmt::Result {
        match self {
            DeclOf::Class(x) => fmt::Debug::fmt(x, f),
            DeclOf::Fn(x) => fmt::Debug::fmt(x, f),
            DeclOf::Var(x) => fmt::Debug::fmt(x, f),
            DeclOf::Using(x) => fmt::Debug::fmt(x, f),
        }
    }
}

/// A declaration.
pub type Decl = DeclOf<Part>;

/// A class with its name.
#[derive(Debug, Drop)]
pub struct ClassDeclOf<T> {
    pub span: Span,
    pub ident: Ident,
    pub class: Box<ClassOf<T>>,
}

/// A class with its name.
pub type ClassDecl = ClassDeclOf<Part>;

/// A function with its name.
#[derive(Debug, Drop)]
pub struct FnDeclOf<T> {
    pub span: Span,
    pub ident: Ident,
    pub function: Box<FunctionOf<T>>,
}

/// A function with its name.
pub type FnDecl = FnDeclOf<Part>;

/// `var`, `let` or `const` with what it declares.
#[derive(Debug, Drop)]
pub struct VarDeclOf<T> {
    pub span: Span,
    pub kind: VarDeclKind,
    pub decls: Vec<VarDeclaratorOf<T>>,
}

/// `var`, `let` or `const` with what it declares.
pub type VarDecl = VarDeclOf<Part>;

/// `using` or `await using` with what it declares.
#[derive(Debug, Drop)]
pub struct UsingDeclOf<T> {
    pub span: Span,
    pub is_await: bool,
    pub decls: Vec<VarDeclaratorOf<T>>,
}

/// `using` or `await using` with what it declares.
pub type UsingDecl = UsingDeclOf<Part>;

/// A name or a pattern, and its initialiser.
#[derive(Debug, Drop)]
pub struct VarDeclaratorOf<T> {
    pub span: Span,
    pub name: Child<T, PatTag>,
    pub init: Option<Child<T, ExprTag>>,
}

/// A name or a pattern, and its initialiser.
pub type VarDeclarator = VarDeclaratorOf<Part>;

/// How variables are declared.
#[derive(Clone, Copy, Debug, PartialEq, Eq, Hash)]
pub enum VarDeclKind {
    Var,
    Let,
    Const,
}
