// Written by tools/tree/node_types.py from tools/tree/tree.table. Don't edit this file.
//! Statements (ECMA-262, clause 14).
use crate::declarations::{DeclOf, UsingDeclOf, VarDeclOf};
use crate::expressions::Ident;
use crate::knot::{Child, ExprTag, Part, PatTag, StmtTag};
use base_token::Span;
use std::fmt;

/// A statement or a declaration, of any kind.
#[derive(Drop)]
pub enum StmtKindOf<T> {
    Block(BlockStmtOf<T>),
    Empty(EmptyStmt),
    Debugger(DebuggerStmt),
    With(WithStmtOf<T>),
    Return(ReturnStmtOf<T>),
    Labeled(LabeledStmtOf<T>),
    Break(BreakStmt),
    Continue(ContinueStmt),
    If(IfStmtOf<T>),
    Switch(SwitchStmtOf<T>),
    Throw(ThrowStmtOf<T>),
    Try(Box<TryStmtOf<T>>),
    While(WhileStmtOf<T>),
    DoWhile(DoWhileStmtOf<T>),
    For(ForStmtOf<T>),
    ForIn(ForInStmtOf<T>),
    ForOf(ForOfStmtOf<T>),
    Decl(DeclOf<T>),
    Expr(ExprStmtOf<T>),
}

impl<T: fmt::Debug> fmt::Debug for StmtKindOf<T> {
    fn fmt<W: fmt::Write>(&self, f: &mut fmt::Formatter<W>) -> fmt::Result {
        match self {
            StmtKindOf::Block(x) => fmt::Debug::fmt(x, f),
            StmtKindOf::Empty(x) => fmt::Debug::fmt(x, f),
            StmtKindOf::Debugger(x) => fmt::Debug::fmt(x, f),
            StmtKindOf::With(x) => fmt::Debug::fmt(x, f),
            StmtKindOf::Return(x) => fmt::Debug::fmt(x, f),
            StmtKindOf::Labeled(x) => fmt::Debug::fmt(x, f),
            StmtKindOf::Break(x) => fmt::Debug::fmt(x, f),
            StmtKindOf::Continue(x) => fmt::Debug::fmt(x, f),
            StmtKindOf::If(x) => fmt::Debug::fmt(x, f),
            StmtKindOf::Switch(x) => fmt::Debug::fmt(x, f),
            StmtKindOf::Throw(x) => fmt::Debug::fmt(x, f),
            StmtKindOf::Try(x) => fmt::Debug::fmt(x, f),
            StmtKindOf::While(x) => fmt::Debug::fmt(x, f),
            StmtKindOf::DoWhile(x) => fmt::Debug::fmt(x, f),
            StmtKindOf::For(x) => fmt::Debug::fmt(x, f),
            StmtKindOf::ForIn(x) => fmt::Debug::fmt(x, f),
            StmtKindOf::ForOf(x) => fmt::Debug::fmt(x, f),
            StmtKindOf::Decl(x) => fmt::Debug::fmt(x, f),
            StmtKindOf::Expr(x) => fmt::Debug::fmt(x, f),
        }
    }
}

/// A statement or a declaration, of any kind.
pub type StmtKind = StmtKindOf<Part>;

/// `{ .. }`.
#[derive(Debug, Drop)]
pub struct BlockStmtOf<T> {
    pub span: Span,
    pub stmts: Vec<Child<T, StmtTag>>,
}

/// `{ .. }`.
pub type BlockStmt = BlockStmtOf<Part>;

/// `;`, as a statement or as a member of a class.
#[derive(Debug, Drop)]
pub struct EmptyStmt {
    pub span: Span,
}

/// `debugger;`.
#[derive(Debug, Drop)]
pub struct DebuggerStmt {
    pub span: Span,
}

/// `with (obj) body`.
#[derive(Debug, Drop)]
pub struct WithStmtOf<T> {
    pub span: Span,
    pub obj: Child<T, ExprTag>,
    pub body: Child<T, StmtTag>,
}

/// `with (obj) body`.
pub type WithStmt = WithStmtOf<Part>;

/// `return arg;`.
#[derive(Debug, Drop)]
pub struct ReturnStmtOf<T> {
    pub span: Span,
    pub arg: Option<Child<T, ExprTag>>,
}

/// `return arg;`.
pub type ReturnStmt = ReturnStmtOf<Part>;

/// `label: body`.
#[derive(Debug, Drop)]
pub struct LabeledStmtOf<T> {
    pub span: Span,
    pub label: Ident,
    pub body: Child<T, StmtTag>,
}

/// `label: body`.
pub type LabeledStmt = LabeledStmtOf<Part>;

/// `break label;`.
#[derive(Debug, Drop)]
pub struct BreakStmt {
    pub span: Span,
    pub label: Option<Ident>,
}

/// `continue label;`.
#[derive(Debug, Drop)]
pub struct ContinueStmt {
    pub span: Span,
    pub label: Option<Ident>,
}

/// `if (test) cons else alt`.
#[derive(Debug, Drop)]
pub struct IfStmtOf<T> {
    pub span: Span,
    pub test: Child<T, ExprTag>,
    pub cons: Child<T, StmtTag>,
    pub alt: Option<Child<T, StmtTag>>,
}

/// `if (test) cons else alt`.
pub type IfStmt = IfStmtOf<Part>;

/// `switch (discriminant) { .. }`.
#[derive(Debug, Drop)]
pub struct SwitchStmtOf<T> {
    pub span: Span,
    pub discriminant: Child<T, ExprTag>,
    pub cases: Vec<SwitchCaseOf<T>>,
}

/// `switch (discriminant) { .. }`.
pub type SwitchStmt = SwitchStmtOf<Part>;

/// `case test: ..`, or `default: ..` without a test.
#[derive(Debug, Drop)]
pub struct SwitchCaseOf<T> {
    pub span: Span,
    pub test: Option<Child<T, ExprTag>>,
    pub cons: Vec<Child<T, StmtTag>>,
}

/// `case test: ..`, or `default: ..` without a test.
pub type SwitchCase = SwitchCaseOf<Part>;

/// `throw arg;`.
#[derive(Debug, Drop)]
pub struct ThrowStmtOf<T> {
    pub span: Span,
    pub arg: Child<T, ExprTag>,
}

/// `throw arg;`.
pub type ThrowStmt = ThrowStmtOf<Part>;

/// `try { .. } catch .. finally { .. }`; the grammar asks for one of the last two.
#[derive(Debug, Drop)]
pub struct TryStmtOf<T> {
    pub span: Span,
    pub block: BlockStmtOf<T>,
    pub handler: Option<CatchClauseOf<T>>,
    pub finalizer: Option<BlockStmtOf<T>>,
}

/// `try { .. } catch .. finally { .. }`; the grammar asks for one of the last two.
pub type TryStmt = TryStmtOf<Part>;

/// `catch (param) { .. }`.
#[derive(Debug, Drop)]
pub struct CatchClauseOf<T> {
    pub span: Span,
    pub param: Option<Child<T, PatTag>>,
    pub body: BlockStmtOf<T>,
}

/// `catch (param) { .. }`.
pub type CatchClause = CatchClauseOf<Part>;

/// `while (test) body`.
#[derive(Debug, Drop)]
pub struct WhileStmtOf<T> {
    pub span: Span,
    pub test: Child<T, ExprTag>,
    pub body: Child<T, StmtTag>,
}

/// `while (test) body`.
pub type WhileStmt = WhileStmtOf<Part>;

/// `do body while (test);`.
#[derive(Debug, Drop)]
pub struct DoWhileStmtOf<T> {
    pub span: Span,
    pub test: Child<T, ExprTag>,
    pub body: Child<T, StmtTag>,
}

/// `do body while (test);`.
pub type DoWhileStmt = DoWhileStmtOf<Part>;

/// `for (init; test; update) body`.
#[derive(Debug, Drop)]
pub struct ForStmtOf<T> {
    pub span: Span,
    pub init: Option<VarDeclOrExprOf<T>>,
    pub test: Option<Child<T, ExprTag>>,
    pub update: Option<Child<T, ExprTag>>,
    pub body: Child<T, StmtTag>,
}

/// `for (init; test; update) body`.
pub type ForStmt = ForStmtOf<Part>;

/// `for (left in right) body`.
#[derive(Debug, Drop)]
pub struct ForInStmtOf<T> {
    pub span: Span,
    pub left: ForHeadOf<T>,
    pub right: Child<T, ExprTag>,
    pub body: Child<T, StmtTag>,
}

/// `for (left in right) body`.
pub type ForInStmt = ForInStmtOf<Part>;

/// `for (left of right) body`, or `for await`.
#[derive(Debug, Drop)]
pub struct ForOfStmtOf<T> {
    pub span: Span,
    pub is_await: bool,
    pub left: ForHeadOf<T>,
    pub right: Child<T, ExprTag>,
    pub body: Child<T, StmtTag>,
}

/// `for (left of right) body`, or `for await`.
pub type ForOfStmt = ForOfStmtOf<Part>;

/// An expression as a statement.
#[derive(Debug, Drop)]
pub struct ExprStmtOf<T> {
    pub span: Span,
    pub expr: Child<T, ExprTag>,
}

/// An expression as a statement.
pub type ExprStmt = ExprStmtOf<Part>;

/// What a `for` begins with.
#[derive(Drop)]
pub enum VarDeclOrExprOf<T> {
    VarDecl(Box<VarDeclOf<T>>),
    UsingDecl(Box<UsingDeclOf<T>>),
    Expr(Child<T, ExprTag>),
}

impl<T: fmt::Debug> fmt::Debug for VarDeclOrExprOf<T> {
    fn fmt<W: fmt::Write>(&self, f: &mut fmt::Formatter<W>) -> fmt::Result {
        match self {
            VarDeclOrExprOf::VarDecl(x) => fmt::Debug::fmt(x, f),
            VarDeclOrExprOf::UsingDecl(x) => fmt::Debug::fmt(x, f),
            VarDeclOrExprOf::Expr(x) => fmt::Debug::fmt(x, f),
        }
    }
}

/// What a `for` begins with.
pub type VarDeclOrExpr = VarDeclOrExprOf<Part>;

/// What a `for` with `in` or `of` binds or assigns to.
#[derive(Drop)]
pub enum ForHeadOf<T> {
    VarDecl(Box<VarDeclOf<T>>),
    UsingDecl(Box<UsingDeclOf<T>>),
    Pat(Child<T, PatTag>),
}

impl<T: fmt::Debug> fmt::Debug for ForHeadOf<T> {
    fn fmt<W: fmt::Write>(&self, f: &mut fmt::Formatter<W>) -> fmt::Result {
        match self {
            ForHeadOf::VarDecl(x) => fmt::Debug::fmt(x, f),
            ForHeadOf::UsingDecl(x) => fmt::Debug::fmt(x, f),
            ForHeadOf::Pat(x) => fmt::Debug::fmt(x, f),
        }
    }
}

/// What a `for` with `in` or `of` binds or assigns to.
pub type ForHead = ForHeadOf<Part>;
