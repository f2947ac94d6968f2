// Written by tools/tree/node_types.py from tools/tree/tree.table. Don't edit this file.
//! Expressions (ECMA-262, clause 13).
use crate::functions::{ClassOf, ComputedPropNameOf, FunctionOf, IdentName, PrivateName};
use crate::knot::{Child, ExprTag, Part, PatTag};
use crate::literals::Lit;
use crate::objects::PropOrSpreadOf;
use crate::patterns::AssignTargetOf;
use crate::statements::BlockStmtOf;
use base_token::{AssignOp, Atom, BinaryOp, Span, StrValue};
use std::fmt;

/// An expression of any kind.
#[derive(Drop)]
pub enum ExprKindOf<T> {
    This(ThisExpr),
    Array(ArrayLitOf<T>),
    Object(ObjectLitOf<T>),
    Fn(FnExprOf<T>),
    Unary(UnaryExprOf<T>),
    Update(UpdateExprOf<T>),
    Bin(BinExprOf<T>),
    Assign(AssignExprOf<T>),
    Member(MemberExprOf<T>),
    SuperProp(SuperPropExprOf<T>),
    Cond(CondExprOf<T>),
    Call(CallExprOf<T>),
    New(NewExprOf<T>),
    Seq(SeqExprOf<T>),
    Ident(Ident),
    Lit(Lit),
    Tpl(TplOf<T>),
    TaggedTpl(TaggedTplOf<T>),
    Arrow(ArrowExprOf<T>),
    Class(ClassExprOf<T>),
    Yield(YieldExprOf<T>),
    MetaProp(MetaPropExpr),
    Await(AwaitExprOf<T>),
    Paren(ParenExprOf<T>),
    PrivateName(PrivateName),
    OptChain(OptChainExprOf<T>),
    Invalid(Invalid),
}

impl<T: fmt::Debug> fmt::Debug for ExprKindOf<T> {
    fn fmt<W: fmt::Write>(&self, f: &mut fmt::Formatter<W>) -> fmt::Result {
        match self {
            ExprKindOf::This(x) => fmt::Debug::fmt(x, f),
            ExprKindOf::Array(x) => fmt::Debug::fmt(x, f),
            ExprKindOf::Object(x) => fmt::Debug::fmt(x, f),
            ExprKindOf::Fn(x) => fmt::Debug::fmt(x, f),
            ExprKindOf::Unary(x) => fmt::Debug::fmt(x, f),
            ExprKindOf::Update(x) => fmt::Debug::fmt(x, f),
            ExprKindOf::Bin(x) => fmt::Debug::fmt(x, f),
            ExprKindOf::Assign(x) => fmt::Debug::fmt(x, f),
            ExprKindOf::Member(x) => fmt::Debug::fmt(x, f),
            ExprKindOf::SuperProp(x) => fmt::Debug::fmt(x, f),
            ExprKindOf::Cond(x) => fmt::Debug::fmt(x, f),
            ExprKindOf::Call(x) => fmt::Debug::fmt(x, f),
            ExprKindOf::New(x) => fmt::Debug::fmt(x, f),
            ExprKindOf::Seq(x) => fmt::Debug::fmt(x, f),
            ExprKindOf::Ident(x) => fmt::Debug::fmt(x, f),
            ExprKindOf::Lit(x) => fmt::Debug::fmt(x, f),
            ExprKindOf::Tpl(x) => fmt::Debug::fmt(x, f),
            ExprKindOf::TaggedTpl(x) => fmt::Debug::fmt(x, f),
            ExprKindOf::Arrow(x) => fmt::Debug::fmt(x, f),
            ExprKindOf::Class(x) => fmt::Debug::fmt(x, f),
            ExprKindOf::Yield(x) => fmt::Debug::fmt(x, f),
            ExprKindOf::MetaProp(x) => fmt::Debug::fmt(x, f),
            ExprKindOf::Await(x) => fmt::Debug::fmt(x, f),
            ExprKindOf::Paren(x) => fmt::Debug::fmt(x, f),
            ExprKindOf::PrivateName(x) => fmt::Debug::fmt(x, f),
            ExprKindOf::OptChain(x) => fmt::Debug::fmt(x, f),
            ExprKindOf::Invalid(x) => fmt::Debug::fmt(x, f),
        }
    }
}

/// An expression of any kind.
pub type ExprKind = ExprKindOf<Part>;

/// `this`.
#[derive(Debug, Drop)]
pub struct ThisExpr {
    pub span: Span,
}

/// `[a, , ...b]`.
#[derive(Debug, Drop)]
pub struct ArrayLitOf<T> {
    pub span: Span,
    pub elems: Vec<Option<ExprOrSpreadOf<T>>>,
}

/// `[a, , ...b]`.
pub type ArrayLit = ArrayLitOf<Part>;

/// `{ a, b: c, ...d }`.
#[derive(Debug, Drop)]
pub struct ObjectLitOf<T> {
    pub span: Span,
    pub props: Vec<PropOrSpreadOf<T>>,
}

/// `{ a, b: c, ...d }`.
pub type ObjectLit = ObjectLitOf<Part>;

/// A function as an expression.
#[derive(Debug, Drop)]
pub struct FnExprOf<T> {
    pub span: Span,
    pub ident: Option<Ident>,
    pub function: Box<FunctionOf<T>>,
}

/// A function as an expression.
pub type FnExpr = FnExprOf<Part>;

/// An operator before its operand.
#[derive(Debug, Drop)]
pub struct UnaryExprOf<T> {
    pub span: Span,
    pub op: UnaryOp,
    pub arg: Child<T, ExprTag>,
}

/// An operator before its operand.
pub type UnaryExpr = UnaryExprOf<Part>;

/// `++` or `--`, before or after its operand.
#[derive(Debug, Drop)]
pub struct UpdateExprOf<T> {
    pub span: Span,
    pub op: UpdateOp,
    pub prefix: bool,
    pub arg: Child<T, ExprTag>,
}

/// `++` or `--`, before or after its operand.
pub type UpdateExpr = UpdateExprOf<Part>;

/// An operator between two operands.
#[derive(Debug, Drop)]
pub struct BinExprOf<T> {
    pub span: Span,
    pub op: BinaryOp,
    pub left: Child<T, ExprTag>,
    pub right: Child<T, ExprTag>,
}

/// An operator between two operands.
pub type BinExpr = BinExprOf<Part>;

/// An assignment.
#[derive(Debug, Drop)]
pub struct AssignExprOf<T> {
    pub span: Span,
    pub op: AssignOp,
    pub left: AssignTargetOf<T>,
    pub right: Child<T, ExprTag>,
}

/// An assignment.
pub type AssignExpr = AssignExprOf<Part>;

/// `obj.prop`, `obj[prop]` or `obj.#prop`.
#[derive(Debug, Drop)]
pub struct MemberExprOf<T> {
    pub span: Span,
    pub obj: Child<T, ExprTag>,
    pub prop: MemberPropOf<T>,
}

/// `obj.prop`, `obj[prop]` or `obj.#prop`.
pub type MemberExpr = MemberExprOf<Part>;

/// `super.prop` or `super[prop]`.
#[derive(Debug, Drop)]
pub struct SuperPropExprOf<T> {
    pub span: Span,
    pub obj: Super,
    pub prop: SuperPropOf<T>,
}

/// `super.prop` or `super[prop]`.
pub type SuperPropExpr = SuperPropExprOf<Part>;

/// `test ? cons : alt`.
#[derive(Debug, Drop)]
pub struct CondExprOf<T> {
    pub span: Span,
    pub test: Child<T, ExprTag>,
    pub cons: Child<T, ExprTag>,
    pub alt: Child<T, ExprTag>,
}

/// `test ? cons : alt`.
pub type CondExpr = CondExprOf<Part>;

/// `callee(..)`.
#[derive(Debug, Drop)]
pub struct CallExprOf<T> {
    pub span: Span,
    pub callee: CalleeOf<T>,
    pub args: Vec<ExprOrSpreadOf<T>>,
}

/// `callee(..)`.
pub type CallExpr = CallExprOf<Part>;

/// `new callee(..)`, or without a list of arguments.
#[derive(Debug, Drop)]
pub struct NewExprOf<T> {
    pub span: Span,
    pub callee: Child<T, ExprTag>,
    pub args: Option<Vec<ExprOrSpreadOf<T>>>,
}

/// `new callee(..)`, or without a list of arguments.
pub type NewExpr = NewExprOf<Part>;

/// Expressions with commas between them.
#[derive(Debug, Drop)]
pub struct SeqExprOf<T> {
    pub span: Span,
    pub exprs: Vec<Child<T, ExprTag>>,
}

/// Expressions with commas between them.
pub type SeqExpr = SeqExprOf<Part>;

/// A name.
#[derive(Debug, Drop)]
pub struct Ident {
    pub span: Span,
    pub sym: Atom,
}

/// A template: its texts, and an expression between each and the next.
#[derive(Debug, Drop)]
pub struct TplOf<T> {
    pub span: Span,
    pub exprs: Vec<Child<T, ExprTag>>,
    pub quasis: Vec<TplElement>,
}

/// A template: its texts, and an expression between each and the next.
pub type Tpl = TplOf<Part>;

/// A text of a template: as spelled, and its units where no escape of it is bad.
#[derive(Debug, Drop)]
pub struct TplElement {
    pub span: Span,
    pub tail: bool,
    pub raw: Atom,
    pub cooked: Option<StrValue>,
}

/// A template after its tag.
#[derive(Debug, Drop)]
pub struct TaggedTplOf<T> {
    pub span: Span,
    pub tag: Child<T, ExprTag>,
    pub tpl: Box<TplOf<T>>,
}

/// A template after its tag.
pub type TaggedTpl = TaggedTplOf<Part>;

/// An arrow function.
#[derive(Debug, Drop)]
pub struct ArrowExprOf<T> {
    pub span: Span,
    pub params: Vec<Child<T, PatTag>>,
    pub body: BlockStmtOrExprOf<T>,
    pub is_async: bool,
}

/// An arrow function.
pub type ArrowExpr = ArrowExprOf<Part>;

/// A class as an expression.
#[derive(Debug, Drop)]
pub struct ClassExprOf<T> {
    pub span: Span,
    pub ident: Option<Ident>,
    pub class: Box<ClassOf<T>>,
}

/// A class as an expression.
pub type ClassExpr = ClassExprOf<Part>;

/// `yield arg` or `yield* arg`.
#[derive(Debug, Drop)]
pub struct YieldExprOf<T> {
    pub span: Span,
    pub arg: Option<Child<T, ExprTag>>,
    pub delegate: bool,
}

/// `yield arg` or `yield* arg`.
pub type YieldExpr = YieldExprOf<Part>;

/// `new.target` or `import.meta`.
#[derive(Debug, Drop)]
pub struct MetaPropExpr {
    pub span: Span,
    pub kind: MetaPropKind,
}

/// `await arg`.
#[derive(Debug, Drop)]
pub struct AwaitExprOf<T> {
    pub span: Span,
    pub arg: Child<T, ExprTag>,
}

/// `await arg`.
pub type AwaitExpr = AwaitExprOf<Part>;

/// `(expr)`.
#[derive(Debug, Drop)]
pub struct ParenExprOf<T> {
    pub span: Span,
    pub expr: Child<T, ExprTag>,
}

/// `(expr)`.
pub type ParenExpr = ParenExprOf<Part>;

/// A member or a call in an optional chain; `optional` where `?.` stands before it.
#[derive(Debug, Drop)]
pub struct OptChainExprOf<T> {
    pub span: Span,
    pub optional: bool,
    pub base: OptChainBaseOf<T>,
}

/// A member or a call in an optional chain; `optional` where `?.` stands before it.
pub type OptChainExpr = OptChainExprOf<Part>;

/// A call in an optional chain.
#[derive(Debug, Drop)]
pub struct OptCallOf<T> {
    pub span: Span,
    pub callee: Child<T, ExprTag>,
    pub args: Vec<ExprOrSpreadOf<T>>,
}

/// A call in an optional chain.
pub type OptCall = OptCallOf<Part>;

/// The word `super`.
#[derive(Debug, Drop)]
pub struct Super {
    pub span: Span,
}

/// The word `import` as what is called.
#[derive(Debug, Drop)]
pub struct Import {
    pub span: Span,
}

/// What stands in the place of an expression or a pattern that could not be read.
#[derive(Debug, Drop)]
pub struct Invalid {
    pub span: Span,
}

/// An argument or an element of an array, with the place of `...` before it.
#[derive(Debug, Drop)]
pub struct ExprOrSpreadOf<T> {
    pub span: Span,
    pub spread: Option<Span>,
    pub expr: Child<T, ExprTag>,
}

/// An argument or an element of an array, with the place of `...` before it.
pub type ExprOrSpread = ExprOrSpreadOf<Part>;

/// `...expr` in an object.
#[derive(Debug, Drop)]
pub struct SpreadElementOf<T> {
    pub span: Span,
    pub expr: Child<T, ExprTag>,
}

/// `...expr` in an object.
pub type SpreadElement = SpreadElementOf<Part>;

/// What is called.
#[derive(Drop)]
pub enum CalleeOf<T> {
    Super(Super),
    Import(Import),
    Expr(Child<T, ExprTag>),
}

impl<T: fmt::Debug> fmt::Debug for CalleeOf<T> {
    fn fmt<W: fmt::Write>(&self, f: &mut fmt::Formatter<W>) -> fmt::Result {
        match self {
            CalleeOf::Super(x) => fmt::Debug::fmt(x, f),
            CalleeOf::Import(x) => fmt::Debug::fmt(x, f),
            CalleeOf::Expr(x) => fmt::Debug::fmt(x, f),
        }
    }
}

/// What is called.
pub type Callee = CalleeOf<Part>;

/// What follows an object in a member.
#[derive(Drop)]
pub enum MemberPropOf<T> {
    Ident(IdentName),
    PrivateName(PrivateName),
    Computed(ComputedPropNameOf<T>),
}

impl<T: fmt::Debug> fmt::Debug for MemberPropOf<T> {
    fn fmt<W: fmt::Write>(&self, f: &mut fmt::Formatter<W>) -> fmt::Result {
        match self {
            MemberPropOf::Ident(x) => fmt::Debug::fmt(x, f),
            MemberPropOf::PrivateName(x) => fmt::Debug::fmt(x, f),
            MemberPropOf::Computed(x) => fmt::Debug::fmt(x, f),
        }
    }
}

/// What follows an object in a member.
pub type MemberProp = MemberPropOf<Part>;

/// What follows `super` in a member.
#[derive(Drop)]
pub enum SuperPropOf<T> {
    Ident(IdentName),
    Computed(ComputedPropNameOf<T>),
}

impl<T: fmt::Debug> fmt::Debug for SuperPropOf<T> {
    fn fmt<W: fmt::Write>(&self, f: &mut fmt::Formatter<W>) -> fmt::Result {
        match self {
            SuperPropOf::Ident(x) => fmt::Debug::fmt(x, f),
            SuperPropOf::Computed(x) => fmt::Debug::fmt(x, f),
        }
    }
}

/// What follows `super` in a member.
pub type SuperProp = SuperPropOf<Part>;

/// What an optional chain ends with.
#[derive(Drop)]
pub enum OptChainBaseOf<T> {
    Member(MemberExprOf<T>),
    Call(OptCallOf<T>),
}

impl<T: fmt::Debug> fmt::Debug for OptChainBaseOf<T> {
    fn fmt<W: fmt::Write>(&self, f: &mut fmt::Formatter<W>) -> fmt::Result {
        match self {
            OptChainBaseOf::Member(x) => fmt::Debug::fmt(x, f),
            OptChainBaseOf::Call(x) => fmt::Debug::fmt(x, f),
        }
    }
}

/// What an optional chain ends with.
pub type OptChainBase = OptChainBaseOf<Part>;

/// The body of an arrow function.
#[derive(Drop)]
pub enum BlockStmtOrExprOf<T> {
    BlockStmt(BlockStmtOf<T>),
    Expr(Child<T, ExprTag>),
}

impl<T: fmt::Debug> fmt::Debug for BlockStmtOrExprOf<T> {
    fn fmt<W: fmt::Write>(&self, f: &mut fmt::Formatter<W>) -> fmt::Result {
        match self {
            BlockStmtOrExprOf::BlockStmt(x) => fmt::Debug::fmt(x, f),
            BlockStmtOrExprOf::Expr(x) => fmt::Debug::fmt(x, f),
        }
    }
}

/// The body of an arrow function.
pub type BlockStmtOrExpr = BlockStmtOrExprOf<Part>;

/// An operator before its operand.
#[derive(Clone, Copy, Debug, PartialEq, Eq, Hash)]
pub enum UnaryOp {
    Minus,
    Plus,
    Bang,
    Tilde,
    TypeOf,
    Void,
    Delete,
}

/// `++` or `--`.
#[derive(Clone, Copy, Debug, PartialEq, Eq, Hash)]
pub enum UpdateOp {
    PlusPlus,
    MinusMinus,
}

/// Which meta property.
#[derive(Clone, Copy, Debug, PartialEq, Eq, Hash)]
pub enum MetaPropKind {
    NewTarget,
    ImportMeta,
}
