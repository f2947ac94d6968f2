// Written by tools/tree/node_types.py from tools/tree/tree.table. Don't edit this file.
//! Functions, classes and keys (ECMA-262, clause 15).
use crate::knot::{Child, ExprTag, Part, PatTag};
use crate::literals::{BigInt, Number, Str};
use crate::statements::{BlockStmtOf, EmptyStmt};
use base_token::{Atom, Span};
use std::fmt;

/// Parameters and body of a function or a method.
#[derive(Debug, Drop)]
pub struct FunctionOf<T> {
    pub span: Span,
    pub params: Vec<ParamOf<T>>,
    pub decorators: Vec<DecoratorOf<T>>,
    pub body: BlockStmtOf<T>,
    pub is_generator: bool,
    pub is_async: bool,
}

/// Parameters and body of a function or a method.
pub type Function = FunctionOf<Part>;

/// A parameter.
#[derive(Debug, Drop)]
pub struct ParamOf<T> {
    pub span: Span,
    pub decorators: Vec<DecoratorOf<T>>,
    pub pat: Child<T, PatTag>,
}

/// A parameter.
pub type Param = ParamOf<Part>;

/// `@expr`.
#[derive(Debug, Drop)]
pub struct DecoratorOf<T> {
    pub span: Span,
    pub expr: Child<T, ExprTag>,
}

/// `@expr`.
pub type Decorator = DecoratorOf<Part>;

/// What a class extends, and its members.
#[derive(Debug, Drop)]
pub struct ClassOf<T> {
    pub span: Span,
    pub decorators: Vec<DecoratorOf<T>>,
    pub body: Vec<ClassMemberOf<T>>,
    pub super_class: Option<Child<T, ExprTag>>,
}

/// What a class extends, and its members.
pub type Class = ClassOf<Part>;

/// A member of a class.
#[derive(Drop)]
pub enum ClassMemberOf<T> {
    Constructor(ConstructorOf<T>),
    Method(ClassMethodOf<T>),
    PrivateMethod(PrivateMethodOf<T>),
    ClassProp(ClassPropOf<T>),
    PrivateProp(PrivatePropOf<T>),
    StaticBlock(StaticBlockOf<T>),
    AutoAccessor(AutoAccessorOf<T>),
    Empty(EmptyStmt),
}

impl<T: fmt::Debug> fmt::Debug for ClassMemberOf<T> {
    fn fmt<W: fmt::Write>(&self, f: &mut fmt::Formatter<W>) -> fmt::Result {
        match self {
            ClassMemberOf::Constructor(x) => fmt::Debug::fmt(x, f),
            ClassMemberOf::Method(x) => fmt::Debug::fmt(x, f),
            ClassMemberOf::PrivateMethod(x) => fmt::Debug::fmt(x, f),
            ClassMemberOf::ClassProp(x) => fmt::Debug::fmt(x, f),
            ClassMemberOf::PrivateProp(x) => fmt::Debug::fmt(x, f),
            ClassMemberOf::StaticBlock(x) => fmt::Debug::fmt(x, f),
            ClassMemberOf::AutoAccessor(x) => fmt::Debug::fmt(x, f),
            ClassMemberOf::Empty(x) => fmt::Debug::fmt(x, f),
        }
    }
}

/// A member of a class.
pub type ClassMember = ClassMemberOf<Part>;

/// The constructor of a class; its key is the word or the string `constructor`.
#[derive(Debug, Drop)]
pub struct ConstructorOf<T> {
    pub span: Span,
    pub key: PropNameOf<T>,
    pub params: Vec<ParamOf<T>>,
    pub body: BlockStmtOf<T>,
}

/// The constructor of a class; its key is the word or the string `constructor`.
pub type Constructor = ConstructorOf<Part>;

/// A method, a getter or a setter of a class.
#[derive(Debug, Drop)]
pub struct ClassMethodOf<T> {
    pub span: Span,
    pub key: PropNameOf<T>,
    pub function: Box<FunctionOf<T>>,
    pub kind: MethodKind,
    pub is_static: bool,
}

/// A method, a getter or a setter of a class.
pub type ClassMethod = ClassMethodOf<Part>;

/// A method, a getter or a setter with a private name.
#[derive(Debug, Drop)]
pub struct PrivateMethodOf<T> {
    pub span: Span,
    pub key: PrivateName,
    pub function: Box<FunctionOf<T>>,
    pub kind: MethodKind,
    pub is_static: bool,
}

/// A method, a getter or a setter with a private name.
pub type PrivateMethod = PrivateMethodOf<Part>;

/// A field of a class.
#[derive(Debug, Drop)]
pub struct ClassPropOf<T> {
    pub span: Span,
    pub key: PropNameOf<T>,
    pub value: Option<Child<T, ExprTag>>,
    pub is_static: bool,
    pub decorators: Vec<DecoratorOf<T>>,
}

/// A field of a class.
pub type ClassProp = ClassPropOf<Part>;

/// A field with a private name.
#[derive(Debug, Drop)]
pub struct PrivatePropOf<T> {
    pub span: Span,
    pub key: PrivateName,
    pub value: Option<Child<T, ExprTag>>,
    pub is_static: bool,
    pub decorators: Vec<DecoratorOf<T>>,
}

/// A field with a private name.
pub type PrivateProp = PrivatePropOf<Part>;

/// `static { .. }`.
#[derive(Debug, Drop)]
pub struct StaticBlockOf<T> {
    pub span: Span,
    pub body: BlockStmtOf<T>,
}

/// `static { .. }`.
pub type StaticBlock = StaticBlockOf<Part>;

/// `accessor key = value;`.
#[derive(Debug, Drop)]
pub struct AutoAccessorOf<T> {
    pub span: Span,
    pub key: KeyOf<T>,
    pub value: Option<Child<T, ExprTag>>,
    pub is_static: bool,
    pub decorators: Vec<DecoratorOf<T>>,
}

/// `accessor key = value;`.
pub type AutoAccessor = AutoAccessorOf<Part>;

/// Whether a method is a getter or a setter.
#[derive(Clone, Copy, Debug, PartialEq, Eq, Hash)]
pub enum MethodKind {
    Method,
    Getter,
    Setter,
}

/// The key of an auto accessor.
#[derive(Drop)]
pub enum KeyOf<T> {
    Private(PrivateName),
    Public(PropNameOf<T>),
}

impl<T: fmt::Debug> fmt::Debug for KeyOf<T> {
    fn fmt<W: fmt::Write>(&self, f: &mut fmt::Formatter<W>) -> fmt::Result {
        match self {
            KeyOf::Private(x) => fmt::Debug::fmt(x, f),
            KeyOf::Public(x) => fmt::Debug::fmt(x, f),
        }
    }
}

/// The key of an auto accessor.
pub type Key = KeyOf<Part>;

/// The key of a property or of a member.
#[derive(Drop)]
pub enum PropNameOf<T> {
    Ident(IdentName),
    Str(Str),
    Num(Number),
    BigInt(Box<BigInt>),
    Computed(ComputedPropNameOf<T>),
}

impl<T: fmt::Debug> fmt::Debug for PropNameOf<T> {
    fn fmt<W: fmt::Write>(&self, f: &mut fmt::Formatter<W>) -> fmt::Result {
        match self {
            PropNameOf::Ident(x) => fmt::Debug::fmt(x, f),
            PropNameOf::Str(x) => fmt::Debug::fmt(x, f),
            PropNameOf::Num(x) => fmt::Debug::fmt(x, f),
            PropNameOf::BigInt(x) => fmt::Debug::fmt(x, f),
            PropNameOf::Computed(x) => fmt::Debug::fmt(x, f),
        }
    }
}

/// The key of a property or of a member.
pub type PropName = PropNameOf<Part>;

/// A word as a key, which may be a reserved one.
#[derive(Debug, Drop)]
pub struct IdentName {
    pub span: Span,
    pub sym: Atom,
}

/// `[expr]` as a key.
#[derive(Debug, Drop)]
pub struct ComputedPropNameOf<T> {
    pub span: Span,
    pub expr: Child<T, ExprTag>,
}

/// `[expr]` as a key.
pub type ComputedPropName = ComputedPropNameOf<Part>;

/// `#name`; the name is without `#`.
#[derive(Debug, Drop)]
pub struct PrivateName {
    pub span: Span,
    pub name: Atom,
}
