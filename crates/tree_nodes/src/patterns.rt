// Written by tools/tree/node_types.py from tools/tree/tree.table. Don't edit this file.
//! Patterns (ECMA-262, 13.15.5 and 14.3.3).
use crate::expressions::{
    Ident, Invalid, MemberExprOf, OptChainExprOf, ParenExprOf, SuperPropExprOf,
};
use crate::functions::PropNameOf;
use crate::knot::{Child, ExprTag, Part, PatTag};
use base_token::Span;
use std::fmt;

/// A pattern of any kind.
#[derive(Drop)]
pub enum PatKindOf<T> {
    Ident(BindingIdent),
    Array(ArrayPatOf<T>),
    Rest(RestPatOf<T>),
    Object(ObjectPatOf<T>),
    Assign(AssignPatOf<T>),
    Expr(Child<T, ExprTag>),
    Invalid(Invalid),
}

impl<T: fmt::Debug> fmt::Debug for PatKindOf<T> {
    fn fmt<W: fmt::Write>(&self, f: &mut fmt::Formatter<W>) -> fmt::Result {
        match self {
            PatKindOf::Ident(x) => fmt::Debug::fmt(x, f),
            PatKindOf::Array(x) => fmt::Debug::fmt(x, f),
            PatKindOf::Rest(x) => fmt::Debug::fmt(x, f),
            PatKindOf::Object(x) => fmt::Debug::fmt(x, f),
            PatKindOf::Assign(x) => fmt::Debug::fmt(x, f),
            PatKindOf::Expr(x) => fmt::Debug::fmt(x, f),
            PatKindOf::Invalid(x) => fmt::Debug::fmt(x, f),
        }
    }
}

/// A pattern of any kind.
pub type PatKind = PatKindOf<Part>;

/// A name as a pattern.
#[derive(Debug, Drop)]
pub struct BindingIdent {
    pub span: Span,
    pub id: Ident,
}

/// `[a, , ...b]` as a pattern.
#[derive(Debug, Drop)]
pub struct ArrayPatOf<T> {
    pub span: Span,
    pub elems: Vec<Option<Child<T, PatTag>>>,
}

/// `[a, , ...b]` as a pattern.
pub type ArrayPat = ArrayPatOf<Part>;

/// `...arg` in a pattern, with the place of `...`.
#[derive(Debug, Drop)]
pub struct RestPatOf<T> {
    pub span: Span,
    pub dot3_token: Span,
    pub arg: Child<T, PatTag>,
}

/// `...arg` in a pattern, with the place of `...`.
pub type RestPat = RestPatOf<Part>;

/// `{ a, b: c, ...d }` as a pattern.
#[derive(Debug, Drop)]
pub struct ObjectPatOf<T> {
    pub span: Span,
    pub props: Vec<ObjectPatPropOf<T>>,
}

/// `{ a, b: c, ...d }` as a pattern.
pub type ObjectPat = ObjectPatOf<Part>;

/// `left = right` in a pattern.
#[derive(Debug, Drop)]
pub struct AssignPatOf<T> {
    pub span: Span,
    pub left: Child<T, PatTag>,
    pub right: Child<T, ExprTag>,
}

/// `left = right` in a pattern.
pub type AssignPat = AssignPatOf<Part>;

/// A part of an object pattern.
#[derive(Drop)]
pub enum ObjectPatPropOf<T> {
    KeyValue(KeyValuePatPropOf<T>),
    Assign(AssignPatPropOf<T>),
    Rest(RestPatOf<T>),
}

impl<T: fmt::Debug> fmt::Debug for ObjectPatPropOf<T> {
    fn fmt<W: fmt::Write>(&self, f: &mut fmt::Formatter<W>) -> fmt::Result {
        match self {
            ObjectPatPropOf::KeyValue(x) => fmt::Debug::fmt(x, f),
            ObjectPatPropOf::Assign(x) => fmt::Debug::fmt(x, f),
            ObjectPatPropOf::Rest(x) => fmt::Debug::fmt(x, f),
        }
    }
}

/// A part of an object pattern.
pub type ObjectPatProp = ObjectPatPropOf<Part>;

/// `key: value` in a pattern.
#[derive(Debug, Drop)]
pub struct KeyValuePatPropOf<T> {
    pub span: Span,
    pub key: PropNameOf<T>,
    pub value: Child<T, PatTag>,
}

/// `key: value` in a pattern.
pub type KeyValuePatProp = KeyValuePatPropOf<Part>;

/// `key` or `key = value` in a pattern.
#[derive(Debug, Drop)]
pub struct AssignPatPropOf<T> {
    pub span: Span,
    pub key: BindingIdent,
    pub value: Option<Child<T, ExprTag>>,
}

/// `key` or `key = value` in a pattern.
pub type AssignPatProp = AssignPatPropOf<Part>;

/// What an assignment assigns to.
#[derive(Drop)]
pub enum AssignTargetOf<T> {
    Ident(BindingIdent),
    Member(Box<MemberExprOf<T>>),
    SuperProp(Box<SuperPropExprOf<T>>),
    Paren(ParenExprOf<T>),
    OptChain(Box<OptChainExprOf<T>>),
    Array(ArrayPatOf<T>),
    Object(ObjectPatOf<T>),
    Invalid(Invalid),
}

impl<T: fmt::Debug> fmt::Debug for AssignTargetOf<T> {
    fn fmt<W: fmt::Write>(&self, f: &mut fmt::Formatter<W>) -> fmt::Result {
        match self {
            AssignTargetOf::Ident(x) => fmt::Debug::fmt(x, f),
            AssignTargetOf::Member(x) => fmt::Debug::fmt(x, f),
            AssignTargetOf::SuperProp(x) => fmt::Debug::fmt(x, f),
            AssignTargetOf::Paren(x) => fmt::Debug::fmt(x, f),
            AssignTargetOf::OptChain(x) => fmt::Debug::fmt(x, f),
            AssignTargetOf::Array(x) => fmt::Debug::fmt(x, f),
            AssignTargetOf::Object(x) => fmt::Debug::fmt(x, f),
            AssignTargetOf::Invalid(x) => fmt::Debug::fmt(x, f),
        }
    }
}

/// What an assignment assigns to.
pub type AssignTarget = AssignTargetOf<Part>;
