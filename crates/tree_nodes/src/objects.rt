// Written by tools/tree/node_types.py from tools/tree/tree.table. Don't edit this file.
//! Properties of objects (ECMA-262, 13.2.5).
use crate::expressions::{Ident, SpreadElementOf};
use crate::functions::{FunctionOf, PropNameOf};
use crate::knot::{Child, ExprTag, Part, PatTag};
use crate::statements::BlockStmtOf;
use base_token::Span;
use std::fmt;

/// A part of an object.
#[derive(Drop)]
pub enum PropOrSpreadOf<T> {
    Spread(SpreadElementOf<T>),
    Prop(Box<PropOf<T>>),
}

impl<T: fmt::Debug> fmt::Debug for PropOrSpreadOf<T> {
    fn fmt<W: fmt::Write>(&self, f: &mut fmt::Formatter<W>) -> fmt::Result {
        match self {
            PropOrSpreadOf::Spread(x) => fmt::Debug::fmt(x, f),
            PropOrSpreadOf::Prop(x) => fmt::Debug::fmt(x, f),
        }
    }
}

/// A part of an object.
pub type PropOrSpread = PropOrSpreadOf<Part>;

/// A property of an object.
#[derive(Drop)]
pub enum PropOf<T> {
    Shorthand(Ident),
    KeyValue(KeyValuePropOf<T>),
    Assign(AssignPropOf<T>),
    Getter(GetterPropOf<T>),
    Setter(SetterPropOf<T>),
    Method(MethodPropOf<T>),
}

impl<T: fmt::Debug> fmt::Debug for PropOf<T> {
    fn fmt<W: fmt::Write>(&self, f: &mut fmt::Formatter<W>) -> fmt::Result {
        match self {
            PropOf::Shorthand(x) => fmt::Debug::fmt(x, f),
            PropOf::KeyValue(x) => fmt::Debug::fmt(x, f),
            PropOf::Assign(x) => fmt::Debug::fmt(x, f),
            PropOf::Getter(x) => fmt::Debug::fmt(x, f),
            PropOf::Setter(x) => fmt::Debug::fmt(x, f),
            PropOf::Method(x) => fmt::Debug::fmt(x, f),
        }
    }
}

/// A property of an object.
pub type Prop = PropOf<Part>;

/// `key: value`.
#[derive(Debug, Drop)]
pub struct KeyValuePropOf<T> {
    pub span: Span,
    pub key: PropNameOf<T>,
    pub value: Child<T, ExprTag>,
}

/// `key: value`.
pub type KeyValueProp = KeyValuePropOf<Part>;

/// `key = value`, which is no object's but a pattern's.
#[derive(Debug, Drop)]
pub struct AssignPropOf<T> {
    pub span: Span,
    pub key: Ident,
    pub value: Child<T, ExprTag>,
}

/// `key = value`, which is no object's but a pattern's.
pub type AssignProp = AssignPropOf<Part>;

/// `get key() { .. }`.
#[derive(Debug, Drop)]
pub struct GetterPropOf<T> {
    pub span: Span,
    pub key: PropNameOf<T>,
    pub body: BlockStmtOf<T>,
}

/// `get key() { .. }`.
pub type GetterProp = GetterPropOf<Part>;

/// `set key(param) { .. }`.
#[derive(Debug, Drop)]
pub struct SetterPropOf<T> {
    pub span: Span,
    pub key: PropNameOf<T>,
    pub param: Child<T, PatTag>,
    pub body: BlockStmtOf<T>,
}

/// `set key(param) { .. }`.
pub type SetterProp = SetterPropOf<Part>;

/// `key(..) { .. }`.
#[derive(Debug, Drop)]
pub struct MethodPropOf<T> {
    pub span: Span,
    pub key: PropNameOf<T>,
    pub function: Box<FunctionOf<T>>,
}

/// `key(..) { .. }`.
pub type MethodProp = MethodPropOf<Part>;
