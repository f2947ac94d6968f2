// Written by tools/tree/node_types.py from tools/tree/tree.table. Don't edit this file.
//! Literals (ECMA-262, 13.2.3, 13.2.7 and 13.2.8).
use base_token::{Atom, NumValue, Span, StrValue};
use std::fmt;

/// A literal.
#[derive(Drop)]
pub enum Lit {
    Str(Str),
    Bool(Bool),
    Null(Null),
    Num(Number),
    BigInt(BigInt),
    Regex(Regex),
}

impl fmt::Debug for Lit {
    fn fmt<W: fmt::Write>(&self, f: &mut fmt::Formatter<W>) -> fmt::Result {
        match self {
            Lit::Str(x) => fmt::Debug::fmt(x, f),
            Lit::Bool(x) => fmt::Debug::fmt(x, f),
            Lit::Null(x) => fmt::Debug::fmt(x, f),
            Lit::Num(x) => fmt::Debug::fmt(x, f),
            Lit::BigInt(x) => fmt::Debug::fmt(x, f),
            Lit::Regex(x) => fmt::Debug::fmt(x, f),
        }
    }
}

/// A string: its units, and its spelling with the quotes where it was read.
#[derive(Debug, Drop)]
pub struct Str {
    pub span: Span,
    pub units: StrValue,
    pub raw: Option<Atom>,
}

/// `true` or `false`.
#[derive(Debug, Drop)]
pub struct Bool {
    pub span: Span,
    pub value: bool,
}

/// `null`.
#[derive(Debug, Drop)]
pub struct Null {
    pub span: Span,
}

/// A number, and its spelling where it was read.
#[derive(Debug, Drop)]
pub struct Number {
    pub span: Span,
    pub value: Box<NumValue>,
    pub raw: Option<Atom>,
}

/// A big integer: radix and digits as spelled without prefix and separators, and its spelling where
/// it was read.
#[derive(Debug, Drop)]
pub struct BigInt {
    pub span: Span,
    pub radix: u32,
    pub digits: Atom,
    pub raw: Option<Atom>,
}

/// A regular expression: what stands between its slashes, and its flags.
#[derive(Debug, Drop)]
pub struct Regex {
    pub span: Span,
    pub exp: Atom,
    pub flags: Atom,
}
