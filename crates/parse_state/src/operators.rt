//! How tightly operators bind, by their kinds.
ghost use Rattle.std.specs.Prelude.{◌≡◌, ◌≤◌};
ghost use Rattle.grammar_spec.specs.Tokens.Operators as spec;
ghost use Rattle.grammar_spec.specs.Tokens.Input.{has_in};
ghost use Rattle.parse_state.specs.Codes.{code_of};

use crate::code::Around;
use crate::kinds;
use crate::words::always_reserved;

/// An expression with commas, and the level of an assignment, of a conditional and of what they are made of.
pub const EXPRESSION: u8 = 1;

pub const ASSIGNMENT: u8 = 2;

pub const CONDITIONAL: u8 = 3;

pub const COALESCE: u8 = 4;

pub const BIT_OR: u8 = 7;

pub const EXPONENT: u8 = 15;

pub const UNARY: u8 = 16;

pub const UPDATE_LEVEL: u8 = 17;

pub const NEW_LEVEL: u8 = 18;

pub const CALL: u8 = 19;

pub const MEMBER: u8 = 20;

pub const PRIMARY: u8 = 21;

/// The classes of what stands last.
pub const OTHER_END: u8 = 0;

pub const POSTFIX_END: u8 = 1;

pub const CLOSED_END: u8 = 2;

pub const LET_END: u8 = 3;

pub const BINDING_END: u8 = 4;

pub const KEY_END: u8 = 5;

pub const ACCESSOR_END: u8 = 6;

pub const STATIC_END: u8 = 7;

pub const EXPORTS_END: u8 = 8;

pub const SOURCE_END: u8 = 9;

pub const PLAIN_END: u8 = 10;

/// Whether a kind is one of those from the first to the last.
pub fn between(first: u8, last: u8, kind: u8) -> bool
    ensures { result ≡ spec.between first last kind }
{
    first <= kind && kind <= last
}

/// The level of a binary operator, or 0.
pub fn binary_level(kind: u8) -> u8
    ensures value { result ≡ spec.binary_level kind }
    ensures small { result ≤ 15 }
{
    if kind == kinds::NULLISH_COALESCING {
        COALESCE
    } else if kind == kinds::LOGICAL_OR {
        5
    } else if kind == kinds::LOGICAL_AND {
        6
    } else if kind == kinds::BIT_OR {
        BIT_OR
    } else if kind == kinds::BIT_XOR {
        8
    } else if kind == kinds::BIT_AND {
        9
    } else if between(kinds::EQ_EQ, kinds::NOT_EQ_EQ, kind) {
        10
    } else if between(kinds::LT, kinds::GT_EQ, kind)
        || (kind == kinds::IN || kind == kinds::INSTANCEOF)
    {
        11
    } else if between(kinds::LEFT_SHIFT, kinds::ZERO_FILL_RIGHT_SHIFT, kind) {
        12
    } else if between(kinds::ADD, kinds::SUB, kind) {
        13
    } else if between(kinds::MUL, kinds::MOD, kind) {
        14
    } else if kind == kinds::EXP {
        EXPONENT
    } else {
        0
    }
}

/// The level of its right operand.
pub fn right_level(kind: u8) -> u8
    ensures { result ≡ spec.right_level kind }
{
    if kind == kinds::EXP {
        EXPONENT
    } else if kind == kinds::NULLISH_COALESCING {
        BIT_OR
    } else {
        binary_level(kind) + 1
    }
}

/// Whether a kind is that of an operator that assigns.
pub fn is_assign_op(kind: u8) -> bool
    ensures { result ≡ spec.is_assign_op kind }
{
    between(kinds::ASSIGN, kinds::NULLISH_ASSIGN, kind)
}

/// Whether a kind is that of a binary operator here.
pub fn operates(code: Around, kind: u8) -> bool
    ensures { result ≡ spec.operates (code_of code) kind }
{
    if kind == kinds::IN {
        code.context.include_in_expr
    } else {
        1 <= binary_level(kind)
    }
}

/// Whether a kind starts the name of a property.
pub fn starts_key(kind: u8) -> bool
    ensures { result ≡ spec.starts_key kind }
{
    kinds::NULL <= kind
        || (kind == kinds::STR
            || (kind == kinds::NUM
                || (kind == kinds::BIG_INT
                    || (kind == kinds::LEFT_BRACKET || kind == kinds::HASH))))
}

/// Whether a word may be a name in some code.
pub fn may_name(kind: u8) -> bool
    ensures { result ≡ spec.may_name kind }
{
    kinds::NULL <= kind && !always_reserved(kind)
}
