//! Punctuators at the front of a text.
ghost use Rattle.std.specs.Prelude.{◌≡◌, ◌<◌, ◌≤◌, [], ◌∷◌, codes, length, option_map, IfSome, IsUtf8, MatchOption, Some};
ghost use Rattle.std.specs.Str.{chars};
ghost use Rattle.base_token.specs.declared.token.TokenKind.TheVariants as kind;
ghost use Rattle.lex_pieces.specs.Punctuators.{IsPunctuator, NoPunctuator, begins_with_digit, find, punctuators, read_punctuator, tails};

use crate::characters::pop;
use crate::runs::strip;
use base_token::operator::{AssignOp, BinOpToken};
use base_token::token::TokenKind;

/// The operator, or the one that assigns where an equals sign follows it.
#[inline]
fn or_assign(op: BinOpToken, assign: AssignOp, rest: &str) -> (TokenKind, &str)
    ensures value { Some (result.0, chars result.1.now) ≡ find ((codes "=", kind.AssignOp assign) ∷ ([], kind.BinOp op) ∷ []) (chars rest.now) }
    ensures rest { IsUtf8 result.1.now × (length result.1.now ≤ length rest.now) }
{
    match strip(rest, '=') {
        Some(rest) => (TokenKind::AssignOp(assign), rest),
        None => (TokenKind::BinOp(op), rest),
    }
}

/// The operator, or the one that an equals sign makes of it where one follows.
#[inline]
fn or_equal(op: BinOpToken, equal: BinOpToken, rest: &str) -> (TokenKind, &str)
    ensures value { Some (result.0, chars result.1.now) ≡ find ((codes "=", kind.BinOp equal) ∷ ([], kind.BinOp op) ∷ []) (chars rest.now) }
    ensures rest { IsUtf8 result.1.now × (length result.1.now ≤ length rest.now) }
{
    match strip(rest, '=') {
        Some(rest) => (TokenKind::BinOp(equal), rest),
        None => (TokenKind::BinOp(op), rest),
    }
}

/// The longest punctuator of a dot and this rest.
fn dot(rest: &str) -> (TokenKind, &str)
    ensures value { Some (result.0, chars result.1.now) ≡ find (tails 46 punctuators) (chars rest.now) }
    ensures rest { IsUtf8 result.1.now × (length result.1.now ≤ length rest.now) }
{
    if let Some(more) = strip(rest, '.')
        && let Some(rest) = strip(more, '.')
    {
        (TokenKind::DotDotDot, rest)
    } else {
        (TokenKind::Dot, rest)
    }
}

/// The longest punctuator of an equals sign and this rest.
fn equals(rest: &str) -> (TokenKind, &str)
    ensures value { Some (result.0, chars result.1.now) ≡ find (tails 61 punctuators) (chars rest.now) }
    ensures rest { IsUtf8 result.1.now × (length result.1.now ≤ length rest.now) }
{
    match strip(rest, '=') {
        Some(rest) => or_equal(BinOpToken::EqEq, BinOpToken::EqEqEq, rest),
        None => match strip(rest, '>') {
            Some(rest) => (TokenKind::Arrow, rest),
            None => (TokenKind::AssignOp(AssignOp::Assign), rest),
        },
    }
}

/// The longest punctuator of an exclamation mark and this rest.
fn bang(rest: &str) -> (TokenKind, &str)
    ensures value { Some (result.0, chars result.1.now) ≡ find (tails 33 punctuators) (chars rest.now) }
    ensures rest { IsUtf8 result.1.now × (length result.1.now ≤ length rest.now) }
{
    match strip(rest, '=') {
        Some(rest) => or_equal(BinOpToken::NotEq, BinOpToken::NotEqEq, rest),
        None => (TokenKind::Bang, rest),
    }
}

/// The longest punctuator of a question mark and this rest.
fn question(rest: &str) -> (TokenKind, &str)
    ensures value { Some (result.0, chars result.1.now) ≡ find (tails 63 punctuators) (chars rest.now) }
    ensures rest { IsUtf8 result.1.now × (length result.1.now ≤ length rest.now) }
{
    match strip(rest, '?') {
        Some(rest) => or_assign(BinOpToken::NullishCoalescing, AssignOp::NullishAssign, rest),
        None => (TokenKind::QuestionMark, rest),
    }
}

/// The longest punctuator of a plus sign and this rest.
fn plus(rest: &str) -> (TokenKind, &str)
    ensures value { Some (result.0, chars result.1.now) ≡ find (tails 43 punctuators) (chars rest.now) }
    ensures rest { IsUtf8 result.1.now × (length result.1.now ≤ length rest.now) }
{
    match strip(rest, '+') {
        Some(rest) => (TokenKind::PlusPlus, rest),
        None => or_assign(BinOpToken::Add, AssignOp::AddAssign, rest),
    }
}

/// The longest punctuator of a minus sign and this rest.
fn minus(rest: &str) -> (TokenKind, &str)
    ensures value { Some (result.0, chars result.1.now) ≡ find (tails 45 punctuators) (chars rest.now) }
    ensures rest { IsUtf8 result.1.now × (length result.1.now ≤ length rest.now) }
{
    match strip(rest, '-') {
        Some(rest) => (TokenKind::MinusMinus, rest),
        None => or_assign(BinOpToken::Sub, AssignOp::SubAssign, rest),
    }
}

/// The longest punctuator of a star and this rest.
fn star(rest: &str) -> (TokenKind, &str)
    ensures value { Some (result.0, chars result.1.now) ≡ find (tails 42 punctuators) (chars rest.now) }
    ensures rest { IsUtf8 result.1.now × (length result.1.now ≤ length rest.now) }
{
    match strip(rest, '*') {
        Some(rest) => or_assign(BinOpToken::Exp, AssignOp::ExpAssign, rest),
        None => or_assign(BinOpToken::Mul, AssignOp::MulAssign, rest),
    }
}

/// The longest punctuator of an ampersand and this rest.
fn ampersand(rest: &str) -> (TokenKind, &str)
    ensures value { Some (result.0, chars result.1.now) ≡ find (tails 38 punctuators) (chars rest.now) }
    ensures rest { IsUtf8 result.1.now × (length result.1.now ≤ length rest.now) }
{
    match strip(rest, '&') {
        Some(rest) => or_assign(BinOpToken::LogicalAnd, AssignOp::AndAssign, rest),
        None => or_assign(BinOpToken::BitAnd, AssignOp::BitAndAssign, rest),
    }
}

/// The longest punctuator of a bar and this rest.
fn bar(rest: &str) -> (TokenKind, &str)
    ensures value { Some (result.0, chars result.1.now) ≡ find (tails 124 punctuators) (chars rest.now) }
    ensures rest { IsUtf8 result.1.now × (length result.1.now ≤ length rest.now) }
{
    match strip(rest, '|') {
        Some(rest) => or_assign(BinOpToken::LogicalOr, AssignOp::OrAssign, rest),
        None => or_assign(BinOpToken::BitOr, AssignOp::BitOrAssign, rest),
    }
}

/// The longest punctuator of a less-than sign and this rest.
fn less(rest: &str) -> (TokenKind, &str)
    ensures value { Some (result.0, chars result.1.now) ≡ find (tails 60 punctuators) (chars rest.now) }
    ensures rest { IsUtf8 result.1.now × (length result.1.now ≤ length rest.now) }
{
    match strip(rest, '<') {
        Some(rest) => or_assign(BinOpToken::LShift, AssignOp::LShiftAssign, rest),
        None => or_equal(BinOpToken::Lt, BinOpToken::LtEq, rest),
    }
}

/// The longest punctuator of a greater-than sign and this rest.
fn greater(rest: &str) -> (TokenKind, &str)
    ensures value { Some (result.0, chars result.1.now) ≡ find (tails 62 punctuators) (chars rest.now) }
    ensures rest { IsUtf8 result.1.now × (length result.1.now ≤ length rest.now) }
{
    match strip(rest, '>') {
        Some(rest) => match strip(rest, '>') {
            Some(rest) => or_assign(
                BinOpToken::ZeroFillRShift,
                AssignOp::ZeroFillRShiftAssign,
                rest,
            ),
            None => or_assign(BinOpToken::RShift, AssignOp::RShiftAssign, rest),
        },
        None => or_equal(BinOpToken::Gt, BinOpToken::GtEq, rest),
    }
}

/// The longest punctuator that begins with this character, before this rest.
#[inline(always)]
fn longest(c: char, rest: &str) -> Option<(TokenKind, &str)>
    ensures value { option_map (λ x. (x.0, chars x.1.now)) result ≡ find (tails c punctuators) (chars rest.now) }
    ensures rest { IfSome result (λ x. IsUtf8 x.1.now × (length x.1.now ≤ length rest.now)) }
{
    Some(match c {
        '{' => (TokenKind::LBrace, rest),
        '}' => (TokenKind::RBrace, rest),
        '(' => (TokenKind::LParen, rest),
        ')' => (TokenKind::RParen, rest),
        '[' => (TokenKind::LBracket, rest),
        ']' => (TokenKind::RBracket, rest),
        ';' => (TokenKind::Semi, rest),
        ',' => (TokenKind::Comma, rest),
        ':' => (TokenKind::Colon, rest),
        '#' => (TokenKind::Hash, rest),
        '@' => (TokenKind::At, rest),
        '~' => (TokenKind::Tilde, rest),
        '`' => (TokenKind::BackQuote, rest),
        '.' => dot(rest),
        '=' => equals(rest),
        '!' => bang(rest),
        '?' => question(rest),
        '+' => plus(rest),
        '-' => minus(rest),
        '*' => star(rest),
        '/' => or_assign(BinOpToken::Div, AssignOp::DivAssign, rest),
        '%' => or_assign(BinOpToken::Mod, AssignOp::ModAssign, rest),
        '^' => or_assign(BinOpToken::BitXor, AssignOp::BitXorAssign, rest),
        '&' => ampersand(rest),
        '|' => bar(rest),
        '<' => less(rest),
        '>' => greater(rest),
        _ => return None,
    })
}

fn begins_with_digit(text: &str) -> bool
    ensures { result ≡ begins_with_digit (chars text.now) }
{
    match pop(text) {
        Some((c, _)) => c.is_ascii_digit(),
        None => false,
    }
}

/// The punctuator at the front of a text.
#[inline(always)]
fn read<'a>(text: &'a str) -> Option<(TokenKind, &'a str)>
    ensures value { option_map (λ x. (x.0, chars x.1.now)) result ≡ read_punctuator (chars text.now) }
    ensures rest { IfSome result (λ x. IsUtf8 x.1.now × (length x.1.now < length text.now)) }
{
    let (c, rest) = pop(text)?;
    if c == '.' && begins_with_digit(rest) {
        return None;
    }
    longest(c, rest)
}

/// The longest punctuator at the front of a text, as the kind of its token, and what follows it, or
/// nothing where none stands there (ECMA-262, 12.8). `?.` is read as `?`, and a dot before a digit as
/// none, since a number begins there. `#` and `@` are read as well.
#[inline(always)]
pub fn punctuator<'a>(text: &'a str) -> Option<(TokenKind, &'a str)>
    ensures punctuator { MatchOption result (NoPunctuator (chars text.now))
        (λ x. IsPunctuator (chars text.now) x.0 (chars x.1.now)) }
    ensures rest { IfSome result (λ x. IsUtf8 x.1.now × (length x.1.now < length text.now)) }
{
    read(text)
}
