//! Runs of characters at the front of a text, found by its bytes.
ghost use Rattle.std.specs.Prelude.{◌≡◌, ◌≢◌, ℕ, ◌+◌, ◌≤◌, ◌<◌, List, ◌∷◌, length, option_map, IfSome, IsUtf8, MatchOption};
ghost use Rattle.std.specs.List.{prefix_len};
ghost use Rattle.std.specs.Str.{chars};
ghost use Rattle.lex_pieces.specs.Characters as spec;
ghost use Rattle.lex_pieces.specs.Classes.{is_name_byte, is_reg_exp_byte, is_space_byte, is_line_char, is_reg_exp_char, member, plain};
ghost use Rattle.lex_pieces.specs.Runs.{Passed, run, after};
ghost use Rattle.lex_pieces.specs.Comments.{NoEnd, IsBlock};
ghost use Rattle.lex_pieces.specs.ReadingTrivia.{past};

use crate::bytes::byte_class;
use crate::characters::{CharExt, pop};
use memchr::{memchr, memchr3};

/// The first byte of U+2028 and U+2029.
const SEPARATOR_LEAD: u8 = 0xE2;

/// A class of characters, of which a text may hold a run.
#[derive(Clone, Copy)]
enum Class {
    /// What a name goes on with.
    NamePart,
    /// White space.
    WhiteSpace,
    /// All but line terminators.
    Line,
    /// All but `*`.
    NoStar,
    /// All but line terminators and what has a meaning in the body of a regular expression.
    RegExp,
}

impl Class {
    /// Whether the character is one of the class.
    #[inline(always)]
    fn contains(self, c: char) -> bool
        ensures { result ≡ member self c }
    {
        match self {
            Class::NamePart => c.is_ident_part(),
            Class::WhiteSpace => c.is_ws(),
            Class::Line => !c.is_line_terminator(),
            Class::NoStar => c != '*',
            Class::RegExp => !c.is_line_terminator() && !matches!(c, '/' | '[' | '\\' | ']'),
        }
    }
}

#[inline]
fn is_name_byte(byte: u8) -> bool
    ensures { result ≡ is_name_byte byte }
{
    byte_class(byte).is_name_part()
}

#[inline]
fn is_space_byte(byte: u8) -> bool
    ensures { result ≡ is_space_byte byte }
{
    byte_class(byte).is_white_space()
}

#[inline]
fn is_reg_exp_byte(byte: u8) -> bool
    ensures { result ≡ is_reg_exp_byte byte }
{
    !matches!(
        byte,
        b'\n' | b'\r' | SEPARATOR_LEAD | b'/' | b'[' | b'\\' | b']'
    )
}

/// How many bytes at the front are of characters of the class, as far as bytes tell.
#[inline(always)]
fn plain_len(bytes: &[u8], class: Class) -> usize
    ensures { result ≡ prefix_len (plain class) bytes.now }
{
    match class {
        Class::NamePart => bytes.iter().take_while(|b| is_name_byte(**b)).count(),
        Class::WhiteSpace => bytes.iter().take_while(|b| is_space_byte(**b)).count(),
        Class::Line => memchr3(b'\n', b'\r', SEPARATOR_LEAD, bytes).unwrap_or(bytes.len()),
        Class::NoStar => memchr(b'*', bytes).unwrap_or(bytes.len()),
        Class::RegExp => bytes.iter().take_while(|b| is_reg_exp_byte(**b)).count(),
    }
}

/// The text after characters of the class that bytes alone tell.
#[inline(always)]
fn skip_plain(text: &str, class: Class) -> &str
    ensures passed { Passed (member class) (chars text.now) (chars result.now) }
    ensures shorter { length result.now ≤ length text.now }
{
    let len = plain_len(text.as_bytes(), class);
    &text[len..]
}

/// What follows the run of characters of the class at the front of a text.
#[inline(always)]
fn after_run(text: &str, class: Class) -> &str
    ensures after { chars result.now ≡ after (member class) (chars text.now) }
    ensures rest { IsUtf8 result.now × (length result.now ≤ length text.now) }
{
    let mut rest = skip_plain(text, class);
    while let Some((c, more)) = pop(rest) {
        if !class.contains(c) {
            break;
        }
        rest = skip_plain(more, class);
    }
    rest
}

/// The run of characters of the class at the front of a text, and what follows it.
#[inline(always)]
fn split_run(text: &str, class: Class) -> (&str, &str)
    ensures run { chars result.0.now ≡ run (member class) (chars text.now) }
    ensures after { chars result.1.now ≡ after (member class) (chars text.now) }
    ensures lengths { length result.0.now + length result.1.now ≡ length text.now }
    ensures texts { IsUtf8 result.0.now × IsUtf8 result.1.now }
{
    let rest = after_run(text, class);
    text.split_at(text.len() - rest.len())
}

/// What follows what a name goes on with at the front of a text (ECMA-262, 12.7).
#[inline(always)]
pub(crate) fn after_name_part(text: &str) -> &str
    ensures after { chars result.now ≡ after spec.is_name_part (chars text.now) }
    ensures rest { IsUtf8 result.now × (length result.now ≤ length text.now) }
{
    after_run(text, Class::NamePart)
}

/// What follows the white space at the front of a text (ECMA-262, 12.2).
#[inline(always)]
pub(crate) fn after_white_space(text: &str) -> &str
    ensures after { chars result.now ≡ after spec.is_white_space (chars text.now) }
    ensures rest { IsUtf8 result.now × (length result.now ≤ length text.now) }
{
    after_run(text, Class::WhiteSpace)
}

/// What a name goes on with at the front of a text (ECMA-262, 12.7), and what follows it.
pub fn split_name_part(text: &str) -> (&str, &str)
    ensures run { chars result.0.now ≡ run spec.is_name_part (chars text.now) }
    ensures after { chars result.1.now ≡ after spec.is_name_part (chars text.now) }
    ensures lengths { length result.0.now + length result.1.now ≡ length text.now }
    ensures texts { IsUtf8 result.0.now × IsUtf8 result.1.now }
{
    split_run(text, Class::NamePart)
}

/// The white space at the front of a text (ECMA-262, 12.2), and what follows it.
pub fn split_white_space(text: &str) -> (&str, &str)
    ensures run { chars result.0.now ≡ run spec.is_white_space (chars text.now) }
    ensures after { chars result.1.now ≡ after spec.is_white_space (chars text.now) }
    ensures lengths { length result.0.now + length result.1.now ≡ length text.now }
    ensures texts { IsUtf8 result.0.now × IsUtf8 result.1.now }
{
    split_run(text, Class::WhiteSpace)
}

/// The text up to its first line terminator (ECMA-262, 12.3), and what follows.
pub fn split_line(text: &str) -> (&str, &str)
    ensures run { chars result.0.now ≡ run is_line_char (chars text.now) }
    ensures after { chars result.1.now ≡ after is_line_char (chars text.now) }
    ensures lengths { length result.0.now + length result.1.now ≡ length text.now }
    ensures texts { IsUtf8 result.0.now × IsUtf8 result.1.now }
{
    split_run(text, Class::Line)
}

/// The characters at the front of a text that stand for themselves in a regular expression, in a class
/// and outside (ECMA-262, 12.9.5), and what follows them.
pub fn split_reg_exp_char(text: &str) -> (&str, &str)
    ensures run { chars result.0.now ≡ run is_reg_exp_char (chars text.now) }
    ensures after { chars result.1.now ≡ after is_reg_exp_char (chars text.now) }
    ensures lengths { length result.0.now + length result.1.now ≡ length text.now }
    ensures texts { IsUtf8 result.0.now × IsUtf8 result.1.now }
{
    split_run(text, Class::RegExp)
}

/// What follows the character where a text begins with it.
#[inline]
pub(crate) fn strip(text: &str, c: char) -> Option<&str>
    ensures cut { MatchOption result ((rest : List ℕ) → chars text.now ≢ c ∷ rest) (λ x. chars text.now ≡ c ∷ chars x.now) }
    ensures value { option_map (λ r. chars r.now) result ≡ past c (chars text.now) }
    ensures rest { IfSome result (λ x. IsUtf8 x.now × (length x.now < length text.now)) }
{
    match pop(text) {
        Some((first, rest)) if first == c => Some(rest),
        _ => None,
    }
}

/// The text of a block comment, which runs up to the first `*/` (ECMA-262, 12.4), and what follows
/// that. There is none where the text has no `*/`.
pub fn split_block(text: &str) -> Option<(&str, &str)>
    ensures cut { MatchOption result (NoEnd (chars text.now)) (λ x. IsBlock (chars text.now) (chars x.0.now) (chars x.1.now)) }
    ensures rest { IfSome result (λ x. IsUtf8 x.0.now × IsUtf8 x.1.now × (length x.1.now < length text.now)) }
{
    let mut rest = skip_plain(text, Class::NoStar);
    while let Some((c, more)) = pop(rest) {
        if c == '*'
            && let Some(after) = strip(more, '/')
        {
            let (own, _) = text.split_at(text.len() - rest.len());
            return Some((own, after));
        }
        rest = skip_plain(more, Class::NoStar);
    }
    None
}
