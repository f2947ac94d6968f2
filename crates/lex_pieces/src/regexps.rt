//! Regular expressions at the front of a text.
ghost use Rattle.std.specs.Prelude.{◌≡◌, ◌<◌, ◌≤◌, ◌∷◌, ◌++◌, false, true, length, option_map, IfOk, IfSome, IsUtf8, MatchOption, MatchResult, None, Some};
ghost use Rattle.std.specs.Str.{chars};
ghost use Rattle.lex_pieces.specs.RegExps.{Goes, IsOpenSlash, IsRegExp, IsRegExpFault, NoRegExp, past_body, past_slash};

use crate::characters::{CharExt, pop};
use crate::place::fault;
use crate::runs::{split_line, split_name_part, split_reg_exp_char, strip};
use base_token::{Error, SyntaxError};

/// A regular expression at the front of a text.
#[derive(Clone, Copy, Debug, PartialEq, Eq)]
pub struct RegExp<'a> {
    /// The text between its slashes.
    pub body: &'a str,
    /// The text of its flags.
    pub flags: &'a str,
    /// The text after it.
    pub rest: &'a str,
}

/// What follows a slash that opens no comment.
fn past_slash(text: &str) -> Option<&str>
    ensures value { option_map (λ r. chars r.now) result ≡ past_slash (chars text.now) }
    ensures rest { IfSome result (λ x. IsUtf8 x.now × (length x.now < length text.now)) }
{
    let inner = strip(text, '/')?;
    match pop(inner) {
        Some(('/' | '*', _)) => None,
        _ => Some(inner),
    }
}

/// Whether a class is open after a character of a body, and what follows it. A backslash takes the
/// next character with it. There is nothing where a line ends.
fn pass(in_class: bool, c: char, more: &str) -> Option<(bool, &str)>
    requires { c ≡ 47 → in_class ≡ true }
    ensures passed { MatchOption result (past_body false in_class (c ∷ chars more.now) ≡ None)
        (λ x. Goes in_class (c ∷ chars more.now) x.0 (chars x.1.now)) }
    ensures rest { IfSome result (λ x. IsUtf8 x.1.now × (length x.1.now ≤ length more.now)) }
{
    match c {
        '\\' => {
            let (escaped, after) = pop(more)?;
            if escaped.is_line_terminator() {
                None
            } else {
                Some((in_class, after))
            }
        }
        '[' => Some((true, more)),
        ']' => Some((false, more)),
        _ if c.is_line_terminator() => None,
        _ => Some((in_class, more)),
    }
}

/// The body of a regular expression at the front of a text, and what follows the slash after it.
fn split_body(text: &str) -> Option<(&str, &str)>
    ensures body { MatchOption result (past_body false false (chars text.now) ≡ None)
        (λ x. (past_body false false (chars text.now) ≡ Some (chars x.1.now)) × (chars text.now ≡ chars x.0.now ++ 47 ∷ chars x.1.now)) }
    ensures rest { IfSome result (λ x. IsUtf8 x.0.now × IsUtf8 x.1.now × (length x.1.now < length text.now)) }
{
    let mut in_class = false;
    let (_, mut rest) = split_reg_exp_char(text);
    while let Some((c, more)) = pop(rest) {
        if c == '/' && !in_class {
            let (own, _) = text.split_at(text.len() - rest.len());
            return Some((own, more));
        }
        let (now_in_class, after) = pass(in_class, c, more)?;
        in_class = now_in_class;
        (_, rest) = split_reg_exp_char(after);
    }
    None
}

/// The regular expression at the front of a text (ECMA-262, 12.9.5), or nothing where the text begins
/// with no slash or with a comment. The text runs to the place `end`.
///
/// A slash with no regular expression is a fault with the span up to the end of its line.
pub fn regular_expression(end: u32, text: &str) -> Result<Option<RegExp<'_>>, Error>
    requires { length text.now < end }
    ensures expression { MatchResult result
        (λ o. MatchOption o (NoRegExp (chars text.now) × (IsOpenSlash (chars text.now) → ⊥))
        (λ x. IsRegExp (chars text.now) (chars x.body.now) (chars x.flags.now) (chars x.rest.now)))
        (λ e. NoRegExp (chars text.now) × IsRegExpFault end (chars text.now) e) }
    ensures rest { IfOk result (λ o. IfSome o (λ x. IsUtf8 x.body.now × IsUtf8 x.flags.now × IsUtf8 x.rest.now × (length x.rest.now < length text.now))) }
{
    let Some(inner) = past_slash(text) else {
        return Ok(None);
    };
    let Some((body, after)) = split_body(inner) else {
        let (_, rest) = split_line(text);
        return Err(fault(end, text, rest, SyntaxError::UnterminatedRegExp));
    };
    let (flags, rest) = split_name_part(after);
    Ok(Some(RegExp { body, flags, rest }))
}
