//! Which sort of token may begin with a character.

ghost use Rattle.std.specs.Prelude.{◌≡◌, ◌≤◌, ◌&&◌, ◌==◌, true};
ghost use Rattle.std.specs.Str.{chars};
ghost use Rattle.lex_literal.specs.Escapes.{begins, is_decimal};
ghost use Rattle.lex_token.specs.Sorts.{begins_mark, class_sort, is_slash, opens_regexp, sort_by};

use crate::goal::LexicalGoal;
use lex_pieces::characters::pop;
use lex_pieces::{ByteClass, CharExt, byte_class};

/// A sort of token, told by how it begins.
#[derive(Clone, Copy)]
pub(crate) enum Sort {
    Word,
    Number,
    Str,
    RegExp,
    /// A punctuator, or nothing.
    Punctuator,
}

/// Whether the character is the dot of a number, before this rest.
fn is_number_dot(c: char, rest: &str) -> bool
    ensures { result ≡ (c == 46 && begins is_decimal (chars rest.now)) }
{
    if c != '.' {
        return false;
    }
    match pop(rest) {
        Some((next, _)) => next.is_digit(10),
        None => false,
    }
}

/// Whether the character opens a regular expression.
fn opens_pattern(goal: LexicalGoal, c: char) -> bool
    ensures { result ≡ (opens_regexp goal && is_slash c) }
{
    goal.opens_regexp() && c == '/'
}

/// The sort of what a punctuator may begin with, before this rest.
#[tactic(auto, using(crate::proofs::SortLemmas::dot_sort, crate::proofs::SortLemmas::pattern_sort, crate::proofs::SortLemmas::mark_sort))]
fn sort_of_mark(goal: LexicalGoal, c: char, rest: &str) -> Sort
    requires { begins_mark c ≡ true }
    ensures { result ≡ sort_by goal c (chars rest.now) }
{
    if is_number_dot(c, rest) {
        Sort::Number
    } else if opens_pattern(goal, c) {
        Sort::RegExp
    } else {
        Sort::Punctuator
    }
}

/// The sort that a character past ASCII begins.
#[tactic(auto, using(crate::proofs::SortLemmas::word_past_ascii, crate::proofs::SortLemmas::nothing_past_ascii))]
fn sort_past_ascii(goal: LexicalGoal, c: char, rest: &str) -> Sort
    requires { 128 ≤ c }
    ensures { result ≡ sort_by goal c (chars rest.now) }
{
    if c.is_ident_start() {
        Sort::Word
    } else {
        Sort::Punctuator
    }
}

/// The sort that each character of the class begins, if the class alone tells.
fn sort_of_class(class: ByteClass) -> Option<Sort>
    ensures { result ≡ class_sort class }
{
    match class {
        ByteClass::NameStart | ByteClass::Backslash => Some(Sort::Word),
        ByteClass::Digit => Some(Sort::Number),
        ByteClass::Quote => Some(Sort::Str),
        _ => None,
    }
}

/// The only sort of token that may begin with the character, before this rest.
pub(crate) fn sort_of(goal: LexicalGoal, c: char, rest: &str) -> Sort
    ensures { result ≡ sort_by goal c (chars rest.now) }
{
    if !c.is_ascii() {
        return sort_past_ascii(goal, c, rest);
    }
    match sort_of_class(byte_class(c as u8)) {
        Some(sort) => sort,
        None => sort_of_mark(goal, c, rest),
    }
}
