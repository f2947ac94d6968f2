//! Keys of properties: a word is the string of its text.
ghost use Rattle.std.specs.Prelude.{◌≡◌, ℕ, false, List, ◌∷◌, ◌++◌, bytes_eq, MatchOption};
ghost use Rattle.std.specs.Char.Escape.{encode_utf16};
ghost use Rattle.std.specs.Str.{chars};
ghost use Rattle.base_token.specs.Utf16.{utf16};
ghost use Rattle.tree_nodes.specs.View.{view_key, view_prop_name};
ghost use Rattle.tree_same.specs.Compared.{same_keys};

use crate::parts::{Held, Same};
use std::convert::AsStr;
use tree_nodes::{KeyOf, PropNameOf};

/// Whether two keys say the same.
#[tactic(auto, using(crate::proofs::KeyLemmas::key_cases))]
pub(crate) fn same_key<T: Held>(key: &PropNameOf<T>, other: &PropNameOf<T>) -> bool
    ensures { result ≡ same_keys (view_prop_name T.tree key.now) (view_prop_name T.tree other.now) }
{
    match (key, other) {
        (PropNameOf::Ident(x), PropNameOf::Ident(y)) => {
            same_words(x.sym.as_str(), y.sym.as_str())
        }
        (PropNameOf::Ident(x), PropNameOf::Str(y)) => {
            spells_units(x.sym.as_str(), y.units.as_slice())
        }
        (PropNameOf::Str(x), PropNameOf::Ident(y)) => {
            spells_units(y.sym.as_str(), x.units.as_slice())
        }
        (PropNameOf::Str(x), PropNameOf::Str(y)) => x.same(y),
        (PropNameOf::Num(x), PropNameOf::Num(y)) => x.same(y),
        (PropNameOf::BigInt(x), PropNameOf::BigInt(y)) => x.same(y),
        (PropNameOf::Computed(x), PropNameOf::Computed(y)) => x.same(y),
        _ => false,
    }
}

/// Whether two keys of members of classes say the same.
#[tactic(auto, using(crate::proofs::KeyLemmas::member_key_cases))]
pub(crate) fn same_member_key<T: Held>(key: &KeyOf<T>, other: &KeyOf<T>) -> bool
    ensures { result ≡ same_keys (view_key T.tree key.now) (view_key T.tree other.now) }
{
    match (key, other) {
        (KeyOf::Private(x), KeyOf::Private(y)) => x.same(y),
        (KeyOf::Public(x), KeyOf::Public(y)) => same_key(x, y),
        _ => false,
    }
}

/// Whether two texts have the same units.
fn same_words(text: &str, other: &str) -> bool
    ensures { result ≡ bytes_eq (utf16 (chars text.now)) (utf16 (chars other.now)) }
{
    text == other
}

/// Whether a text has these units.
fn spells_units(text: &str, units: &[u16]) -> bool
    ensures { result ≡ bytes_eq (utf16 (chars text.now)) units.now }
{
    let mut rest = units;
    'chars: for c in text.chars() {
        match past_char(c, rest) {
            Some(after) => rest = after,
            None => return false,
        }
    }
    rest.is_empty()
}

/// What follows the units of a character, where units begin with them.
fn past_char(c: char, units: &[u16]) -> Option<&[u16]>
    ensures { MatchOption result ((t : List ℕ) → bytes_eq (encode_utf16 c ++ t) units.now ≡ false) (λ r. (t : List ℕ) → bytes_eq (encode_utf16 c ++ t) units.now ≡ bytes_eq t r.now) }
{
    let code = c as u32;
    if code < 0x1_0000 {
        return past_unit(code as u16, units);
    }
    let over = code - 0x1_0000;
    let Some(rest) = past_unit((0xD800 + over / 0x400) as u16, units) else {
        return None;
    };
    past_unit((0xDC00 + over % 0x400) as u16, rest)
}

/// What follows a unit, where units begin with it.
fn past_unit(unit: u16, units: &[u16]) -> Option<&[u16]>
    ensures { MatchOption result ((t : List ℕ) → bytes_eq (unit ∷ t) units.now ≡ false) (λ r. (t : List ℕ) → bytes_eq (unit ∷ t) units.now ≡ bytes_eq t r.now) }
{
    let (first, rest) = units.split_first()?;
    if *first == unit { Some(rest) } else { None }
}
