//! Texts, units of strings, and pieces of templates.
ghost use Rattle.std.specs.Prelude.{◌≡◌, ◌∷◌, ◌<◌, [], length, true, false, bytes_eq, codes, MatchOption};
ghost use Rattle.std.specs.Prelude.{◌==◌};
ghost use Rattle.std.specs.List.{list_any};
ghost use Rattle.tree_spec.specs.Tree.{trees_by};
ghost use Rattle.tree_program_spec.specs.Program.{line_ends, line_ends_after, is_escaped};
ghost use Rattle.tree_program_spec.specs.Equal.{equal_text};
ghost use Rattle.tree_nodes.specs.View.{view_str, view_tpl_element};
ghost use Rattle.tree_same.specs.Compared.{same_spellings, is_use_strict};

use base_token::{Atom, StrValue};
use std::convert::AsStr;
use tree_nodes::{Str, TplElement};

/// The units of `use strict`.
const USE_STRICT: [u16; 10] = [117, 115, 101, 32, 115, 116, 114, 105, 99, 116];

/// Whether two texts behind `#!` are the same.
pub(crate) fn same_hashbang(text: &Option<Atom>, other: &Option<Atom>) -> bool
    ensures { result ≡ equal_text text.now other.now }
{
    match (text, other) {
        (Some(x), Some(y)) => x == y,
        // For the proof: two arms, since an arm of both says only that one of them holds.
        (Some(_), None) => false,
        (None, Some(_)) => false,
        (None, None) => true,
    }
}

/// Whether two pieces of templates have the same units, or none.
pub(crate) fn same_cooked(units: &Option<StrValue>, other: &Option<StrValue>) -> bool
    ensures { result ≡ equal_text units.now other.now }
{
    match (units, other) {
        (Some(x), Some(y)) => x == y,
        // For the proof: two arms, since an arm of both says only that one of them holds.
        (Some(_), None) => false,
        (None, Some(_)) => false,
        (None, None) => true,
    }
}

/// Whether a string is `use strict` without an escape.
pub(crate) fn str_is_use_strict(text: &Str) -> bool
    ensures { result ≡ is_use_strict (view_str text.now) }
{
    spells_use_strict(text.units.as_slice()) && !has_escape(&text.raw)
}

/// Whether units are those of `use strict`.
fn spells_use_strict(units: &[u16]) -> bool
    ensures { result ≡ bytes_eq units.now (codes "use strict") }
{
    units == USE_STRICT.as_slice()
}

/// Whether a spelling has an escape or a continued line.
fn has_escape(raw: &Option<Atom>) -> bool
    ensures { result ≡ is_escaped raw.now }
{
    match raw {
        Some(raw) => has_backslash(raw.as_str().as_bytes()),
        None => false,
    }
}

/// Whether a text has a backslash.
fn has_backslash(text: &[u8]) -> bool
    ensures { result ≡ list_any (λ b. b == 92) text.now }
{
    text.iter().any(|b| *b == 92)
}

/// Whether the texts of two tagged templates are spelled alike, where each line end is a line feed.
pub(crate) fn same_spellings(texts: &[TplElement], others: &[TplElement]) -> bool
    ensures { result ≡ same_spellings (trees_by view_tpl_element texts.now) (trees_by view_tpl_element others.now) }
{
    let mut rest = others;
    'texts: for x in texts {
        let Some((y, after)) = rest.split_first() else {
            return false;
        };
        // For the proof: two tests in place of one `||`, so that each way out has a goal of its own.
        if x.tail != y.tail {
            return false;
        }
        if !same_line_ends(x.raw.as_str().as_bytes(), y.raw.as_str().as_bytes()) {
            return false;
        }
        rest = after;
    }
    rest.is_empty()
}

/// The first byte of a text whose line ends are line feeds, whether it stands for a carriage return, and what follows it;
/// `past_cr` says that a carriage return came right before.
fn first_spelled(text: &[u8], past_cr: bool) -> Option<(u8, bool, &[u8])>
    ensures { MatchOption result (line_ends_after past_cr text.now ≡ []) (λ r. (line_ends_after past_cr text.now ≡ r.0 ∷ line_ends_after r.1 r.2.now) × (length r.2.now < length text.now)) }
{
    let text = match text {
        [b'\n', rest @ ..] if past_cr => rest,
        _ => text,
    };
    match text {
        [] => None,
        [b'\r', rest @ ..] => Some((b'\n', true, rest)),
        [c, rest @ ..] => Some((*c, false, rest)),
    }
}

/// Whether two texts are the same, where each line end is a line feed.
fn same_line_ends(text: &[u8], other: &[u8]) -> bool
    ensures { result ≡ bytes_eq (line_ends text.now) (line_ends other.now) }
{
    let mut rest = text;
    let mut other_rest = other;
    let mut past_cr = false;
    let mut other_past_cr = false;
    'bytes: loop {
        match (
            first_spelled(rest, past_cr),
            first_spelled(other_rest, other_past_cr),
        ) {
            (Some((c, cr, after)), Some((d, other_cr, other_after))) => {
                if c != d {
                    return false;
                }
                rest = after;
                past_cr = cr;
                other_rest = other_after;
                other_past_cr = other_cr;
            }
            // For the proof: two arms, since an arm of both says only that one of them holds.
            (Some(_), None) => return false,
            (None, Some(_)) => return false,
            (None, None) => return true,
        }
    }
}
