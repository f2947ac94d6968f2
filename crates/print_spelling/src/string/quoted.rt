//! Units in quotes, block by block.

ghost use Rattle.std.specs.Prelude.{◌≡◌, ◌+◌, ◌<◌, ◌≤◌, ◌++◌, ◌==◌, true, [], ◌∷◌, length, filter, IfSome, MatchOption, encode_utf8_all};
ghost use Rattle.arrayvec.specs.ArrayString.{array_string_len};
ghost use Rattle.arrayvec.specs.ArrayVec.{array_vec_len};
ghost use Rattle.lex_pieces.specs.Runs.{Each};
ghost use Rattle.lex_literal.specs.Strings.{is_quote};
ghost use Rattle.print_spelling.specs.String.CodePoints.{code_points};
ghost use Rattle.print_spelling.specs.declared.string.quoted.Stage.TheVariants.{Inside};
ghost use Rattle.print_spelling.specs.String.QuotedTexts.{left_bytes, is_plain_unit};
ghost use Rattle.print_spelling.specs.String.Strings as spec;

use crate::Style;
use crate::form::push_ascii;
use crate::string::character::{behind, form_of};
use crate::string::units::front;
use arrayvec::{ArrayString, ArrayVec};
use std::marker::Model;

/// How the text before a character ends, where that tells how it is written.
#[derive(Clone, Copy, Debug, PartialEq, Eq)]
pub enum Behind {
    /// Neither of the others.
    Other,
    /// With `<`.
    Less,
    /// With one `-`.
    Dash,
    /// With two or more `-`.
    Dashes,
}

/// How far a literal is written.
#[derive(Clone, Copy, Debug, PartialEq, Eq)]
pub(crate) enum Stage {
    /// Not yet begun.
    Opening,
    /// Behind its first quote.
    Inside,
    /// Whole.
    Closed,
}

/// A part of a string that is written: up to 128 bytes.
pub type Block = ArrayString<128>;

/// Up to so many bytes a block has room for the longest character, of 12 bytes, and a quote.
const FULL: usize = 115;

/// As many units are looked at before their text is added.
const RUN: usize = 32;

/// A string in quotes, block by block. It takes no memory. A contract sees the bytes to come.
#[derive(Drop)]
pub struct QuotedText<'a> {
    style: Style,
    quote: char,
    behind: Behind,
    stage: Stage,
    rest: &'a [u16],
}

impl<'a> Model for QuotedText<'a> {
    ghost use Rattle.std.specs.Prelude.{◌≡◌, ℕ, List, true};
    ghost use Rattle.lex_literal.specs.Strings.{is_quote};
    ghost use Rattle.print_spelling.specs.String.CodePoints.{code_points};
    ghost use Rattle.print_spelling.specs.String.QuotedTexts.{left_bytes};

    ghost Value = { List ℕ };

    ghost view = { λ q. left_bytes q.style q.quote q.behind q.stage (code_points q.rest.now) };

    ghost invariant = { λ q. is_quote q.quote ≡ true };
}

/// How often a unit comes.
fn count(units: &[u16], unit: u16) -> u64
    ensures { result ≡ length (filter (λ c. c == unit) units.now) }
{
    units.iter().filter(|u| **u == unit).count() as u64
}

/// The quote of a string: an apostrophe where there are more quotation marks than apostrophes.
fn quote_of(units: &[u16]) -> char
    ensures { result ≡ spec.quote_of (code_points units.now) }
{
    if !units.contains(&34) {
        return '"';
    }
    if count(units, 39) < count(units, 34) {
        '\''
    } else {
        '"'
    }
}

/// The quote as a text.
fn quote_text(quote: char) -> &'static str
    requires { is_quote quote ≡ true }
    ensures value { result.now ≡ encode_utf8_all (quote ∷ []) }
    ensures one { length result.now ≡ 1 }
{
    if quote == '"' { "\"" } else { "'" }
}

/// What is left behind the part of a string that was written.
#[derive(Clone, Copy)]
struct Left<'a> {
    behind: Behind,
    rest: &'a [u16],
}

/// Whether a unit stands for itself in each string, whatever stands round it.
fn is_plain(style: Style, unit: u16) -> bool
    ensures { result ≡ is_plain_unit style unit }
{
    matches!(unit, 0x20..=0x7E)
        && !matches!(unit, 34 | 39 | 92)
        && !(style.inline_script && matches!(unit, 45 | 47 | 60 | 62))
}

/// Takes as many units at the front as stand for themselves in each string, of at most `room`. It answers the
/// units behind them.
fn take_plain<'a>(
    run: &mut ArrayVec<u8, RUN>,
    style: Style,
    units: &'a [u16],
    room: usize,
) -> &'a [u16]
    requires room { room ≤ RUN }
    requires none { run.old.items ≡ [] }
    ensures cut { units.now ≡ run.new.items ++ result.now }
    ensures plain { Each (is_plain_unit style) run.new.items }
    ensures room { array_vec_len run.new ≤ room }
{
    let mut rest = units;
    'units: while let [unit, others @ ..] = rest {
        if run.len() < room && is_plain(style, *unit) {
            run.push(*unit as u8);
            rest = others;
        } else {
            break;
        }
    }
    rest
}

/// Adds one character.
fn push_one<'a>(
    block: &mut Block,
    style: Style,
    quote: char,
    before: Behind,
    units: &'a [u16],
) -> Left<'a>
    requires quote { is_quote quote ≡ true }
    requires room { array_string_len block.old ≤ FULL }
    requires some { 0 < length units.now }
    ensures bytes { block.old.bytes ++ left_bytes style quote before Inside (code_points units.now)
        ≡ block.new.bytes ++ left_bytes style quote result.behind Inside (code_points result.rest.now) }
    ensures room { array_string_len block.new ≤ FULL + 12 }
    ensures shorter { length result.rest.now < length units.now }
{
    let Some((code, rest)) = front(units) else {
        unreachable!();
    };
    let form = form_of(style, quote, before, code, rest);
    block.push_str(form.made(code).as_str());
    Left {
        behind: behind(style, before, code),
        rest,
    }
}

/// Adds the units at the front that stand for themselves, as far as there is room, or else one character.
fn push_first<'a>(
    block: &mut Block,
    style: Style,
    quote: char,
    before: Behind,
    units: &'a [u16],
) -> Left<'a>
    requires quote { is_quote quote ≡ true }
    requires room { array_string_len block.old ≤ FULL }
    requires some { 0 < length units.now }
    ensures bytes { block.old.bytes ++ left_bytes style quote before Inside (code_points units.now)
        ≡ block.new.bytes ++ left_bytes style quote result.behind Inside (code_points result.rest.now) }
    ensures room { array_string_len block.new ≤ FULL + 12 }
    ensures shorter { length result.rest.now < length units.now }
{
    let room = (FULL + 12 - block.len()).min(RUN);
    let mut run = ArrayVec::new();
    let rest = take_plain(&mut run, style, units, room);
    if run.is_empty() {
        return push_one(block, style, quote, before, units);
    }
    push_ascii(block, run.as_slice());
    Left {
        behind: Behind::Other,
        rest,
    }
}

/// Adds as many characters as there is room for.
fn fill<'a>(
    block: &mut Block,
    style: Style,
    quote: char,
    before: Behind,
    units: &'a [u16],
) -> Left<'a>
    requires quote { is_quote quote ≡ true }
    requires room { array_string_len block.old ≤ FULL }
    ensures bytes { block.old.bytes ++ left_bytes style quote before Inside (code_points units.now)
        ≡ block.new.bytes ++ left_bytes style quote result.behind Inside (code_points result.rest.now) }
    ensures room { array_string_len block.new ≤ FULL + 12 }
    ensures full { 0 < length result.rest.now → FULL < array_string_len block.new }
{
    let mut left = Left {
        behind: before,
        rest: units,
    };
    'characters: while !left.rest.is_empty() && block.len() <= FULL {
        left = push_first(block, style, quote, left.behind, left.rest);
    }
    left
}

/// Adds as many characters as there is room for, and behind the last one the quote. It answers what is
/// left, or nothing where the quote was added.
fn go_on<'a>(
    block: &mut Block,
    style: Style,
    quote: char,
    before: Behind,
    units: &'a [u16],
) -> Option<Left<'a>>
    requires quote { is_quote quote ≡ true }
    requires room { array_string_len block.old ≤ FULL }
    ensures bytes { MatchOption result
        (block.old.bytes ++ left_bytes style quote before Inside (code_points units.now) ≡ block.new.bytes)
        (λ left. block.old.bytes ++ left_bytes style quote before Inside (code_points units.now)
        ≡ block.new.bytes ++ left_bytes style quote left.behind Inside (code_points left.rest.now)) }
    ensures some { 0 < array_string_len block.new }
{
    let left = fill(block, style, quote, before, units);
    if !left.rest.is_empty() {
        return Some(left);
    }
    block.push_str(quote_text(quote));
    None
}

impl<'a> QuotedText<'a> {
    /// The text of a string of these units.
    pub fn new(units: &'a [u16], style: Style) -> QuotedText<'a>
        ensures { result ≡ encode_utf8_all (spec.quoted style units.now []) }
    {
        QuotedText {
            style,
            quote: quote_of(units),
            behind: Behind::Other,
            stage: Stage::Opening,
            rest: units,
        }
    }

    /// The next part of it, which isn't empty, and none where all is written.
    pub fn next_block(&mut self) -> Option<Block>
        ensures bytes { MatchOption result ((self.old ≡ []) × (self.new ≡ [])) (λ block. self.old ≡ block.bytes ++ self.new) }
        ensures some { IfSome result (λ block. 0 < array_string_len block) }
    {
        let mut block = Block::new();
        match self.stage {
            Stage::Opening => block.push_str(quote_text(self.quote)),
            Stage::Inside => {}
            Stage::Closed => return None,
        }
        match go_on(&mut block, self.style, self.quote, self.behind, self.rest) {
            Some(left) => {
                self.behind = left.behind;
                self.rest = left.rest;
                self.stage = Stage::Inside;
            }
            None => self.stage = Stage::Closed,
        }
        Some(block)
    }
}
