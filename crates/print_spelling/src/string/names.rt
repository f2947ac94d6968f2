//! Names and keys, piece by piece.

ghost use Rattle.std.specs.Prelude.{◌≡◌, ◌+◌, ◌<◌, ◌++◌, true, length, IfSome, IsUtf8, MatchOption, encode_utf8_all, []};
ghost use Rattle.std.specs.List.{prefix_len, list_any};
ghost use Rattle.std.specs.Str.{chars};
ghost use Rattle.lex_pieces.specs.Runs.{run, after};
ghost use Rattle.print_spelling.specs.PieceText.{piece_bytes};
ghost use Rattle.print_spelling.specs.declared.string.quoted.Stage.TheVariants.{Inside};
ghost use Rattle.print_spelling.specs.String.Names as spec;

use crate::string::quoted::Stage;
use crate::{Form, Piece, Style};
use lex_pieces::characters::pop;
use std::marker::Model;

/// A name or a key, piece by piece. A contract sees the bytes to come.
#[derive(Drop)]
pub struct NameText<'a> {
    style: Style,
    quoted: bool,
    stage: Stage,
    rest: &'a str,
}

impl<'a> Model for NameText<'a> {
    ghost use Rattle.std.specs.Prelude.{ℕ, List};
    ghost use Rattle.std.specs.Str.{chars};
    ghost use Rattle.print_spelling.specs.String.Names.{name_bytes};

    ghost Value = { List ℕ };

    ghost view = { λ n. name_bytes n.style n.quoted n.stage (chars n.rest.now) };
}

/// Whether a character is from U+7F to U+FF.
fn is_latin(c: char) -> bool
    ensures { result ≡ spec.is_latin c }
{
    matches!(c, '\u{7F}'..='\u{FF}')
}

/// Whether one of the characters is from U+7F to U+FF.
fn has_latin(text: &str) -> bool
    ensures { result ≡ list_any spec.is_latin (chars text.now) }
{
    text.chars().any(is_latin)
}

/// How a character of a name is written.
fn name_form(style: Style, c: char) -> Form
    ensures { result ≡ spec.name_form style c }
{
    if c < '\u{7F}' || !style.ascii_only {
        Form::Bare
    } else if c < '\u{100}' {
        Form::FourLower
    } else if c < '\u{10000}' {
        Form::Four
    } else {
        Form::Braced
    }
}

/// How a character of a name, or of a key in quotes, is written.
fn form_in(style: Style, quoted: bool, c: char) -> Form
    ensures { result ≡ spec.form_in style quoted c }
{
    if quoted && is_latin(c) {
        Form::Hex
    } else {
        name_form(style, c)
    }
}

/// How many bytes at the front stand for themselves in each name.
fn plain_len(bytes: &[u8]) -> usize
    ensures { result ≡ prefix_len spec.is_plain_byte bytes.now }
{
    let plain = |b: &&u8| **b < 0x7F;
    bytes.iter().take_while(plain).count()
}

/// The characters at the front that stand for themselves in each name, and what follows them.
fn split_plain(text: &str) -> (&str, &str)
    ensures run { chars result.0.now ≡ run spec.is_plain_byte (chars text.now) }
    ensures after { chars result.1.now ≡ after spec.is_plain_byte (chars text.now) }
    ensures text { IsUtf8 result.0.now × IsUtf8 result.1.now }
{
    text.split_at(plain_len(text.as_bytes()))
}

/// A piece behind a first quote or where there is none, and what is left behind it.
#[derive(Clone, Copy)]
struct Step<'a> {
    piece: Piece<'a>,
    rest: &'a str,
}

/// The next piece of a name that isn't at its end.
fn inside(style: Style, quoted: bool, text: &str) -> Option<Step<'_>>
    ensures bytes { MatchOption result (chars text.now ≡ []) (λ step. spec.name_bytes style quoted Inside (chars text.now)
        ≡ piece_bytes step.piece ++ spec.name_bytes style quoted Inside (chars step.rest.now)) }
    ensures some { IfSome result (λ step. 0 < length (piece_bytes step.piece)) }
{
    let (run, rest) = split_plain(text);
    if !run.is_empty() {
        return Some(Step {
            piece: Piece::Lent(run),
            rest,
        });
    }
    let (c, rest) = pop(text)?;
    Some(Step {
        piece: Piece::Made(form_in(style, quoted, c).made(c as u32)),
        rest,
    })
}

impl<'a> NameText<'a> {
    /// A name, by its text without escapes.
    pub fn name(text: &'a str, style: Style) -> NameText<'a>
        ensures { result ≡ encode_utf8_all (spec.name_text style (chars text.now) []) }
    {
        NameText {
            style,
            quoted: false,
            stage: Stage::Inside,
            rest: text,
        }
    }

    /// A word that is a key, by its text without escapes.
    pub fn key(text: &'a str, style: Style) -> NameText<'a>
        ensures { result ≡ encode_utf8_all (spec.key_text style (chars text.now) []) }
    {
        if style.ascii_only && has_latin(text) {
            NameText {
                style,
                quoted: true,
                stage: Stage::Opening,
                rest: text,
            }
        } else {
            NameText::name(text, style)
        }
    }

    /// The next piece of it, which isn't empty, and none where all is written.
    pub fn next_piece(&mut self) -> Option<Piece<'a>>
        ensures bytes { MatchOption result ((self.old ≡ []) × (self.new ≡ [])) (λ piece. self.old ≡ piece_bytes piece ++ self.new) }
        ensures some { IfSome result (λ piece. 0 < length (piece_bytes piece)) }
    {
        match self.stage {
            Stage::Opening => {
                self.stage = Stage::Inside;
                Some(Piece::Lent("\""))
            }
            Stage::Inside => match inside(self.style, self.quoted, self.rest) {
                Some(step) => {
                    self.rest = step.rest;
                    Some(step.piece)
                }
                None => {
                    self.stage = Stage::Closed;
                    if self.quoted {
                        Some(Piece::Lent("\""))
                    } else {
                        None
                    }
                }
            },
            Stage::Closed => None,
        }
    }
}
