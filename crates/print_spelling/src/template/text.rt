//! A piece of an untagged template, part by part.

ghost use Rattle.std.specs.Prelude.{◌≡◌, ◌+◌, ◌<◌, ◌≤◌, ◌++◌, zero, false, true, [], ◌∷◌, length, IsUtf8, MatchOption, encode_utf8_all};
ghost use Rattle.std.specs.List.{prefix_len, list_all};
ghost use Rattle.std.specs.Str.{IsAscii, chars};
ghost use Rattle.lex_pieces.specs.Runs.{run, after};
ghost use Rattle.lex_literal.specs.Escapes as escapes;
ghost use Rattle.lex_literal.specs.Templates.{line_feeds};
ghost use Rattle.print_spelling.specs.PieceText.{piece_bytes};
ghost use Rattle.print_spelling.specs.Template.Left.{PartWrites, left_bytes, is_plain_byte, is_kept_byte};
ghost use Rattle.print_spelling.specs.Template.Templates as spec;

use crate::form::{Made, push_ascii};
use crate::template::part::Part;
use crate::template::raw::{first_part, pop_line};
use crate::{Form, Piece, Style};
use std::marker::Model;

/// A piece of an untagged template, part by part. It takes no memory. A contract sees the bytes to come.
#[derive(Drop)]
pub struct TemplateText<'a> {
    style: Style,
    kept: bool,
    dollar: bool,
    rest: &'a str,
}

impl<'a> Model for TemplateText<'a> {
    ghost use Rattle.std.specs.Prelude.{ℕ, List};
    ghost use Rattle.std.specs.Str.{chars};
    ghost use Rattle.print_spelling.specs.Template.Left.{left_bytes};

    ghost Value = { List ℕ };

    ghost view = { λ t. left_bytes t.style t.kept t.dollar (chars t.rest.now) };
}

/// Whether all characters are ASCII.
fn is_ascii(text: &str) -> bool
    ensures { result ≡ list_all spec.is_ascii (chars text.now) }
{
    text.chars().all(|c| c < '\u{80}')
}

/// Whether a piece of an untagged template stands as it was read, but for its line ends.
fn keeps_raw(style: Style, raw: &str) -> bool
    ensures { result ≡ spec.keeps_raw style (chars raw.now) }
{
    !style.minify && (!style.ascii_only || is_ascii(raw))
}

/// Whether a character is a decimal digit.
fn is_decimal(code: u32) -> bool
    ensures { result ≡ escapes.is_decimal code }
{
    (48..58).contains(&code)
}

/// Whether the first part that writes something is a decimal digit.
fn digit_follows(text: &str) -> bool
    ensures { result ≡ spec.digit_first (spec.parts zero (line_feeds (chars text.now))) }
{
    match first_part(text) {
        Some(cut) => match cut.part {
            Part::Code(code) => is_decimal(code),
            _ => false,
        },
        None => false,
    }
}

/// How a bare character is written, by whether a bare dollar stands before it and by the raw text behind
/// it.
fn form_of(style: Style, dollar: bool, code: u32, rest: &str) -> Form
    ensures { result ≡ spec.form_of style dollar (spec.digit_first (spec.parts zero (line_feeds (chars rest.now)))) code }
{
    match code {
        0 => {
            if digit_follows(rest) {
                Form::Hex
            } else {
                Form::Nul
            }
        }
        0x8 => Form::Letter(b'b'),
        0xB => Form::Letter(b'v'),
        0xC => Form::Letter(b'f'),
        0x7B if dollar => Form::Letter(b'{'),
        0..=0x7E => Form::Bare,
        0x7F..=0xFF => Form::Hex,
        0x2028 | 0x2029 | 0xFEFF => Form::Four,
        _ if style.ascii_only => Form::Braced,
        _ => Form::Bare,
    }
}

/// These ASCII characters.
fn ascii(bytes: &[u8]) -> Made
    requires ascii { IsAscii bytes.now }
    requires room { length bytes.now ≤ 12 }
    ensures { result.bytes ≡ bytes.now }
{
    let mut text = Made::new();
    push_ascii(&mut text, bytes);
    text
}

/// What is written of a part.
fn made(style: Style, dollar: bool, part: Part, rest: &str) -> Made
    requires { PartWrites part }
    ensures { result.bytes ≡ encode_utf8_all (spec.part_text style dollar (spec.digit_first (spec.parts zero (line_feeds (chars rest.now)))) part []) }
{
    match part {
        Part::Pair(c) => ascii(&[b'\\', c]),
        Part::Digits(first, second) => ascii(&[b'\\', b'x', first, second]),
        Part::Last => ascii(b"\\"),
        Part::Nothing => Made::new(),
        Part::Hexed(code) => Form::Hex.made(code),
        Part::Code(code) => form_of(style, dollar, code, rest).made(code),
    }
}

/// Whether a bare dollar stands before what follows a part.
fn dollar_behind(dollar: bool, part: Part) -> bool
    ensures { result ≡ spec.dollar_behind dollar part }
{
    match part {
        Part::Nothing => dollar,
        Part::Code(code) => code == 0x24,
        _ => false,
    }
}

/// How many bytes at the front stand for themselves in each piece.
fn plain_len(bytes: &[u8]) -> usize
    ensures { result ≡ prefix_len is_plain_byte bytes.now }
{
    let plain = |b: &&u8| matches!(**b, 0x20..=0x7E) && !matches!(**b, b'$' | b'\\' | b'{')
        || matches!(**b, 9 | 10);
    bytes.iter().take_while(plain).count()
}

/// The characters at the front that stand for themselves in each piece, and what follows them.
fn split_plain(text: &str) -> (&str, &str)
    ensures run { chars result.0.now ≡ run is_plain_byte (chars text.now) }
    ensures after { chars result.1.now ≡ after is_plain_byte (chars text.now) }
    ensures text { IsUtf8 result.0.now × IsUtf8 result.1.now }
{
    text.split_at(plain_len(text.as_bytes()))
}

/// How many bytes stand before the first CR.
fn kept_len(bytes: &[u8]) -> usize
    ensures { result ≡ prefix_len is_kept_byte bytes.now }
{
    let kept = |b: &&u8| **b != 13;
    bytes.iter().take_while(kept).count()
}

/// The characters before the first CR, and what follows them.
fn split_kept(text: &str) -> (&str, &str)
    ensures run { chars result.0.now ≡ run is_kept_byte (chars text.now) }
    ensures after { chars result.1.now ≡ after is_kept_byte (chars text.now) }
    ensures text { IsUtf8 result.0.now × IsUtf8 result.1.now }
{
    text.split_at(kept_len(text.as_bytes()))
}

/// What is written next, whether a bare dollar stands before what is left, and the raw text that is left.
#[derive(Clone, Copy)]
struct Step<'a> {
    piece: Piece<'a>,
    dollar: bool,
    rest: &'a str,
}

/// What is written next of a raw text that stands as it was read.
fn kept_step(style: Style, text: &str) -> Option<Step<'_>>
    ensures { MatchOption result (left_bytes style true false (chars text.now) ≡ [])
        (λ s. (left_bytes style true false (chars text.now) ≡ piece_bytes s.piece ++ left_bytes style true false (chars s.rest.now))
        × (0 < length (piece_bytes s.piece)) × (s.dollar ≡ false)) }
{
    let (run, rest) = split_kept(text);
    if !run.is_empty() {
        return Some(Step {
            piece: Piece::Lent(run),
            dollar: false,
            rest,
        });
    }
    let (c, rest) = pop_line(text)?;
    Some(Step {
        piece: Piece::Made(Form::Bare.made(c as u32)),
        dollar: false,
        rest,
    })
}

/// What is written next of a raw text, part by part.
fn part_step(style: Style, dollar: bool, text: &str) -> Option<Step<'_>>
    ensures { MatchOption result (left_bytes style false dollar (chars text.now) ≡ [])
        (λ s. (left_bytes style false dollar (chars text.now) ≡ piece_bytes s.piece ++ left_bytes style false s.dollar (chars s.rest.now))
        × (0 < length (piece_bytes s.piece))) }
{
    let (run, rest) = split_plain(text);
    if !run.is_empty() {
        return Some(Step {
            piece: Piece::Lent(run),
            dollar: false,
            rest,
        });
    }
    match first_part(text) {
        Some(cut) => Some(Step {
            piece: Piece::Made(made(style, dollar, cut.part, cut.rest)),
            dollar: dollar_behind(dollar, cut.part),
            rest: cut.rest,
        }),
        None => None,
    }
}

/// What is written next.
fn next_step(style: Style, kept: bool, dollar: bool, text: &str) -> Option<Step<'_>>
    ensures { MatchOption result (left_bytes style kept dollar (chars text.now) ≡ [])
        (λ s. (left_bytes style kept dollar (chars text.now) ≡ piece_bytes s.piece ++ left_bytes style kept s.dollar (chars s.rest.now))
        × (0 < length (piece_bytes s.piece))) }
{
    if kept {
        kept_step(style, text)
    } else {
        part_step(style, dollar, text)
    }
}

impl<'a> TemplateText<'a> {
    /// A piece of an untagged template, by its raw text.
    pub fn new(raw: &'a str, style: Style) -> TemplateText<'a>
        ensures { result ≡ encode_utf8_all (spec.template_text style (chars raw.now) []) }
    {
        TemplateText {
            style,
            kept: keeps_raw(style, raw),
            dollar: false,
            rest: raw,
        }
    }

    /// The next part of it, which is not empty, and none where all is written.
    pub fn next_piece(&mut self) -> Option<Piece<'a>>
        ensures { MatchOption result ((self.old ≡ []) × (self.new ≡ []))
            (λ piece. (self.old ≡ piece_bytes piece ++ self.new) × (0 < length (piece_bytes piece))) }
    {
        match next_step(self.style, self.kept, self.dollar, self.rest) {
            Some(step) => {
                self.dollar = step.dollar;
                self.rest = step.rest;
                Some(step.piece)
            }
            None => None,
        }
    }
}
