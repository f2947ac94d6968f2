//! Strings.
ghost use Rattle.std.specs.Prelude.{◌≡◌, ◌++◌, ◌∷◌, [], true, Some, IfSome, codes, bytes_eq, encode_utf8_all, option_map};
ghost use Rattle.std.specs.List.{list_any};
ghost use Rattle.std.specs.Str.{chars};
ghost use Rattle.lex_pieces.specs.Runs.{Each};
ghost use Rattle.print_spelling.specs.String.QuotedTexts.{is_plain_unit};
ghost use Rattle.print_spelling.specs.String.Strings.{is_backslash, quoted, string_text};
ghost use Rattle.print_layout_spec.specs.Looks as looks;
ghost use Rattle.print_layout_spec.specs.Literals as literals;
ghost use Rattle.print_pieces.specs.Prints.{Prints};

use crate::Printer;
use crate::literals::parts::{print_held, print_part};
use base_token::Span;
use print_layout_spec::Look;
use print_spelling::Style;
use print_spelling::string::{QuotedText, keeps_raw};
use print_writers::WriteJs;

/// Prints what there is to come of a string in quotes.
fn print_string_parts<W: WriteJs>(p: &mut Printer<W>, parts: QuotedText<'_>)
    ensures { Prints W.tells W.state W.failed_writes W.loans (looks.text parts.entry) p.old.wr p.old.fault p.new.wr p.new.fault }
{
    let mut parts = parts;
    let mut held = false;
    'parts: while let Some(part) = parts.next_block() {
        held = print_part(p, held, part.as_str());
    }
    print_held(p, held);
}

/// Prints units in quotes.
fn print_quoted<W: WriteJs>(p: &mut Printer<W>, style: Style, units: &[u16])
    ensures { Prints W.tells W.state W.failed_writes W.loans (looks.text (encode_utf8_all (quoted style units.now []))) p.old.wr p.old.fault p.new.wr p.new.fault }
{
    print_string_parts(p, QuotedText::new(units, style));
}

/// Prints a string that was read.
fn print_read<W: WriteJs>(p: &mut Printer<W>, style: Style, units: &[u16], raw: &str)
    ensures { Prints W.tells W.state W.failed_writes W.loans
        (looks.text (encode_utf8_all (string_text style units.now (Some (chars raw.now))))) p.old.wr p.old.fault p.new.wr p.new.fault }
{
    if keeps_raw(style, units, raw) {
        p.write(raw);
    } else {
        print_spelled(p, style, units, raw);
    }
}

/// Prints units in quotes: by the text that was read, where each stands there for itself.
fn print_spelled<W: WriteJs>(p: &mut Printer<W>, style: Style, units: &[u16], raw: &str)
    ensures { Prints W.tells W.state W.failed_writes W.loans (looks.text (encode_utf8_all (quoted style units.now []))) p.old.wr p.old.fault p.new.wr p.new.fault }
{
    match plain_text(style, units, raw) {
        Some(text) => print_in_marks(p, text),
        None => print_quoted(p, style, units),
    }
}

/// Prints a text in quotation marks.
fn print_in_marks<W: WriteJs>(p: &mut Printer<W>, text: &str)
    ensures { Prints W.tells W.state W.failed_writes W.loans (looks.text (34 ∷ (text.now ++ 34 ∷ []))) p.old.wr p.old.fault p.new.wr p.new.fault }
{
    p.write("\"");
    p.write(text);
    p.write("\"");
}

/// What stands between the quotes of a text, where that is these units and each of them stands for itself in each string.
fn plain_text<'a>(style: Style, units: &[u16], raw: &'a str) -> Option<&'a str>
    ensures { IfSome result (λ text. (text.now ≡ units.now) × Each (is_plain_unit style) units.now) }
{
    if raw.len() < 2 {
        return None;
    }
    let text = raw.get(1..raw.len() - 1)?;
    if are_plain(style, units, text.as_bytes()) {
        Some(text)
    } else {
        None
    }
}

/// Whether the bytes are these units and each of them stands for itself in each string.
fn are_plain(style: Style, units: &[u16], bytes: &[u8]) -> bool
    ensures { result ≡ true → (bytes.now ≡ units.now) × Each (is_plain_unit style) units.now }
{
    let mut units = units;
    let mut bytes = bytes;
    'units: while let [unit, units_behind @ ..] = units {
        let [byte, bytes_behind @ ..] = bytes else {
            return false;
        };
        if u16::from(*byte) != *unit || !is_plain(style, *unit) {
            return false;
        }
        units = units_behind;
        bytes = bytes_behind;
    }
    bytes.is_empty()
}

/// Whether a unit stands for itself in each string, whatever stands round it.
fn is_plain(style: Style, unit: u16) -> bool
    ensures { result ≡ is_plain_unit style unit }
{
    matches!(unit, 0x20..=0x7E)
        && !matches!(unit, 34 | 39 | 92)
        && !(style.inline_script && matches!(unit, 45 | 47 | 60 | 62))
}

/// Prints the text of a string.
fn print_string_text<W: WriteJs>(p: &mut Printer<W>, style: Style, units: &[u16], raw: Option<&str>)
    ensures { Prints W.tells W.state W.failed_writes W.loans
        (looks.text (literals.string_bytes style units.now (option_map (λ t. t.now) raw.entry))) p.old.wr p.old.fault p.new.wr p.new.fault }
{
    match raw {
        Some(raw) => print_read(p, style, units, raw),
        None => print_quoted(p, style, units),
    }
}

/// Whether the units are those of `use strict`.
fn is_use_strict(units: &[u16]) -> bool
    ensures { result ≡ bytes_eq units.now (codes "use strict") }
{
    let word = [117, 115, 101, 32, 115, 116, 114, 105, 99, 116];
    units == word.as_slice()
}

/// Whether a backslash is among the bytes.
fn has_backslash(text: &str) -> bool
    ensures { result ≡ list_any is_backslash text.now }
{
    text.bytes().any(|b| b == b'\\')
}

/// Whether a string is `use strict` with an escape, which is no directive.
fn is_escaped_directive(units: &[u16], raw: Option<&str>) -> bool
    ensures { result ≡ literals.is_escaped_directive units.now (option_map (λ t. t.now) raw.entry) }
{
    match raw {
        Some(raw) => is_use_strict(units) && has_backslash(raw),
        None => false,
    }
}

/// Marks the end of a string that is to be marked.
fn print_end<W: WriteJs>(p: &mut Printer<W>, marks: bool, span: Span)
    ensures { Prints W.tells W.state W.failed_writes W.loans (looks.when marks (looks.end span)) p.old.wr p.old.fault p.new.wr p.new.fault }
{
    if marks {
        p.end(span);
    }
}

/// Prints a string, by its units and its text as it was read, if it was.
pub fn print_string<W: WriteJs>(
    p: &mut Printer<W>,
    look: Look,
    span: Span,
    units: &[u16],
    raw: Option<&str>,
)
    ensures { Prints W.tells W.state W.failed_writes W.loans
        (literals.string look span units.now (option_map (λ t. t.now) raw.entry)) p.old.wr p.old.fault p.new.wr p.new.fault }
{
    p.commit();
    p.start(span);
    print_string_text(p, look.style, units, raw);
    print_end(p, is_escaped_directive(units, raw), span);
}
