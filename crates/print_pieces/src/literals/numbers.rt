//! Numbers and big integers.
ghost use Rattle.std.specs.Prelude.{◌≡◌, ◌++◌, [], ◌∷◌, None, if◌then◌else◌, option_map};
ghost use Rattle.lex_literal.specs.Standing as standing;
ghost use Rattle.print_spelling.specs.Number.Numbers as numbers;
ghost use Rattle.print_spelling.specs.Number.NumberTexts.{joined};
ghost use Rattle.print_layout_spec.specs.Looks as looks;
ghost use Rattle.print_layout_spec.specs.Literals as literals;
ghost use Rattle.print_pieces.specs.Prints.{Prints};

use crate::Printer;
use crate::literals::parts::{print_held, print_part};
use base_number::NumValue;
use base_token::Span;
use print_layout_spec::Look;
use print_spelling::Style;
use print_spelling::number::{
    FormattedText, NumberText, formatted, formatted_big_int, minified, takes_point,
};
use print_writers::WriteJs;

/// Prints what there is to come of a number.
fn print_number_parts<W: WriteJs>(p: &mut Printer<W>, parts: FormattedText<'_>)
    ensures { Prints W.tells W.state W.failed_writes W.loans (looks.text parts.entry) p.old.wr p.old.fault p.new.wr p.new.fault }
{
    let mut parts = parts;
    let mut held = false;
    'parts: while let Some(part) = parts.next_piece() {
        held = print_part(p, held, part);
    }
    print_held(p, held);
}

/// Prints what there is to come of a number, and a point.
fn print_with_point<W: WriteJs>(p: &mut Printer<W>, parts: FormattedText<'_>)
    ensures { Prints W.tells W.state W.failed_writes W.loans (looks.text (parts.entry ++ 46 ∷ [])) p.old.wr p.old.fault p.new.wr p.new.fault }
{
    let mut parts = parts;
    let mut held = false;
    'parts: while let Some(part) = parts.next_piece() {
        held = print_part(p, held, part);
    }
    let last = print_part(p, held, ".");
    print_held(p, last);
}

/// The text as it was read that counts: none when minifying.
fn read_text<'a>(style: Style, raw: Option<&'a str>) -> Option<&'a str>
    ensures { option_map (λ t. t.now) result ≡ (if style.minify then None else option_map (λ t. t.now) raw.entry) }
{
    if style.minify {
        return None;
    }
    raw
}

/// Prints three texts as one: at once, where the last two are empty.
fn print_three<W: WriteJs>(p: &mut Printer<W>, text: NumberText<'_>)
    ensures { Prints W.tells W.state W.failed_writes W.loans (looks.text (joined text.entry)) p.old.wr p.old.fault p.new.wr p.new.fault }
{
    let no_second = text.second.is_empty();
    let no_third = text.third.is_empty();
    if no_second {
        if no_third {
            p.write(text.first);
            return;
        }
    }
    let first = print_part(p, false, text.first);
    let second = print_part(p, first, text.second);
    let third = print_part(p, second, text.third);
    print_held(p, third);
}

/// The text of a number, by its value and its text as it was read, if it was.
fn number_text<'a>(style: Style, value: &'a NumValue, raw: Option<&'a str>) -> FormattedText<'a>
    ensures { result ≡ literals.number_bytes style value.now (option_map (λ t. t.now) raw.entry) }
{
    formatted(style, value, read_text(style, raw))
}

/// Whether a number takes a point of its own before the point of a member.
fn has_own_point(style: Style, value: &NumValue, raw: Option<&str>) -> bool
    ensures { result ≡ standing.takes_point (literals.number_bytes style value.now (option_map (λ t. t.now) raw.entry)) }
{
    takes_point(style, value, read_text(style, raw))
}

/// The text of a big integer, by its radix and digits and its text as it was read, if it was.
fn big_text<'a>(
    style: Style,
    radix: u32,
    digits: &'a str,
    raw: Option<&'a str>,
) -> FormattedText<'a>
    ensures { result ≡ literals.big_bytes style radix digits.now (option_map (λ t. t.now) raw.entry) }
{
    formatted_big_int(style, radix, digits, read_text(style, raw))
}

/// Prints a number.
pub fn print_number<W: WriteJs>(
    p: &mut Printer<W>,
    look: Look,
    span: Span,
    value: &NumValue,
    raw: Option<&str>,
)
    ensures { Prints W.tells W.state W.failed_writes W.loans
        (literals.number look span value.now (option_map (λ t. t.now) raw.entry)) p.old.wr p.old.fault p.new.wr p.new.fault }
{
    p.commit();
    p.start(span);
    print_number_text(p, look.style, value, raw);
}

/// Prints the text of a number.
fn print_number_text<W: WriteJs>(
    p: &mut Printer<W>,
    style: Style,
    value: &NumValue,
    raw: Option<&str>,
)
    ensures { Prints W.tells W.state W.failed_writes W.loans
        (looks.text (literals.number_bytes style value.now (option_map (λ t. t.now) raw.entry))) p.old.wr p.old.fault p.new.wr p.new.fault }
{
    if style.minify {
        print_three(p, minified(value));
    } else {
        print_number_parts(p, number_text(style, value, raw));
    }
}

/// Prints the text of a number before the point of a member.
fn print_text_before_point<W: WriteJs>(
    p: &mut Printer<W>,
    style: Style,
    value: &NumValue,
    raw: Option<&str>,
)
    ensures { Prints W.tells W.state W.failed_writes W.loans
        (looks.text (numbers.before_member (literals.number_bytes style value.now (option_map (λ t. t.now) raw.entry)))) p.old.wr p.old.fault p.new.wr p.new.fault }
{
    if has_own_point(style, value, raw) {
        print_with_point(p, number_text(style, value, raw));
    } else {
        print_number_parts(p, number_text(style, value, raw));
    }
}

/// Prints a number before the point of a member: with a point of its own where it would take that one.
pub fn print_number_before_point<W: WriteJs>(
    p: &mut Printer<W>,
    look: Look,
    span: Span,
    value: &NumValue,
    raw: Option<&str>,
)
    ensures { Prints W.tells W.state W.failed_writes W.loans
        (literals.number_before_point look span value.now (option_map (λ t. t.now) raw.entry)) p.old.wr p.old.fault p.new.wr p.new.fault }
{
    p.commit();
    p.start(span);
    print_text_before_point(p, look.style, value, raw);
}

/// Prints a big integer.
pub fn print_big_integer<W: WriteJs>(
    p: &mut Printer<W>,
    look: Look,
    span: Span,
    radix: u32,
    digits: &str,
    raw: Option<&str>,
)
    ensures { Prints W.tells W.state W.failed_writes W.loans
        (literals.big_integer look span radix digits.now (option_map (λ t. t.now) raw.entry)) p.old.wr p.old.fault p.new.wr p.new.fault }
{
    p.commit();
    p.start(span);
    print_number_parts(p, big_text(look.style, radix, digits, raw));
    p.end(span);
}
