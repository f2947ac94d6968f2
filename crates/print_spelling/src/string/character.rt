//! How one character of a string is written.

ghost use Rattle.std.specs.Prelude.{◌≡◌, ◌<◌};
ghost use Rattle.std.specs.Option.{option_map};
ghost use Rattle.print_spelling.specs.String.CodePoints.{code_points};
ghost use Rattle.std.specs.Char.{to_ascii_lowercase};
ghost use Rattle.lex_literal.specs.Escapes.{begins, is_decimal};
ghost use Rattle.print_spelling.specs.String.Strings as spec;

use crate::string::quoted::Behind;
use crate::string::units::front;
use crate::{Form, Style};

/// A code point, in lower case if it is a letter of ASCII.
fn lower(code: u32) -> u32
    ensures { result ≡ to_ascii_lowercase code }
{
    if (65..91).contains(&code) {
        code + 32
    } else {
        code
    }
}

/// What follows a word in small letters, where the text begins with it in any case.
fn past_word<'a>(units: &'a [u16], word: &[u8]) -> Option<&'a [u16]>
    ensures { option_map (λ x. code_points x.now) result ≡ spec.past_word word.now (code_points units.now) }
{
    let mut rest = units;
    let mut left = word;
    'letters: while let [letter, others @ ..] = left {
        let (code, more) = front(rest)?;
        if lower(code) != u32::from(*letter) {
            return None;
        }
        rest = more;
        left = others;
    }
    Some(rest)
}

/// Whether the text behind `</` makes it the end tag of a script.
fn closes_script(units: &[u16]) -> bool
    ensures { result ≡ spec.closes_script (code_points units.now) }
{
    let Some(rest) = past_word(units, b"script") else {
        return false;
    };
    match front(rest) {
        Some((code, _)) => matches!(code, 62 | 32 | 9),
        None => false,
    }
}

/// Whether the text behind `<` makes it the start of a page's comment.
fn opens_comment(units: &[u16]) -> bool
    ensures { result ≡ spec.opens_comment (code_points units.now) }
{
    past_word(units, b"!--").is_some()
}

/// How the text ends behind one character more.
pub(crate) fn behind(style: Style, before: Behind, code: u32) -> Behind
    ensures { result ≡ spec.behind style before code }
{
    if !style.inline_script {
        return Behind::Other;
    }
    match (code, before) {
        (60, _) => Behind::Less,
        (45, Behind::Dash | Behind::Dashes) => Behind::Dashes,
        (45, _) => Behind::Dash,
        _ => Behind::Other,
    }
}

/// Whether a character would make `<!--`, `-->` or `</script` of a script in a page.
fn is_guarded(style: Style, before: Behind, code: u32, rest: &[u16]) -> bool
    ensures { result ≡ spec.is_guarded style before code (code_points rest.now) }
{
    style.inline_script
        && match code {
            60 => opens_comment(rest),
            62 => before == Behind::Dashes,
            47 => before == Behind::Less && closes_script(rest),
            _ => false,
        }
}

/// Whether a character is never written as it is.
fn is_never_bare(code: u32) -> bool
    ensures { result ≡ spec.is_never_bare code }
{
    matches!(code, 0x2028 | 0x2029 | 0xFEFF | 0xD800..=0xDFFF)
}

/// How a character from U+0100 on is written.
fn wide_form(style: Style, code: u32) -> Form
    ensures { result ≡ spec.wide_form style code }
{
    if is_never_bare(code) {
        Form::Four
    } else if code < 0x1_0000 {
        if style.ascii_only {
            Form::Four
        } else {
            Form::Bare
        }
    } else if style.is_up_to_es5() {
        Form::Pair
    } else if style.ascii_only {
        Form::Braced
    } else {
        Form::Bare
    }
}

/// How a character is written, whatever stands round it.
fn lone_form(style: Style, code: u32) -> Form
    ensures { result ≡ spec.lone_form style code }
{
    match code {
        0x8 => Form::Letter(b'b'),
        0xA => Form::Letter(b'n'),
        0xB => Form::Letter(b'v'),
        0xC => Form::Letter(b'f'),
        0xD => Form::Letter(b'r'),
        0x5C => Form::Letter(b'\\'),
        0x9 => Form::Bare,
        0..=0x1F => Form::Hex,
        0x20..=0x7E => Form::Bare,
        0x7F..=0xFF if style.ascii_only || style.is_up_to_es5() => Form::Hex,
        0x7F..=0xFF => Form::Bare,
        _ => wide_form(style, code),
    }
}

/// Whether a decimal digit comes first.
fn begins_digit(units: &[u16]) -> bool
    ensures { result ≡ begins is_decimal (code_points units.now) }
{
    match front(units) {
        Some((code, _)) => (48..58).contains(&code),
        None => false,
    }
}

/// How a character is written between these quotes, by how the text before ends and by the text after it.
pub(crate) fn form_of(style: Style, quote: char, before: Behind, code: u32, rest: &[u16]) -> Form
    requires { quote < 128 }
    ensures { result ≡ spec.form_of style quote before code (code_points rest.now) }
{
    if is_guarded(style, before, code, rest) {
        if code == 47 {
            Form::Letter(b'/')
        } else {
            Form::Hex
        }
    } else if code == quote as u32 {
        Form::Letter(quote as u8)
    } else if code == 0 {
        if style.is_below_es5() || begins_digit(rest) {
            Form::Hex
        } else {
            Form::Nul
        }
    } else {
        lone_form(style, code)
    }
}
