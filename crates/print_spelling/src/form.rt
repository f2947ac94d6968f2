//! How one character is written: as it is, or by an escape.

ghost use Rattle.std.specs.Prelude.{◌≡◌, ◌+◌, ◌<◌, ◌≤◌, [], ◌∷◌, ◌++◌, length, encode_utf8_all};
ghost use Rattle.std.specs.Str.{IsAscii};
ghost use Rattle.arrayvec.specs.ArrayString.{array_string_len};
ghost use Rattle.print_spelling.specs.Forms as spec;
ghost use Rattle.print_spelling.specs.declared.form.Form.TheVariants.{Hex, FourLower, Pair, Braced};

use arrayvec::ArrayString;
use std::str;

/// How a character is written (ECMA-262, 12.9.4).
#[derive(Clone, Copy, Debug, PartialEq, Eq)]
pub enum Form {
    /// As it is.
    Bare,
    /// A backslash and this character.
    Letter(u8),
    /// `\0`, which stands before no decimal digit.
    Nul,
    /// `\xhh`, in lower case.
    Hex,
    /// `\uHHHH`, in upper case.
    Four,
    /// `\uhhhh`, in lower case.
    FourLower,
    /// Two `\uHHHH`, of the units of a character past U+FFFF.
    Pair,
    /// `\u{H..}`, in upper case.
    Braced,
}

/// The text of one character: as many bytes as the longest escape has.
pub type Made = ArrayString<12>;

/// A hexadecimal digit in lower case.
fn lower(code: u32, place: u32) -> u8
    requires { 0 < place }
    ensures value { result ≡ spec.lower place code }
    ensures ascii { result < 128 }
{
    let digit = (code / place % 16) as u8;
    if digit < 10 {
        b'0' + digit
    } else {
        b'W' + digit
    }
}

/// A hexadecimal digit in upper case.
fn upper(code: u32, place: u32) -> u8
    requires { 0 < place }
    ensures value { result ≡ spec.upper place code }
    ensures ascii { result < 128 }
{
    let digit = (code / place % 16) as u8;
    if digit < 10 {
        b'0' + digit
    } else {
        b'7' + digit
    }
}

/// Adds ASCII characters.
pub fn push_ascii<const CAP: usize>(text: &mut ArrayString<CAP>, bytes: &[u8])
    requires ascii { IsAscii bytes.now }
    requires room { array_string_len text.old + length bytes.now ≤ CAP }
    ensures bytes { text.new.bytes ≡ text.old.bytes ++ bytes.now }
    ensures len { array_string_len text.new ≡ array_string_len text.old + length bytes.now }
{
    text.push_str(str::from_utf8(bytes).unwrap());
}

/// Adds `\u` and four digits in upper case.
fn push_four(text: &mut Made, code: u32)
    requires { array_string_len text.old ≤ 6 }
    ensures bytes { text.new.bytes ≡ text.old.bytes ++ 92 ∷ spec.four code [] }
    ensures len { array_string_len text.new ≡ array_string_len text.old + 6 }
{
    let digits = [
        b'\\',
        b'u',
        upper(code, 4096),
        upper(code, 256),
        upper(code, 16),
        upper(code, 1),
    ];
    push_ascii(text, &digits);
}

/// Adds `\x` and two digits in lower case.
fn push_hex(text: &mut Made, code: u32)
    requires { array_string_len text.old ≤ 8 }
    ensures { text.new.bytes ≡ text.old.bytes ++ spec.written Hex code [] }
{
    push_ascii(text, &[b'\\', b'x', lower(code, 16), lower(code, 1)]);
}

/// Adds `\u` and four digits in lower case.
fn push_four_lower(text: &mut Made, code: u32)
    requires { array_string_len text.old ≤ 6 }
    ensures { text.new.bytes ≡ text.old.bytes ++ spec.written FourLower code [] }
{
    let digits = [
        b'\\',
        b'u',
        lower(code, 4096),
        lower(code, 256),
        lower(code, 16),
        lower(code, 1),
    ];
    push_ascii(text, &digits);
}

/// Adds `\u{..}` with the digits of the code point, three or more.
fn push_braced(text: &mut Made, code: u32)
    requires { text.old.bytes ≡ [] }
    ensures { text.new.bytes ≡ spec.written Braced code [] }
{
    push_ascii(text, b"\\u{");
    if code >= 0x10_0000 {
        push_ascii(text, &[upper(code, 1_048_576)]);
    }
    if code >= 0x1_0000 {
        push_ascii(text, &[upper(code, 65_536)]);
    }
    if code >= 0x1000 {
        push_ascii(text, &[upper(code, 4096)]);
    }
    push_ascii(
        text,
        &[upper(code, 256), upper(code, 16), upper(code, 1), b'}'],
    );
}

/// Adds the two escapes of the units of a character past U+FFFF.
fn push_pair(text: &mut Made, code: u32)
    requires low { 65536 ≤ code }
    requires high { code < 0x110000 }
    requires empty { text.old.bytes ≡ [] }
    ensures { text.new.bytes ≡ spec.written Pair code [] }
{
    let over = code - 0x1_0000;
    push_four(text, 0xD800 + over / 0x400);
    push_four(text, 0xDC00 + over % 0x400);
}

impl Form {
    /// The character in this form.
    pub fn made(self, code: u32) -> Made
        requires { spec.Writes self code }
        ensures { result.bytes ≡ encode_utf8_all (spec.written self code []) }
    {
        let mut text = Made::new();
        match self {
            Form::Bare => {
                if let Some(c) = char::from_u32(code) {
                    text.push(c);
                }
            }
            Form::Letter(letter) => push_ascii(&mut text, &[b'\\', letter]),
            Form::Nul => push_ascii(&mut text, b"\\0"),
            Form::Hex => push_hex(&mut text, code),
            Form::Four => push_four(&mut text, code),
            Form::FourLower => push_four_lower(&mut text, code),
            Form::Pair => push_pair(&mut text, code),
            Form::Braced => push_braced(&mut text, code),
        }
        text
    }
}
