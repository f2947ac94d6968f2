//! Runs of characters at the front of a text, found by its bytes.

ghost use Rattle.std.specs.Prelude.{◌≡◌, ◌+◌, ◌<◌, ◌≤◌, length, IfSome, IsUtf8};
ghost use Rattle.std.specs.List.{prefix_len};
ghost use Rattle.std.specs.Option.{option_map};
ghost use Rattle.std.specs.Str.{chars};
ghost use Rattle.lex_pieces.specs.Runs.{Each, run, after};
ghost use Rattle.lex_literal.specs.Escapes.{is_hex};
ghost use Rattle.lex_literal.specs.Strings.{is_plain};
ghost use Rattle.lex_literal.specs.Templates.{bare_run, after_bare};
ghost use Rattle.lex_literal.specs.Reading.{lone_dollar};
ghost use Rattle.lex_literal.specs.Stops.{passes};

use crate::place::before;
use lex_pieces::characters::pop;
use memchr::{memchr, memchr3};

/// How many bytes at the front of a text are hexadecimal digits.
fn hex_len(text: &str) -> usize
    ensures { result ≡ prefix_len is_hex text.now }
{
    let digit = |b: &&u8| b.is_ascii_hexdigit();
    text.as_bytes().iter().take_while(digit).count()
}

/// The hexadecimal digits at the front of a text, and what follows them.
pub(crate) fn split_hex(text: &str) -> (&str, &str)
    ensures digits { Each is_hex (chars result.0.now) }
    ensures run { chars result.0.now ≡ run is_hex (chars text.now) }
    ensures after { chars result.1.now ≡ after is_hex (chars text.now) }
    ensures lengths { length result.0.now + length result.1.now ≡ length text.now }
    ensures text { IsUtf8 result.1.now }
{
    text.split_at(hex_len(text))
}

/// How many bytes come before the first that is CR or one of these.
fn stop_len(bytes: &[u8], a: u8, b: u8, c: u8) -> usize
    ensures { result ≡ prefix_len (passes a b c) bytes.now }
{
    let most = memchr3(a, b, c, bytes).unwrap_or(bytes.len());
    memchr(b'\r', &bytes[..most]).unwrap_or(most)
}

/// The characters at the front of a text that stand for themselves in a string with this quote, and
/// what follows them (ECMA-262, 12.9.4).
pub fn split_plain(text: &str, quote: char) -> (&str, &str)
    requires { quote < 128 }
    ensures run { chars result.0.now ≡ run (is_plain quote) (chars text.now) }
    ensures after { chars result.1.now ≡ after (is_plain quote) (chars text.now) }
    ensures lengths { length result.0.now + length result.1.now ≡ length text.now }
    ensures text { IsUtf8 result.1.now }
{
    text.split_at(stop_len(text.as_bytes(), quote as u8, b'\\', b'\n'))
}

/// How many bytes come before the first back quote, backslash, dollar or CR. A search for three of them
/// would be begun again at each of the fourth.
fn bare_len(bytes: &[u8]) -> usize
    ensures { result ≡ prefix_len (passes 96 92 36) bytes.now }
{
    let bare = |b: &&u8| !matches!(**b, b'`' | b'\\' | b'$' | b'\r');
    bytes.iter().take_while(bare).count()
}

/// What follows the characters at the front of a text up to a back quote, a backslash, a dollar or CR.
fn past_dollarless(text: &str) -> &str
    ensures after { chars result.now ≡ after (passes 96 92 36) (chars text.now) }
    ensures text { IsUtf8 result.now }
    ensures length { length result.now ≤ length text.now }
{
    let (_, rest) = text.split_at(bare_len(text.as_bytes()));
    rest
}

/// What follows a dollar at the front of a text, where no brace follows it.
fn lone_dollar(text: &str) -> Option<&str>
    ensures value { option_map (λ x. chars x.now) result ≡ lone_dollar (chars text.now) }
    ensures rest { IfSome result (λ x. IsUtf8 x.now × (length x.now < length text.now)) }
{
    let ('$', rest) = pop(text)? else {
        return None;
    };
    match pop(rest) {
        Some(('{', _)) => None,
        _ => Some(rest),
    }
}

/// The characters at the front of a text that stand for themselves in a template, and what follows
/// them (ECMA-262, 12.9.6): a dollar only where no brace follows.
pub fn split_bare(text: &str) -> (&str, &str)
    ensures run { chars result.0.now ≡ bare_run (chars text.now) }
    ensures after { chars result.1.now ≡ after_bare (chars text.now) }
    ensures text { IsUtf8 result.1.now × (length result.1.now ≤ length text.now) }
{
    let mut rest = past_dollarless(text);
    'dollars: while let Some(more) = lone_dollar(rest) {
        rest = past_dollarless(more);
    }
    (before(text, rest), rest)
}
