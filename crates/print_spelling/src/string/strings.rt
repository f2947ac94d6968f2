//! Whether a string stands as it was read.

ghost use Rattle.std.specs.Prelude.{◌≡◌, codes, bytes_eq};
ghost use Rattle.std.specs.List.{list_all, list_any};
ghost use Rattle.std.specs.Str.{chars};
ghost use Rattle.print_spelling.specs.String.Strings as spec;

use crate::Style;

/// Whether the units are those of `use strict`.
fn is_use_strict(units: &[u16]) -> bool
    ensures { result ≡ bytes_eq units.now (codes "use strict") }
{
    let word = [117, 115, 101, 32, 115, 116, 114, 105, 99, 116];
    units == word.as_slice()
}

/// Whether a backslash is among the characters.
fn has_backslash(text: &str) -> bool
    ensures { result ≡ list_any spec.is_backslash (chars text.now) }
{
    text.chars().any(|c| c == '\\')
}

/// Whether all characters are ASCII.
fn is_ascii(text: &str) -> bool
    ensures { result ≡ list_all spec.is_ascii (chars text.now) }
{
    text.chars().all(|c| c < '\u{80}')
}

/// Whether a string stands as it was read, quotes and all; else its units stand in quotes. `use strict`
/// with an escape or a continuation stays, since it is no directive.
pub fn keeps_raw(style: Style, units: &[u16], raw: &str) -> bool
    ensures { result ≡ spec.keeps_raw style units.now (chars raw.now) }
{
    is_use_strict(units) && has_backslash(raw)
        || !style.minify && (!style.ascii_only || is_ascii(raw))
}
