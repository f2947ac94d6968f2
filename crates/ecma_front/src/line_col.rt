//! Lines and columns.

ghost use Rattle.std.specs.Prelude.{◌≡◌};
ghost use Rattle.std.specs.Str.{chars};
ghost use Rattle.print_pages_spec.specs.Lines.Lines.{place_of};

use base_token::LineCol;
use print_writers::lines::{ends_line, pop};

/// The line and column, both from 0, of the byte at an offset of a text. An offset past the end counts
/// as the end, and one inside a character as the character's. Lines end at LF, CR and CR LF (one end),
/// and columns count UTF-16 units.
#[tactic(auto, using(crate::proofs::Lines::along_place))]
pub fn place(text: &str, at: u32) -> LineCol
    ensures { result ≡ place_of (chars text.now) at }
{
    let mut place = LineCol { line: 0, col: 0 };
    let mut rest = text;
    let mut left = at;
    'text: while let Some((c, after)) = pop(rest) {
        let size = c.len_utf8() as u32;
        if size > left {
            break;
        }
        left -= size;
        rest = after;
        if ends_line(c, after) {
            place.line += 1;
            place.col = 0;
        } else {
            place.col += c.len_utf16() as u32;
        }
    }
    place
}
