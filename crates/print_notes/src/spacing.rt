//! What stands beside the comments of a gap.
ghost use Rattle.std.specs.Prelude.{◌≡◌, ◌++◌, ◌≤◌, OnOk, string_bytes};
ghost use Rattle.print_notes.specs.Slots.{looks_of, remark_of};
ghost use Rattle.print_notes.specs.Spacing as spacing;
ghost use Rattle.print_notes.specs.Views.{form_view, place_of, space_of};

use crate::kinds::{is_closing, is_joined, is_opening};
use crate::places::{Form, Place, is_empty_braces};
use crate::slots::{Look, Note};
use lex_source::kinds;
use std::alloc::AllocError;

/// What stands between two texts of a gap.
#[derive(Clone, Copy)]
pub(crate) enum Space {
    /// Nothing.
    Tight,
    /// A blank.
    Blank,
    /// So many line ends, and then the indentation, one step deeper or not.
    Lines(u32, bool),
}

/// At least one line end, and at most one empty line.
fn kept(lines: u32) -> u32
    ensures { result ≡ spacing.kept lines }
{
    lines.max(1).min(2)
}

/// Whether lines of comments stand one step deeper.
fn is_deeper(place: &Place<'_>, form: Form) -> bool
    ensures { result ≡ spacing.is_deeper (place_of place.now) (form_view form) }
{
    if form.lined {
        is_closing(place.next)
    } else {
        !(place.behind == kinds::RIGHT_BRACE)
    }
}

/// Before the first comment, where the text is short.
fn first_minified(place: &Place<'_>) -> Space
    ensures { space_of result ≡ spacing.first_minified (place_of place.now) }
{
    if place.breaks {
        Space::Lines(1, false)
    } else if place.behind == kinds::DIV {
        Space::Blank
    } else {
        Space::Tight
    }
}

/// Before the first comment, where lines end.
fn first_in_lines(place: &Place<'_>, form: Form, note: &Note<'_>) -> Space
    ensures { space_of result ≡ spacing.first_in_lines (place_of place.now) (form_view form) (remark_of note.now) }
{
    if place.first {
        Space::Tight
    } else if form.leads || note.lines > 0 {
        let lines = if is_opening(place.behind) {
            1
        } else {
            kept(note.lines)
        };
        Space::Lines(lines, is_deeper(place, form))
    } else {
        Space::Blank
    }
}

/// Before the first comment, within a line.
fn first_in_line(place: &Place<'_>, note: &Note<'_>) -> Space
    ensures { space_of result ≡ spacing.first_in_line (place_of place.now) (remark_of note.now) }
{
    if place.first || (is_opening(place.behind) && !(note.is_line || is_empty_braces(place))) {
        Space::Tight
    } else {
        Space::Blank
    }
}

/// Before the first comment.
pub(crate) fn first_space(look: &Look<'_>, place: &Place<'_>, form: Form, note: &Note<'_>) -> Space
    ensures { space_of result ≡ spacing.first_space (looks_of look.now) (place_of place.now) (form_view form) (remark_of note.now) }
{
    if look.minify {
        first_minified(place)
    } else if form.lined {
        first_in_lines(place, form, note)
    } else {
        first_in_line(place, note)
    }
}

/// Behind a comment of a short text.
fn behind_minified(last: &Note<'_>) -> Space
    ensures { space_of result ≡ spacing.behind_minified (remark_of last.now) }
{
    if last.is_line {
        Space::Lines(1, false)
    } else {
        Space::Tight
    }
}

/// Between two comments.
pub(crate) fn next_space(
    look: &Look<'_>,
    place: &Place<'_>,
    form: Form,
    last: &Note<'_>,
    note: &Note<'_>,
) -> Space
    ensures { space_of result ≡ spacing.next_space (looks_of look.now) (place_of place.now) (form_view form) (remark_of last.now) (remark_of note.now) }
{
    if look.minify {
        behind_minified(last)
    } else if form.lined {
        if last.is_line || note.lines > 0 {
            Space::Lines(kept(note.lines), is_deeper(place, form))
        } else {
            Space::Blank
        }
    } else if last.is_line {
        Space::Lines(1, is_deeper(place, form))
    } else {
        Space::Blank
    }
}

/// Behind the last comment, where lines end.
fn last_in_lines(place: &Place<'_>, last: &Note<'_>) -> Space
    ensures { space_of result ≡ spacing.last_in_lines (place_of place.now) (remark_of last.now) }
{
    if place.last || is_closing(place.next) {
        Space::Lines(1, false)
    } else if last.is_line || last.behind > 0 {
        Space::Lines(kept(last.behind), false)
    } else {
        Space::Blank
    }
}

/// Behind the last comment, within a line.
fn last_in_line(place: &Place<'_>, form: Form, last: &Note<'_>) -> Space
    ensures { space_of result ≡ spacing.last_in_line (place_of place.now) (form_view form) (remark_of last.now) }
{
    if last.is_line {
        Space::Lines(1, is_deeper(place, form) && !is_closing(place.next))
    } else if is_joined(place.next) {
        Space::Tight
    } else {
        Space::Blank
    }
}

/// Behind the last comment.
pub(crate) fn last_space(look: &Look<'_>, place: &Place<'_>, form: Form, last: &Note<'_>) -> Space
    ensures { space_of result ≡ spacing.last_space (looks_of look.now) (place_of place.now) (form_view form) (remark_of last.now) }
{
    if look.minify {
        behind_minified(last)
    } else if form.lined {
        last_in_lines(place, last)
    } else {
        last_in_line(place, form, last)
    }
}

/// Appends a text so many times.
fn push_times(out: &mut String, count: u32, text: &str) -> Result<(), AllocError>
    ensures { OnOk result (string_bytes out.new ≡ string_bytes out.old ++ spacing.times count text.now) }
{
    let mut left = count;
    while left > 0 {
        out.push_str(text)?;
        left -= 1;
    }
    Ok(())
}

/// Appends so many line ends, and the indentation.
fn push_lines(
    out: &mut String,
    look: &Look<'_>,
    indent: &str,
    count: u32,
    deeper: bool,
) -> Result<(), AllocError>
    ensures { OnOk result (string_bytes out.new ≡ string_bytes out.old ++ spacing.space_text (looks_of look.now) indent.now (spacing.Lines count deeper)) }
{
    push_times(out, count, look.line_end)?;
    out.push_str(indent)?;
    if deeper {
        out.push_str(look.step)?;
    }
    Ok(())
}

/// Appends what stands between two texts of a gap.
pub(crate) fn push_space(
    out: &mut String,
    look: &Look<'_>,
    indent: &str,
    space: Space,
) -> Result<(), AllocError>
    ensures { OnOk result (string_bytes out.new ≡ string_bytes out.old ++ spacing.space_text (looks_of look.now) indent.now (space_of space)) }
{
    match space {
        Space::Tight => Ok(()),
        Space::Blank => out.push_str(" "),
        Space::Lines(count, deeper) => push_lines(out, look, indent, count, deeper),
    }
}
