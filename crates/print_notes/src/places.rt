//! A gap, by the tokens beside it.
ghost use Rattle.std.specs.Prelude.{◌≡◌, [], map};
ghost use Rattle.print_notes.specs.Slots.{remark_of, token_of};
ghost use Rattle.print_notes.specs.Spacing as spacing;
ghost use Rattle.print_notes.specs.Views.{place_of, form_view};

use crate::kinds::is_closing;
use crate::safe::stays_in_line;
use crate::slots::{Note, Slot};
use lex_source::kinds;

/// A gap of the layout.
#[derive(Clone, Copy)]
pub(crate) struct Place<'a> {
    /// The layout ends a line there.
    pub(crate) breaks: bool,
    /// It is at the start of the text.
    pub(crate) first: bool,
    /// It is at the end of the text.
    pub(crate) last: bool,
    /// No line may begin there, where the layout begins none.
    pub(crate) stays: bool,
    /// The kind of the token before it.
    pub(crate) behind: u8,
    /// The kind of the token behind it.
    pub(crate) next: u8,
    /// The blanks before what stands behind it where a line ends there, else those of its line.
    pub(crate) indent: &'a str,
}

/// The gap before a token. `line` are the blanks at the start of the line.
pub(crate) fn place_before<'a>(behind: u8, line: &'a str, slot: &Slot<'a>) -> Place<'a>
    ensures { place_of result ≡ spacing.place_before behind line.now (token_of slot.now) }
{
    Place {
        breaks: slot.breaks,
        first: behind == kinds::END && !slot.breaks,
        last: false,
        stays: stays_in_line(behind, slot),
        behind,
        next: slot.kind,
        indent: if slot.breaks { slot.indent } else { line },
    }
}

/// The blanks at the start of the line behind a token.
pub(crate) fn next_line<'a>(line: &'a str, slot: &Slot<'a>) -> &'a str
    ensures { result.now ≡ spacing.next_line line.now (token_of slot.now) }
{
    if slot.breaks { slot.indent } else { line }
}

/// The gap behind the last token.
pub(crate) fn place_at_end(behind: u8) -> Place<'static>
    ensures { place_of result ≡ spacing.place_at_end behind }
{
    Place {
        breaks: behind == kinds::SHEBANG,
        first: behind == kinds::END,
        last: true,
        stays: false,
        behind,
        next: kinds::END,
        indent: "",
    }
}

/// Whether it is the gap of `{ }` in a line.
pub(crate) fn is_empty_braces(place: &Place<'_>) -> bool
    ensures { result ≡ spacing.is_empty_braces (place_of place.now) }
{
    !place.breaks && (place.behind == kinds::LEFT_BRACE && place.next == kinds::RIGHT_BRACE)
}

/// Whether comments stand in lines of their own.
#[derive(Clone, Copy)]
pub(crate) struct Form {
    /// Lines may end in the gap.
    pub(crate) lined: bool,
    /// The first comment begins a line.
    pub(crate) leads: bool,
}

/// Whether some line ends among comments in the source.
fn some_lines(notes: &[Note<'_>]) -> bool
    ensures { result ≡ spacing.some_lines (map remark_of notes.now) }
{
    let mut ends = false;
    for note in notes {
        if note.lines > 0 {
            return true;
        }
        ends = note.is_line || note.behind > 0;
    }
    ends
}

/// How comments stand in a gap.
pub(crate) fn form_of(place: &Place<'_>, notes: &[Note<'_>]) -> Form
    ensures { form_view result ≡ spacing.form_of (place_of place.now) (map remark_of notes.now) }
{
    let some = some_lines(notes);
    let empty = is_empty_braces(place);
    Form {
        lined: place.breaks || (!place.stays && (place.first || (place.last || (empty && some)))),
        leads: place.behind == kinds::SHEBANG || (empty || (!is_closing(place.next) && !some)),
    }
}
