//! Where a comment may stand.
ghost use Rattle.std.specs.Prelude.{◌≡◌, ◌≤◌, length, map};
ghost use Rattle.print_notes.specs.Safe as safe;
ghost use Rattle.print_notes.specs.Slots.{remark_of, token_of};

use crate::kinds::{is_tied, touch};
use crate::slots::{Note, Slot};
use lex_source::kinds;

/// Whether a text begins with `-`.
fn begins_dash(text: &str) -> bool
    ensures { result ≡ safe.begins_dash text.now }
{
    match text.as_bytes() {
        [first, ..] => *first == b'-',
        [] => false,
    }
}

/// Whether no line begins with the token where the layout begins none.
pub(crate) fn stays_in_line(behind: u8, slot: &Slot<'_>) -> bool
    ensures { result ≡ safe.stays_in_line behind (token_of slot.now) }
{
    begins_dash(slot.own)
        || (!(behind == kinds::END)
            && (is_tied(behind, slot.kind) || slot.kind == kinds::SEMICOLON))
}

/// Whether a line ends within the comment or behind it.
fn ends_a_line(note: &Note<'_>) -> bool
    ensures { result ≡ safe.ends_a_line (remark_of note.now) }
{
    note.is_line || note.breaks
}

/// Whether nothing else may stand before the token.
pub(crate) fn is_fixed(behind: u8, slot: &Slot<'_>) -> bool
    ensures { result ≡ safe.is_fixed behind (token_of slot.now) }
{
    slot.closed || touch(behind, slot.kind)
}

/// Whether the comment may stand before the token.
fn is_safe(behind: u8, slot: &Slot<'_>, note: &Note<'_>) -> bool
    ensures { result ≡ safe.is_safe behind (token_of slot.now) (remark_of note.now) }
{
    !is_fixed(behind, slot) && (slot.breaks || (!ends_a_line(note) || !stays_in_line(behind, slot)))
}

/// Whether the comment is meant for this gap or one before it, and may stand here.
fn fits(gap: usize, behind: u8, slot: &Slot<'_>, note: &Note<'_>) -> bool
    ensures { result ≡ safe.fits gap behind (token_of slot.now) (remark_of note.now) }
{
    note.gap <= gap && is_safe(behind, slot, note)
}

/// How many comments at the front fit.

pub(crate) fn fitting(gap: usize, behind: u8, slot: &Slot<'_>, notes: &[Note<'_>]) -> usize
    ensures count { result ≡ safe.fitting gap behind (token_of slot.now) (map remark_of notes.now) }
    ensures within { result ≤ length notes.now }
{
    for at in 0..notes.len() {
        if !fits(gap, behind, slot, &notes[at]) {
            return at;
        }
    }
    notes.len()
}
