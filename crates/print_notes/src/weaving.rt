//! The text with the comments between its tokens.
ghost use Rattle.std.specs.Prelude.{◌≡◌, ◌≤◌, ◌+◌, ◌++◌, IfOk, OnOk, drop, length, map, string_bytes, take};
ghost use Rattle.print_notes.specs.Slots.{looks_of, remark_of, token_of};
ghost use Rattle.print_notes.specs.Views.{form_view, place_of};
ghost use Rattle.print_notes.specs.Woven as spec;

use crate::kinds::{is_closing, is_opening};
use crate::places::{Form, Place, form_of, next_line, place_at_end, place_before};
use crate::safe::{fitting, is_fixed};
use crate::slots::{Look, Note, Slot};
use crate::spacing::{Space, first_space, last_space, next_space, push_space};
use lex_source::kinds;
use std::alloc::{AllocError, Global};

/// Appends a comment with its marks.
fn push_comment(out: &mut String, note: &Note<'_>) -> Result<(), AllocError>
    ensures { OnOk result (string_bytes out.new ≡ string_bytes out.old ++ spec.comment_text (remark_of note.now)) }
{
    if note.is_line {
        out.push_str("//")?;
        out.push_str(note.text)
    } else {
        out.push_str("/*")?;
        out.push_str(note.text)?;
        out.push_str("*/")
    }
}

/// Appends what stands behind a comment of a gap: the others, and the space behind the last.
fn push_behind(
    out: &mut String,
    look: &Look<'_>,
    place: &Place<'_>,
    form: Form,
    first: &Note<'_>,
    others: &[Note<'_>],
) -> Result<(), AllocError>
    ensures { OnOk result (string_bytes out.new
        ≡ string_bytes out.old ++ spec.behind_comment (looks_of look.now) (place_of place.now) (form_view form) (remark_of first.now) (map remark_of others.now)) }
{
    let mut last = *first;
    for note in others {
        push_space(
            out,
            look,
            place.indent,
            next_space(look, place, form, &last, note),
        )?;
        push_comment(out, note)?;
        last = *note;
    }
    push_space(
        out,
        look,
        place.indent,
        last_space(look, place, form, &last),
    )
}

/// Appends a gap with comments, of which there are some.
fn push_noted(
    out: &mut String,
    look: &Look<'_>,
    place: &Place<'_>,
    form: Form,
    first: &Note<'_>,
    others: &[Note<'_>],
) -> Result<(), AllocError>
    ensures { OnOk result (string_bytes out.new
        ≡ string_bytes out.old ++ spec.noted_gap (looks_of look.now) (place_of place.now) (form_view form) (remark_of first.now) (map remark_of others.now)) }
{
    push_space(
        out,
        look,
        place.indent,
        first_space(look, place, form, first),
    )?;
    push_comment(out, first)?;
    push_behind(out, look, place, form, first, others)
}

/// Whether the gap has an empty line.
fn is_parted(look: &Look<'_>, place: &Place<'_>, slot: &Slot<'_>) -> bool
    ensures { result ≡ spec.is_parted (looks_of look.now) (place_of place.now) (token_of slot.now) }
{
    !look.minify
        && ((slot.breaks && slot.parted)
            && !(is_fixed(place.behind, slot)
                || (is_opening(place.behind)
                    || (is_closing(place.next) || place.behind == kinds::END))))
}

/// Appends a gap without comments.
fn push_plain(
    out: &mut String,
    look: &Look<'_>,
    place: &Place<'_>,
    slot: &Slot<'_>,
) -> Result<(), AllocError>
    ensures { OnOk result (string_bytes out.new ≡ string_bytes out.old ++ spec.plain_gap (looks_of look.now) (place_of place.now) (token_of slot.now)) }
{
    if is_parted(look, place, slot) {
        push_space(out, look, place.indent, Space::Lines(2, false))
    } else {
        out.push_str(slot.before)
    }
}

/// Appends what stands before a token.
fn push_gap(
    out: &mut String,
    look: &Look<'_>,
    place: &Place<'_>,
    slot: &Slot<'_>,
    notes: &[Note<'_>],
) -> Result<(), AllocError>
    ensures { OnOk result (string_bytes out.new
        ≡ string_bytes out.old ++ spec.gap_before (looks_of look.now) (place_of place.now) (token_of slot.now) (map remark_of notes.now)) }
{
    match notes {
        [] => push_plain(out, look, place, slot),
        [first, others @ ..] => {
            push_noted(out, look, place, form_of(place, notes), first, others)
        }
    }
}

/// Appends what stands behind the last token.
fn push_end(
    out: &mut String,
    look: &Look<'_>,
    place: &Place<'_>,
    tail: &str,
    notes: &[Note<'_>],
) -> Result<(), AllocError>
    ensures { OnOk result (string_bytes out.new
        ≡ string_bytes out.old ++ spec.gap_at_end (looks_of look.now) (place_of place.now) tail.now (map remark_of notes.now)) }
{
    match notes {
        [] => out.push_str(tail),
        [first, others @ ..] => {
            push_noted(out, look, place, form_of(place, notes), first, others)
        }
    }
}

/// The comments from one on.
fn later<'b, 'a>(notes: &'b [Note<'a>], from: usize) -> &'b [Note<'a>]
    requires { from ≤ length notes.now }
    ensures later { map remark_of result.now ≡ drop from (map remark_of notes.now) }
    ensures left { length result.now + from ≡ length notes.now }
{
    let (_, later) = notes.split_at(from);
    later
}

/// So many of them.
fn some<'b, 'a>(notes: &'b [Note<'a>], from: usize, count: usize) -> &'b [Note<'a>]
    requires { from + count ≤ length notes.now }
    ensures { map remark_of result.now ≡ take count (drop from (map remark_of notes.now)) }
{
    let (some, _) = later(notes, from).split_at(count);
    some
}

/// Appends a token, with what stands before it.
fn push_token(
    out: &mut String,
    look: &Look<'_>,
    place: &Place<'_>,
    slot: &Slot<'_>,
    notes: &[Note<'_>],
) -> Result<(), AllocError>
    ensures { OnOk result (string_bytes out.new
        ≡ string_bytes out.old ++ (spec.gap_before (looks_of look.now) (place_of place.now) (token_of slot.now) (map remark_of notes.now) ++ slot.now.own.now)) }
{
    push_gap(out, look, place, slot, notes)?;
    out.push_str(slot.own)
}

/// The kind of what stands before all tokens.
fn kind_of_lead(lead: &str) -> u8
    ensures { result ≡ spec.kind_of_lead lead.now }
{
    match lead.as_bytes() {
        [] => kinds::END,
        [_, ..] => kinds::SHEBANG,
    }
}

/// The text of tokens with comments between them, in their order. `lead` is the hashbang before them, with its mark, or nothing;
/// `tail` is what the layout has behind the last. The time is linear in the length of what is written.
///
/// # Errors
///
/// `AllocError` where there is no memory for it.
#[tactic(auto, using(crate::proofs::WovenLemmas::goes_on))]
pub fn weave(
    alloc: Global,
    look: &Look<'_>,
    lead: &str,
    slots: &[Slot<'_>],
    tail: &str,
    notes: &[Note<'_>],
) -> Result<String, AllocError>
    ensures { IfOk result (λ text. string_bytes text ≡ spec.woven (looks_of look.now) lead.now (map token_of slots.now) tail.now (map remark_of notes.now)) }
{
    let mut out = String::new(alloc);
    out.push_str(lead)?;
    let mut line = "";
    let mut behind = kind_of_lead(lead);
    let mut done = 0;
    for gap in 0..slots.len() {
        let slot = &slots[gap];
        let count = fitting(gap, behind, slot, later(notes, done));
        let place = place_before(behind, line, slot);
        push_token(&mut out, look, &place, slot, some(notes, done, count))?;
        line = next_line(line, slot);
        behind = slot.kind;
        done += count;
    }
    push_end(
        &mut out,
        look,
        &place_at_end(behind),
        tail,
        later(notes, done),
    )?;
    Ok(out)
}
