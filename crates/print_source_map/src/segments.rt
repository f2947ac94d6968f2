//! The text of mappings.

ghost use Rattle.std.specs.Prelude.{◌≡◌, ◌++◌, ◌≤◌, true, Some, IfOk, IfErr, IfSome, OnOk, string_bytes, replicate};
ghost use Rattle.std.specs.Bool.{OnTrue};
ghost use Rattle.print_source_map.specs.Mappings.{mappings_of};
ghost use Rattle.print_source_map.specs.Orders.{follows, is_near_place, is_near, are_ordered, are_near, IsRefused};
ghost use Rattle.print_source_map.specs.Writing.{segment, in_line, below, piece};

use crate::fault::MapError;
use crate::mapping::Mapping;
use crate::numbers::{push_ascii, push_difference};
use base_token::LineCol;
use std::alloc::{AllocError, Global};

/// Whether the line and the column of a place are at most 2,147,483,647.
fn is_near_place(place: LineCol) -> bool
    ensures { result ≡ is_near_place place }
{
    place.line <= i32::MAX as u32 && place.col <= i32::MAX as u32
}

/// Whether all lines and columns of a mapping are at most 2,147,483,647.
fn is_near(mapping: Mapping) -> bool
    ensures { result ≡ is_near mapping }
{
    is_near_place(mapping.written) && is_near_place(mapping.source)
}

/// Whether a mapping stands behind the one before it.
fn follows(last: Option<Mapping>, next: Mapping) -> bool
    ensures follows { result ≡ follows last next }
    ensures lines { OnTrue result (IfSome last (λ p. p.written.line ≤ next.written.line)) }
{
    match last {
        None => true,
        Some(before) => {
            let (p, q) = (before.written, next.written);
            p.line < q.line || (p.line == q.line && p.col <= q.col)
        }
    }
}

/// Appends the ends of so many lines.
fn push_line_ends(text: &mut String, lines: u32) -> Result<(), AllocError>
    ensures { OnOk result (string_bytes text.new ≡ string_bytes text.old ++ replicate lines 59) }
{
    for end in 0..lines {
        push_ascii(text, ';')?;
    }
    Ok(())
}

/// Appends a segment behind a column of its line, and behind a place of the source.
#[tactic(auto, using(crate::proofs::Written::segment_pushed))]
fn push_segment(
    text: &mut String,
    column: u32,
    source: LineCol,
    next: Mapping,
) -> Result<(), AllocError>
    ensures { OnOk result (string_bytes text.new ≡ string_bytes text.old ++ segment column source next) }
{
    push_difference(text, column, next.written.col)?;
    push_ascii(text, 'A')?;
    push_difference(text, source.line, next.source.line)?;
    push_difference(text, source.col, next.source.col)
}

/// Appends a mapping behind another of its line.
#[tactic(auto, using(crate::proofs::Written::line_pushed))]
fn push_in_line(text: &mut String, last: Mapping, next: Mapping) -> Result<(), AllocError>
    ensures { OnOk result (string_bytes text.new ≡ string_bytes text.old ++ in_line last next) }
{
    push_ascii(text, ',')?;
    push_segment(text, last.written.col, last.source, next)
}

/// Appends the first mapping of a line, so many lines further, behind a place of the source.
#[tactic(auto, using(crate::proofs::Written::below_pushed))]
fn push_below(
    text: &mut String,
    lines: u32,
    source: LineCol,
    next: Mapping,
) -> Result<(), AllocError>
    ensures { OnOk result (string_bytes text.new ≡ string_bytes text.old ++ below lines source next) }
{
    push_line_ends(text, lines)?;
    push_segment(text, 0, source, next)
}

/// Appends a mapping behind the last one.
fn push_mapping(text: &mut String, last: Option<Mapping>, next: Mapping) -> Result<(), AllocError>
    requires { IfSome last (λ p. p.written.line ≤ next.written.line) }
    ensures { OnOk result (string_bytes text.new ≡ string_bytes text.old ++ piece last next) }
{
    let Some(before) = last else {
        return push_below(text, next.written.line, LineCol { line: 0, col: 0 }, next);
    };
    if before.written.line == next.written.line {
        return push_in_line(text, before, next);
    }
    let lines = next.written.line - before.written.line;
    push_below(text, lines, before.source, next)
}

/// The text of mappings: a `;` ends a line, a `,` stands between two segments of a line, and the four numbers of a segment
/// are differences to the segment before it.
///
/// # Errors
///
/// `Order` where a place that was written is before the one that stands before it, `TooFar` where a line or a column is past
/// 2,147,483,647, and `Memory`.
pub fn mappings(alloc: Global, places: &[Mapping]) -> Result<String, MapError>
    ensures says { IfOk result (λ text. mappings_of (string_bytes text) ≡ Some places.now) }
    ensures ok { IfOk result (λ text. (are_ordered places.now ≡ true) × (are_near places.now ≡ true)) }
    ensures err { IfErr result (λ e. IsRefused places.now e) }
{
    let mut text = String::new(alloc);
    let mut last = None;
    for place in places {
        let next = *place;
        if !follows(last, next) {
            return Err(MapError::Order);
        }
        if !is_near(next) {
            return Err(MapError::TooFar);
        }
        push_mapping(&mut text, last, next)?;
        last = Some(next);
    }
    Ok(text)
}
