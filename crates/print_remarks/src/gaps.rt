//! The comments of a gap, and how many lines end before each and behind it.
ghost use Rattle.std.specs.Prelude.{◌≡◌, ◌++◌, ◌<◌, List, [], ◌∷◌, length, map, IfOk, OnOk};
ghost use Rattle.std.specs.Str.{chars};
ghost use Rattle.lex_pieces.specs.ReadingTrivia.{view};
ghost use Rattle.lex_pieces.specs.Trivia.{Piece};
ghost use Rattle.print_remarks.specs.Found as found;
ghost use Rattle.print_remarks.specs.Found.{IsNoted};
ghost use Rattle.print_remarks.specs.Views.{said_of, tally_of};

use base_token::Error;
use lex_pieces::place::out_of_memory;
use lex_pieces::{Goal, Trivia, trivia_piece};
use print_notes::Note;

/// What was passed: how many lines ended since the last comment, and that comment, where there is one.
#[derive(Clone, Copy)]
struct Tally<'a> {
    lines: u32,
    last: Option<Note<'a>>,
}

/// One line more: none, one, or one with an empty line.
fn one_more(lines: u32) -> u32
    ensures { result ≡ found.one_more lines }
{
    if lines == 0 { 1 } else { 2 }
}

/// Keeps a comment.
fn keep<'a>(notes: &mut Vec<Note<'a>>, note: Note<'a>) -> Result<(), Error>
    ensures { OnOk result (map said_of notes.new.items ≡ map said_of notes.old.items ++ said_of note.entry ∷ []) }
{
    match notes.push(note) {
        Ok(()) => Ok(()),
        Err(_) => Err(out_of_memory()),
    }
}

/// Keeps the last comment, now that the lines behind it are known.
fn keep_last<'a>(notes: &mut Vec<Note<'a>>, tally: Tally<'a>) -> Result<(), Error>
    ensures { OnOk result (map said_of notes.new.items ≡ map said_of notes.old.items ++ found.ended (tally_of tally.entry)) }
{
    match tally.last {
        None => Ok(()),
        Some(last) => keep(
            notes,
            Note {
                is_line: last.is_line,
                text: last.text,
                breaks: last.breaks,
                lines: last.lines,
                behind: tally.lines,
                gap: last.gap,
            },
        ),
    }
}

/// Begins a comment.
fn begun<'a>(gap: usize, lines: u32, is_line: bool, text: &'a str, breaks: bool) -> Tally<'a>
    ensures { tally_of result ≡ found.begun gap lines is_line (chars text.now) breaks }
{
    Tally {
        lines: 0,
        last: Some(Note {
            is_line,
            text,
            breaks,
            lines,
            behind: 0,
            gap,
        }),
    }
}

/// Passes a piece of trivia.
fn pass<'a>(
    notes: &mut Vec<Note<'a>>,
    gap: usize,
    tally: Tally<'a>,
    piece: Trivia<'a>,
) -> Result<Tally<'a>, Error>
    ensures { IfOk result (λ t. (ps : List Piece) → map said_of notes.new.items ++ found.noted gap (tally_of t) ps
        ≡ map said_of notes.old.items ++ found.noted gap (tally_of tally.entry) (view piece.entry ∷ ps)) }
{
    match piece {
        Trivia::WhiteSpace => Ok(tally),
        Trivia::LineTerminator => Ok(Tally {
            lines: one_more(tally.lines),
            last: tally.last,
        }),
        Trivia::LineComment(_, text) => {
            keep_last(notes, tally)?;
            Ok(begun(gap, tally.lines, true, text, false))
        }
        Trivia::BlockComment(text) => {
            keep_last(notes, tally)?;
            Ok(begun(gap, tally.lines, false, text, piece.breaks_line()))
        }
    }
}

/// Passes all trivia at the front of a text, which runs to the place `end`, and adds its comments to the list, each for the gap
/// of this number. Answers whether it breaks the line, and the text behind it. `first` and the faults are those of
/// `lex_pieces::trivia_piece`.
///
/// # Errors
///
/// Want of memory, and a fault of the text. The list has some of the comments then.
#[tactic(auto, using(crate::proofs::Tallies::tallied_none))]
pub fn push_notes<'a>(
    end: u32,
    goal: Goal,
    first: bool,
    gap: usize,
    text: &'a str,
    notes: &mut Vec<Note<'a>>,
) -> Result<(bool, &'a str), Error>
    requires { length text.now < end }
    ensures { IfOk result (λ x. IsNoted goal first gap (chars text.now) x.0 (chars x.1.now) (map said_of notes.old.items) (map said_of notes.new.items)) }
{
    let mut rest = text;
    let mut broke = false;
    let mut tally = Tally {
        lines: 0,
        last: None,
    };
    while let Some((piece, more)) = trivia_piece(end, goal, first | broke, rest)? {
        tally = pass(notes, gap, tally, piece)?;
        broke |= piece.breaks_line();
        rest = more;
    }
    keep_last(notes, tally)?;
    Ok((broke, rest))
}
