//! Whether pieces match a path, in time of the product of their lengths.
//!
//! The path is read from its end. At each place a row of cells says of each end of the pattern whether it matches what is left of
//! the path, so the first cell of the last row has the answer, and no place is tried twice.

ghost use Rattle.std.specs.Prelude.{◌≡◌, ℕ, List, ◌∷◌, ◌+◌, ◌<◌, ◌&&◌, ◌||◌, [], drop, length, IfOk};
ghost use Rattle.run_ignore.specs.Rows.{can, is_slash, later, IsRow};

use crate::pieces::Piece;
use std::alloc::{AllocError, Global};

/// What an end of a pattern says of what is left of a path.
#[derive(Clone, Copy)]
pub(crate) struct Cell {
    /// It matches all that is left.
    pub(crate) here: bool,
    /// It matches all that stands behind some slash that is left.
    pub(crate) later: bool,
}

/// Whether a piece and those behind it match nothing at all, where it is known of those behind it.
fn is_done(piece: &Piece, behind: bool) -> bool
    ensures { (more : List Piece) → behind ≡ can more [] → result ≡ can (piece.now ∷ more) [] }
{
    match piece {
        Piece::Byte(_) | Piece::One | Piece::Among(_) | Piece::Nothing => false,
        Piece::Star | Piece::Folders => behind,
        Piece::Everything => true,
    }
}

/// Whether a piece and those behind it match a byte and what follows it, where it is known: of what follows, of the same pieces
/// (`same`) and of those behind the first (`past`); of the byte and what follows, of those behind the first (`behind`).
fn is_matched(piece: &Piece, byte: u8, same: bool, past: bool, behind: Cell) -> bool
    ensures { (more : List Piece) → (rest : List ℕ) → same ≡ can (piece.now ∷ more) rest → past ≡ can more rest
        → behind.here ≡ can more (byte ∷ rest) → behind.later ≡ later (can more) (byte ∷ rest)
        → result ≡ can (piece.now ∷ more) (byte ∷ rest) }
{
    match piece {
        Piece::Byte(wanted) => byte == *wanted && past,
        Piece::One => byte != b'/' && past,
        Piece::Among(class) => byte != b'/' && class.holds(byte) && past,
        Piece::Star => behind.here || (byte != b'/' && same),
        Piece::Folders => behind.here || behind.later,
        Piece::Everything => true,
        Piece::Nothing => false,
    }
}

/// Whether pieces match behind some slash of a byte and what follows it, where the cell of what follows is known.
fn is_later(byte: u8, same: Cell) -> bool
    ensures { result ≡ ((is_slash byte && same.here) || same.later) }
{
    (byte == b'/' && same.here) || same.later
}

/// The row at the end of a path.
fn set_last_row(pieces: &[Piece], cells: &mut [Cell])
    requires { length cells.old ≡ length pieces.now + 1 }
    ensures { IsRow cells.new pieces.now [] }
{
    let mut at = pieces.len();
    let mut here = true;
    cells[at] = Cell { here, later: false };
    while at > 0 {
        at -= 1;
        here = is_done(&pieces[at], here);
        cells[at] = Cell { here, later: false };
    }
}

/// The row of a path, where the row of what follows its first byte is there.
fn step_back(pieces: &[Piece], path: &[u8], cells: &mut [Cell])
    requires some { 0 < length path.now }
    requires row { IsRow cells.old pieces.now (drop 1 path.now) }
    ensures { IsRow cells.new pieces.now path.now }
{
    let byte = path[0];
    let mut at = pieces.len();
    let mut past = cells[at];
    let mut behind = Cell {
        here: false,
        later: is_later(byte, past),
    };
    cells[at] = behind;
    while at > 0 {
        at -= 1;
        let same = cells[at];
        let here = is_matched(&pieces[at], byte, same.here, past.here, behind);
        let later = is_later(byte, same);
        behind = Cell { here, later };
        cells[at] = behind;
        past = same;
    }
}

/// Whether the pieces match the path.
///
/// # Errors
///
/// `AllocError` where there is no memory for a row, two bytes for each piece.
pub(crate) fn is_match(alloc: Global, pieces: &[Piece], path: &[u8]) -> Result<bool, AllocError>
    ensures { IfOk result (λ answer. answer ≡ can pieces.now path.now) }
{
    let blank = Cell {
        here: false,
        later: false,
    };
    let mut cells = vec![in alloc; blank; pieces.len() + 1]?;
    set_last_row(pieces, &mut cells);
    let mut at = path.len();
    while at > 0 {
        at -= 1;
        step_back(pieces, &path[at..], &mut cells);
    }
    Ok(cells[0].here)
}
