//! Pieces of a text that is written.

ghost use Rattle.std.specs.Prelude.{◌≡◌};
ghost use Rattle.print_spelling.specs.PieceText.{piece_bytes};

use crate::form::Made;

/// A piece of a text that is written: a slice of a text that was lent, or one that was made. Neither takes
/// memory.
#[derive(Clone, Copy)]
pub enum Piece<'a> {
    Lent(&'a str),
    Made(Made),
}

impl<'a> Piece<'a> {
    /// Its text.
    pub fn as_str(&self) -> &str
        ensures { result.now ≡ piece_bytes self.now }
    {
        match self {
            Piece::Lent(text) => text,
            Piece::Made(text) => text.as_str(),
        }
    }
}
