//! The comments of the trivia at the front of a text.
ghost use Rattle.std.specs.Prelude.{◌≡◌, ◌<◌, ◌≤◌, List, [], ◌∷◌, ◌++◌, length, IfErr, IfOk, IsUtf8, MatchResult, OnOk, OnErr};
ghost use Rattle.std.specs.Str.{chars};
ghost use Rattle.base_token.specs.declared.error.SyntaxError.TheVariants.{Memory};
ghost use Rattle.lex_pieces.specs.Notes.{IsCollected, IsCollectedUpTo, IsNoteAt};
ghost use Rattle.lex_pieces.specs.ReadingTrivia.{view};
ghost use Rattle.lex_pieces.specs.declared.comments.Comment.{Comment};

use crate::place::{out_of_memory, span};
use crate::trivia::{Goal, Trivia, trivia_piece};
use base_token::{Error, Span};

/// Whether a comment ends with its line or with its own mark.
#[derive(Clone, Copy, Debug, PartialEq, Eq)]
pub enum CommentKind {
    Line,
    Block,
}

/// A comment of a text: its kind, its place with its marks, and its text between them.
#[derive(Clone, Copy, Debug, PartialEq, Eq)]
pub struct Comment<'a> {
    pub kind: CommentKind,
    pub span: Span,
    pub text: &'a str,
}

/// Keeps a comment. Where memory runs out nothing changes.
fn keep<'a>(comments: &mut Vec<Comment<'a>>, comment: Comment<'a>) -> Result<(), Error>
    ensures kept { OnOk result (comments.new.items ≡ comments.old.items ++ comment.entry ∷ []) }
    ensures unchanged { OnErr result (comments.new.items ≡ comments.old.items) }
    ensures full { IfErr result (λ e. e.kind ≡ Memory) }
{
    match comments.push(comment) {
        Ok(()) => Ok(()),
        Err(_) => Err(out_of_memory()),
    }
}

/// Keeps the comment that a piece is, which lies at this place.
fn note<'a>(comments: &mut Vec<Comment<'a>>, piece: Trivia<'a>, span: Span) -> Result<(), Error>
    ensures kept { OnOk result ((own : List Comment) × (comments.new.items ≡ comments.old.items ++ own) × IsNoteAt span (view piece.entry) own) }
    ensures unchanged { OnErr result (comments.new.items ≡ comments.old.items) }
    ensures full { IfErr result (λ e. e.kind ≡ Memory) }
{
    let (kind, text) = match piece {
        Trivia::LineComment(_, text) => (CommentKind::Line, text),
        Trivia::BlockComment(text) => (CommentKind::Block, text),
        Trivia::WhiteSpace | Trivia::LineTerminator => return Ok(()),
    };
    keep(comments, Comment { kind, span, text })
}

/// Passes all trivia at the front of a text, which runs to the place `end`, and adds its comments to
/// the list. Answers whether it breaks the line, and the text after it. `first` and the faults are
/// those of `trivia_piece`; where memory runs out the fault is `Memory`. After a fault the list has
/// the comments before it.
pub fn collect_trivia<'a>(
    end: u32,
    goal: Goal,
    first: bool,
    text: &'a str,
    comments: &mut Vec<Comment<'a>>,
) -> Result<(bool, &'a str), Error>
    requires { length text.now < end }
    ensures trivia { MatchResult result
        (λ x. IsCollected end goal first (chars text.now) x.0 (chars x.1.now) comments.old.items comments.new.items)
        (λ e. IsCollectedUpTo end goal first (chars text.now) e comments.old.items comments.new.items) }
    ensures rest { IfOk result (λ x. IsUtf8 x.1.now × (length x.1.now ≤ length text.now)) }
{
    let mut rest = text;
    let mut broke = false;
    while let Some((piece, more)) = trivia_piece(end, goal, first | broke, rest)? {
        note(comments, piece, span(end, rest, more))?;
        if piece.breaks_line() {
            broke = true;
        }
        rest = more;
    }
    Ok((broke, rest))
}
