//! Comments that own their texts.
ghost use Rattle.std.specs.Prelude.{◌≡◌, IfOk};
ghost use Rattle.lex_comments.specs.Comments.{owned_comment};

use base_token::{Atom, Span, Spanned};
use lex_pieces::CommentKind;
use std::alloc::{AllocError, Global};

/// A comment: its kind, its place with its marks, and its text between them, which it owns.
#[derive(Debug, Drop)]
pub struct Comment {
    pub kind: CommentKind,
    pub span: Span,
    pub text: Atom,
}

impl Comment {
    /// The comment of a text, with a text of its own.
    ///
    /// # Errors
    ///
    /// Want of memory.
    pub fn read(alloc: Global, comment: &lex_pieces::Comment<'_>) -> Result<Comment, AllocError>
        ensures { IfOk result (λ c. c ≡ owned_comment comment.now) }
    {
        let text = Atom::new(alloc, comment.text)?;
        Ok(Comment {
            kind: comment.kind,
            span: comment.span,
            text,
        })
    }
}

impl Spanned for Comment {
    ghost span_of = { λ c. c.span };

    fn span(&self) -> Span {
        self.span
    }
}

impl Clone for Comment {
    ghost is_clone = { λ c d. d ≡ c };

    fn clone(&self) -> Result<Comment, AllocError> {
        let text = self.text.clone()?;
        Ok(Comment {
            kind: self.kind,
            span: self.span,
            text,
        })
    }
}
