//! Comments between what is printed: those that lead a node before its first mark, those that trail a statement
//! before the end of its line.
ghost use Rattle.std.specs.Prelude.{◌≡◌};

use base_token::{BytePos, Span};
use lex_comments::{Comment, CommentKind, Comments};
use print_writers::{EmitError, WriteJs};
use std::convert::AsStr;

/// A writer over another that writes comments too, each once. What it is told to write it writes in this order;
/// which bytes it has written is not known, since comments stand between them.
///
/// A comment of a place is written at the mark of that place. At the start of a line, and behind a semicolon, all are
/// written that stand before the mark. Before the end of a line, and before what follows a semicolon, those are written
/// that stand before what was written last, and before a semicolon those that trail it, as far as it is spelled as it
/// was read.
#[derive(Drop)]
pub struct WithComments<'a, W> {
    wr: W,
    comments: &'a mut Comments,
    minify: bool,
    /// The place up to which comments are written.
    done: u32,
    /// The place behind what was written, where it is spelled as it was read.
    reached: u32,
    /// Whether a statement may start here.
    is_fresh: bool,
    /// Whether nothing stands on the line yet.
    starts_line: bool,
}

impl<'a, W: WriteJs> WithComments<'a, W> {
    ghost use Rattle.print_writers.specs.States.{Keeps};

    /// A writer over `wr` that writes these comments too.
    pub fn new(wr: W, comments: &'a mut Comments, minify: bool) -> WithComments<'a, W>
        ensures behind { result.wr ≡ wr }
    {
        WithComments {
            wr,
            comments,
            minify,
            done: 0,
            reached: 0,
            is_fresh: true,
            starts_line: true,
        }
    }

    /// Writes the comments that stand up to this place and are still to be written.
    ///
    /// # Errors
    ///
    /// Those of the writer.
    pub fn finish(&mut self, end: BytePos) -> Result<(), EmitError>
        ensures { Keeps (λ w. W.state w.wr) (λ w. W.failed_writes w.wr) (λ w. W.loans w.wr) self.old self.new result }
    {
        self.write_before(end.0)
    }

    /// Writes one comment.
    fn write_one(&mut self, comment: &Comment, trails: bool) -> Result<(), EmitError>
        ensures { Keeps (λ w. W.state w.wr) (λ w. W.failed_writes w.wr) (λ w. W.loans w.wr) self.old self.new result }
    {
        if trails && !self.minify && !self.starts_line {
            self.wr.write_comment(" ")?;
        }
        self.starts_line = matches!(comment.kind, CommentKind::Line);
        self.wr.add_srcmap(comment.span.lo)?;
        match comment.kind {
            CommentKind::Line => self.write_line_comment(comment),
            CommentKind::Block => self.write_block_comment(comment),
        }
    }

    /// Writes a comment to the end of its line, and ends the line.
    fn write_line_comment(&mut self, comment: &Comment) -> Result<(), EmitError>
        ensures { Keeps (λ w. W.state w.wr) (λ w. W.failed_writes w.wr) (λ w. W.loans w.wr) self.old self.new result }
    {
        self.wr.write_comment("//")?;
        self.wr.write_comment(comment.text.as_str())?;
        self.wr.add_srcmap(comment.span.hi)?;
        self.wr.write_line()
    }

    /// Writes a comment between its marks.
    fn write_block_comment(&mut self, comment: &Comment) -> Result<(), EmitError>
        ensures { Keeps (λ w. W.state w.wr) (λ w. W.failed_writes w.wr) (λ w. W.loans w.wr) self.old self.new result }
    {
        self.wr.write_comment("/*")?;
        self.wr.write_comment(comment.text.as_str())?;
        self.wr
            .add_srcmap(BytePos(comment.span.hi.0.saturating_sub(2)))?;
        self.wr.write_comment("*/")?;
        if !self.minify {
            self.wr.write_space()?;
        }
        Ok(())
    }

    /// Writes these comments.
    fn write_all(&mut self, comments: &[Comment], trail: bool) -> Result<(), EmitError>
        ensures { Keeps (λ w. W.state w.wr) (λ w. W.failed_writes w.wr) (λ w. W.loans w.wr) self.old self.new result }
    {
        for comment in comments {
            self.write_one(comment, trail)?;
        }
        Ok(())
    }

    /// Writes the comments that trail what ends at this place.
    fn write_trailing(&mut self, pos: u32) -> Result<(), EmitError>
        ensures { Keeps (λ w. W.state w.wr) (λ w. W.failed_writes w.wr) (λ w. W.loans w.wr) self.old self.new result }
    {
        let trailing = self.comments.take_trailing(BytePos(pos));
        self.write_all(trailing.as_slice(), true)
    }

    /// Writes the comments of a place: those that trail what ends there, and those that lead what begins there.
    fn write_at(&mut self, pos: u32) -> Result<(), EmitError>
        ensures { Keeps (λ w. W.state w.wr) (λ w. W.failed_writes w.wr) (λ w. W.loans w.wr) self.old self.new result }
    {
        self.write_trailing(pos)?;
        let leading = self.comments.take_leading(BytePos(pos));
        self.write_all(leading.as_slice(), false)
    }

    /// Writes the comments of the places from the one behind those that are done up to this one.
    fn write_before(&mut self, pos: u32) -> Result<(), EmitError>
        ensures { Keeps (λ w. W.state w.wr) (λ w. W.failed_writes w.wr) (λ w. W.loans w.wr) self.old self.new result }
    {
        let first = self.done;
        self.done = first.max(pos);
        for place in first..pos {
            self.write_at(place + 1)?;
        }
        Ok(())
    }

    /// What stands at this place comes next.
    fn come_to(&mut self, pos: u32) -> Result<(), EmitError>
        ensures { Keeps (λ w. W.state w.wr) (λ w. W.failed_writes w.wr) (λ w. W.loans w.wr) self.old self.new result }
    {
        if self.is_fresh {
            self.write_before(pos)?;
        }
        self.reached = pos;
        self.write_at(pos)
    }

    /// A text comes next, which is no blank: what was written is further by its length. Behind a semicolon the comments
    /// up to the place that was reached are written first.
    fn pass(&mut self, text: &str) -> Result<(), EmitError>
        ensures { Keeps (λ w. W.state w.wr) (λ w. W.failed_writes w.wr) (λ w. W.loans w.wr) self.old self.new result }
    {
        if self.is_fresh {
            self.write_before(self.reached)?;
        }
        let length = u32::try_from(text.len()).unwrap_or(u32::MAX);
        self.reached = self.reached.saturating_add(length);
        self.is_fresh = false;
        self.starts_line = false;
        Ok(())
    }
}

impl<'a, W: WriteJs> WriteJs for WithComments<'a, W> {
    ghost state = { λ w. W.state w.wr };

    ghost tells = { λ w. ⊥ };

    ghost failed_writes = { λ w. W.failed_writes w.wr };

    ghost loans = { λ w. W.loans w.wr };

    fn increase_indent(&mut self) -> Result<(), EmitError> {
        self.wr.increase_indent()
    }

    fn decrease_indent(&mut self) -> Result<(), EmitError> {
        self.wr.decrease_indent()
    }

    fn write_semi(&mut self, span: Option<Span>) -> Result<(), EmitError> {
        self.write_trailing(self.reached)?;
        self.pass(";")?;
        self.is_fresh = true;
        self.wr.write_semi(span)
    }

    fn write_space(&mut self) -> Result<(), EmitError> {
        self.wr.write_space()
    }

    fn write_keyword(&mut self, span: Option<Span>, s: &'static str) -> Result<(), EmitError> {
        self.pass(s)?;
        self.wr.write_keyword(span, s)
    }

    fn write_operator(&mut self, span: Option<Span>, s: &str) -> Result<(), EmitError> {
        self.pass(s)?;
        self.wr.write_operator(span, s)
    }

    fn write_param(&mut self, s: &str) -> Result<(), EmitError> {
        self.pass(s)?;
        self.wr.write_param(s)
    }

    fn write_property(&mut self, s: &str) -> Result<(), EmitError> {
        self.pass(s)?;
        self.wr.write_property(s)
    }

    fn write_line(&mut self) -> Result<(), EmitError> {
        self.write_before(self.reached)?;
        self.is_fresh = true;
        self.starts_line = true;
        self.wr.write_line()
    }

    fn write_lit(&mut self, span: Span, s: &str) -> Result<(), EmitError> {
        self.pass(s)?;
        self.wr.write_lit(span, s)
    }

    fn write_comment(&mut self, s: &str) -> Result<(), EmitError> {
        self.wr.write_comment(s)
    }

    fn write_str_lit(&mut self, span: Span, s: &str) -> Result<(), EmitError> {
        self.pass(s)?;
        self.wr.write_str_lit(span, s)
    }

    fn write_str(&mut self, s: &str) -> Result<(), EmitError> {
        self.pass(s)?;
        self.wr.write_str(s)
    }

    fn write_symbol(&mut self, span: Span, s: &str) -> Result<(), EmitError> {
        self.pass(s)?;
        self.wr.write_symbol(span, s)
    }

    fn write_punct(&mut self, span: Option<Span>, s: &'static str) -> Result<(), EmitError> {
        self.pass(s)?;
        self.wr.write_punct(span, s)
    }

    fn add_srcmap(&mut self, pos: BytePos) -> Result<(), EmitError> {
        if !pos.is_dummy() {
            self.come_to(pos.0)?;
        }
        self.wr.add_srcmap(pos)
    }

    fn commit_pending_semi(&mut self) -> Result<(), EmitError> {
        self.wr.commit_pending_semi()
    }

    fn care_about_srcmap(&self) -> bool {
        self.wr.care_about_srcmap()
    }

    // By its marks the writer comes to the places of comments.
    fn needs_marks(&self) -> bool {
        true
    }
}
