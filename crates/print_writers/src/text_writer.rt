//! What the printer writes to, and its writers.
ghost use Rattle.std.specs.Prelude.{◌≡◌, ℕ, List, false, None, Some, codes};
ghost use base.Fml.{GName};
ghost use Rattle.print_writers.specs.States.{State, Does, Keeps, KeepsAll, Puts, has_places, text, line, increase, decrease, semi, punct, mark, commit};

use crate::EmitError;
pub use crate::js_writer::JsWriter;
pub use crate::omit::{OmitTrailingSemi, omit_trailing_semi};
use base_token::{BytePos, Span};

/// A writer of a program's words, punctuators and lines.
///
/// Each call makes one step of the writer's state, and stops where it is refused: then a beginning of
/// the bytes is written. It answers `Write` where the writer behind failed in this call, and, only where
/// positions are kept, `Memory` and `Position` (a line or a column past 4,294,967,295). A text with a span
/// is marked where it begins and where it ends; an empty one writes and marks nothing. Every call but
/// `write_punct` of `}` and `add_srcmap` writes the semicolon that waits first.
pub trait WriteJs {
    /// The bytes written and what comes next: the semicolon that waits, the indentation, the marks.
    ghost state: { Self → State };

    /// That the bytes are known, so that the state is the writer's.
    ghost tells: { Self → Type 0 };

    /// How many writes have failed.
    ghost failed_writes: { Self → ℕ };

    /// The loans that the writer holds.
    ghost loans: { Self → List GName };

    /// Goes a level deeper. At the last, 4,294,967,295, it stays.
    fn increase_indent(&mut self) -> Result<(), EmitError>
        ensures value { Does tells state increase self.old self.new result }
        ensures keeps { Keeps state failed_writes loans self.old self.new result };

    /// Goes a level back. At 0 it stays.
    fn decrease_indent(&mut self) -> Result<(), EmitError>
        ensures value { Does tells state decrease self.old self.new result }
        ensures keeps { Keeps state failed_writes loans self.old self.new result };

    /// Writes a semicolon, or has it wait.
    fn write_semi(&mut self, span: Option<Span>) -> Result<(), EmitError>
        ensures value { Does tells state (semi span) self.old self.new result }
        ensures keeps { Keeps state failed_writes loans self.old self.new result };

    /// Writes a blank.
    fn write_space(&mut self) -> Result<(), EmitError>
        ensures value { Does tells state (text None (codes " ")) self.old self.new result }
        ensures keeps { Keeps state failed_writes loans self.old self.new result };

    /// Writes a keyword.
    fn write_keyword(&mut self, span: Option<Span>, s: &'static str) -> Result<(), EmitError>
        ensures value { Does tells state (text span s.now) self.old self.new result }
        ensures keeps { Keeps state failed_writes loans self.old self.new result };

    /// Writes an operator.
    fn write_operator(&mut self, span: Option<Span>, s: &str) -> Result<(), EmitError>
        ensures value { Does tells state (text span s.now) self.old self.new result }
        ensures keeps { Keeps state failed_writes loans self.old self.new result };

    /// Writes a parameter.
    fn write_param(&mut self, s: &str) -> Result<(), EmitError>
        ensures value { Does tells state (text None s.now) self.old self.new result }
        ensures keeps { Keeps state failed_writes loans self.old self.new result };

    /// Writes a property.
    fn write_property(&mut self, s: &str) -> Result<(), EmitError>
        ensures value { Does tells state (text None s.now) self.old self.new result }
        ensures keeps { Keeps state failed_writes loans self.old self.new result };

    /// Ends the line. Where one starts it writes nothing, and drops the mark that waits.
    fn write_line(&mut self) -> Result<(), EmitError>
        ensures value { Does tells state line self.old self.new result }
        ensures keeps { Keeps state failed_writes loans self.old self.new result };

    /// Writes a literal.
    fn write_lit(&mut self, span: Span, s: &str) -> Result<(), EmitError>
        ensures value { Does tells state (text (Some span) s.now) self.old self.new result }
        ensures keeps { Keeps state failed_writes loans self.old self.new result };

    /// Writes a comment.
    fn write_comment(&mut self, s: &str) -> Result<(), EmitError>
        ensures value { Does tells state (text None s.now) self.old self.new result }
        ensures keeps { Keeps state failed_writes loans self.old self.new result };

    /// Writes a string.
    fn write_str_lit(&mut self, span: Span, s: &str) -> Result<(), EmitError>
        ensures value { Does tells state (text (Some span) s.now) self.old self.new result }
        ensures keeps { Keeps state failed_writes loans self.old self.new result };

    /// Writes a text.
    fn write_str(&mut self, s: &str) -> Result<(), EmitError>
        ensures value { Does tells state (text None s.now) self.old self.new result }
        ensures keeps { Keeps state failed_writes loans self.old self.new result };

    /// Writes a text as `write_str` does, where it isn't empty and that is no more than to hand its bytes on: within a line,
    /// where no positions are kept, no semicolon waits, and the writer behind takes all of them at once. It tells whether
    /// it did. Else nothing changes.
    fn put(&mut self, s: &str) -> bool
        ensures value { Puts tells state s.now self.old self.new result }
        ensures keeps { KeepsAll state failed_writes loans self.old self.new }
    {
        let _ = s;
        false
    }

    /// Writes a name.
    fn write_symbol(&mut self, span: Span, s: &str) -> Result<(), EmitError>
        ensures value { Does tells state (text (Some span) s.now) self.old self.new result }
        ensures keeps { Keeps state failed_writes loans self.old self.new result };

    /// Writes a punctuator. Before `}` a semicolon that waits is dropped.
    fn write_punct(&mut self, span: Option<Span>, s: &'static str) -> Result<(), EmitError>
        ensures value { Does tells state (punct span s.now) self.old self.new result }
        ensures keeps { Keeps state failed_writes loans self.old self.new result };

    /// Marks the place reached, a semicolon that waits not counted. At the start of a line the mark waits
    /// for the line's first text, in place of one that waits. A dummy marks nothing.
    fn add_srcmap(&mut self, pos: BytePos) -> Result<(), EmitError>
        ensures value { Does tells state (mark pos) self.old self.new result }
        ensures keeps { Keeps state failed_writes loans self.old self.new result };

    /// Writes the semicolon that waits.
    fn commit_pending_semi(&mut self) -> Result<(), EmitError>
        ensures value { Does tells state commit self.old self.new result }
        ensures keeps { Keeps state failed_writes loans self.old self.new result };

    /// Whether positions are kept.
    fn care_about_srcmap(&self) -> bool
        ensures { result ≡ has_places (state self.now) };

    /// Whether a mark changes anything or is asked for by the writer. Else `add_srcmap` need not be called.
    fn needs_marks(&self) -> bool
        ensures { result ≡ false → has_places (state self.now) ≡ false }
    {
        self.care_about_srcmap()
    }

    /// Whether characters that are none may be left as they are: they may not.
    fn can_ignore_invalid_unicodes(&self) -> bool
        ensures { result ≡ false }
    {
        false
    }
}

impl<W: WriteJs> WriteJs for Box<W> {
    ghost state = { λ w. W.state w.value };

    ghost tells = { λ w. W.tells w.value };

    ghost failed_writes = { λ w. W.failed_writes w.value };

    ghost loans = { λ w. W.loans w.value };

    #[inline]
    fn increase_indent(&mut self) -> Result<(), EmitError> {
        (**self).increase_indent()
    }

    #[inline]
    fn decrease_indent(&mut self) -> Result<(), EmitError> {
        (**self).decrease_indent()
    }

    #[inline]
    fn write_semi(&mut self, span: Option<Span>) -> Result<(), EmitError> {
        (**self).write_semi(span)
    }

    #[inline]
    fn write_space(&mut self) -> Result<(), EmitError> {
        (**self).write_space()
    }

    #[inline]
    fn write_keyword(&mut self, span: Option<Span>, s: &'static str) -> Result<(), EmitError> {
        (**self).write_keyword(span, s)
    }

    #[inline]
    fn write_operator(&mut self, span: Option<Span>, s: &str) -> Result<(), EmitError> {
        (**self).write_operator(span, s)
    }

    #[inline]
    fn write_param(&mut self, s: &str) -> Result<(), EmitError> {
        (**self).write_param(s)
    }

    #[inline]
    fn write_property(&mut self, s: &str) -> Result<(), EmitError> {
        (**self).write_property(s)
    }

    #[inline]
    fn write_line(&mut self) -> Result<(), EmitError> {
        (**self).write_line()
    }

    #[inline]
    fn write_lit(&mut self, span: Span, s: &str) -> Result<(), EmitError> {
        (**self).write_lit(span, s)
    }

    #[inline]
    fn write_comment(&mut self, s: &str) -> Result<(), EmitError> {
        (**self).write_comment(s)
    }

    #[inline]
    fn write_str_lit(&mut self, span: Span, s: &str) -> Result<(), EmitError> {
        (**self).write_str_lit(span, s)
    }

    #[inline]
    fn write_str(&mut self, s: &str) -> Result<(), EmitError> {
        (**self).write_str(s)
    }

    #[inline(always)]
    fn put(&mut self, s: &str) -> bool {
        (**self).put(s)
    }

    #[inline]
    fn write_symbol(&mut self, span: Span, s: &str) -> Result<(), EmitError> {
        (**self).write_symbol(span, s)
    }

    #[inline]
    fn write_punct(&mut self, span: Option<Span>, s: &'static str) -> Result<(), EmitError> {
        (**self).write_punct(span, s)
    }

    #[inline]
    fn add_srcmap(&mut self, pos: BytePos) -> Result<(), EmitError> {
        (**self).add_srcmap(pos)
    }

    #[inline]
    fn commit_pending_semi(&mut self) -> Result<(), EmitError> {
        (**self).commit_pending_semi()
    }

    #[inline]
    fn care_about_srcmap(&self) -> bool {
        (**self).care_about_srcmap()
    }

    #[inline]
    fn needs_marks(&self) -> bool {
        (**self).needs_marks()
    }

    #[inline]
    fn can_ignore_invalid_unicodes(&self) -> bool {
        (**self).can_ignore_invalid_unicodes()
    }
}
