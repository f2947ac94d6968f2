//! A writer that is lent.
ghost use Rattle.std.specs.Prelude.{◌≡◌};

use crate::EmitError;
use crate::text_writer::WriteJs;
use base_token::{BytePos, Span};

impl<W: WriteJs> WriteJs for &mut W {
    ghost use Rattle.std.specs.Prelude.{◌∷◌};

    ghost state = { λ w. W.state w.now };

    ghost tells = { λ w. W.tells w.now };

    ghost failed_writes = { λ w. W.failed_writes w.now };

    ghost loans = { λ w. w.ghost_name ∷ W.loans w.now };

    #[inline]
    fn increase_indent(&mut self) -> Result<(), EmitError> {
        (**self).increase_indent()
    }

    #[inline]
    fn decrease_indent(&mut self) -> Result<(), EmitError> {
        (**self).decrease_indent()
    }

    #[inline]
    fn write_semi(&mut self, span: Option<Span>) -> Result<(), EmitError> {
        (**self).write_semi(span)
    }

    #[inline]
    fn write_space(&mut self) -> Result<(), EmitError> {
        (**self).write_space()
    }

    #[inline]
    fn write_keyword(&mut self, span: Option<Span>, s: &'static str) -> Result<(), EmitError> {
        (**self).write_keyword(span, s)
    }

    #[inline]
    fn write_operator(&mut self, span: Option<Span>, s: &str) -> Result<(), EmitError> {
        (**self).write_operator(span, s)
    }

    #[inline]
    fn write_param(&mut self, s: &str) -> Result<(), EmitError> {
        (**self).write_param(s)
    }

    #[inline]
    fn write_property(&mut self, s: &str) -> Result<(), EmitError> {
        (**self).write_property(s)
    }

    #[inline]
    fn write_line(&mut self) -> Result<(), EmitError> {
        (**self).write_line()
    }

    #[inline]
    fn write_lit(&mut self, span: Span, s: &str) -> Result<(), EmitError> {
        (**self).write_lit(span, s)
    }

    #[inline]
    fn write_comment(&mut self, s: &str) -> Result<(), EmitError> {
        (**self).write_comment(s)
    }

    #[inline]
    fn write_str_lit(&mut self, span: Span, s: &str) -> Result<(), EmitError> {
        (**self).write_str_lit(span, s)
    }

    #[inline]
    fn write_str(&mut self, s: &str) -> Result<(), EmitError> {
        (**self).write_str(s)
    }

    #[inline(always)]
    fn put(&mut self, s: &str) -> bool {
        (**self).put(s)
    }

    #[inline]
    fn write_symbol(&mut self, span: Span, s: &str) -> Result<(), EmitError> {
        (**self).write_symbol(span, s)
    }

    #[inline]
    fn write_punct(&mut self, span: Option<Span>, s: &'static str) -> Result<(), EmitError> {
        (**self).write_punct(span, s)
    }

    #[inline]
    fn add_srcmap(&mut self, pos: BytePos) -> Result<(), EmitError> {
        (**self).add_srcmap(pos)
    }

    #[inline]
    fn commit_pending_semi(&mut self) -> Result<(), EmitError> {
        (**self).commit_pending_semi()
    }

    #[inline]
    fn care_about_srcmap(&self) -> bool {
        (**self).care_about_srcmap()
    }

    #[inline]
    fn needs_marks(&self) -> bool {
        (**self).needs_marks()
    }

    #[inline]
    fn can_ignore_invalid_unicodes(&self) -> bool {
        (**self).can_ignore_invalid_unicodes()
    }
}
