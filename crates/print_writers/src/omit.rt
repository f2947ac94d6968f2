//! A writer that leaves out the semicolons before `}`.
ghost use Rattle.std.specs.Prelude.{◌≡◌, true};
ghost use Rattle.print_writers.specs.States.{is_brace};
ghost use Rattle.print_writers.specs.Omitting.{omit_state, omit_tells};

use crate::EmitError;
use crate::text_writer::WriteJs;
use base_token::{BytePos, DUMMY_SP, Span};

/// A writer that has each semicolon wait, and drops it where `}` or the end follows.
#[derive(Drop)]
pub struct OmitTrailingSemi<W> {
    inner: W,
    pending: Option<Span>,
}

/// Over `w`, semicolons wait.
pub fn omit_trailing_semi<W: WriteJs>(w: W) -> OmitTrailingSemi<W>
    ensures state { omit_state W.state result ≡ record (W.state w) { holds = true } }
    ensures tells { W.tells w → omit_tells W.tells W.state result }
    ensures behind { result.inner ≡ w }
{
    OmitTrailingSemi {
        inner: w,
        pending: None,
    }
}

impl<W: WriteJs> OmitTrailingSemi<W> {
    ghost use Rattle.print_writers.specs.States.{Does, Keeps, punct};
    ghost use Rattle.print_writers.specs.Omitting.{Settles};

    /// The writer behind. A semicolon that still waits is let go.
    pub fn into_inner(self) -> W
        ensures { result ≡ self.inner }
    {
        let OmitTrailingSemi { inner, pending: _ } = self;
        inner
    }

    /// Writes the semicolon that waits.
    fn settle(&mut self) -> Result<(), EmitError>
        ensures value { Settles W.tells W.state self.old self.new result }
        ensures keeps { Keeps (omit_state W.state) (λ w. W.failed_writes w.inner) (λ w. W.loans w.inner) self.old self.new result }
    {
        match self.pending {
            Some(span) => {
                self.pending = None;
                self.inner.write_operator(Some(span), ";")
            }
            None => self.inner.commit_pending_semi(),
        }
    }

    /// Writes `}`, before which the semicolon that waits is dropped.
    fn write_brace(&mut self, span: Option<Span>, s: &'static str) -> Result<(), EmitError>
        requires { is_brace s.now ≡ true }
        ensures value { Does (omit_tells W.tells W.state) (omit_state W.state) (punct span s.now) self.old self.new result }
        ensures keeps { Keeps (omit_state W.state) (λ w. W.failed_writes w.inner) (λ w. W.loans w.inner) self.old self.new result }
    {
        self.pending = None;
        self.inner.write_punct(span, s)
    }
}

fn is_brace(s: &str) -> bool
    ensures { result ≡ is_brace s.now }
{
    s == "}"
}

impl<W: WriteJs> WriteJs for OmitTrailingSemi<W> {
    ghost state = { omit_state W.state };

    ghost tells = { omit_tells W.tells W.state };

    ghost failed_writes = { λ w. W.failed_writes w.inner };

    ghost loans = { λ w. W.loans w.inner };

    fn increase_indent(&mut self) -> Result<(), EmitError> {
        self.settle()?;
        self.inner.increase_indent()
    }

    fn decrease_indent(&mut self) -> Result<(), EmitError> {
        self.settle()?;
        self.inner.decrease_indent()
    }

    fn write_semi(&mut self, span: Option<Span>) -> Result<(), EmitError> {
        self.settle()?;
        self.pending = Some(span.unwrap_or(DUMMY_SP));
        Ok(())
    }

    fn write_space(&mut self) -> Result<(), EmitError> {
        self.settle()?;
        self.inner.write_space()
    }

    fn write_keyword(&mut self, span: Option<Span>, s: &'static str) -> Result<(), EmitError> {
        self.settle()?;
        self.inner.write_keyword(span, s)
    }

    fn write_operator(&mut self, span: Option<Span>, s: &str) -> Result<(), EmitError> {
        self.settle()?;
        self.inner.write_operator(span, s)
    }

    fn write_param(&mut self, s: &str) -> Result<(), EmitError> {
        self.settle()?;
        self.inner.write_param(s)
    }

    fn write_property(&mut self, s: &str) -> Result<(), EmitError> {
        self.settle()?;
        self.inner.write_property(s)
    }

    fn write_line(&mut self) -> Result<(), EmitError> {
        self.settle()?;
        self.inner.write_line()
    }

    fn write_lit(&mut self, span: Span, s: &str) -> Result<(), EmitError> {
        self.settle()?;
        self.inner.write_lit(span, s)
    }

    fn write_comment(&mut self, s: &str) -> Result<(), EmitError> {
        self.settle()?;
        self.inner.write_comment(s)
    }

    fn write_str_lit(&mut self, span: Span, s: &str) -> Result<(), EmitError> {
        self.settle()?;
        self.inner.write_str_lit(span, s)
    }

    fn write_str(&mut self, s: &str) -> Result<(), EmitError> {
        self.settle()?;
        self.inner.write_str(s)
    }

    #[inline(always)]
    fn put(&mut self, s: &str) -> bool {
        self.pending.is_none() && self.inner.put(s)
    }

    fn write_symbol(&mut self, span: Span, s: &str) -> Result<(), EmitError> {
        self.settle()?;
        self.inner.write_symbol(span, s)
    }

    fn write_punct(&mut self, span: Option<Span>, s: &'static str) -> Result<(), EmitError> {
        if is_brace(s) {
            return self.write_brace(span, s);
        }
        self.settle()?;
        self.inner.write_punct(span, s)
    }

    fn add_srcmap(&mut self, pos: BytePos) -> Result<(), EmitError> {
        match self.inner.add_srcmap(pos) {
            Ok(()) => Ok(()),
            Err(fault) => {
                self.pending = None;
                Err(fault)
            }
        }
    }

    fn commit_pending_semi(&mut self) -> Result<(), EmitError> {
        self.settle()
    }

    fn care_about_srcmap(&self) -> bool {
        self.inner.care_about_srcmap()
    }

    fn needs_marks(&self) -> bool {
        self.inner.needs_marks()
    }
}
