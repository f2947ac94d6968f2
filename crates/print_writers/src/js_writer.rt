//! The writer of a program's text.
ghost use Rattle.std.specs.Prelude.{◌≡◌, [], ◌∷◌, true, IsSome, None, Some, MatchOption};
ghost use Rattle.print_writers.specs.Pages.{told, indented, with_text, marked, begun, ended, put_some, put, put_preamble, end_line, put_line, put_mark};
ghost use Rattle.print_writers.specs.States.{PageDoes};

use crate::EmitError;
use crate::lines::{after_text, further, next_line, units};
use crate::marks::MarkList;
use crate::output::{write_all, write_times};
use crate::text_writer::WriteJs;
use base_token::{BytePos, CountedWrite, LineCol, Span};
use std::alloc::Global;

/// A writer of texts, lines and indentation, which keeps marks where it is given a list for them.
#[derive(Drop)]
pub struct JsWriter<'a, W> {
    depth: u32,
    indent_str: &'static str,
    line_start: bool,
    new_line: &'a str,
    marks: Option<MarkList<'a>>,
    wr: W,
}

impl<'a, W: CountedWrite> JsWriter<'a, W> {
    ghost use Rattle.print_writers.specs.Views.{js_page, js_tells, js_loans, js_behind, IsListOf, JsKeeps, first_page, first_marks};

    /// A writer over `wr` that ends lines with `new_line` and indents with four blanks. Where it is given
    /// a list, it adds the marks to its end.
    pub fn new(
        alloc: Global,
        new_line: &'a str,
        wr: W,
        srcmap: Option<&'a mut Vec<(BytePos, LineCol)>>,
    ) -> JsWriter<'a, W>
        ensures page { MatchOption srcmap.entry (js_page W.contents result ≡ first_page (told (W.contents wr)) new_line.now None) (λ list. js_page W.contents result ≡ first_page (told (W.contents wr)) new_line.now (Some (first_marks list.now.items))) }
        ensures tells { IsSome (W.contents wr) → js_tells W.contents result }
        ensures behind { js_behind result ≡ wr }
        ensures loans { MatchOption srcmap.entry (js_loans result ≡ []) (λ list. js_loans result ≡ list.ghost_name ∷ []) }
    {
        JsWriter {
            depth: 0,
            indent_str: "    ",
            line_start: true,
            new_line,
            marks: srcmap.map(|list| MarkList::new(alloc, list)),
            wr,
        }
    }

    /// The writer behind.
    pub fn inner(&self) -> &W
        ensures { result.now ≡ js_behind self.now }
    {
        &self.wr
    }

    /// The writer behind, once nothing more is written.
    pub fn into_inner(self) -> W
        ensures { result ≡ js_behind self.entry }
    {
        let JsWriter { wr, .. } = self;
        wr
    }

    /// The writer behind and the list of the marks, once nothing more is written.
    pub fn into_parts(self) -> (W, Option<&'a mut Vec<(BytePos, LineCol)>>)
        ensures behind { result.0 ≡ js_behind self.entry }
        ensures marks { IsListOf W.contents self.entry result.1 }
    {
        let JsWriter { wr, marks, .. } = self;
        match marks {
            Some(marks) => (wr, Some(marks.into_list())),
            None => (wr, None),
        }
    }

    /// Indents with this text from now on.
    pub fn set_indent_str(&mut self, indent_str: &'static str)
        ensures page { js_page W.contents self.new ≡ record (js_page W.contents self.old) { indent = indent_str.now } }
        ensures tells { js_tells W.contents self.old → js_tells W.contents self.new }
        ensures behind { js_behind self.new ≡ js_behind self.old }
        ensures loans { js_loans self.new ≡ js_loans self.old }
    {
        self.indent_str = indent_str;
    }

    /// Writes a text without indentation. Whether a line starts stays.
    ///
    /// # Errors
    ///
    /// Those of `WriteJs`.
    #[tactic(auto, unfolding(crate::specs::Pages::put_preamble))]
    pub fn preamble(&mut self, s: &str) -> Result<(), EmitError>
        ensures value { PageDoes (js_tells W.contents) (js_page W.contents) (put_preamble s.now) self.old self.new result }
        ensures keeps { JsKeeps W.contents W.failure_count self.old self.new result }
    {
        if s.is_empty() {
            return Ok(());
        }
        self.write_raw(s)
    }

    #[tactic(auto, unfolding(crate::specs::Pages::indented, crate::specs::Pages::moved, crate::specs::Pages::settled))]
    /// The first text of a line follows the indentation, and the mark that waits is recorded.
    #[inline(never)]
    fn begin_line(&mut self) -> Result<(), EmitError>
        requires { self.old.line_start ≡ true }
        ensures value { PageDoes (js_tells W.contents) (js_page W.contents) indented self.old self.new result }
        ensures keeps { JsKeeps W.contents W.failure_count self.old self.new result }
    {
        let indent = self.indent_str;
        match &mut self.marks {
            Some(marks) => {
                let end = marks.after_indentation(self.depth, indent)?;
                write_times(&mut self.wr, self.depth, indent.as_bytes())?;
                self.line_start = false;
                marks.move_to(end);
                marks.settle()
            }
            None => {
                write_times(&mut self.wr, self.depth, indent.as_bytes())?;
                self.line_start = false;
                Ok(())
            }
        }
    }

    #[tactic(auto, unfolding(crate::specs::Pages::marked))]
    fn mark_now(&mut self, pos: BytePos) -> Result<(), EmitError>
        ensures value { PageDoes (js_tells W.contents) (js_page W.contents) (marked pos) self.old self.new result }
        ensures keeps { JsKeeps W.contents W.failure_count self.old self.new result }
    {
        match &mut self.marks {
            Some(marks) => marks.record(pos),
            None => Ok(()),
        }
    }

    #[tactic(auto, unfolding(crate::specs::Pages::with_text, crate::specs::Pages::moved))]
    /// Writes a text as it is.
    fn write_raw(&mut self, text: &str) -> Result<(), EmitError>
        ensures value { PageDoes (js_tells W.contents) (js_page W.contents) (with_text text.now) self.old self.new result }
        ensures keeps { JsKeeps W.contents W.failure_count self.old self.new result }
    {
        match &mut self.marks {
            Some(marks) => {
                let end = marks.after(text)?;
                write_all(&mut self.wr, text.as_bytes())?;
                marks.move_to(end);
                Ok(())
            }
            None => write_all(&mut self.wr, text.as_bytes()),
        }
    }

    /// A text may come next: the line is indented.
    #[tactic(auto, unfolding(crate::specs::Pages::indented))]
    fn indent(&mut self) -> Result<(), EmitError>
        ensures value { PageDoes (js_tells W.contents) (js_page W.contents) indented self.old self.new result }
        ensures keeps { JsKeeps W.contents W.failure_count self.old self.new result }
    {
        if self.line_start {
            return self.begin_line();
        }
        Ok(())
    }

    /// Marks where a text of this span begins.
    fn begin(&mut self, span: Option<Span>) -> Result<(), EmitError>
        ensures value { PageDoes (js_tells W.contents) (js_page W.contents) (begun span) self.old self.new result }
        ensures keeps { JsKeeps W.contents W.failure_count self.old self.new result }
    {
        match span {
            Some(span) => self.mark_now(span.lo),
            None => Ok(()),
        }
    }

    /// Marks where it ends.
    fn end(&mut self, span: Option<Span>) -> Result<(), EmitError>
        ensures value { PageDoes (js_tells W.contents) (js_page W.contents) (ended span) self.old self.new result }
        ensures keeps { JsKeeps W.contents W.failure_count self.old self.new result }
    {
        match span {
            Some(span) => self.mark_now(span.hi),
            None => Ok(()),
        }
    }

    /// Writes a text that is not empty, with its marks.
    fn write_some(&mut self, span: Option<Span>, text: &str) -> Result<(), EmitError>
        ensures value { PageDoes (js_tells W.contents) (js_page W.contents) (put_some span text.now) self.old self.new result }
        ensures keeps { JsKeeps W.contents W.failure_count self.old self.new result }
    {
        self.indent()?;
        self.begin(span)?;
        self.write_raw(text)?;
        self.end(span)
    }

    /// Writes a text with its marks.
    #[tactic(auto, unfolding(crate::specs::Pages::put))]
    #[inline]
    fn write(&mut self, span: Option<Span>, text: &str) -> Result<(), EmitError>
        ensures value { PageDoes (js_tells W.contents) (js_page W.contents) (put span text.now) self.old self.new result }
        ensures keeps { JsKeeps W.contents W.failure_count self.old self.new result }
    {
        if text.is_empty() {
            return Ok(());
        }
        self.write_some(span, text)
    }

    /// Ends the line, where it isn't empty.
    #[tactic(auto, unfolding(crate::specs::Pages::put_line, crate::specs::Pages::moved))]
    fn line(&mut self) -> Result<(), EmitError>
        ensures value { PageDoes (js_tells W.contents) (js_page W.contents) put_line self.old self.new result }
        ensures keeps { JsKeeps W.contents W.failure_count self.old self.new result }
    {
        if let Some(marks) = &mut self.marks {
            marks.wait(None);
        }
        if self.line_start {
            return Ok(());
        }
        self.end_line()
    }

    #[tactic(auto, unfolding(crate::specs::Pages::end_line, crate::specs::Pages::moved))]
    fn end_line(&mut self) -> Result<(), EmitError>
        ensures value { PageDoes (js_tells W.contents) (js_page W.contents) end_line self.old self.new result }
        ensures keeps { JsKeeps W.contents W.failure_count self.old self.new result }
    {
        match &mut self.marks {
            Some(marks) => {
                let next = marks.next_line()?;
                write_all(&mut self.wr, self.new_line.as_bytes())?;
                marks.move_to(next);
            }
            None => write_all(&mut self.wr, self.new_line.as_bytes())?,
        }
        self.line_start = true;
        Ok(())
    }

    /// A mark: at the place reached, or where the line's first text will begin.
    #[tactic(auto, unfolding(crate::specs::Pages::put_mark, crate::specs::Pages::marked))]
    fn mark(&mut self, pos: BytePos) -> Result<(), EmitError>
        ensures value { PageDoes (js_tells W.contents) (js_page W.contents) (put_mark pos) self.old self.new result }
        ensures keeps { JsKeeps W.contents W.failure_count self.old self.new result }
    {
        if pos.is_dummy() {
            return Ok(());
        }
        match &mut self.marks {
            Some(marks) if self.line_start => {
                marks.wait(Some(pos));
                Ok(())
            }
            Some(marks) => marks.record(pos),
            None => Ok(()),
        }
    }
}

impl<'a, W: CountedWrite> WriteJs for JsWriter<'a, W> {
    ghost use Rattle.print_writers.specs.Views.{js_state, js_tells, js_loans, js_failures};

    ghost state = { js_state W.contents };

    ghost tells = { js_tells W.contents };

    ghost failed_writes = { js_failures W.failure_count };

    ghost loans = { js_loans };

    #[tactic(auto, unfolding(crate::specs::States::commit, crate::specs::States::increase, crate::specs::Pages::deeper))]
    #[inline]
    fn increase_indent(&mut self) -> Result<(), EmitError> {
        if self.depth < u32::MAX {
            self.depth += 1;
        }
        Ok(())
    }

    #[tactic(auto, unfolding(crate::specs::States::commit, crate::specs::States::decrease, crate::specs::Pages::shallower))]
    #[inline]
    fn decrease_indent(&mut self) -> Result<(), EmitError> {
        self.depth = self.depth.saturating_sub(1);
        Ok(())
    }

    #[tactic(auto, unfolding(crate::specs::States::commit, crate::specs::States::text, crate::specs::States::semi))]
    #[inline]
    fn write_semi(&mut self, span: Option<Span>) -> Result<(), EmitError> {
        self.write(span, ";")
    }

    #[tactic(auto, unfolding(crate::specs::States::commit, crate::specs::States::text))]
    #[inline]
    fn write_space(&mut self) -> Result<(), EmitError> {
        self.write(None, " ")
    }

    #[tactic(auto, unfolding(crate::specs::States::commit, crate::specs::States::text))]
    #[inline]
    fn write_keyword(&mut self, span: Option<Span>, s: &'static str) -> Result<(), EmitError> {
        self.write(span, s)
    }

    #[tactic(auto, unfolding(crate::specs::States::commit, crate::specs::States::text))]
    #[inline]
    fn write_operator(&mut self, span: Option<Span>, s: &str) -> Result<(), EmitError> {
        self.write(span, s)
    }

    #[tactic(auto, unfolding(crate::specs::States::commit, crate::specs::States::text))]
    #[inline]
    fn write_param(&mut self, s: &str) -> Result<(), EmitError> {
        self.write(None, s)
    }

    #[tactic(auto, unfolding(crate::specs::States::commit, crate::specs::States::text))]
    #[inline]
    fn write_property(&mut self, s: &str) -> Result<(), EmitError> {
        self.write(None, s)
    }

    #[tactic(auto, unfolding(crate::specs::States::commit, crate::specs::States::line))]
    #[inline]
    fn write_line(&mut self) -> Result<(), EmitError> {
        self.line()
    }

    #[tactic(auto, unfolding(crate::specs::States::commit, crate::specs::States::text))]
    #[inline]
    fn write_lit(&mut self, span: Span, s: &str) -> Result<(), EmitError> {
        self.write(Some(span), s)
    }

    #[tactic(auto, unfolding(crate::specs::States::commit, crate::specs::States::text))]
    #[inline]
    fn write_comment(&mut self, s: &str) -> Result<(), EmitError> {
        self.write(None, s)
    }

    #[tactic(auto, unfolding(crate::specs::States::commit, crate::specs::States::text))]
    #[inline]
    fn write_str_lit(&mut self, span: Span, s: &str) -> Result<(), EmitError> {
        self.write(Some(span), s)
    }

    #[tactic(auto, unfolding(crate::specs::States::commit, crate::specs::States::text))]
    #[inline]
    fn write_str(&mut self, s: &str) -> Result<(), EmitError> {
        self.write(None, s)
    }

    #[tactic(auto, unfolding(crate::specs::States::commit, crate::specs::States::text, crate::specs::Pages::put, crate::specs::Pages::indented, crate::specs::Pages::with_text))]
    #[inline(always)]
    fn put(&mut self, s: &str) -> bool {
        !self.line_start && self.marks.is_none() && !s.is_empty() && self.wr.take_all(s.as_bytes())
    }

    #[tactic(auto, unfolding(crate::specs::States::commit, crate::specs::States::text))]
    #[inline]
    fn write_symbol(&mut self, span: Span, s: &str) -> Result<(), EmitError> {
        self.write(Some(span), s)
    }

    #[tactic(auto, unfolding(crate::specs::States::commit, crate::specs::States::text, crate::specs::States::punct))]
    #[inline]
    fn write_punct(&mut self, span: Option<Span>, s: &'static str) -> Result<(), EmitError> {
        self.write(span, s)
    }

    #[tactic(auto, unfolding(crate::specs::States::mark))]
    #[inline]
    fn add_srcmap(&mut self, pos: BytePos) -> Result<(), EmitError> {
        self.mark(pos)
    }

    #[tactic(auto, unfolding(crate::specs::States::commit))]
    #[inline]
    fn commit_pending_semi(&mut self) -> Result<(), EmitError> {
        Ok(())
    }

    #[inline]
    fn care_about_srcmap(&self) -> bool {
        self.marks.is_some()
    }
}
