//! What prints: a writer, and how the text is to look.
ghost use Rattle.std.specs.Prelude.{◌≡◌, if◌then◌else◌};
ghost use Rattle.print_layout_spec.specs.Looks as looks;
ghost use Rattle.print_layout_spec.specs.Looks.{named};
ghost use Rattle.print_layout_spec.specs.Layout.{comma, comma_line};
ghost use Rattle.print_pages_spec.specs.Pieces.{Deeper, Back, Mark};
ghost use Rattle.print_pieces.specs.Prints.{Prints};
ghost use Rattle.print_pieces.specs.Texts.{bytes};

use crate::text::Text;
use base_token::{BytePos, Span};
use print_layout_spec::Look;
use print_writers::{EmitError, WriteJs};

/// A writer that is printed to. Once it has a fault, nothing more is written.
pub struct Printer<W> {
    /// The writer.
    pub wr: W,
    /// The first fault of printing.
    pub fault: Option<EmitError>,
}

impl<W: WriteJs> Printer<W> {
    /// Writes a blank.
    #[inline(always)]
    pub fn blank(&mut self)
        ensures { Prints W.tells W.state W.failed_writes W.loans looks.blank self.old.wr self.old.fault self.new.wr self.new.fault }
    {
        if self.fault.is_some() {
            return;
        }
        if !self.wr.put(" ") {
            self.blank_by_steps();
        }
    }

    /// The same by way of the writer's steps.
    #[inline(never)]
    fn blank_by_steps(&mut self)
        ensures { Prints W.tells W.state W.failed_writes W.loans looks.blank self.old.wr self.old.fault self.new.wr self.new.fault }
    {
        if self.fault.is_none() {
            self.fault = self.wr.write_space().err();
        }
    }

    /// Writes a semicolon that may go.
    pub fn semi(&mut self)
        ensures { Prints W.tells W.state W.failed_writes W.loans looks.semi self.old.wr self.old.fault self.new.wr self.new.fault }
    {
        if self.fault.is_none() {
            self.fault = self.wr.write_semi(None).err();
        }
    }

    /// Ends the line.
    pub fn line_always(&mut self)
        ensures { Prints W.tells W.state W.failed_writes W.loans looks.line_always self.old.wr self.old.fault self.new.wr self.new.fault }
    {
        if self.fault.is_none() {
            self.fault = self.wr.write_line().err();
        }
    }

    /// Indents what follows one level deeper.
    pub fn deeper_always(&mut self)
        ensures { Prints W.tells W.state W.failed_writes W.loans (looks.one Deeper) self.old.wr self.old.fault self.new.wr self.new.fault }
    {
        if self.fault.is_none() {
            self.fault = self.wr.increase_indent().err();
        }
    }

    /// Indents what follows one level less.
    pub fn back_always(&mut self)
        ensures { Prints W.tells W.state W.failed_writes W.loans (looks.one Back) self.old.wr self.old.fault self.new.wr self.new.fault }
    {
        if self.fault.is_none() {
            self.fault = self.wr.decrease_indent().err();
        }
    }

    /// Writes a fixed text.
    #[inline(always)]
    pub fn text(&mut self, text: Text)
        ensures { Prints W.tells W.state W.failed_writes W.loans (looks.text (bytes text)) self.old.wr self.old.fault self.new.wr self.new.fault }
    {
        self.write(text.as_str());
    }

    /// Writes a text.
    #[inline(always)]
    pub fn write(&mut self, text: &str)
        ensures { Prints W.tells W.state W.failed_writes W.loans (looks.text text.now) self.old.wr self.old.fault self.new.wr self.new.fault }
    {
        if self.fault.is_some() {
            return;
        }
        if !self.wr.put(text) {
            self.write_by_steps(text);
        }
    }

    /// The same by way of the writer's steps.
    #[inline(never)]
    fn write_by_steps(&mut self, text: &str)
        ensures { Prints W.tells W.state W.failed_writes W.loans (looks.text text.now) self.old.wr self.old.fault self.new.wr self.new.fault }
    {
        if self.fault.is_none() {
            self.fault = self.wr.write_str(text).err();
        }
    }

    /// Writes `}`.
    pub fn brace(&mut self)
        ensures { Prints W.tells W.state W.failed_writes W.loans looks.brace self.old.wr self.old.fault self.new.wr self.new.fault }
    {
        if self.fault.is_none() {
            self.fault = self.wr.write_punct(None, "}").err();
        }
    }

    /// Writes the semicolon that waits.
    pub fn commit(&mut self)
        ensures { Prints W.tells W.state W.failed_writes W.loans looks.commit self.old.wr self.old.fault self.new.wr self.new.fault }
    {
        if self.fault.is_some() {
            return;
        }
        match self.wr.commit_pending_semi() {
            Ok(()) => {}
            Err(fault) => self.fault = Some(fault),
        }
    }

    /// Writes a name behind the semicolon that waits, and marks where it was read.
    #[inline(always)]
    pub fn name(&mut self, pos: BytePos, name: &str)
        ensures { Prints W.tells W.state W.failed_writes W.loans (named pos name.now) self.old.wr self.old.fault self.new.wr self.new.fault }
    {
        if self.fault.is_some() {
            return;
        }
        if self.wr.needs_marks() {
            self.name_by_steps(pos, name);
            return;
        }
        if !self.wr.put(name) {
            self.name_by_steps(pos, name);
        }
    }

    /// The same by way of the writer's steps.
    #[inline(never)]
    fn name_by_steps(&mut self, pos: BytePos, name: &str)
        ensures { Prints W.tells W.state W.failed_writes W.loans (named pos name.now) self.old.wr self.old.fault self.new.wr self.new.fault }
    {
        self.commit();
        self.mark(pos);
        self.write(name);
    }

    /// Marks a position.
    #[inline(always)]
    pub fn mark(&mut self, pos: BytePos)
        ensures { Prints W.tells W.state W.failed_writes W.loans (looks.one (Mark pos)) self.old.wr self.old.fault self.new.wr self.new.fault }
    {
        if self.wr.needs_marks() {
            self.mark_by_steps(pos);
        }
    }

    /// The same by way of the writer's steps.
    #[inline(never)]
    fn mark_by_steps(&mut self, pos: BytePos)
        ensures { Prints W.tells W.state W.failed_writes W.loans (looks.one (Mark pos)) self.old.wr self.old.fault self.new.wr self.new.fault }
    {
        if self.fault.is_none() {
            self.fault = self.wr.add_srcmap(pos).err();
        }
    }

    /// Ends the line when formatting.
    pub fn line(&mut self, look: Look)
        ensures { Prints W.tells W.state W.failed_writes W.loans (looks.line look) self.old.wr self.old.fault self.new.wr self.new.fault }
    {
        if !look.style.minify {
            self.line_always();
        }
    }

    /// Writes a blank when formatting.
    pub fn gap(&mut self, look: Look)
        ensures { Prints W.tells W.state W.failed_writes W.loans (looks.gap look) self.old.wr self.old.fault self.new.wr self.new.fault }
    {
        if !look.style.minify {
            self.blank();
        }
    }

    /// Writes a blank when formatting, or where words would meet.
    pub fn gap_or(&mut self, look: Look, word: bool)
        ensures { Prints W.tells W.state W.failed_writes W.loans (looks.gap_or look word) self.old.wr self.old.fault self.new.wr self.new.fault }
    {
        if word || !look.style.minify {
            self.blank();
        }
    }

    /// Indents what follows one level deeper when formatting.
    pub fn deeper(&mut self, look: Look)
        ensures { Prints W.tells W.state W.failed_writes W.loans (looks.deeper look) self.old.wr self.old.fault self.new.wr self.new.fault }
    {
        if !look.style.minify {
            self.deeper_always();
        }
    }

    /// Indents what follows one level less when formatting.
    pub fn back(&mut self, look: Look)
        ensures { Prints W.tells W.state W.failed_writes W.loans (looks.back look) self.old.wr self.old.fault self.new.wr self.new.fault }
    {
        if !look.style.minify {
            self.back_always();
        }
    }

    /// Writes a fixed text where it is to stand.
    pub fn text_if(&mut self, stands: bool, text: Text)
        ensures { Prints W.tells W.state W.failed_writes W.loans (looks.when stands (looks.text (bytes text))) self.old.wr self.old.fault self.new.wr self.new.fault }
    {
        if stands {
            self.text(text);
        }
    }

    /// Writes a blank where it is to stand.
    pub fn blank_if(&mut self, stands: bool)
        ensures { Prints W.tells W.state W.failed_writes W.loans (looks.when stands looks.blank) self.old.wr self.old.fault self.new.wr self.new.fault }
    {
        if stands {
            self.blank();
        }
    }

    /// Marks where a node starts.
    pub fn start(&mut self, span: Span)
        ensures { Prints W.tells W.state W.failed_writes W.loans (looks.start span) self.old.wr self.old.fault self.new.wr self.new.fault }
    {
        self.mark(span.lo);
    }

    /// Marks where a node ends.
    pub fn end(&mut self, span: Span)
        ensures { Prints W.tells W.state W.failed_writes W.loans (looks.end span) self.old.wr self.old.fault self.new.wr self.new.fault }
    {
        self.mark(span.hi);
    }

    /// Marks where the last character of a node stands.
    pub fn last(&mut self, span: Span)
        ensures { Prints W.tells W.state W.failed_writes W.loans (looks.last span) self.old.wr self.old.fault self.new.wr self.new.fault }
    {
        self.mark(BytePos(span.hi.0.saturating_sub(1)));
    }

    /// Marks where a node starts, if it is to be marked.
    pub fn start_if(&mut self, marks: bool, span: Span)
        ensures { Prints W.tells W.state W.failed_writes W.loans (looks.when marks (looks.start span)) self.old.wr self.old.fault self.new.wr self.new.fault }
    {
        if marks {
            self.start(span);
        }
    }

    /// Writes a comma, and a blank when formatting.
    pub fn comma(&mut self, look: Look)
        ensures { Prints W.tells W.state W.failed_writes W.loans (comma look) self.old.wr self.old.fault self.new.wr self.new.fault }
    {
        self.text(Text::Comma);
        self.gap(look);
    }

    /// Writes a comma, and ends the line when formatting.
    pub fn comma_line(&mut self, look: Look)
        ensures { Prints W.tells W.state W.failed_writes W.loans (comma_line look) self.old.wr self.old.fault self.new.wr self.new.fault }
    {
        self.text(Text::Comma);
        self.line(look);
    }

    /// Stops: what follows can't be printed.
    pub fn refuse(&mut self)
        ensures { Prints W.tells W.state W.failed_writes W.loans (looks.refused) self.old.wr self.old.fault self.new.wr self.new.fault }
    {
        if self.fault.is_none() {
            self.fault = Some(EmitError::Node);
        }
    }

    /// Writes a blank when formatting, where it is to stand.
    pub fn gap_if(&mut self, look: Look, stands: bool)
        ensures { Prints W.tells W.state W.failed_writes W.loans (looks.when stands (looks.gap look)) self.old.wr self.old.fault self.new.wr self.new.fault }
    {
        if stands {
            self.gap(look);
        }
    }

    /// Writes a word and a blank, where the word is to stand.
    pub fn word_if(&mut self, stands: bool, word: Text)
        ensures { Prints W.tells W.state W.failed_writes W.loans (looks.when stands (looks.both (looks.text (bytes word)) looks.blank)) self.old.wr self.old.fault self.new.wr self.new.fault }
    {
        if stands {
            self.text(word);
            self.blank();
        }
    }

    /// Writes a blank, before what starts with a bracket only when formatting.
    pub fn blank_before(&mut self, look: Look, bracket: bool)
        ensures { Prints W.tells W.state W.failed_writes W.loans (if bracket then looks.gap look else looks.blank) self.old.wr self.old.fault self.new.wr self.new.fault }
    {
        if bracket {
            self.gap(look);
        } else {
            self.blank();
        }
    }
}
