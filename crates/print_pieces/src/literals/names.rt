//! Names and keys.
ghost use Rattle.std.specs.Prelude.{◌≡◌, if◌then◌else◌};
ghost use Rattle.print_layout_spec.specs.Looks as looks;
ghost use Rattle.print_layout_spec.specs.Literals as literals;
ghost use Rattle.print_layout_spec.specs.Literals.{name_bytes, key_bytes, identifier, key_word};
ghost use Rattle.print_pieces.specs.Prints.{Prints};

use crate::Printer;
use crate::literals::parts::{print_held, print_part};
use base_token::Span;
use print_layout_spec::Look;
use print_spelling::Style;
use print_spelling::string::NameText;
use print_writers::WriteJs;

/// Prints what there is to come of a name or a key.
fn print_name_parts<W: WriteJs>(p: &mut Printer<W>, parts: NameText<'_>)
    ensures { Prints W.tells W.state W.failed_writes W.loans (looks.text parts.entry) p.old.wr p.old.fault p.new.wr p.new.fault }
{
    let mut parts = parts;
    let mut held = false;
    'parts: while let Some(part) = parts.next_piece() {
        held = print_part(p, held, part.as_str());
    }
    print_held(p, held);
}

/// Prints a name, by its text without escapes: at once, where all of its characters may stand as they are.
pub fn print_name<W: WriteJs>(p: &mut Printer<W>, style: Style, name: &str)
    ensures { Prints W.tells W.state W.failed_writes W.loans (looks.text (name_bytes style name.now)) p.old.wr p.old.fault p.new.wr p.new.fault }
{
    if style.ascii_only {
        print_name_parts(p, NameText::name(name, style));
    } else {
        p.write(name);
    }
}

/// Prints a name of a variable, a label or a specifier, by its text without escapes, and marks where it was read.
pub fn print_identifier<W: WriteJs>(p: &mut Printer<W>, look: Look, span: Span, name: &str)
    ensures { Prints W.tells W.state W.failed_writes W.loans (identifier look span name.now) p.old.wr p.old.fault p.new.wr p.new.fault }
{
    if look.style.ascii_only {
        print_identifier_by_parts(p, look, span, name);
    } else {
        p.name(span.lo, name);
    }
}

/// The same of a name that may take escapes.
#[inline(never)]
fn print_identifier_by_parts<W: WriteJs>(p: &mut Printer<W>, look: Look, span: Span, name: &str)
    ensures { Prints W.tells W.state W.failed_writes W.loans (identifier look span name.now) p.old.wr p.old.fault p.new.wr p.new.fault }
{
    p.commit();
    p.start(span);
    print_name(p, look.style, name);
}

/// Prints a word that is a key, by its text without escapes: at once, where all of its characters may stand as they are.
pub fn print_key<W: WriteJs>(p: &mut Printer<W>, style: Style, word: &str)
    ensures { Prints W.tells W.state W.failed_writes W.loans (looks.text (key_bytes style word.now)) p.old.wr p.old.fault p.new.wr p.new.fault }
{
    if style.ascii_only {
        print_name_parts(p, NameText::key(word, style));
    } else {
        p.write(word);
    }
}

/// Prints a word, as a key or as a name, and marks where it was read.
pub fn print_word<W: WriteJs>(p: &mut Printer<W>, look: Look, span: Span, key: bool, word: &str)
    ensures { Prints W.tells W.state W.failed_writes W.loans (if key then key_word look span word.now else literals.name look span word.now) p.old.wr p.old.fault p.new.wr p.new.fault }
{
    if look.style.ascii_only {
        print_word_by_parts(p, look, span, key, word);
    } else {
        p.name(span.lo, word);
    }
}

/// The same of a word that may take escapes.
#[inline(never)]
fn print_word_by_parts<W: WriteJs>(
    p: &mut Printer<W>,
    look: Look,
    span: Span,
    key: bool,
    word: &str,
)
    ensures { Prints W.tells W.state W.failed_writes W.loans (if key then key_word look span word.now else literals.name look span word.now) p.old.wr p.old.fault p.new.wr p.new.fault }
{
    p.commit();
    p.start(span);
    if key {
        print_key(p, look.style, word);
    } else {
        print_name(p, look.style, word);
    }
}
