//! Texts that are printed in parts.
ghost use Rattle.std.specs.Prelude.{◌≡◌, ◌<◌, ◌∷◌, ◌++◌, length};
ghost use Rattle.print_layout_spec.specs.Looks as looks;
ghost use Rattle.print_pieces.specs.Prints.{Prints};
ghost use Rattle.print_pieces.specs.Literals.Parts.{InTwo, Leaves, held_back};

use crate::Printer;
use print_writers::WriteJs;

/// Law: two texts are written one after the other as they are as one, unless CR and LF meet there.
pub fn in_two()
    ensures { InTwo }
{}

/// Prints the CR that was held back before a part that isn't empty, with the LF that the part begins with. It
/// answers what is left of the part.
fn print_return<'a, W: WriteJs>(p: &mut Printer<W>, part: &'a str) -> &'a str
    requires { 0 < length part.now }
    ensures { Leaves W.tells W.state W.failed_writes W.loans (13 ∷ part.now) result.now p.old.wr p.old.fault p.new.wr p.new.fault }
{
    match part.strip_prefix('\n') {
        Some(rest) => {
            p.write("\r\n");
            rest
        }
        None => {
            p.write("\r");
            part
        }
    }
}

/// Prints a part but for a CR at its end, and answers whether there is one.
#[inline(always)]
fn print_front<W: WriteJs>(p: &mut Printer<W>, part: &str) -> bool
    ensures { Leaves W.tells W.state W.failed_writes W.loans part.now (held_back result) p.old.wr p.old.fault p.new.wr p.new.fault }
{
    match part.strip_suffix('\r') {
        Some(front) => {
            p.write(front);
            true
        }
        None => {
            p.write(part);
            false
        }
    }
}

/// Prints a part of a text, where `held` says whether a CR is held back before it. It answers whether one is
/// held back at its end.
#[inline]
pub fn print_part<W: WriteJs>(p: &mut Printer<W>, held: bool, part: &str) -> bool
    ensures { Leaves W.tells W.state W.failed_writes W.loans (held_back held ++ part.now) (held_back result) p.old.wr p.old.fault p.new.wr p.new.fault }
{
    if part.is_empty() {
        return held;
    }
    if !held {
        return print_front(p, part);
    }
    let rest = print_return(p, part);
    print_front(p, rest)
}

/// Prints the CR that is held back behind the last part of a text, if there is one.
#[inline]
pub fn print_held<W: WriteJs>(p: &mut Printer<W>, held: bool)
    ensures { Prints W.tells W.state W.failed_writes W.loans (looks.text (held_back held)) p.old.wr p.old.fault p.new.wr p.new.fault }
{
    if held {
        p.write("\r");
    } else {
        p.commit();
    }
}
