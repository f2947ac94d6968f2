//! Pieces of templates.
ghost use Rattle.std.specs.Prelude.{◌≡◌};
ghost use Rattle.print_layout_spec.specs.Looks as looks;
ghost use Rattle.print_layout_spec.specs.Literals.{quasi_bytes};
ghost use Rattle.print_pieces.specs.Prints.{Prints};

use crate::Printer;
use crate::literals::parts::{print_held, print_part};
use print_spelling::Style;
use print_spelling::template::TemplateText;
use print_writers::WriteJs;

/// Prints what there is to come of a piece of an untagged template.
fn print_template_parts<W: WriteJs>(p: &mut Printer<W>, parts: TemplateText<'_>)
    ensures { Prints W.tells W.state W.failed_writes W.loans (looks.text parts.entry) p.old.wr p.old.fault p.new.wr p.new.fault }
{
    let mut parts = parts;
    let mut held = false;
    'parts: while let Some(part) = parts.next_piece() {
        held = print_part(p, held, part.as_str());
    }
    print_held(p, held);
}

/// Prints a piece of a template, by its raw text: as it was read behind a tag.
pub fn print_quasi<W: WriteJs>(p: &mut Printer<W>, style: Style, tagged: bool, raw: &str)
    ensures { Prints W.tells W.state W.failed_writes W.loans (looks.text (quasi_bytes style tagged raw.now)) p.old.wr p.old.fault p.new.wr p.new.fault }
{
    if tagged {
        p.write(raw);
    } else {
        print_template_parts(p, TemplateText::new(raw, style));
    }
}
