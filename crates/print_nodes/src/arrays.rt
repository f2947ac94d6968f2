//! Arrays.
ghost use Rattle.std.specs.Prelude.{◌≡◌};
ghost use Rattle.tree_spec.specs.Tree.{trees_by};
ghost use Rattle.tree_nodes.specs.View.{view_array_lit};
ghost use Rattle.print_layout_spec.specs.Looks.{◌·◌, when};
ghost use Rattle.print_layout_spec.specs.Layout.{indented, separated, comma, comma_line, ends_with_hole};
ghost use Rattle.print_pieces.specs.Prints.{Prints};

use crate::lists::{Between, print_separated};
use crate::patterns::print_last_hole;
use crate::print::{Print, PrintElement, PrintPart};
use print_layout_spec::{Look, Stand};
use print_pieces::{Printer, Text};
use print_writers::WriteJs;
use tree_nodes::ArrayLitOf;

/// Prints the elements of an array, one level deeper.
fn print_elements<T: PrintElement, W: WriteJs>(elems: &[T], p: &mut Printer<W>, look: Look)
    ensures { Prints W.tells W.state W.failed_writes W.loans
        (indented look (trees_by T.tree elems.now)
        (separated look (comma_line look) (trees_by T.tree elems.now) · when (ends_with_hole (trees_by T.tree elems.now)) (comma look)))
        p.old.wr p.old.fault p.new.wr p.new.fault }
{
    if elems.is_empty() {
        return;
    }
    p.line(look);
    p.deeper(look);
    print_separated(elems, p, look, Between::CommaLine);
    print_last_hole(elems, p, look);
    p.back(look);
    p.line(look);
}

impl<T: PrintPart> Print for ArrayLitOf<T> {
    ghost tree = { view_array_lit T.tree };

    fn print<W: WriteJs>(&self, p: &mut Printer<W>, look: Look, _stand: Stand) {
        p.start(self.span);
        p.text(Text::LeftBracket);
        print_elements(self.elems.as_slice(), p, look);
        p.text(Text::RightBracket);
        p.end(self.span);
    }
}
