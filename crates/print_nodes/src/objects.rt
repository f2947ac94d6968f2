//! Objects.
ghost use Rattle.std.specs.Prelude.{◌≡◌};
ghost use Rattle.tree_nodes.specs.View.{view_object_lit};

use crate::lists::print_indented_list;
use crate::print::{Print, PrintPart};
use print_layout_spec::{Look, Stand};
use print_pieces::{Printer, Text};
use print_writers::WriteJs;
use tree_nodes::ObjectLitOf;

impl<T: PrintPart> Print for ObjectLitOf<T> {
    ghost tree = { view_object_lit T.tree };

    fn print<W: WriteJs>(&self, p: &mut Printer<W>, look: Look, _stand: Stand) {
        p.start(self.span);
        p.text(Text::LeftBrace);
        print_indented_list(self.props.as_slice(), p, look);
        p.last(self.span);
        p.brace();
    }
}
