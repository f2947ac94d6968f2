//! Blocks.
ghost use Rattle.std.specs.Prelude.{◌≡◌};
ghost use Rattle.tree_nodes.specs.View.{view_block_stmt};
ghost use Rattle.print_layout_spec.specs.Layout.{marked_as_body};
ghost use Rattle.print_pieces.specs.Prints.{Prints};

use crate::lists::print_indented_statements;
use crate::print::{Print, PrintItem};
use print_layout_spec::{Look, Stand};
use print_pieces::{Printer, Text};
use print_writers::WriteJs;
use tree_nodes::BlockStmtOf;

/// Whether a block that stands so marks its start.
fn marks_block(stand: Stand) -> bool
    ensures { result ≡ marked_as_body stand }
{
    !matches!(stand, Stand::Body)
}

impl<T: PrintItem> Print for BlockStmtOf<T> {
    ghost tree = { view_block_stmt T.tree };

    fn print<W: WriteJs>(&self, p: &mut Printer<W>, look: Look, stand: Stand) {
        p.start_if(marks_block(stand), self.span);
        p.text(Text::LeftBrace);
        print_indented_statements(self.stmts.as_slice(), p, look);
        p.last(self.span);
        p.brace();
    }
}
