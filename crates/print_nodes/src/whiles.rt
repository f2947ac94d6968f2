//! `while` and `do`.
ghost use Rattle.std.specs.Prelude.{◌≡◌};
ghost use Rattle.tree_nodes.specs.View.{view_while_stmt, view_do_while_stmt};

use crate::print::{Print, PrintPart, print_closing, print_in_parens};
use print_layout_spec::{Look, Stand};
use print_pieces::{Printer, Text};
use print_writers::WriteJs;
use tree_nodes::{DoWhileStmtOf, WhileStmtOf};

impl<T: PrintPart> Print for WhileStmtOf<T> {
    ghost tree = { view_while_stmt T.tree };

    fn print<W: WriteJs>(&self, p: &mut Printer<W>, look: Look, _stand: Stand) {
        p.commit();
        p.start(self.span);
        p.text(Text::While);
        print_in_parens(&self.test, p, look);
        self.body.print(p, look, Stand::Alone);
        print_closing(&self.body, p, look);
    }
}

impl<T: PrintPart> Print for DoWhileStmtOf<T> {
    ghost tree = { view_do_while_stmt T.tree };

    fn print<W: WriteJs>(&self, p: &mut Printer<W>, look: Look, _stand: Stand) {
        p.commit();
        p.start(self.span);
        p.text(Text::Do);
        p.gap_or(look, self.body.starts_with_word());
        self.body.print(p, look, Stand::Alone);
        print_closing(&self.body, p, look);
        p.text(Text::While);
        p.gap(look);
        print_in_parens(&self.test, p, look);
        p.semi();
        p.end(self.span);
    }
}
