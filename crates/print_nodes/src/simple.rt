//! The empty statement, and statements round an expression: an expression by itself, `with` and labels.
ghost use Rattle.std.specs.Prelude.{◌≡◌};
ghost use Rattle.tree_nodes.specs.View.{view_empty_stmt, view_expr_stmt, view_with_stmt, view_labeled_stmt};

use crate::print::{Print, PrintPart, print_closing, print_in_parens};
use print_layout_spec::{Look, Stand};
use print_pieces::{Printer, Text};
use print_writers::WriteJs;
use tree_nodes::{EmptyStmt, ExprStmtOf, LabeledStmtOf, WithStmtOf};

impl Print for EmptyStmt {
    ghost tree = { view_empty_stmt };

    fn print<W: WriteJs>(&self, p: &mut Printer<W>, _look: Look, _stand: Stand) {
        p.text(Text::Semicolon);
    }
}

impl<T: PrintPart> Print for ExprStmtOf<T> {
    ghost tree = { view_expr_stmt T.tree };

    fn print<W: WriteJs>(&self, p: &mut Printer<W>, look: Look, _stand: Stand) {
        self.expr.print(p, look, Stand::Alone);
        p.semi();
    }
}

impl<T: PrintPart> Print for WithStmtOf<T> {
    ghost tree = { view_with_stmt T.tree };

    fn print<W: WriteJs>(&self, p: &mut Printer<W>, look: Look, _stand: Stand) {
        p.commit();
        p.start(self.span);
        p.text(Text::With);
        p.gap(look);
        print_in_parens(&self.obj, p, look);
        self.body.print(p, look, Stand::Alone);
        print_closing(&self.body, p, look);
    }
}

impl<T: PrintPart> Print for LabeledStmtOf<T> {
    ghost tree = { view_labeled_stmt T.tree };

    fn print<W: WriteJs>(&self, p: &mut Printer<W>, look: Look, _stand: Stand) {
        p.commit();
        self.label.print(p, look, Stand::Alone);
        p.text(Text::Colon);
        p.gap(look);
        self.body.print(p, look, Stand::Alone);
        print_closing(&self.body, p, look);
    }
}
