//! Statements that leave a place: `return`, `throw`, `break`, `continue`; and `debugger`.
ghost use Rattle.std.specs.Prelude.{◌≡◌};
ghost use Rattle.tree_nodes.specs.View.{view_debugger_stmt, view_return_stmt, view_throw_stmt, view_break_stmt, view_continue_stmt};
ghost use Rattle.tree_spec.specs.Tree.{part_by};
ghost use Rattle.print_gaps.specs.Edges.{is_there};
ghost use Rattle.print_layout_spec.specs.Looks.{◌·◌, when, blank};
ghost use Rattle.print_layout_spec.specs.Layout.{laid};
ghost use Rattle.print_layout_spec.specs.declared.look.Stand.TheVariants.{Alone};
ghost use Rattle.print_pieces.specs.Prints.{Prints};

use crate::print::{Print, PrintPart, print_operand};
use print_layout_spec::{Look, Stand};
use print_pieces::{Printer, Text};
use print_writers::WriteJs;
use tree_nodes::{BreakStmt, ContinueStmt, DebuggerStmt, ReturnStmtOf, ThrowStmtOf};

impl<T: PrintPart> Print for ReturnStmtOf<T> {
    ghost tree = { view_return_stmt T.tree };

    fn print<W: WriteJs>(&self, p: &mut Printer<W>, look: Look, _stand: Stand) {
        p.commit();
        p.start(self.span);
        p.text(Text::Return);
        print_operand(&self.arg, p, look);
        p.semi();
    }
}

impl<T: PrintPart> Print for ThrowStmtOf<T> {
    ghost tree = { view_throw_stmt T.tree };

    fn print<W: WriteJs>(&self, p: &mut Printer<W>, look: Look, _stand: Stand) {
        p.start(self.span);
        p.text(Text::Throw);
        p.gap_or(look, self.arg.starts_with_word());
        self.arg.print(p, look, Stand::Alone);
        p.semi();
    }
}

impl Print for BreakStmt {
    ghost tree = { view_break_stmt };

    fn print<W: WriteJs>(&self, p: &mut Printer<W>, look: Look, _stand: Stand) {
        p.commit();
        p.start(self.span);
        p.text(Text::Break);
        print_label(&self.label, p, look);
        p.semi();
    }
}

impl Print for ContinueStmt {
    ghost tree = { view_continue_stmt };

    fn print<W: WriteJs>(&self, p: &mut Printer<W>, look: Look, _stand: Stand) {
        p.commit();
        p.start(self.span);
        p.text(Text::Continue);
        print_label(&self.label, p, look);
        p.semi();
    }
}

/// Prints the label that a jump goes to, where it has one.
fn print_label<T: Print, W: WriteJs>(label: &Option<T>, p: &mut Printer<W>, look: Look)
    ensures { Prints W.tells W.state W.failed_writes W.loans
        (when (is_there (part_by T.tree label.now)) (blank · laid look Alone (part_by T.tree label.now))) p.old.wr p.old.fault p.new.wr p.new.fault }
{
    if let Some(label) = label {
        p.blank();
        label.print(p, look, Stand::Alone);
    }
}

impl Print for DebuggerStmt {
    ghost tree = { view_debugger_stmt };

    fn print<W: WriteJs>(&self, p: &mut Printer<W>, _look: Look, _stand: Stand) {
        p.commit();
        p.start(self.span);
        p.text(Text::Debugger);
        p.end(self.span);
        p.semi();
    }
}
