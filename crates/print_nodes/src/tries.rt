//! `try` with `catch` and `finally`.
ghost use Rattle.std.specs.Prelude.{◌≡◌, codes};
ghost use Rattle.tree_spec.specs.Tree.{part_by};
ghost use Rattle.print_gaps.specs.Edges.{is_there};
ghost use Rattle.tree_nodes.specs.View.{view_try_stmt, view_catch_clause};
ghost use Rattle.print_layout_spec.specs.Looks.{◌·◌, when, text, gap};
ghost use Rattle.print_layout_spec.specs.Layout.{laid};
ghost use Rattle.print_layout_spec.specs.declared.look.Stand.TheVariants.{Alone};
ghost use Rattle.print_pieces.specs.Prints.{Prints};

use crate::print::{Print, PrintPart, print_behind_gap, print_maybe_in_parens};
use print_layout_spec::{Look, Stand};
use print_pieces::{Printer, Text};
use print_writers::WriteJs;
use tree_nodes::{CatchClauseOf, TryStmtOf};

impl<T: PrintPart> Print for TryStmtOf<T> {
    ghost tree = { view_try_stmt T.tree };

    fn print<W: WriteJs>(&self, p: &mut Printer<W>, look: Look, _stand: Stand) {
        p.commit();
        p.start(self.span);
        p.text(Text::Try);
        p.gap(look);
        self.block.print(p, look, Stand::Alone);
        print_behind_gap(&self.handler, p, look);
        print_finally(&self.finalizer, p, look);
    }
}

/// Prints `finally` and its block.
fn print_finally<T: Print, W: WriteJs>(finalizer: &Option<T>, p: &mut Printer<W>, look: Look)
    ensures { Prints W.tells W.state W.failed_writes W.loans
        (when (is_there (part_by T.tree finalizer.now)) (gap look · text (codes "finally") · laid look Alone (part_by T.tree finalizer.now)))
        p.old.wr p.old.fault p.new.wr p.new.fault }
{
    if let Some(block) = finalizer {
        p.gap(look);
        p.text(Text::Finally);
        block.print(p, look, Stand::Alone);
    }
}

impl<T: PrintPart> Print for CatchClauseOf<T> {
    ghost tree = { view_catch_clause T.tree };

    fn print<W: WriteJs>(&self, p: &mut Printer<W>, look: Look, _stand: Stand) {
        p.start(self.span);
        p.text(Text::Catch);
        p.gap(look);
        print_maybe_in_parens(&self.param, p, look);
        p.gap(look);
        self.body.print(p, look, Stand::Alone);
    }
}
