//! `switch` and its cases.
ghost use Rattle.std.specs.Prelude.{◌≡◌, true, not, if◌then◌else◌, codes};
ghost use Rattle.tree_spec.specs.Tree.{part_by, trees_by};
ghost use Rattle.print_gaps.specs.Edges.{is_there, starts_with_word};
ghost use Rattle.tree_nodes.specs.View.{view_switch_stmt, view_switch_case};
ghost use Rattle.print_layout_spec.specs.Looks.{◌·◌, when, text, gap_or, line, deeper, back};
ghost use Rattle.print_layout_spec.specs.Layout.{laid, rows, is_empty};
ghost use Rattle.print_layout_spec.specs.declared.look.Stand.TheVariants.{Alone};
ghost use Rattle.print_pieces.specs.Prints.{Prints};

use crate::lists::{print_closed_rows, print_indented_rows};
use crate::print::{Print, PrintItem, PrintPart, print_in_parens};
use print_layout_spec::{Look, Stand};
use print_pieces::{Printer, Text};
use print_writers::WriteJs;
use tree_nodes::{SwitchCaseOf, SwitchStmtOf};

impl<T: PrintPart> Print for SwitchStmtOf<T> {
    ghost tree = { view_switch_stmt T.tree };

    fn print<W: WriteJs>(&self, p: &mut Printer<W>, look: Look, _stand: Stand) {
        p.commit();
        p.start(self.span);
        p.text(Text::Switch);
        print_in_parens(&self.discriminant, p, look);
        p.text(Text::LeftBrace);
        print_indented_rows(self.cases.as_slice(), p, look);
        p.last(self.span);
        p.brace();
    }
}

impl<T: PrintPart> Print for SwitchCaseOf<T> {
    ghost tree = { view_switch_case T.tree };

    fn print<W: WriteJs>(&self, p: &mut Printer<W>, look: Look, _stand: Stand) {
        p.start(self.span);
        print_case_head(&self.test, p, look);
        p.text(Text::Colon);
        print_case_body(self.cons.as_slice(), p, look);
    }
}

/// Prints `case` with its test, or `default`.
fn print_case_head<T: PrintPart, W: WriteJs>(test: &Option<T>, p: &mut Printer<W>, look: Look)
    ensures { Prints W.tells W.state W.failed_writes W.loans
        (if is_there (part_by T.tree test.now)
        then text (codes "case") · gap_or look (starts_with_word (part_by T.tree test.now)) · laid look Alone (part_by T.tree test.now)
        else text (codes "default"))
        p.old.wr p.old.fault p.new.wr p.new.fault }
{
    match test {
        Some(test) => {
            p.text(Text::Case);
            p.gap_or(look, test.starts_with_word());
            test.print(p, look, Stand::Alone);
        }
        None => p.text(Text::Default),
    }
}

/// Prints the statements of a case.
fn print_case_body<T: PrintItem, W: WriteJs>(body: &[T], p: &mut Printer<W>, look: Look)
    ensures { Prints W.tells W.state W.failed_writes W.loans
        (when (not (is_empty (trees_by T.tree body.now))) (line look · deeper look · rows look true (trees_by T.tree body.now) · back look))
        p.old.wr p.old.fault p.new.wr p.new.fault }
{
    if body.is_empty() {
        return;
    }
    p.line(look);
    p.deeper(look);
    print_closed_rows(body, p, look);
    p.back(look);
}
