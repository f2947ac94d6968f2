//! Patterns.
ghost use Rattle.std.specs.Prelude.{◌≡◌, true, false, not};
ghost use Rattle.tree_spec.specs.Tree.{trees_by};
ghost use Rattle.tree_nodes.specs.View.{view_array_pat, view_rest_pat, view_assign_pat, view_object_pat};
ghost use Rattle.print_layout_spec.specs.Looks.{◌·◌, when, gap};
ghost use Rattle.print_layout_spec.specs.Layout.{ends_with_hole, separated, comma, is_empty};
ghost use Rattle.print_pieces.specs.Prints.{Prints};

use crate::lists::{Between, print_separated};
use crate::print::{Print, PrintElement, PrintPart};
use print_layout_spec::{Look, Stand};
use print_pieces::{Printer, Text};
use print_writers::WriteJs;
use tree_nodes::{ArrayPatOf, AssignPatOf, ObjectPatOf, RestPatOf};

impl<T: PrintPart> Print for ArrayPatOf<T> {
    ghost tree = { view_array_pat T.tree };

    fn print<W: WriteJs>(&self, p: &mut Printer<W>, look: Look, _stand: Stand) {
        let elems = self.elems.as_slice();
        p.start(self.span);
        p.text(Text::LeftBracket);
        print_separated(elems, p, look, Between::Comma);
        print_last_hole(elems, p, look);
        p.text(Text::RightBracket);
        p.end(self.span);
    }
}

/// Prints the comma behind a last element that is left out.
pub fn print_last_hole<T: PrintElement, W: WriteJs>(elems: &[T], p: &mut Printer<W>, look: Look)
    ensures { Prints W.tells W.state W.failed_writes W.loans
        (when (ends_with_hole (trees_by T.tree elems.now)) (comma look)) p.old.wr p.old.fault p.new.wr p.new.fault }
{
    if ends_with_hole(elems) {
        p.comma(look);
    }
}

/// Whether the last element is left out.
fn ends_with_hole<T: PrintElement>(elems: &[T]) -> bool
    ensures { result ≡ ends_with_hole (trees_by T.tree elems.now) }
{
    match elems.last() {
        Some(last) => last.is_hole(),
        None => false,
    }
}

impl<T: PrintPart> Print for RestPatOf<T> {
    ghost tree = { view_rest_pat T.tree };

    fn print<W: WriteJs>(&self, p: &mut Printer<W>, look: Look, _stand: Stand) {
        p.start(self.dot3_token);
        p.text(Text::Spread);
        p.end(self.dot3_token);
        self.arg.print(p, look, Stand::Alone);
    }
}

impl<T: PrintPart> Print for AssignPatOf<T> {
    ghost tree = { view_assign_pat T.tree };

    fn print<W: WriteJs>(&self, p: &mut Printer<W>, look: Look, _stand: Stand) {
        p.start(self.span);
        self.left.print(p, look, Stand::Alone);
        p.gap(look);
        p.text(Text::Equals);
        p.gap(look);
        self.right.print(p, look, Stand::Alone);
        p.end(self.span);
    }
}

impl<T: PrintPart> Print for ObjectPatOf<T> {
    ghost tree = { view_object_pat T.tree };

    fn print<W: WriteJs>(&self, p: &mut Printer<W>, look: Look, _stand: Stand) {
        p.start(self.span);
        p.text(Text::LeftBrace);
        print_properties(self.props.as_slice(), p, look);
        p.brace();
        p.end(self.span);
    }
}

/// Prints properties between the braces of a pattern.
pub fn print_properties<T: Print, W: WriteJs>(props: &[T], p: &mut Printer<W>, look: Look)
    ensures { Prints W.tells W.state W.failed_writes W.loans
        (when (not (is_empty (trees_by T.tree props.now))) (gap look · separated look (comma look) (trees_by T.tree props.now) · gap look))
        p.old.wr p.old.fault p.new.wr p.new.fault }
{
    if props.is_empty() {
        return;
    }
    p.gap(look);
    print_separated(props, p, look, Between::Comma);
    p.gap(look);
}
