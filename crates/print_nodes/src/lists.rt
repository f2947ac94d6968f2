//! Lists, in their few formats.
ghost use Rattle.std.specs.Prelude.{◌≡◌, true, false};
ghost use Rattle.tree_spec.specs.Tree.{trees_by, element_by};
ghost use Rattle.print_layout_spec.specs.Looks.{when};
ghost use Rattle.print_layout_spec.specs.Layout.{separated, rows, statements, each, indented, indented_or_line, comma, comma_line};
ghost use Rattle.print_pieces.specs.Prints.{Prints};
ghost use Rattle.print_nodes.specs.Betweens.{between_of};

use crate::print::{Print, PrintItem, print_closing};
use print_layout_spec::{Look, Stand};
use print_pieces::Printer;
use print_writers::WriteJs;

/// What stands between two parts of a list.
#[derive(Clone, Copy, Debug, PartialEq, Eq)]
pub enum Between {
    /// A comma, on one line.
    Comma,
    /// A comma, and a line for each part.
    CommaLine,
}

impl Between {
    /// Prints it.
    pub fn write<W: WriteJs>(self, p: &mut Printer<W>, look: Look)
        ensures { Prints W.tells W.state W.failed_writes W.loans (between_of self look) p.old.wr p.old.fault p.new.wr p.new.fault }
    {
        match self {
            Between::Comma => p.comma(look),
            Between::CommaLine => p.comma_line(look),
        }
    }
}

/// Prints a comma where one is to stand.
pub fn print_comma_if<W: WriteJs>(stands: bool, p: &mut Printer<W>, look: Look)
    ensures { Prints W.tells W.state W.failed_writes W.loans (when stands (comma look)) p.old.wr p.old.fault p.new.wr p.new.fault }
{
    if stands {
        p.comma(look);
    }
}

/// Prints parts with something between two of them.
pub fn print_separated<T: Print, W: WriteJs>(
    items: &[T],
    p: &mut Printer<W>,
    look: Look,
    between: Between,
)
    ensures { Prints W.tells W.state W.failed_writes W.loans (separated look (between_of between look) (trees_by T.tree items.now)) p.old.wr p.old.fault p.new.wr p.new.fault }
{
    let Some((first, rest)) = items.split_first() else {
        return;
    };
    first.print(p, look, Stand::Alone);
    for x in rest {
        between.write(p, look);
        x.print(p, look, Stand::Alone);
    }
}

/// Prints parts one after the other.
pub fn print_each<T: Print, W: WriteJs>(items: &[T], p: &mut Printer<W>, look: Look)
    ensures { Prints W.tells W.state W.failed_writes W.loans (each look (trees_by T.tree items.now)) p.old.wr p.old.fault p.new.wr p.new.fault }
{
    for x in items {
        x.print(p, look, Stand::Alone);
    }
}

/// Prints the statements of a program, each with what closes it.
pub fn print_statements<T: PrintItem, W: WriteJs>(items: &[T], p: &mut Printer<W>, look: Look)
    ensures { Prints W.tells W.state W.failed_writes W.loans (statements look (trees_by T.tree items.now)) p.old.wr p.old.fault p.new.wr p.new.fault }
{
    for x in items {
        x.print(p, look, Stand::Alone);
        print_closing(x, p, look);
    }
}

/// Prints parts on a line each.
pub fn print_rows<T: Print, W: WriteJs>(items: &[T], p: &mut Printer<W>, look: Look)
    ensures { Prints W.tells W.state W.failed_writes W.loans (rows look false (trees_by T.tree items.now)) p.old.wr p.old.fault p.new.wr p.new.fault }
{
    let Some((first, rest)) = items.split_first() else {
        return;
    };
    first.print(p, look, Stand::Alone);
    for x in rest {
        p.line(look);
        x.print(p, look, Stand::Alone);
    }
}

/// Prints statements on a line each, each with what closes it.
pub fn print_closed_rows<T: PrintItem, W: WriteJs>(items: &[T], p: &mut Printer<W>, look: Look)
    ensures { Prints W.tells W.state W.failed_writes W.loans (rows look true (trees_by T.tree items.now)) p.old.wr p.old.fault p.new.wr p.new.fault }
{
    let Some((first, rest)) = items.split_first() else {
        return;
    };
    first.print(p, look, Stand::Alone);
    print_closing(first, p, look);
    for x in rest {
        p.line(look);
        x.print(p, look, Stand::Alone);
        print_closing(x, p, look);
    }
}

/// Prints statements on a line each, one level deeper, each with what closes it.
pub fn print_indented_statements<T: PrintItem, W: WriteJs>(
    items: &[T],
    p: &mut Printer<W>,
    look: Look,
)
    ensures { Prints W.tells W.state W.failed_writes W.loans (indented look (trees_by T.tree items.now) (rows look true (trees_by T.tree items.now))) p.old.wr p.old.fault p.new.wr p.new.fault }
{
    if items.is_empty() {
        return;
    }
    p.line(look);
    p.deeper(look);
    print_closed_rows(items, p, look);
    p.back(look);
    p.line(look);
}

/// Prints parts on a line each, one level deeper, with commas between them.
pub fn print_indented_list<T: Print, W: WriteJs>(items: &[T], p: &mut Printer<W>, look: Look)
    ensures { Prints W.tells W.state W.failed_writes W.loans (indented look (trees_by T.tree items.now) (separated look (comma_line look) (trees_by T.tree items.now))) p.old.wr p.old.fault p.new.wr p.new.fault }
{
    if items.is_empty() {
        return;
    }
    p.line(look);
    p.deeper(look);
    print_separated(items, p, look, Between::CommaLine);
    p.back(look);
    p.line(look);
}

/// Prints members or cases on a line each, one level deeper; without any, the end of the line.
pub fn print_indented_rows<T: Print, W: WriteJs>(items: &[T], p: &mut Printer<W>, look: Look)
    ensures { Prints W.tells W.state W.failed_writes W.loans (indented_or_line look (trees_by T.tree items.now) (rows look false (trees_by T.tree items.now))) p.old.wr p.old.fault p.new.wr p.new.fault }
{
    p.line(look);
    if items.is_empty() {
        return;
    }
    p.deeper(look);
    print_rows(items, p, look);
    p.back(look);
    p.line(look);
}
