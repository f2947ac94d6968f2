//! `if`.
ghost use Rattle.std.specs.Prelude.{◌≡◌};
ghost use Rattle.tree_spec.specs.Tree.{part_by};
ghost use Rattle.print_gaps.specs.Edges.{is_there, starts_with_word};
ghost use Rattle.tree_nodes.specs.View.{view_if_stmt};
ghost use Rattle.print_layout_spec.specs.Looks.{◌·◌, when};
ghost use Rattle.print_nodes.specs.Spines.{consequence_laid, else_laid};
ghost use Rattle.print_layout_spec.specs.Layout.{laid, closing};
ghost use Rattle.print_layout_spec.specs.declared.look.Stand.TheVariants.{Alone};
ghost use Rattle.print_pieces.specs.Prints.{Prints};

use crate::print::{Print, PrintItem, PrintPart, print_closing, print_in_parens};
use print_layout_spec::{Look, Stand};
use print_pieces::{Printer, Text};
use print_writers::WriteJs;
use tree_nodes::IfStmtOf;

impl<T: PrintPart> Print for IfStmtOf<T> {
    ghost tree = { view_if_stmt T.tree };

    fn print<W: WriteJs>(&self, p: &mut Printer<W>, look: Look, _stand: Stand) {
        print_consequence(self, p, look);
        print_alternative(&self.alt, self.cons.is_block(), p, look);
    }
}

/// Prints an `if` up to what stands behind its consequence.
pub(crate) fn print_consequence<T: PrintPart, W: WriteJs>(
    branch: &IfStmtOf<T>,
    p: &mut Printer<W>,
    look: Look,
)
    ensures { Prints W.tells W.state W.failed_writes W.loans (consequence_laid look (view_if_stmt T.tree branch.now)) p.old.wr p.old.fault p.new.wr p.new.fault }
{
    p.commit();
    p.start(branch.span);
    p.text(Text::If);
    p.gap(look);
    print_in_parens(&branch.test, p, look);
    p.gap(look);
    branch.cons.print(p, look, Stand::Alone);
    print_closing(&branch.cons, p, look);
}

/// Prints `else`, before an alternative that starts with a word or doesn't.
pub(crate) fn print_else<W: WriteJs>(
    behind_block: bool,
    before_word: bool,
    p: &mut Printer<W>,
    look: Look,
)
    ensures { Prints W.tells W.state W.failed_writes W.loans (else_laid look behind_block before_word) p.old.wr p.old.fault p.new.wr p.new.fault }
{
    p.gap_if(look, behind_block);
    p.text(Text::Else);
    p.gap_or(look, before_word);
}

/// Prints `else` and what stands behind it.
fn print_alternative<T: PrintPart, W: WriteJs>(
    alt: &Option<T>,
    behind_block: bool,
    p: &mut Printer<W>,
    look: Look,
)
    ensures { Prints W.tells W.state W.failed_writes W.loans
        (when (is_there (part_by T.tree alt.now)) (else_laid look behind_block (starts_with_word (part_by T.tree alt.now))
        · laid look Alone (part_by T.tree alt.now) · closing look (part_by T.tree alt.now)))
        p.old.wr p.old.fault p.new.wr p.new.fault }
{
    if let Some(alt) = alt {
        print_else(behind_block, alt.starts_with_word(), p, look);
        alt.print(p, look, Stand::Alone);
        print_closing(alt, p, look);
    }
}
