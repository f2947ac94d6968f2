//! Templates.
ghost use Rattle.std.specs.Prelude.{◌≡◌, length};
ghost use Rattle.tree_spec.specs.Tree.{trees_by};
ghost use Rattle.tree_nodes.specs.View.{view_tagged_tpl, view_tpl, view_tpl_element};
ghost use Rattle.print_layout_spec.specs.Looks.{◌·◌, end};
ghost use Rattle.print_layout_spec.specs.Layout.{laid};
ghost use Rattle.print_layout_spec.specs.declared.look.Stand.TheVariants.{Tagged};
ghost use Rattle.print_nodes.specs.Templates.{rest_laid};
ghost use Rattle.print_pieces.specs.Prints.{Prints};

use crate::print::{Print, PrintPart};
use base_token::Span;
use print_layout_spec::{Look, Stand};
use print_pieces::{Printer, Text};
use print_writers::WriteJs;
use tree_nodes::{TaggedTplOf, TplElement, TplOf};

/// Prints the expressions of a template, each with the piece behind it.
fn print_rest<T: Print, W: WriteJs>(
    exprs: &[T],
    rest: &[TplElement],
    p: &mut Printer<W>,
    look: Look,
    stand: Stand,
)
    requires { length rest.now ≡ length exprs.now }
    ensures { Prints W.tells W.state W.failed_writes W.loans
        (rest_laid look stand (trees_by T.tree exprs.now) (trees_by view_tpl_element rest.now)) p.old.wr p.old.fault p.new.wr p.new.fault }
{
    for (i, x) in exprs.iter().enumerate() {
        p.text(Text::Interpolation);
        x.print(p, look, Stand::Alone);
        p.brace();
        rest[i].print(p, look, stand);
    }
}

impl<T: PrintPart> Print for TplOf<T> {
    ghost tree = { view_tpl T.tree };

    fn print<W: WriteJs>(&self, p: &mut Printer<W>, look: Look, stand: Stand) {
        let exprs = self.exprs.as_slice();
        let Some((first, rest)) = self.quasis.as_slice().split_first() else {
            p.refuse();
            return;
        };
        if rest.len() != exprs.len() {
            p.refuse();
            return;
        }
        p.start(self.span);
        p.text(Text::BackQuote);
        first.print(p, look, stand);
        print_rest(exprs, rest, p, look, stand);
        p.text(Text::BackQuote);
        p.end(self.span);
    }
}

impl<T: PrintPart> Print for TaggedTplOf<T> {
    ghost tree = { view_tagged_tpl T.tree };

    fn print<W: WriteJs>(&self, p: &mut Printer<W>, look: Look, _stand: Stand) {
        p.start(self.span);
        self.tag.print(p, look, Stand::Head);
        self.tpl.print(p, look, Stand::Tagged);
        p.end(self.span);
    }
}

/// Prints the template of a tag, and marks the end of both.
pub(crate) fn print_tagged<T: PrintPart, W: WriteJs>(
    tpl: &TplOf<T>,
    span: Span,
    p: &mut Printer<W>,
    look: Look,
)
    ensures { Prints W.tells W.state W.failed_writes W.loans (laid look Tagged (view_tpl T.tree tpl.now) · end span) p.old.wr p.old.fault p.new.wr p.new.fault }
{
    tpl.print(p, look, Stand::Tagged);
    p.end(span);
}
