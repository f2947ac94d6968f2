//! `this` and its like, calls and their arguments.
ghost use Rattle.std.specs.Prelude.{◌≡◌, if◌then◌else◌, ◌==◌, codes};
ghost use Rattle.base_token.specs.Kinds.{new_kind};
ghost use Rattle.tree_spec.specs.Tree.{trees_by};
ghost use Rattle.tree_nodes.specs.View.{view_this_expr, view_super, view_import, view_meta_prop_expr, view_callee, view_call_expr, view_expr_or_spread, meta_prop_kind_word};
ghost use Rattle.print_layout_spec.specs.Layout.{in_parens, separated, comma};
ghost use Rattle.print_pieces.specs.Prints.{Prints};
ghost use Rattle.print_pieces.specs.Texts.{bytes};

use crate::lists::{Between, print_separated};
use crate::print::{Print, PrintPart};
use print_layout_spec::{Look, Stand};
use print_pieces::{Printer, Text};
use print_writers::WriteJs;
use tree_nodes::{
    CallExprOf, CalleeOf, ExprOrSpreadOf, Import, MetaPropExpr, MetaPropKind, Super, ThisExpr,
};

impl Print for ThisExpr {
    ghost tree = { view_this_expr };

    fn print<W: WriteJs>(&self, p: &mut Printer<W>, _look: Look, _stand: Stand) {
        p.commit();
        p.start(self.span);
        p.text(Text::This);
        p.end(self.span);
    }
}

impl Print for Super {
    ghost tree = { view_super };

    fn print<W: WriteJs>(&self, p: &mut Printer<W>, _look: Look, _stand: Stand) {
        p.commit();
        p.start(self.span);
        p.text(Text::Super);
        p.end(self.span);
    }
}

impl Print for Import {
    ghost tree = { view_import };

    fn print<W: WriteJs>(&self, p: &mut Printer<W>, _look: Look, _stand: Stand) {
        p.commit();
        p.start(self.span);
        p.text(Text::Import);
        p.end(self.span);
    }
}

impl Print for MetaPropExpr {
    ghost tree = { view_meta_prop_expr };

    fn print<W: WriteJs>(&self, p: &mut Printer<W>, _look: Look, _stand: Stand) {
        p.start(self.span);
        p.text(meta_text(self.kind));
    }
}

/// The text of a meta property.
fn meta_text(kind: MetaPropKind) -> Text
    ensures { bytes result ≡ (if meta_prop_kind_word kind == new_kind then codes "new.target" else codes "import.meta") }
{
    match kind {
        MetaPropKind::NewTarget => Text::NewTarget,
        MetaPropKind::ImportMeta => Text::ImportMeta,
    }
}

impl<T: PrintPart> Print for CalleeOf<T> {
    ghost tree = { view_callee T.tree };

    fn print<W: WriteJs>(&self, p: &mut Printer<W>, look: Look, stand: Stand) {
        match self {
            CalleeOf::Super(x) => x.print(p, look, stand),
            CalleeOf::Import(x) => x.print(p, look, stand),
            CalleeOf::Expr(x) => x.print(p, look, stand),
        }
    }
}

impl<T: PrintPart> Print for CallExprOf<T> {
    ghost tree = { view_call_expr T.tree };

    fn print<W: WriteJs>(&self, p: &mut Printer<W>, look: Look, _stand: Stand) {
        p.commit();
        p.start(self.span);
        self.callee.print(p, look, Stand::Head);
        print_arguments(self.args.as_slice(), p, look);
    }
}

/// Prints arguments in their parentheses.
pub fn print_arguments<T: PrintPart, W: WriteJs>(
    args: &[ExprOrSpreadOf<T>],
    p: &mut Printer<W>,
    look: Look,
)
    ensures { Prints W.tells W.state W.failed_writes W.loans
        (in_parens (separated look (comma look) (trees_by (view_expr_or_spread T.tree) args.now))) p.old.wr p.old.fault p.new.wr p.new.fault }
{
    p.text(Text::LeftParen);
    print_separated(args, p, look, Between::Comma);
    p.text(Text::RightParen);
}

impl<T: PrintPart> Print for ExprOrSpreadOf<T> {
    ghost tree = { view_expr_or_spread T.tree };

    fn print<W: WriteJs>(&self, p: &mut Printer<W>, look: Look, _stand: Stand) {
        p.text_if(self.spread.is_some(), Text::Spread);
        self.expr.print(p, look, Stand::Alone);
    }
}
