//! Arrow functions.
ghost use Rattle.std.specs.Prelude.{◌≡◌, ◌||◌, ◌&&◌, not, if◌then◌else◌, codes};
ghost use Rattle.tree_spec.specs.Tree.{trees_by};
ghost use Rattle.tree_nodes.specs.View.{view_arrow_expr, view_block_stmt_or_expr};
ghost use Rattle.print_layout_spec.specs.Looks.{◌·◌, when, text, blank, formats, deeper, back};
ghost use Rattle.print_layout_spec.specs.Layout.{laid, is_block, is_one_name, separated, comma, in_parens};
ghost use Rattle.print_layout_spec.specs.declared.look.Stand.TheVariants.{Alone, Body};
ghost use Rattle.print_pieces.specs.Prints.{Prints};

use crate::lists::{Between, print_separated};
use crate::print::{Print, PrintItem, PrintPart};
use print_layout_spec::{Look, Stand};
use print_pieces::{Printer, Text};
use print_writers::WriteJs;
use tree_nodes::{ArrowExprOf, BlockStmtOrExprOf};

impl<T: PrintPart> Print for BlockStmtOrExprOf<T> {
    ghost tree = { view_block_stmt_or_expr T.tree };

    fn print<W: WriteJs>(&self, p: &mut Printer<W>, look: Look, stand: Stand) {
        match self {
            BlockStmtOrExprOf::BlockStmt(x) => x.print(p, look, stand),
            BlockStmtOrExprOf::Expr(x) => x.print(p, look, stand),
        }
    }
}

impl<T: PrintPart> PrintItem for BlockStmtOrExprOf<T> {
    fn is_block(&self) -> bool {
        match self {
            BlockStmtOrExprOf::BlockStmt(_) => true,
            BlockStmtOrExprOf::Expr(x) => x.is_block(),
        }
    }

    fn is_variables(&self) -> bool {
        match self {
            BlockStmtOrExprOf::BlockStmt(_) => false,
            BlockStmtOrExprOf::Expr(x) => x.is_variables(),
        }
    }
}

/// Whether there is one parameter, and it is a name.
fn is_one_name<T: PrintPart>(params: &[T]) -> bool
    ensures { result ≡ is_one_name (trees_by T.tree params.now) }
{
    match params {
        [x] => x.is_name(),
        _ => false,
    }
}

/// Prints `async` of an arrow. Before a name that may go without parentheses a blank stands in any style.
fn print_async<W: WriteJs>(waits: bool, one_name: bool, p: &mut Printer<W>, look: Look)
    ensures { Prints W.tells W.state W.failed_writes W.loans
        (when waits (text (codes "async") · when (formats look || one_name) blank)) p.old.wr p.old.fault p.new.wr p.new.fault }
{
    if waits {
        p.text(Text::Async);
        p.gap_or(look, one_name);
    }
}

/// Prints the parameters of an arrow: one name goes without parentheses where no blank is written that can go.
fn print_arrow_params<T: PrintPart, W: WriteJs>(
    params: &[T],
    one_name: bool,
    p: &mut Printer<W>,
    look: Look,
)
    ensures { Prints W.tells W.state W.failed_writes W.loans
        (if one_name && not (formats look) then separated look (comma look) (trees_by T.tree params.now)
        else in_parens (separated look (comma look) (trees_by T.tree params.now))) p.old.wr p.old.fault p.new.wr p.new.fault }
{
    if one_name && look.style.minify {
        print_separated(params, p, look, Between::Comma);
    } else {
        p.text(Text::LeftParen);
        print_separated(params, p, look, Between::Comma);
        p.text(Text::RightParen);
    }
}

/// Prints the body of an arrow: a block, or an expression one level deeper.
fn print_arrow_body<B: PrintItem, W: WriteJs>(body: &B, p: &mut Printer<W>, look: Look)
    ensures { Prints W.tells W.state W.failed_writes W.loans
        (if is_block (B.tree body.now) then laid look Body (B.tree body.now) else deeper look · laid look Alone (B.tree body.now) · back look)
        p.old.wr p.old.fault p.new.wr p.new.fault }
{
    if body.is_block() {
        body.print(p, look, Stand::Body);
    } else {
        p.deeper(look);
        body.print(p, look, Stand::Alone);
        p.back(look);
    }
}

impl<T: PrintPart> Print for ArrowExprOf<T> {
    ghost tree = { view_arrow_expr T.tree };

    fn print<W: WriteJs>(&self, p: &mut Printer<W>, look: Look, _stand: Stand) {
        let params = self.params.as_slice();
        let one_name = is_one_name(params);
        p.start(self.span);
        print_async(self.is_async, one_name, p, look);
        print_arrow_params(params, one_name, p, look);
        p.text(Text::Arrow);
        print_arrow_body(&self.body, p, look);
    }
}
