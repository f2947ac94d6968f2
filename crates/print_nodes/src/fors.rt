//! `for`.
ghost use Rattle.std.specs.Prelude.{◌≡◌, codes};
ghost use Rattle.print_gaps.specs.Edges.{ends_with_word, last_ends_with_word};
ghost use Rattle.tree_spec.specs.Tree.{trees_by};
ghost use Rattle.print_layout_spec.specs.Looks.{◌·◌, when, blank, text};
ghost use Rattle.print_pieces.specs.Prints.{Prints};
ghost use Rattle.tree_nodes.specs.View.{view_for_stmt, view_for_in_stmt, view_for_of_stmt, view_for_head, view_var_decl_or_expr, view_var_declarator};

use crate::print::{Print, PrintPart, print_behind_gap, print_closing, print_maybe};
use print_layout_spec::{Look, Stand};
use print_pieces::{Printer, Text};
use print_writers::WriteJs;
use tree_nodes::{
    ForHeadOf, ForInStmtOf, ForOfStmtOf, ForStmtOf, VarDeclOrExprOf, VarDeclaratorOf,
};

impl<T: PrintPart> Print for ForStmtOf<T> {
    ghost tree = { view_for_stmt T.tree };

    fn print<W: WriteJs>(&self, p: &mut Printer<W>, look: Look, _stand: Stand) {
        p.commit();
        p.start(self.span);
        p.text(Text::For);
        p.text(Text::LeftParen);
        print_maybe(&self.init, p, look);
        p.text(Text::Semicolon);
        print_behind_gap(&self.test, p, look);
        p.text(Text::Semicolon);
        print_behind_gap(&self.update, p, look);
        p.text(Text::RightParen);
        self.body.print(p, look, Stand::Alone);
        print_closing(&self.body, p, look);
    }
}

impl<T: PrintPart> Print for VarDeclOrExprOf<T> {
    ghost tree = { view_var_decl_or_expr T.tree };

    fn print<W: WriteJs>(&self, p: &mut Printer<W>, look: Look, stand: Stand) {
        match self {
            VarDeclOrExprOf::VarDecl(x) => x.print(p, look, stand),
            VarDeclOrExprOf::UsingDecl(x) => x.print(p, look, stand),
            VarDeclOrExprOf::Expr(x) => x.print(p, look, stand),
        }
    }
}

impl<T: PrintPart> Print for ForInStmtOf<T> {
    ghost tree = { view_for_in_stmt T.tree };

    fn print<W: WriteJs>(&self, p: &mut Printer<W>, look: Look, _stand: Stand) {
        p.commit();
        p.start(self.span);
        p.text(Text::For);
        p.text(Text::LeftParen);
        self.left.print(p, look, Stand::Alone);
        p.gap_or(look, head_ends_with_word(&self.left));
        p.text(Text::In);
        p.gap_or(look, self.right.starts_with_word());
        self.right.print(p, look, Stand::Alone);
        p.text(Text::RightParen);
        self.body.print(p, look, Stand::Alone);
        print_closing(&self.body, p, look);
    }
}

impl<T: PrintPart> Print for ForOfStmtOf<T> {
    ghost tree = { view_for_of_stmt T.tree };

    fn print<W: WriteJs>(&self, p: &mut Printer<W>, look: Look, _stand: Stand) {
        p.commit();
        p.start(self.span);
        p.text(Text::For);
        print_await(self.is_await, p);
        p.gap(look);
        p.text(Text::LeftParen);
        self.left.print(p, look, Stand::Alone);
        p.gap_or(look, head_ends_with_word(&self.left));
        p.text(Text::Of);
        p.gap_or(look, self.right.starts_with_word());
        self.right.print(p, look, Stand::Alone);
        p.text(Text::RightParen);
        self.body.print(p, look, Stand::Alone);
        print_closing(&self.body, p, look);
    }
}

/// Prints `await` of a `for`.
fn print_await<W: WriteJs>(stands: bool, p: &mut Printer<W>)
    ensures { Prints W.tells W.state W.failed_writes W.loans (when stands (blank · text (codes "await"))) p.old.wr p.old.fault p.new.wr p.new.fault }
{
    if stands {
        p.blank();
        p.text(Text::Await);
    }
}

impl<T: PrintPart> Print for ForHeadOf<T> {
    ghost tree = { view_for_head T.tree };

    fn print<W: WriteJs>(&self, p: &mut Printer<W>, look: Look, stand: Stand) {
        match self {
            ForHeadOf::VarDecl(x) => x.print(p, look, stand),
            ForHeadOf::UsingDecl(x) => x.print(p, look, stand),
            ForHeadOf::Pat(x) => x.print(p, look, stand),
        }
    }
}

/// Whether what a `for` with `in` or `of` begins with ends with a word.
fn head_ends_with_word<T: PrintPart>(head: &ForHeadOf<T>) -> bool
    ensures { result ≡ ends_with_word (view_for_head T.tree head.now) }
{
    match head {
        ForHeadOf::VarDecl(x) => last_ends_with_word(x.decls.as_slice()),
        ForHeadOf::UsingDecl(x) => last_ends_with_word(x.decls.as_slice()),
        ForHeadOf::Pat(x) => x.ends_with_word(),
    }
}

/// Whether the last of some declarators ends with a word; where there is none, the keyword does.
#[tactic(auto, using(print_gaps::proofs::Lasts::no_last))]
fn last_ends_with_word<T: PrintPart>(decls: &[VarDeclaratorOf<T>]) -> bool
    ensures { result ≡ last_ends_with_word (trees_by (view_var_declarator T.tree) decls.now) }
{
    match decls.last() {
        Some(x) => declarator_ends_with_word(x),
        None => true,
    }
}

/// Whether a declarator ends with a word.
fn declarator_ends_with_word<T: PrintPart>(x: &VarDeclaratorOf<T>) -> bool
    ensures { result ≡ ends_with_word (view_var_declarator T.tree x.now) }
{
    match &x.init {
        Some(init) => init.ends_with_word(),
        None => x.name.ends_with_word(),
    }
}
