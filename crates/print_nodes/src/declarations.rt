//! Declarations of variables.
ghost use Rattle.std.specs.Prelude.{◌≡◌};
ghost use Rattle.base_token.specs.Words.{own_text};
ghost use Rattle.tree_spec.specs.Tree.{trees_by};
ghost use Rattle.tree_nodes.specs.View.{view_var_decl, view_using_decl, view_var_declarator, var_decl_kind_word};
ghost use Rattle.print_layout_spec.specs.Layout.{starts_bracketed};

use crate::lists::{Between, print_separated};
use crate::print::{Print, PrintPart, print_initial};
use base_token::Keyword;
use print_layout_spec::{Look, Stand};
use print_pieces::{Printer, Text};
use print_writers::WriteJs;
use tree_nodes::{UsingDeclOf, VarDeclKind, VarDeclOf, VarDeclaratorOf};

impl<T: PrintPart> Print for VarDeclOf<T> {
    ghost tree = { view_var_decl T.tree };

    fn print<W: WriteJs>(&self, p: &mut Printer<W>, look: Look, _stand: Stand) {
        p.commit();
        p.start(self.span);
        p.write(keyword(self.kind));
        p.blank_before(look, starts_bracketed(self.decls.as_slice()));
        print_separated(self.decls.as_slice(), p, look, Between::Comma);
    }
}

/// The word that a declaration starts with.
fn keyword(kind: VarDeclKind) -> &'static str
    ensures { result.now ≡ own_text (var_decl_kind_word kind) }
{
    match kind {
        VarDeclKind::Var => Keyword::Var.as_str(),
        VarDeclKind::Let => Keyword::Let.as_str(),
        VarDeclKind::Const => Keyword::Const.as_str(),
    }
}

/// Whether the first of some declarators binds a pattern in brackets.
fn starts_bracketed<T: PrintPart>(decls: &[VarDeclaratorOf<T>]) -> bool
    ensures { result ≡ starts_bracketed (trees_by (view_var_declarator T.tree) decls.now) }
{
    match decls {
        [first, ..] => first.name.is_bracketed_name(),
        [] => false,
    }
}

impl<T: PrintPart> Print for UsingDeclOf<T> {
    ghost tree = { view_using_decl T.tree };

    fn print<W: WriteJs>(&self, p: &mut Printer<W>, look: Look, _stand: Stand) {
        p.commit();
        p.word_if(self.is_await, Text::Await);
        p.text(Text::Using);
        p.blank();
        print_separated(self.decls.as_slice(), p, look, Between::Comma);
    }
}

impl<T: PrintPart> Print for VarDeclaratorOf<T> {
    ghost tree = { view_var_declarator T.tree };

    fn print<W: WriteJs>(&self, p: &mut Printer<W>, look: Look, _stand: Stand) {
        p.start(self.span);
        self.name.print(p, look, Stand::Alone);
        print_initial(&self.init, p, look);
    }
}
