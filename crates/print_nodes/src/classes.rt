//! Classes.
ghost use Rattle.std.specs.Prelude.{◌≡◌, codes, false};
ghost use Rattle.tree_spec.specs.Tree.{part_by, trees_by};
ghost use Rattle.print_gaps.specs.Edges.{is_there, starts_with_word};
ghost use Rattle.tree_nodes.specs.View.{view_class, view_class_decl, view_class_expr, view_class_member, view_decl, view_ident};
ghost use Rattle.print_layout_spec.specs.Looks.{◌·◌, when, text, blank, gap_or};
ghost use Rattle.print_layout_spec.specs.Layout.{laid, rows, class_head, class_tail, is_block, is_variables};
ghost use Rattle.print_layout_spec.specs.declared.look.Stand.TheVariants.{Alone};
ghost use Rattle.print_pieces.specs.Prints.{Prints};

use crate::functions::print_name;
use crate::lists::{print_each, print_indented_rows};
use crate::print::{Print, PrintItem, PrintPart};
use base_token::Span;
use print_layout_spec::{Look, Stand};
use print_pieces::{Printer, Text};
use print_writers::WriteJs;
use tree_nodes::{ClassDeclOf, ClassExprOf, ClassOf, DeclOf, Ident};

/// Prints `extends` and the parent of a class, where it has one.
fn print_heritage<T: PrintPart, W: WriteJs>(parent: &Option<T>, p: &mut Printer<W>, look: Look)
    ensures { Prints W.tells W.state W.failed_writes W.loans
        (when (is_there (part_by T.tree parent.now)) (blank · text (codes "extends")
        · gap_or look (starts_with_word (part_by T.tree parent.now)) · laid look Alone (part_by T.tree parent.now)))
        p.old.wr p.old.fault p.new.wr p.new.fault }
{
    if let Some(parent) = parent {
        p.blank();
        p.text(Text::Extends);
        p.gap_or(look, parent.starts_with_word());
        parent.print(p, look, Stand::Alone);
    }
}

/// Prints the members of a class in braces.
fn print_members<M: Print, W: WriteJs>(span: Span, members: &[M], p: &mut Printer<W>, look: Look)
    ensures { Prints W.tells W.state W.failed_writes W.loans
        (class_tail look span (trees_by M.tree members.now) (rows look false (trees_by M.tree members.now))) p.old.wr p.old.fault p.new.wr p.new.fault }
{
    p.gap(look);
    p.text(Text::LeftBrace);
    print_indented_rows(members, p, look);
    p.last(span);
    p.brace();
}

/// A class prints its members: what stands before them depends on where it stands.
impl<T: PrintPart> Print for ClassOf<T> {
    ghost tree = { view_class T.tree };

    fn print<W: WriteJs>(&self, p: &mut Printer<W>, look: Look, _stand: Stand) {
        print_members(self.span, self.body.as_slice(), p, look);
    }
}

/// Prints what stands before the members of a class that is declared.
fn print_declared_head<T: PrintPart, W: WriteJs>(
    name: &Ident,
    parent: &Option<T>,
    p: &mut Printer<W>,
    look: Look,
)
    ensures { Prints W.tells W.state W.failed_writes W.loans
        (class_head look (view_ident name.now) (laid look Alone (view_ident name.now)) (part_by T.tree parent.now) (laid look Alone (part_by T.tree parent.now)))
        p.old.wr p.old.fault p.new.wr p.new.fault }
{
    p.text(Text::Class);
    p.blank();
    name.print(p, look, Stand::Alone);
    print_heritage(parent, p, look);
}

/// Prints what stands before the members of a class that is an expression.
fn print_class_head<T: PrintPart, W: WriteJs>(
    name: &Option<Ident>,
    parent: &Option<T>,
    p: &mut Printer<W>,
    look: Look,
)
    ensures { Prints W.tells W.state W.failed_writes W.loans
        (class_head look (part_by view_ident name.now) (laid look Alone (part_by view_ident name.now)) (part_by T.tree parent.now) (laid look Alone (part_by T.tree parent.now)))
        p.old.wr p.old.fault p.new.wr p.new.fault }
{
    p.text(Text::Class);
    print_name(name, p, look);
    print_heritage(parent, p, look);
}

/// Prints a class that is declared, behind its decorators.
pub fn print_declared_class<T: PrintPart, W: WriteJs>(
    name: &Ident,
    class: &ClassOf<T>,
    p: &mut Printer<W>,
    look: Look,
)
    ensures { Prints W.tells W.state W.failed_writes W.loans
        (class_head look (view_ident name.now) (laid look Alone (view_ident name.now)) (part_by (λ x. T.tree x.part.value) class.now.super_class) (laid look Alone (part_by (λ x. T.tree x.part.value) class.now.super_class))
        · class_tail look class.now.span (trees_by (view_class_member T.tree) class.now.body.items) (rows look false (trees_by (view_class_member T.tree) class.now.body.items)))
        p.old.wr p.old.fault p.new.wr p.new.fault }
{
    print_declared_head(name, &class.super_class, p, look);
    class.print(p, look, Stand::Alone);
}

/// Prints a class that is an expression, behind its decorators.
pub fn print_class<T: PrintPart, W: WriteJs>(
    name: &Option<Ident>,
    class: &ClassOf<T>,
    p: &mut Printer<W>,
    look: Look,
)
    ensures { Prints W.tells W.state W.failed_writes W.loans
        (class_head look (part_by view_ident name.now) (laid look Alone (part_by view_ident name.now)) (part_by (λ x. T.tree x.part.value) class.now.super_class) (laid look Alone (part_by (λ x. T.tree x.part.value) class.now.super_class))
        · class_tail look class.now.span (trees_by (view_class_member T.tree) class.now.body.items) (rows look false (trees_by (view_class_member T.tree) class.now.body.items)))
        p.old.wr p.old.fault p.new.wr p.new.fault }
{
    print_class_head(name, &class.super_class, p, look);
    class.print(p, look, Stand::Alone);
}

impl<T: PrintPart> Print for ClassDeclOf<T> {
    ghost tree = { view_class_decl T.tree };

    fn print<W: WriteJs>(&self, p: &mut Printer<W>, look: Look, _stand: Stand) {
        p.start(self.span);
        print_each(self.class.decorators.as_slice(), p, look);
        print_declared_class(&self.ident, &self.class, p, look);
    }
}

impl<T: PrintPart> Print for ClassExprOf<T> {
    ghost tree = { view_class_expr T.tree };

    fn print<W: WriteJs>(&self, p: &mut Printer<W>, look: Look, _stand: Stand) {
        p.start(self.span);
        print_each(self.class.decorators.as_slice(), p, look);
        print_class(&self.ident, &self.class, p, look);
    }
}

impl<T: PrintPart> Print for DeclOf<T> {
    ghost tree = { view_decl T.tree };

    fn print<W: WriteJs>(&self, p: &mut Printer<W>, look: Look, stand: Stand) {
        match self {
            DeclOf::Class(x) => x.print(p, look, stand),
            DeclOf::Fn(x) => x.print(p, look, stand),
            DeclOf::Var(x) => x.print(p, look, stand),
            DeclOf::Using(x) => x.print(p, look, stand),
        }
    }
}

impl<T: PrintPart> PrintItem for DeclOf<T> {
    fn is_block(&self) -> bool {
        false
    }

    fn is_variables(&self) -> bool {
        matches!(self, DeclOf::Var(_) | DeclOf::Using(_))
    }
}
