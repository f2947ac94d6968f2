//! Exports.
ghost use Rattle.std.specs.Prelude.{◌≡◌, ◌&&◌, ◌||◌, not, false, if◌then◌else◌, codes};
ghost use Rattle.tree_spec.specs.Tree.{export_decl, export_default_decl, part_by, trees_by};
ghost use Rattle.print_gaps.specs.Edges.{is_there};
ghost use Rattle.tree_nodes.specs.View.{view_class_decl, view_class_expr, view_export_all, view_export_decl, view_export_default_decl, view_export_specifier, view_fn_expr, view_named_export, view_object_lit, view_str};
ghost use Rattle.print_layout_spec.specs.Looks.{◌·◌, when, blank, brace, gap, gap_or, start, text};
ghost use Rattle.print_layout_spec.specs.Layout.{laid, attributes, exports, first_namespace, from, has_namespace, has_other, in_braces, is_namespace, is_no_namespace, named_items};
ghost use Rattle.print_layout_spec.specs.declared.look.Stand.TheVariants.{Alone, Key};
ghost use Rattle.print_pieces.specs.Prints.{Prints};

use crate::classes::{print_class, print_declared_class};
use crate::lists::{print_comma_if, print_each};
use crate::print::{Print, PrintPart};
use crate::programs::{print_attributes, print_from};
use crate::specifiers::{print_braces, some_braced};
use base_token::Span;
use print_layout_spec::{Look, Stand};
use print_pieces::{Printer, Text};
use print_writers::WriteJs;
use tree_nodes::{
    ClassDeclOf, ClassExprOf, DeclOf, DefaultDeclOf, ExportAllOf, ExportDeclOf,
    ExportDefaultDeclOf, ExportSpecifier, FnExprOf, NamedExportOf, ObjectLitOf, Str,
};

/// Whether a name is a namespace.
fn is_namespace(x: &ExportSpecifier) -> bool
    ensures { result ≡ is_namespace (view_export_specifier x.now) }
{
    matches!(x, ExportSpecifier::Namespace(_))
}

/// Whether one of some names is a namespace.
fn has_namespace(items: &[ExportSpecifier]) -> bool
    ensures { result ≡ has_namespace (trees_by view_export_specifier items.now) }
{
    for x in items {
        if is_namespace(x) {
            return true;
        }
    }
    false
}

/// Prints the first namespace of an export.
fn print_first_namespace<W: WriteJs>(items: &[ExportSpecifier], p: &mut Printer<W>, look: Look)
    ensures { Prints W.tells W.state W.failed_writes W.loans (first_namespace look (trees_by view_export_specifier items.now)) p.old.wr p.old.fault p.new.wr p.new.fault }
{
    for x in items {
        if is_namespace(x) {
            x.print(p, look, Stand::Alone);
            return;
        }
    }
}

/// Prints the braces of an export with its names, or with nothing.
fn print_export_braces<W: WriteJs>(
    items: &[ExportSpecifier],
    others: bool,
    p: &mut Printer<W>,
    look: Look,
)
    ensures { Prints W.tells W.state W.failed_writes W.loans
        (if others then in_braces look (named_items look is_no_namespace false (trees_by view_export_specifier items.now))
        else text (codes "{") · gap look · brace) p.old.wr p.old.fault p.new.wr p.new.fault }
{
    if others {
        print_braces(items, p, look);
    } else {
        p.text(Text::LeftBrace);
        p.gap(look);
        p.brace();
    }
}

/// Whether braces stand: around names, and where there is no namespace.
fn has_braces(others: bool, namespace: bool) -> bool
    ensures { result ≡ (others || not namespace) }
{
    others || !namespace
}

/// Prints the names of an export in braces, behind its namespace.
fn print_exports<W: WriteJs>(items: &[ExportSpecifier], p: &mut Printer<W>, look: Look)
    ensures { Prints W.tells W.state W.failed_writes W.loans
        (exports look (trees_by view_export_specifier items.now) (named_items look is_no_namespace false (trees_by view_export_specifier items.now)))
        p.old.wr p.old.fault p.new.wr p.new.fault }
{
    let others = some_braced(items);
    let namespace = has_namespace(items);
    if has_braces(others, namespace) {
        print_comma_if(namespace, p, look);
        print_export_braces(items, others, p, look);
    }
}

/// Whether a namespace stands alone before `from`.
fn is_namespace_alone(items: &[ExportSpecifier]) -> bool
    ensures { result ≡ (has_namespace (trees_by view_export_specifier items.now) && not (has_other (trees_by view_export_specifier items.now))) }
{
    if has_namespace(items) {
        !some_braced(items)
    } else {
        false
    }
}

/// Prints where an export comes from, where it comes from another module.
fn print_source<T: PrintPart, W: WriteJs>(
    src: &Option<Box<Str>>,
    with_: &Option<Box<ObjectLitOf<T>>>,
    alone: bool,
    p: &mut Printer<W>,
    look: Look,
)
    ensures { Prints W.tells W.state W.failed_writes W.loans
        (when (is_there (part_by (λ x. view_str x.value) src.now)) (gap_or look alone · from look (laid look Key (part_by (λ x. view_str x.value) src.now))
        · attributes look (part_by (λ x. view_object_lit T.tree x.value) with_.now) (laid look Alone (part_by (λ x. view_object_lit T.tree x.value) with_.now))))
        p.old.wr p.old.fault p.new.wr p.new.fault }
{
    if let Some(src) = src {
        p.gap_or(look, alone);
        print_from(src, p, look);
        print_attributes(with_, p, look);
    }
}

impl<T: PrintPart> Print for NamedExportOf<T> {
    ghost tree = { view_named_export T.tree };

    fn print<W: WriteJs>(&self, p: &mut Printer<W>, look: Look, _stand: Stand) {
        let items = self.specifiers.as_slice();
        p.start(self.span);
        p.text(Text::Export);
        p.gap(look);
        print_first_namespace(items, p, look);
        print_exports(items, p, look);
        print_source(&self.src, &self.with_, is_namespace_alone(items), p, look);
        p.semi();
        p.end(self.span);
    }
}

impl<T: PrintPart> Print for ExportAllOf<T> {
    ghost tree = { view_export_all T.tree };

    fn print<W: WriteJs>(&self, p: &mut Printer<W>, look: Look, _stand: Stand) {
        p.start(self.span);
        p.text(Text::Export);
        p.gap(look);
        p.text(Text::Star);
        p.gap(look);
        print_from(&self.src, p, look);
        print_attributes(&self.with_, p, look);
        p.semi();
        p.end(self.span);
    }
}

/// Prints an exported declaration that is no class.
fn print_exported<D: Print, W: WriteJs>(decl: &D, span: Span, p: &mut Printer<W>, look: Look)
    ensures { Prints W.tells W.state W.failed_writes W.loans
        (start span · text (codes "export") · blank · laid look Alone (D.tree decl.now)) p.old.wr p.old.fault p.new.wr p.new.fault }
{
    p.start(span);
    p.text(Text::Export);
    p.blank();
    decl.print(p, look, Stand::Alone);
}

/// Prints an exported class: its decorators stand before `export`.
fn print_exported_class<T: PrintPart, W: WriteJs>(
    x: &ClassDeclOf<T>,
    span: Span,
    p: &mut Printer<W>,
    look: Look,
)
    ensures { Prints W.tells W.state W.failed_writes W.loans (laid look Alone (export_decl span (view_class_decl T.tree x.now))) p.old.wr p.old.fault p.new.wr p.new.fault }
{
    p.start(span);
    print_each(x.class.decorators.as_slice(), p, look);
    p.text(Text::Export);
    p.blank();
    p.start(x.span);
    print_declared_class(&x.ident, &x.class, p, look);
}

impl<T: PrintPart> Print for ExportDeclOf<T> {
    ghost tree = { view_export_decl T.tree };

    fn print<W: WriteJs>(&self, p: &mut Printer<W>, look: Look, _stand: Stand) {
        match &self.decl {
            DeclOf::Class(x) => print_exported_class(x, self.span, p, look),
            DeclOf::Fn(x) => print_exported(x, self.span, p, look),
            DeclOf::Var(x) => {
                print_exported(x, self.span, p, look);
                p.semi();
                p.end(self.span);
            }
            DeclOf::Using(x) => {
                print_exported(x, self.span, p, look);
                p.semi();
                p.end(self.span);
            }
        }
    }
}

/// Prints a class that is exported by default: its decorators stand before `export`.
fn print_default_class<T: PrintPart, W: WriteJs>(
    x: &ClassExprOf<T>,
    span: Span,
    p: &mut Printer<W>,
    look: Look,
)
    ensures { Prints W.tells W.state W.failed_writes W.loans (laid look Alone (export_default_decl span (view_class_expr T.tree x.now))) p.old.wr p.old.fault p.new.wr p.new.fault }
{
    p.start(span);
    print_each(x.class.decorators.as_slice(), p, look);
    p.text(Text::Export);
    p.blank();
    p.text(Text::Default);
    p.blank();
    p.start(x.span);
    print_class(&x.ident, &x.class, p, look);
}

/// Prints a function that is exported by default.
fn print_default_function<T: PrintPart, W: WriteJs>(
    x: &FnExprOf<T>,
    span: Span,
    p: &mut Printer<W>,
    look: Look,
)
    ensures { Prints W.tells W.state W.failed_writes W.loans (laid look Alone (export_default_decl span (view_fn_expr T.tree x.now))) p.old.wr p.old.fault p.new.wr p.new.fault }
{
    p.start(span);
    p.text(Text::Export);
    p.blank();
    p.text(Text::Default);
    p.blank();
    x.print(p, look, Stand::Alone);
}

impl<T: PrintPart> Print for ExportDefaultDeclOf<T> {
    ghost tree = { view_export_default_decl T.tree };

    fn print<W: WriteJs>(&self, p: &mut Printer<W>, look: Look, _stand: Stand) {
        match &self.decl {
            DefaultDeclOf::Class(x) => print_default_class(x, self.span, p, look),
            DefaultDeclOf::Fn(x) => print_default_function(x, self.span, p, look),
        }
    }
}
