//! Imports.
ghost use Rattle.std.specs.Prelude.{◌≡◌, false, if◌then◌else◌, codes};
ghost use Rattle.tree_spec.specs.Tree.{trees_by};
ghost use Rattle.tree_nodes.specs.View.{view_import_decl, view_import_specifier};
ghost use Rattle.print_layout_spec.specs.Looks.{◌·◌, when, blank, gap};
ghost use Rattle.print_layout_spec.specs.Layout.{comma, has_default, has_named, import_heads, imports, in_braces, is_default, is_named, named_items, starts_with_default};
ghost use Rattle.print_nodes.specs.Specifiers.{head_laid, marked_by};
ghost use Rattle.print_pieces.specs.Prints.{Prints};

use crate::lists::print_comma_if;
use crate::print::{Print, PrintPart};
use crate::programs::print_attributes;
use crate::specifiers::{print_braces, some_braced};
use print_layout_spec::{Look, Stand};
use print_pieces::{Printer, Text};
use print_writers::WriteJs;
use tree_nodes::{ImportDeclOf, ImportSpecifier};

/// Whether the first of some names is a default one.
fn starts_with_default(items: &[ImportSpecifier]) -> bool
    ensures { result ≡ starts_with_default (trees_by view_import_specifier items.now) }
{
    matches!(items, [ImportSpecifier::Default(_), ..])
}

/// Whether a name is a default one.
fn is_default(x: &ImportSpecifier) -> bool
    ensures { result ≡ is_default (view_import_specifier x.now) }
{
    matches!(x, ImportSpecifier::Default(_))
}

/// Whether one of some names is a default one.
fn has_default(items: &[ImportSpecifier]) -> bool
    ensures { result ≡ has_default (trees_by view_import_specifier items.now) }
{
    for x in items {
        if is_default(x) {
            return true;
        }
    }
    false
}

/// Prints a default name or a namespace before `from`, a namespace behind a comma where a default name came
/// before. It answers whether one came.
fn print_import_head<W: WriteJs>(
    x: &ImportSpecifier,
    seen: bool,
    p: &mut Printer<W>,
    look: Look,
) -> bool
    ensures seen { result ≡ marked_by is_default seen (view_import_specifier x.now) }
    ensures laid { Prints W.tells W.state W.failed_writes W.loans (head_laid look seen (view_import_specifier x.now)) p.old.wr p.old.fault p.new.wr p.new.fault }
{
    match x {
        ImportSpecifier::Named(_) => seen,
        ImportSpecifier::Default(x) => {
            x.print(p, look, Stand::Alone);
            true
        }
        ImportSpecifier::Namespace(x) => {
            print_comma_if(seen, p, look);
            x.print(p, look, Stand::Alone);
            seen
        }
    }
}

/// Prints the default name and the namespace of an import, in their order.
fn print_import_heads<W: WriteJs>(items: &[ImportSpecifier], p: &mut Printer<W>, look: Look)
    ensures { Prints W.tells W.state W.failed_writes W.loans (import_heads look false (trees_by view_import_specifier items.now)) p.old.wr p.old.fault p.new.wr p.new.fault }
{
    let mut seen = false;
    for x in items {
        seen = print_import_head(x, seen, p, look);
    }
}

/// Prints the names of an import in braces, or the blank before `from`.
fn print_import_names<W: WriteJs>(items: &[ImportSpecifier], p: &mut Printer<W>, look: Look)
    ensures { Prints W.tells W.state W.failed_writes W.loans
        (if has_named (trees_by view_import_specifier items.now)
        then when (has_default (trees_by view_import_specifier items.now)) (comma look)
        · in_braces look (named_items look is_named false (trees_by view_import_specifier items.now)) · gap look
        else blank)
        p.old.wr p.old.fault p.new.wr p.new.fault }
{
    if some_braced(items) {
        print_comma_if(has_default(items), p, look);
        print_braces(items, p, look);
        p.gap(look);
    } else {
        p.blank();
    }
}

/// Prints what is imported, and `from`.
fn print_imports<W: WriteJs>(items: &[ImportSpecifier], p: &mut Printer<W>, look: Look)
    ensures { Prints W.tells W.state W.failed_writes W.loans
        (imports look (trees_by view_import_specifier items.now) (import_heads look false (trees_by view_import_specifier items.now))
        (named_items look is_named false (trees_by view_import_specifier items.now)))
        p.old.wr p.old.fault p.new.wr p.new.fault }
{
    if items.is_empty() {
        return;
    }
    print_import_heads(items, p, look);
    print_import_names(items, p, look);
    p.text(Text::From);
    p.gap(look);
}

impl<T: PrintPart> Print for ImportDeclOf<T> {
    ghost tree = { view_import_decl T.tree };

    fn print<W: WriteJs>(&self, p: &mut Printer<W>, look: Look, _stand: Stand) {
        let items = self.specifiers.as_slice();
        p.start(self.span);
        p.text(Text::Import);
        p.gap_or(look, starts_with_default(items));
        print_imports(items, p, look);
        self.src.print(p, look, Stand::Key);
        print_attributes(&self.with_, p, look);
        p.semi();
        p.end(self.span);
    }
}
