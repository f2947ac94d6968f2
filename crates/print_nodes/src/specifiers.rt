//! The names of imports and exports.
ghost use Rattle.std.specs.Prelude.{◌≡◌, Bool, false};
ghost use Rattle.tree_spec.specs.Tree.{Tree, part_by, trees_by};
ghost use Rattle.tree_nodes.specs.View.{view_export_default_specifier, view_export_named_specifier, view_export_namespace_specifier, view_export_specifier, view_import_default_specifier, view_import_named_specifier, view_import_specifier, view_import_star_as_specifier, view_module_export_name};
ghost use Rattle.print_layout_spec.specs.Layout.{in_braces, is_default, is_named, is_namespace, is_no_namespace, named_items};
ghost use Rattle.print_nodes.specs.Specifiers.{before_as, behind_as, item_laid, marked_by, some_stands};
ghost use Rattle.print_pieces.specs.Prints.{Prints};

use crate::lists::print_comma_if;
use crate::print::Print;
use print_layout_spec::{Look, Stand};
use print_pieces::{Printer, Text};
use print_writers::WriteJs;
use tree_nodes::{
    ExportDefaultSpecifier, ExportNamedSpecifier, ExportNamespaceSpecifier, ExportSpecifier,
    ImportDefaultSpecifier, ImportNamedSpecifier, ImportSpecifier, ImportStarAsSpecifier,
    ModuleExportName,
};

/// A name of an import or an export, which may stand in braces.
pub trait PrintName: Print {
    /// Whether it is one that stands in braces.
    ghost stands: { Tree → Bool };

    /// Whether it stands in braces.
    fn is_braced(&self) -> bool
        ensures { result ≡ stands (Self.tree self.now) };
}

impl Print for ModuleExportName {
    ghost tree = { view_module_export_name };

    fn print<W: WriteJs>(&self, p: &mut Printer<W>, look: Look, stand: Stand) {
        match self {
            ModuleExportName::Ident(x) => x.print(p, look, stand),
            ModuleExportName::Str(x) => x.print(p, look, stand),
        }
    }
}

/// Prints a name and `as`, where there is a name.
fn print_before_as<T: Print, W: WriteJs>(name: &Option<T>, p: &mut Printer<W>, look: Look)
    ensures { Prints W.tells W.state W.failed_writes W.loans (before_as look (part_by T.tree name.now)) p.old.wr p.old.fault p.new.wr p.new.fault }
{
    if let Some(name) = name {
        name.print(p, look, Stand::Key);
        p.blank();
        p.text(Text::As);
        p.blank();
    }
}

/// Prints `as` and a name, where there is a name.
fn print_behind_as<T: Print, W: WriteJs>(name: &Option<T>, p: &mut Printer<W>, look: Look)
    ensures { Prints W.tells W.state W.failed_writes W.loans (behind_as look (part_by T.tree name.now)) p.old.wr p.old.fault p.new.wr p.new.fault }
{
    if let Some(name) = name {
        p.blank();
        p.text(Text::As);
        p.blank();
        name.print(p, look, Stand::Key);
    }
}

impl Print for ImportNamedSpecifier {
    ghost tree = { view_import_named_specifier };

    fn print<W: WriteJs>(&self, p: &mut Printer<W>, look: Look, _stand: Stand) {
        p.start(self.span);
        print_before_as(&self.imported, p, look);
        self.local.print(p, look, Stand::Alone);
        p.end(self.span);
    }
}

impl Print for ImportDefaultSpecifier {
    ghost tree = { view_import_default_specifier };

    fn print<W: WriteJs>(&self, p: &mut Printer<W>, look: Look, _stand: Stand) {
        self.local.print(p, look, Stand::Alone);
    }
}

impl Print for ImportStarAsSpecifier {
    ghost tree = { view_import_star_as_specifier };

    fn print<W: WriteJs>(&self, p: &mut Printer<W>, look: Look, _stand: Stand) {
        p.text(Text::Star);
        p.gap(look);
        p.text(Text::As);
        p.blank();
        self.local.print(p, look, Stand::Alone);
    }
}

impl Print for ImportSpecifier {
    ghost tree = { view_import_specifier };

    fn print<W: WriteJs>(&self, p: &mut Printer<W>, look: Look, stand: Stand) {
        match self {
            ImportSpecifier::Named(x) => x.print(p, look, stand),
            ImportSpecifier::Default(x) => x.print(p, look, stand),
            ImportSpecifier::Namespace(x) => x.print(p, look, stand),
        }
    }
}

impl PrintName for ImportSpecifier {
    ghost stands = { is_named };

    fn is_braced(&self) -> bool {
        matches!(self, ImportSpecifier::Named(_))
    }
}

impl Print for ExportNamespaceSpecifier {
    ghost tree = { view_export_namespace_specifier };

    fn print<W: WriteJs>(&self, p: &mut Printer<W>, look: Look, _stand: Stand) {
        p.start(self.span);
        p.text(Text::Star);
        p.gap(look);
        p.text(Text::As);
        p.blank();
        self.name.print(p, look, Stand::Key);
        p.end(self.span);
    }
}

/// A default export specifier can't be printed.
impl Print for ExportDefaultSpecifier {
    ghost tree = { view_export_default_specifier };

    fn print<W: WriteJs>(&self, p: &mut Printer<W>, _look: Look, _stand: Stand) {
        p.refuse();
    }
}

impl Print for ExportNamedSpecifier {
    ghost tree = { view_export_named_specifier };

    fn print<W: WriteJs>(&self, p: &mut Printer<W>, look: Look, _stand: Stand) {
        p.start(self.span);
        self.orig.print(p, look, Stand::Key);
        print_behind_as(&self.exported, p, look);
        p.end(self.span);
    }
}

impl Print for ExportSpecifier {
    ghost tree = { view_export_specifier };

    fn print<W: WriteJs>(&self, p: &mut Printer<W>, look: Look, stand: Stand) {
        match self {
            ExportSpecifier::Namespace(x) => x.print(p, look, stand),
            ExportSpecifier::Default(x) => x.print(p, look, stand),
            ExportSpecifier::Named(x) => x.print(p, look, stand),
        }
    }
}

impl PrintName for ExportSpecifier {
    ghost stands = { is_no_namespace };

    fn is_braced(&self) -> bool {
        !matches!(self, ExportSpecifier::Namespace(_))
    }
}

/// Whether one of some names stands in braces.
pub fn some_braced<T: PrintName>(items: &[T]) -> bool
    ensures { result ≡ some_stands T.stands (trees_by T.tree items.now) }
{
    for x in items {
        if x.is_braced() {
            return true;
        }
    }
    false
}

/// Prints a name where it stands in braces, behind a comma where one came before. It answers whether one came.
fn print_item<T: PrintName, W: WriteJs>(
    x: &T,
    started: bool,
    p: &mut Printer<W>,
    look: Look,
) -> bool
    ensures started { result ≡ marked_by T.stands started (T.tree x.now) }
    ensures laid { Prints W.tells W.state W.failed_writes W.loans (item_laid look T.stands started (T.tree x.now)) p.old.wr p.old.fault p.new.wr p.new.fault }
{
    if !x.is_braced() {
        return started;
    }
    print_comma_if(started, p, look);
    x.print(p, look, Stand::Alone);
    true
}

/// Prints those of some names that stand in braces.
fn print_items<T: PrintName, W: WriteJs>(items: &[T], p: &mut Printer<W>, look: Look)
    ensures { Prints W.tells W.state W.failed_writes W.loans (named_items look T.stands false (trees_by T.tree items.now)) p.old.wr p.old.fault p.new.wr p.new.fault }
{
    let mut started = false;
    for x in items {
        started = print_item(x, started, p, look);
    }
}

/// Prints names in their braces.
pub fn print_braces<T: PrintName, W: WriteJs>(items: &[T], p: &mut Printer<W>, look: Look)
    ensures { Prints W.tells W.state W.failed_writes W.loans
        (in_braces look (named_items look T.stands false (trees_by T.tree items.now))) p.old.wr p.old.fault p.new.wr p.new.fault }
{
    p.text(Text::LeftBrace);
    p.gap(look);
    print_items(items, p, look);
    p.gap(look);
    p.brace();
}
