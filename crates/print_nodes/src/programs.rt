//! Scripts, and parts of imports and exports.
ghost use Rattle.std.specs.Prelude.{◌≡◌, codes, if◌then◌else◌, not};
ghost use Rattle.tree_spec.specs.Tree.{part_by, trees_by};
ghost use Rattle.tree_nodes.specs.View.{view_export_default_expr, view_module, view_module_decl, view_module_item, view_program_kind, view_script};
ghost use Rattle.print_layout_spec.specs.Looks.{commit, when};
ghost use Rattle.print_layout_spec.specs.Layout.{laid, attributes, from, hashbang, is_empty};
ghost use Rattle.print_layout_spec.specs.declared.look.Stand.TheVariants.{Alone, Key};
ghost use Rattle.print_pieces.specs.Prints.{Prints};
ghost use Rattle.print_pieces.specs.Texts.{bytes};

use crate::lists::print_statements;
use crate::print::{Print, PrintItem, PrintPart};
use base_token::Atom;
use print_layout_spec::{Look, Stand};
use print_pieces::{Printer, Text};
use print_writers::WriteJs;
use std::convert::AsStr;
use tree_nodes::{
    ExportDefaultExprOf, ModuleDeclOf, ModuleItemOf, ModuleOf, ProgramKindOf, ScriptOf,
};

impl<T: PrintPart> Print for ScriptOf<T> {
    ghost tree = { view_script T.tree };

    fn print<W: WriteJs>(&self, p: &mut Printer<W>, look: Look, _stand: Stand) {
        p.start_if(is_empty(self.body.as_slice()), self.span);
        print_hashbang(&self.shebang, p);
        print_statements(self.body.as_slice(), p, look);
        print_last(p, look);
    }
}

impl<T: PrintPart> Print for ModuleOf<T> {
    ghost tree = { view_module T.tree };

    fn print<W: WriteJs>(&self, p: &mut Printer<W>, look: Look, _stand: Stand) {
        p.start_if(is_empty(self.body.as_slice()), self.span);
        print_hashbang(&self.shebang, p);
        print_statements(self.body.as_slice(), p, look);
        print_last(p, look);
    }
}

impl<T: PrintPart> Print for ProgramKindOf<T> {
    ghost tree = { view_program_kind T.tree };

    fn print<W: WriteJs>(&self, p: &mut Printer<W>, look: Look, stand: Stand) {
        match self {
            ProgramKindOf::Script(x) => x.print(p, look, stand),
            ProgramKindOf::Module(x) => x.print(p, look, stand),
        }
    }
}

impl<T: PrintPart> Print for ModuleDeclOf<T> {
    ghost tree = { view_module_decl T.tree };

    fn print<W: WriteJs>(&self, p: &mut Printer<W>, look: Look, stand: Stand) {
        match self {
            ModuleDeclOf::Import(x) => x.print(p, look, stand),
            ModuleDeclOf::ExportDecl(x) => x.print(p, look, stand),
            ModuleDeclOf::ExportNamed(x) => x.print(p, look, stand),
            ModuleDeclOf::ExportDefaultDecl(x) => x.print(p, look, stand),
            ModuleDeclOf::ExportDefaultExpr(x) => x.print(p, look, stand),
            ModuleDeclOf::ExportAll(x) => x.print(p, look, stand),
        }
    }
}

impl<T: PrintPart> PrintItem for ModuleDeclOf<T> {
    fn is_block(&self) -> bool {
        false
    }

    fn is_variables(&self) -> bool {
        false
    }
}

impl<T: PrintPart> Print for ModuleItemOf<T> {
    ghost tree = { view_module_item T.tree };

    fn print<W: WriteJs>(&self, p: &mut Printer<W>, look: Look, stand: Stand) {
        match self {
            ModuleItemOf::ModuleDecl(x) => x.print(p, look, stand),
            ModuleItemOf::Stmt(x) => x.print(p, look, stand),
        }
    }
}

impl<T: PrintPart> PrintItem for ModuleItemOf<T> {
    fn is_block(&self) -> bool {
        match self {
            ModuleItemOf::ModuleDecl(x) => x.is_block(),
            ModuleItemOf::Stmt(x) => x.is_block(),
        }
    }

    fn is_variables(&self) -> bool {
        match self {
            ModuleItemOf::ModuleDecl(x) => x.is_variables(),
            ModuleItemOf::Stmt(x) => x.is_variables(),
        }
    }
}

/// Whether there is nothing in a list.
fn is_empty<T: Print>(items: &[T]) -> bool
    ensures { result ≡ is_empty (trees_by T.tree items.now) }
{
    match items {
        [_, ..] => false,
        [] => true,
    }
}

/// Prints the line before a program that says by what it is run.
fn print_hashbang<W: WriteJs>(shebang: &Option<Atom>, p: &mut Printer<W>)
    ensures { Prints W.tells W.state W.failed_writes W.loans (hashbang shebang.now) p.old.wr p.old.fault p.new.wr p.new.fault }
{
    if let Some(said) = shebang {
        p.text(Text::Hashbang);
        p.write(said.as_str());
        p.line_always();
    }
}

/// Writes the last semicolon of a program, unless it may go.
fn print_last<W: WriteJs>(p: &mut Printer<W>, look: Look)
    ensures { Prints W.tells W.state W.failed_writes W.loans (when (not look.omits_last) commit) p.old.wr p.old.fault p.new.wr p.new.fault }
{
    if !look.omits_last {
        p.commit();
    }
}

impl<T: PrintPart> Print for ExportDefaultExprOf<T> {
    ghost tree = { view_export_default_expr T.tree };

    fn print<W: WriteJs>(&self, p: &mut Printer<W>, look: Look, _stand: Stand) {
        p.start(self.span);
        p.text(Text::Export);
        p.blank();
        p.text(Text::Default);
        p.gap_or(look, self.expr.starts_with_word());
        self.expr.print(p, look, Stand::Alone);
        p.semi();
        p.end(self.span);
    }
}

/// Prints `from` and the name of a module.
pub fn print_from<S: Print, W: WriteJs>(source: &S, p: &mut Printer<W>, look: Look)
    ensures { Prints W.tells W.state W.failed_writes W.loans (from look (laid look Key (S.tree source.now))) p.old.wr p.old.fault p.new.wr p.new.fault }
{
    p.text(Text::From);
    p.gap(look);
    source.print(p, look, Stand::Key);
}

/// The word before import attributes.
fn attributes_word(look: Look) -> Text
    ensures { bytes result ≡ (if look.asserts then codes "assert" else codes "with") }
{
    if look.asserts {
        Text::Assert
    } else {
        Text::With
    }
}

/// Prints import attributes, where there are any.
pub fn print_attributes<T: Print, W: WriteJs>(with_: &Option<T>, p: &mut Printer<W>, look: Look)
    ensures { Prints W.tells W.state W.failed_writes W.loans
        (attributes look (part_by T.tree with_.now) (laid look Alone (part_by T.tree with_.now))) p.old.wr p.old.fault p.new.wr p.new.fault }
{
    if let Some(with_) = with_ {
        p.gap(look);
        p.text(attributes_word(look));
        p.gap(look);
        with_.print(p, look, Stand::Alone);
    }
}
