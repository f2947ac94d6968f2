//! Literals: strings, numbers, big integers, `true`, `false`, `null` and regular expressions; and the pieces of templates.
ghost use Rattle.std.specs.Prelude.{◌≡◌, if◌then◌else◌, codes, not, option_map};
ghost use Rattle.tree_nodes.specs.View.{view_big_int, view_bool, view_lit, view_null, view_number, view_regex, view_str, view_tpl_element};
ghost use Rattle.print_pieces.specs.Texts.{bytes};
ghost use Rattle.print_layout_spec.specs.Layout.{as_expression, is_key, is_tagged};
ghost use Rattle.print_pieces.specs.Prints.{Prints};

use crate::print::Print;
use base_token::{Atom, Span};
use print_layout_spec::{Look, Stand};
use print_pieces::literals::numbers::{print_big_integer, print_number};
use print_pieces::literals::strings::print_string;
use print_pieces::literals::templates::print_quasi;
use print_pieces::{Printer, Text};
use print_writers::WriteJs;
use std::convert::AsStr;
use tree_nodes::{BigInt, Bool, Lit, Null, Number, Regex, Str, TplElement};

/// A text as it was read, if it was.
pub fn read_text(raw: &Option<Atom>) -> Option<&str>
    ensures { option_map (λ t. t.now) result ≡ raw.now }
{
    match raw {
        Some(raw) => Some(raw.as_str()),
        None => None,
    }
}

/// Whether a literal that stands so is an expression, which marks its start once more.
fn is_expression(stand: Stand) -> bool
    ensures { result ≡ not (is_key stand) }
{
    !matches!(stand, Stand::Key)
}

/// Marks the start of a literal that is an expression.
fn mark_expression<W: WriteJs>(stand: Stand, span: Span, p: &mut Printer<W>)
    ensures { Prints W.tells W.state W.failed_writes W.loans (as_expression stand span) p.old.wr p.old.fault p.new.wr p.new.fault }
{
    p.start_if(is_expression(stand), span);
}

impl Print for Str {
    ghost tree = { view_str };

    fn print<W: WriteJs>(&self, p: &mut Printer<W>, look: Look, stand: Stand) {
        mark_expression(stand, self.span, p);
        print_string(
            p,
            look,
            self.span,
            self.units.as_slice(),
            read_text(&self.raw),
        );
    }
}

impl Print for Number {
    ghost tree = { view_number };

    fn print<W: WriteJs>(&self, p: &mut Printer<W>, look: Look, stand: Stand) {
        mark_expression(stand, self.span, p);
        print_number(p, look, self.span, &self.value, read_text(&self.raw));
    }
}

impl Print for BigInt {
    ghost tree = { view_big_int };

    fn print<W: WriteJs>(&self, p: &mut Printer<W>, look: Look, stand: Stand) {
        mark_expression(stand, self.span, p);
        print_big_integer(
            p,
            look,
            self.span,
            self.radix,
            self.digits.as_str(),
            read_text(&self.raw),
        );
    }
}

impl Print for Lit {
    ghost tree = { view_lit };

    fn print<W: WriteJs>(&self, p: &mut Printer<W>, look: Look, stand: Stand) {
        match self {
            Lit::Str(x) => x.print(p, look, stand),
            Lit::Bool(x) => x.print(p, look, stand),
            Lit::Null(x) => x.print(p, look, stand),
            Lit::Num(x) => x.print(p, look, stand),
            Lit::BigInt(x) => x.print(p, look, stand),
            Lit::Regex(x) => x.print(p, look, stand),
        }
    }
}

/// Whether a template that stands so is behind a tag.
fn is_tagged(stand: Stand) -> bool
    ensures { result ≡ is_tagged stand }
{
    matches!(stand, Stand::Tagged)
}

impl Print for TplElement {
    ghost tree = { view_tpl_element };

    fn print<W: WriteJs>(&self, p: &mut Printer<W>, look: Look, stand: Stand) {
        p.start(self.span);
        print_quasi(p, look.style, is_tagged(stand), self.raw.as_str());
        p.end(self.span);
    }
}

/// `true` or `false`.
fn bool_text(value: bool) -> Text
    ensures { bytes result ≡ if value then codes "true" else codes "false" }
{
    if value { Text::True } else { Text::False }
}

impl Print for Bool {
    ghost tree = { view_bool };

    fn print<W: WriteJs>(&self, p: &mut Printer<W>, _look: Look, _stand: Stand) {
        p.start(self.span);
        p.text(bool_text(self.value));
    }
}

impl Print for Null {
    ghost tree = { view_null };

    fn print<W: WriteJs>(&self, p: &mut Printer<W>, _look: Look, _stand: Stand) {
        p.start(self.span);
        p.text(Text::Null);
    }
}

impl Print for Regex {
    ghost tree = { view_regex };

    fn print<W: WriteJs>(&self, p: &mut Printer<W>, _look: Look, _stand: Stand) {
        p.start(self.span);
        p.text(Text::Slash);
        p.write(self.exp.as_str());
        p.text(Text::Slash);
        p.write(self.flags.as_str());
    }
}
