//! Keys of properties and members.
ghost use Rattle.std.specs.Prelude.{◌≡◌};
ghost use Rattle.tree_spec.specs.Places.{place_of};
ghost use Rattle.print_gaps.specs.Edges.{starts_with_word};
ghost use Rattle.tree_nodes.specs.View.{view_computed_prop_name, view_key, view_prop_name};
ghost use Rattle.print_layout_spec.specs.Layout.{is_bracketed_key};

use crate::print::{Print, PrintPart};
use base_token::Span;
use print_layout_spec::{Look, Stand};
use print_pieces::{Printer, Text};
use print_writers::WriteJs;
use tree_nodes::{ComputedPropNameOf, KeyOf, PropNameOf};

impl<T: PrintPart> Print for ComputedPropNameOf<T> {
    ghost tree = { view_computed_prop_name T.tree };

    fn print<W: WriteJs>(&self, p: &mut Printer<W>, look: Look, _stand: Stand) {
        p.start(self.span);
        p.text(Text::LeftBracket);
        self.expr.print(p, look, Stand::Alone);
        p.text(Text::RightBracket);
        p.end(self.span);
    }
}

/// Whether a key starts with a word.
pub fn starts_with_word<T: PrintPart>(key: &PropNameOf<T>) -> bool
    ensures { result ≡ starts_with_word (view_prop_name T.tree key.now) }
{
    match key {
        PropNameOf::Ident(_) | PropNameOf::Num(_) | PropNameOf::BigInt(_) => true,
        PropNameOf::Str(_) | PropNameOf::Computed(_) => false,
    }
}

/// Whether a key is a string or computed, so that no word runs into it.
pub fn is_bracketed<T: PrintPart>(key: &PropNameOf<T>) -> bool
    ensures { result ≡ is_bracketed_key (view_prop_name T.tree key.now) }
{
    matches!(key, PropNameOf::Str(_) | PropNameOf::Computed(_))
}

/// Where a key stands.
pub fn key_span<T: PrintPart>(key: &PropNameOf<T>) -> Span
    ensures { result ≡ place_of (view_prop_name T.tree key.now) }
{
    match key {
        PropNameOf::Ident(x) => x.span,
        PropNameOf::Str(x) => x.span,
        PropNameOf::Num(x) => x.span,
        PropNameOf::BigInt(x) => x.span,
        PropNameOf::Computed(x) => x.span,
    }
}

impl<T: PrintPart> Print for PropNameOf<T> {
    ghost tree = { view_prop_name T.tree };

    fn print<W: WriteJs>(&self, p: &mut Printer<W>, look: Look, stand: Stand) {
        match self {
            PropNameOf::Ident(x) => x.print(p, look, stand),
            PropNameOf::Str(x) => x.print(p, look, stand),
            PropNameOf::Num(x) => x.print(p, look, stand),
            PropNameOf::BigInt(x) => x.print(p, look, stand),
            PropNameOf::Computed(x) => x.print(p, look, stand),
        }
    }
}

impl<T: PrintPart> Print for KeyOf<T> {
    ghost tree = { view_key T.tree };

    fn print<W: WriteJs>(&self, p: &mut Printer<W>, look: Look, stand: Stand) {
        match self {
            KeyOf::Private(x) => x.print(p, look, stand),
            KeyOf::Public(x) => x.print(p, look, stand),
        }
    }
}
