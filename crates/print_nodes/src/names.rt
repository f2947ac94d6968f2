//! Names.
ghost use Rattle.std.specs.Prelude.{◌≡◌};
ghost use Rattle.tree_nodes.specs.View.{view_ident, view_binding_ident, view_ident_name, view_private_name};
ghost use Rattle.print_layout_spec.specs.Layout.{is_key};

use crate::print::Print;
use print_layout_spec::{Look, Stand};
use print_pieces::literals::names::{print_identifier, print_name, print_word};
use print_pieces::{Printer, Text};
use print_writers::WriteJs;
use std::convert::AsStr;
use tree_nodes::{BindingIdent, Ident, IdentName, PrivateName};

impl Print for Ident {
    ghost tree = { view_ident };

    fn print<W: WriteJs>(&self, p: &mut Printer<W>, look: Look, _stand: Stand) {
        print_identifier(p, look, self.span, self.sym.as_str());
    }
}

impl Print for BindingIdent {
    ghost tree = { view_binding_ident };

    fn print<W: WriteJs>(&self, p: &mut Printer<W>, look: Look, _stand: Stand) {
        print_identifier(p, look, self.span, self.id.sym.as_str());
    }
}

/// Whether a node stands as the key of a property or a module's name.
fn is_key(stand: Stand) -> bool
    ensures { result ≡ is_key stand }
{
    matches!(stand, Stand::Key)
}

impl Print for IdentName {
    ghost tree = { view_ident_name };

    fn print<W: WriteJs>(&self, p: &mut Printer<W>, look: Look, stand: Stand) {
        print_word(p, look, self.span, is_key(stand), self.sym.as_str());
    }
}

impl Print for PrivateName {
    ghost tree = { view_private_name };

    fn print<W: WriteJs>(&self, p: &mut Printer<W>, look: Look, _stand: Stand) {
        p.start(self.span);
        p.text(Text::Hash);
        p.commit();
        p.start(self.span);
        print_name(p, look.style, self.name.as_str());
        p.end(self.span);
    }
}
