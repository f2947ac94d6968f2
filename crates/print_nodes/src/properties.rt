//! Properties of objects and of patterns.
ghost use Rattle.std.specs.Prelude.{◌≡◌};
ghost use Rattle.tree_nodes.specs.View.{view_assign_pat_prop, view_assign_prop, view_getter_prop, view_key_value_pat_prop, view_key_value_prop, view_method_prop, view_object_pat_prop, view_prop, view_prop_or_spread, view_setter_prop, view_spread_element};

use crate::functions::print_marks;
use crate::keys::{is_bracketed, key_span};
use crate::print::{Print, PrintPart, print_in_parens, print_initial};
use print_layout_spec::{Look, Stand};
use print_pieces::{Printer, Text};
use print_writers::WriteJs;
use tree_nodes::{
    AssignPatPropOf, AssignPropOf, GetterPropOf, KeyValuePatPropOf, KeyValuePropOf, MethodPropOf,
    ObjectPatPropOf, PropOf, PropOrSpreadOf, SetterPropOf, SpreadElementOf,
};

impl<T: PrintPart> Print for SpreadElementOf<T> {
    ghost tree = { view_spread_element T.tree };

    fn print<W: WriteJs>(&self, p: &mut Printer<W>, look: Look, _stand: Stand) {
        p.start(self.span);
        p.text(Text::Spread);
        self.expr.print(p, look, Stand::Alone);
        p.end(self.span);
    }
}

impl<T: PrintPart> Print for AssignPropOf<T> {
    ghost tree = { view_assign_prop T.tree };

    fn print<W: WriteJs>(&self, p: &mut Printer<W>, look: Look, _stand: Stand) {
        p.start(self.span);
        self.key.print(p, look, Stand::Alone);
        p.text(Text::Equals);
        self.value.print(p, look, Stand::Alone);
    }
}

impl<T: PrintPart> Print for KeyValuePropOf<T> {
    ghost tree = { view_key_value_prop T.tree };

    fn print<W: WriteJs>(&self, p: &mut Printer<W>, look: Look, _stand: Stand) {
        p.start(key_span(&self.key));
        self.key.print(p, look, Stand::Key);
        p.text(Text::Colon);
        p.gap(look);
        self.value.print(p, look, Stand::Alone);
    }
}

impl<T: PrintPart> Print for GetterPropOf<T> {
    ghost tree = { view_getter_prop T.tree };

    fn print<W: WriteJs>(&self, p: &mut Printer<W>, look: Look, _stand: Stand) {
        p.start(self.span);
        p.text(Text::Get);
        p.blank_before(look, is_bracketed(&self.key));
        self.key.print(p, look, Stand::Key);
        p.gap(look);
        p.text(Text::LeftParen);
        p.text(Text::RightParen);
        p.gap(look);
        self.body.print(p, look, Stand::Alone);
    }
}

impl<T: PrintPart> Print for SetterPropOf<T> {
    ghost tree = { view_setter_prop T.tree };

    fn print<W: WriteJs>(&self, p: &mut Printer<W>, look: Look, _stand: Stand) {
        p.start(self.span);
        p.text(Text::Set);
        p.blank_before(look, is_bracketed(&self.key));
        self.key.print(p, look, Stand::Key);
        p.gap(look);
        print_in_parens(&self.param, p, look);
        self.body.print(p, look, Stand::Alone);
    }
}

impl<T: PrintPart> Print for MethodPropOf<T> {
    ghost tree = { view_method_prop T.tree };

    fn print<W: WriteJs>(&self, p: &mut Printer<W>, look: Look, _stand: Stand) {
        p.start(self.span);
        print_marks(self.function.is_async, self.function.is_generator, p);
        self.key.print(p, look, Stand::Key);
        p.gap(look);
        self.function.print(p, look, Stand::Alone);
    }
}

impl<T: PrintPart> Print for PropOf<T> {
    ghost tree = { view_prop T.tree };

    fn print<W: WriteJs>(&self, p: &mut Printer<W>, look: Look, stand: Stand) {
        match self {
            PropOf::Shorthand(x) => x.print(p, look, stand),
            PropOf::KeyValue(x) => x.print(p, look, stand),
            PropOf::Assign(x) => x.print(p, look, stand),
            PropOf::Getter(x) => x.print(p, look, stand),
            PropOf::Setter(x) => x.print(p, look, stand),
            PropOf::Method(x) => x.print(p, look, stand),
        }
    }
}

impl<T: PrintPart> Print for PropOrSpreadOf<T> {
    ghost tree = { view_prop_or_spread T.tree };

    fn print<W: WriteJs>(&self, p: &mut Printer<W>, look: Look, stand: Stand) {
        match self {
            PropOrSpreadOf::Spread(x) => x.print(p, look, stand),
            PropOrSpreadOf::Prop(x) => x.print(p, look, stand),
        }
    }
}

impl<T: PrintPart> Print for KeyValuePatPropOf<T> {
    ghost tree = { view_key_value_pat_prop T.tree };

    fn print<W: WriteJs>(&self, p: &mut Printer<W>, look: Look, _stand: Stand) {
        p.start(self.span);
        self.key.print(p, look, Stand::Key);
        p.text(Text::Colon);
        p.gap(look);
        self.value.print(p, look, Stand::Alone);
        p.end(self.span);
    }
}

impl<T: PrintPart> Print for AssignPatPropOf<T> {
    ghost tree = { view_assign_pat_prop T.tree };

    fn print<W: WriteJs>(&self, p: &mut Printer<W>, look: Look, _stand: Stand) {
        p.start(self.span);
        self.key.print(p, look, Stand::Alone);
        print_initial(&self.value, p, look);
        p.end(self.span);
    }
}

impl<T: PrintPart> Print for ObjectPatPropOf<T> {
    ghost tree = { view_object_pat_prop T.tree };

    fn print<W: WriteJs>(&self, p: &mut Printer<W>, look: Look, stand: Stand) {
        match self {
            ObjectPatPropOf::KeyValue(x) => x.print(p, look, stand),
            ObjectPatPropOf::Assign(x) => x.print(p, look, stand),
            ObjectPatPropOf::Rest(x) => x.print(p, look, stand),
        }
    }
}
