//! Assignments, and what is assigned to.
ghost use Rattle.std.specs.Prelude.{◌≡◌};
ghost use Rattle.tree_nodes.specs.View.{view_assign_expr, view_assign_target};

use crate::print::{Print, PrintPart};
use print_layout_spec::{Look, Stand};
use print_pieces::Printer;
use print_writers::WriteJs;
use tree_nodes::{AssignExprOf, AssignTargetOf};

impl<T: PrintPart> Print for AssignTargetOf<T> {
    ghost tree = { view_assign_target T.tree };

    fn print<W: WriteJs>(&self, p: &mut Printer<W>, look: Look, stand: Stand) {
        match self {
            AssignTargetOf::Ident(x) => x.print(p, look, stand),
            AssignTargetOf::Member(x) => x.print(p, look, stand),
            AssignTargetOf::SuperProp(x) => x.print(p, look, stand),
            AssignTargetOf::Paren(x) => x.print(p, look, stand),
            AssignTargetOf::OptChain(x) => x.print(p, look, stand),
            AssignTargetOf::Array(x) => x.print(p, look, stand),
            AssignTargetOf::Object(x) => x.print(p, look, stand),
            AssignTargetOf::Invalid(_) => p.refuse(),
        }
    }
}

impl<T: PrintPart> Print for AssignExprOf<T> {
    ghost tree = { view_assign_expr T.tree };

    fn print<W: WriteJs>(&self, p: &mut Printer<W>, look: Look, _stand: Stand) {
        self.left.print(p, look, Stand::Alone);
        p.gap(look);
        p.write(self.op.as_str());
        p.gap(look);
        self.right.print(p, look, Stand::Alone);
    }
}
