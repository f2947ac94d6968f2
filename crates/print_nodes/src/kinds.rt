//! Expressions, statements and patterns of every kind.
ghost use Rattle.std.specs.Prelude.{◌≡◌};
ghost use Rattle.tree_nodes.specs.View.{view_expr_kind, view_invalid, view_pat_kind, view_stmt_kind};

use crate::print::{Print, PrintPart};
use print_layout_spec::{Look, Stand};
use print_pieces::Printer;
use print_writers::WriteJs;
use tree_nodes::{ExprKindOf, Invalid, PatKindOf, StmtKindOf};

/// What could not be read can't be printed.
impl Print for Invalid {
    ghost tree = { view_invalid };

    fn print<W: WriteJs>(&self, p: &mut Printer<W>, _look: Look, _stand: Stand) {
        p.refuse();
    }
}

impl<T: PrintPart> Print for ExprKindOf<T> {
    ghost tree = { view_expr_kind T.tree };

    fn print<W: WriteJs>(&self, p: &mut Printer<W>, look: Look, stand: Stand) {
        match self {
            ExprKindOf::This(x) => x.print(p, look, stand),
            ExprKindOf::Array(x) => x.print(p, look, stand),
            ExprKindOf::Object(x) => x.print(p, look, stand),
            ExprKindOf::Fn(x) => x.print(p, look, stand),
            ExprKindOf::Unary(x) => x.print(p, look, stand),
            ExprKindOf::Update(x) => x.print(p, look, stand),
            ExprKindOf::Bin(x) => x.print(p, look, stand),
            ExprKindOf::Assign(x) => x.print(p, look, stand),
            ExprKindOf::Member(x) => x.print(p, look, stand),
            ExprKindOf::SuperProp(x) => x.print(p, look, stand),
            ExprKindOf::Cond(x) => x.print(p, look, stand),
            ExprKindOf::Call(x) => x.print(p, look, stand),
            ExprKindOf::New(x) => x.print(p, look, stand),
            ExprKindOf::Seq(x) => x.print(p, look, stand),
            ExprKindOf::Ident(x) => x.print(p, look, stand),
            ExprKindOf::Lit(x) => x.print(p, look, stand),
            ExprKindOf::Tpl(x) => x.print(p, look, stand),
            ExprKindOf::TaggedTpl(x) => x.print(p, look, stand),
            ExprKindOf::Arrow(x) => x.print(p, look, stand),
            ExprKindOf::Class(x) => x.print(p, look, stand),
            ExprKindOf::Yield(x) => x.print(p, look, stand),
            ExprKindOf::MetaProp(x) => x.print(p, look, stand),
            ExprKindOf::Await(x) => x.print(p, look, stand),
            ExprKindOf::Paren(x) => x.print(p, look, stand),
            ExprKindOf::PrivateName(x) => x.print(p, look, stand),
            ExprKindOf::OptChain(x) => x.print(p, look, stand),
            ExprKindOf::Invalid(_) => p.refuse(),
        }
    }
}

impl<T: PrintPart> Print for StmtKindOf<T> {
    ghost tree = { view_stmt_kind T.tree };

    fn print<W: WriteJs>(&self, p: &mut Printer<W>, look: Look, stand: Stand) {
        match self {
            StmtKindOf::Block(x) => x.print(p, look, stand),
            StmtKindOf::Empty(x) => x.print(p, look, stand),
            StmtKindOf::Debugger(x) => x.print(p, look, stand),
            StmtKindOf::With(x) => x.print(p, look, stand),
            StmtKindOf::Return(x) => x.print(p, look, stand),
            StmtKindOf::Labeled(x) => x.print(p, look, stand),
            StmtKindOf::Break(x) => x.print(p, look, stand),
            StmtKindOf::Continue(x) => x.print(p, look, stand),
            StmtKindOf::If(x) => x.print(p, look, stand),
            StmtKindOf::Switch(x) => x.print(p, look, stand),
            StmtKindOf::Throw(x) => x.print(p, look, stand),
            StmtKindOf::Try(x) => x.print(p, look, stand),
            StmtKindOf::While(x) => x.print(p, look, stand),
            StmtKindOf::DoWhile(x) => x.print(p, look, stand),
            StmtKindOf::For(x) => x.print(p, look, stand),
            StmtKindOf::ForIn(x) => x.print(p, look, stand),
            StmtKindOf::ForOf(x) => x.print(p, look, stand),
            StmtKindOf::Decl(x) => x.print(p, look, stand),
            StmtKindOf::Expr(x) => x.print(p, look, stand),
        }
    }
}

impl<T: PrintPart> Print for PatKindOf<T> {
    ghost tree = { view_pat_kind T.tree };

    fn print<W: WriteJs>(&self, p: &mut Printer<W>, look: Look, stand: Stand) {
        match self {
            PatKindOf::Ident(x) => x.print(p, look, stand),
            PatKindOf::Array(x) => x.print(p, look, stand),
            PatKindOf::Rest(x) => x.print(p, look, stand),
            PatKindOf::Object(x) => x.print(p, look, stand),
            PatKindOf::Assign(x) => x.print(p, look, stand),
            PatKindOf::Expr(x) => x.print(p, look, Stand::Alone),
            PatKindOf::Invalid(_) => p.refuse(),
        }
    }
}
