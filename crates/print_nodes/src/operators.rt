//! Operators.
ghost use Rattle.std.specs.Prelude.{◌≡◌, if◌then◌else◌, codes};
ghost use Rattle.base_token.specs.OperatorKinds.{binary_op_kind};
ghost use Rattle.base_token.specs.Operators.{operator_text};
ghost use Rattle.print_gaps.specs.Edges as edges;
ghost use Rattle.tree_nodes.specs.View.{view_unary_expr, view_update_expr, view_bin_expr, view_cond_expr, view_await_expr, view_yield_expr, view_paren_expr, view_seq_expr, unary_op_word, update_op_word};
ghost use Rattle.print_layout_spec.specs.Looks.{◌·◌, when, gap_or, blank, text};
ghost use Rattle.print_layout_spec.specs.Layout.{laid, marked_as_operand};
ghost use Rattle.print_layout_spec.specs.declared.look.Stand.TheVariants.{Alone};
ghost use Rattle.print_layout_spec.specs.Words.{sign_of};
ghost use Rattle.print_pieces.specs.Prints.{Prints};

use crate::lists::{Between, print_separated};
use crate::print::{Print, PrintPart, print_behind_gap, print_operand};
use base_token::{BinaryOp, Keyword};
use print_layout_spec::{Look, Stand};
use print_pieces::{Printer, Text};
use print_writers::WriteJs;
use tree_nodes::{
    AwaitExprOf, BinExprOf, CondExprOf, ParenExprOf, SeqExprOf, UnaryExprOf, UnaryOp, UpdateExprOf,
    UpdateOp, YieldExprOf,
};

impl<T: PrintPart> Print for UnaryExprOf<T> {
    ghost tree = { view_unary_expr T.tree };

    fn print<W: WriteJs>(&self, p: &mut Printer<W>, look: Look, _stand: Stand) {
        p.start(self.span);
        p.write(sign(self.op));
        print_unary_gap(self.op, &self.arg, p, look);
        self.arg.print(p, look, Stand::Alone);
    }
}

/// The text of an operator before its operand.
#[tactic(auto, unfolding(print_layout_spec::specs::Words::sign_of))]
fn sign(op: UnaryOp) -> &'static str
    ensures { result.now ≡ sign_of (unary_op_word op) }
{
    match op {
        UnaryOp::Minus => "-",
        UnaryOp::Plus => "+",
        UnaryOp::Bang => "!",
        UnaryOp::Tilde => "~",
        UnaryOp::TypeOf => Keyword::TypeOf.as_str(),
        UnaryOp::Void => Keyword::Void.as_str(),
        UnaryOp::Delete => Keyword::Delete.as_str(),
    }
}

/// Prints the blank between an operator and its one operand, where one is to stand.
fn print_unary_gap<T: PrintPart, W: WriteJs>(op: UnaryOp, arg: &T, p: &mut Printer<W>, look: Look)
    ensures { Prints W.tells W.state W.failed_writes W.loans
        (if edges.is_word_operator (unary_op_word op) then gap_or look (edges.starts_with_word (T.tree arg.now))
        else when (edges.gap_of_unary (unary_op_word op) (T.tree arg.now)) blank)
        p.old.wr p.old.fault p.new.wr p.new.fault }
{
    match op {
        UnaryOp::TypeOf | UnaryOp::Void | UnaryOp::Delete => {
            p.gap_or(look, arg.starts_with_word());
        }
        UnaryOp::Minus | UnaryOp::Plus | UnaryOp::Bang | UnaryOp::Tilde => {
            p.blank_if(arg.gap_of_unary(op));
        }
    }
}

impl<T: PrintPart> Print for UpdateExprOf<T> {
    ghost tree = { view_update_expr T.tree };

    fn print<W: WriteJs>(&self, p: &mut Printer<W>, look: Look, _stand: Stand) {
        p.start(self.span);
        if self.prefix {
            p.write(update_sign(self.op));
            self.arg.print(p, look, Stand::Alone);
        } else {
            self.arg.print(p, look, Stand::Alone);
            p.write(update_sign(self.op));
        }
    }
}

/// The text of `++` or `--`.
#[tactic(auto, unfolding(print_layout_spec::specs::Words::sign_of))]
fn update_sign(op: UpdateOp) -> &'static str
    ensures { result.now ≡ sign_of (update_op_word op) }
{
    match op {
        UpdateOp::PlusPlus => "++",
        UpdateOp::MinusMinus => "--",
    }
}

impl<T: PrintPart> Print for BinExprOf<T> {
    ghost tree = { view_bin_expr T.tree };

    fn print<W: WriteJs>(&self, p: &mut Printer<W>, look: Look, stand: Stand) {
        p.start_if(marks_operator(stand), self.span);
        self.left.print(p, look, Stand::Operand);
        let gap_before = self.left.gap_before(self.op);
        let gap_after = self.right.gap_after(self.op);
        print_operator(self.op, gap_before, gap_after, p, look);
        self.right.print(p, look, Stand::Alone);
    }
}

/// Prints an operator between two operands, and the blanks round it.
pub(crate) fn print_operator<W: WriteJs>(
    op: BinaryOp,
    gap_before: bool,
    gap_after: bool,
    p: &mut Printer<W>,
    look: Look,
)
    ensures { Prints W.tells W.state W.failed_writes W.loans
        (gap_or look gap_before · text (operator_text (binary_op_kind op)) · gap_or look gap_after) p.old.wr p.old.fault p.new.wr p.new.fault }
{
    p.gap_or(look, gap_before);
    p.write(op.as_str());
    p.gap_or(look, gap_after);
}

/// Prints an operator behind its left operand, with a blank before it or not, and the right operand.
pub(crate) fn print_right_operand<T: PrintPart, W: WriteJs>(
    op: BinaryOp,
    gap_before: bool,
    right: &T,
    p: &mut Printer<W>,
    look: Look,
)
    ensures { Prints W.tells W.state W.failed_writes W.loans
        (gap_or look gap_before · text (operator_text (binary_op_kind op)) · gap_or look (edges.gap_after (binary_op_kind op) (T.tree right.now)) · laid look Alone (T.tree right.now))
        p.old.wr p.old.fault p.new.wr p.new.fault }
{
    let gap_after = right.gap_after(op);
    print_operator(op, gap_before, gap_after, p, look);
    right.print(p, look, Stand::Alone);
}

/// Whether an operator that stands so marks its start.
pub(crate) fn marks_operator(stand: Stand) -> bool
    ensures { result ≡ marked_as_operand stand }
{
    !matches!(stand, Stand::Operand)
}

impl<T: PrintPart> Print for CondExprOf<T> {
    ghost tree = { view_cond_expr T.tree };

    fn print<W: WriteJs>(&self, p: &mut Printer<W>, look: Look, _stand: Stand) {
        p.start(self.span);
        self.test.print(p, look, Stand::Alone);
        p.gap(look);
        p.text(Text::Question);
        p.gap(look);
        self.cons.print(p, look, Stand::Alone);
        p.gap(look);
        p.text(Text::Colon);
        p.gap(look);
        self.alt.print(p, look, Stand::Alone);
    }
}

impl<T: PrintPart> Print for AwaitExprOf<T> {
    ghost tree = { view_await_expr T.tree };

    fn print<W: WriteJs>(&self, p: &mut Printer<W>, look: Look, _stand: Stand) {
        p.start(self.span);
        p.text(Text::Await);
        p.blank();
        self.arg.print(p, look, Stand::Alone);
    }
}

impl<T: PrintPart> Print for YieldExprOf<T> {
    ghost tree = { view_yield_expr T.tree };

    fn print<W: WriteJs>(&self, p: &mut Printer<W>, look: Look, _stand: Stand) {
        p.start(self.span);
        p.text(Text::Yield);
        if self.delegate {
            p.text(Text::Star);
            print_behind_gap(&self.arg, p, look);
        } else {
            print_operand(&self.arg, p, look);
        }
    }
}

impl<T: PrintPart> Print for ParenExprOf<T> {
    ghost tree = { view_paren_expr T.tree };

    fn print<W: WriteJs>(&self, p: &mut Printer<W>, look: Look, _stand: Stand) {
        p.commit();
        p.start(self.span);
        p.text(Text::LeftParen);
        self.expr.print(p, look, Stand::Alone);
        p.last(self.span);
        p.text(Text::RightParen);
    }
}

impl<T: PrintPart> Print for SeqExprOf<T> {
    ghost tree = { view_seq_expr T.tree };

    fn print<W: WriteJs>(&self, p: &mut Printer<W>, look: Look, _stand: Stand) {
        p.start(self.span);
        print_separated(self.exprs.as_slice(), p, look, Between::Comma);
    }
}
