//! What can be printed.
ghost use Rattle.std.specs.Prelude.{◌≡◌, true, false, MatchOption};
ghost use Rattle.tree_spec.specs.Tree.{Tree, none, more, part_by, element_by};
ghost use Rattle.print_layout_spec.specs.Looks.{◌·◌, when, gap, gap_or};
ghost use Rattle.print_layout_spec.specs.declared.look.Stand.TheVariants.{Alone};
ghost use Rattle.print_gaps.specs.Edges.{is_there, starts_with_word, ends_with_word, gap_before, gap_after, gap_of_unary};
ghost use Rattle.print_layout_spec.specs.Layout.{laid, is_variables, is_block, is_sequence, is_bracketed_name, is_one_name, closing, in_parens, initial};
ghost use Rattle.base_token.specs.OperatorKinds.{binary_op_kind};
ghost use Rattle.tree_nodes.specs.View.{unary_op_word, view_number};
ghost use Rattle.print_pieces.specs.Prints.{Prints};
ghost use Rattle.print_nodes.specs.Asks.{is_number, is_hole};

use base_token::BinaryOp;
use print_layout_spec::{Look, Stand};
use print_pieces::{Printer, Text};
use print_writers::WriteJs;
use tree_nodes::{Child, ExprOrSpreadOf, Number, UnaryOp};

/// What can be printed: a part of a tree (the crate's trait `Node`).
pub trait Print {
    /// What it stands for.
    ghost tree: { Self → Tree };

    /// Prints its layout, where `stand` says as what it stands. A fault is kept in the printer. What is printed is no
    /// part that is left out.
    fn print<W: WriteJs>(&self, p: &mut Printer<W>, look: Look, stand: Stand)
        ensures laid { Prints W.tells W.state W.failed_writes W.loans (laid look stand (tree self.now)) p.old.wr p.old.fault p.new.wr p.new.fault }
        ensures there { is_there (tree self.now) ≡ true };
}

/// What stands in a list of statements. What follows it depends on what it is.
pub trait PrintItem: Print {
    /// Whether it is a block.
    fn is_block(&self) -> bool
        ensures { result ≡ is_block (Self.tree self.now) };

    /// Whether it declares variables.
    fn is_variables(&self) -> bool
        ensures { result ≡ is_variables (Self.tree self.now) };
}

/// A node in a child's box. What is printed around it depends on what it is and how its text begins and ends.
pub trait PrintPart: PrintItem {
    /// Whether it is expressions with commas between them.
    fn is_sequence(&self) -> bool
        ensures { result ≡ is_sequence (Self.tree self.now) };

    /// Whether it is a pattern that starts with a bracket or with dots.
    fn is_bracketed_name(&self) -> bool
        ensures { result ≡ is_bracketed_name (Self.tree self.now) };

    /// Whether it is a name that is bound.
    fn is_name(&self) -> bool
        ensures { result ≡ is_one_name (more (Self.tree self.now) none) };

    /// Whether its text starts with a word.
    fn starts_with_word(&self) -> bool
        ensures { result ≡ starts_with_word (Self.tree self.now) };

    /// Whether its text ends with a word. It is no part that is left out.
    fn ends_with_word(&self) -> bool
        ensures answer { result ≡ ends_with_word (Self.tree self.now) }
        ensures there { is_there (Self.tree self.now) ≡ true };

    /// Whether a blank has to stand between it and an operator behind it.
    fn gap_before(&self, op: BinaryOp) -> bool
        ensures { result ≡ gap_before (binary_op_kind op) (Self.tree self.now) };

    /// Whether a blank has to stand between an operator and it, the right operand.
    fn gap_after(&self, op: BinaryOp) -> bool
        ensures { result ≡ gap_after (binary_op_kind op) (Self.tree self.now) };

    /// Whether a blank has to stand between an operator and it, the one operand.
    fn gap_of_unary(&self, op: UnaryOp) -> bool
        ensures { result ≡ gap_of_unary (unary_op_word op) (Self.tree self.now) };

    /// The number that it is.
    fn as_number(&self) -> Option<&Number>
        ensures { MatchOption result (is_number (Self.tree self.now) ≡ false) (λ n. Self.tree self.now ≡ view_number n.now) };

    /// Whether it is an element that is left out.
    fn is_hole(&self) -> bool
        ensures { result ≡ is_hole (Self.tree self.now) };
}

/// An element of a list of expressions or patterns, or a hole.
pub trait PrintElement: Print {
    /// Whether it is left out.
    fn is_hole(&self) -> bool
        ensures { result ≡ is_hole (Self.tree self.now) };
}

impl<T: PrintPart, K> PrintElement for Option<Child<T, K>> {
    fn is_hole(&self) -> bool {
        match self {
            Some(x) => x.is_hole(),
            None => true,
        }
    }
}

impl<T: PrintPart> PrintElement for Option<ExprOrSpreadOf<T>> {
    fn is_hole(&self) -> bool {
        self.is_none()
    }
}

impl<T: Print, K> Print for Child<T, K> {
    ghost tree = { λ c. T.tree c.part.value };

    fn print<W: WriteJs>(&self, p: &mut Printer<W>, look: Look, stand: Stand) {
        self.part.print(p, look, stand)
    }
}

impl<T: PrintItem, K> PrintItem for Child<T, K> {
    fn is_block(&self) -> bool {
        self.part.is_block()
    }

    fn is_variables(&self) -> bool {
        self.part.is_variables()
    }
}

impl<T: PrintPart, K> PrintPart for Child<T, K> {
    fn is_sequence(&self) -> bool {
        self.part.is_sequence()
    }

    fn is_bracketed_name(&self) -> bool {
        self.part.is_bracketed_name()
    }

    fn is_name(&self) -> bool {
        self.part.is_name()
    }

    fn starts_with_word(&self) -> bool {
        self.part.starts_with_word()
    }

    fn ends_with_word(&self) -> bool {
        self.part.ends_with_word()
    }

    fn gap_before(&self, op: BinaryOp) -> bool {
        self.part.gap_before(op)
    }

    fn gap_after(&self, op: BinaryOp) -> bool {
        self.part.gap_after(op)
    }

    fn gap_of_unary(&self, op: UnaryOp) -> bool {
        self.part.gap_of_unary(op)
    }

    fn as_number(&self) -> Option<&Number> {
        self.part.as_number()
    }

    fn is_hole(&self) -> bool {
        self.part.is_hole()
    }
}

impl<T: Print> Print for &T {
    ghost tree = { λ r. T.tree r.now };

    fn print<W: WriteJs>(&self, p: &mut Printer<W>, look: Look, stand: Stand) {
        (**self).print(p, look, stand)
    }
}

impl<T: Print> Print for Box<T> {
    ghost tree = { λ b. T.tree b.value };

    fn print<W: WriteJs>(&self, p: &mut Printer<W>, look: Look, stand: Stand) {
        (**self).print(p, look, stand)
    }
}

/// An element of a list, or a hole.
impl<T: Print> Print for Option<T> {
    ghost tree = { element_by T.tree };

    fn print<W: WriteJs>(&self, p: &mut Printer<W>, look: Look, stand: Stand) {
        if let Some(x) = self {
            x.print(p, look, stand);
        }
    }
}

/// Prints what stands behind a statement: a semicolon behind variables, and the end of its line; nothing
/// behind a block.
#[tactic(auto, unfolding(print_layout_spec::specs::Layout::closing))]
pub fn print_closing<T: PrintItem, W: WriteJs>(t: &T, p: &mut Printer<W>, look: Look)
    ensures { Prints W.tells W.state W.failed_writes W.loans (closing look (T.tree t.now)) p.old.wr p.old.fault p.new.wr p.new.fault }
{
    if t.is_block() {
        return;
    }
    if t.is_variables() {
        p.semi();
    }
    p.line(look);
}

/// Prints a part in parentheses.
pub fn print_in_parens<T: Print, W: WriteJs>(t: &T, p: &mut Printer<W>, look: Look)
    ensures { Prints W.tells W.state W.failed_writes W.loans (in_parens (laid look Alone (T.tree t.now))) p.old.wr p.old.fault p.new.wr p.new.fault }
{
    p.text(Text::LeftParen);
    t.print(p, look, Stand::Alone);
    p.text(Text::RightParen);
}

/// Prints a part where there is one.
pub fn print_maybe<T: Print, W: WriteJs>(t: &Option<T>, p: &mut Printer<W>, look: Look)
    ensures { Prints W.tells W.state W.failed_writes W.loans (laid look Alone (part_by T.tree t.now)) p.old.wr p.old.fault p.new.wr p.new.fault }
{
    if let Some(t) = t {
        t.print(p, look, Stand::Alone);
    }
}

/// Prints a part behind a blank when formatting, where there is one.
pub fn print_behind_gap<T: Print, W: WriteJs>(t: &Option<T>, p: &mut Printer<W>, look: Look)
    ensures { Prints W.tells W.state W.failed_writes W.loans
        (when (is_there (part_by T.tree t.now)) (gap look · laid look Alone (part_by T.tree t.now))) p.old.wr p.old.fault p.new.wr p.new.fault }
{
    if let Some(t) = t {
        p.gap(look);
        t.print(p, look, Stand::Alone);
    }
}

/// Prints a part behind a blank that words ask for, where there is one.
pub fn print_operand<T: PrintPart, W: WriteJs>(t: &Option<T>, p: &mut Printer<W>, look: Look)
    ensures { Prints W.tells W.state W.failed_writes W.loans
        (when (is_there (part_by T.tree t.now)) (gap_or look (starts_with_word (part_by T.tree t.now)) · laid look Alone (part_by T.tree t.now)))
        p.old.wr p.old.fault p.new.wr p.new.fault }
{
    if let Some(t) = t {
        p.gap_or(look, t.starts_with_word());
        t.print(p, look, Stand::Alone);
    }
}

/// Prints a part in parentheses, where there is one.
pub fn print_maybe_in_parens<T: Print, W: WriteJs>(t: &Option<T>, p: &mut Printer<W>, look: Look)
    ensures { Prints W.tells W.state W.failed_writes W.loans
        (when (is_there (part_by T.tree t.now)) (in_parens (laid look Alone (part_by T.tree t.now)))) p.old.wr p.old.fault p.new.wr p.new.fault }
{
    if let Some(t) = t {
        p.text(Text::LeftParen);
        t.print(p, look, Stand::Alone);
        p.text(Text::RightParen);
    }
}

/// Prints `=` and what stands behind it, where there is something.
pub fn print_initial<T: Print, W: WriteJs>(value: &Option<T>, p: &mut Printer<W>, look: Look)
    ensures { Prints W.tells W.state W.failed_writes W.loans
        (initial look (part_by T.tree value.now) (laid look Alone (part_by T.tree value.now))) p.old.wr p.old.fault p.new.wr p.new.fault }
{
    if let Some(value) = value {
        p.gap(look);
        p.text(Text::Equals);
        p.gap(look);
        value.print(p, look, Stand::Alone);
    }
}
