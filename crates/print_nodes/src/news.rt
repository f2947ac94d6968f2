//! `new`.
ghost use Rattle.std.specs.Prelude.{◌≡◌, ◌||◌};
ghost use Rattle.tree_nodes.specs.View.{view_new_expr};
ghost use Rattle.print_layout_spec.specs.Looks.{when, formats};
ghost use Rattle.print_layout_spec.specs.Layout.{laid, in_parens, has_arguments, is_head};
ghost use Rattle.print_layout_spec.specs.declared.look.Stand.TheVariants.{Alone};
ghost use Rattle.print_nodes.specs.Asks.{args_tree};
ghost use Rattle.print_pieces.specs.Prints.{Prints};

use crate::lists::{Between, print_separated};
use crate::print::{Print, PrintPart};
use print_layout_spec::{Look, Stand};
use print_pieces::{Printer, Text};
use print_writers::WriteJs;
use tree_nodes::{ExprOrSpreadOf, NewExprOf};

impl<T: PrintPart> Print for NewExprOf<T> {
    ghost tree = { view_new_expr T.tree };

    fn print<W: WriteJs>(&self, p: &mut Printer<W>, look: Look, stand: Stand) {
        p.commit();
        p.start(self.span);
        p.text(Text::New);
        p.gap_or(look, self.callee.starts_with_word());
        self.callee.print(p, look, Stand::Head);
        print_new_arguments(&self.args, p, look, stand);
    }
}

/// Prints the arguments of `new`: when formatting, where there are some, and at the head of a call or a member.
fn print_new_arguments<T: PrintPart, W: WriteJs>(
    args: &Option<Vec<ExprOrSpreadOf<T>>>,
    p: &mut Printer<W>,
    look: Look,
    stand: Stand,
)
    ensures { Prints W.tells W.state W.failed_writes W.loans
        (when (formats look || (has_arguments (args_tree T.tree args.now) || is_head stand)) (in_parens (laid look Alone (args_tree T.tree args.now))))
        p.old.wr p.old.fault p.new.wr p.new.fault }
{
    if has_parens(args, look, stand) {
        p.text(Text::LeftParen);
        print_maybe_arguments(args, p, look);
        p.text(Text::RightParen);
    }
}

/// Whether `new` that stands so has parentheses behind what it makes.
fn has_parens<T: PrintPart>(args: &Option<Vec<ExprOrSpreadOf<T>>>, look: Look, stand: Stand) -> bool
    ensures { result ≡ (formats look || (has_arguments (args_tree T.tree args.now) || is_head stand)) }
{
    !look.style.minify || has_arguments(args) || matches!(stand, Stand::Head)
}

/// Whether there are arguments.
fn has_arguments<T: PrintPart>(args: &Option<Vec<ExprOrSpreadOf<T>>>) -> bool
    ensures { result ≡ has_arguments (args_tree T.tree args.now) }
{
    match args {
        Some(args) => matches!(args.as_slice(), [_, ..]),
        None => false,
    }
}

/// Prints arguments, where there is a list of them.
fn print_maybe_arguments<T: PrintPart, W: WriteJs>(
    args: &Option<Vec<ExprOrSpreadOf<T>>>,
    p: &mut Printer<W>,
    look: Look,
)
    ensures { Prints W.tells W.state W.failed_writes W.loans (laid look Alone (args_tree T.tree args.now)) p.old.wr p.old.fault p.new.wr p.new.fault }
{
    if let Some(args) = args {
        print_separated(args.as_slice(), p, look, Between::Comma);
    }
}
