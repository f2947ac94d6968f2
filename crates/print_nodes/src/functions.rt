//! Functions, their parameters and decorators.
ghost use Rattle.std.specs.Prelude.{◌≡◌, codes, if◌then◌else◌};
ghost use Rattle.tree_spec.specs.Tree.{part_by, trees_by};
ghost use Rattle.tree_nodes.specs.View.{view_decorator, view_fn_decl, view_fn_expr, view_function, view_param};
ghost use Rattle.print_gaps.specs.Edges.{is_there};
ghost use Rattle.print_layout_spec.specs.Looks.{◌·◌, when, text, blank, gap};
ghost use Rattle.print_layout_spec.specs.Layout.{laid, separated, comma, in_parens, method_marks};
ghost use Rattle.print_layout_spec.specs.declared.look.Stand.TheVariants.{Alone};
ghost use Rattle.print_pieces.specs.Prints.{Prints};

use crate::lists::{Between, print_each, print_separated};
use crate::print::{Print, PrintPart};
use print_layout_spec::{Look, Stand};
use print_pieces::{Printer, Text};
use print_writers::WriteJs;
use tree_nodes::{DecoratorOf, FnDeclOf, FnExprOf, FunctionOf, ParamOf};

impl<T: PrintPart> Print for DecoratorOf<T> {
    ghost tree = { view_decorator T.tree };

    fn print<W: WriteJs>(&self, p: &mut Printer<W>, look: Look, _stand: Stand) {
        p.start(self.span);
        p.text(Text::At);
        self.expr.print(p, look, Stand::Alone);
        p.line_always();
        p.end(self.span);
    }
}

impl<T: PrintPart> Print for ParamOf<T> {
    ghost tree = { view_param T.tree };

    fn print<W: WriteJs>(&self, p: &mut Printer<W>, look: Look, _stand: Stand) {
        p.start(self.span);
        print_each(self.decorators.as_slice(), p, look);
        self.pat.print(p, look, Stand::Alone);
        p.end(self.span);
    }
}

/// Prints parameters in parentheses.
pub fn print_params<T: PrintPart, W: WriteJs>(params: &[ParamOf<T>], p: &mut Printer<W>, look: Look)
    ensures { Prints W.tells W.state W.failed_writes W.loans
        (in_parens (separated look (comma look) (trees_by (view_param T.tree) params.now))) p.old.wr p.old.fault p.new.wr p.new.fault }
{
    p.text(Text::LeftParen);
    print_separated(params, p, look, Between::Comma);
    p.text(Text::RightParen);
}

/// A function prints its parameters and its body: what stands before them depends on where it stands.
impl<T: PrintPart> Print for FunctionOf<T> {
    ghost tree = { view_function T.tree };

    fn print<W: WriteJs>(&self, p: &mut Printer<W>, look: Look, _stand: Stand) {
        print_params(self.params.as_slice(), p, look);
        p.gap(look);
        self.body.print(p, look, Stand::Body);
    }
}

/// Prints the star of a generator's declaration, or the blank before a name.
fn print_star<W: WriteJs>(generates: bool, p: &mut Printer<W>, look: Look)
    ensures { Prints W.tells W.state W.failed_writes W.loans
        (if generates then text (codes "*") · gap look else blank) p.old.wr p.old.fault p.new.wr p.new.fault }
{
    if generates {
        p.text(Text::Star);
        p.gap(look);
    } else {
        p.blank();
    }
}

/// Prints `async` and the star of a method.
pub fn print_marks<W: WriteJs>(waits: bool, generates: bool, p: &mut Printer<W>)
    ensures { Prints W.tells W.state W.failed_writes W.loans (method_marks waits generates) p.old.wr p.old.fault p.new.wr p.new.fault }
{
    p.word_if(waits, Text::Async);
    p.text_if(generates, Text::Star);
}

/// Prints a name behind a blank, where there is one.
pub fn print_name<T: Print, W: WriteJs>(name: &Option<T>, p: &mut Printer<W>, look: Look)
    ensures { Prints W.tells W.state W.failed_writes W.loans
        (when (is_there (part_by T.tree name.now)) (blank · laid look Alone (part_by T.tree name.now))) p.old.wr p.old.fault p.new.wr p.new.fault }
{
    if let Some(name) = name {
        p.blank();
        name.print(p, look, Stand::Alone);
    }
}

impl<T: PrintPart> Print for FnDeclOf<T> {
    ghost tree = { view_fn_decl T.tree };

    fn print<W: WriteJs>(&self, p: &mut Printer<W>, look: Look, _stand: Stand) {
        p.commit();
        p.start(self.span);
        p.word_if(self.function.is_async, Text::Async);
        p.text(Text::Function);
        print_star(self.function.is_generator, p, look);
        self.ident.print(p, look, Stand::Alone);
        self.function.print(p, look, Stand::Alone);
    }
}

impl<T: PrintPart> Print for FnExprOf<T> {
    ghost tree = { view_fn_expr T.tree };

    fn print<W: WriteJs>(&self, p: &mut Printer<W>, look: Look, _stand: Stand) {
        p.commit();
        p.start(self.span);
        p.word_if(self.function.is_async, Text::Async);
        p.text(Text::Function);
        p.text_if(self.function.is_generator, Text::Star);
        print_name(&self.ident, p, look);
        self.function.print(p, look, Stand::Alone);
    }
}
