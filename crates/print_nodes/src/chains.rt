//! Members, and optional chains.
ghost use Rattle.std.specs.Prelude.{◌≡◌, ◌||◌};
ghost use Rattle.tree_spec.specs.Tree.{trees_by};
ghost use Rattle.tree_nodes.specs.View.{view_expr_or_spread, view_member_expr, view_member_prop, view_number, view_opt_call, view_opt_chain_base, view_opt_chain_expr, view_super_prop, view_super_prop_expr};
ghost use Rattle.print_layout_spec.specs.Looks.{◌·◌, end, when};
ghost use Rattle.print_layout_spec.specs.Layout.{comma, in_parens, is_computed, laid, optional_dot, point_before, separated};
ghost use Rattle.print_layout_spec.specs.declared.look.Stand.TheVariants.{Alone};
ghost use Rattle.print_nodes.specs.Chains.{object_laid, link_laid, chain_laid};
ghost use Rattle.print_pieces.specs.Prints.{Prints};

use crate::calls::print_arguments;
use crate::literals::read_text;
use crate::print::{Print, PrintPart};
use base_token::Span;
use print_layout_spec::{Look, Stand};
use print_pieces::literals::numbers::{print_number, print_number_before_point};
use print_pieces::{Printer, Text};
use print_writers::WriteJs;
use tree_nodes::{
    ExprOrSpreadOf, MemberExprOf, MemberPropOf, Number, OptCallOf, OptChainBaseOf, OptChainExprOf,
    SuperPropExprOf, SuperPropOf,
};

impl<T: PrintPart> Print for MemberPropOf<T> {
    ghost tree = { view_member_prop T.tree };

    fn print<W: WriteJs>(&self, p: &mut Printer<W>, look: Look, stand: Stand) {
        match self {
            MemberPropOf::Ident(x) => x.print(p, look, stand),
            MemberPropOf::PrivateName(x) => x.print(p, look, stand),
            MemberPropOf::Computed(x) => x.print(p, look, stand),
        }
    }
}

impl<T: PrintPart> Print for SuperPropOf<T> {
    ghost tree = { view_super_prop T.tree };

    fn print<W: WriteJs>(&self, p: &mut Printer<W>, look: Look, stand: Stand) {
        match self {
            SuperPropOf::Ident(x) => x.print(p, look, stand),
            SuperPropOf::Computed(x) => x.print(p, look, stand),
        }
    }
}

/// Whether the name of a member stands in brackets.
fn is_computed<T: PrintPart>(prop: &MemberPropOf<T>) -> bool
    ensures { result ≡ is_computed (view_member_prop T.tree prop.now) }
{
    matches!(prop, MemberPropOf::Computed(_))
}

/// Whether the name of a member of `super` stands in brackets.
fn is_computed_super<T: PrintPart>(prop: &SuperPropOf<T>) -> bool
    ensures { result ≡ is_computed (view_super_prop T.tree prop.now) }
{
    matches!(prop, SuperPropOf::Computed(_))
}

/// Prints a number before a name. Where it doesn't keep its text, it takes a point of its own where it would
/// take that of the member.
pub(crate) fn print_number_object<W: WriteJs>(
    n: &Number,
    keeps: bool,
    p: &mut Printer<W>,
    look: Look,
)
    ensures { Prints W.tells W.state W.failed_writes W.loans (object_laid look keeps (view_number n.now)) p.old.wr p.old.fault p.new.wr p.new.fault }
{
    p.start(n.span);
    if keeps {
        print_number(p, look, n.span, &n.value, read_text(&n.raw));
    } else {
        print_number_before_point(p, look, n.span, &n.value, read_text(&n.raw));
    }
}

/// Prints what stands before the name of a member.
fn print_object<T: PrintPart, W: WriteJs>(obj: &T, keeps: bool, p: &mut Printer<W>, look: Look)
    ensures { Prints W.tells W.state W.failed_writes W.loans (object_laid look keeps (T.tree obj.now)) p.old.wr p.old.fault p.new.wr p.new.fault }
{
    match obj.as_number() {
        Some(n) => print_number_object(n, keeps, p, look),
        None => obj.print(p, look, Stand::Head),
    }
}

impl<T: PrintPart> Print for MemberExprOf<T> {
    ghost tree = { view_member_expr T.tree };

    fn print<W: WriteJs>(&self, p: &mut Printer<W>, look: Look, _stand: Stand) {
        let computed = is_computed(&self.prop);
        p.start(self.span);
        print_object(&self.obj, computed, p, look);
        p.text_if(!computed, Text::Dot);
        self.prop.print(p, look, Stand::Alone);
        p.end(self.span);
    }
}

/// Prints the name of a member behind its object, and marks the end of the member.
pub(crate) fn print_name<T: PrintPart, W: WriteJs>(
    prop: &MemberPropOf<T>,
    span: Span,
    p: &mut Printer<W>,
    look: Look,
)
    ensures { Prints W.tells W.state W.failed_writes W.loans
        (point_before (view_member_prop T.tree prop.now) · laid look Alone (view_member_prop T.tree prop.now) · end span) p.old.wr p.old.fault p.new.wr p.new.fault }
{
    let computed = is_computed(prop);
    p.text_if(!computed, Text::Dot);
    prop.print(p, look, Stand::Alone);
    p.end(span);
}

impl<T: PrintPart> Print for SuperPropExprOf<T> {
    ghost tree = { view_super_prop_expr T.tree };

    fn print<W: WriteJs>(&self, p: &mut Printer<W>, look: Look, _stand: Stand) {
        p.start(self.span);
        self.obj.print(p, look, Stand::Alone);
        p.text_if(!is_computed_super(&self.prop), Text::Dot);
        self.prop.print(p, look, Stand::Alone);
    }
}

/// Prints the sign between an object and a name in an optional chain.
fn print_link<W: WriteJs>(optional: bool, computed: bool, p: &mut Printer<W>)
    ensures { Prints W.tells W.state W.failed_writes W.loans (link_laid optional computed) p.old.wr p.old.fault p.new.wr p.new.fault }
{
    if optional {
        p.text(Text::OptionalDot);
    } else {
        p.text_if(!computed, Text::Dot);
    }
}

/// Whether a number before a name keeps its text: before `?.` and before a bracket.
pub(crate) fn keeps_text(optional: bool, computed: bool) -> bool
    ensures { result ≡ (optional || computed) }
{
    optional || computed
}

/// Prints the name of a member in an optional chain, behind its object.
pub(crate) fn print_optional_name<T: PrintPart, W: WriteJs>(
    optional: bool,
    prop: &MemberPropOf<T>,
    p: &mut Printer<W>,
    look: Look,
)
    ensures { Prints W.tells W.state W.failed_writes W.loans
        (link_laid optional (is_computed (view_member_prop T.tree prop.now)) · laid look Alone (view_member_prop T.tree prop.now)) p.old.wr p.old.fault p.new.wr p.new.fault }
{
    let computed = is_computed(prop);
    print_link(optional, computed, p);
    prop.print(p, look, Stand::Alone);
}

/// Prints the arguments of a call behind its callee.
pub(crate) fn print_call_arguments<T: PrintPart, W: WriteJs>(
    args: &Vec<ExprOrSpreadOf<T>>,
    p: &mut Printer<W>,
    look: Look,
)
    ensures { Prints W.tells W.state W.failed_writes W.loans
        (in_parens (separated look (comma look) (trees_by (view_expr_or_spread T.tree) args.now.items))) p.old.wr p.old.fault p.new.wr p.new.fault }
{
    print_arguments(args.as_slice(), p, look);
}

/// Prints the arguments of a call in an optional chain, behind its callee.
pub(crate) fn print_optional_arguments<T: PrintPart, W: WriteJs>(
    optional: bool,
    args: &Vec<ExprOrSpreadOf<T>>,
    p: &mut Printer<W>,
    look: Look,
)
    ensures { Prints W.tells W.state W.failed_writes W.loans
        (when optional optional_dot · in_parens (separated look (comma look) (trees_by (view_expr_or_spread T.tree) args.now.items))) p.old.wr p.old.fault p.new.wr p.new.fault }
{
    p.text_if(optional, Text::OptionalDot);
    print_call_arguments(args, p, look);
}

/// Prints a member in an optional chain.
fn print_chain_member<T: PrintPart, W: WriteJs>(
    member: &MemberExprOf<T>,
    optional: bool,
    p: &mut Printer<W>,
    look: Look,
)
    ensures { Prints W.tells W.state W.failed_writes W.loans
        (chain_laid look optional (T.tree member.now.obj.part.value) (view_member_prop T.tree member.now.prop)) p.old.wr p.old.fault p.new.wr p.new.fault }
{
    let computed = is_computed(&member.prop);
    print_object(&member.obj, keeps_text(optional, computed), p, look);
    print_link(optional, computed, p);
    member.prop.print(p, look, Stand::Alone);
}

impl<T: PrintPart> Print for OptCallOf<T> {
    ghost tree = { view_opt_call T.tree };

    fn print<W: WriteJs>(&self, p: &mut Printer<W>, look: Look, _stand: Stand) {
        self.callee.print(p, look, Stand::Head);
        print_arguments(self.args.as_slice(), p, look);
    }
}

impl<T: PrintPart> Print for OptChainBaseOf<T> {
    ghost tree = { view_opt_chain_base T.tree };

    fn print<W: WriteJs>(&self, p: &mut Printer<W>, look: Look, stand: Stand) {
        match self {
            OptChainBaseOf::Member(x) => x.print(p, look, stand),
            OptChainBaseOf::Call(x) => x.print(p, look, stand),
        }
    }
}

impl<T: PrintPart> Print for OptChainExprOf<T> {
    ghost tree = { view_opt_chain_expr T.tree };

    fn print<W: WriteJs>(&self, p: &mut Printer<W>, look: Look, _stand: Stand) {
        match &self.base {
            OptChainBaseOf::Member(x) => print_chain_member(x, self.optional, p, look),
            OptChainBaseOf::Call(x) => {
                x.callee.print(p, look, Stand::Head);
                p.text_if(self.optional, Text::OptionalDot);
                print_arguments(x.args.as_slice(), p, look);
            }
        }
    }
}
