//! The knot of the tree: what stands in a child's box is printed as the node that it is, and so is all below it.
ghost use Rattle.std.specs.Prelude.{◌≡◌, false, true, MatchOption};
ghost use Rattle.base_token.specs.OperatorKinds.{binary_op_kind};
ghost use Rattle.tree_nodes.specs.Placed.{inner};
ghost use Rattle.tree_nodes.specs.View.{unary_op_word, view_member_prop, view_number};
ghost use Rattle.tree_visit.specs.Spine.Chains.{Linked, is_link, left_part};
ghost use Rattle.print_gaps.specs.Edges.{is_word_operator};
ghost use Rattle.print_layout_spec.specs.Layout as layout;
ghost use Rattle.print_layout_spec.specs.declared.look.Look.{Look};
ghost use Rattle.print_layout_spec.specs.Layout.{closing, is_computed, laid};
ghost use Rattle.print_pieces.specs.Prints.{Prints};
ghost use Rattle.print_nodes.specs.Asks.{is_number};
ghost use Rattle.print_nodes.specs.Chains.{object_laid};
ghost use Rattle.print_nodes.specs.Spines.{before_laid, left_laid, lines_laid, rights_laid, stand_below};

use crate::chains::{
    keeps_text, print_call_arguments, print_name, print_number_object, print_optional_arguments,
    print_optional_name,
};
use crate::ifs::{print_consequence, print_else};
use crate::operators::{marks_operator, print_right_operand};
use crate::print::{Print, PrintItem, PrintPart};
use crate::templates::print_tagged;
use base_token::BinaryOp;
use print_gaps::gaps::{gap_after, gap_before, gap_of_unary};
use print_gaps::{EndsWithAlphaNum, StartsWithAlphaNum};
use print_layout_spec::{Look, Stand};
use print_pieces::Printer;
use print_writers::WriteJs;
use tree_nodes::spine::there;
use tree_nodes::{
    DeclOf, Expr, ExprKind, Lit, MemberProp, Number, OptChainBase, Part, PartKind, Pat, PatKind,
    Program, Stmt, StmtKind, UnaryOp, law,
};
use tree_visit::spine::chain::{below, left_part};

impl Print for Part {
    ghost tree = { inner };

    #[cycle(print)]
    fn print<W: WriteJs>(&self, p: &mut Printer<W>, look: Look, stand: Stand) {
        match &self.sort {
            PartKind::Expr(x) => x.print(p, look, stand),
            PartKind::Stmt(x) => x.print(p, look, stand),
            PartKind::Pat(x) => x.print(p, look, stand),
        }
    }
}

impl Print for Expr {
    ghost tree = { λ t. t };

    #[cycle(print)]
    #[tactic(auto, using(crate::proofs::Spines::at_the_top))]
    fn print<W: WriteJs>(&self, p: &mut Printer<W>, look: Look, stand: Stand) {
        let mut rest = self;
        let mut links: u32 = 0;
        let mut stands = stand;
        'down: while let Some(left) = left_part(rest) {
            if links == u32::MAX {
                break;
            }
            print_before(rest, stands, p);
            stands = stand_below(rest);
            rest = left;
            links += 1;
        }
        if links == 0 {
            self.kind.print(p, look, stand);
            return;
        }
        print_left(below(self, links - 1), rest, p, look, stands);
        print_rights(self, links, p, look);
    }
}

/// Prints the left part of a link.
#[cycle(print)]
fn print_left<W: WriteJs>(link: &Expr, left: &Expr, p: &mut Printer<W>, look: Look, stands: Stand)
    requires linked { is_link link.now ≡ true }
    requires left { left.now ≡ left_part link.now }
    requires stand { stands ≡ stand_below link.now }
    ensures { Prints W.tells W.state W.failed_writes W.loans (left_laid look link.now) p.old.wr p.old.fault p.new.wr p.new.fault }
{
    match number_before_name(link, left) {
        Some((number, keeps)) => print_number_object(number, keeps, p, look),
        None => left.print(p, look, stands),
    }
}

/// Prints what a link that stands so writes before its left part.
fn print_before<W: WriteJs>(link: &Expr, stand: Stand, p: &mut Printer<W>)
    ensures { Prints W.tells W.state W.failed_writes W.loans (before_laid stand link.now) p.old.wr p.old.fault p.new.wr p.new.fault }
{
    match &link.kind {
        ExprKind::Bin(x) => p.start_if(marks_operator(stand), x.span),
        ExprKind::Member(x) => p.start(x.span),
        ExprKind::TaggedTpl(x) => p.start(x.span),
        ExprKind::Call(x) => {
            p.commit();
            p.start(x.span);
        }
        _ => {}
    }
}

/// How the left part of a link stands.
#[tactic(auto, using(crate::proofs::Spines::literal_stands))]
fn stand_below(link: &Expr) -> Stand
    ensures { result ≡ stand_below link.now }
{
    match &link.kind {
        ExprKind::Bin(_) => Stand::Operand,
        _ => Stand::Head,
    }
}

/// The number that a member goes on from, and whether it keeps its text; nothing where that is no number, and where the link is
/// no member.
fn number_before_name<'e>(link: &Expr, left: &'e Expr) -> Option<(&'e Number, bool)>
    requires linked { is_link link.now ≡ true }
    requires left { left.now ≡ left_part link.now }
    ensures { MatchOption result ((look : Look) → left_laid look link.now ≡ laid look (stand_below link.now) left.now)
        (λ x. (look : Look) → left_laid look link.now ≡ object_laid look x.1 (view_number x.0.now)) }
{
    let Some(number) = number_of(left) else {
        return None;
    };
    match &link.kind {
        ExprKind::Member(x) => Some((number, is_bracketed(&x.prop))),
        ExprKind::OptChain(x) => match &x.base {
            OptChainBase::Member(member) => {
                let bracketed = is_bracketed(&member.prop);
                Some((number, keeps_text(x.optional, bracketed)))
            }
            OptChainBase::Call(_) => None,
        },
        _ => None,
    }
}

/// Whether the name of a member stands in brackets.
fn is_bracketed(prop: &MemberProp) -> bool
    ensures { result ≡ is_computed (view_member_prop inner prop.now) }
{
    matches!(prop, MemberProp::Computed(_))
}

/// Prints what so many links write behind their left parts, from the innermost outwards: that of the inner half, then that of the
/// outer half, so that no chain is too long for the stack.
#[cycle(print)]
#[tactic(auto, using(crate::proofs::Spines::rights))]
fn print_rights<W: WriteJs>(top: &Expr, links: u32, p: &mut Printer<W>, look: Look)
    requires linked { Linked links top.now }
    ensures { Prints W.tells W.state W.failed_writes W.loans (rights_laid look links top.now) p.old.wr p.old.fault p.new.wr p.new.fault }
{
    match links {
        0 => {}
        1 => match &top.kind {
            ExprKind::Bin(x) => {
                let before = gap_before(x.op, x.left.get());
                print_right_operand(x.op, before, &x.right, p, look);
            }
            ExprKind::Member(x) => print_name(&x.prop, x.span, p, look),
            ExprKind::Call(x) => print_call_arguments(&x.args, p, look),
            ExprKind::TaggedTpl(x) => print_tagged(&*x.tpl, x.span, p, look),
            ExprKind::OptChain(x) => match &x.base {
                OptChainBase::Member(member) => {
                    print_optional_name(x.optional, &member.prop, p, look);
                }
                OptChainBase::Call(call) => {
                    print_optional_arguments(x.optional, &call.args, p, look);
                }
            },
            _ => {}
        },
        _ => {
            let outer = links / 2;
            print_rights(below(top, outer), links - outer, p, look);
            print_rights(top, outer, p, look);
        }
    }
}

impl Print for Stmt {
    ghost tree = { λ t. t };

    #[cycle(print)]
    #[tactic(auto, using(crate::proofs::Spines::along_branches))]
    fn print<W: WriteJs>(&self, p: &mut Printer<W>, look: Look, stand: Stand) {
        let mut rest = self;
        let mut links: u32 = 0;
        'links: while let StmtKind::If(branch) = &rest.kind {
            let Some(alt) = &branch.alt else {
                break;
            };
            if links == u32::MAX {
                break;
            }
            print_consequence(branch, p, look);
            // For the proof: `there` hands on what it is given, with the fact that it is no absent part.
            rest = there(alt.get());
            let before_word = rest.starts_with_alpha_num();
            print_else(is_block(branch.cons.get()), before_word, p, look);
            links += 1;
        }
        if links == 0 {
            self.kind.print(p, look, stand);
            return;
        }
        rest.print(p, look, Stand::Alone);
        print_end(rest, p, look);
        print_lines(links - 1, p, look);
    }
}

/// Prints what stands behind a statement: a semicolon behind variables, and the end of its line; nothing behind a block.
#[tactic(auto, unfolding(print_layout_spec::specs::Layout::closing))]
pub fn print_end<W: WriteJs>(last: &Stmt, p: &mut Printer<W>, look: Look)
    ensures { Prints W.tells W.state W.failed_writes W.loans (closing look last.now) p.old.wr p.old.fault p.new.wr p.new.fault }
{
    if is_block(last) {
        return;
    }
    if is_variables(last) {
        p.semi();
    }
    p.line(look);
}

/// Ends so many lines when formatting: what stands behind the alternatives that are `if` statements themselves.
fn print_lines<W: WriteJs>(count: u32, p: &mut Printer<W>, look: Look)
    ensures { Prints W.tells W.state W.failed_writes W.loans (lines_laid look count) p.old.wr p.old.fault p.new.wr p.new.fault }
{
    for _ in 0..count {
        p.line(look);
    }
}

/// Whether a statement is a block.
fn is_block(stmt: &Stmt) -> bool
    ensures { result ≡ layout.is_block stmt.now }
{
    matches!(&stmt.kind, StmtKind::Block(_))
}

/// Whether a statement declares variables.
fn is_variables(stmt: &Stmt) -> bool
    ensures { result ≡ layout.is_variables stmt.now }
{
    matches!(
        &stmt.kind,
        StmtKind::Decl(DeclOf::Var(_)) | StmtKind::Decl(DeclOf::Using(_))
    )
}

impl Print for Pat {
    ghost tree = { λ t. t };

    #[cycle(print)]
    fn print<W: WriteJs>(&self, p: &mut Printer<W>, look: Look, stand: Stand) {
        self.kind.print(p, look, stand)
    }
}

impl PrintItem for Part {
    fn is_block(&self) -> bool {
        match self.as_stmt() {
            Some(x) => is_block(x),
            None => false,
        }
    }

    fn is_variables(&self) -> bool {
        match self.as_stmt() {
            Some(x) => is_variables(x),
            None => false,
        }
    }
}

impl PrintPart for Part {
    fn is_sequence(&self) -> bool {
        match self.as_expr() {
            Some(x) => matches!(&x.kind, ExprKind::Seq(_)),
            None => false,
        }
    }

    fn is_bracketed_name(&self) -> bool {
        match self.as_pat() {
            Some(x) => matches!(
                &x.kind,
                PatKind::Array(_) | PatKind::Rest(_) | PatKind::Object(_)
            ),
            None => false,
        }
    }

    fn is_name(&self) -> bool {
        match self.as_pat() {
            Some(x) => matches!(&x.kind, PatKind::Ident(_)),
            None => false,
        }
    }

    fn starts_with_word(&self) -> bool {
        self.starts_with_alpha_num()
    }

    fn ends_with_word(&self) -> bool {
        self.ends_with_alpha_num()
    }

    fn gap_before(&self, op: BinaryOp) -> bool {
        match self.as_expr() {
            Some(x) => gap_before(op, x),
            None => is_word(op) && self.ends_with_alpha_num(),
        }
    }

    fn gap_after(&self, op: BinaryOp) -> bool {
        match self.as_expr() {
            Some(x) => gap_after(op, x),
            None => is_word(op) && self.starts_with_alpha_num(),
        }
    }

    fn gap_of_unary(&self, op: UnaryOp) -> bool {
        match self.as_expr() {
            Some(x) => gap_of_unary(op, x),
            None => is_unary_word(op) && self.starts_with_alpha_num(),
        }
    }

    fn as_number(&self) -> Option<&Number> {
        match self.as_expr() {
            Some(x) => number_of(x),
            None => None,
        }
    }

    fn is_hole(&self) -> bool {
        match &self.sort {
            PartKind::Expr(x) => law::is_expression(&x.kind),
            PartKind::Stmt(x) => law::is_statement(&x.kind),
            PartKind::Pat(x) => law::is_pattern(&x.kind),
        }
        false
    }
}

/// The number that an expression is.
fn number_of(expr: &Expr) -> Option<&Number>
    ensures { MatchOption result (is_number expr.now ≡ false) (λ n. expr.now ≡ view_number n.now) }
{
    match &expr.kind {
        ExprKind::Lit(Lit::Num(n)) => Some(n),
        _ => None,
    }
}

/// Whether an operator between two operands is a word.
fn is_word(op: BinaryOp) -> bool
    ensures { result ≡ is_word_operator (binary_op_kind op) }
{
    matches!(op, BinaryOp::In | BinaryOp::InstanceOf)
}

/// Whether an operator before its operand is a word.
fn is_unary_word(op: UnaryOp) -> bool
    ensures { result ≡ is_word_operator (unary_op_word op) }
{
    matches!(op, UnaryOp::TypeOf | UnaryOp::Void | UnaryOp::Delete)
}

/// A program is printed as the script or the module that it is.
impl Print for Program {
    ghost tree = { λ t. t };

    fn print<W: WriteJs>(&self, p: &mut Printer<W>, look: Look, stand: Stand) {
        self.kind.print(p, look, stand)
    }
}
