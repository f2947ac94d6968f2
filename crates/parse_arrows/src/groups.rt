//! Parentheses (13.2.9): an expression, or the parameters of an arrow.
ghost use Rattle.std.specs.Prelude.{◌≡◌, ◌≢◌, false, true, All, IfOk, map};
ghost use Rattle.grammar_spec.specs.Tokens.Input.{kind, lo, span};
ghost use Rattle.tree_nodes.specs.Placed.{holds_expr, inner};
ghost use Rattle.grammar_spec.specs.Reader.Expressions as reads;
ghost use Rattle.parse_state.specs.Answers.{Gives};
ghost use Rattle.parse_state.specs.Codes.{code_of};
ghost use Rattle.parse_operands.specs.Lists.{arguments_of, FitArguments};
ghost use Rattle.parse_operands.specs.Operands.{tree_of};
ghost use Rattle.std.specs.Prelude.{[], ◌∷◌, ◌++◌, IfErr};
ghost use Rattle.tree_nodes.specs.Fits.{fits_expr_or_spread};
ghost use Rattle.tree_nodes.specs.View.{view_expr_or_spread};
ghost use Rattle.parse_state.specs.Answers.{IsMemory, IsSyntax};
ghost use Rattle.parse_state.specs.Reads.{Shorter, NotLonger};
ghost use Rattle.parse_operands.specs.Rules.{ReadsBy};
ghost use Rattle.parse_arrows.specs.Groups.{group_rest, group_tree, plain_list};

use crate::arrows::{arrow, is_arrow};
use crate::made;
use base_token::{BytePos, Error, Span, SyntaxError};
use parse_functions::group_items;
use parse_operands::lists::Arguments;
use parse_operands::{Nested, Operand};
use parse_state::code::with_in;
use parse_state::{Around, Failure, Parser, Tokens};
use std::alloc::Global;
use tree_nodes::{Expr, ExprBox, ExprKind, ExprOrSpread, SeqExpr};

/// What is said of parentheses with nothing in them, or with dots, where no arrow follows.
fn refused(span: Span) -> Failure
    ensures { IsSyntax result }
{
    Failure::Syntax(Error {
        span,
        kind: SyntaxError::Unexpected,
    })
}

/// The expressions of a list without dots.
#[tactic(auto, using(crate::proofs::Plain::plain_starts), unfolding(crate::specs::Groups::plain_from))]
fn plain(alloc: Global, items: Vec<ExprOrSpread>) -> Result<Vec<ExprBox>, Failure>
    requires { All (λ x. fits_expr_or_spread (λ p. p) x) items.items }
    ensures value { Gives (λ x. map (λ e. inner e.part.value) x.items) 0 result
        (plain_list (map (view_expr_or_spread inner) items.items)) }
    ensures holds { IfOk result (λ x. All (λ e. holds_expr e.part.value) x.items) }
{
    let mut exprs = Vec::new(alloc);
    'items: for x in items {
        if x.spread.is_some() {
            return Err(refused(x.span));
        }
        exprs.push(x.expr)?;
    }
    Ok(exprs)
}

/// An expression behind others with commas between them, or alone.
fn joined(alloc: Global, span: Span, exprs: Vec<ExprBox>, last: ExprBox) -> Result<ExprBox, Failure>
    requires fits { All (λ x. holds_expr x.part.value) exprs.items }
    requires last { holds_expr last.part.value }
    ensures value { IfOk result (λ x. inner x.part.value
        ≡ reads.joined (map (λ e. inner e.part.value) exprs.items ++ inner last.part.value ∷ [])
        span) }
    ensures holds { IfOk result (λ x. holds_expr x.part.value) }
    ensures full { IfErr result IsMemory }
{
    if exprs.is_empty() {
        return Ok(last);
    }
    let mut all = exprs;
    all.push(last)?;
    let kind = ExprKind::Seq(SeqExpr { span, exprs: all });
    Ok(ExprBox::new(alloc, Expr { kind })?)
}

/// What stands between parentheses, as an expression.
#[tactic(auto, using(crate::proofs::Plain::groups))]
fn group_expr(alloc: Global, paren: Span, items: Vec<ExprOrSpread>) -> Result<ExprBox, Failure>
    requires { All (λ x. fits_expr_or_spread (λ p. p) x) items.items }
    ensures value { Gives (λ x. inner x.part.value) 0 result
        (group_tree paren.lo.0 (map (view_expr_or_spread inner) items.items)) }
    ensures holds { IfOk result (λ x. holds_expr x.part.value) }
{
    let mut before = items;
    let Some(last) = before.pop() else {
        return Err(refused(paren));
    };
    let exprs = plain(alloc, before)?;
    if last.spread.is_some() {
        return Err(refused(last.span));
    }
    let span = Span {
        lo: paren.lo,
        hi: last.span.hi,
    };
    joined(alloc, span, exprs, last.expr)
}

/// What follows the `)` of a group: an arrow, or nothing of the group.
#[inline(never)]
#[tactic(auto, unfolding(crate::specs::Groups::group_rest))]
pub fn group_end<'a, I: Tokens<'a> + Drop, N: Nested<'a, I>>(
    p: &mut Parser<'a, I>,
    nested: &N,
    code: Around,
    level: u8,
    start: BytePos,
    paren: Span,
    list: Arguments,
) -> Result<Operand, Failure>
    requires ready { N.ready nested.now }
    requires fits { FitArguments list }
    ensures value { ReadsBy I.machine I.state (N.reads nested.now) p.old p.new result
        tree_of
        (λ m r. group_rest m r (code_of code) level start.0 paren.lo.0 (arguments_of list)) }
    ensures not_longer { NotLonger I.machine I.state p.old p.new result }
{
    if is_arrow(p, nested, level) && nested.are_params(p, &list) {
        let params = nested.params(p, list)?;
        return arrow(p, nested, code, start, false, params);
    }
    if list.comma {
        return Err(p.unexpected());
    }
    let expr = group_expr(p.alloc, paren, list.items)?;
    made::paren_expr(p.alloc, p.since(start), expr)
}

/// Parentheses and what follows them.
#[inline(never)]
#[tactic(auto, using(crate::proofs::GroupLemmas::group_is), unfolding(grammar_spec::specs::Reader::Expressions::group_by))]
pub fn group<'a, I: Tokens<'a> + Drop, N: Nested<'a, I>>(
    p: &mut Parser<'a, I>,
    nested: &N,
    code: Around,
    level: u8,
) -> Result<Operand, Failure>
    requires ready { N.ready nested.now }
    ensures value { ReadsBy I.machine I.state (N.reads nested.now) p.old p.new result
        tree_of (λ m r. reads.group_by m r (code_of code) level) }
    ensures shorter { Shorter I.machine I.state p.old p.new result }
{
    let start = p.lo();
    p.bump()?;
    let paren = p.place();
    let list = group_items(p, nested, with_in(code))?;
    group_end(p, nested, code, level, start, paren, list)
}
