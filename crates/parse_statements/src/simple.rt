//! Statements round an expression: `with`, labels, and an expression by itself.
ghost use Rattle.std.specs.Prelude.{◌≡◌, ◌&&◌, true, false, IfOk};
ghost use Rattle.grammar_spec.specs.Tokens.Shape as shape;
ghost use Rattle.tree_nodes.specs.Placed.{holds_stmt};
ghost use Rattle.tree_nodes.specs.View.{view_ident};
ghost use Rattle.grammar_spec.specs.Reader.Statements as reads;
ghost use Rattle.parse_state.specs.Codes.{code_of};
ghost use Rattle.parse_state.specs.Reads.{Shorter};
ghost use Rattle.parse_operands.specs.Operands.{tree_of, tree_in};
ghost use Rattle.parse_operands.specs.Rules.{ReadsBy};

use base_token::BytePos;
use parse_blocks::made;
use parse_blocks::parts::{in_parens, sub};
use parse_operands::{Nested, Operand};
use parse_state::operators::{EXPRESSION, LET_END};
use parse_state::{Around, Failure, Parser, Tokens, kinds};
use tree_nodes::{ExprKind, Ident, StmtBox};

/// `with`.
#[inline(never)]
#[tactic(auto, unfolding(grammar_spec::specs::Reader::Statements::with_by))]
pub fn with<'a, I: Tokens<'a> + Drop, N: Nested<'a, I>>(
    p: &mut Parser<'a, I>,
    nested: &N,
    code: Around,
) -> Result<StmtBox, Failure>
    requires ready { N.ready nested.now }
    ensures value { ReadsBy I.machine I.state (N.reads nested.now) p.old p.new result
        tree_in (λ m r. reads.with_by m r (code_of code)) }
    ensures holds { IfOk result (λ x. holds_stmt x.part.value) }
    ensures shorter { Shorter I.machine I.state p.old p.new result }
{
    let start = p.lo();
    p.eat_word(code, kinds::WITH)?;
    let test = in_parens(p, nested, code)?;
    let body = sub(p, nested, code, false)?;
    made::with_stmt(p.alloc, p.since(start), test, body)
}

/// Whether an expression is one name, not in parentheses.
fn is_name(operand: &Operand) -> bool
    ensures { result ≡ shape.is_name (tree_of operand.now) }
{
    matches!(&operand.expr.get().kind, ExprKind::Ident(_))
}

/// The name that an expression is.
fn into_name(operand: Operand) -> Ident
    requires { shape.is_name (tree_of operand) ≡ true }
    ensures { view_ident result ≡ tree_of operand }
{
    match operand.expr.into_inner().kind {
        ExprKind::Ident(x) => x,
        _ => unreachable!(),
    }
}

/// What follows a label, from its colon on.
#[inline(never)]
#[tactic(auto, unfolding(grammar_spec::specs::Reader::Statements::labelled_by))]
pub fn labelled<'a, I: Tokens<'a> + Drop, N: Nested<'a, I>>(
    p: &mut Parser<'a, I>,
    nested: &N,
    code: Around,
    start: BytePos,
    label: Ident,
) -> Result<StmtBox, Failure>
    requires ready { N.ready nested.now }
    ensures value { ReadsBy I.machine I.state (N.reads nested.now) p.old p.new result
        tree_in (λ m r. reads.labelled_by m r (code_of code) start.0 (view_ident label)) }
    ensures holds { IfOk result (λ x. holds_stmt x.part.value) }
    ensures shorter { Shorter I.machine I.state p.old p.new result }
{
    p.bump()?;
    let body = sub(p, nested, code, true)?;
    made::labeled_stmt(p.alloc, p.since(start), label, body)
}

/// An expression that starts a statement: a label where it is a name before a colon.
#[inline(never)]
#[tactic(auto, unfolding(grammar_spec::specs::Reader::Statements::expression_by))]
pub fn expression<'a, I: Tokens<'a> + Drop, N: Nested<'a, I>>(
    p: &mut Parser<'a, I>,
    nested: &N,
    code: Around,
) -> Result<StmtBox, Failure>
    requires ready { N.ready nested.now }
    ensures value { ReadsBy I.machine I.state (N.reads nested.now) p.old p.new result
        tree_in (λ m r. reads.expression_by m r (code_of code)) }
    ensures holds { IfOk result (λ x. holds_stmt x.part.value) }
    ensures shorter { Shorter I.machine I.state p.old p.new result }
{
    let start = p.lo();
    let lets = p.at(kinds::LET);
    if lets && p.second()?.0 == kinds::LEFT_BRACKET {
        return Err(p.unexpected());
    }
    let expr = nested.expr(p, code, EXPRESSION)?;
    let named = is_name(&expr);
    if named && p.at(kinds::COLON) {
        let label = into_name(expr);
        return labelled(p, nested, code, start, label);
    }
    let end = if code.listed && (lets && named) {
        LET_END
    } else {
        expr.end
    };
    p.end_of(code, end)?;
    made::expr_stmt(p.alloc, p.since(start), expr)
}
