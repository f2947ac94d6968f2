//! The loop over the operators behind an operand.
ghost use Rattle.std.specs.Prelude.{◌≡◌, ◌≢◌, false, true, ◌<◌, All, IfOk, IsTrue, map};
ghost use Rattle.base_token.specs.Kinds.{question_mark_kind};
ghost use Rattle.base_token.specs.OperatorKinds.{assign_op_kind, binary_op_kind};
ghost use Rattle.grammar_spec.specs.Tokens.Input.{kind, kind2, lo};
ghost use Rattle.tree_nodes.specs.Fits.{fits_expr_or_spread, fits_member_prop};
ghost use Rattle.tree_nodes.specs.Placed.{holds_expr, inner};
ghost use Rattle.tree_nodes.specs.View.{update_op_word};
ghost use Rattle.grammar_spec.specs.Reader.Expressions as reads;
ghost use Rattle.parse_state.specs.Answers.{IsSyntax, going_on};
ghost use Rattle.parse_state.specs.Codes.{code_of};
ghost use Rattle.parse_state.specs.Reads.{at_hand, to_come, ReadsAs, Shorter, NotLonger};
ghost use Rattle.parse_operands.specs.Lists.{arguments_of, elements_of, FitArguments, FitElements};
ghost use Rattle.parse_operands.specs.Operands.{tree_of};
ghost use Rattle.parse_operands.specs.Rules.{ReadsBy};
ghost use Rattle.parse_expressions.specs.Steps.{postfix_by, question_by, sequence_by};

use crate::operators::{assignment, binary, call, chain, conditional, index, member};
use crate::sequences;
use crate::templates::tagged;
use base_token::BytePos;
use parse_operands::operators::{assign_op, binary_op, update_op};
use parse_operands::{Held, Nested, Operand, made};
use parse_state::operators::{ASSIGNMENT, CALL, COALESCE, MEMBER, NEW_LEVEL};
use parse_state::{Around, Failure, Parser, Tokens, kinds};
use tree_nodes::UpdateOp;

/// A comma and one more expression.
#[inline(never)]
pub fn sequence<'a, I: Tokens<'a> + Drop, N: Nested<'a, I>>(
    p: &mut Parser<'a, I>,
    nested: &N,
    code: Around,
    start: BytePos,
    left: Operand,
) -> Result<Operand, Failure>
    requires ready { N.ready nested.now }
    ensures value { ReadsBy I.machine I.state (N.reads nested.now) p.old p.new result
        tree_of (λ m r. sequence_by m r (code_of code) start.0 (tree_of left)) }
    ensures shorter { Shorter I.machine I.state p.old p.new result }
{
    let left = Held { value: left };
    p.bump()?;
    let right = nested.expr(p, code, ASSIGNMENT)?;
    sequences::seq_expr(p.alloc, p.since(start), left.take(), right)
}

/// A `?`: of a chain where a dot follows, else of a conditional.
#[inline(never)]
pub fn question<'a, I: Tokens<'a> + Drop, N: Nested<'a, I>>(
    p: &mut Parser<'a, I>,
    nested: &N,
    code: Around,
    start: BytePos,
    left: Operand,
) -> Result<Operand, Failure>
    requires ready { N.ready nested.now }
    requires mark { kind (at_hand I.machine I.state p.old) ≡ question_mark_kind }
    ensures value { ReadsBy I.machine I.state (N.reads nested.now) p.old p.new result
        tree_of (λ m r. question_by m r (code_of code) start.0 (tree_of left)) }
    ensures shorter { Shorter I.machine I.state p.old p.new result }
{
    let left = Held { value: left };
    let (second, _) = p.second()?;
    if second != kinds::DOT {
        if left.value.level < COALESCE {
            return Err(p.unexpected());
        }
        return conditional(p, nested, code, start, left.take());
    }
    if left.value.level < CALL {
        return Err(p.unexpected());
    }
    p.bump()?;
    p.bump()?;
    chain(p, nested, code, start, left.take())
}

/// `++` or `--` behind its operand.
#[inline(never)]
pub fn postfix<'a, I: Tokens<'a> + Drop>(
    p: &mut Parser<'a, I>,
    start: BytePos,
    op: UpdateOp,
    left: Operand,
) -> Result<Operand, Failure>
    requires mark { update_op_word op ≡ kind (at_hand I.machine I.state p.old) }
    requires some { kind (at_hand I.machine I.state p.old) ≢ 0 }
    ensures value { ReadsAs I.machine I.state p.old p.new result
        tree_of (λ m. postfix_by m start.0 (tree_of left)) }
    ensures shorter { Shorter I.machine I.state p.old p.new result }
{
    if left.level < NEW_LEVEL {
        return Err(p.unexpected());
    }
    if p.breaks() {
        return Err(p.unexpected());
    }
    p.bump()?;
    made::postfix_expr(p.alloc, p.since(start), op, left)
}

/// What is wrong with the token that comes, behind what was read, which is let go here.
#[inline(never)]
fn refused<'a, I: Tokens<'a> + Drop>(p: &Parser<'a, I>, _left: Operand) -> Failure
    ensures { IsSyntax result }
{
    p.unexpected()
}

/// One operator behind what was read.
#[inline(never)]
#[tactic(auto, unfolding(grammar_spec::specs::Reader::Expressions::step_by))]
pub fn step<'a, I: Tokens<'a> + Drop, N: Nested<'a, I>>(
    p: &mut Parser<'a, I>,
    nested: &N,
    code: Around,
    start: BytePos,
    left: Operand,
) -> Result<Operand, Failure>
    requires ready { N.ready nested.now }
    ensures value { ReadsBy I.machine I.state (N.reads nested.now) p.old p.new result
        tree_of (λ m r. reads.step_by m r (code_of code) start.0 (tree_of left)) }
    ensures shorter { Shorter I.machine I.state p.old p.new result }
{
    let kind = p.kind();
    if kind == kinds::END {
        return Err(refused(p, left));
    }
    if kind == kinds::COMMA {
        return sequence(p, nested, code, start, left);
    }
    if let Some(op) = assign_op(kind) {
        return assignment(p, nested, code, start, op, left);
    }
    if kind == kinds::QUESTION_MARK {
        return question(p, nested, code, start, left);
    }
    if let Some(op) = binary_op(code, kind) {
        if !made::fits_left(kind, &left) {
            return Err(refused(p, left));
        }
        return binary(p, nested, code, start, op, left);
    }
    if let Some(op) = update_op(kind) {
        return postfix(p, start, op, left);
    }
    if left.level < CALL {
        return Err(refused(p, left));
    }
    match kind {
        kinds::LEFT_PAREN => call(p, nested, code, start, left),
        kinds::LEFT_BRACKET => index(p, nested, code, start, left),
        kinds::DOT => member(p, nested, code, start, left),
        kinds::BACK_QUOTE if !made::is_chain(&left) => tagged(p, nested, code, start, left),
        _ => Err(refused(p, left)),
    }
}

/// One operator behind what was read, if it binds as tightly as asked. Whether there was one.
#[inline(always)]
#[tactic(auto, unfolding(grammar_spec::specs::Reader::Expressions::loop_step))]
pub fn turn<'a, I: Tokens<'a> + Drop, N: Nested<'a, I>>(
    p: &mut Parser<'a, I>,
    nested: &N,
    code: Around,
    least: u8,
    start: BytePos,
    left: Operand,
) -> Result<(bool, Operand), Failure>
    requires ready { N.ready nested.now }
    ensures value { ReadsBy I.machine I.state (N.reads nested.now) p.old p.new result
        (λ x. going_on x.0 (tree_of x.1))
        (λ m r. reads.loop_step m r (code_of code) least start.0 (tree_of left)) }
    ensures shorter { IfOk result (λ x. IsTrue x.0 → to_come I.machine I.state p.new
        < to_come I.machine I.state p.old) }
    ensures not_longer { NotLonger I.machine I.state p.old p.new result }
{
    let left = Held { value: left };
    let level = p.goes(code, left.value.end)?;
    if level < least {
        return Ok((false, left.take()));
    }
    let found = step(p, nested, code, start, left.take())?;
    Ok((true, found))
}

/// All operators behind an operand that bind as tightly as asked.
#[inline(never)]
#[tactic(auto, using(parse_state::proofs::Iterate::iterates), unfolding(grammar_spec::specs::Reader::Expressions::loop_by))]
pub fn operators<'a, I: Tokens<'a> + Drop, N: Nested<'a, I>>(
    p: &mut Parser<'a, I>,
    nested: &N,
    code: Around,
    least: u8,
    start: BytePos,
    first: Operand,
) -> Result<Operand, Failure>
    requires ready { N.ready nested.now }
    ensures value { ReadsBy I.machine I.state (N.reads nested.now) p.old p.new result
        tree_of (λ m r. reads.loop_by m r (code_of code) least start.0 (tree_of first)) }
    ensures not_longer { NotLonger I.machine I.state p.old p.new result }
{
    if first.level < least {
        if first.level == NEW_LEVEL && least == MEMBER {
            return Ok(first);
        }
        return Err(refused(p, first));
    }
    let mut left = first;
    'turns: loop {
        let (more, found) = turn(p, nested, code, least, start, left)?;
        left = found;
        if !more {
            return Ok(left);
        }
    }
}
