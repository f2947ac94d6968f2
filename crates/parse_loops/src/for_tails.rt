//! What follows the heads of `for`.
ghost use Rattle.std.specs.Prelude.{◌<◌, false, IfOk};
ghost use Rattle.tree_nodes.specs.Fits.{fits_for_head, fits_held, fits_var_decl_or_expr};
ghost use Rattle.tree_nodes.specs.Placed.{holds_stmt, inner};
ghost use Rattle.tree_nodes.specs.View.{view_for_head, view_var_decl_or_expr};
ghost use Rattle.tree_spec.specs.Tree.{part_by};
ghost use Rattle.grammar_spec.specs.Reader.Statements as reads;
ghost use Rattle.parse_state.specs.Codes.{code_of};
ghost use Rattle.parse_state.specs.Reads.{Shorter};
ghost use Rattle.parse_operands.specs.Operands.{tree_of, tree_in};
ghost use Rattle.parse_operands.specs.Rules.{ReadsBy};
ghost use Rattle.parse_loops.specs.Heads.{over_by};

use crate::made;
use base_token::BytePos;
use parse_blocks::parts::sub;
use parse_operands::{Nested, Operand};
use parse_state::operators::{ASSIGNMENT, EXPRESSION};
use parse_state::{Around, Failure, Parser, Tokens, kinds};
use tree_nodes::{ForHead, StmtBox, VarDeclOrExpr};

/// An expression that may be left out, and what follows it.
#[inline(never)]
#[tactic(auto, unfolding(grammar_spec::specs::Reader::Statements::clause_by))]
pub fn clause<'a, I: Tokens<'a> + Drop, N: Nested<'a, I>>(
    p: &mut Parser<'a, I>,
    nested: &N,
    code: Around,
    close: u8,
) -> Result<Option<Operand>, Failure>
    requires ready { N.ready nested.now }
    requires close { 0 < close }
    ensures value { ReadsBy I.machine I.state (N.reads nested.now) p.old p.new result
        (part_by tree_of) (λ m r. reads.clause_by m r (code_of code) close) }
    ensures shorter { Shorter I.machine I.state p.old p.new result }
{
    if p.eat(close)? {
        return Ok(None);
    }
    let read = nested.expr(p, code, EXPRESSION)?;
    p.expect(close)?;
    Ok(Some(read))
}

/// From the first semicolon on.
#[inline(never)]
#[tactic(auto, unfolding(grammar_spec::specs::Reader::Statements::for_rest))]
pub fn for_rest<'a, I: Tokens<'a> + Drop, N: Nested<'a, I>>(
    p: &mut Parser<'a, I>,
    nested: &N,
    code: Around,
    start: BytePos,
    init: Option<VarDeclOrExpr>,
) -> Result<StmtBox, Failure>
    requires ready { N.ready nested.now }
    requires init { fits_held (λ x. fits_var_decl_or_expr (λ p. p) x) init }
    ensures value { ReadsBy I.machine I.state (N.reads nested.now) p.old p.new result
        tree_in
        (λ m r. reads.for_rest m r (code_of code) start.0 (part_by (view_var_decl_or_expr inner) init)) }
    ensures holds { IfOk result (λ x. holds_stmt x.part.value) }
    ensures shorter { Shorter I.machine I.state p.old p.new result }
{
    p.expect(kinds::SEMICOLON)?;
    let test = clause(p, nested, code, kinds::SEMICOLON)?;
    let update = clause(p, nested, code, kinds::RIGHT_PAREN)?;
    let body = sub(p, nested, code, false)?;
    made::for_stmt(p.alloc, p.since(start), init, test, update, body)
}

/// What is iterated over, and the body.
#[inline(always)]
pub fn over<'a, I: Tokens<'a> + Drop, N: Nested<'a, I>>(
    p: &mut Parser<'a, I>,
    nested: &N,
    code: Around,
    level: u8,
) -> Result<(Operand, StmtBox), Failure>
    requires ready { N.ready nested.now }
    ensures value { ReadsBy I.machine I.state (N.reads nested.now) p.old p.new result
        (λ x. (tree_of x.0, inner x.1.part.value)) (λ m r. over_by m r (code_of code) level) }
    ensures fits { IfOk result (λ x. holds_stmt x.1.part.value) }
    ensures shorter { Shorter I.machine I.state p.old p.new result }
{
    let right = nested.expr(p, code, level)?;
    p.expect(kinds::RIGHT_PAREN)?;
    let body = sub(p, nested, code, false)?;
    Ok((right, body))
}

/// From `in` on.
#[inline(never)]
#[tactic(auto, unfolding(grammar_spec::specs::Reader::Statements::in_rest, grammar_spec::specs::Reader::Statements::over_rest))]
pub fn in_rest<'a, I: Tokens<'a> + Drop, N: Nested<'a, I>>(
    p: &mut Parser<'a, I>,
    nested: &N,
    code: Around,
    start: BytePos,
    left: ForHead,
) -> Result<StmtBox, Failure>
    requires ready { N.ready nested.now }
    requires left { fits_for_head (λ p. p) left }
    ensures value { ReadsBy I.machine I.state (N.reads nested.now) p.old p.new result
        tree_in
        (λ m r. reads.in_rest m r (code_of code) start.0 (view_for_head inner left)) }
    ensures holds { IfOk result (λ x. holds_stmt x.part.value) }
    ensures shorter { Shorter I.machine I.state p.old p.new result }
{
    p.eat_word(code, kinds::IN)?;
    let (right, body) = over(p, nested, code, EXPRESSION)?;
    made::for_in_stmt(p.alloc, p.since(start), left, right, body)
}

/// From `of` on.
#[inline(never)]
#[tactic(auto, unfolding(grammar_spec::specs::Reader::Statements::of_rest, grammar_spec::specs::Reader::Statements::over_rest))]
pub fn of_rest<'a, I: Tokens<'a> + Drop, N: Nested<'a, I>>(
    p: &mut Parser<'a, I>,
    nested: &N,
    code: Around,
    start: BytePos,
    awaits: bool,
    left: ForHead,
) -> Result<StmtBox, Failure>
    requires ready { N.ready nested.now }
    requires left { fits_for_head (λ p. p) left }
    ensures value { ReadsBy I.machine I.state (N.reads nested.now) p.old p.new result
        tree_in
        (λ m r. reads.of_rest m r (code_of code) start.0 awaits (view_for_head inner left)) }
    ensures holds { IfOk result (λ x. holds_stmt x.part.value) }
    ensures shorter { Shorter I.machine I.state p.old p.new result }
{
    p.eat_word(code, kinds::OF)?;
    let (right, body) = over(p, nested, code, ASSIGNMENT)?;
    made::for_of_stmt(p.alloc, p.since(start), awaits, left, right, body)
}
