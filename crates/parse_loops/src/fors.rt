//! `for` (ECMA-262, 14.7.4 and 14.7.5).
ghost use Rattle.std.specs.Prelude.{◌≡◌, ◌==◌, ◌&&◌, ℕ, List, if◌then◌else◌, not, false, true, IfErr, IfOk};
ghost use Rattle.base_token.specs.Kinds.{of_kind};
ghost use Rattle.grammar_spec.specs.Tokens.Input.{kind2, rest};
ghost use Rattle.tree_nodes.specs.Placed.{holds_pat, holds_stmt, inner};
ghost use Rattle.grammar_spec.specs.Reader.Source as spec;
ghost use Rattle.grammar_spec.specs.Reader.Cover.{to_head, to_item};
ghost use Rattle.grammar_spec.specs.Reader.Statements as reads;
ghost use Rattle.parse_state.specs.Answers.{Gives, IsMemory};
ghost use Rattle.parse_state.specs.Codes.{code_of};
ghost use Rattle.parse_state.specs.Cursors.{stream_of};
ghost use Rattle.parse_state.specs.States.{state_of};
ghost use Rattle.parse_state.specs.Reads.{at_hand, Shorter};
ghost use Rattle.parse_operands.specs.Operands.{tree_of, tree_in};
ghost use Rattle.parse_operands.specs.Rules.{ReadsBy};
ghost use Rattle.parse_loops.specs.Fors.{bars_of, for_target, using_head};

use crate::for_heads::{for_using, for_variables};
use crate::for_tails::{for_rest, in_rest, of_rest};
use base_token::BytePos;
use parse_blocks::starts::{starts_await_using, starts_let, starts_using};
use parse_operands::{Nested, Operand};
use parse_refine::items::item;
use parse_state::code::without_in;
use parse_state::operators::EXPRESSION;
use parse_state::{Around, Failure, Parser, Tokens, kinds};
use tree_nodes::{ExprKind, ForHead, PatBox, StmtBox, VarDeclKind, VarDeclOrExpr};

/// Whether an expression is an assignment, which heads no `for`.
fn is_assignment(expr: &Operand) -> bool
    ensures { (commas : List ℕ) → to_head commas (tree_of expr.now)
        ≡ (if result then spec.unfit else to_item false commas (tree_of expr.now)) }
{
    matches!(&expr.expr.get().kind, ExprKind::Assign(_))
}

/// What was read as an expression, as what a `for` with `in` or `of` assigns to.
#[inline(never)]
pub fn head<'a, I: Tokens<'a> + Drop>(p: &Parser<'a, I>, expr: Operand) -> Result<PatBox, Failure>
    ensures value { Gives (λ x. inner x.part.value) 0 result (to_head (state_of I.state p.now).commas (tree_of expr)) }
    ensures holds { IfOk result (λ x. holds_pat x.part.value) }
{
    if is_assignment(&expr) {
        return Err(p.unexpected());
    }
    item(p.alloc, false, p.commas.as_slice(), expr.expr)
}

/// What follows the expression that heads a `for`. Some may not stand before `of`.
#[inline(never)]
pub fn target<'a, I: Tokens<'a> + Drop, N: Nested<'a, I>>(
    p: &mut Parser<'a, I>,
    nested: &N,
    code: Around,
    start: BytePos,
    awaits: bool,
    barred: bool,
    expr: Operand,
) -> Result<StmtBox, Failure>
    requires ready { N.ready nested.now }
    ensures value { ReadsBy I.machine I.state (N.reads nested.now) p.old p.new result
        tree_in (λ m r. for_target m r (code_of code) start.0 awaits barred (tree_of expr)) }
    ensures holds { IfOk result (λ x. holds_stmt x.part.value) }
    ensures shorter { Shorter I.machine I.state p.old p.new result }
{
    if p.at(kinds::OF) {
        if barred {
            return Err(p.unexpected());
        }
        let left = head(p, expr)?;
        return of_rest(p, nested, code, start, awaits, ForHead::Pat(left));
    }
    if awaits {
        return Err(p.unexpected());
    }
    if p.at(kinds::IN) {
        let left = head(p, expr)?;
        return in_rest(p, nested, code, start, ForHead::Pat(left));
    }
    for_rest(p, nested, code, start, Some(VarDeclOrExpr::Expr(expr.expr)))
}

/// Whether the token that comes may not start what stands before `of`: `let`, and `async` before `of` itself.
#[inline(never)]
fn is_barred<'a, I: Tokens<'a> + Drop>(p: &Parser<'a, I>, awaits: bool) -> Result<bool, Failure>
    ensures value { IfOk result (λ b. b ≡ bars_of (stream_of I.machine) awaits (state_of I.state p.now)) }
    ensures full { IfErr result IsMemory }
{
    if p.at(kinds::LET) {
        return Ok(true);
    }
    if awaits || !p.at(kinds::ASYNC) {
        return Ok(false);
    }
    let (second, _) = p.second()?;
    Ok(second == kinds::OF)
}

/// An expression that heads a `for`, and what follows.
#[inline(always)]
#[tactic(auto, unfolding(grammar_spec::specs::Reader::Statements::for_expression, grammar_spec::specs::Reader::Statements::for_expression_rest))]
pub fn for_expression<'a, I: Tokens<'a> + Drop, N: Nested<'a, I>>(
    p: &mut Parser<'a, I>,
    nested: &N,
    code: Around,
    start: BytePos,
    awaits: bool,
) -> Result<StmtBox, Failure>
    requires ready { N.ready nested.now }
    ensures value { ReadsBy I.machine I.state (N.reads nested.now) p.old p.new result
        tree_in (λ m r. reads.for_expression m r (code_of code) start.0 awaits) }
    ensures holds { IfOk result (λ x. holds_stmt x.part.value) }
    ensures shorter { Shorter I.machine I.state p.old p.new result }
{
    let barred = is_barred(p, awaits)?;
    if p.at(kinds::LET) && p.second()?.0 == kinds::LEFT_BRACKET {
        return Err(p.unexpected());
    }
    let expr = nested.expr(p, without_in(code), EXPRESSION)?;
    target(p, nested, code, start, awaits, barred, expr)
}

/// Whether `using` declares in the head of a `for`: it is no name before `of`.
///
/// # Errors
///
/// Want of memory.
#[inline(never)]
fn heads_using<'a, I: Tokens<'a> + Drop, N: Nested<'a, I>>(
    p: &Parser<'a, I>,
    nested: &N,
    code: Around,
) -> Result<bool, Failure>
    ensures value { IfOk result (λ b. b ≡ (reads.starts_using (stream_of I.machine)
        (N.reads nested.now I.State I.machine) (code_of code) (state_of I.state p.now)
        && not (kind2 (at_hand I.machine I.state p.now) == of_kind))) }
    ensures full { IfErr result IsMemory }
{
    if !p.at(kinds::USING) || !starts_using(p, nested, code)? {
        return Ok(false);
    }
    let (second, _) = p.second()?;
    Ok(second != kinds::OF)
}

/// Whether `await using` declares in the head of a `for`: `using` is no name before `of`.
///
/// # Errors
///
/// Want of memory.
#[inline(never)]
fn heads_await_using<'a, I: Tokens<'a> + Drop, N: Nested<'a, I>>(
    p: &Parser<'a, I>,
    nested: &N,
    code: Around,
) -> Result<bool, Failure>
    ensures value { IfOk result (λ b. b ≡ (reads.starts_await_using (stream_of I.machine)
        (N.reads nested.now I.State I.machine) (code_of code) (state_of I.state p.now)
        && not (kind2 (rest (at_hand I.machine I.state p.now)) == of_kind))) }
    ensures full { IfErr result IsMemory }
{
    if !starts_await_using(p, nested, code)? {
        return Ok(false);
    }
    let (name, _) = p.third()?;
    Ok(name != kinds::OF)
}

/// The head of a `for` that begins with `using`, or with an expression.
#[inline(always)]
#[tactic(auto, unfolding(crate::specs::Fors::using_head))]
pub fn using_head<'a, I: Tokens<'a> + Drop, N: Nested<'a, I>>(
    p: &mut Parser<'a, I>,
    nested: &N,
    code: Around,
    start: BytePos,
    awaits: bool,
) -> Result<StmtBox, Failure>
    requires ready { N.ready nested.now }
    ensures value { ReadsBy I.machine I.state (N.reads nested.now) p.old p.new result
        tree_in (λ m r. using_head m r (code_of code) start.0 awaits) }
    ensures holds { IfOk result (λ x. holds_stmt x.part.value) }
    ensures shorter { Shorter I.machine I.state p.old p.new result }
{
    let own = p.lo();
    if heads_using(p, nested, code)? {
        return for_using(p, nested, code, start, awaits, own, false);
    }
    if heads_await_using(p, nested, code)? {
        p.bump()?;
        return for_using(p, nested, code, start, awaits, own, true);
    }
    for_expression(p, nested, code, start, awaits)
}

/// The head of a `for`, after its parenthesis.
#[inline(always)]
#[tactic(auto, unfolding(grammar_spec::specs::Reader::Statements::for_head, crate::specs::Fors::using_head))]
pub fn for_head<'a, I: Tokens<'a> + Drop, N: Nested<'a, I>>(
    p: &mut Parser<'a, I>,
    nested: &N,
    code: Around,
    start: BytePos,
    awaits: bool,
) -> Result<StmtBox, Failure>
    requires ready { N.ready nested.now }
    ensures value { ReadsBy I.machine I.state (N.reads nested.now) p.old p.new result
        tree_in (λ m r. reads.for_head m r (code_of code) start.0 awaits) }
    ensures holds { IfOk result (λ x. holds_stmt x.part.value) }
    ensures shorter { Shorter I.machine I.state p.old p.new result }
{
    if p.at(kinds::SEMICOLON) {
        if awaits {
            return Err(p.unexpected());
        }
        return for_rest(p, nested, code, start, None);
    }
    if p.at(kinds::VAR) {
        return for_variables(p, nested, code, start, awaits, VarDeclKind::Var);
    }
    if p.at(kinds::CONST) {
        return for_variables(p, nested, code, start, awaits, VarDeclKind::Const);
    }
    if starts_let(p, nested)? {
        return for_variables(p, nested, code, start, awaits, VarDeclKind::Let);
    }
    using_head(p, nested, code, start, awaits)
}

/// `for`.
#[inline(never)]
#[tactic(auto, unfolding(grammar_spec::specs::Reader::Statements::for_by))]
pub fn for_loop<'a, I: Tokens<'a> + Drop, N: Nested<'a, I>>(
    p: &mut Parser<'a, I>,
    nested: &N,
    code: Around,
) -> Result<StmtBox, Failure>
    requires ready { N.ready nested.now }
    ensures value { ReadsBy I.machine I.state (N.reads nested.now) p.old p.new result
        tree_in (λ m r. reads.for_by m r (code_of code)) }
    ensures holds { IfOk result (λ x. holds_stmt x.part.value) }
    ensures shorter { Shorter I.machine I.state p.old p.new result }
{
    let start = p.lo();
    p.eat_word(code, kinds::FOR)?;
    if !p.at(kinds::AWAIT) {
        p.expect(kinds::LEFT_PAREN)?;
        return for_head(p, nested, code, start, false);
    }
    if !code.context.in_async {
        return Err(p.unexpected());
    }
    p.eat_word(code, kinds::AWAIT)?;
    p.expect(kinds::LEFT_PAREN)?;
    for_head(p, nested, code, start, true)
}
