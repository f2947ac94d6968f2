//! The word `async`: of a function, of an arrow, or a name.
ghost use Rattle.std.specs.Prelude.{◌≡◌, ◌≢◌, false, true, IfOk};
ghost use Rattle.grammar_spec.specs.Tokens.Input.{brk, kind, kind2, span};
ghost use Rattle.grammar_spec.specs.Reader.Source as spec;
ghost use Rattle.grammar_spec.specs.Reader.Expressions as reads;
ghost use Rattle.parse_state.specs.Codes.{code_of};
ghost use Rattle.parse_state.specs.Cursors.{stream_of};
ghost use Rattle.parse_state.specs.States.{state_of};
ghost use Rattle.parse_operands.specs.Operands.{tree_of};
ghost use Rattle.std.specs.Prelude.{not, ◌&&◌, ◌==◌, nat_le, IfErr};
ghost use Rattle.grammar_spec.specs.Tokens.Input.{brk2};
ghost use Rattle.grammar_spec.specs.Tokens.Operators.{assignment_level};
ghost use Rattle.base_token.specs.Kinds.{arrow_kind, async_kind};
ghost use Rattle.parse_state.specs.Answers.{IsMemory};
ghost use Rattle.parse_state.specs.Reads.{at_hand, Shorter, NotLonger};
ghost use Rattle.parse_operands.specs.Rules.{ReadsBy};
ghost use Rattle.parse_arrows.specs.Asyncs.{async_arrow, async_end};

use crate::arrows::{arrow, ident_end, is_arrow};
use crate::function_expressions::function_operand;
use crate::made;
use base_token::{Atom, Span};
use parse_functions::group_items;
use parse_operands::{Nested, Operand};
use parse_state::code::with_in;
use parse_state::operators::ASSIGNMENT;
use parse_state::{Around, Failure, Parser, Tokens, kinds};

/// `async` and a parenthesis: a call, or the parameters of an arrow.
#[inline(always)]
#[tactic(auto, using(parse_operands::proofs::Packs::packs), unfolding(grammar_spec::specs::Reader::Expressions::async_group))]
pub fn call_or_arrow<'a, I: Tokens<'a> + Drop, N: Nested<'a, I>>(
    p: &mut Parser<'a, I>,
    nested: &N,
    code: Around,
    level: u8,
    place: Span,
    sym: Atom,
) -> Result<Operand, Failure>
    requires ready { N.ready nested.now }
    ensures value { ReadsBy I.machine I.state (N.reads nested.now) p.old p.new result
        tree_of (λ m r. reads.async_group m r (code_of code) level place sym) }
    ensures shorter { Shorter I.machine I.state p.old p.new result }
{
    let breaks = p.breaks();
    p.bump()?;
    let list = group_items(p, nested, with_in(code))?;
    if !breaks && is_arrow(p, nested, level) && nested.are_params(p, &list) {
        let params = nested.params(p, list)?;
        return arrow(p, nested, code, place.lo, true, params);
    }
    let callee = parse_operands::made::name(p.alloc, place, sym)?;
    parse_operands::made::call_expr(p.alloc, p.since(place.lo), callee, list.items)
}

/// Whether a name comes that is the one parameter of an arrow, all on one line.
#[inline(never)]
#[tactic(auto)]
fn is_param<'a, I: Tokens<'a> + Drop>(
    p: &Parser<'a, I>,
    code: Around,
    level: u8,
) -> Result<bool, Failure>
    ensures value { IfOk result (λ b. b ≡ (spec.is_name (stream_of I.machine) (code_of code)
        (state_of I.state p.now)
        && ((not (brk (at_hand I.machine I.state p.now))
        && (kind2 (at_hand I.machine I.state p.now) == arrow_kind)
        && not (brk2 (at_hand I.machine I.state p.now))) && nat_le level assignment_level))) }
    ensures full { IfErr result IsMemory }
{
    if !p.is_name(code) || p.breaks() {
        return Ok(false);
    }
    let (second, breaks) = p.second()?;
    Ok(second == kinds::ARROW && !breaks && level <= ASSIGNMENT)
}

/// The parameter and the rest of an arrow behind `async`.
#[inline(always)]
#[tactic(auto, unfolding(crate::specs::Asyncs::async_arrow))]
pub fn async_arrow<'a, I: Tokens<'a> + Drop, N: Nested<'a, I>>(
    p: &mut Parser<'a, I>,
    nested: &N,
    code: Around,
    place: Span,
) -> Result<Operand, Failure>
    requires ready { N.ready nested.now }
    ensures value { ReadsBy I.machine I.state (N.reads nested.now) p.old p.new result
        tree_of (λ m r. async_arrow m r (code_of code) place.lo.0) }
    ensures shorter { Shorter I.machine I.state p.old p.new result }
{
    let span = p.place();
    let sym = p.name(code)?;
    let params = made::one_param(p.alloc, span, sym)?;
    arrow(p, nested, code, place.lo, true, params)
}

/// What follows `async`.
#[inline(always)]
#[tactic(auto, unfolding(crate::specs::Asyncs::async_end, crate::specs::Asyncs::async_arrow))]
pub fn async_end<'a, I: Tokens<'a> + Drop, N: Nested<'a, I>>(
    p: &mut Parser<'a, I>,
    nested: &N,
    code: Around,
    level: u8,
    place: Span,
    sym: Atom,
) -> Result<Operand, Failure>
    requires ready { N.ready nested.now }
    ensures value { ReadsBy I.machine I.state (N.reads nested.now) p.old p.new result
        tree_of (λ m r. async_end m r (code_of code) level place sym) }
    ensures not_longer { NotLonger I.machine I.state p.old p.new result }
{
    if p.at(kinds::FUNCTION) && !p.breaks() && !p.is_barred(code.context) {
        return function_operand(p, nested, code, place.lo, true);
    }
    if is_param(p, code, level)? {
        return async_arrow(p, nested, code, place);
    }
    if p.at(kinds::LEFT_PAREN) && !p.breaks() {
        return call_or_arrow(p, nested, code, level, place, sym);
    }
    ident_end(p, nested, code, level, place, sym)
}

/// The word `async`, and what follows it.
#[inline(never)]
pub fn async_expr<'a, I: Tokens<'a> + Drop, N: Nested<'a, I>>(
    p: &mut Parser<'a, I>,
    nested: &N,
    code: Around,
    level: u8,
) -> Result<Operand, Failure>
    requires ready { N.ready nested.now }
    requires word { kind (at_hand I.machine I.state p.old) ≡ async_kind }
    ensures value { ReadsBy I.machine I.state (N.reads nested.now) p.old p.new result
        tree_of (λ m r. reads.async_by m r (code_of code) level) }
    ensures shorter { Shorter I.machine I.state p.old p.new result }
{
    let place = p.place();
    let sym = Atom::new(p.alloc, p.text())?;
    p.bump()?;
    async_end(p, nested, code, level, place, sym)
}
