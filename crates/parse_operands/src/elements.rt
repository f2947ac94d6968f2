//! Elements of arrays, and arguments.
ghost use Rattle.std.specs.Prelude.{◌≡◌, false, true, ◌<◌, All, IfOk, IsTrue, map};
ghost use Rattle.base_token.specs.OperatorKinds.{assign_op_kind, binary_op_kind};
ghost use Rattle.base_token.specs.Kinds.{right_bracket_kind, right_paren_kind};
ghost use Rattle.parse_operands.specs.Elements.{after_item};
ghost use Rattle.tree_nodes.specs.Fits.{fits_expr_or_spread, fits_member_prop};
ghost use Rattle.tree_nodes.specs.Placed.{holds_expr, inner};
ghost use Rattle.tree_nodes.specs.View.{view_expr_or_spread};
ghost use Rattle.grammar_spec.specs.Reader.Expressions as reads;
ghost use Rattle.parse_state.specs.Answers.{going_on};
ghost use Rattle.parse_state.specs.Codes.{code_of};
ghost use Rattle.parse_state.specs.Reads.{ReadsAs, Shorter};
ghost use Rattle.parse_operands.specs.Lists.{arguments_of, elements_of, FitArguments, FitElements, TellsRest};
ghost use Rattle.parse_operands.specs.Operands.{tree_of};
ghost use Rattle.parse_operands.specs.Rules.{ReadsBy};

use crate::Nested;
use crate::lists::{Arguments, Elements};
use parse_state::code::with_in;
use parse_state::operators::ASSIGNMENT;
use parse_state::{Around, Failure, Parser, Tokens, kinds};
use tree_nodes::ExprOrSpread;

/// An element, after dots where it is spread.
#[inline(always)]
#[tactic(auto, unfolding(grammar_spec::specs::Reader::Expressions::element_by))]
pub fn element<'a, I: Tokens<'a> + Drop, N: Nested<'a, I>>(
    p: &mut Parser<'a, I>,
    nested: &N,
    code: Around,
) -> Result<ExprOrSpread, Failure>
    requires ready { N.ready nested.now }
    ensures value { ReadsBy I.machine I.state (N.reads nested.now) p.old p.new result
        (view_expr_or_spread inner) (λ m r. reads.element_by m r (code_of code)) }
    ensures fits { IfOk result (λ x. fits_expr_or_spread (λ p. p) x) }
    ensures shorter { Shorter I.machine I.state p.old p.new result }
{
    let start = p.lo();
    let place = p.place();
    if p.eat(kinds::DOT_DOT_DOT)? {
        let read = nested.expr(p, with_in(code), ASSIGNMENT)?;
        return Ok(ExprOrSpread {
            span: p.since(start),
            spread: Some(place),
            expr: read.expr,
        });
    }
    let read = nested.expr(p, with_in(code), ASSIGNMENT)?;
    Ok(ExprOrSpread {
        span: p.since(start),
        spread: None,
        expr: read.expr,
    })
}

/// Whether a list goes on with a comma; else takes what closes it.
#[tactic(auto, unfolding(crate::specs::Elements::after_item))]
pub fn goes_on<'a, I: Tokens<'a> + Drop>(p: &mut Parser<'a, I>, close: u8) -> Result<bool, Failure>
    requires { 0 < close }
    ensures value { ReadsAs I.machine I.state p.old p.new result
        (λ b. b) (λ m. after_item m close) }
    ensures shorter { Shorter I.machine I.state p.old p.new result }
{
    if p.eat(kinds::COMMA)? {
        return Ok(true);
    }
    p.expect(close)?;
    Ok(false)
}

/// One more element or hole of an array, or its end. Whether another may follow.
#[inline(always)]
#[tactic(auto, using(crate::proofs::Packs::rests_more), unfolding(grammar_spec::specs::Reader::Expressions::element_step, grammar_spec::specs::Reader::Expressions::after_element, crate::specs::Elements::after_item))]
pub fn array_turn<'a, I: Tokens<'a> + Drop, N: Nested<'a, I>>(
    p: &mut Parser<'a, I>,
    nested: &N,
    code: Around,
    list: &mut Elements,
) -> Result<bool, Failure>
    requires ready { N.ready nested.now }
    requires fits { FitElements list.old }
    requires rest { TellsRest list.old }
    ensures value { ReadsBy I.machine I.state (N.reads nested.now) p.old p.new result
        (λ x. going_on x (elements_of list.new))
        (λ m r. reads.element_step m r (code_of code) true right_bracket_kind (elements_of list.old)) }
    ensures fits { IfOk result (λ _. FitElements list.new) }
    ensures rest { IfOk result (λ _. TellsRest list.new) }
    ensures shorter { Shorter I.machine I.state p.old p.new result }
{
    if p.eat(kinds::RIGHT_BRACKET)? {
        return Ok(false);
    }
    if p.eat(kinds::COMMA)? {
        list.items.push(None)?;
        list.comma = false;
        list.rest = false;
        return Ok(true);
    }
    let item = element(p, nested, code)?;
    list.rest = item.spread.is_some();
    list.items.push(Some(item))?;
    list.comma = goes_on(p, kinds::RIGHT_BRACKET)?;
    Ok(list.comma)
}

/// The elements of an array, after its bracket.
#[inline(never)]
#[tactic(auto, using(parse_state::proofs::Iterate::iterates), unfolding(grammar_spec::specs::Reader::Expressions::elements_by))]
pub fn elements<'a, I: Tokens<'a> + Drop, N: Nested<'a, I>>(
    p: &mut Parser<'a, I>,
    nested: &N,
    code: Around,
) -> Result<Elements, Failure>
    requires ready { N.ready nested.now }
    ensures value { ReadsBy I.machine I.state (N.reads nested.now) p.old p.new result
        elements_of (λ m r. reads.elements_by m r (code_of code) true right_bracket_kind) }
    ensures fits { IfOk result (λ x. FitElements x) }
    ensures rest { IfOk result (λ x. TellsRest x) }
    ensures shorter { Shorter I.machine I.state p.old p.new result }
{
    let mut list = Elements {
        items: Vec::new(p.alloc),
        comma: false,
        rest: false,
    };
    'turns: while array_turn(p, nested, code, &mut list)? {}
    Ok(list)
}

/// One more argument, or the end of the arguments. Whether another may follow.
#[inline(always)]
#[tactic(auto, unfolding(grammar_spec::specs::Reader::Expressions::element_step, grammar_spec::specs::Reader::Expressions::after_element, crate::specs::Elements::after_item))]
pub fn argument_turn<'a, I: Tokens<'a> + Drop, N: Nested<'a, I>>(
    p: &mut Parser<'a, I>,
    nested: &N,
    code: Around,
    list: &mut Arguments,
) -> Result<bool, Failure>
    requires ready { N.ready nested.now }
    requires fits { FitArguments list.old }
    ensures value { ReadsBy I.machine I.state (N.reads nested.now) p.old p.new result
        (λ x. going_on x (arguments_of list.new))
        (λ m r. reads.element_step m r (code_of code) false right_paren_kind (arguments_of list.old)) }
    ensures fits { IfOk result (λ _. FitArguments list.new) }
    ensures shorter { Shorter I.machine I.state p.old p.new result }
{
    if p.eat(kinds::RIGHT_PAREN)? {
        return Ok(false);
    }
    let item = element(p, nested, code)?;
    list.items.push(item)?;
    list.comma = goes_on(p, kinds::RIGHT_PAREN)?;
    Ok(list.comma)
}

/// What stands between parentheses, after the first.
#[inline(never)]
#[tactic(auto, using(parse_state::proofs::Iterate::iterates), unfolding(grammar_spec::specs::Reader::Expressions::elements_by))]
pub fn group_items<'a, I: Tokens<'a> + Drop, N: Nested<'a, I>>(
    p: &mut Parser<'a, I>,
    nested: &N,
    code: Around,
) -> Result<Arguments, Failure>
    requires ready { N.ready nested.now }
    ensures value { ReadsBy I.machine I.state (N.reads nested.now) p.old p.new result
        arguments_of (λ m r. reads.elements_by m r (code_of code) false right_paren_kind) }
    ensures fits { IfOk result (λ x. FitArguments x) }
    ensures shorter { Shorter I.machine I.state p.old p.new result }
{
    let mut list = Arguments {
        items: Vec::new(p.alloc),
        comma: false,
    };
    'turns: while argument_turn(p, nested, code, &mut list)? {}
    Ok(list)
}

/// The arguments of a call, after their parenthesis.
#[tactic(auto, unfolding(grammar_spec::specs::Reader::Expressions::arguments_by))]
pub fn arguments<'a, I: Tokens<'a> + Drop, N: Nested<'a, I>>(
    p: &mut Parser<'a, I>,
    nested: &N,
    code: Around,
) -> Result<Vec<ExprOrSpread>, Failure>
    requires ready { N.ready nested.now }
    ensures value { ReadsBy I.machine I.state (N.reads nested.now) p.old p.new result
        (λ x. map (view_expr_or_spread inner) x.items)
        (λ m r. reads.arguments_by m r (code_of code)) }
    ensures fits { IfOk result (λ x. All (λ x. fits_expr_or_spread (λ p. p) x) x.items) }
    ensures shorter { Shorter I.machine I.state p.old p.new result }
{
    let list = group_items(p, nested, code)?;
    Ok(list.items)
}
