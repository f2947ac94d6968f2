//! Parameters without their parentheses (ECMA-262, 15.1).
ghost use Rattle.std.specs.Prelude.{◌≡◌, ◌<◌, All, IfOk, IsTrue, map};
ghost use Rattle.tree_nodes.specs.Fits.{fits_param};
ghost use Rattle.tree_nodes.specs.Placed.{inner};
ghost use Rattle.tree_nodes.specs.View.{view_param};
ghost use Rattle.parse_state.specs.Answers.{going_on};
ghost use Rattle.parse_state.specs.Codes.{code_of};
ghost use Rattle.parse_state.specs.Cursors.{stream_of};
ghost use Rattle.parse_state.specs.States.{state_of};
ghost use Rattle.parse_state.specs.Reads.{to_come, NotLonger};
ghost use Rattle.parse_operands.specs.Rules.{ReadsBy};
ghost use Rattle.parse_alone.specs.Parts as parts;

use parse_functions::functions::{is_rest, parameter};
use parse_operands::Nested;
use parse_state::{Around, Failure, Parser, Tokens, kinds};
use tree_nodes::Param;

/// Whether a parameter may start here: a name, a pattern or dots.
pub fn starts_param<'a, I: Tokens<'a> + Drop>(p: &Parser<'a, I>, code: Around) -> bool
    ensures { result ≡ parts.starts_param (stream_of I.machine) (code_of code) (state_of I.state p.now) }
{
    p.is_name(code)
        || (p.at(kinds::LEFT_BRACKET) || (p.at(kinds::LEFT_BRACE) || p.at(kinds::DOT_DOT_DOT)))
}

/// One more parameter and the comma behind it, where one may stand. Whether another may follow.
#[inline(never)]
#[tactic(auto, unfolding(crate::specs::Parts::bare_step))]
pub fn bare_turn<'a, I: Tokens<'a> + Drop, N: Nested<'a, I>>(
    p: &mut Parser<'a, I>,
    nested: &N,
    code: Around,
    params: &mut Vec<Param>,
) -> Result<bool, Failure>
    requires ready { N.ready nested.now }
    requires fits { All (λ x. fits_param (λ p. p) x) params.old.items }
    ensures value { ReadsBy I.machine I.state (N.reads nested.now) p.old p.new result
        (λ x. going_on x (map (view_param inner) params.new.items))
        (λ m r. parts.bare_step m r (code_of code) (map (view_param inner) params.old.items)) }
    ensures fits { IfOk result (λ _. All (λ x. fits_param (λ p. p) x) params.new.items) }
    ensures shorter { IfOk result (λ b. IsTrue b → to_come I.machine I.state p.new < to_come I.machine I.state p.old) }
    ensures not_longer { NotLonger I.machine I.state p.old p.new result }
{
    if !starts_param(p, code) {
        return Ok(false);
    }
    let param = parameter(p, nested, code)?;
    let rest = is_rest(p, nested, &param);
    params.push(param)?;
    if !rest && p.eat(kinds::COMMA)? {
        return Ok(true);
    }
    Ok(false)
}

/// The parameters that stand here.
#[inline(never)]
#[tactic(auto, using(parse_state::proofs::Iterate::iterates), unfolding(crate::specs::Parts::bare_by))]
pub fn bare_params<'a, I: Tokens<'a> + Drop, N: Nested<'a, I>>(
    p: &mut Parser<'a, I>,
    nested: &N,
    code: Around,
) -> Result<Vec<Param>, Failure>
    requires ready { N.ready nested.now }
    ensures value { ReadsBy I.machine I.state (N.reads nested.now) p.old p.new result
        (λ x. map (view_param inner) x.items) (λ m r. parts.bare_by m r (code_of code)) }
    ensures fits { IfOk result (λ x. All (λ x. fits_param (λ p. p) x) x.items) }
    ensures not_longer { NotLonger I.machine I.state p.old p.new result }
{
    let mut params = Vec::new(p.alloc);
    'turns: while bare_turn(p, nested, code, &mut params)? {}
    Ok(params)
}
