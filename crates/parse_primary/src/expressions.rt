//! Whole expressions.
ghost use Rattle.std.specs.Prelude.{◌≡◌, false, true};
ghost use Rattle.grammar_spec.specs.Reader.Expressions as reads;
ghost use Rattle.parse_state.specs.Codes.{code_of};
ghost use Rattle.parse_state.specs.Reads.{Shorter};
ghost use Rattle.parse_operands.specs.Operands.{tree_of};
ghost use Rattle.parse_operands.specs.Rules.{ReadsBy};

use crate::prefixes::prefix;
use base_token::BinaryOp;
use parse_expressions::operators::binary;
use parse_expressions::turns::operators;
use parse_operands::names::private_name;
use parse_operands::{Nested, Operand, made};
use parse_state::operators::binary_level;
use parse_state::{Around, Failure, Parser, Tokens, kinds};

/// `#x in`, where a relation may stand, and the operators behind it (ECMA-262, 13.10).
#[inline(never)]
#[tactic(auto, unfolding(grammar_spec::specs::Reader::Expressions::private_in))]
pub fn private_in<'a, I: Tokens<'a> + Drop, N: Nested<'a, I>>(
    p: &mut Parser<'a, I>,
    nested: &N,
    code: Around,
    level: u8,
) -> Result<Operand, Failure>
    requires ready { N.ready nested.now }
    ensures value { ReadsBy I.machine I.state (N.reads nested.now) p.old p.new result
        tree_of (λ m r. reads.private_in m r (code_of code) level) }
    ensures shorter { Shorter I.machine I.state p.old p.new result }
{
    let start = p.lo();
    let name = private_name(p, nested)?;
    if !p.at(kinds::IN) || !code.context.include_in_expr || binary_level(kinds::IN) < level {
        return Err(p.unexpected());
    }
    let left = made::private_operand(p.alloc, name)?;
    let first = binary(p, nested, code, start, BinaryOp::In, left)?;
    operators(p, nested, code, level, start, first)
}

/// An expression of a level or a tighter one, whose first token is read as what starts one.
#[inline(always)]
#[tactic(auto, unfolding(grammar_spec::specs::Reader::Expressions::expr_from))]
pub fn expr_from<'a, I: Tokens<'a> + Drop, N: Nested<'a, I>>(
    p: &mut Parser<'a, I>,
    nested: &N,
    code: Around,
    level: u8,
) -> Result<Operand, Failure>
    requires ready { N.ready nested.now }
    ensures value { ReadsBy I.machine I.state (N.reads nested.now) p.old p.new result
        tree_of (λ m r. reads.expr_from m r (code_of code) level) }
    ensures shorter { Shorter I.machine I.state p.old p.new result }
{
    if p.at(kinds::HASH) {
        return private_in(p, nested, code, level);
    }
    let start = p.lo();
    let first = prefix(p, nested, code, level)?;
    operators(p, nested, code, level, start, first)
}

/// An expression of a level or a tighter one.
#[inline(never)]
#[tactic(auto, unfolding(grammar_spec::specs::Reader::Expressions::expr_by))]
pub fn expr<'a, I: Tokens<'a> + Drop, N: Nested<'a, I>>(
    p: &mut Parser<'a, I>,
    nested: &N,
    code: Around,
    level: u8,
) -> Result<Operand, Failure>
    requires ready { N.ready nested.now }
    ensures value { ReadsBy I.machine I.state (N.reads nested.now) p.old p.new result
        tree_of (λ m r. reads.expr_by m r (code_of code) level) }
    ensures shorter { Shorter I.machine I.state p.old p.new result }
{
    p.operand()?;
    expr_from(p, nested, code, level)
}
