//! What starts an expression (ECMA-262, 13.2 to 13.5).
ghost use Rattle.std.specs.Prelude.{◌≡◌, false, true};
ghost use Rattle.grammar_spec.specs.Reader.Expressions as reads;
ghost use Rattle.parse_state.specs.Codes.{code_of};
ghost use Rattle.parse_state.specs.Reads.{Shorter};
ghost use Rattle.parse_operands.specs.Operands.{tree_of};
ghost use Rattle.parse_operands.specs.Rules.{ReadsBy};
ghost use Rattle.parse_primary.specs.Words as words;

use crate::words::keyword;
use parse_arrows::groups::group;
use parse_expressions::prefixes::{array, literal, unary, update};
use parse_expressions::templates::template;
use parse_objects::objects::object;
use parse_operands::operators::{unary_op, update_op};
use parse_operands::{Nested, Operand, literals};
use parse_state::{Around, Failure, Parser, Tokens, kinds};

/// An operator before its operand, or a literal.
#[inline(never)]
#[tactic(auto, unfolding(crate::specs::Words::operator_mark))]
pub fn operator_mark<'a, I: Tokens<'a> + Drop, N: Nested<'a, I>>(
    p: &mut Parser<'a, I>,
    nested: &N,
    code: Around,
) -> Result<Operand, Failure>
    requires ready { N.ready nested.now }
    ensures value { ReadsBy I.machine I.state (N.reads nested.now) p.old p.new result
        tree_of (λ m r. words.operator_mark m r (code_of code)) }
    ensures shorter { Shorter I.machine I.state p.old p.new result }
{
    if let Some(op) = unary_op(p.kind()) {
        return unary(p, nested, code, op);
    }
    if let Some(op) = update_op(p.kind()) {
        return update(p, nested, code, op);
    }
    literal(p, nested)
}

/// An array, an object or a template, or another mark.
#[inline(never)]
#[tactic(auto, unfolding(crate::specs::Words::list_mark))]
pub fn list_mark<'a, I: Tokens<'a> + Drop, N: Nested<'a, I>>(
    p: &mut Parser<'a, I>,
    nested: &N,
    code: Around,
) -> Result<Operand, Failure>
    requires ready { N.ready nested.now }
    ensures value { ReadsBy I.machine I.state (N.reads nested.now) p.old p.new result
        tree_of (λ m r. words.list_mark m r (code_of code)) }
    ensures shorter { Shorter I.machine I.state p.old p.new result }
{
    if p.at(kinds::LEFT_BRACKET) {
        return array(p, nested, code);
    }
    if p.at(kinds::LEFT_BRACE) {
        return object(p, nested, code);
    }
    if p.at(kinds::BACK_QUOTE) {
        let tpl = template(p, nested, code, false)?;
        return literals::template(p.alloc, tpl);
    }
    operator_mark(p, nested, code)
}

/// What starts an expression, up to the operators behind it.
#[inline(always)]
#[tactic(auto, unfolding(grammar_spec::specs::Reader::Expressions::prefix_by, crate::specs::Words::list_mark, crate::specs::Words::operator_mark))]
pub fn prefix<'a, I: Tokens<'a> + Drop, N: Nested<'a, I>>(
    p: &mut Parser<'a, I>,
    nested: &N,
    code: Around,
    level: u8,
) -> Result<Operand, Failure>
    requires ready { N.ready nested.now }
    ensures value { ReadsBy I.machine I.state (N.reads nested.now) p.old p.new result
        tree_of (λ m r. reads.prefix_by m r (code_of code) level) }
    ensures shorter { Shorter I.machine I.state p.old p.new result }
{
    if p.is_word() {
        return keyword(p, nested, code, level);
    }
    if p.at(kinds::LEFT_PAREN) {
        return group(p, nested, code, level);
    }
    list_mark(p, nested, code)
}
