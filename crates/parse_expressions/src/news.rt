//! `new`.
ghost use Rattle.grammar_spec.specs.Reader.Expressions as reads;
ghost use Rattle.parse_state.specs.Codes.{code_of};
ghost use Rattle.parse_state.specs.Reads.{ReadsAs, Shorter, NotLonger};
ghost use Rattle.parse_operands.specs.Operands.{tree_of};
ghost use Rattle.parse_operands.specs.Rules.{ReadsBy};
ghost use Rattle.parse_expressions.specs.News as pieces;

use crate::prefixes::callee;
use base_token::BytePos;
use parse_operands::elements::arguments;
use parse_operands::{Nested, Operand, made};
use parse_state::operators::{CALL, MEMBER, NEW_LEVEL, OTHER_END};
use parse_state::{Around, Failure, Parser, Tokens, kinds};
use tree_nodes::MetaPropKind;

/// The arguments of `new`, after what is called.
#[inline(never)]
#[tactic(auto, using(parse_operands::proofs::Packs::packs), unfolding(crate::specs::News::new_call_by))]
pub fn new_call<'a, I: Tokens<'a> + Drop, N: Nested<'a, I>>(
    p: &mut Parser<'a, I>,
    nested: &N,
    code: Around,
    start: BytePos,
    f: Operand,
) -> Result<Operand, Failure>
    requires ready { N.ready nested.now }
    ensures value { ReadsBy I.machine I.state (N.reads nested.now) p.old p.new result
        tree_of (λ m r. pieces.new_call_by m r (code_of code) start.0 (tree_of f)) }
    ensures shorter { Shorter I.machine I.state p.old p.new result }
{
    p.bump()?;
    let args = arguments(p, nested, code)?;
    made::new_expr(p.alloc, p.since(start), f, args)
}

/// `new` without arguments, after what is called.
#[inline(never)]
#[tactic(auto, unfolding(crate::specs::News::bare_new_by))]
pub fn bare_new<'a, I: Tokens<'a> + Drop>(
    p: &Parser<'a, I>,
    code: Around,
    start: BytePos,
    f: Operand,
) -> Result<Operand, Failure>
    ensures value { ReadsAs I.machine I.state p.now p.now result
        tree_of (λ m. pieces.bare_new_by m (code_of code) start.0 (tree_of f)) }
{
    let goes = p.goes(code, OTHER_END)?;
    if (f.level >= MEMBER || f.level == NEW_LEVEL) && goes < CALL {
        return made::bare_new(p.alloc, p.since(start), f);
    }
    Err(p.unexpected())
}

/// What follows the callee of `new`.
#[inline(never)]
#[tactic(auto, unfolding(grammar_spec::specs::Reader::Expressions::new_end, crate::specs::News::new_call_by, crate::specs::News::bare_new_by))]
pub fn new_end<'a, I: Tokens<'a> + Drop, N: Nested<'a, I>>(
    p: &mut Parser<'a, I>,
    nested: &N,
    code: Around,
    start: BytePos,
    f: Operand,
) -> Result<Operand, Failure>
    requires ready { N.ready nested.now }
    ensures value { ReadsBy I.machine I.state (N.reads nested.now) p.old p.new result
        tree_of (λ m r. reads.new_end m r (code_of code) start.0 (tree_of f)) }
    ensures not_longer { NotLonger I.machine I.state p.old p.new result }
{
    if p.at(kinds::LEFT_PAREN) && f.level >= MEMBER {
        return new_call(p, nested, code, start, f);
    }
    bare_new(p, code, start, f)
}

/// `new`, with arguments or without, or `new.target`.
#[inline(never)]
#[tactic(auto, unfolding(grammar_spec::specs::Reader::Expressions::new_by))]
pub fn new_expr<'a, I: Tokens<'a> + Drop, N: Nested<'a, I>>(
    p: &mut Parser<'a, I>,
    nested: &N,
    code: Around,
) -> Result<Operand, Failure>
    requires ready { N.ready nested.now }
    ensures value { ReadsBy I.machine I.state (N.reads nested.now) p.old p.new result
        tree_of (λ m r. reads.new_by m r (code_of code)) }
    ensures shorter { Shorter I.machine I.state p.old p.new result }
{
    let start = p.lo();
    p.eat_word(code, kinds::NEW)?;
    if p.eat(kinds::DOT)? {
        p.eat_word(code, kinds::TARGET)?;
        return made::meta_prop_expr(p.alloc, p.since(start), MetaPropKind::NewTarget);
    }
    let f = callee(p, nested, code)?;
    new_end(p, nested, code, start, f)
}
