//! Operators, members and calls.
ghost use Rattle.std.specs.Prelude.{◌≡◌, ◌≢◌, false, true, All, IfOk, IsTrue, map};
ghost use Rattle.base_token.specs.OperatorKinds.{assign_op_kind, binary_op_kind};
ghost use Rattle.grammar_spec.specs.Tokens.Input.{kind, kind2, lo};
ghost use Rattle.tree_nodes.specs.Fits.{fits_expr_or_spread, fits_member_prop};
ghost use Rattle.tree_nodes.specs.Placed.{holds_expr, inner};
ghost use Rattle.tree_nodes.specs.View.{view_member_prop};
ghost use Rattle.grammar_spec.specs.Reader.Expressions as reads;
ghost use Rattle.parse_state.specs.Answers.{going_on};
ghost use Rattle.parse_state.specs.Codes.{code_of};
ghost use Rattle.parse_state.specs.Reads.{at_hand, Shorter};
ghost use Rattle.parse_operands.specs.Lists.{arguments_of, elements_of, FitArguments, FitElements};
ghost use Rattle.parse_operands.specs.Operands.{tree_of};
ghost use Rattle.parse_operands.specs.Rules.{ReadsBy};

use base_token::{AssignOp, BinaryOp, BytePos};
use parse_operands::elements::arguments;
use parse_operands::names::{computed, private_name};
use parse_operands::operators::{assign_op, binary_op, update_op};
use parse_operands::{Held, Nested, Operand, made};
use parse_state::code::with_in;
use parse_state::operators::{
    ASSIGNMENT, CALL, COALESCE, EXPRESSION, MEMBER, NEW_LEVEL, UNARY, right_level,
};
use parse_state::{Around, Failure, Parser, Tokens, kinds};
use tree_nodes::{IdentName, MemberProp};

/// `? :` after its test.
#[inline(never)]
#[tactic(auto, unfolding(grammar_spec::specs::Reader::Expressions::cond_by))]
pub fn conditional<'a, I: Tokens<'a> + Drop, N: Nested<'a, I>>(
    p: &mut Parser<'a, I>,
    nested: &N,
    code: Around,
    start: BytePos,
    test: Operand,
) -> Result<Operand, Failure>
    requires ready { N.ready nested.now }
    ensures value { ReadsBy I.machine I.state (N.reads nested.now) p.old p.new result
        tree_of (λ m r. reads.cond_by m r (code_of code) start.0 (tree_of test)) }
    ensures shorter { Shorter I.machine I.state p.old p.new result }
{
    let test = Held { value: test };
    p.bump()?;
    let cons = nested.expr(p, with_in(code), ASSIGNMENT)?;
    let cons = Held { value: cons };
    p.expect(kinds::COLON)?;
    let alt = nested.expr(p, code, ASSIGNMENT)?;
    made::cond_expr(p.alloc, p.since(start), test.take(), cons.take(), alt)
}

/// A binary operator and its right operand, after the left one.
#[inline(never)]
#[tactic(auto, unfolding(grammar_spec::specs::Reader::Expressions::binary_by))]
pub fn binary<'a, I: Tokens<'a> + Drop, N: Nested<'a, I>>(
    p: &mut Parser<'a, I>,
    nested: &N,
    code: Around,
    start: BytePos,
    op: BinaryOp,
    left: Operand,
) -> Result<Operand, Failure>
    requires ready { N.ready nested.now }
    requires op { binary_op_kind op ≡ kind (at_hand I.machine I.state p.old) }
    requires some { kind (at_hand I.machine I.state p.old) ≢ 0 }
    ensures value { ReadsBy I.machine I.state (N.reads nested.now) p.old p.new result
        tree_of (λ m r. reads.binary_by m r (code_of code) start.0 (tree_of left)) }
    ensures shorter { Shorter I.machine I.state p.old p.new result }
{
    let left = Held { value: left };
    let kind = p.kind();
    p.eat_word(code, kind)?;
    let right = nested.expr(p, code, right_level(kind))?;
    made::bin_expr(p.alloc, p.since(start), op, kind, left.take(), right)
}

/// An assignment, after its target.
#[inline(never)]
#[tactic(auto, unfolding(grammar_spec::specs::Reader::Expressions::assign_by))]
pub fn assignment<'a, I: Tokens<'a> + Drop, N: Nested<'a, I>>(
    p: &mut Parser<'a, I>,
    nested: &N,
    code: Around,
    start: BytePos,
    op: AssignOp,
    left: Operand,
) -> Result<Operand, Failure>
    requires ready { N.ready nested.now }
    requires op { assign_op_kind op ≡ kind (at_hand I.machine I.state p.old) }
    ensures value { ReadsBy I.machine I.state (N.reads nested.now) p.old p.new result
        tree_of (λ m r. reads.assign_by m r (code_of code) start.0 (tree_of left)) }
    ensures shorter { Shorter I.machine I.state p.old p.new result }
{
    let target = nested.target(p, p.kind(), left)?;
    p.bump()?;
    let right = nested.expr(p, code, ASSIGNMENT)?;
    made::assign_expr(p.alloc, p.since(start), op, target, right)
}

/// What follows a dot: a name, or a private one.
#[inline(never)]
#[tactic(auto, unfolding(grammar_spec::specs::Reader::Expressions::member_name))]
pub fn member_name<'a, I: Tokens<'a> + Drop, N: Nested<'a, I>>(
    p: &mut Parser<'a, I>,
    nested: &N,
) -> Result<MemberProp, Failure>
    requires ready { N.ready nested.now }
    ensures value { ReadsBy I.machine I.state (N.reads nested.now) p.old p.new result
        (view_member_prop inner) (λ m r. reads.member_name m r true) }
    ensures fits { IfOk result (λ x. fits_member_prop (λ p. p) x) }
    ensures shorter { Shorter I.machine I.state p.old p.new result }
{
    if p.at(kinds::HASH) {
        return Ok(MemberProp::PrivateName(private_name(p, nested)?));
    }
    let span = p.place();
    let sym = p.any_word()?;
    Ok(MemberProp::Ident(IdentName { span, sym }))
}

/// A member by its name, after its object.
#[inline(never)]
#[tactic(auto, unfolding(grammar_spec::specs::Reader::Expressions::member_by))]
pub fn member<'a, I: Tokens<'a> + Drop, N: Nested<'a, I>>(
    p: &mut Parser<'a, I>,
    nested: &N,
    _code: Around,
    start: BytePos,
    obj: Operand,
) -> Result<Operand, Failure>
    requires ready { N.ready nested.now }
    ensures value { ReadsBy I.machine I.state (N.reads nested.now) p.old p.new result
        tree_of (λ m r. reads.member_by m r (code_of _code) start.0 (tree_of obj)) }
    ensures shorter { Shorter I.machine I.state p.old p.new result }
{
    p.bump()?;
    let prop = member_name(p, nested)?;
    made::member_of(p.alloc, p.since(start), obj, prop)
}

/// A member in brackets, after its object.
#[inline(never)]
#[tactic(auto, unfolding(grammar_spec::specs::Reader::Expressions::index_by))]
pub fn index<'a, I: Tokens<'a> + Drop, N: Nested<'a, I>>(
    p: &mut Parser<'a, I>,
    nested: &N,
    code: Around,
    start: BytePos,
    obj: Operand,
) -> Result<Operand, Failure>
    requires ready { N.ready nested.now }
    ensures value { ReadsBy I.machine I.state (N.reads nested.now) p.old p.new result
        tree_of (λ m r. reads.index_by m r (code_of code) start.0 (tree_of obj)) }
    ensures shorter { Shorter I.machine I.state p.old p.new result }
{
    let key = computed(p, nested, code, EXPRESSION)?;
    made::member_of(p.alloc, p.since(start), obj, MemberProp::Computed(key))
}

/// A call, after its callee.
#[inline(never)]
#[tactic(auto, using(parse_operands::proofs::Packs::packs), unfolding(grammar_spec::specs::Reader::Expressions::call_by))]
pub fn call<'a, I: Tokens<'a> + Drop, N: Nested<'a, I>>(
    p: &mut Parser<'a, I>,
    nested: &N,
    code: Around,
    start: BytePos,
    callee: Operand,
) -> Result<Operand, Failure>
    requires ready { N.ready nested.now }
    ensures value { ReadsBy I.machine I.state (N.reads nested.now) p.old p.new result
        tree_of (λ m r. reads.call_by m r (code_of code) start.0 (tree_of callee)) }
    ensures shorter { Shorter I.machine I.state p.old p.new result }
{
    p.bump()?;
    let args = arguments(p, nested, code)?;
    made::call_of(p.alloc, p.since(start), callee, args)
}

/// What follows `?.`, after its object.
#[inline(never)]
#[tactic(auto, using(parse_operands::proofs::Packs::packs), unfolding(grammar_spec::specs::Reader::Expressions::chain_by))]
pub fn chain<'a, I: Tokens<'a> + Drop, N: Nested<'a, I>>(
    p: &mut Parser<'a, I>,
    nested: &N,
    code: Around,
    start: BytePos,
    obj: Operand,
) -> Result<Operand, Failure>
    requires ready { N.ready nested.now }
    ensures value { ReadsBy I.machine I.state (N.reads nested.now) p.old p.new result
        tree_of (λ m r. reads.chain_by m r (code_of code) start.0 (tree_of obj)) }
    ensures shorter { Shorter I.machine I.state p.old p.new result }
{
    let obj = Held { value: obj };
    if p.eat(kinds::LEFT_PAREN)? {
        let args = arguments(p, nested, code)?;
        return made::chain_call(p.alloc, p.since(start), true, obj.take(), args);
    }
    if p.at(kinds::LEFT_BRACKET) {
        let key = computed(p, nested, code, EXPRESSION)?;
        return made::chain_member(
            p.alloc,
            p.since(start),
            true,
            obj.take(),
            MemberProp::Computed(key),
        );
    }
    let prop = member_name(p, nested)?;
    made::chain_member(p.alloc, p.since(start), true, obj.take(), prop)
}
