//! Literals, words with a meaning of their own, and prefix operators.
ghost use Rattle.std.specs.Prelude.{◌≡◌, ◌≢◌, false, true, All, IsTrue, map};
ghost use Rattle.base_token.specs.OperatorKinds.{assign_op_kind, binary_op_kind};
ghost use Rattle.grammar_spec.specs.Tokens.Input.{kind, kind2, lo, first_span, span};
ghost use Rattle.tree_nodes.specs.Fits.{fits_expr_or_spread, fits_member_prop};
ghost use Rattle.tree_nodes.specs.Placed.{holds_expr, inner};
ghost use Rattle.tree_nodes.specs.View.{unary_op_word, update_op_word};
ghost use Rattle.grammar_spec.specs.Reader.Expressions as reads;
ghost use Rattle.parse_state.specs.Answers.{going_on};
ghost use Rattle.parse_state.specs.Codes.{code_of};
ghost use Rattle.parse_state.specs.Cursors.{stream_of};
ghost use Rattle.parse_state.specs.Reads.{at_hand, ReadsAs, Shorter, NotLonger};
ghost use Rattle.parse_operands.specs.Lists.{arguments_of, elements_of, FitArguments, FitElements};
ghost use Rattle.parse_operands.specs.Operands.{tree_of};
ghost use Rattle.parse_operands.specs.Rules.{ReadsBy};
ghost use Rattle.parse_expressions.specs.Words.{fixed_word};

use base_token::{BytePos, Error, Span, SyntaxError, Token};
use parse_operands::elements::{arguments, elements};
use parse_operands::names::computed;
use parse_operands::{Nested, Operand, literals, made};
use parse_state::operators::{ASSIGNMENT, EXPRESSION, MEMBER, UNARY};
use parse_state::{Around, Failure, Parser, Tokens, kinds};
use std::convert::AsStr;
use tree_nodes::{IdentName, SuperProp, UnaryOp, UpdateOp};

/// A literal.
#[inline(never)]
#[tactic(auto, unfolding(grammar_spec::specs::Reader::Expressions::literal_by, parse_state::specs::Cursors::stream_of))]
pub fn literal<'a, I: Tokens<'a> + Drop, N: Nested<'a, I>>(
    p: &mut Parser<'a, I>,
    _nested: &N,
) -> Result<Operand, Failure>
    requires ready { N.ready _nested.now }
    ensures value { ReadsBy I.machine I.state (N.reads _nested.now) p.old p.new result
        tree_of (λ m r. reads.literal_by m r) }
    ensures shorter { Shorter I.machine I.state p.old p.new result }
{
    let span = p.place();
    let fault = p.unexpected();
    if !p.is_literal() {
        return Err(fault);
    }
    let Some(token) = p.take()? else {
        return Err(fault);
    };
    match token.into_token() {
        Token::Str { units, raw } => literals::str_lit(p.alloc, span, units, raw),
        Token::Num { value, raw } => literals::number_lit(p.alloc, span, value, raw),
        Token::BigInt { radix, digits, raw } => {
            literals::big_int_lit(p.alloc, span, radix, digits.as_str(), raw)
        }
        Token::Regex(exp, flags) => literals::regex_lit(p.alloc, span, exp, flags),
        _ => Err(fault),
    }
}

/// Takes a word that is a word of the grammar here, for its place.
#[tactic(auto, unfolding(crate::specs::Words::fixed_word))]
pub fn fixed<'a, I: Tokens<'a> + Drop>(p: &mut Parser<'a, I>, code: Around) -> Result<Span, Failure>
    requires { kind (at_hand I.machine I.state p.old) ≢ 0 }
    ensures value { ReadsAs I.machine I.state p.old p.new result
        (λ x. x) (λ m. fixed_word m (code_of code)) }
    ensures shorter { Shorter I.machine I.state p.old p.new result }
{
    let start = p.lo();
    p.eat_word(code, p.kind())?;
    Ok(p.since(start))
}

/// An operator that stands before its operand.
#[inline(never)]
#[tactic(auto, unfolding(grammar_spec::specs::Reader::Expressions::unary_by))]
pub fn unary<'a, I: Tokens<'a> + Drop, N: Nested<'a, I>>(
    p: &mut Parser<'a, I>,
    nested: &N,
    code: Around,
    op: UnaryOp,
) -> Result<Operand, Failure>
    requires ready { N.ready nested.now }
    requires op { unary_op_word op ≡ kind (at_hand I.machine I.state p.old) }
    requires some { kind (at_hand I.machine I.state p.old) ≢ 0 }
    ensures value { ReadsBy I.machine I.state (N.reads nested.now) p.old p.new result
        tree_of (λ m r. reads.unary_by m r (code_of code)) }
    ensures shorter { Shorter I.machine I.state p.old p.new result }
{
    let start = p.lo();
    p.eat_word(code, p.kind())?;
    let arg = nested.expr(p, code, UNARY)?;
    made::unary_expr(p.alloc, p.since(start), op, arg)
}

/// `++` or `--` before its operand.
#[inline(never)]
#[tactic(auto, unfolding(grammar_spec::specs::Reader::Expressions::update_by))]
pub fn update<'a, I: Tokens<'a> + Drop, N: Nested<'a, I>>(
    p: &mut Parser<'a, I>,
    nested: &N,
    code: Around,
    op: UpdateOp,
) -> Result<Operand, Failure>
    requires ready { N.ready nested.now }
    requires op { update_op_word op ≡ kind (at_hand I.machine I.state p.old) }
    ensures value { ReadsBy I.machine I.state (N.reads nested.now) p.old p.new result
        tree_of (λ m r. reads.update_by m r (code_of code)) }
    ensures shorter { Shorter I.machine I.state p.old p.new result }
{
    let start = p.lo();
    p.bump()?;
    let arg = nested.expr(p, code, UNARY)?;
    made::prefix_expr(p.alloc, p.since(start), op, arg)
}

/// `await` with its operand.
#[inline(never)]
#[tactic(auto, unfolding(grammar_spec::specs::Reader::Expressions::await_by))]
pub fn awaited<'a, I: Tokens<'a> + Drop, N: Nested<'a, I>>(
    p: &mut Parser<'a, I>,
    nested: &N,
    code: Around,
) -> Result<Operand, Failure>
    requires ready { N.ready nested.now }
    ensures value { ReadsBy I.machine I.state (N.reads nested.now) p.old p.new result
        tree_of (λ m r. reads.await_by m r (code_of code)) }
    ensures shorter { Shorter I.machine I.state p.old p.new result }
{
    let start = p.lo();
    p.eat_word(code, kinds::AWAIT)?;
    let arg = nested.expr(p, code, UNARY)?;
    made::await_expr(p.alloc, p.since(start), arg)
}

/// Whether a kind ends an expression, so that no operand starts with it.
pub fn ends_yield<'a, I: Tokens<'a> + Drop, N: Nested<'a, I>>(
    _p: &Parser<'a, I>,
    _nested: &N,
    kind: u8,
) -> bool
    ensures { result ≡ reads.ends_yield (stream_of I.machine) (N.reads _nested.now I.State I.machine) kind }
{
    matches!(
        kind,
        kinds::END
            | kinds::RIGHT_PAREN
            | kinds::RIGHT_BRACKET
            | kinds::RIGHT_BRACE
            | kinds::COMMA
            | kinds::SEMICOLON
            | kinds::COLON
            | kinds::IN
    )
}

/// What follows `yield`.
#[inline(never)]
#[tactic(auto, unfolding(grammar_spec::specs::Reader::Expressions::yield_end))]
pub fn yield_end<'a, I: Tokens<'a> + Drop, N: Nested<'a, I>>(
    p: &mut Parser<'a, I>,
    nested: &N,
    code: Around,
    start: BytePos,
) -> Result<Operand, Failure>
    requires ready { N.ready nested.now }
    ensures value { ReadsBy I.machine I.state (N.reads nested.now) p.old p.new result
        tree_of (λ m r. reads.yield_end m r (code_of code) start.0) }
    ensures not_longer { NotLonger I.machine I.state p.old p.new result }
{
    if p.breaks() || ends_yield(p, nested, p.kind()) {
        return made::bare_yield(p.alloc, p.since(start));
    }
    if p.eat(kinds::MUL)? {
        let arg = nested.expr(p, code, ASSIGNMENT)?;
        return made::yield_expr(p.alloc, p.since(start), arg, true);
    }
    let arg = nested.expr(p, code, ASSIGNMENT)?;
    made::yield_expr(p.alloc, p.since(start), arg, false)
}

/// An array, from its bracket on.
#[inline(never)]
#[tactic(auto, using(parse_operands::proofs::Packs::packs), unfolding(grammar_spec::specs::Reader::Expressions::array_by))]
pub fn array<'a, I: Tokens<'a> + Drop, N: Nested<'a, I>>(
    p: &mut Parser<'a, I>,
    nested: &N,
    code: Around,
) -> Result<Operand, Failure>
    requires ready { N.ready nested.now }
    ensures value { ReadsBy I.machine I.state (N.reads nested.now) p.old p.new result
        tree_of (λ m r. reads.array_by m r (code_of code)) }
    ensures shorter { Shorter I.machine I.state p.old p.new result }
{
    let start = p.lo();
    p.bump()?;
    let list = elements(p, nested, code)?;
    let span = p.since(start);
    if list.comma && list.rest {
        p.note(start.0)?;
    }
    made::array_lit(p.alloc, span, list.items)
}

/// The callee of `new`.
#[inline(never)]
#[tactic(auto, unfolding(grammar_spec::specs::Reader::Expressions::callee_by))]
pub fn callee<'a, I: Tokens<'a> + Drop, N: Nested<'a, I>>(
    p: &mut Parser<'a, I>,
    nested: &N,
    code: Around,
) -> Result<Operand, Failure>
    requires ready { N.ready nested.now }
    ensures value { ReadsBy I.machine I.state (N.reads nested.now) p.old p.new result
        tree_of (λ m r. reads.callee_by m r (code_of code)) }
    ensures shorter { Shorter I.machine I.state p.old p.new result }
{
    if p.at(kinds::ASYNC) {
        let (second, _) = p.second()?;
        if second == kinds::LEFT_PAREN {
            let span = p.place();
            let sym = p.name(code)?;
            return made::name(p.alloc, span, sym);
        }
    }
    nested.expr(p, code, MEMBER)
}

/// What follows `super`.
#[inline(never)]
#[tactic(auto, using(parse_operands::proofs::Packs::packs), unfolding(grammar_spec::specs::Reader::Expressions::super_end))]
pub fn super_end<'a, I: Tokens<'a> + Drop, N: Nested<'a, I>>(
    p: &mut Parser<'a, I>,
    nested: &N,
    code: Around,
    place: Span,
) -> Result<Operand, Failure>
    requires ready { N.ready nested.now }
    ensures value { ReadsBy I.machine I.state (N.reads nested.now) p.old p.new result
        tree_of (λ m r. reads.super_end m r (code_of code) place) }
    ensures shorter { Shorter I.machine I.state p.old p.new result }
{
    if p.eat(kinds::LEFT_PAREN)? {
        let args = arguments(p, nested, code)?;
        return made::super_call(p.alloc, p.since(place.lo), place, args);
    }
    if p.at(kinds::LEFT_BRACKET) {
        let key = computed(p, nested, code, EXPRESSION)?;
        return made::super_prop_expr(p.alloc, p.since(place.lo), place, SuperProp::Computed(key));
    }
    p.expect(kinds::DOT)?;
    let span = p.place();
    let private = p.at(kinds::HASH);
    let sym = match p.any_word() {
        Ok(sym) => sym,
        Err(Failure::Syntax(_)) if private => {
            let kind = SyntaxError::InvalidSuperPrivateName;
            return Err(Failure::Syntax(Error { span, kind }));
        }
        Err(failure) => return Err(failure),
    };
    made::super_prop_expr(
        p.alloc,
        p.since(place.lo),
        place,
        SuperProp::Ident(IdentName { span, sym }),
    )
}

/// `yield`, with its operand or without.
#[inline(never)]
#[tactic(auto, unfolding(grammar_spec::specs::Reader::Expressions::yield_by))]
pub fn yielded<'a, I: Tokens<'a> + Drop, N: Nested<'a, I>>(
    p: &mut Parser<'a, I>,
    nested: &N,
    code: Around,
) -> Result<Operand, Failure>
    requires ready { N.ready nested.now }
    ensures value { ReadsBy I.machine I.state (N.reads nested.now) p.old p.new result
        tree_of (λ m r. reads.yield_by m r (code_of code)) }
    ensures shorter { Shorter I.machine I.state p.old p.new result }
{
    let start = p.lo();
    p.eat_word(code, kinds::YIELD)?;
    yield_end(p, nested, code, start)
}
