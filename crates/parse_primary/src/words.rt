//! Words that start an expression (ECMA-262, 13.2 to 13.5).
ghost use Rattle.std.specs.Prelude.{◌≡◌, false, true};
ghost use Rattle.base_token.specs.Kinds.{async_kind};
ghost use Rattle.grammar_spec.specs.Tokens.Input.{is_word, kind};
ghost use Rattle.grammar_spec.specs.Reader.Source as spec;
ghost use Rattle.grammar_spec.specs.Reader.Expressions as reads;
ghost use Rattle.parse_state.specs.Codes.{code_of};
ghost use Rattle.parse_state.specs.Cursors.{stream_of};
ghost use Rattle.parse_state.specs.States.{state_of};
ghost use Rattle.parse_state.specs.Reads.{at_hand, Shorter};
ghost use Rattle.parse_operands.specs.Operands.{tree_of};
ghost use Rattle.parse_operands.specs.Rules.{ReadsBy};
ghost use Rattle.parse_primary.specs.Words as words;

use crate::imports::import;
use parse_arrows::arrows::ident_end;
use parse_arrows::asyncs::async_expr;
use parse_arrows::function_expressions::function_operand;
use parse_classes::classes::class_operand;
use parse_expressions::news::new_expr;
use parse_expressions::prefixes::{awaited, fixed, super_end, unary, yielded};
use parse_operands::operators::unary_op;
use parse_operands::{Nested, Operand, made};
use parse_state::{Around, Failure, Parser, Tokens, kinds};

/// A name, which may be the one parameter of an arrow.
#[inline(never)]
#[tactic(auto, unfolding(grammar_spec::specs::Reader::Expressions::word_by))]
fn named<'a, I: Tokens<'a> + Drop, N: Nested<'a, I>>(
    p: &mut Parser<'a, I>,
    nested: &N,
    code: Around,
    level: u8,
) -> Result<Operand, Failure>
    requires ready { N.ready nested.now }
    requires other { spec.at (stream_of I.machine) async_kind (state_of I.state p.old) ≡ false }
    ensures value { ReadsBy I.machine I.state (N.reads nested.now) p.old p.new result
        tree_of (λ m r. reads.word_by m r (code_of code) level) }
    ensures shorter { Shorter I.machine I.state p.old p.new result }
{
    let place = p.place();
    let sym = p.name(code)?;
    ident_end(p, nested, code, level, place, sym)
}

/// A name, or what the word `async` starts.
#[inline(always)]
#[tactic(auto, unfolding(grammar_spec::specs::Reader::Expressions::word_by))]
pub fn word<'a, I: Tokens<'a> + Drop, N: Nested<'a, I>>(
    p: &mut Parser<'a, I>,
    nested: &N,
    code: Around,
    level: u8,
) -> Result<Operand, Failure>
    requires ready { N.ready nested.now }
    ensures value { ReadsBy I.machine I.state (N.reads nested.now) p.old p.new result
        tree_of (λ m r. reads.word_by m r (code_of code) level) }
    ensures shorter { Shorter I.machine I.state p.old p.new result }
{
    if p.at(kinds::ASYNC) {
        return async_expr(p, nested, code, level);
    }
    named(p, nested, code, level)
}

/// `super` with what follows it.
#[inline(never)]
pub fn super_expr<'a, I: Tokens<'a> + Drop, N: Nested<'a, I>>(
    p: &mut Parser<'a, I>,
    nested: &N,
    code: Around,
) -> Result<Operand, Failure>
    requires ready { N.ready nested.now }
    ensures value { ReadsBy I.machine I.state (N.reads nested.now) p.old p.new result
        tree_of (λ m r. words.super_by m r (code_of code)) }
    ensures shorter { Shorter I.machine I.state p.old p.new result }
{
    let place = p.place();
    p.eat_word(code, kinds::SUPER)?;
    super_end(p, nested, code, place)
}

/// An operator that is a word with its operand, or any other word.
#[inline(always)]
pub fn operator_word<'a, I: Tokens<'a> + Drop, N: Nested<'a, I>>(
    p: &mut Parser<'a, I>,
    nested: &N,
    code: Around,
    level: u8,
) -> Result<Operand, Failure>
    requires ready { N.ready nested.now }
    requires word { is_word (kind (at_hand I.machine I.state p.old)) ≡ true }
    ensures value { ReadsBy I.machine I.state (N.reads nested.now) p.old p.new result
        tree_of (λ m r. words.operator_word m r (code_of code) level) }
    ensures shorter { Shorter I.machine I.state p.old p.new result }
{
    if let Some(op) = unary_op(p.kind()) {
        return unary(p, nested, code, op);
    }
    if p.at(kinds::AWAIT) && code.context.in_async {
        return awaited(p, nested, code);
    }
    if p.at(kinds::YIELD) && code.context.in_generator {
        return yielded(p, nested, code);
    }
    word(p, nested, code, level)
}

/// `new`, `super` or `import`, or another word.
#[inline(always)]
pub fn member_word<'a, I: Tokens<'a> + Drop, N: Nested<'a, I>>(
    p: &mut Parser<'a, I>,
    nested: &N,
    code: Around,
    level: u8,
) -> Result<Operand, Failure>
    requires ready { N.ready nested.now }
    requires word { is_word (kind (at_hand I.machine I.state p.old)) ≡ true }
    ensures value { ReadsBy I.machine I.state (N.reads nested.now) p.old p.new result
        tree_of (λ m r. words.member_word m r (code_of code) level) }
    ensures shorter { Shorter I.machine I.state p.old p.new result }
{
    if p.at(kinds::NEW) {
        return new_expr(p, nested, code);
    }
    if p.at(kinds::SUPER) {
        return super_expr(p, nested, code);
    }
    if p.at(kinds::IMPORT) {
        return import(p, nested, code);
    }
    operator_word(p, nested, code, level)
}

/// A function or a class, or another word.
#[inline(always)]
pub fn definition_word<'a, I: Tokens<'a> + Drop, N: Nested<'a, I>>(
    p: &mut Parser<'a, I>,
    nested: &N,
    code: Around,
    level: u8,
) -> Result<Operand, Failure>
    requires ready { N.ready nested.now }
    requires word { is_word (kind (at_hand I.machine I.state p.old)) ≡ true }
    ensures value { ReadsBy I.machine I.state (N.reads nested.now) p.old p.new result
        tree_of (λ m r. words.definition_word m r (code_of code) level) }
    ensures shorter { Shorter I.machine I.state p.old p.new result }
{
    if p.at(kinds::FUNCTION) {
        let start = p.lo();
        return function_operand(p, nested, code, start, false);
    }
    if p.at(kinds::CLASS) {
        return class_operand(p, nested, code);
    }
    member_word(p, nested, code, level)
}

/// `true` or `false`, or another word.
#[inline(never)]
#[tactic(auto, unfolding(parse_expressions::specs::Words::fixed_word))]
pub fn boolean_word<'a, I: Tokens<'a> + Drop, N: Nested<'a, I>>(
    p: &mut Parser<'a, I>,
    nested: &N,
    code: Around,
    level: u8,
) -> Result<Operand, Failure>
    requires ready { N.ready nested.now }
    requires word { is_word (kind (at_hand I.machine I.state p.old)) ≡ true }
    ensures value { ReadsBy I.machine I.state (N.reads nested.now) p.old p.new result
        tree_of (λ m r. words.boolean_word m r (code_of code) level) }
    ensures shorter { Shorter I.machine I.state p.old p.new result }
{
    if p.at(kinds::TRUE) {
        let span = fixed(p, code)?;
        return made::bool_lit(p.alloc, span, true);
    }
    if p.at(kinds::FALSE) {
        let span = fixed(p, code)?;
        return made::bool_lit(p.alloc, span, false);
    }
    definition_word(p, nested, code, level)
}

/// What a word starts that is no plain name.
#[inline(always)]
#[tactic(auto, unfolding(grammar_spec::specs::Reader::Expressions::keyword_by, parse_expressions::specs::Words::fixed_word))]
fn own_word<'a, I: Tokens<'a> + Drop, N: Nested<'a, I>>(
    p: &mut Parser<'a, I>,
    nested: &N,
    code: Around,
    level: u8,
) -> Result<Operand, Failure>
    requires ready { N.ready nested.now }
    requires word { is_word (kind (at_hand I.machine I.state p.old)) ≡ true }
    ensures value { ReadsBy I.machine I.state (N.reads nested.now) p.old p.new result
        tree_of (λ m r. reads.keyword_by m r (code_of code) level) }
    ensures shorter { Shorter I.machine I.state p.old p.new result }
{
    if p.at(kinds::THIS) {
        let span = fixed(p, code)?;
        return made::this_expr(p.alloc, span);
    }
    if p.at(kinds::NULL) {
        let span = fixed(p, code)?;
        return made::null_lit(p.alloc, span);
    }
    boolean_word(p, nested, code, level)
}

/// What a word starts. A name that is no word of the grammar is told at once, and so is `async`.
#[inline(never)]
#[tactic(auto, using(crate::proofs::Names::plain_word, crate::proofs::Names::async_word))]
pub fn keyword<'a, I: Tokens<'a> + Drop, N: Nested<'a, I>>(
    p: &mut Parser<'a, I>,
    nested: &N,
    code: Around,
    level: u8,
) -> Result<Operand, Failure>
    requires ready { N.ready nested.now }
    requires word { is_word (kind (at_hand I.machine I.state p.old)) ≡ true }
    ensures value { ReadsBy I.machine I.state (N.reads nested.now) p.old p.new result
        tree_of (λ m r. reads.keyword_by m r (code_of code) level) }
    ensures shorter { Shorter I.machine I.state p.old p.new result }
{
    if p.at(kinds::NAME) || p.at(kinds::ASYNC) {
        return word(p, nested, code, level);
    }
    own_word(p, nested, code, level)
}
