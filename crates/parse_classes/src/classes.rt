//! Classes: their members in braces, what they extend, and a class as a declaration and as an expression.
ghost use Rattle.std.specs.Prelude.{◌≡◌, ◌++◌, ◌∷◌, [], All, IfErr, IfOk, OnOk, map};
ghost use Rattle.tree_spec.specs.Tree.{part_by};
ghost use Rattle.tree_nodes.specs.Fits.{fits_class, fits_class_expr, fits_class_member, fits_held};
ghost use Rattle.tree_nodes.specs.Placed.{holds_expr, holds_stmt, inner};
ghost use Rattle.tree_nodes.specs.View.{view_class, view_class_expr, view_class_member};
ghost use Rattle.grammar_spec.specs.Reader.Expressions as expressions;
ghost use Rattle.grammar_spec.specs.Reader.Statements as reads;
ghost use Rattle.parse_state.specs.Answers.{going_on, IsMemory};
ghost use Rattle.parse_state.specs.Codes.{code_of};
ghost use Rattle.parse_state.specs.Reads.{Shorter};
ghost use Rattle.parse_operands.specs.Operands.{tree_of, tree_in};
ghost use Rattle.parse_operands.specs.Rules.{ReadsBy};
ghost use Rattle.parse_classes.specs.Members.{member_list};

use crate::heads::is_static;
use crate::made;
use crate::members::member_rest;
use base_token::BytePos;
use parse_blocks::blocks::block_rest;
use parse_blocks::codes::in_static;
use parse_operands::{Nested, Operand};
use parse_state::code::{turned_strict, with_in};
use parse_state::operators::NEW_LEVEL;
use parse_state::{Around, Failure, Parser, Tokens, kinds};
use tree_nodes::{Class, ClassExpr, ClassMember, ExprBox, Ident, StmtBox};

/// A static member, or a static block.
#[inline(never)]
#[tactic(auto, unfolding(grammar_spec::specs::Reader::Statements::static_by))]
pub fn static_member<'a, I: Tokens<'a> + Drop, N: Nested<'a, I>>(
    p: &mut Parser<'a, I>,
    nested: &N,
    code: Around,
) -> Result<ClassMember, Failure>
    requires ready { N.ready nested.now }
    ensures value { ReadsBy I.machine I.state (N.reads nested.now) p.old p.new result
        (view_class_member inner) (λ m r. reads.static_by m r (code_of code)) }
    ensures fits { IfOk result (λ x. fits_class_member (λ p. p) x) }
    ensures shorter { Shorter I.machine I.state p.old p.new result }
{
    let start = p.lo();
    p.eat_word(code, kinds::STATIC)?;
    if !p.at(kinds::LEFT_BRACE) {
        return member_rest(p, nested, code, start, true);
    }
    let block_start = p.lo();
    p.bump()?;
    let body = block_rest(p, nested, in_static(code), block_start)?;
    Ok(made::static_block(p.since(start), body))
}

/// Puts a member behind the others.
#[inline(never)]
fn add(list: &mut Vec<ClassMember>, member: ClassMember) -> Result<(), Failure>
    requires fits { All (λ x. fits_class_member (λ p. p) x) list.old.items }
    requires member { fits_class_member (λ p. p) member }
    ensures value { OnOk result (map (view_class_member inner) list.new.items
        ≡ map (view_class_member inner) list.old.items ++ view_class_member inner member ∷ []) }
    ensures fits { IfOk result (λ _. All (λ x. fits_class_member (λ p. p) x) list.new.items) }
    ensures full { IfErr result IsMemory }
{
    list.push(member)?;
    Ok(())
}

/// One more member of a class, or its brace. Whether another may follow.
#[inline(always)]
#[tactic(auto, unfolding(grammar_spec::specs::Reader::Statements::member_step))]
pub fn member_turn<'a, I: Tokens<'a> + Drop, N: Nested<'a, I>>(
    p: &mut Parser<'a, I>,
    nested: &N,
    code: Around,
    list: &mut Vec<ClassMember>,
) -> Result<bool, Failure>
    requires ready { N.ready nested.now }
    requires fits { All (λ x. fits_class_member (λ p. p) x) list.old.items }
    ensures value { ReadsBy I.machine I.state (N.reads nested.now) p.old p.new result
        (λ x. going_on x (map (view_class_member inner) list.new.items))
        (λ m r. reads.member_step m r (code_of code) (map (view_class_member inner) list.old.items)) }
    ensures fits { IfOk result (λ _. All (λ x. fits_class_member (λ p. p) x) list.new.items) }
    ensures shorter { Shorter I.machine I.state p.old p.new result }
{
    if p.eat(kinds::RIGHT_BRACE)? {
        return Ok(false);
    }
    let place = p.place();
    if p.eat(kinds::SEMICOLON)? {
        add(list, made::empty_member(place))?;
        return Ok(true);
    }
    let member = if is_static(p, nested)? {
        static_member(p, nested, code)?
    } else {
        let start = p.lo();
        member_rest(p, nested, code, start, false)?
    };
    add(list, member)?;
    Ok(true)
}

/// The members of a class, after their brace.
#[inline(never)]
#[tactic(auto, using(parse_state::proofs::Iterate::iterates), unfolding(crate::specs::Members::member_list))]
pub fn member_list<'a, I: Tokens<'a> + Drop, N: Nested<'a, I>>(
    p: &mut Parser<'a, I>,
    nested: &N,
    code: Around,
) -> Result<Vec<ClassMember>, Failure>
    requires ready { N.ready nested.now }
    ensures value { ReadsBy I.machine I.state (N.reads nested.now) p.old p.new result
        (λ x. map (view_class_member inner) x.items) (λ m r. member_list m r (code_of code)) }
    ensures fits { IfOk result (λ x. All (λ x. fits_class_member (λ p. p) x) x.items) }
    ensures shorter { Shorter I.machine I.state p.old p.new result }
{
    let mut list = Vec::new(p.alloc);
    'turns: while member_turn(p, nested, code, &mut list)? {}
    Ok(list)
}

/// A class, from the brace of its members on. Its span starts at `whole`.
#[inline(always)]
#[tactic(auto, using(parse_operands::proofs::Packs::packs), unfolding(grammar_spec::specs::Reader::Statements::members_by, crate::specs::Members::member_list))]
pub fn members<'a, I: Tokens<'a> + Drop, N: Nested<'a, I>>(
    p: &mut Parser<'a, I>,
    nested: &N,
    code: Around,
    whole: BytePos,
    super_class: Option<ExprBox>,
) -> Result<Box<Class>, Failure>
    requires ready { N.ready nested.now }
    requires super_class { fits_held (λ x. holds_expr x.part.value) super_class }
    ensures value { ReadsBy I.machine I.state (N.reads nested.now) p.old p.new result
        (λ x. view_class inner x.value)
        (λ m r. reads.members_by m r (code_of code) whole.0 (part_by (λ x. inner x.part.value) super_class)) }
    ensures fits { IfOk result (λ x. fits_class (λ p. p) x.value) }
    ensures shorter { Shorter I.machine I.state p.old p.new result }
{
    p.expect(kinds::LEFT_BRACE)?;
    let body = member_list(p, nested, code)?;
    made::class(p.alloc, p.since(whole), body, super_class)
}

/// What follows a class's name. The span of the class starts at `whole`.
#[inline(never)]
#[tactic(auto, unfolding(grammar_spec::specs::Reader::Statements::class_tail_by))]
pub fn class_tail<'a, I: Tokens<'a> + Drop, N: Nested<'a, I>>(
    p: &mut Parser<'a, I>,
    nested: &N,
    code: Around,
    whole: BytePos,
) -> Result<Box<Class>, Failure>
    requires ready { N.ready nested.now }
    ensures value { ReadsBy I.machine I.state (N.reads nested.now) p.old p.new result
        (λ x. view_class inner x.value) (λ m r. reads.class_tail_by m r (code_of code) whole.0) }
    ensures fits { IfOk result (λ x. fits_class (λ p. p) x.value) }
    ensures shorter { Shorter I.machine I.state p.old p.new result }
{
    if !p.at(kinds::EXTENDS) {
        return members(p, nested, code, whole, None);
    }
    p.eat_word(code, kinds::EXTENDS)?;
    let read = nested.expr(p, code, NEW_LEVEL)?;
    members(p, nested, code, whole, Some(read.expr))
}

/// A class as a declaration. All of it is strict code.
#[inline(never)]
#[tactic(auto, unfolding(grammar_spec::specs::Reader::Statements::class_decl_by))]
pub fn class_decl<'a, I: Tokens<'a> + Drop, N: Nested<'a, I>>(
    p: &mut Parser<'a, I>,
    nested: &N,
    code: Around,
) -> Result<StmtBox, Failure>
    requires ready { N.ready nested.now }
    ensures value { ReadsBy I.machine I.state (N.reads nested.now) p.old p.new result
        tree_in (λ m r. reads.class_decl_by m r (code_of code)) }
    ensures holds { IfOk result (λ x. holds_stmt x.part.value) }
    ensures shorter { Shorter I.machine I.state p.old p.new result }
{
    let start = p.lo();
    p.eat_word(code, kinds::CLASS)?;
    let span = p.place();
    let sym = p.name(turned_strict(code))?;
    let class = nested.class_tail(p, turned_strict(with_in(code)), start)?;
    made::class_decl(p.alloc, p.since(start), Ident { span, sym }, class)
}

/// A class as an expression. All of it is strict code.
#[inline(always)]
#[tactic(auto, unfolding(grammar_spec::specs::Reader::Expressions::class_expr_by))]
pub fn class_expr<'a, I: Tokens<'a> + Drop, N: Nested<'a, I>>(
    p: &mut Parser<'a, I>,
    nested: &N,
    code: Around,
) -> Result<ClassExpr, Failure>
    requires ready { N.ready nested.now }
    ensures value { ReadsBy I.machine I.state (N.reads nested.now) p.old p.new result
        (view_class_expr inner) (λ m r. expressions.class_expr_by m r (code_of code)) }
    ensures fits { IfOk result (λ x. fits_class_expr (λ p. p) x) }
    ensures shorter { Shorter I.machine I.state p.old p.new result }
{
    let start = p.lo();
    p.eat_word(code, kinds::CLASS)?;
    let strict = turned_strict(code);
    if !p.is_name(strict) || p.at(kinds::LEFT_BRACE) {
        let class = nested.class_tail(p, turned_strict(with_in(code)), start)?;
        return Ok(made::class_expr(p.since(start), None, class));
    }
    let span = p.place();
    let sym = p.name(strict)?;
    let class = nested.class_tail(p, turned_strict(with_in(code)), start)?;
    Ok(made::class_expr(p.since(start), Some(Ident { span, sym }), class))
}

/// A class as an expression, as an operand.
#[inline(never)]
pub fn class_operand<'a, I: Tokens<'a> + Drop, N: Nested<'a, I>>(
    p: &mut Parser<'a, I>,
    nested: &N,
    code: Around,
) -> Result<Operand, Failure>
    requires ready { N.ready nested.now }
    ensures value { ReadsBy I.machine I.state (N.reads nested.now) p.old p.new result
        tree_of (λ m r. expressions.class_expr_by m r (code_of code)) }
    ensures shorter { Shorter I.machine I.state p.old p.new result }
{
    let node = class_expr(p, nested, code)?;
    made::class_operand(p.alloc, node)
}
