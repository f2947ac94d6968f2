//! `if`, and a chain of `else if` as a loop, so that a million links take no stack.
ghost use Rattle.std.specs.Prelude.{◌≡◌, None, ◌<◌, ◌&&◌, true, false, IfErr, IfOk, length, map};
ghost use Rattle.grammar_spec.specs.Tokens.Input.{kind};
ghost use Rattle.tree_nodes.specs.Fits.{fits_held};
ghost use Rattle.tree_nodes.specs.Placed.{holds_stmt, inner};
ghost use Rattle.tree_spec.specs.Tree.{part_by};
ghost use Rattle.grammar_spec.specs.Reader.Source as spec;
ghost use Rattle.grammar_spec.specs.Reader.Statements as reads;
ghost use Rattle.parse_state.specs.Answers.{going_on, IsMemory};
ghost use Rattle.parse_state.specs.Codes.{code_of};
ghost use Rattle.parse_state.specs.Cursors.{stream_of};
ghost use Rattle.parse_state.specs.States.{state_of};
ghost use Rattle.grammar_spec.specs.Tokens.Input as input;
ghost use Rattle.parse_state.specs.Reads.{Shorter, NotLonger};
ghost use Rattle.parse_operands.specs.Rules.{ReadsBy};
ghost use Rattle.parse_operands.specs.Operands.{tree_in};
ghost use Rattle.parse_statements.specs.Lists.{branch_of, chain_of, chain_items, FitBranches, FitChain};

use base_token::{BytePos, Span};
use parse_blocks::made;
use parse_blocks::parts::{in_parens, sub};
use parse_operands::{Nested, Operand};
use parse_state::code::alone;
use parse_state::{Around, Failure, Parser, Tokens, kinds};
use std::alloc::Global;
use tree_nodes::StmtBox;

/// An `if` up to its alternative.
#[derive(Drop)]
pub struct Branch {
    pub start: BytePos,
    pub test: Operand,
    pub consequent: StmtBox,
}

/// A chain of `else if`: its branches, the code in which the next one stands, and the last alternative.
#[derive(Drop)]
pub struct Links {
    pub branches: Vec<Branch>,
    pub code: Around,
    pub last: Option<StmtBox>,
}

/// The kind of the token that comes, where a slash is read as a regular expression. A function that is called twice is not
/// inlined, so that no `if` has room in its frame for a token that is looked at.
///
/// # Errors
///
/// Want of memory.
#[tactic(auto, unfolding(parse_state::specs::Cursors::stream_of))]
pub fn operand_kind<'a, I: Tokens<'a> + Drop>(p: &Parser<'a, I>) -> Result<u8, Failure>
    ensures value { IfOk result (λ k. k ≡ kind
        (spec.input (stream_of I.machine)
        (spec.operand (stream_of I.machine) (state_of I.state p.now)))) }
    ensures full { IfErr result IsMemory }
{
    match p.kind() {
        kinds::DIV => p.reread_kind(),
        kinds::DIV_ASSIGN => p.reread_kind(),
        kind => Ok(kind),
    }
}

/// What follows `else`: another `if`, with which the chain goes on, or its last alternative.
#[inline(never)]
#[tactic(auto, unfolding(grammar_spec::specs::Reader::Statements::else_by))]
pub fn alternative<'a, I: Tokens<'a> + Drop, N: Nested<'a, I>>(
    p: &mut Parser<'a, I>,
    nested: &N,
    chain: &mut Links,
) -> Result<bool, Failure>
    requires ready { N.ready nested.now }
    requires fits { FitChain chain.old }
    requires last { chain.old.last ≡ None }
    ensures value { ReadsBy I.machine I.state (N.reads nested.now) p.old p.new result
        (λ x. going_on x (chain_of chain.new)) (λ m r. reads.else_by m r (chain_of chain.old)) }
    ensures fits { IfOk result (λ x. FitChain chain.new) }
    ensures kept { IfOk result (λ _. chain.new.branches ≡ chain.old.branches) }
    ensures not_longer { NotLonger I.machine I.state p.old p.new result }
{
    if operand_kind(p)? == kinds::IF {
        p.operand()?;
        chain.code = alone(chain.code);
        return Ok(true);
    }
    let last = sub(p, nested, chain.code, true)?;
    chain.last = Some(last);
    Ok(false)
}

/// One `if` of a chain. Whether another follows.
#[inline(always)]
#[tactic(auto, unfolding(grammar_spec::specs::Reader::Statements::if_step))]
pub fn chain_turn<'a, I: Tokens<'a> + Drop, N: Nested<'a, I>>(
    p: &mut Parser<'a, I>,
    nested: &N,
    chain: &mut Links,
) -> Result<bool, Failure>
    requires ready { N.ready nested.now }
    requires fits { FitChain chain.old }
    ensures value { ReadsBy I.machine I.state (N.reads nested.now) p.old p.new result
        (λ x. going_on x (chain_of chain.new)) (λ m r. reads.if_step m r (chain_of chain.old)) }
    ensures fits { IfOk result (λ x. FitChain chain.new) }
    ensures some { IfOk result (λ _. 0 < length chain.new.branches.items) }
    ensures shorter { Shorter I.machine I.state p.old p.new result }
{
    let start = p.lo();
    p.eat_word(chain.code, kinds::IF)?;
    let test = in_parens(p, nested, chain.code)?;
    let consequent = sub(p, nested, chain.code, true)?;
    chain.branches.push(Branch {
        start,
        test,
        consequent,
    })?;
    chain.last = None;
    if !p.at(kinds::ELSE) {
        return Ok(false);
    }
    p.eat_word(chain.code, kinds::ELSE)?;
    alternative(p, nested, chain)
}

/// The branches of an `if`.
#[inline(never)]
#[tactic(auto, using(parse_state::proofs::Iterate::iterates), unfolding(crate::specs::Lists::chain_items))]
pub fn chain<'a, I: Tokens<'a> + Drop, N: Nested<'a, I>>(
    p: &mut Parser<'a, I>,
    nested: &N,
    code: Around,
) -> Result<Links, Failure>
    requires ready { N.ready nested.now }
    ensures value { ReadsBy I.machine I.state (N.reads nested.now) p.old p.new result
        chain_of (λ m r. chain_items m r (code_of code)) }
    ensures fits { IfOk result (λ x. FitChain x) }
    ensures some { IfOk result (λ x. 0 < length x.branches.items) }
    ensures shorter { Shorter I.machine I.state p.old p.new result }
{
    let mut read = Links {
        branches: Vec::new(p.alloc),
        code,
        last: None,
    };
    'turns: while chain_turn(p, nested, &mut read)? {}
    Ok(read)
}

/// The statement that branches make, up to a place: the last one is the innermost.
#[inline(never)]
#[tactic(auto, using(crate::proofs::Lists::chained_more))]
pub fn chained(
    alloc: Global,
    hi: BytePos,
    mut branches: Vec<Branch>,
    last: Option<StmtBox>,
) -> Result<StmtBox, Failure>
    requires fits { FitBranches branches.items }
    requires last { fits_held (λ x. holds_stmt x.part.value) last }
    requires some { 0 < length branches.items }
    ensures value { IfOk result (λ x. inner x.part.value
        ≡ reads.chained hi.0 (map branch_of branches.items)
        (part_by (λ x. inner x.part.value) last)) }
    ensures holds { IfOk result (λ x. holds_stmt x.part.value) }
    ensures full { IfErr result IsMemory }
{
    let Some(innermost) = branches.pop() else {
        unreachable!();
    };
    let span = Span {
        lo: innermost.start,
        hi,
    };
    let mut made = made::if_stmt(alloc, span, innermost.test, innermost.consequent, last)?;
    'links: while let Some(branch) = branches.pop() {
        let span = Span {
            lo: branch.start,
            hi,
        };
        made = made::if_stmt(alloc, span, branch.test, branch.consequent, Some(made))?;
    }
    Ok(made)
}

/// `if`, with its chain of `else if`.
#[inline(never)]
#[tactic(auto, unfolding(grammar_spec::specs::Reader::Statements::if_by, crate::specs::Lists::chain_items))]
pub fn if_stmt<'a, I: Tokens<'a> + Drop, N: Nested<'a, I>>(
    p: &mut Parser<'a, I>,
    nested: &N,
    code: Around,
) -> Result<StmtBox, Failure>
    requires ready { N.ready nested.now }
    ensures value { ReadsBy I.machine I.state (N.reads nested.now) p.old p.new result
        tree_in (λ m r. reads.if_by m r (code_of code)) }
    ensures holds { IfOk result (λ x. holds_stmt x.part.value) }
    ensures shorter { Shorter I.machine I.state p.old p.new result }
{
    let start = p.lo();
    let read = chain(p, nested, code)?;
    chained(p.alloc, p.since(start).hi, read.branches, read.last)
}
