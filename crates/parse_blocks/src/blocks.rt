//! Blocks.
ghost use Rattle.std.specs.Prelude.{◌≡◌, All, IfOk, map};
ghost use Rattle.tree_nodes.specs.Fits.{fits_block_stmt};
ghost use Rattle.tree_nodes.specs.Placed.{holds_stmt, inner};
ghost use Rattle.tree_nodes.specs.View.{view_block_stmt};
ghost use Rattle.grammar_spec.specs.Reader.Statements as reads;
ghost use Rattle.parse_state.specs.Answers.{going_on};
ghost use Rattle.parse_state.specs.Codes.{code_of};
ghost use Rattle.parse_state.specs.Reads.{Shorter};
ghost use Rattle.parse_operands.specs.Rules.{ReadsBy};
ghost use Rattle.parse_blocks.specs.Lists.{block_items};

use base_token::BytePos;
use parse_operands::Nested;
use parse_state::code::in_list;
use parse_state::{Around, Failure, Parser, Tokens, kinds};
use tree_nodes::{BlockStmt, StmtBox};

/// One more statement of a block, or its brace. Whether another may follow.
#[inline(always)]
#[tactic(auto, unfolding(grammar_spec::specs::Reader::Statements::block_step))]
pub fn block_turn<'a, I: Tokens<'a> + Drop, N: Nested<'a, I>>(
    p: &mut Parser<'a, I>,
    nested: &N,
    code: Around,
    list: &mut Vec<StmtBox>,
) -> Result<bool, Failure>
    requires ready { N.ready nested.now }
    requires fits { All (λ x. holds_stmt x.part.value) list.old.items }
    ensures value { ReadsBy I.machine I.state (N.reads nested.now) p.old p.new result
        (λ x. going_on x (map (λ y. inner y.part.value) list.new.items))
        (λ m r. reads.block_step m r (code_of code) (map (λ y. inner y.part.value) list.old.items)) }
    ensures fits { IfOk result (λ _. All (λ x. holds_stmt x.part.value) list.new.items) }
    ensures shorter { Shorter I.machine I.state p.old p.new result }
{
    if p.eat(kinds::RIGHT_BRACE)? {
        return Ok(false);
    }
    let item = nested.stmt(p, in_list(code))?;
    list.push(item)?;
    Ok(true)
}

/// The statements of a block, after its first brace.
#[inline(never)]
#[tactic(auto, using(parse_state::proofs::Iterate::iterates), unfolding(crate::specs::Lists::block_items))]
pub fn block_items<'a, I: Tokens<'a> + Drop, N: Nested<'a, I>>(
    p: &mut Parser<'a, I>,
    nested: &N,
    code: Around,
) -> Result<Vec<StmtBox>, Failure>
    requires ready { N.ready nested.now }
    ensures value { ReadsBy I.machine I.state (N.reads nested.now) p.old p.new result
        (λ x. map (λ y. inner y.part.value) x.items) (λ m r. block_items m r (code_of code)) }
    ensures fits { IfOk result (λ x. All (λ y. holds_stmt y.part.value) x.items) }
    ensures shorter { Shorter I.machine I.state p.old p.new result }
{
    let mut list = Vec::new(p.alloc);
    'turns: while block_turn(p, nested, code, &mut list)? {}
    Ok(list)
}

/// A block, after its first brace.
#[inline(never)]
#[tactic(auto, using(parse_operands::proofs::Packs::packs), unfolding(grammar_spec::specs::Reader::Statements::block_rest, crate::specs::Lists::block_items))]
pub fn block_rest<'a, I: Tokens<'a> + Drop, N: Nested<'a, I>>(
    p: &mut Parser<'a, I>,
    nested: &N,
    code: Around,
    start: BytePos,
) -> Result<BlockStmt, Failure>
    requires ready { N.ready nested.now }
    ensures value { ReadsBy I.machine I.state (N.reads nested.now) p.old p.new result
        (view_block_stmt inner) (λ m r. reads.block_rest m r (code_of code) start.0) }
    ensures fits { IfOk result (λ x. fits_block_stmt (λ p. p) x) }
    ensures shorter { Shorter I.machine I.state p.old p.new result }
{
    let stmts = block_items(p, nested, code)?;
    Ok(BlockStmt {
        span: p.since(start),
        stmts,
    })
}

/// A block.
#[inline(never)]
#[tactic(auto, using(parse_operands::proofs::Packs::packs), unfolding(grammar_spec::specs::Reader::Statements::block_by, grammar_spec::specs::Reader::Statements::block_rest, crate::specs::Lists::block_items))]
pub fn block<'a, I: Tokens<'a> + Drop, N: Nested<'a, I>>(
    p: &mut Parser<'a, I>,
    nested: &N,
    code: Around,
) -> Result<BlockStmt, Failure>
    requires ready { N.ready nested.now }
    ensures value { ReadsBy I.machine I.state (N.reads nested.now) p.old p.new result
        (view_block_stmt inner) (λ m r. reads.block_by m r (code_of code)) }
    ensures fits { IfOk result (λ x. fits_block_stmt (λ p. p) x) }
    ensures shorter { Shorter I.machine I.state p.old p.new result }
{
    let start = p.lo();
    p.expect(kinds::LEFT_BRACE)?;
    let stmts = block_items(p, nested, code)?;
    Ok(BlockStmt {
        span: p.since(start),
        stmts,
    })
}
