//! `try` with `catch` and `finally`.
ghost use Rattle.std.specs.Prelude.{None, IfOk};
ghost use Rattle.tree_nodes.specs.Fits.{fits_block_stmt, fits_catch_clause, fits_held};
ghost use Rattle.tree_nodes.specs.Placed.{holds_stmt, inner};
ghost use Rattle.tree_nodes.specs.View.{view_block_stmt, view_catch_clause};
ghost use Rattle.tree_spec.specs.Tree.{part_by};
ghost use Rattle.grammar_spec.specs.Reader.Statements as reads;
ghost use Rattle.parse_state.specs.Codes.{code_of};
ghost use Rattle.parse_state.specs.Reads.{Shorter, NotLonger};
ghost use Rattle.parse_operands.specs.Rules.{ReadsBy};
ghost use Rattle.parse_operands.specs.Operands.{tree_in};

use base_token::BytePos;
use parse_blocks::blocks::block;
use parse_blocks::made;
use parse_operands::Nested;
use parse_state::{Around, Failure, Parser, Tokens, kinds};
use tree_nodes::{BlockStmt, CatchClause, StmtBox};

/// `catch`.
#[inline(never)]
#[tactic(auto, unfolding(grammar_spec::specs::Reader::Statements::catch_by))]
pub fn catch<'a, I: Tokens<'a> + Drop, N: Nested<'a, I>>(
    p: &mut Parser<'a, I>,
    nested: &N,
    code: Around,
) -> Result<CatchClause, Failure>
    requires ready { N.ready nested.now }
    ensures value { ReadsBy I.machine I.state (N.reads nested.now) p.old p.new result
        (view_catch_clause inner) (λ m r. reads.catch_by m r (code_of code)) }
    ensures fits { IfOk result (λ x. fits_catch_clause (λ p. p) x) }
    ensures shorter { Shorter I.machine I.state p.old p.new result }
{
    let start = p.lo();
    p.eat_word(code, kinds::CATCH)?;
    if p.eat(kinds::LEFT_PAREN)? {
        let param = nested.pat(p, code)?;
        p.expect(kinds::RIGHT_PAREN)?;
        let body = block(p, nested, code)?;
        let span = p.since(start);
        return Ok(CatchClause {
            span,
            param: Some(param),
            body,
        });
    }
    let body = block(p, nested, code)?;
    let span = p.since(start);
    Ok(CatchClause {
        span,
        param: None,
        body,
    })
}

/// `finally`, or the end of a `try` that has `catch`.
#[inline(never)]
#[tactic(auto, unfolding(grammar_spec::specs::Reader::Statements::finally_by))]
pub fn finally<'a, I: Tokens<'a> + Drop, N: Nested<'a, I>>(
    p: &mut Parser<'a, I>,
    nested: &N,
    code: Around,
    start: BytePos,
    body: BlockStmt,
    handler: Option<CatchClause>,
) -> Result<StmtBox, Failure>
    requires ready { N.ready nested.now }
    requires body { fits_block_stmt (λ p. p) body }
    requires handler { fits_held (λ x. fits_catch_clause (λ p. p) x) handler }
    ensures value { ReadsBy I.machine I.state (N.reads nested.now) p.old p.new result
        tree_in
        (λ m r. reads.finally_by m r (code_of code) start.0 (view_block_stmt inner body)
        (part_by (view_catch_clause inner) handler)) }
    ensures holds { IfOk result (λ x. holds_stmt x.part.value) }
    ensures not_longer { NotLonger I.machine I.state p.old p.new result }
{
    if p.at(kinds::FINALLY) && !p.is_barred(code.context) {
        p.eat_word(code, kinds::FINALLY)?;
        let last = block(p, nested, code)?;
        return made::try_stmt(p.alloc, p.since(start), body, handler, Some(last));
    }
    if handler.is_none() {
        return Err(p.unexpected());
    }
    made::try_stmt(p.alloc, p.since(start), body, handler, None)
}

/// `try`.
#[inline(never)]
#[tactic(auto, unfolding(grammar_spec::specs::Reader::Statements::try_by))]
pub fn try_stmt<'a, I: Tokens<'a> + Drop, N: Nested<'a, I>>(
    p: &mut Parser<'a, I>,
    nested: &N,
    code: Around,
) -> Result<StmtBox, Failure>
    requires ready { N.ready nested.now }
    ensures value { ReadsBy I.machine I.state (N.reads nested.now) p.old p.new result
        tree_in (λ m r. reads.try_by m r (code_of code)) }
    ensures holds { IfOk result (λ x. holds_stmt x.part.value) }
    ensures shorter { Shorter I.machine I.state p.old p.new result }
{
    let start = p.lo();
    p.eat_word(code, kinds::TRY)?;
    let body = block(p, nested, code)?;
    if p.at(kinds::CATCH) {
        let handler = catch(p, nested, code)?;
        return finally(p, nested, code, start, body, Some(handler));
    }
    finally(p, nested, code, start, body, None)
}
