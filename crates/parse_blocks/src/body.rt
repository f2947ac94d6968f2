//! Bodies of functions, whose directives may turn them strict.
ghost use Rattle.std.specs.Prelude.{◌≡◌, IfOk};
ghost use Rattle.grammar_spec.specs.Tokens.Shape as shape;
ghost use Rattle.tree_nodes.specs.Fits.{fits_block_stmt};
ghost use Rattle.tree_nodes.specs.Placed.{holds_stmt, inner};
ghost use Rattle.tree_nodes.specs.View.{view_block_stmt};
ghost use Rattle.grammar_spec.specs.Reader.Source.{go_on};
ghost use Rattle.grammar_spec.specs.Reader.Statements as reads;
ghost use Rattle.parse_state.specs.Answers.{going_on};
ghost use Rattle.parse_state.specs.Codes.{code_of};
ghost use Rattle.parse_state.specs.Reads.{Shorter};
ghost use Rattle.parse_operands.specs.Rules.{ReadsBy};
ghost use Rattle.parse_blocks.specs.Lists.{body_items, body_of, FitBody};

use crate::codes::turned;
use parse_operands::Nested;
use parse_state::code::{in_list, turned_strict};
use parse_state::{Around, Failure, Parser, Tokens, kinds};
use std::convert::AsStr;
use tree_nodes::{BlockStmt, ExprKind, Lit, Stmt, StmtBox, StmtKind};

/// The statements of a body so far, the code after them, and whether its directives may go on.
#[derive(Drop)]
pub struct BodySoFar {
    pub items: Vec<StmtBox>,
    pub code: Around,
    pub starts: bool,
}

/// Whether a statement is the directive `use strict`, without an escape (ECMA-262, 11.2.1).
pub fn is_use_strict(stmt: &Stmt) -> bool
    ensures { result ≡ shape.is_use_strict stmt.now }
{
    match &stmt.kind {
        StmtKind::Expr(x) => match &x.expr.get().kind {
            ExprKind::Lit(Lit::Str(text)) => match &text.raw {
                Some(raw) => { raw.as_str() == "\"use strict\"" || raw.as_str() == "'use strict'" }
                None => false,
            },
            _ => false,
        },
        _ => false,
    }
}

/// Whether a statement is a string without parentheses, as a directive is (ECMA-262, 11.2.1).
pub fn is_directive(stmt: &Stmt) -> bool
    ensures { result ≡ shape.is_directive stmt.now }
{
    match &stmt.kind {
        StmtKind::Expr(x) => matches!(&x.expr.get().kind, ExprKind::Lit(Lit::Str(_))),
        _ => false,
    }
}

/// One more statement of a body. A directive may turn what follows strict.
#[inline(never)]
#[tactic(auto, unfolding(grammar_spec::specs::Reader::Statements::body_item))]
pub fn item<'a, I: Tokens<'a> + Drop, N: Nested<'a, I>>(
    p: &mut Parser<'a, I>,
    nested: &N,
    body: &mut BodySoFar,
) -> Result<(), Failure>
    requires ready { N.ready nested.now }
    requires fits { FitBody body.old }
    ensures value { ReadsBy I.machine I.state (N.reads nested.now) p.old p.new result
        (λ _. go_on (body_of body.new)) (λ m r. reads.body_item m r (body_of body.old)) }
    ensures fits { IfOk result (λ _. FitBody body.new) }
    ensures shorter { Shorter I.machine I.state p.old p.new result }
{
    let read = nested.stmt(p, in_list(body.code))?;
    if body.starts && is_use_strict(read.get()) {
        body.code = turned_strict(body.code);
        turned(p, body.code.context);
    } else {
        body.starts = body.starts && is_directive(read.get());
    }
    body.items.push(read)?;
    Ok(())
}

/// One more statement of a body, or its brace. Whether another may follow.
#[inline(always)]
#[tactic(auto, unfolding(grammar_spec::specs::Reader::Statements::body_step))]
pub fn body_turn<'a, I: Tokens<'a> + Drop, N: Nested<'a, I>>(
    p: &mut Parser<'a, I>,
    nested: &N,
    body: &mut BodySoFar,
) -> Result<bool, Failure>
    requires ready { N.ready nested.now }
    requires fits { FitBody body.old }
    ensures value { ReadsBy I.machine I.state (N.reads nested.now) p.old p.new result
        (λ x. going_on x (body_of body.new)) (λ m r. reads.body_step m r (body_of body.old)) }
    ensures fits { IfOk result (λ _. FitBody body.new) }
    ensures shorter { Shorter I.machine I.state p.old p.new result }
{
    if p.eat(kinds::RIGHT_BRACE)? {
        return Ok(false);
    }
    item(p, nested, body)?;
    Ok(true)
}

/// The statements of a body, after its first brace.
#[inline(always)]
#[tactic(auto, using(parse_state::proofs::Iterate::iterates), unfolding(crate::specs::Lists::body_items))]
pub fn body_items<'a, I: Tokens<'a> + Drop, N: Nested<'a, I>>(
    p: &mut Parser<'a, I>,
    nested: &N,
    code: Around,
) -> Result<BodySoFar, Failure>
    requires ready { N.ready nested.now }
    ensures value { ReadsBy I.machine I.state (N.reads nested.now) p.old p.new result
        body_of (λ m r. body_items m r (code_of code)) }
    ensures fits { IfOk result (λ x. FitBody x) }
    ensures shorter { Shorter I.machine I.state p.old p.new result }
{
    let mut read = BodySoFar {
        items: Vec::new(p.alloc),
        code,
        starts: true,
    };
    'turns: while body_turn(p, nested, &mut read)? {}
    Ok(read)
}

/// A body. Behind it the source is told of the code around it again.
#[inline(never)]
#[tactic(auto, using(parse_operands::proofs::Packs::packs), unfolding(grammar_spec::specs::Reader::Statements::body_by, crate::specs::Lists::body_items))]
pub fn body<'a, I: Tokens<'a> + Drop, N: Nested<'a, I>>(
    p: &mut Parser<'a, I>,
    nested: &N,
    code: Around,
) -> Result<BlockStmt, Failure>
    requires ready { N.ready nested.now }
    ensures value { ReadsBy I.machine I.state (N.reads nested.now) p.old p.new result
        (view_block_stmt inner) (λ m r. reads.body_by m r (code_of code)) }
    ensures fits { IfOk result (λ x. fits_block_stmt (λ p. p) x) }
    ensures shorter { Shorter I.machine I.state p.old p.new result }
{
    let start = p.lo();
    p.expect(kinds::LEFT_BRACE)?;
    let read = body_items(p, nested, code)?;
    let span = p.since(start);
    turned(p, code.context);
    Ok(BlockStmt {
        span,
        stmts: read.items,
    })
}
