//! Arrow functions (15.3), after their parameters.
ghost use Rattle.std.specs.Prelude.{◌≡◌, ◌≢◌, false, true, All, map};
ghost use Rattle.tree_nodes.specs.Placed.{holds_pat, inner};
ghost use Rattle.grammar_spec.specs.Reader.Expressions as reads;
ghost use Rattle.parse_state.specs.Codes.{code_of};
ghost use Rattle.parse_state.specs.Cursors.{stream_of};
ghost use Rattle.parse_state.specs.States.{state_of};
ghost use Rattle.parse_state.specs.Reads.{Shorter, NotLonger};
ghost use Rattle.parse_operands.specs.Operands.{tree_of};
ghost use Rattle.parse_operands.specs.Rules.{ReadsBy};

use crate::made;
use base_token::{Atom, BytePos, Span};
use parse_operands::{Held, Nested, Operand};
use parse_state::code::{in_arrow, in_list, with_in};
use parse_state::operators::ASSIGNMENT;
use parse_state::{Around, Failure, Parser, Tokens, kinds};
use tree_nodes::PatBox;

/// Whether `=>` comes, on the line of what stands before it, where an expression of this level may be an arrow.
pub fn is_arrow<'a, I: Tokens<'a> + Drop, N: Nested<'a, I>>(
    p: &Parser<'a, I>,
    _nested: &N,
    level: u8,
) -> bool
    ensures { result ≡ reads.arrows_at (stream_of I.machine) (N.reads _nested.now I.State I.machine)
        level (state_of I.state p.now) }
{
    p.at(kinds::ARROW) && !p.breaks() && level <= ASSIGNMENT
}

/// An arrow and its body.
#[inline(never)]
#[tactic(auto, using(parse_operands::proofs::Packs::packs), unfolding(grammar_spec::specs::Reader::Expressions::arrow_by))]
pub fn arrow<'a, I: Tokens<'a> + Drop, N: Nested<'a, I>>(
    p: &mut Parser<'a, I>,
    nested: &N,
    code: Around,
    start: BytePos,
    is_async: bool,
    params: Vec<PatBox>,
) -> Result<Operand, Failure>
    requires ready { N.ready nested.now }
    requires fits { All (λ y. holds_pat y.part.value) params.items }
    ensures value { ReadsBy I.machine I.state (N.reads nested.now) p.old p.new result
        tree_of
        (λ m r. reads.arrow_by m r (code_of code) start.0 is_async
        (map (λ y. inner y.part.value) params.items)) }
    ensures shorter { Shorter I.machine I.state p.old p.new result }
{
    let params = Held { value: params };
    p.bump()?;
    if p.at(kinds::LEFT_BRACE) {
        let body = nested.body(p, in_list(with_in(in_arrow(is_async, code))))?;
        return made::block_arrow(p.alloc, p.since(start), params.take(), body, is_async);
    }
    let body = nested.expr(p, in_arrow(is_async, code), ASSIGNMENT)?;
    made::plain_arrow(p.alloc, p.since(start), params.take(), body, is_async)
}

/// What follows a name, which may be the one parameter of an arrow.
#[inline(always)]
#[tactic(auto, unfolding(grammar_spec::specs::Reader::Expressions::ident_end))]
pub fn ident_end<'a, I: Tokens<'a> + Drop, N: Nested<'a, I>>(
    p: &mut Parser<'a, I>,
    nested: &N,
    code: Around,
    level: u8,
    place: Span,
    sym: Atom,
) -> Result<Operand, Failure>
    requires ready { N.ready nested.now }
    ensures value { ReadsBy I.machine I.state (N.reads nested.now) p.old p.new result
        tree_of (λ m r. reads.ident_end m r (code_of code) level place sym) }
    ensures not_longer { NotLonger I.machine I.state p.old p.new result }
{
    if is_arrow(p, nested, level) {
        let params = made::one_param(p.alloc, place, sym)?;
        return arrow(p, nested, code, place.lo, false, params);
    }
    parse_operands::made::name(p.alloc, place, sym)
}
