//! Names with a `#`, and keys in brackets.
ghost use Rattle.std.specs.Prelude.{IfOk};
ghost use Rattle.tree_nodes.specs.Placed.{holds_expr, inner};
ghost use Rattle.tree_nodes.specs.View.{view_computed_prop_name, view_private_name};
ghost use Rattle.grammar_spec.specs.Reader.Expressions as reads;
ghost use Rattle.parse_state.specs.Codes.{code_of};
ghost use Rattle.parse_state.specs.Reads.{Shorter};
ghost use Rattle.parse_operands.specs.Rules.{ReadsBy};

use crate::Nested;
use parse_state::code::with_in;
use parse_state::{Around, Failure, Parser, Tokens, kinds};
use tree_nodes::{ComputedPropName, PrivateName};

/// A private name, whose `#` touches it.
#[inline(never)]
#[tactic(auto, unfolding(grammar_spec::specs::Reader::Expressions::private_by))]
pub fn private_name<'a, I: Tokens<'a> + Drop, N: Nested<'a, I>>(
    p: &mut Parser<'a, I>,
    _nested: &N,
) -> Result<PrivateName, Failure>
    requires ready { N.ready _nested.now }
    ensures value { ReadsBy I.machine I.state (N.reads _nested.now) p.old p.new result
        view_private_name (λ m r. reads.private_by m r) }
    ensures shorter { Shorter I.machine I.state p.old p.new result }
{
    let start = p.lo();
    let end = p.hi();
    p.expect(kinds::HASH)?;
    if p.lo().0 != end.0 {
        return Err(p.unexpected());
    }
    let name = p.any_word()?;
    Ok(PrivateName {
        span: p.since(start),
        name,
    })
}

/// A key in brackets.
#[inline(never)]
#[tactic(auto, unfolding(grammar_spec::specs::Reader::Expressions::computed_by))]
pub fn computed<'a, I: Tokens<'a> + Drop, N: Nested<'a, I>>(
    p: &mut Parser<'a, I>,
    nested: &N,
    code: Around,
    level: u8,
) -> Result<ComputedPropName, Failure>
    requires ready { N.ready nested.now }
    ensures value { ReadsBy I.machine I.state (N.reads nested.now) p.old p.new result
        (view_computed_prop_name inner) (λ m r. reads.computed_by m r (code_of code) level) }
    ensures fits { IfOk result (λ x. holds_expr x.expr.part.value) }
    ensures shorter { Shorter I.machine I.state p.old p.new result }
{
    let start = p.lo();
    p.bump()?;
    let key = nested.expr(p, with_in(code), level)?;
    p.expect(kinds::RIGHT_BRACKET)?;
    Ok(ComputedPropName {
        span: p.since(start),
        expr: key.expr,
    })
}
