//! A property of a pattern, or its rest.
ghost use Rattle.std.specs.Prelude.{IfOk};
ghost use Rattle.tree_nodes.specs.Fits.{fits_object_pat_prop};
ghost use Rattle.tree_nodes.specs.Placed.{inner};
ghost use Rattle.tree_nodes.specs.View.{view_object_pat_prop};
ghost use Rattle.parse_state.specs.Codes.{code_of};
ghost use Rattle.parse_state.specs.Reads.{NotLonger};
ghost use Rattle.parse_operands.specs.Rules.{ReadsBy};
ghost use Rattle.parse_alone.specs.Props.{item_by};

use parse_operands::Nested;
use parse_recursion::{object_rest, property};
use parse_state::{Around, Failure, Parser, Tokens, kinds};
use tree_nodes::ObjectPatProp;

/// A property of a pattern, or its rest.
#[inline(never)]
#[tactic(auto, unfolding(crate::specs::Props::item_by))]
pub fn item<'a, I: Tokens<'a> + Drop, N: Nested<'a, I>>(
    p: &mut Parser<'a, I>,
    nested: &N,
    code: Around,
) -> Result<ObjectPatProp, Failure>
    requires ready { N.ready nested.now }
    ensures value { ReadsBy I.machine I.state (N.reads nested.now) p.old p.new result
        (view_object_pat_prop inner) (λ m r. item_by m r (code_of code)) }
    ensures fits { IfOk result (λ x. fits_object_pat_prop (λ p. p) x) }
    ensures not_longer { NotLonger I.machine I.state p.old p.new result }
{
    if p.at(kinds::DOT_DOT_DOT) {
        return object_rest(p, nested, code);
    }
    property(p, nested, code)
}
