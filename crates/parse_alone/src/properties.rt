//! Finished properties: they nest no deeper than the limit, which is looked at first, and nothing of a cover is left.
ghost use Rattle.std.specs.Prelude.{◌<◌, IfOk};
ghost use Rattle.tree_nodes.specs.Fits.{fits_object_pat_prop, fits_prop_or_spread};
ghost use Rattle.tree_nodes.specs.Placed.{inner};
ghost use Rattle.tree_nodes.specs.View.{view_object_pat_prop, view_prop_or_spread};
ghost use Rattle.parse_state.specs.Codes.{code_of};
ghost use Rattle.parse_state.specs.Reads.{ReadsAs, NotLonger};
ghost use Rattle.parse_alone.specs.Props as props;

use crate::async_ends::heads_arrow;
use crate::async_property_ends::{item_async_end, prop_async_end};
use crate::pattern_properties::item;
use crate::settle::settle;
use parse_modules::prop;
use parse_recursion::Depth;
use parse_state::{Around, Failure, Parser, Tokens};
use tree_nodes::{ObjectPatProp, PropOrSpread};

/// A property of an object.
///
/// # Errors
///
/// Want of memory, a text that nests deeper, or a fault of the text.
#[tactic(auto, unfolding(crate::specs::Props::prop_part))]
pub fn prop_part<'a, I: Tokens<'a> + Drop>(
    p: &mut Parser<'a, I>,
    limit: u32,
    code: Around,
) -> Result<PropOrSpread, Failure>
    requires { limit < 4294967295 }
    ensures value { ReadsAs I.machine I.state p.old p.new result
        (view_prop_or_spread inner) (λ m. props.prop_part m limit (code_of code)) }
    ensures fits { IfOk result (λ x. fits_prop_or_spread (λ p. p) x) }
    ensures not_longer { NotLonger I.machine I.state p.old p.new result }
{
    let start = p.lo();
    let prop = prop(p, &Depth { levels: limit }, code)?;
    let prop = settle(p, start, limit, prop)?;
    if heads_arrow(p, prop_async_end(code, &prop)) {
        return Err(p.unexpected_end());
    }
    Ok(prop)
}

/// A property of a pattern, or its rest.
///
/// # Errors
///
/// Want of memory, a text that nests deeper, or a fault of the text.
#[tactic(auto, unfolding(crate::specs::Props::item_part))]
pub fn item_part<'a, I: Tokens<'a> + Drop>(
    p: &mut Parser<'a, I>,
    limit: u32,
    code: Around,
) -> Result<ObjectPatProp, Failure>
    requires { limit < 4294967295 }
    ensures value { ReadsAs I.machine I.state p.old p.new result
        (view_object_pat_prop inner) (λ m. props.item_part m limit (code_of code)) }
    ensures fits { IfOk result (λ x. fits_object_pat_prop (λ p. p) x) }
    ensures not_longer { NotLonger I.machine I.state p.old p.new result }
{
    let start = p.lo();
    let item = item(p, &Depth { levels: limit }, code)?;
    let item = settle(p, start, limit, item)?;
    if heads_arrow(p, item_async_end(code, &item)) {
        return Err(p.unexpected_end());
    }
    Ok(item)
}
