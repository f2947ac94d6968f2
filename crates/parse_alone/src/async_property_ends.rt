//! The word `async` at the end of a property.
ghost use Rattle.std.specs.Prelude.{◌≡◌, option_map};
ghost use Rattle.tree_nodes.specs.Fits.{fits_object_pat_prop, fits_prop_or_spread};
ghost use Rattle.tree_nodes.specs.Placed.{inner};
ghost use Rattle.tree_nodes.specs.View.{view_object_pat_prop, view_prop_or_spread};
ghost use Rattle.parse_state.specs.Codes.{code_of};
ghost use Rattle.parse_alone.specs.Ends as ends;
ghost use Rattle.parse_alone.specs.Props.{value_of};

use crate::async_ends::async_end;
use parse_state::Around;
use tree_nodes::{ObjectPatProp, PatKind, Prop, PropOrSpread};

/// Where a property of an object ends with that word in the place of an arrow, the code there.
pub fn prop_async_end(code: Around, prop: &PropOrSpread) -> Option<Around>
    requires { fits_prop_or_spread (λ p. p) prop.now }
    ensures { option_map code_of result ≡ ends.async_end (code_of code)
        (value_of (view_prop_or_spread inner prop.now)) }
{
    match prop {
        PropOrSpread::Spread(spread) => async_end(code, spread.expr.get()),
        PropOrSpread::Prop(prop) => match &**prop {
            Prop::KeyValue(pair) => async_end(code, pair.value.get()),
            _ => None,
        },
    }
}

/// The same of a property of a pattern.
pub fn item_async_end(code: Around, prop: &ObjectPatProp) -> Option<Around>
    requires { fits_object_pat_prop (λ p. p) prop.now }
    ensures { option_map code_of result ≡ ends.async_end (code_of code)
        (value_of (view_object_pat_prop inner prop.now)) }
{
    match prop {
        ObjectPatProp::KeyValue(pair) => match &pair.value.get().kind {
            PatKind::Assign(assign) => async_end(code, assign.right.get()),
            _ => None,
        },
        ObjectPatProp::Assign(assign) => match &assign.value {
            Some(value) => async_end(code, value.get()),
            None => None,
        },
        ObjectPatProp::Rest(_) => None,
    }
}
