//! Makers of the parts of imports and exports.
ghost use Rattle.std.specs.Prelude.{◌≡◌, IfErr, IfOk, Some};
ghost use Rattle.tree_nodes.specs.View.{view_str};
ghost use Rattle.tree_spec.specs.Tree.{str_lit};
ghost use Rattle.parse_state.specs.Answers.{IsMemory};

use base_token::{Atom, Span, StrValue, Units};
use parse_state::Failure;
use std::alloc::Global;
use tree_nodes::Str;

/// A string.
#[inline(never)]
pub fn text(alloc: Global, span: Span, units: Units<'_>, raw: &str) -> Result<Str, Failure>
    ensures value { IfOk result (λ x. view_str x ≡ str_lit span units.entry (Some raw.now)) }
    ensures full { IfErr result IsMemory }
{
    Ok(Str {
        span,
        units: StrValue::from_units(alloc, units)?,
        raw: Some(Atom::new(alloc, raw)?),
    })
}
