//! A second `__proto__: v` in an object (ECMA-262, 13.2.5.1).
ghost use Rattle.std.specs.Prelude.{◌≡◌, ◌++◌, false, IfOk};
ghost use Rattle.tree_spec.specs.Tree.{trees_by};
ghost use Rattle.tree_nodes.specs.View.{view_prop_name, view_prop_or_spread, view_key_value_prop};
ghost use Rattle.grammar_spec.specs.Judge.Early.{is_proto, second_protos};
ghost use Rattle.judge.specs.Faults.Asked.{proto_of};

use crate::base::listed::add;
use crate::faults::check::Held;
use base_token::{Error, Span, SyntaxError};
use std::alloc::AllocError;
use std::convert::AsStr;
use tree_nodes::{KeyValuePropOf, PropNameOf, PropOf, PropOrSpreadOf};

/// The units of `__proto__`.
const PROTO: [u16; 9] = [95, 95, 112, 114, 111, 116, 111, 95, 95];

/// Whether a property's key is the word or the string `__proto__`.
fn is_proto<T: Held>(prop: &KeyValuePropOf<T>) -> bool
    ensures { result ≡ is_proto (view_key_value_prop T.Check.tree prop.now) }
{
    match &prop.key {
        PropNameOf::Ident(x) => x.sym.as_str() == "__proto__",
        PropNameOf::Str(x) => x.units.as_slice() == PROTO.as_slice(),
        PropNameOf::Num(_) | PropNameOf::BigInt(_) | PropNameOf::Computed(_) => false,
    }
}

/// The place of a property `__proto__: v`.
fn proto_place<T: Held>(prop: &PropOrSpreadOf<T>) -> Option<Span>
    ensures { result ≡ proto_of (view_prop_or_spread T.Check.tree prop.now) }
{
    let PropOrSpreadOf::Prop(prop) = prop else {
        return None;
    };
    match &**prop {
        PropOf::KeyValue(x) if is_proto(x) => Some(x.span),
        _ => None,
    }
}

/// The faults of a second `__proto__: v` and of those behind it.
#[tactic(auto, using(crate::proofs::faults::Asking::second_protos_step))]
pub(crate) fn second_protos<T: Held>(
    props: &[PropOrSpreadOf<T>],
    faults: &mut Vec<Error>,
) -> Result<(), AllocError>
    ensures { IfOk result (λ _. faults.new.items ≡ faults.old.items ++ second_protos false (trees_by (view_prop_or_spread T.Check.tree) props.now)) }
{
    let mut had = false;
    for prop in props {
        if let Some(span) = proto_place(prop) {
            add(faults, had, SyntaxError::DuplicateProto, span)?;
            had = true;
        }
    }
    Ok(())
}
