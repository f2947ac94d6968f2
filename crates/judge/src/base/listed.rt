//! Lists of faults.
ghost use Rattle.std.specs.Prelude.{◌≡◌, ◌++◌, IfOk};
ghost use Rattle.grammar_spec.specs.Judge.Early.{fault, in_order};

use base_token::{Error, Span, SyntaxError};
use std::alloc::AllocError;

/// Puts a fault behind the others, where its test holds.
pub fn add(
    faults: &mut Vec<Error>,
    holds: bool,
    kind: SyntaxError,
    span: Span,
) -> Result<(), AllocError>
    ensures { IfOk result (λ _. faults.new.items ≡ faults.old.items ++ fault holds kind span) }
{
    if holds {
        faults.push(Error { span, kind })?;
    }
    Ok(())
}
