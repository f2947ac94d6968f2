//! The order in which faults are listed.

ghost use Rattle.grammar_spec.specs.Judge.Early.{in_order, row};
ghost use Rattle.judge.specs.Order.{order_key};
ghost use Rattle.std.specs.Prelude.{IfOk, ◌≡◌, ◌≤◌};

use base_token::{Error, SyntaxError};
use std::alloc::AllocError;

/// The row of a fault in the table of early errors.
#[tactic(auto, using(crate::proofs::Ordered::few_rows))]
fn row(kind: SyntaxError) -> u8
    ensures row { result ≡ row kind }
    ensures few { result ≤ 22 }
{
    match kind {
        SyntaxError::InvalidIdentInStrict => 1,
        SyntaxError::EvalAndArgumentsInStrict => 2,
        SyntaxError::LegacyOctal => 3,
        SyntaxError::LegacyDecimal => 4,
        SyntaxError::WithInStrict => 5,
        SyntaxError::NotSimpleAssign => 6,
        SyntaxError::UndefinedLabel => 7,
        SyntaxError::DuplicateLabel => 8,
        SyntaxError::IllegalBreak => 9,
        SyntaxError::IllegalContinue => 10,
        SyntaxError::ReturnNotAllowed => 11,
        SyntaxError::InvalidSuper => 12,
        SyntaxError::InvalidSuperCall => 13,
        SyntaxError::InvalidNewTarget => 14,
        SyntaxError::DuplicateConstructor => 15,
        SyntaxError::DuplicateProto => 16,
        SyntaxError::IllegalLanguageModeDirective => 17,
        SyntaxError::InitRequired => 18,
        SyntaxError::UsingDeclNotAllowed => 19,
        SyntaxError::UsingDeclNotAllowedForForInLoop => 20,
        SyntaxError::InvalidNameInUsingDecl => 21,
        SyntaxError::InitRequiredForUsingDecl => 22,
        _ => 0,
    }
}

/// The order as one number: the place where a fault starts, and its row.
fn order_key(fault: &Error) -> u64
    ensures { result ≡ order_key fault.now }
{
    u64::from(fault.span.lo.0) * 32 + u64::from(row(fault.kind))
}

/// Puts faults in the order of their places' starts, and those of one start in that of the table.
///
/// # Errors
///
/// Want of memory. Up to 20 faults take none.
pub fn put_in_order(faults: &mut Vec<Error>) -> Result<(), AllocError>
    ensures { IfOk result (λ _. faults.new.items ≡ in_order faults.old.items) }
{
    faults.sort_by_key(|fault| order_key(fault))
}
