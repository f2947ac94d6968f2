//! Why something could not be written.

use std::alloc::{AllocError, AllocFailed};
use std::io::ErrorKind;
use thiserror::Error as Fails;

/// Why something could not be written. A beginning of it is written.
#[derive(Clone, Copy, Debug, PartialEq, Eq, Fails)]
pub enum EmitError {
    /// The writer failed, or took nothing of a text that is not empty.
    #[error("write failed")]
    Write(ErrorKind),
    /// A growth was refused.
    #[error("out of memory")]
    Memory,
    /// The tree holds a node that has no text.
    #[error("node cannot be printed")]
    Node,
    /// A line or a column is past 4,294,967,295, and positions are kept.
    #[error("position too large")]
    Position,
}

impl<T: Drop> From<AllocFailed<T>> for EmitError {
    ghost use Rattle.std.specs.Prelude.{◌≡◌};
    ghost use Rattle.print_writers.specs.declared.fault.EmitError.TheVariants.{Memory};

    ghost from_gives = { λ _ f. f ≡ Memory };

    fn from(_: AllocFailed<T>) -> EmitError {
        EmitError::Memory
    }
}

impl From<AllocError> for EmitError {
    ghost use Rattle.std.specs.Prelude.{◌≡◌};
    ghost use Rattle.print_writers.specs.declared.fault.EmitError.TheVariants.{Memory};

    ghost from_gives = { λ _ f. f ≡ Memory };

    fn from(_: AllocError) -> EmitError {
        EmitError::Memory
    }
}
