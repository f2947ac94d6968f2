//! What a command line asks for.

use crate::options::Options;
use std::alloc::AllocError;
use thiserror::Error;

/// What a command line asks for: how to run, and the file to read. Without a path it is standard input.
#[derive(Drop)]
pub struct Invocation {
    pub options: Options,
    pub path: Option<String>,
}

/// Why a command line is not taken.
#[derive(Debug, Drop, Error)]
pub enum CliFault {
    /// The words are not those of the program, or ask for help; with the text to show.
    #[error("{0}")]
    Refused(String),
    /// A growth was refused.
    #[error("out of memory")]
    Memory,
}

impl From<AllocError> for CliFault {
    ghost use Rattle.std.specs.Prelude.{◌≡◌};
    ghost use Rattle.run_command.specs.declared.request.CliFault.TheVariants.{Memory};

    ghost from_gives = { λ _ fault. fault ≡ Memory };

    fn from(_: AllocError) -> CliFault {
        CliFault::Memory
    }
}
