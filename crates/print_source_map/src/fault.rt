//! Why there is no source map.

use std::alloc::AllocError;
use thiserror::Error as Fails;

/// Why there is no source map.
#[derive(Clone, Copy, Debug, PartialEq, Eq, Fails)]
pub enum MapError {
    /// A growth was refused.
    #[error("out of memory")]
    Memory,
    /// A place that was written is before the one that stands before it.
    #[error("places out of order")]
    Order,
    /// A line or a column is past 2,147,483,647.
    #[error("place too far")]
    TooFar,
}

impl From<AllocError> for MapError {
    ghost use Rattle.std.specs.Prelude.{◌≡◌};
    ghost use Rattle.print_source_map.specs.declared.fault.MapError.TheVariants.{Memory};

    ghost from_gives = { λ _ f. f ≡ Memory };

    fn from(_: AllocError) -> MapError {
        MapError::Memory
    }
}
