//! The refusals of a shelf.

use std::alloc::AllocError;
use thiserror::Error;

/// A refusal of a shelf, which leaves it as it was.
#[derive(Clone, Copy, Debug, PartialEq, Eq, Drop, Error)]
pub enum ShelfFault {
    /// The root is not on the shelf.
    #[error("no such root")]
    NoRoot,
    /// The name is new, and the shelf has as many of its kind as may be.
    #[error("shelf is full")]
    Full,
    /// A growth was refused.
    #[error("no memory")]
    NoMemory,
}

impl From<AllocError> for ShelfFault {
    ghost use Rattle.std.specs.Prelude.{◌≡◌};
    ghost use Rattle.wq_registry.specs.declared.fault.ShelfFault.TheVariants.{NoMemory};

    ghost from_gives = { λ _ fault. fault ≡ NoMemory };

    fn from(_refused: AllocError) -> ShelfFault {
        ShelfFault::NoMemory
    }
}
