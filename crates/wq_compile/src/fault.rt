//! The reasons for which an expression has no program.

use std::alloc::AllocError;
use thiserror::Error;

/// The reason for which an expression has no program.
#[derive(Clone, Copy, Debug, PartialEq, Eq, Drop, Error)]
pub enum CompileFault {
    /// Its code and the end have over 65,536 instructions, or a list of texts has over 65,536
    /// entries, empty suffixes not counted.
    #[error("program too large")]
    TooLarge,
    /// A growth was refused.
    #[error("no memory")]
    NoMemory,
}

impl From<AllocError> for CompileFault {
    ghost use Rattle.std.specs.Prelude.{◌≡◌};
    ghost use Rattle.wq_compile.specs.declared.fault.CompileFault.TheVariants.{NoMemory};

    ghost from_gives = { λ _ fault. fault ≡ NoMemory };

    fn from(_refused: AllocError) -> CompileFault {
        CompileFault::NoMemory
    }
}
