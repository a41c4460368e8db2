//! The faults of a JSON value as an expression.

use std::alloc::{AllocError, AllocFailed};
use thiserror::Error;

/// The first fault of a JSON value as an expression: depth first, from left to right. Of one term
/// it is first that it is too deep, then its own other faults in this order, then those of its
/// terms.
#[derive(Clone, Copy, Debug, PartialEq, Eq, Drop, Error)]
pub enum TermFault {
    /// A text that names no term.
    #[error("unknown term")]
    UnknownTerm,
    /// Too many arguments or too few, one that is malformed or past its limit, or a value that is
    /// no term.
    #[error("wrong term arguments")]
    WrongArguments,
    /// More than 64 terms inside one another.
    #[error("expression too deep")]
    TooDeep,
    /// In `since`, a value that is no clock spec, or for `mtime` no second.
    #[error("bad clockspec")]
    BadClockSpec,
    /// In `since`, a clock spec that names a cursor.
    #[error("cursor in a term")]
    CursorInTerm,
    /// In `match` and `imatch`, a pattern of more than 255 bytes.
    #[error("pattern too long")]
    PatternTooLong,
    /// A growth was refused.
    #[error("no memory")]
    NoMemory,
}

impl From<AllocError> for TermFault {
    ghost use Rattle.std.specs.Prelude.{◌≡◌};
    ghost use Rattle.wq_term.specs.declared.fault.TermFault.TheVariants.{NoMemory};

    ghost from_gives = { λ _ fault. fault ≡ NoMemory };

    fn from(_error: AllocError) -> TermFault {
        TermFault::NoMemory
    }
}

impl<T: Drop> From<AllocFailed<T>> for TermFault {
    ghost use Rattle.std.specs.Prelude.{◌≡◌};
    ghost use Rattle.wq_term.specs.declared.fault.TermFault.TheVariants.{NoMemory};

    ghost from_gives = { λ _ fault. fault ≡ NoMemory };

    fn from(_error: AllocFailed<T>) -> TermFault {
        TermFault::NoMemory
    }
}
