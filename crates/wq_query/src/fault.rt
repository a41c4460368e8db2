//! The faults of a JSON object as a query.

use std::alloc::{AllocError, AllocFailed};
use thiserror::Error;
use wq_term::TermFault;

/// The first fault of a JSON object as a query, in this order.
#[derive(Clone, Copy, Debug, PartialEq, Eq, Drop, Error)]
pub enum QueryFault {
    /// A key that would change the answer, and is left out.
    #[error("query key is left out")]
    LeftOutKey,
    /// There are both of `expression` and `program`.
    #[error("expression and program")]
    ExpressionAndProgram,
    /// The value of `expression` is no expression.
    #[error("{0}")]
    Expression(TermFault),
    /// `fields` is no list of texts, is empty, or names an unknown field.
    #[error("unknown field")]
    UnknownField,
    /// `suffix` is no text or list of texts, `path` no list of paths, or `glob` no list of texts.
    /// Or a text of the first two has over 4,096 bytes, or a depth is below -1 or over 2^62.
    #[error("bad generator")]
    BadGenerator,
    /// A text of `glob` has over 255 bytes.
    #[error("pattern too long")]
    PatternTooLong,
    /// The value of `since` is no clock spec.
    #[error("bad clockspec")]
    BadClockSpec,
    /// A wrong value of another key.
    #[error("wrong query value")]
    WrongValue,
    /// A growth was refused.
    #[error("no memory")]
    NoMemory,
}

impl From<AllocError> for QueryFault {
    ghost use Rattle.std.specs.Prelude.{◌≡◌};
    ghost use Rattle.wq_query.specs.declared.fault.QueryFault.TheVariants.{NoMemory};

    ghost from_gives = { λ _ fault. fault ≡ NoMemory };

    fn from(_error: AllocError) -> QueryFault {
        QueryFault::NoMemory
    }
}

impl<T: Drop> From<AllocFailed<T>> for QueryFault {
    ghost use Rattle.std.specs.Prelude.{◌≡◌};
    ghost use Rattle.wq_query.specs.declared.fault.QueryFault.TheVariants.{NoMemory};

    ghost from_gives = { λ _ fault. fault ≡ NoMemory };

    fn from(_error: AllocFailed<T>) -> QueryFault {
        QueryFault::NoMemory
    }
}
