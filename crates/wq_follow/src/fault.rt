//! The faults of a JSON object as a trigger.

use std::alloc::{AllocError, AllocFailed};
use thiserror::Error;
use wq_query::QueryFault;

/// The first fault of a JSON object as a trigger, in this order.
#[derive(Clone, Copy, Debug, PartialEq, Eq, Drop, Error)]
pub enum TriggerFault {
    /// The name is a text that is empty or has over 255 bytes.
    #[error("bad name")]
    BadName,
    /// A key that is left out, no name or command, or a value of another shape.
    #[error("bad trigger")]
    BadShape,
    /// There are both of `expression` and `program`, or the value of `expression` is no expression.
    #[error("{0}")]
    Query(QueryFault),
    /// A growth was refused.
    #[error("no memory")]
    NoMemory,
}

impl From<AllocError> for TriggerFault {
    ghost use Rattle.std.specs.Prelude.{◌≡◌};
    ghost use Rattle.wq_follow.specs.declared.fault.TriggerFault.TheVariants.{NoMemory};

    ghost from_gives = { λ _ fault. fault ≡ NoMemory };

    fn from(_error: AllocError) -> TriggerFault {
        TriggerFault::NoMemory
    }
}

impl<T: Drop> From<AllocFailed<T>> for TriggerFault {
    ghost use Rattle.std.specs.Prelude.{◌≡◌};
    ghost use Rattle.wq_follow.specs.declared.fault.TriggerFault.TheVariants.{NoMemory};

    ghost from_gives = { λ _ fault. fault ≡ NoMemory };

    fn from(_error: AllocFailed<T>) -> TriggerFault {
        TriggerFault::NoMemory
    }
}
