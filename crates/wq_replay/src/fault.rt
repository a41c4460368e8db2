//! The faults that end a replay before its script: of a step, and of the taking of a line.
ghost use Rattle.std.specs.Prelude.{◌≡◌};
ghost use Rattle.wq_replay.specs.Fault.{step_fault};

use std::alloc::{AllocError, AllocFailed};
use std::io;
use thiserror::Error;

/// Why a replay ended before its script.
#[derive(Clone, Copy, Debug, PartialEq, Eq, Drop, Error)]
pub enum ReplayFault {
    /// The line of this number, counted from 1, is malformed.
    #[error("script line {0}")]
    Line(u64),
    /// The script could not be read, or is longer than [`MAX_SCRIPT`](crate::MAX_SCRIPT).
    #[error("replay failed")]
    Read,
    /// A reply could not be written.
    #[error("replay failed")]
    Write,
    /// Memory ran out.
    #[error("replay failed")]
    Memory,
}

/// Why a line of a script was not played.
#[derive(Clone, Copy, Debug, PartialEq, Eq, Drop)]
pub(crate) enum StepFault {
    /// It is malformed.
    Malformed,
    /// Its reply could not be written.
    Write,
    /// Memory ran out.
    NoMemory,
}

/// Why a line of a script was not taken to its end.
#[derive(Clone, Copy, Debug, PartialEq, Eq, Drop)]
pub(crate) enum TakeFault {
    /// The script could not be read.
    Read,
    /// Memory ran out.
    NoMemory,
}

impl StepFault {
    /// The fault of the replay, if its line of this number has this fault.
    pub(crate) fn at(self, number: u64) -> ReplayFault
        ensures { result ≡ step_fault number self }
    {
        match self {
            StepFault::Malformed => ReplayFault::Line(number),
            StepFault::Write => ReplayFault::Write,
            StepFault::NoMemory => ReplayFault::Memory,
        }
    }
}

impl From<TakeFault> for ReplayFault {
    ghost use Rattle.std.specs.Prelude.{◌≡◌};
    ghost use Rattle.wq_replay.specs.Fault.{taking_fault};

    ghost from_gives = { λ fault end. end ≡ taking_fault fault };

    fn from(fault: TakeFault) -> ReplayFault {
        match fault {
            TakeFault::Read => ReplayFault::Read,
            TakeFault::NoMemory => ReplayFault::Memory,
        }
    }
}

impl From<io::Error> for StepFault {
    ghost use Rattle.std.specs.Prelude.{◌≡◌};
    ghost use Rattle.wq_replay.specs.declared.fault.StepFault.TheVariants.{Write};

    ghost from_gives = { λ _ fault. fault ≡ Write };

    fn from(_error: io::Error) -> StepFault {
        StepFault::Write
    }
}

impl From<AllocError> for StepFault {
    ghost use Rattle.std.specs.Prelude.{◌≡◌};
    ghost use Rattle.wq_replay.specs.declared.fault.StepFault.TheVariants.{NoMemory};

    ghost from_gives = { λ _ fault. fault ≡ NoMemory };

    fn from(_error: AllocError) -> StepFault {
        StepFault::NoMemory
    }
}

impl<T: Drop> From<AllocFailed<T>> for StepFault {
    ghost use Rattle.std.specs.Prelude.{◌≡◌};
    ghost use Rattle.wq_replay.specs.declared.fault.StepFault.TheVariants.{NoMemory};

    ghost from_gives = { λ _ fault. fault ≡ NoMemory };

    fn from(_error: AllocFailed<T>) -> StepFault {
        StepFault::NoMemory
    }
}

impl From<AllocError> for TakeFault {
    ghost use Rattle.std.specs.Prelude.{◌≡◌};
    ghost use Rattle.wq_replay.specs.declared.fault.TakeFault.TheVariants.{NoMemory};

    ghost from_gives = { λ _ fault. fault ≡ NoMemory };

    fn from(_error: AllocError) -> TakeFault {
        TakeFault::NoMemory
    }
}
