//! Faults of a command line.

use clap::Error;
use clap::error::ErrorKind;
use std::alloc::{AllocError, AllocFailed};

/// Why the command line asks for nothing.
#[derive(Clone, Copy, Debug, PartialEq, Eq, Drop)]
pub enum CommandLineFault {
    /// Its words are not those of a command, or they ask for help.
    Wrong,
    /// Memory ran out.
    NoMemory,
}

impl CommandLineFault {
    /// Memory that ran out is told apart from words that are wrong.
    pub(crate) fn of(error: &Error) -> CommandLineFault {
        match error.kind() {
            ErrorKind::OutOfMemory => CommandLineFault::NoMemory,
            _ => CommandLineFault::Wrong,
        }
    }
}

impl From<AllocError> for CommandLineFault {
    fn from(_error: AllocError) -> CommandLineFault {
        CommandLineFault::NoMemory
    }
}

impl<T: Drop> From<AllocFailed<T>> for CommandLineFault {
    fn from(_error: AllocFailed<T>) -> CommandLineFault {
        CommandLineFault::NoMemory
    }
}
