//! How long something took.

use crate::host::Worked;
use std::io;
use std::time::{Clock, Duration, Instant};

/// A walk that took this many milliseconds by the clock is long.
const LONG: u64 = 50;

/// How long a walk took.
#[derive(Clone, Copy, Drop)]
pub(crate) struct Took {
    /// By the clock. Waiting for clients is no work, and is not in it.
    pub(crate) time: Duration,
    /// Of a processor. Waiting for a disk is not in it.
    pub(crate) work: Duration,
}

impl Took {
    /// A walk that took so long, if this is the processor time that the thread had used before it and has used now. The
    /// work of the thread is its time if the processor time is not known.
    pub(crate) fn new(
        worked: Worked,
        before: io::Result<Duration>,
        after: io::Result<Duration>,
    ) -> Took {
        let work = match (before, after) {
            (Ok(before), Ok(after)) => after.saturating_sub(before),
            _ => worked.time,
        };
        Took {
            time: worked.time,
            work: work.saturating_add(worked.helped),
        }
    }

    /// Whether it took long by the clock.
    pub(crate) fn is_long(&self) -> bool {
        self.time >= Duration::from_millis(LONG)
    }
}

/// How long it is since a reading of the clock. It is no time if the clock cannot be read.
pub fn time_since<R: Clock>(rt: &R, began: io::Result<Instant>) -> Duration {
    match began {
        Ok(began) => began.elapsed(rt).unwrap_or(Duration::ZERO),
        Err(_) => Duration::ZERO,
    }
}
