//! What the threads of a walk spent on it: the time for which each worked, by its own processor time, and the time for
//! which it waited.
ghost use Rattle.std.specs.Prelude.{◌≡◌, min};
ghost use Rattle.std.specs.Duration.{as_nanos};
ghost use Rattle.wq_walk.specs.Threads.{time_waited};

use std::time::{Clock, CpuClock, Duration, Instant};

/// What threads spent on a walk.
#[derive(Clone, Copy, Drop)]
pub(crate) struct Spent {
    /// Their processor time in nanoseconds.
    pub(crate) worked: u64,
    /// Their time by the clock less that, in nanoseconds: they waited for a disk, or for a processor.
    pub(crate) waited: u64,
}

/// The clock, and the processor time of a thread, when it began its part of a walk.
#[derive(Clone, Copy, Drop)]
pub(crate) struct Beginning {
    clock: Instant,
    worked: Duration,
}

impl Beginning {
    /// This thread begins its part now. Nothing is known of it if a clock cannot be read.
    pub(crate) fn now<C: Clock + CpuClock>(clocks: &C) -> Option<Beginning> {
        let clock = Instant::now(clocks).ok()?;
        let worked = clocks.thread_cpu_time().ok()?;
        Some(Beginning { clock, worked })
    }
}

/// What this thread spent since it began its part, if the clocks can be read.
pub(crate) fn spent_since<C: Clock + CpuClock>(
    began: Option<Beginning>,
    clocks: &C,
) -> Option<Spent> {
    let began = began?;
    let took = began.clock.elapsed(clocks).ok()?;
    let worked = clocks.thread_cpu_time().ok()?;
    Some(spent_in(took, worked.saturating_sub(began.worked)))
}

/// What a thread spent that took so long by the clock, and worked for so long.
fn spent_in(took: Duration, worked: Duration) -> Spent
    ensures worked { result.worked ≡ min (as_nanos worked) 18_446_744_073_709_551_615 }
    ensures waited { result.waited ≡ time_waited (as_nanos took) (as_nanos worked) }
{
    Spent {
        worked: nanoseconds(worked),
        waited: nanoseconds(took.saturating_sub(worked)),
    }
}

/// A time in nanoseconds, and no more than a machine word holds.
fn nanoseconds(time: Duration) -> u64
    ensures { result ≡ min (as_nanos time) 18_446_744_073_709_551_615 }
{
    let nanoseconds = time.as_nanos();
    if nanoseconds > u128::from(u64::MAX) {
        u64::MAX
    } else {
        nanoseconds as u64
    }
}
