//! The time that several waits share.

use crate::times::time_since;
use std::io;
use std::time::{Clock, Duration, Instant};

/// A time from some moment on. Waits that come one after the other end with it.
#[derive(Drop)]
pub(crate) struct Patience {
    began: io::Result<Instant>,
    time: Duration,
}

impl Patience {
    /// So long from now on.
    pub(crate) fn new<R: Clock>(rt: &R, time: Duration) -> Patience {
        Patience {
            began: Instant::now(rt),
            time,
        }
    }

    /// How much of it is left: all of it if the clock cannot be read.
    pub(crate) fn left<R: Clock>(&self, rt: &R) -> Duration {
        self.time.saturating_sub(time_since(rt, self.began))
    }
}
