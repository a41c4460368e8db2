//! The turns at a lane. A thread has the turn while it crawls there. Others wait for it, and may give up.

use std::sync::{Condvar, Mutex, Wait};
use std::time::{Clock, Duration};

/// Whether a thread has the turn. Threads share it.
#[derive(Drop)]
pub(crate) struct LaneTurn {
    is_taken: Mutex<bool>,
    given: Condvar,
}

impl LaneTurn {
    /// A turn that nobody has.
    pub(crate) fn new() -> LaneTurn {
        LaneTurn {
            is_taken: Mutex::new(false),
            given: Condvar::new(),
        }
    }

    /// Takes the turn as soon as nobody has it.
    pub(crate) fn take<R: Wait>(&self, rt: &R) {
        let lock = self.is_taken.lock(rt);
        *self.given.wait_while(rt, lock, |is_taken| *is_taken) = true;
    }

    /// Takes the turn as soon as nobody has it, but waits no longer than this. Says whether it did.
    pub(crate) fn take_within<R: Wait + Clock>(&self, rt: &R, time: Duration) -> bool {
        let lock = self.is_taken.lock(rt);
        let (mut is_taken, _) = self
            .given
            .wait_timeout_while(rt, lock, time, |is_taken| *is_taken);
        if *is_taken {
            return false;
        }
        *is_taken = true;
        true
    }

    /// Gives the turn back.
    pub(crate) fn give<R: Wait>(&self, rt: &R) {
        *self.is_taken.lock(rt) = false;
        self.given.notify_all();
    }
}
