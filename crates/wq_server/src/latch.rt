//! A latch, which opens once. Threads wait for that.

use std::sync::{Condvar, Mutex, Wait};
use std::time::{Clock, Duration};

/// Whether something has come about for good. Threads share it.
#[derive(Drop)]
pub(crate) struct Latch {
    is_open: Mutex<bool>,
    opened: Condvar,
}

impl Latch {
    /// A latch that is not open yet.
    pub(crate) fn new() -> Latch {
        Latch {
            is_open: Mutex::new(false),
            opened: Condvar::new(),
        }
    }

    /// Opens the latch: the threads that wait for it wake up.
    pub(crate) fn open<R: Wait>(&self, rt: &R) {
        *self.is_open.lock(rt) = true;
        self.opened.notify_all();
    }

    /// Whether it is open.
    pub(crate) fn is_open<R: Wait>(&self, rt: &R) -> bool {
        *self.is_open.lock(rt)
    }

    /// Waits so long, but no longer than until it opens. Says whether it is open.
    pub(crate) fn wait<R: Wait + Clock>(&self, rt: &R, time: Duration) -> bool {
        let lock = self.is_open.lock(rt);
        let (is_open, _) = self
            .opened
            .wait_timeout_while(rt, lock, time, |is_open| !*is_open);
        *is_open
    }
}
