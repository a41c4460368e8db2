//! The pulse of a server: it beats after each round of crawls, and wakes the threads that wait for that.

use crate::stop::Stop;
use std::sync::{Condvar, Mutex, Wait};
use std::time::{Clock, Duration};

/// How many rounds of crawls there were. Threads share it.
#[derive(Drop)]
pub(crate) struct Pulse {
    beats: Mutex<u64>,
    changed: Condvar,
}

impl Pulse {
    /// The pulse of a server that has crawled nothing yet.
    pub(crate) fn new() -> Pulse {
        Pulse {
            beats: Mutex::new(0),
            changed: Condvar::new(),
        }
    }

    /// Beats once: a round of crawls has ended.
    pub(crate) fn beat<R: Wait>(&self, rt: &R) {
        let mut beats = self.beats.lock(rt);
        *beats = beats.wrapping_add(1);
        drop(beats);
        self.changed.notify_all();
    }

    /// Lets the waiting threads see that the server ends.
    pub(crate) fn wake<R: Wait>(&self, rt: &R) {
        // A thread that waits either looks after this, or is waiting by now.
        drop(self.beats.lock(rt));
        self.changed.notify_all();
    }

    /// Waits for a beat after so many, but no longer than this, and no longer than the server goes
    /// on. Gives the number of beats.
    pub(crate) fn wait<R: Wait + Clock>(
        &self,
        rt: &R,
        stop: &Stop,
        count: u64,
        time: Duration,
    ) -> u64 {
        let lock = self.beats.lock(rt);
        let (beats, _) = self.changed.wait_timeout_while(rt, lock, time, |beats| {
            *beats == count && !stop.is_asked(rt)
        });
        *beats
    }
}
