//! The calls of sessions that wait for a crawl.

use std::sync::atomic::{AtomicU64, Ordering};
use std::sync::{Arc, Condvar, Mutex, Wait};
use std::time::{Clock, Duration};

/// The number of calls that wait for a crawl. The tree looks at it, so that it can tell a crawl for
/// which somebody waits from one of a round. Threads share it.
#[derive(Drop)]
pub(crate) struct Callers {
    count: Arc<AtomicU64>,
    /// A round that waits until no call waits.
    round: Mutex<()>,
    gone: Condvar,
}

impl Callers {
    /// The calls that this count counts.
    pub(crate) fn new(count: Arc<AtomicU64>) -> Callers {
        Callers {
            count,
            round: Mutex::new(()),
            gone: Condvar::new(),
        }
    }

    /// A call waits from now on.
    pub(crate) fn enter(&self) {
        self.count.fetch_add(1, Ordering::SeqCst);
    }

    /// A call waits no longer.
    pub(crate) fn leave<R: Wait>(&self, rt: &R) {
        if self.count.fetch_sub(1, Ordering::SeqCst) == 1 {
            // A round that waits either looks at the count after this, or is waiting by now.
            drop(self.round.lock(rt));
            self.gone.notify_all();
        }
    }

    /// Waits until no call waits, but no longer than this. Says whether none waits.
    pub(crate) fn wait_for_none<R: Wait + Clock>(&self, rt: &R, time: Duration) -> bool {
        let lock = self.round.lock(rt);
        let (lock, _) = self
            .gone
            .wait_timeout_while(rt, lock, time, |_| self.is_any());
        drop(lock);
        !self.is_any()
    }

    /// Whether a call waits.
    pub(crate) fn is_any(&self) -> bool {
        self.count.load(Ordering::SeqCst) > 0
    }
}
