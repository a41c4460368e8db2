//! What the operator hears of the server.

use crate::failures::{FailingRoots, back_line, fault_line};
use std::alloc::{AllocError, Global};
use std::sync::{Arc, Mutex, Wait};
use wq_crawl::CrawlFault;
use wq_launch::{Launcher, MAX_RUNS, Notices, Spawn};

/// The operator, as the threads of the server share him. He hears of each fault once.
pub(crate) struct Operator<O: Notices + Drop, R: Wait + Copy + Drop> {
    rt: R,
    alloc: Global,
    /// The line when the server begins to serve clients.
    greeting: String,
    failing: Mutex<FailingRoots>,
    notices: Arc<O>,
}

impl<O: Notices + Drop, R: Wait + Copy + Drop> Operator<O, R> {
    /// The operator of a server whose socket has this name. He knows of no fault yet.
    pub(crate) fn new(
        rt: R,
        alloc: Global,
        sockname: &str,
        notices: &Arc<O>,
    ) -> Result<Operator<O, R>, AllocError> {
        let notices = notices.clone()?;
        Ok(Operator {
            rt,
            alloc,
            greeting: format!(in alloc; "listening on {sockname}")?,
            failing: Mutex::new(FailingRoots::new(alloc)),
            notices,
        })
    }

    /// Tells the operator that clients are served from now on.
    pub(crate) fn greet(&self) {
        self.notices.tell(&self.greeting);
    }

    /// Forgets the faults of roots that are not shown any more.
    pub(crate) fn forget_others(&self, shown: &[u64]) {
        self.failing.lock(&self.rt).forget_others(shown);
    }

    /// Tells the operator that a root is crawled again, if it could not be crawled before.
    pub(crate) fn tell_if_back(&self, number: u64, root: &str) {
        if self.failing.lock(&self.rt).remove(number)
            && let Ok(line) = back_line(self.alloc, root)
        {
            self.notices.tell(&line);
        }
    }

    /// Tells the operator that a root cannot be crawled, unless that was so the last time already.
    pub(crate) fn tell_once(&self, number: u64, root: &str, fault: CrawlFault) {
        if self.failing.lock(&self.rt).add(number, fault)
            && let Ok(line) = fault_line(self.alloc, root, fault)
        {
            self.notices.tell(&line);
        }
    }

    /// Tells the operator of the triggers whose commands could not be started, once for each.
    pub(crate) fn tell_of_starts<P: Spawn + Drop>(&self, launcher: &Mutex<Launcher<P, R>>) {
        for _ in 0..MAX_RUNS {
            let next = launcher.lock(&self.rt).next_line();
            let Ok(Some(line)) = next else {
                return;
            };
            self.notices.tell(line.as_str());
        }
    }
}

// It is freed by one call, wherever a function gives up.
impl<O: Notices + Drop, R: Wait + Copy + Drop> Drop for Operator<O, R> {
    fn drop(self) {
        let Operator {
            rt: _,
            alloc: _,
            greeting: _,
            failing: _,
            notices: _,
        } = self;
    }
}
