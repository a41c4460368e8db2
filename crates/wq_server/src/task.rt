//! The tasks of rounds: a crawl of a root, or a glance at it.

use crate::host::Host;
use crate::server::Server;
use crate::times::Took;
use crate::walks::DueGlance;
use std::time::CpuClock;

/// A task of a round.
#[derive(Clone, Copy, Drop)]
pub(crate) enum Task {
    /// A crawl of the root of this number.
    Crawl(u64),
    /// A glance.
    Glance(DueGlance),
}

impl Task {
    /// The number of the root.
    pub(crate) fn number(&self) -> u64 {
        match self {
            Task::Crawl(number) => *number,
            Task::Glance(look) => look.number,
        }
    }

    /// Does the task, and returns how long it took.
    pub(crate) fn run<R, H>(&self, rt: &R, server: &Server<H>) -> Took
    where
        R: CpuClock,
        H: Host + Drop,
    {
        let before = rt.thread_cpu_time();
        let worked = match self {
            Task::Crawl(number) => server.host.crawl(*number, &server.stop),
            Task::Glance(look) => server.host.glance(look.number, look.reach),
        };
        Took::new(worked, before, rt.thread_cpu_time())
    }
}
