//! The work of the server's threads: sessions, crawls and rounds of triggers, and the lines to its operator.

ghost use Rattle.std.specs.Thread.{IsSync};

use crate::moments::RootNumbers;
use crate::quiet::Stir;
use crate::stop::Stop;
use std::io::Write;
use std::sync::Arc;
use std::thread::Threads;
use std::time::Duration;
use wq_base::Asker;
use wq_crawl::Caller;
use wq_launch::{Runs, StartedCommand};
use wq_patch::Reach;
use wq_stream::Inbox;

/// The work of a crawl.
#[derive(Clone, Copy, Drop)]
pub struct Worked {
    /// How long it took by the clock.
    pub time: Duration,
    /// How much processor time other threads than the caller's took.
    pub helped: Duration,
}

/// Serves clients, crawls roots and starts the commands of triggers, from many threads at once.
pub trait Host {
    /// Tells the operator that clients are served from now on.
    fn greet(&self);

    /// Runs a session over all its events, and says whether it asked that the server ends. This handle starts the threads
    /// that look for the files of its queries, which give up if the client has gone. The client sees when a line was read.
    fn serve<T: Threads + Sync, A: Asker + Caller, I: Inbox, W: Write>(
        &self,
        threads: &T,
        client: &A,
        inbox: &mut I,
        writer: &mut W,
    ) -> bool
        requires { IsSync T.row };

    /// The roots that are shown now; none if memory runs out for them.
    fn numbers(&self) -> Option<RootNumbers>;

    /// Begins a round of crawls, and gives the roots that are shown; none if memory runs out for them.
    fn begin_round(&self) -> Option<RootNumbers>;

    /// What stirred these roots since this was asked last; none if memory runs out for it.
    fn stirs(&self, shown: &[u64]) -> Option<Vec<Stir>>;

    /// Whether a root has triggers.
    fn has_triggers(&self) -> bool;

    /// Crawls the root of this number, if it is shown, and then has a round of its triggers. The
    /// caller then takes the commands that were started. Waiting for clients is no work.
    ///
    /// The crawl gives way to clients that wait for a crawl of the root. If the server is to end, it does no more.
    fn crawl(&self, number: u64, stop: &Stop) -> Worked;

    /// Glances at the root of this number, looks so far, and then has a round of its triggers. It gives way to clients
    /// that wait for a crawl of the root. Nobody hears of a fault, since the next crawl meets it too.
    fn glance(&self, number: u64, reach: Reach) -> Worked;

    /// Has the walk of a round end before its time, since the server ends.
    fn end_walk(&self);

    /// Takes the first command that was started and that nobody attends yet.
    fn take_run(&self) -> Option<StartedCommand>;

    /// Keeps a command that could not be attended, until it is taken again.
    fn give_back(&self, run: StartedCommand);

    /// The commands that run.
    fn runs(&self) -> &Arc<Runs>;
}
