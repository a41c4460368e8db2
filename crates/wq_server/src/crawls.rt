//! The thread that has rounds: it has the roots crawled that are due, and the commands of their triggers attended.

use crate::attendance::attend_all;
use crate::hand::Hand;
use crate::hands::Hands;
use crate::host::Host;
use crate::runtime::Runtime;
use crate::server::Server;
use crate::task::Task;
use crate::times::Took;
use crate::walks::{DueRoot, LastWalks};
use std::alloc::Global;
use std::sync::Arc;
use std::thread;
use std::time::Duration;
use wq_launch::Notices;

/// For how many milliseconds a round waits for the crawl of a root, before it goes on with the next root.
const PATIENCE: u64 = 250;

/// For how many milliseconds the end of rounds waits for crawls.
const END: u64 = 500;

/// Has roots crawled, and commands of triggers started and attended, until the server ends. If rounds have a share,
/// there is no round while nobody needs one.
pub(crate) fn crawl_always<R, H, O>(rt: R, alloc: Global, server: &Arc<Server<H>>, notices: &Arc<O>)
where
    R: Runtime,
    H: Host + Drop + Send + Sync + 'static,
    O: Notices + Drop + Send + Sync + 'static,
{
    let mut crawling = Crawling {
        rt,
        alloc,
        server,
        notices,
        walks: LastWalks::new(alloc),
        hands: Hands::new(alloc),
    };
    // If no thread can be made yet, the first task has one made.
    let _ = crawling.another_hand();
    for _ in rt.forever() {
        if server.pace.share.is_some() {
            crawling.wait_for_need();
        }
        crawling.crawl_due();
        server.pulse.beat(&rt);
        if server.stop.wait(&rt, server.pace.interval) {
            break;
        }
    }
    crawling.hands.end(&rt, Duration::from_millis(END));
}

/// What the thread that has rounds works with.
#[derive(Drop)]
struct Crawling<'a, R, H: Host + Drop, O> {
    rt: R,
    alloc: Global,
    server: &'a Arc<Server<H>>,
    notices: &'a Arc<O>,
    walks: LastWalks,
    hands: Hands,
}

impl<R, H, O> Crawling<'_, R, H, O>
where
    R: Runtime,
    H: Host + Drop + Send + Sync + 'static,
    O: Notices + Drop + Send + Sync + 'static,
{
    /// Waits as long as nobody needs a round and the server goes on: no client is connected, there is no trigger, and
    /// each command is attended. The next client needs one.
    fn wait_for_need(&self) {
        let links = &self.server.links;
        let count = links.count(&self.rt);
        if links.is_any(&self.rt) || self.server.host.has_triggers() || !self.attend_all() {
            return;
        }
        // What only rounds let go of does not stay in memory meanwhile.
        let _ = self.server.host.begin_round();
        links.wait_for_another(&self.rt, &self.server.stop, count);
    }

    /// Has each root crawled that is due, with a round of its triggers after it, and glances at others. It stops if the
    /// server is to end. A root that is still being crawled or looked at waits for its next round.
    fn crawl_due(&mut self) {
        // Commands that could not be attended before are tried again, whether or not a root is watched.
        self.attend_all();
        self.keep_done();
        self.hands.end_spare(&self.rt);
        // If memory runs out for the roots, they are crawled in the next round.
        let Some(roots) = self.server.host.begin_round() else {
            return;
        };
        self.walks.forget_others(&roots.shown);
        let (rt, server) = (self.rt, self.server);
        self.walks.stir(&rt, server.host.stirs(&roots.shown));
        let Ok(turns) = self.walks.due(&rt, &server.pace, &roots.shown) else {
            return;
        };
        self.glance_between(&roots.shown, &turns);
        for turn in turns {
            if server.stop.is_asked(&rt) {
                return;
            }
            // No other root waits for a crawl that takes long.
            let patience = if turn.is_long() { 0 } else { PATIENCE };
            self.have_done(Task::Crawl(turn.number), Duration::from_millis(patience));
        }
    }

    /// Glances at the roots that are not due, so that changes there are listed soon.
    fn glance_between(&mut self, shown: &[u64], due: &[DueRoot]) {
        let (rt, server) = (self.rt, self.server);
        // If memory runs out for the roots, there are glances in the next round.
        let Ok(looks) = self.walks.to_glance(&rt, &server.pace, shown, due) else {
            return;
        };
        for look in looks {
            if server.stop.is_asked(&rt) {
                return;
            }
            self.have_done(Task::Glance(look), Duration::from_millis(PATIENCE));
        }
    }

    /// Has a task done, and waits for it so long. It does nothing if the root has a task that is not done yet.
    fn have_done(&mut self, task: Task, patience: Duration) {
        if self.hands.has(task.number()) {
            return;
        }
        let (rt, server) = (self.rt, self.server);
        let took = match self.idle_hand() {
            Some(place) => self.hands.give(&rt, place, task, patience),
            // If no thread can be made, this one does the task.
            None => Some(task.run(&rt, server)),
        };
        if let Some(took) = took {
            self.keep(task, took);
        }
        self.attend_all();
    }

    /// Keeps how long the tasks took that were done since the last round.
    fn keep_done(&mut self) {
        for _ in 0..self.hands.len() {
            let Some((task, took)) = self.hands.take_done(&self.rt) else {
                return;
            };
            self.keep(task, took);
        }
    }

    /// Keeps how long a task took.
    fn keep(&mut self, task: Task, took: Took) {
        match task {
            Task::Crawl(number) => self.walks.add(&self.rt, number, took),
            Task::Glance(look) => self.walks.add_glance(&self.rt, look, took.work),
        }
    }

    /// A thread that has no task, which is made if there is none.
    fn idle_hand(&mut self) -> Option<usize> {
        self.keep_done();
        match self.hands.idle() {
            Some(place) => Some(place),
            None => self.another_hand(),
        }
    }

    /// Makes a thread that has no task.
    fn another_hand(&mut self) -> Option<usize> {
        let hand = self.hands.another().ok()?;
        let (theirs, server) = (hand.clone().ok()?, self.server.clone().ok()?);
        let (rt, alloc, notices) = (self.rt, self.alloc, self.notices.clone().ok()?);
        let place = self.hands.len();
        self.hands.add(hand).ok()?;
        match thread::spawn(&rt, move || {
            work_always(rt, alloc, &*server, &notices, &*theirs)
        }) {
            // Nobody joins it: it ends when the rounds end.
            Ok(_) => Some(place),
            Err(_) => {
                self.hands.remove_last();
                None
            }
        }
    }

    /// Has the commands attended that were started ([`attend_all`]).
    fn attend_all(&self) -> bool {
        attend_all(self.rt, self.alloc, &self.server.host, self.notices)
    }
}

/// Does the tasks that a thread is given, until it is to end.
fn work_always<R, H, O>(rt: R, alloc: Global, server: &Server<H>, notices: &Arc<O>, hand: &Hand)
where
    R: Runtime,
    H: Host + Drop,
    O: Notices + Drop + Send + Sync + 'static,
{
    for _ in rt.forever() {
        let Some(task) = hand.next(&rt) else {
            return;
        };
        let took = task.run(&rt, server);
        attend_all(rt, alloc, &server.host, notices);
        hand.finish(&rt, took);
        // The round did not wait for it.
        if took.is_long() {
            server.pulse.beat(&rt);
        }
    }
}
