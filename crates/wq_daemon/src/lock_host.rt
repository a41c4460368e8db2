//! The parts that the threads of the server share: the shelf, the seats, the launcher, and the crawler. Each is under a
//! lock of its own. A look at files takes no lock, and neither does a listing of them.

use crate::asking::{AskingDesk, AskingRoots};
use crate::lock_seats::LockSeats;
use crate::operator::Operator;
use crate::questions::Questions;
use crate::round_crawl::crawl_in_round;
use crate::rounds::Rounds;
use std::alloc::{AllocError, Global};
use std::io::Write;
use std::sync::atomic::AtomicBool;
use std::sync::{Arc, Mutex, Wait};
use std::thread::Threads;
use std::time::{Clock, Duration, Instant};
use wq_ask::Refusal;
use wq_base::{Asker, Workers};
use wq_clock::Run;
use wq_crawl::{Caller, CrawlFault, LockRoots, SeatViews, Seconds, SharedCrawler};
use wq_follow::Trigger;
use wq_launch::{Notices, Runs, Spawn, StartedCommand};
use wq_live::Named;
use wq_patch::{Reach, Tree, TreeFault};
use wq_server::{Host, RootNumbers, Stir, Stop, Worked, refuse, time_since};
use wq_session::{Ended, Kept, LockDesk, ReachedShelf, SharedShelf, serve};
use wq_stream::Inbox;

/// The parts of a server. It serves a client for each free seat.
#[derive(Drop)]
pub struct LockHost<N, R, T, S, O, P, K>
where
    N: Named,
    R: Wait + Clock + Copy + Drop,
    T: Tree + Drop,
    S: Seconds + Drop,
    O: Notices + Drop,
    P: Spawn + Drop,
    K: Kept + Drop,
{
    rt: R,
    alloc: Global,
    run: Run,
    seats: LockSeats<N, R>,
    crawler: Arc<SharedCrawler<N, R, T, S>>,
    shelf: Arc<Mutex<ReachedShelf<K>>>,
    rounds: Rounds<N, P, R>,
    operator: Operator<O, R>,
    /// What clients asked since the last round.
    questions: Questions<R>,
    /// How many threads may look for the files of a query.
    workers: Workers,
}

impl<N, R, T, S, O, P> LockHost<N, R, T, S, O, P, Trigger>
where
    N: Named,
    R: Wait + Clock + Copy + Drop,
    T: Tree + Drop,
    S: Seconds + Drop,
    O: Notices + Drop,
    P: Spawn + Drop,
{
    /// A server of these parts, of which so many threads may look for the files of a query.
    pub(crate) fn new(
        rt: R,
        alloc: Global,
        run: Run,
        seats: LockSeats<N, R>,
        crawler: Arc<SharedCrawler<N, R, T, S>>,
        shelf: Arc<Mutex<SharedShelf>>,
        rounds: Rounds<N, P, R>,
        operator: Operator<O, R>,
        workers: Workers,
    ) -> LockHost<N, R, T, S, O, P, Trigger> {
        LockHost {
            rt,
            alloc,
            run,
            seats,
            crawler,
            shelf,
            rounds,
            operator,
            questions: Questions::new(rt, alloc),
            workers,
        }
    }
}

/// The roots, for a session.
fn lock_roots<'a, N, R, T, S, A>(
    crawler: &Arc<SharedCrawler<N, R, T, S>>,
    caller: &'a A,
    rt: R,
    workers: Workers,
) -> Result<LockRoots<'a, N, R, T, S, A>, AllocError>
where
    N: Named,
    R: Wait + Clock + Copy + Drop,
    T: Tree + Drop,
    S: Seconds + Drop,
    A: Asker + Caller,
{
    Ok(LockRoots::new(caller, crawler.clone()?, rt, workers))
}

/// The shelf, for a session.
fn lock_desk<R: Wait + Copy + Drop>(
    shelf: &Arc<Mutex<SharedShelf>>,
    rt: R,
) -> Result<LockDesk<R>, AllocError> {
    Ok(LockDesk::new(shelf.clone()?, rt))
}

impl<N, R, T, S, O, P> Host for LockHost<N, R, T, S, O, P, Trigger>
where
    N: Named,
    R: Wait + Clock + Copy + Drop,
    T: Tree + Drop,
    S: Seconds + Drop,
    O: Notices + Drop,
    P: Spawn + Drop,
{
    fn greet(&self) {
        self.operator.greet();
    }

    fn serve<H: Threads + Sync, A: Asker + Caller, I: Inbox, W: Write>(
        &self,
        threads: &H,
        client: &A,
        inbox: &mut I,
        writer: &mut W,
    ) -> bool {
        let roots = lock_roots(&self.crawler, client, self.rt, self.workers);
        let desk = lock_desk(&self.shelf, self.rt);
        let (Ok(roots), Ok(desk)) = (roots, desk) else {
            refuse(writer, Refusal::NoMemory);
            return false;
        };
        let Some(seat) = self.seats.take() else {
            refuse(writer, Refusal::TooManySessions);
            return false;
        };
        let run = self.run;
        let questions = &self.questions;
        let is_named = AtomicBool::new(false);
        let roots = AskingRoots {
            roots,
            questions,
            is_named: &is_named,
        };
        let mut desk = AskingDesk {
            desk,
            questions,
            is_named: &is_named,
        };
        let views = SeatViews { run, seat, roots };
        let Ended { views, shut, .. } = serve(
            threads, self.alloc, client, inbox, writer, views, &mut desk,
        );
        self.seats.give(views.seat);
        shut
    }

    fn numbers(&self) -> Option<RootNumbers> {
        self.seats.numbers()
    }

    fn begin_round(&self) -> Option<RootNumbers> {
        // The view of a root that is no longer watched stays in memory until this call, which takes none.
        self.crawler.let_go(&self.rt);
        let roots = self.seats.numbers()?;
        self.operator.forget_others(&roots.shown);
        Some(roots)
    }

    fn stirs(&self, shown: &[u64]) -> Option<Vec<Stir>> {
        self.seats.stirs(shown, &self.questions.take())
    }

    fn has_triggers(&self) -> bool {
        let shelf = self.shelf.lock(&self.rt);
        shelf.roots().iter().any(|root| root.trigger_count() > 0)
    }

    fn crawl(&self, number: u64, stop: &Stop) -> Worked {
        // If memory runs out for the text, the root is crawled in the next round.
        let Some(root) = self.seats.text(number) else {
            return Worked {
                time: Duration::ZERO,
                helped: Duration::ZERO,
            };
        };
        let (time, crawled) = crawl_in_round(&self.rt, &self.crawler, &root, stop);
        let helped = self.crawler.helped(&self.rt, &root);
        match crawled {
            Ok(()) => self.operator.tell_if_back(number, &root),
            // The server ends.
            Err(CrawlFault::Tree(TreeFault::GaveWay)) => return Worked { time, helped },
            Err(fault) => self.operator.tell_once(number, &root, fault),
        }
        let began = Instant::now(&self.rt);
        self.rounds.fire(number, &*self.shelf);
        self.operator.tell_of_starts(&self.rounds.launcher);
        let time = time.saturating_add(time_since(&self.rt, began));
        Worked { time, helped }
    }

    fn glance(&self, number: u64, reach: Reach) -> Worked {
        let began = Instant::now(&self.rt);
        // If memory runs out for the text, there is no glance in this round.
        let helped = match self.seats.text(number) {
            Some(root) => {
                if self.crawler.glance(&self.rt, &root, reach) == Ok(true) {
                    self.rounds.fire(number, &*self.shelf);
                    self.operator.tell_of_starts(&self.rounds.launcher);
                }
                self.crawler.helped(&self.rt, &root)
            }
            None => Duration::ZERO,
        };
        Worked {
            time: time_since(&self.rt, began),
            helped,
        }
    }

    fn end_walk(&self) {
        self.crawler.end_walks();
    }

    fn take_run(&self) -> Option<StartedCommand> {
        self.rounds.launcher.lock(&self.rt).take()
    }

    fn give_back(&self, run: StartedCommand) {
        self.rounds.launcher.lock(&self.rt).give_back(run);
    }

    fn runs(&self) -> &Arc<Runs> {
        &self.rounds.runs
    }
}
