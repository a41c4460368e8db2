//! The whole server: puts its parts together, and runs them.
ghost use Rattle.std.specs.Prelude.{◌≡◌};

use crate::lock_host::LockHost;
use crate::lock_seats::LockSeats;
use crate::operator::Operator;
use crate::rounds::Rounds;
use std::alloc::{AllocError, Global};
use std::io;
use std::sync::{Arc, Mutex};
use std::time::Clock;
use wq_base::Workers;
use wq_clock::Run;
use wq_crawl::{LaneParts, Seconds, SharedCrawler};
use wq_launch::{Notices, Spawn};
use wq_live::{Blank, Named, Publisher};
use wq_patch::Tree;
use wq_registry::Cache;
use wq_server::{Listening, Pace, Runtime, ToldTree, run};
use wq_session::SharedShelf;

/// How many seats a server has: one for idle moments, one for rounds of triggers, and the others for sessions.
pub const SEATS: usize = 48;

/// How many lanes a server has beside the first one: enough for each root that is shown, and for one that each session
/// watches.
pub const MORE_LANES: usize = 63;

/// The parts and settings of a server.
#[derive(Drop)]
pub struct Parts<T: Tree + Drop, S: Seconds + Drop, O: Notices + Drop, P: Spawn + Drop> {
    /// The run of the server.
    pub run: Run,
    /// Lists roots, one at a time.
    pub first: LaneParts<T, S>,
    /// List other roots at the same time.
    pub more: Vec<LaneParts<T, S>>,
    /// Tells the operator of faults.
    pub notices: O,
    /// Starts the commands of triggers.
    pub spawn: P,
    /// The name of the socket that clients are told.
    pub sockname: String,
    /// How long the server waits until it crawls a root again. Sessions get idle moments after each round.
    pub pace: Pace,
    /// How many threads may look for the files of a query.
    pub workers: Workers,
}

/// Serves the clients of a socket until one asks that the server ends. It tells the operator that it listens.
///
/// # Errors
/// The server could not make a part that it needs, and served nobody.
pub fn serve_clients<N, R, T, S, O, P>(
    rt: R,
    alloc: Global,
    listening: &Listening,
    blank: Blank,
    parts: Parts<T, S, O, P>,
) -> io::Result<()>
where
    N: Named + Send + Sync + 'static,
    R: Runtime,
    T: Tree + Drop + Send + 'static,
    S: Seconds + Drop + Send + 'static,
    O: Notices + Drop + Send + Sync + 'static,
    P: Spawn + Drop + Send + 'static,
    requires { blank.book ≡ N.book }
{
    let publisher = blank.open::<N, R>(rt);
    let Parts {
        run: this,
        first,
        more,
        notices,
        spawn,
        sockname,
        pace,
        workers,
    } = parts;
    let notices = Arc::new(alloc, notices)?;
    let operator = Operator::new(rt, alloc, &sockname, &notices)?;
    let shelf = shelf_of(alloc, this, sockname)?;
    let mut publisher = publisher;
    let rounds = Rounds::new(rt, alloc, this, publisher.seat()?, spawn)?;
    let seats = LockSeats::new(rt, alloc, &mut publisher)?;
    let crawler = crawler_of(rt, alloc, publisher, first, more, &notices)?;
    let host = LockHost::new(
        rt, alloc, this, seats, crawler, shelf, rounds, operator, workers,
    );
    run(rt, alloc, listening, host, &notices, pace)
}

/// An empty shelf of a server whose socket has this name.
fn shelf_of(
    alloc: Global,
    run: Run,
    sockname: String,
) -> Result<Arc<Mutex<SharedShelf>>, AllocError> {
    let cache = Cache::new(alloc, run.start, run.pid)?;
    let shelf = SharedShelf::new(alloc, cache, sockname);
    Ok(Arc::new(alloc, Mutex::new(shelf))?)
}

/// The crawler of a server, whose lanes tell the operator of their listings.
fn crawler_of<N, R, T, S, O>(
    rt: R,
    alloc: Global,
    publisher: Publisher<N, R>,
    first: LaneParts<T, S>,
    more: Vec<LaneParts<T, S>>,
    notices: &Arc<O>,
) -> Result<Arc<SharedCrawler<N, R, ToldTree<R, T, O>, S>>, AllocError>
where
    N: Named,
    R: Runtime,
    T: Tree + Drop,
    S: Seconds + Drop,
    O: Notices + Drop,
{
    let first = told_lane(rt, alloc, first, notices)?;
    let more = told_lanes(rt, alloc, more, notices)?;
    let crawler = SharedCrawler::new(alloc, publisher, first, more)?;
    Ok(Arc::new(alloc, crawler)?)
}

/// The parts of lanes, whose trees tell the operator of their listings.
fn told_lanes<R, T, S, O>(
    rt: R,
    alloc: Global,
    lanes: Vec<LaneParts<T, S>>,
    notices: &Arc<O>,
) -> Result<Vec<LaneParts<ToldTree<R, T, O>, S>>, AllocError>
where
    R: Clock + Copy + Drop,
    T: Tree + Drop,
    S: Seconds + Drop,
    O: Notices + Drop,
{
    let mut told = Vec::with_capacity(alloc, lanes.len())?;
    for lane in lanes {
        told.push(told_lane(rt, alloc, lane, notices)?)
            .map_err(AllocError::from)?;
    }
    Ok(told)
}

/// The parts of a lane, whose tree tells the operator of its listings.
fn told_lane<R, T, S, O>(
    rt: R,
    alloc: Global,
    lane: LaneParts<T, S>,
    notices: &Arc<O>,
) -> Result<LaneParts<ToldTree<R, T, O>, S>, AllocError>
where
    R: Clock + Copy + Drop,
    T: Tree + Drop,
    S: Seconds + Drop,
    O: Notices + Drop,
{
    Ok(LaneParts {
        tree: ToldTree::new(rt, alloc, lane.tree, notices.clone()?),
        seconds: lane.seconds,
        waiting: lane.waiting,
        helped: lane.helped,
    })
}
