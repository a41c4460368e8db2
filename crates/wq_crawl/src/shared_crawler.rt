//! A crawler that threads share. Crawls of different roots go on at the same time. Those of one root come one after the
//! other, and the list of one also serves those that asked before it began.
ghost use Rattle.std.specs.Prelude.{◌≡◌, IfOk, None};
ghost use Rattle.wq_crawl.specs.Answer.{BeganSince, IsAnswer, told_list};
ghost use Rattle.wq_crawl.specs.Crawl.{tells};
ghost use Rattle.wq_crawl.specs.Roots.{GlanceAt, RootsGive, ending, passing, showing};

use crate::begun::{Asked, Begun};
use crate::crawl::Crawl;
use crate::fault::CrawlFault;
use crate::found_root::FoundRoot;
use crate::lane::Lane;
use crate::lanes::{LaneParts, Lanes, SharedLane};
use crate::seconds::Seconds;
use crate::shared_publisher::SharedPublisher;
use std::alloc::{AllocError, Global};
use std::sync::{Mutex, Wait};
use std::time::{Clock, Duration};
use wq_base::Asker;
use wq_live::{Named, Publisher, Told};
use wq_patch::{Reach, Tree};

/// For how many milliseconds a client waits for the turn at a lane, before it looks again whether it goes on waiting.
const PATIENCE: u64 = 200;

/// A crawler that threads share.
#[derive(Drop)]
pub struct SharedCrawler<N: Named, R: Wait + Drop, T: Tree + Drop, S: Seconds + Drop> {
    begun: Begun,
    shared: SharedPublisher<N, R>,
    lanes: Lanes<T, S>,
}

impl<N: Named, R: Wait + Drop, T: Tree + Drop, S: Seconds + Drop> SharedCrawler<N, R, T, S> {
    /// A crawler by this publisher, for threads to share. Up to as many roots as there are lanes are crawled at the same
    /// time: one, and some more.
    pub fn new(
        alloc: Global,
        publisher: Publisher<N, R>,
        first: LaneParts<T, S>,
        more: Vec<LaneParts<T, S>>,
    ) -> Result<SharedCrawler<N, R, T, S>, AllocError> {
        Ok(SharedCrawler {
            begun: Begun::new(),
            shared: SharedPublisher::new(publisher),
            lanes: Lanes::new(alloc, first, more)?,
        })
    }

    /// This moment, for a crawl that somebody asks for now.
    pub fn ask(&self) -> Asked {
        self.begun.read()
    }

    /// Crawls the root of this text for nobody who waits, and returns the list of events. A crawl that began after somebody
    /// asked at an earlier moment serves too.
    pub fn crawl_since(&self, rt: &R, asked: &Asked, root: &str) -> Result<Crawl<N>, CrawlFault>
        ensures given { RootsGive None (passing root.now) (told_list result) None }
        ensures answer { IfOk result (IsAnswer (N.published N.book) root.now) }
        ensures since { IfOk result (BeganSince asked.now.count) }
    {
        let place = self.lanes.come(rt, root);
        let at = self.lanes.at(place);
        at.turn.take(rt);
        let crawl = crawl_in(&self.begun, &self.shared, &at.lane, rt, asked, root);
        at.turn.give(rt);
        self.lanes.go(rt, place);
        crawl
    }

    /// Crawls the root of this text as [`SharedCrawler::crawl_since`] does, and as soon as for a client.
    pub fn crawl_soon(&self, rt: &R, asked: &Asked, root: &str) -> Result<Crawl<N>, CrawlFault>
        ensures given { RootsGive None (passing root.now) (told_list result) None }
        ensures answer { IfOk result (IsAnswer (N.published N.book) root.now) }
        ensures since { IfOk result (BeganSince asked.now.count) }
    {
        let place = self.lanes.come(rt, root);
        let at = self.lanes.at(place);
        at.callers.enter();
        at.turn.take(rt);
        let crawl = crawl_in(&self.begun, &self.shared, &at.lane, rt, asked, root);
        at.turn.give(rt);
        at.callers.leave(rt);
        self.lanes.go(rt, place);
        crawl
    }

    /// Crawls the root of this text by a glance that looks so far, and returns whether it did. It does nothing if a client
    /// waits for a crawl of the root. No crawl for a client is left out for it.
    pub fn glance(&self, rt: &R, root: &str, reach: Reach) -> Result<bool, CrawlFault>
        ensures { GlanceAt root.now result }
    {
        let place = self.lanes.come(rt, root);
        let at = self.lanes.at(place);
        at.turn.take(rt);
        // The crawl for a client brings all changes.
        let made = if at.callers.is_any() {
            Ok(false)
        } else {
            glance_in(&self.shared, &at.lane, rt, root, reach)
        };
        at.turn.give(rt);
        self.lanes.go(rt, place);
        made
    }

    /// The processor time that other threads than the one that asked took for the last listing of the root of this text.
    pub fn helped(&self, rt: &R, root: &str) -> Duration {
        let place = self.lanes.come(rt, root);
        let helped = self.lanes.at(place).helped();
        self.lanes.go(rt, place);
        helped
    }

    /// Publishes the end of a root that a look found, if it is shown, and returns the list of events. It waits for no
    /// crawl.
    pub fn retire(&self, rt: &R, root: FoundRoot) -> Result<Told<N>, CrawlFault>
        ensures { RootsGive None (ending root.instance.root) (tells result) None }
    {
        self.shared.retire(rt, root)
    }

    /// Frees the views that only the table before the last one still holds.
    pub fn let_go(&self, rt: &R) {
        self.shared.let_go(rt);
    }

    /// Has each crawl that gives way to clients do so from now on, since the server ends.
    pub fn end_walks(&self) {
        self.lanes.end_walks();
    }
}

impl<N, R, T, S> SharedCrawler<N, R, T, S>
where
    N: Named,
    R: Wait + Clock + Drop,
    T: Tree + Drop,
    S: Seconds + Drop,
{
    /// Waits until no client waits for a crawl of the root of this text, but no longer than this. Says whether none waits.
    pub fn wait_for_none(&self, rt: &R, root: &str, time: Duration) -> bool {
        let place = self.lanes.come(rt, root);
        let waits_none = self.lanes.at(place).callers.wait_for_none(rt, time);
        self.lanes.go(rt, place);
        waits_none
    }

    /// Crawls the root of this text for a client, publishes the pass, and returns the list of events. A crawl of the root
    /// for nobody gives way to it. The call waits while another thread crawls the root, but no longer than until the root
    /// is no longer shown or the client has gone. One that has gone gets a refusal, which nobody reads.
    ///
    /// If another thread crawled the root meanwhile, and began after the client asked, the call returns the present list.
    pub fn crawl<A: Asker>(
        &self,
        rt: &R,
        client: &A,
        asked: &Asked,
        root: &str,
    ) -> Result<Crawl<N>, CrawlFault>
        ensures given { RootsGive None (passing root.now) (told_list result) None }
        ensures answer { IfOk result (IsAnswer (N.published N.book) root.now) }
        ensures since { IfOk result (BeganSince asked.now.count) }
    {
        let place = self.lanes.come(rt, root);
        let at = self.lanes.at(place);
        at.callers.enter();
        let crawl = crawl_in_turn(&self.begun, &self.shared, at, rt, client, asked, root);
        at.callers.leave(rt);
        self.lanes.go(rt, place);
        crawl
    }

    /// Finds the root of this text, or lists it and starts it, and returns the list of events. A crawl of the root for
    /// nobody gives way to it. The call waits while another thread crawls the root, but no longer than until the client
    /// has gone. One that has gone gets a refusal, which nobody reads.
    pub fn open<A: Asker>(&self, rt: &R, client: &A, root: &str) -> Result<Told<N>, CrawlFault>
        ensures { RootsGive None (showing root.now) (tells result) None }
    {
        let place = self.lanes.come(rt, root);
        let at = self.lanes.at(place);
        at.callers.enter();
        let told = open_in_turn(&self.shared, at, rt, client, root);
        at.callers.leave(rt);
        self.lanes.go(rt, place);
        told
    }
}

/// Crawls a root for a client that asked at this moment, in a lane whose turn it waits for.
fn crawl_in_turn<N, R, T, S, A>(
    begun: &Begun,
    shared: &SharedPublisher<N, R>,
    at: &SharedLane<T, S>,
    rt: &R,
    client: &A,
    asked: &Asked,
    root: &str,
) -> Result<Crawl<N>, CrawlFault>
where
    N: Named,
    R: Wait + Clock + Drop,
    T: Tree + Drop,
    S: Seconds + Drop,
    A: Asker,
    ensures given { RootsGive None (passing root.now) (told_list result) None }
    ensures answer { IfOk result (IsAnswer (N.published N.book) root.now) }
    ensures since { IfOk result (BeganSince asked.now.count) }
{
    let mut patience = Duration::ZERO;
    for _ in rt.forever() {
        if at.turn.take_within(rt, patience) {
            let crawl = crawl_in(begun, shared, &at.lane, rt, asked, root);
            at.turn.give(rt);
            return crawl;
        }
        if let Some(answer) = shared.without_crawl(rt, asked, root, client.is_gone()) {
            return answer;
        }
        patience = Duration::from_millis(PATIENCE);
    }
    unreachable!()
}

/// Watches a root for a client, in a lane whose turn it waits for.
#[tactic(auto, using(crate::proofs::Sharing::left_gives))]
fn open_in_turn<N, R, T, S, A>(
    shared: &SharedPublisher<N, R>,
    at: &SharedLane<T, S>,
    rt: &R,
    client: &A,
    root: &str,
) -> Result<Told<N>, CrawlFault>
where
    N: Named,
    R: Wait + Clock + Drop,
    T: Tree + Drop,
    S: Seconds + Drop,
    A: Asker,
    ensures { RootsGive None (showing root.now) (tells result) None }
{
    let mut patience = Duration::ZERO;
    for _ in rt.forever() {
        if at.turn.take_within(rt, patience) {
            let told = open_in(shared, &at.lane, rt, root);
            at.turn.give(rt);
            return told;
        }
        if client.is_gone() {
            return Err(CrawlFault::NoMemory);
        }
        patience = Duration::from_millis(PATIENCE);
    }
    unreachable!()
}

/// Crawls a root for a thread that asked at this moment, in a lane that it waits for.
fn crawl_in<N, R, T, S>(
    begun: &Begun,
    shared: &SharedPublisher<N, R>,
    lane: &Mutex<Lane<T, S>>,
    rt: &R,
    asked: &Asked,
    root: &str,
) -> Result<Crawl<N>, CrawlFault>
where
    N: Named,
    R: Wait + Drop,
    T: Tree + Drop,
    S: Seconds + Drop,
    ensures given { RootsGive None (passing root.now) (told_list result) None }
    ensures answer { IfOk result (IsAnswer (N.published N.book) root.now) }
    ensures since { IfOk result (BeganSince asked.now.count) }
{
    lane.lock(rt).crawl(begun, shared, rt, asked, root)
}

/// Makes a glance at a root, in a lane that the thread waits for.
fn glance_in<N, R, T, S>(
    shared: &SharedPublisher<N, R>,
    lane: &Mutex<Lane<T, S>>,
    rt: &R,
    root: &str,
    reach: Reach,
) -> Result<bool, CrawlFault>
where
    N: Named,
    R: Wait + Drop,
    T: Tree + Drop,
    S: Seconds + Drop,
    ensures { GlanceAt root.now result }
{
    lane.lock(rt).glance(shared, rt, root, reach)
}

/// Watches a root, in a lane that the thread waits for.
fn open_in<N, R, T, S>(
    shared: &SharedPublisher<N, R>,
    lane: &Mutex<Lane<T, S>>,
    rt: &R,
    root: &str,
) -> Result<Told<N>, CrawlFault>
where
    N: Named,
    R: Wait + Drop,
    T: Tree + Drop,
    S: Seconds + Drop,
    ensures { RootsGive None (showing root.now) (tells result) None }
{
    lane.lock(rt).open(shared, rt, root)
}
