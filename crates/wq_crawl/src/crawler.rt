//! The crawler, which lists roots and publishes their passes. It has a lister and a publisher, which crawls use one
//! after the other.
ghost use Rattle.std.specs.Prelude.{◌≡◌, IfOk, IsTrue, MatchResult, None, OnOk, Some};
ghost use Rattle.wq_live.specs.Event.{IsFull, number_of};
ghost use Rattle.wq_crawl.specs.Answer.{BeganSince, IsAnswer, list_or_fault, told_list};
ghost use Rattle.wq_crawl.specs.Crawl.{Began, Crawled, CrawledAt, CrawledWhole, Glanced};
ghost use Rattle.wq_crawl.specs.Crawl.{IsNoPassOver, IsPassOver, Shared, Unwatched, Watched, tells};
ghost use Rattle.wq_crawl.specs.Publish.{with_start};

use crate::begun::{Asked, Begun};
use crate::crawl::Crawl;
use crate::fault::CrawlFault;
use crate::lister::Lister;
use crate::place::{Place, place_for};
use crate::seconds::Seconds;
use std::alloc::AllocError;
use std::marker::Model;
use std::sync::Wait;
use wq_live::{Named, Publisher, Seat, StartFault, Told};
use wq_patch::{Reach, Recent, Tree};
use wq_view::Pass;

/// Lists roots, and publishes their passes. Contracts see the list of events that is published, and the state that the
/// tree and the clock show.
#[derive(Drop)]
pub struct Crawler<N: Named, R: Wait + Drop, T: Tree + Drop, S: Seconds + Drop> {
    publisher: Publisher<N, R>,
    lister: Lister<T, S>,
    begun: Begun,
}

impl<N: Named, R: Wait + Drop, T: Tree + Drop, S: Seconds + Drop> Model for Crawler<N, R, T, S> {
    ghost use Rattle.wq_crawl.specs.Crawl.{CrawlerData, crawler_at, crawler_code};

    ghost Value = { CrawlerData };

    ghost coded = { crawler_code };

    ghost view = { λ c. crawler_at c.publisher c.lister };
}

impl<N: Named, R: Wait + Drop, T: Tree + Drop, S: Seconds + Drop> Crawler<N, R, T, S> {
    /// The crawler of these parts.
    pub fn new(publisher: Publisher<N, R>, tree: T, seconds: S) -> Crawler<N, R, T, S>
        ensures { result ≡ record {
          events = publisher;
          clock = S.told seconds;
          listed = T.listed tree;
          failed = T.failed tree;
          whole = T.whole tree;
        } }
    {
        Crawler {
            publisher,
            lister: Lister::new(tree, seconds),
            begun: Begun::new(),
        }
    }

    /// A new seat, which has seen all that is published. The call is refused if memory runs out, or if every place is
    /// in use.
    pub fn seat(&mut self) -> Result<Seat<N>, AllocError>
        ensures seat { IfOk result (λ seat. seat ≡ (self.new).events) }
        ensures kept { self.new ≡ self.old }
    {
        self.publisher.seat()
    }

    /// The number of the root of this text, if it is shown.
    pub fn number(&self, root: &str) -> Option<u64>
        ensures { result ≡ number_of root.now (self.now).events }
    {
        self.publisher.find(root)
    }

    /// This moment, for a crawl that somebody asks for now.
    pub fn ask(&self) -> Asked {
        self.begun.read()
    }

    /// Crawls the root of this text, publishes the pass, and returns the list. There is none if the root is not shown.
    ///
    /// A refused crawl leaves the list as it is. The call waits for looks that still read the value before the last
    /// pass.
    pub fn crawl(&mut self, root: &str) -> Result<Crawl<N>, CrawlFault>
        ensures crawled { Crawled root.now self.old (told_list result) self.new }
        ensures answer { IfOk result (IsAnswer (N.published N.book) root.now) }
    {
        let asked = self.ask();
        self.crawl_since(&asked, root)
    }

    /// Crawls the root of this text for somebody who asked at this moment, as [`Crawler::crawl`] does.
    pub fn crawl_since(&mut self, asked: &Asked, root: &str) -> Result<Crawl<N>, CrawlFault>
        ensures crawled { Crawled root.now self.old (told_list result) self.new }
        ensures answer { IfOk result (IsAnswer (N.published N.book) root.now) }
        ensures since { IfOk result (BeganSince asked.now.count) }
    {
        let Some(number) = self.publisher.find(root) else {
            return Ok(Crawl::gone(&self.publisher, root));
        };
        self.crawl_whole(asked, number, root)
    }

    /// Crawls the root of this text by a glance at it that looks so far, publishes the pass, and returns whether it did.
    /// It does nothing if the root is not shown, if it would look into no directory, or if memory runs out for finding
    /// the directories.
    ///
    /// A refused crawl leaves the list as it is. The call waits as [`Crawler::crawl`] does.
    pub fn glance(&mut self, root: &str, reach: Reach) -> Result<bool, CrawlFault>
        ensures { Glanced root.now self.old result self.new }
    {
        let Some(number) = self.publisher.find(root) else {
            return Ok(false);
        };
        let Ok(Some(view)) = self.publisher.table().share_of(number) else {
            return Ok(false);
        };
        let Ok(Some(recent)) = Recent::of(&view, reach) else {
            return Ok(false);
        };
        match self.glance_at(number, root, &recent) {
            Ok(_) => Ok(true),
            Err(fault) => Err(fault),
        }
    }

    /// Finds the root of this text, or lists it and starts it, and returns the list.
    ///
    /// If no more root can be started, a root that is not shown is refused before it is listed. A root that is shown is
    /// refused only if memory runs out. A refusal leaves the list as it is.
    pub fn open(&mut self, root: &str) -> Result<Told<N>, CrawlFault>
        ensures { Watched root.now self.old result self.new }
    {
        match place_for(self.publisher.table(), root) {
            Place::Shown(_) => self.told(),
            Place::Full => Err(CrawlFault::TooManyRoots),
            Place::Free => self.begin(root),
        }
    }

    /// Publishes the end of the root of this number, if it is shown, and returns the list.
    ///
    /// A refusal leaves the list as it is.
    pub fn retire(&mut self, number: u64) -> Result<Told<N>, CrawlFault>
        ensures { Unwatched number self.old result self.new }
    {
        match self.publisher.retire(number) {
            Ok(told) => Ok(told),
            Err(_) => Err(CrawlFault::NoMemory),
        }
    }

    /// Frees the views that only the table before the last one still holds. It changes nothing, and
    /// waits for the looks that still see that table.
    pub fn let_go(&mut self)
        ensures { self.new ≡ self.old }
    {
        self.publisher.let_go();
    }

    /// The present list.
    fn told(&self) -> Result<Told<N>, CrawlFault>
        ensures { Shared self.now result self.now }
    {
        match self.publisher.told() {
            Ok(told) => Ok(told),
            Err(_) => Err(CrawlFault::NoMemory),
        }
    }

    /// Crawls the whole root of this number and text, which is shown.
    fn crawl_whole(
        &mut self,
        asked: &Asked,
        number: u64,
        root: &str,
    ) -> Result<Crawl<N>, CrawlFault>
        requires shown { number_of root.now (self.old).events ≡ Some number }
        ensures crawled { CrawledWhole number root.now self.old
            (list_or_fault (self.new).events result) self.new }
        ensures told { told_list result ≡ tells (list_or_fault (self.new).events result) }
        ensures answer { IfOk result (IsAnswer (N.published N.book) root.now) }
        ensures since { IfOk result (BeganSince asked.now.count) }
    {
        // As for a root that is listed for the first time.
        self.let_go();
        let raised = self.begun.raise(asked);
        let listed = self
            .lister
            .list_whole(raised, self.publisher.table(), number, root)?;
        Crawl::published(&mut self.publisher, listed)
    }

    /// Crawls the root of this number and text, which is shown, by a glance into these directories.
    fn glance_at(
        &mut self,
        number: u64,
        root: &str,
        recent: &Recent<'_>,
    ) -> Result<Told<N>, CrawlFault>
        ensures { CrawledAt number root.now self.old result self.new }
    {
        // As for a root that is listed for the first time.
        self.let_go();
        let relisted = self
            .lister
            .list_again(self.publisher.table(), number, root, Some(recent))?;
        relisted.publish(&mut self.publisher, number)
    }

    /// Lists a root that is not shown, and starts it.
    fn begin(&mut self, root: &str) -> Result<Told<N>, CrawlFault>
        requires new { number_of root.now (self.old).events ≡ None }
        requires room { IsFull (self.old).events → ⊥ }
        ensures { Began root.now self.old result self.new }
    {
        let pass = self.list(root)?;
        self.start(root, pass)
    }

    /// Publishes the start of a root that is not shown.
    fn start(&mut self, root: &str, pass: Pass) -> Result<Told<N>, CrawlFault>
        requires new { number_of root.now (self.old).events ≡ None }
        requires room { IsFull (self.old).events → ⊥ }
        ensures started { MatchResult result
            (λ told. (told ≡ (self.new).events)
            × ((self.new).events ≡ with_start root.now pass (self.old).events))
            (λ fault. ((self.new).events ≡ (self.old).events) × (fault ≡ CrawlFault.NoMemory)) }
        ensures listed { (self.new).listed ≡ (self.old).listed }
        ensures whole { (self.new).whole ≡ (self.old).whole }
        ensures clock { (self.new).clock ≡ (self.old).clock }
    {
        match self.publisher.start(root, pass) {
            Ok((_number, told)) => Ok(told),
            Err(StartFault::TooManyRoots) => Err(CrawlFault::TooManyRoots),
            Err(StartFault::NoMemory) => Err(CrawlFault::NoMemory),
        }
    }

    /// The pass of a root, as the tree shows it now.
    fn list(&mut self, root: &str) -> Result<Pass, CrawlFault>
        ensures kept { (self.new).events ≡ (self.old).events }
        ensures listed { MatchResult result
            (λ pass. IsPassOver root.now self.old pass self.new)
            (λ fault. IsNoPassOver root.now self.old fault self.new) }
        ensures whole { OnOk result (IsTrue (self.new).whole) }
    {
        // Otherwise memory would hold the views before the last ones beside the rows and the views that follow from
        // them.
        self.let_go();
        self.lister.list(root)
    }
}
