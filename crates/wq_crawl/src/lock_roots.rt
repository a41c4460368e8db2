//! Roots that many sessions share.
ghost use Rattle.std.specs.Prelude.{◌≡◌};

use crate::begun::Asked;
use crate::caller::Caller;
use crate::crawl::Crawl;
use crate::fault::CrawlFault;
use crate::found_root::FoundRoot;
use crate::roots::Roots;
use crate::seconds::Seconds;
use crate::shared_crawler::SharedCrawler;
use std::sync::{Arc, Wait};
use std::time::Clock;
use wq_base::{Asker, Workers};
use wq_live::{Named, Told};
use wq_patch::Tree;

/// The roots of one session, over a crawler that threads share. They show no crawler. The session hears of each call
/// before it.
#[derive(Drop)]
pub struct LockRoots<'a, N, R, T, S, A>
where
    N: Named,
    R: Wait + Drop,
    T: Tree + Drop,
    S: Seconds + Drop,
    A: Caller,
{
    caller: &'a A,
    crawler: Arc<SharedCrawler<N, R, T, S>>,
    rt: R,
    workers: Workers,
}

impl<'a, N, R, T, S, A> LockRoots<'a, N, R, T, S, A>
where
    N: Named,
    R: Wait + Drop,
    T: Tree + Drop,
    S: Seconds + Drop,
    A: Caller,
{
    /// Roots of this session over this crawler. They wait for it by this handle, and say that so many threads may look
    /// for the files of a query.
    pub fn new(
        caller: &'a A,
        crawler: Arc<SharedCrawler<N, R, T, S>>,
        rt: R,
        workers: Workers,
    ) -> LockRoots<'a, N, R, T, S, A>
        ensures { (result.crawler ≡ crawler) × (result.rt ≡ rt) × (result.workers ≡ workers) }
    {
        LockRoots {
            caller,
            crawler,
            rt,
            workers,
        }
    }
}

impl<N, R, T, S, A> Roots<N> for LockRoots<'_, N, R, T, S, A>
where
    N: Named,
    R: Wait + Clock + Drop,
    T: Tree + Drop,
    S: Seconds + Drop,
    A: Asker + Caller,
{
    ghost use Rattle.std.specs.Prelude.{None};

    ghost crawler = { λ _. None };

    fn open(&mut self, root: &str) -> Result<Told<N>, CrawlFault> {
        self.caller.has_read();
        self.crawler.open(&self.rt, self.caller, root)
    }

    fn ask(&self) -> Asked {
        self.crawler.ask()
    }

    fn crawl(&mut self, asked: Asked, root: &str) -> Result<Crawl<N>, CrawlFault> {
        self.caller.has_read();
        self.crawler.crawl(&self.rt, self.caller, &asked, root)
    }

    fn retire(&mut self, root: FoundRoot) -> Result<Told<N>, CrawlFault> {
        self.caller.has_read();
        self.crawler.retire(&self.rt, root)
    }

    fn workers(&self) -> u32 {
        self.workers.count
    }
}
