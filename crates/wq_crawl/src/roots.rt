//! Crawling, opening and retiring roots for a session.
ghost use Rattle.std.specs.Prelude.{IfOk};
ghost use Rattle.wq_base.specs.Limit.{AreFew};
ghost use Rattle.wq_crawl.specs.Answer.{BeganSince, IsAnswer, told_list};
ghost use Rattle.wq_crawl.specs.Crawl.{tells};
ghost use Rattle.wq_crawl.specs.Roots.{RootsGive, ending, passing, showing};

use crate::begun::Asked;
use crate::crawl::Crawl;
use crate::fault::CrawlFault;
use crate::found_root::FoundRoot;
use wq_live::{Named, Told};

/// Crawls, opens and retires roots, and publishes the events that follow.
///
/// The roots may show their crawler. A refusal adds nothing to the list of events.
pub trait Roots<N: Named> {
    ghost use Rattle.std.specs.Prelude.{Option};
    ghost use Rattle.wq_crawl.specs.Crawl.{CrawlerData};

    // The crawler, if the roots show it.
    ghost crawler: { Self → Option CrawlerData };

    /// Finds the root of this text, or lists it and starts it, and returns the list of events.
    fn open(&mut self, root: &str) -> Result<Told<N>, CrawlFault>
        ensures { RootsGive (crawler self.old) (showing root.now) (tells result)
            (crawler self.new) };

    /// This moment, for a crawl that a session asks for now. Whoever asks reads it before the call.
    fn ask(&self) -> Asked;

    /// Crawls the root of this text for a session that asked at this moment, publishes the pass, and returns the list of
    /// events. There is none if the root is not shown. Only a publisher makes the answer, and each crawl takes a moment
    /// of its own.
    fn crawl(&mut self, asked: Asked, root: &str) -> Result<Crawl<N>, CrawlFault>
        ensures given { RootsGive (crawler self.old) (passing root.now) (told_list result)
            (crawler self.new) }
        ensures answer { IfOk result (IsAnswer (N.published N.book) root.now) }
        ensures since { IfOk result (BeganSince asked.count) };

    /// Publishes the end of a root that a look found, if it is shown, and tells the list of events.
    fn retire(&mut self, root: FoundRoot) -> Result<Told<N>, CrawlFault>
        ensures { RootsGive (crawler self.old) (ending root.instance.root) (tells result)
            (crawler self.new) };

    /// How many threads may look for the files of a query, 1 to 16.
    fn workers(&self) -> u32
        ensures { AreFew result };
}
