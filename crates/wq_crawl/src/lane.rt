//! A lane, in which the crawls of one root come one after the other. Crawls in other lanes go on at the same time, so a
//! tree that does not answer holds up only its own root.
ghost use Rattle.std.specs.Prelude.{◌≡◌, IfOk, IfSome, Some};
ghost use Rattle.wq_live.specs.Event.{number_of};
ghost use Rattle.wq_crawl.specs.Answer.{BeganSince, IsAnswer, told_list};
ghost use Rattle.wq_crawl.specs.Shared.{CrawledOnce, GlancedBetween, TriesOnce, WatchedBetween};

use crate::begun::{Asked, Begun, Raised};
use crate::crawl::{Began, Crawl};
use crate::fault::CrawlFault;
use crate::lister::Lister;
use crate::seconds::Seconds;
use crate::shared_publisher::SharedPublisher;
use std::sync::Wait;
use wq_live::{Named, Told};
use wq_patch::{Reach, Recent, Tree};

/// A lister for the crawls of a root, and the last crawl by it that serves clients.
#[derive(Drop)]
pub(crate) struct Lane<T: Tree + Drop, S: Seconds + Drop> {
    lister: Lister<T, S>,
    last: Option<Began>,
}

impl<T: Tree + Drop, S: Seconds + Drop> Lane<T, S> {
    /// A lane in which nothing was crawled yet.
    pub(crate) fn new(lister: Lister<T, S>) -> Lane<T, S> {
        Lane { lister, last: None }
    }

    /// Crawls a root for somebody that asked at this moment, unless the last crawl serves them too. It tries again as long
    /// as another pass over the root is published while it lists the root.
    pub(crate) fn crawl<N: Named, R: Wait + Drop>(
        &mut self,
        begun: &Begun,
        shared: &SharedPublisher<N, R>,
        rt: &R,
        asked: &Asked,
        root: &str,
    ) -> Result<Crawl<N>, CrawlFault>
        ensures crawled { CrawledOnce root.now self.old.lister (told_list result) self.new.lister }
        ensures answer { IfOk result (IsAnswer (N.published N.book) root.now) }
        ensures since { IfOk result (BeganSince asked.now.count) }
    {
        for _ in rt.forever() {
            if let Some(crawl) = self.try_crawl(begun, shared, rt, asked, root)? {
                return Ok(crawl);
            }
        }
        unreachable!()
    }

    /// Crawls a root as [`Lane::crawl`] does. There is no answer if the root was shown, published or ended by others
    /// meanwhile.
    fn try_crawl<N: Named, R: Wait + Drop>(
        &mut self,
        begun: &Begun,
        shared: &SharedPublisher<N, R>,
        rt: &R,
        asked: &Asked,
        root: &str,
    ) -> Result<Option<Crawl<N>>, CrawlFault>
        ensures crawled { TriesOnce root.now self.old.lister result self.new.lister }
        ensures answer { IfOk result (λ it. IfSome it (IsAnswer (N.published N.book) root.now)) }
        ensures since { IfOk result (λ it. IfSome it (BeganSince asked.now.count)) }
    {
        let Some((number, told)) = shared.find(rt, root)? else {
            return Ok(shared.gone(rt, root));
        };
        match self.last {
            Some(last) if last.serves(asked, number) => shared.again(rt, root, last),
            _ => self.crawl_whole(shared, rt, begun.raise(asked), number, root, &told),
        }
    }

    /// Crawls the whole root of this number and text, which this list shows, and keeps when it began. There is no answer if
    /// another pass over the root was published meanwhile.
    fn crawl_whole<N: Named, R: Wait + Drop>(
        &mut self,
        shared: &SharedPublisher<N, R>,
        rt: &R,
        raised: Raised,
        number: u64,
        root: &str,
        told: &Told<N>,
    ) -> Result<Option<Crawl<N>>, CrawlFault>
        requires shown { number_of root.now told.now ≡ Some number }
        ensures crawled { TriesOnce root.now self.old.lister result self.new.lister }
        ensures answer { IfOk result (λ it. IfSome it (IsAnswer (N.published N.book) root.now)) }
        ensures since { IfOk result (λ it. IfSome it (BeganSince raised.count)) }
    {
        let listed = self.lister.list_whole(raised, told.table(), number, root)?;
        let crawl = shared.publish(rt, root, told, listed)?;
        self.keep(&crawl);
        Ok(crawl)
    }

    /// Keeps when this crawl began, if it has an answer.
    fn keep<N: Named>(&mut self, crawl: &Option<Crawl<N>>)
        ensures { self.new.lister ≡ self.old.lister }
    {
        if let Some(crawl) = crawl {
            self.last = crawl.began();
        }
    }

    /// Crawls the root of this text by a glance that looks so far, and returns whether it did. It does nothing if the root
    /// is not shown, if the glance would look into no directory, or if memory runs out for finding the directories. It
    /// publishes nothing if another pass over the root was published meanwhile. The last crawl stays the one that serves
    /// clients.
    pub(crate) fn glance<N: Named, R: Wait + Drop>(
        &mut self,
        shared: &SharedPublisher<N, R>,
        rt: &R,
        root: &str,
        reach: Reach,
    ) -> Result<bool, CrawlFault>
        ensures glanced { GlancedBetween root.now self.old.lister result self.new.lister }
        ensures kept { self.new.last ≡ self.old.last }
    {
        let Some((number, told)) = shared.find(rt, root)? else {
            return Ok(false);
        };
        let Ok(Some(view)) = told.table().share_of(number) else {
            return Ok(false);
        };
        let Ok(Some(recent)) = Recent::of(&view, reach) else {
            return Ok(false);
        };
        self.glance_at(shared, rt, number, root, &told, &recent)
    }

    /// Crawls the root of this number and text, which this list shows, by a glance into these directories.
    fn glance_at<N: Named, R: Wait + Drop>(
        &mut self,
        shared: &SharedPublisher<N, R>,
        rt: &R,
        number: u64,
        root: &str,
        told: &Told<N>,
        recent: &Recent<'_>,
    ) -> Result<bool, CrawlFault>
        requires shown { number_of root.now told.now ≡ Some number }
        ensures glanced { GlancedBetween root.now self.old.lister result self.new.lister }
        ensures kept { self.new.last ≡ self.old.last }
    {
        let relisted = self
            .lister
            .list_again(told.table(), number, root, Some(recent))?;
        shared.publish_glance(rt, root, told, number, relisted)
    }

    /// Finds the root of this text, or lists it and starts it, and returns the list of events.
    pub(crate) fn open<N: Named, R: Wait + Drop>(
        &mut self,
        shared: &SharedPublisher<N, R>,
        rt: &R,
        root: &str,
    ) -> Result<Told<N>, CrawlFault>
        ensures watched { WatchedBetween root.now self.old.lister result self.new.lister }
        ensures kept { self.new.last ≡ self.old.last }
    {
        if let Some(told) = shared.find_or_room(rt, root)? {
            return Ok(told);
        }
        let pass = self.lister.list(root)?;
        shared.start(rt, root, pass)
    }
}
