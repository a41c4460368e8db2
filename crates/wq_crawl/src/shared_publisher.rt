//! A publisher that threads share. Each call has it for a short time: no call lists a root.
ghost use Rattle.std.specs.Prelude.{◌≡◌, ℕ, IfErr, IfOk, IfSome, List, MatchOption, MatchResult, None, Some};
ghost use Rattle.wq_live.specs.declared.event.RootEvent.{RootEvent};
ghost use Rattle.wq_live.specs.Event.{number_of};
ghost use Rattle.wq_crawl.specs.Answer.{BeganSince, IsAnswer, told_list};
ghost use Rattle.wq_crawl.specs.Crawl.{IsRelisted, IsTakable, ListerData, crawler_at};
ghost use Rattle.wq_crawl.specs.Publish.{EndsRoot};
ghost use Rattle.wq_crawl.specs.Roots.{RootsGive, passing};
ghost use Rattle.wq_crawl.specs.Shared.{FindsOrRefuses, Publishes, PublishesGlance, StartsRoot};

use crate::begun::Asked;
use crate::crawl::{Began, Crawl};
use crate::fault::CrawlFault;
use crate::found_root::FoundRoot;
use crate::lister::Listed;
use crate::place::{Place, place_for};
use crate::relisted::Relisted;
use crate::root_publisher::RootPublisher;
use std::sync::{Mutex, Wait};
use wq_live::{Named, Publisher, Told};
use wq_view::Pass;

/// A publisher that threads share. Contracts speak of the list of events that it has during a call. The lock gives only
/// calls each of which changes one root ([`RootPublisher`]).
#[derive(Drop)]
pub(crate) struct SharedPublisher<N: Named, R: Wait + Drop> {
    publisher: Mutex<RootPublisher<N, R>>,
}

impl<N: Named, R: Wait + Drop> SharedPublisher<N, R> {
    /// This publisher, for threads to share.
    pub(crate) fn new(publisher: Publisher<N, R>) -> SharedPublisher<N, R> {
        SharedPublisher {
            publisher: Mutex::new(RootPublisher::new(publisher)),
        }
    }

    /// The number of the root of this text, if it is shown, and the present list. It frees the views that only the
    /// table before the last one still holds.
    pub(crate) fn find(&self, rt: &R, root: &str) -> Result<Option<(u64, Told<N>)>, CrawlFault>
        ensures { MatchResult result
            (λ found. MatchOption found
            ((events : List RootEvent) × (number_of root.now events ≡ None))
            (λ it. number_of root.now it.1 ≡ Some it.0))
            (λ fault. (fault ≡ CrawlFault.NoMemory) × (events : List RootEvent) × (number : ℕ)
            × (number_of root.now events ≡ Some number)) }
    {
        let mut publisher = self.publisher.lock(rt);
        // Otherwise memory would hold the views before the last ones beside what a listing makes.
        publisher.let_go();
        let publisher = publisher.publisher();
        let Some(number) = publisher.find(root) else {
            return Ok(None);
        };
        match publisher.told() {
            Ok(told) => Ok(Some((number, told))),
            Err(_) => Err(CrawlFault::NoMemory),
        }
    }

    /// The present list, if the root of this text is shown. It is refused if the root is not shown, and no more can be
    /// started. It frees views as [`SharedPublisher::find`] does.
    pub(crate) fn find_or_room(&self, rt: &R, root: &str) -> Result<Option<Told<N>>, CrawlFault>
        ensures { (events : List RootEvent) × (place : Place)
            × FindsOrRefuses root.now events place result }
    {
        let mut publisher = self.publisher.lock(rt);
        // As in every call before a listing.
        publisher.let_go();
        let publisher = publisher.publisher();
        match place_for(publisher.table(), root) {
            Place::Shown(_) => match publisher.told() {
                Ok(told) => Ok(Some(told)),
                Err(_) => Err(CrawlFault::NoMemory),
            },
            Place::Full => Err(CrawlFault::TooManyRoots),
            Place::Free => Ok(None),
        }
    }

    /// The answer that the root of this text is not shown, if it is not.
    pub(crate) fn gone(&self, rt: &R, root: &str) -> Option<Crawl<N>>
        ensures none { IfSome result (λ crawl. crawl ≡ None) }
        ensures shown { result ≡ None → (events : List RootEvent) × (number : ℕ)
            × (number_of root.now events ≡ Some number) }
        ensures answer { IfSome result (IsAnswer (N.published N.book) root.now) }
    {
        let publisher = self.publisher.lock(rt);
        let publisher = publisher.publisher();
        match publisher.find(root) {
            Some(_) => None,
            None => Some(Crawl::gone(publisher, root)),
        }
    }

    /// The answer to a client that asked at this moment and waits no longer for a crawl of the root of this text: the root is
    /// not shown, or the client has gone and is refused. There is none if it goes on waiting.
    pub(crate) fn without_crawl(
        &self,
        rt: &R,
        asked: &Asked,
        root: &str,
        is_gone: bool,
    ) -> Option<Result<Crawl<N>, CrawlFault>>
        ensures given { IfSome result (λ it.
            RootsGive None (passing root.now) (told_list it) None) }
        ensures answer { IfSome result
            (λ it. IfOk it (IsAnswer (N.published N.book) root.now)) }
        ensures since { IfSome result (λ it. IfOk it (BeganSince asked.now.count)) }
    {
        // No crawl is told, so it is one for each moment.
        let _ = asked;
        match self.gone(rt, root) {
            Some(crawl) => Some(Ok(crawl)),
            None if is_gone => Some(Err(CrawlFault::NoMemory)),
            None => None,
        }
    }

    /// The present list, which has what an earlier crawl found of the root of this text, if that is still the same root.
    pub(crate) fn again(
        &self,
        rt: &R,
        root: &str,
        began: Began,
    ) -> Result<Option<Crawl<N>>, CrawlFault>
        ensures answer { IfOk result (λ it. IfSome it (IsAnswer (N.published N.book) root.now)) }
        ensures began { IfOk result (λ it. IfSome it (λ crawl. (told : List RootEvent)
            × (crawl ≡ Some (record {
              told = told;
              number = began.number;
              count = began.count;
            })))) }
        ensures short { IfErr result (λ fault. (fault ≡ CrawlFault.NoMemory)
            × (events : List RootEvent) × (number_of root.now events ≡ Some began.number)) }
    {
        let publisher = self.publisher.lock(rt);
        let publisher = publisher.publisher();
        if publisher.find(root) != Some(began.number()) {
            return Ok(None);
        }
        match Crawl::present(publisher, began) {
            Ok(crawl) => Ok(Some(crawl)),
            Err(fault) => Err(fault),
        }
    }

    /// Publishes the listing of the root of this text beside its view in a list that was given out, and returns the answer.
    /// There is none if another pass over the root was published since then, or if it has ended.
    pub(crate) fn publish(
        &self,
        rt: &R,
        root: &str,
        told: &Told<N>,
        listed: Listed,
    ) -> Result<Option<Crawl<N>>, CrawlFault>
        requires shown { number_of root.now told.now ≡ Some listed.number }
        requires fit { IsTakable listed.number told.now listed.relisted }
        // For every state of a lister that gave this listing:
        ensures published { (before : ListerData) → (after : ListerData)
            → IsRelisted listed.number root.now (crawler_at told.now before) listed.relisted
            (crawler_at told.now after) → Publishes root.now before result after }
        ensures answer { IfOk result (λ it. IfSome it (IsAnswer (N.published N.book) root.now)) }
        ensures since { IfOk result (λ it. IfSome it (BeganSince listed.raised.count)) }
    {
        self.publisher.lock(rt).publish(root, told, listed)
    }

    /// Publishes what a glance at the root of this number and text came to, beside its view in a list that was given out,
    /// and returns whether it did. It does not if another pass over the root was published since then, or if it has ended.
    pub(crate) fn publish_glance(
        &self,
        rt: &R,
        root: &str,
        told: &Told<N>,
        number: u64,
        relisted: Relisted,
    ) -> Result<bool, CrawlFault>
        requires shown { number_of root.now told.now ≡ Some number }
        requires fit { IsTakable number told.now relisted }
        // For every state of a lister that gave this listing:
        ensures { (before : ListerData) → (after : ListerData)
            → IsRelisted number root.now (crawler_at told.now before) relisted
            (crawler_at told.now after) → PublishesGlance root.now before result after }
    {
        self.publisher
            .lock(rt)
            .publish_glance(root, told, number, relisted)
    }

    /// Publishes the start of the root of this text with this pass, unless it is shown, and returns the list.
    pub(crate) fn start(&self, rt: &R, root: &str, pass: Pass) -> Result<Told<N>, CrawlFault>
        ensures { (events : List RootEvent) × (place : Place)
            × StartsRoot root.now pass events place result }
    {
        self.publisher.lock(rt).start(root, pass)
    }

    /// Publishes the end of a root that a look found, if it is shown, and returns the list.
    pub(crate) fn retire(&self, rt: &R, root: FoundRoot) -> Result<Told<N>, CrawlFault>
        ensures { (events : List RootEvent) × MatchResult result
            (λ told. EndsRoot events root.instance.root told)
            (λ fault. fault ≡ CrawlFault.NoMemory) }
    {
        self.publisher.lock(rt).retire(root)
    }

    /// Frees the views that only the table before the last one still holds ([`Publisher::let_go`]).
    pub(crate) fn let_go(&self, rt: &R) {
        self.publisher.lock(rt).let_go();
    }
}
