//! A publisher by calls each of which changes one root. A call takes what only a listing of that root makes, or a look at
//! it. So whoever has this publisher cannot change another root.
ghost use Rattle.std.specs.Prelude.{◌+◌, ◌≡◌, IfOk, IfSome, IsTrue, List, MatchResult, Some, length};
ghost use Rattle.wq_live.specs.declared.event.RootEvent.{RootEvent};
ghost use Rattle.wq_live.specs.Event.{number_of, passes_over, started};
ghost use Rattle.wq_crawl.specs.Answer.{BeganSince, IsAnswer};
ghost use Rattle.wq_crawl.specs.Crawl.{IsRelisted, IsTakable, ListerData, crawler_at, makes};
ghost use Rattle.wq_crawl.specs.Publish.{EndsRoot, OthersStay};
ghost use Rattle.wq_crawl.specs.Shared.{Publishes, PublishesGlance, StartsRoot};

use crate::crawl::Crawl;
use crate::fault::CrawlFault;
use crate::found_root::FoundRoot;
use crate::lister::Listed;
use crate::place::{Place, place_for};
use crate::relisted::Relisted;
use std::sync::Wait;
use wq_live::{Named, Publisher, StartFault, Told};
use wq_view::Pass;

/// A publisher by calls each of which changes one root. Contracts speak of its list of events.
#[derive(Drop)]
pub(crate) struct RootPublisher<N: Named, R: Wait + Drop> {
    publisher: Publisher<N, R>,
}

impl<N: Named, R: Wait + Drop> RootPublisher<N, R> {
    /// This publisher.
    pub(crate) fn new(publisher: Publisher<N, R>) -> RootPublisher<N, R>
        ensures { result.publisher ≡ publisher }
    {
        RootPublisher { publisher }
    }

    /// The publisher, which nobody changes by this.
    pub(crate) fn publisher(&self) -> &Publisher<N, R>
        ensures { result.now ≡ self.now.publisher }
    {
        &self.publisher
    }

    /// Frees the views that only the table before the last one still holds ([`Publisher::let_go`]).
    pub(crate) fn let_go(&mut self)
        ensures { self.new.publisher ≡ self.old.publisher }
    {
        self.publisher.let_go();
    }

    /// Publishes the listing of the root of this text beside its view in a list that was given out, and returns the answer.
    /// There is none if another pass over the root was published since then, or if it has ended.
    pub(crate) fn publish(
        &mut self,
        root: &str,
        told: &Told<N>,
        listed: Listed,
    ) -> Result<Option<Crawl<N>>, CrawlFault>
        requires shown { number_of root.now told.now ≡ Some listed.number }
        requires fit { IsTakable listed.number told.now listed.relisted }
        // For every state of a lister that gave this listing:
        ensures published { (before : ListerData) → (after : ListerData)
            → IsRelisted listed.number root.now (crawler_at told.now before) listed.relisted
            (crawler_at told.now after) → Publishes root.now before result after }
        ensures answer { IfOk result (λ it. IfSome it (IsAnswer (N.published N.book) root.now)) }
        ensures since { IfOk result (λ it. IfSome it (BeganSince listed.raised.count)) }
        ensures others { OthersStay listed.number self.old.publisher self.new.publisher }
    {
        if !is_as_told(&self.publisher, root, told, listed.number()) {
            return Ok(None);
        }
        match Crawl::published(&mut self.publisher, listed) {
            Ok(crawl) => Ok(Some(crawl)),
            Err(fault) => Err(fault),
        }
    }

    /// Publishes what a glance at the root of this number and text came to, beside its view in a list that was given out,
    /// and returns whether it did. It does not if another pass over the root was published since then, or if it has ended.
    pub(crate) fn publish_glance(
        &mut self,
        root: &str,
        told: &Told<N>,
        number: u64,
        relisted: Relisted,
    ) -> Result<bool, CrawlFault>
        requires shown { number_of root.now told.now ≡ Some number }
        requires fit { IsTakable number told.now relisted }
        // For every state of a lister that gave this listing:
        ensures published { (before : ListerData) → (after : ListerData)
            → IsRelisted number root.now (crawler_at told.now before) relisted
            (crawler_at told.now after) → PublishesGlance root.now before result after }
        ensures others { OthersStay number self.old.publisher self.new.publisher }
    {
        if !is_as_told(&self.publisher, root, told, number) {
            return Ok(false);
        }
        made(relisted.publish(&mut self.publisher, number))
    }

    /// Publishes the start of the root of this text with this pass, unless it is shown, and returns the list.
    pub(crate) fn start(&mut self, root: &str, pass: Pass) -> Result<Told<N>, CrawlFault>
        ensures started { (place : Place)
            × StartsRoot root.now pass self.old.publisher place result }
        ensures others { OthersStay (length (started self.old.publisher) + 1) self.old.publisher
            self.new.publisher }
    {
        match place_for(self.publisher.table(), root) {
            Place::Shown(_) => match self.publisher.told() {
                Ok(told) => Ok(told),
                Err(_) => Err(CrawlFault::NoMemory),
            },
            Place::Full => Err(CrawlFault::TooManyRoots),
            Place::Free => match self.publisher.start(root, pass) {
                Ok((_number, told)) => Ok(told),
                Err(StartFault::TooManyRoots) => Err(CrawlFault::TooManyRoots),
                Err(StartFault::NoMemory) => Err(CrawlFault::NoMemory),
            },
        }
    }

    /// Publishes the end of a root that a look found, if it is shown, and returns the list.
    pub(crate) fn retire(&mut self, root: FoundRoot) -> Result<Told<N>, CrawlFault>
        ensures ended { MatchResult result
            (λ told. EndsRoot self.old.publisher root.instance.root told)
            (λ fault. fault ≡ CrawlFault.NoMemory) }
        ensures others { OthersStay root.instance.root self.old.publisher self.new.publisher }
    {
        match self.publisher.retire(root.number()) {
            Ok(told) => Ok(told),
            Err(_) => Err(CrawlFault::NoMemory),
        }
    }
}

/// Whether a glance was made that was not refused.
fn made<N: Named>(told: Result<Told<N>, CrawlFault>) -> Result<bool, CrawlFault>
    ensures { result ≡ makes told }
{
    match told {
        Ok(_) => Ok(true),
        Err(fault) => Err(fault),
    }
}

/// Whether the root of this text is shown under this number, and no pass over it was published since a list was given out.
fn is_as_told<N: Named, R: Wait + Drop>(
    publisher: &Publisher<N, R>,
    root: &str,
    told: &Told<N>,
    number: u64,
) -> bool
    ensures shown { IsTrue result → number_of root.now publisher.now ≡ Some number }
    ensures same { IsTrue result
        → passes_over number publisher.now ≡ passes_over number told.now }
{
    publisher.find(root) == Some(number) && publisher.is_as_told(told, number)
}
