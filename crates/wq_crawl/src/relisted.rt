//! What the listing of a root that has a view comes to, and its publication.
ghost use Rattle.std.specs.Prelude.{◌≡◌, ℕ, IfErr, IfOk, IsTrue, List, MatchResult};
ghost use Rattle.wq_record.specs.Seen.{is_count};
ghost use Rattle.wq_view.specs.View.{IsViewOf, ViewData};
ghost use Rattle.wq_live.specs.Event.{number_of, passes_over};
ghost use Rattle.wq_view.specs.Change.{MakePass, pass_by};
ghost use Rattle.wq_crawl.specs.Crawl.{CrawledAt, IsRelisted, IsTakable, ListerData, crawler_at};
ghost use Rattle.wq_crawl.specs.Publish.{IsNotTakenIn, OthersStay, Passes};

use crate::fault::CrawlFault;
use std::sync::Wait;
use wq_live::{Named, Publisher, Told};
use wq_view::{Pass, Patch, ViewFault};

/// What the listing of a root that has a view comes to.
#[derive(Drop)]
pub(crate) enum Relisted {
    /// This pass.
    Pass(Pass),
    /// The pass at this second that differs by these patches from the view.
    Patched(Vec<Patch>, i64),
}

impl Relisted {
    /// Publishes what the listing of the root of this number came to, beside the view that the root has now, and returns the
    /// list after it.
    pub(crate) fn publish<N: Named, R: Wait + Drop>(
        self,
        publisher: &mut Publisher<N, R>,
        number: u64,
    ) -> Result<Told<N>, CrawlFault>
        requires fit { IsTakable number publisher.old self }
        ensures told { IfOk result (λ told. told ≡ publisher.new) }
        // For every state of a lister that gave this listing:
        ensures crawled { (text : List ℕ) → (before : ListerData) → (after : ListerData)
            → IsRelisted number text (crawler_at publisher.old before) self
            (crawler_at publisher.old after)
            → CrawledAt number text (crawler_at publisher.old before) result
            (crawler_at publisher.new after) }
        ensures shown { (text : List ℕ)
            → number_of text publisher.new ≡ number_of text publisher.old }
        ensures others { OthersStay number publisher.old publisher.new }
        ensures err { IfErr result (λ _. publisher.new ≡ publisher.old) }
    {
        match self {
            Relisted::Pass(pass) => publish_pass(publisher, number, pass),
            Relisted::Patched(patches, second) => {
                publish_patches(publisher, number, &patches, second)
            }
        }
    }
}

/// The list that is published now.
pub(crate) fn told_by<N: Named, R: Wait + Drop>(
    publisher: &Publisher<N, R>,
) -> Result<Told<N>, CrawlFault>
    ensures { MatchResult result (λ told. told ≡ publisher.now)
        (λ fault. fault ≡ CrawlFault.NoMemory) }
{
    match publisher.told() {
        Ok(told) => Ok(told),
        Err(_) => Err(CrawlFault::NoMemory),
    }
}

/// Publishes a pass over the root of this number.
fn publish_pass<N: Named, R: Wait + Drop>(
    publisher: &mut Publisher<N, R>,
    number: u64,
    pass: Pass,
) -> Result<Told<N>, CrawlFault>
    ensures { MatchResult result
        (λ told. (told ≡ publisher.new) × Passes publisher.old number pass publisher.new)
        (λ fault. (publisher.new ≡ publisher.old)
        × IsNotTakenIn publisher.old number pass fault) }
{
    match publisher.publish(number, pass) {
        Ok(told) => Ok(told),
        Err(ViewFault::TicksSpent) => Err(CrawlFault::TicksSpent),
        Err(ViewFault::NoMemory) => Err(CrawlFault::NoMemory),
    }
}

/// Publishes a pass at this second over the root of this number, which differs by these patches from the root's view.
fn publish_patches<N: Named, R: Wait + Drop>(
    publisher: &mut Publisher<N, R>,
    number: u64,
    patches: &[Patch],
    second: i64,
) -> Result<Told<N>, CrawlFault>
    requires fit { (view : ViewData) × IsViewOf (passes_over number publisher.old) view
        × MakePass view.records patches.now }
    requires second { IsTrue (is_count second) }
    ensures { (view : ViewData) → IsViewOf (passes_over number publisher.old) view
        → MatchResult result
        (λ told. (told ≡ publisher.new)
        × Passes publisher.old number (pass_by view.records patches.now second) publisher.new)
        (λ fault. (publisher.new ≡ publisher.old)
        × IsNotTakenIn publisher.old number (pass_by view.records patches.now second) fault) }
{
    match publisher.publish_patches(number, patches, second) {
        Ok(told) => Ok(told),
        Err(ViewFault::TicksSpent) => Err(CrawlFault::TicksSpent),
        Err(ViewFault::NoMemory) => Err(CrawlFault::NoMemory),
    }
}
