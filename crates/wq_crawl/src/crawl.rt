//! The answer to a crawl. Each is made by a publisher, of a listing that it publishes or of one that it published before. So
//! whoever crawls nothing has no answer.
ghost use Rattle.std.specs.Prelude.{◌≡◌, ◌≤◌, ◌&&◌, ◌==◌, nat_le, IfErr, IfOk, List, MatchResult, None, Some, ℕ, option_map};
ghost use Rattle.wq_live.specs.Event.{number_of};
ghost use Rattle.wq_crawl.specs.Answer.{IsAnswer, list_or_fault};
ghost use Rattle.wq_crawl.specs.Crawl.{CrawledAt, IsRelisted, IsTakable, ListerData, crawler_at};
ghost use Rattle.wq_crawl.specs.Publish.{OthersStay};

use crate::begun::Asked;
use crate::fault::CrawlFault;
use crate::lister::Listed;
use crate::relisted::told_by;
use std::marker::Model;
use std::sync::Wait;
use wq_live::{Named, Publisher, Told};

/// A crawl of a whole root that was published. Only [`Crawl::published`] makes one.
#[derive(Clone, Copy, Drop)]
pub(crate) struct Began {
    /// The number of the root.
    number: u64,
    /// The number of crawls that began before.
    count: u64,
}

impl Began {
    /// The number of the root.
    pub(crate) fn number(self) -> u64
        ensures { result ≡ self.number }
    {
        self.number
    }

    /// Whether the crawl was of the root of this number, and began when somebody asked, or later.
    pub(crate) fn serves(self, asked: &Asked, number: u64) -> bool
        ensures { result ≡ (self.number == number) && nat_le asked.now.count self.count }
    {
        self.number == number && asked.count() <= self.count
    }
}

/// The answer to a crawl of a root: a list of events that has what a crawl of the root found, or that the root is not shown.
/// Contracts see the list, the number of the root, and how many crawls began before that one.
#[derive(Drop)]
pub struct Crawl<N: Named> {
    found: Option<(Told<N>, Began)>,
}

impl<N: Named> Model for Crawl<N> {
    ghost use Rattle.std.specs.Prelude.{Option, option_map};
    ghost use Rattle.wq_crawl.specs.Answer.{CrawlData, answer_code};

    ghost Value = { Option CrawlData };

    ghost coded = { answer_code };

    ghost view = { λ c. option_map (λ it. record {
      told = it.0;
      number = (it.1).number;
      count = (it.1).count;
    }) c.found };
}

impl<N: Named> Crawl<N> {
    /// The answer that a root is not shown.
    pub(crate) fn gone<R: Wait + Drop>(publisher: &Publisher<N, R>, root: &str) -> Crawl<N>
        requires gone { number_of root.now publisher.now ≡ None }
        ensures none { result ≡ None }
        ensures answer { IsAnswer (N.published N.book) root.now result }
    {
        let _ = publisher.table();
        let _ = root;
        Crawl { found: None }
    }

    /// The present list, which has what an earlier crawl found.
    pub(crate) fn present<R: Wait + Drop>(
        publisher: &Publisher<N, R>,
        began: Began,
    ) -> Result<Crawl<N>, CrawlFault>
        ensures answer { MatchResult result
            (λ crawl. crawl ≡ Some (record {
              told = publisher.now;
              number = began.number;
              count = began.count;
            }))
            (λ fault. fault ≡ CrawlFault.NoMemory) }
        ensures published { N.published N.book publisher.now }
    {
        let _ = publisher.table();
        match told_by(publisher) {
            Ok(told) => Ok(Crawl {
                found: Some((told, began)),
            }),
            Err(fault) => Err(fault),
        }
    }

    /// Publishes the listing of a whole root, and returns the list after it.
    pub(crate) fn published<R: Wait + Drop>(
        publisher: &mut Publisher<N, R>,
        listed: Listed,
    ) -> Result<Crawl<N>, CrawlFault>
        requires fit { IsTakable listed.number publisher.old listed.relisted }
        ensures answer { IfOk result (λ crawl. crawl ≡ Some (record {
          told = publisher.new;
          number = listed.number;
          count = listed.raised.count;
        })) }
        // For every state of a lister that gave this listing:
        ensures crawled { (text : List ℕ) → (before : ListerData) → (after : ListerData)
            → IsRelisted listed.number text (crawler_at publisher.old before) listed.relisted
            (crawler_at publisher.old after)
            → CrawledAt listed.number text (crawler_at publisher.old before)
            (list_or_fault publisher.new result) (crawler_at publisher.new after) }
        ensures shown { (text : List ℕ)
            → number_of text publisher.new ≡ number_of text publisher.old }
        ensures others { OthersStay listed.number publisher.old publisher.new }
        ensures published { IfOk result (λ _. N.published N.book publisher.new) }
        ensures err { IfErr result (λ _. publisher.new ≡ publisher.old) }
    {
        let (relisted, number, count) = listed.parts();
        match relisted.publish(publisher, number) {
            Ok(told) => {
                told.published();
                Ok(Crawl {
                    found: Some((told, Began { number, count })),
                })
            }
            Err(fault) => Err(fault),
        }
    }

    /// The list, unless the root is not shown.
    pub fn told(self) -> Option<Told<N>>
        ensures { result ≡ option_map (λ crawl. crawl.told) self }
    {
        match self.found {
            Some((told, _)) => Some(told),
            None => None,
        }
    }

    /// The crawl that was published, unless the root is not shown.
    pub(crate) fn began(&self) -> Option<Began> {
        match &self.found {
            Some((_, began)) => Some(*began),
            None => None,
        }
    }
}
