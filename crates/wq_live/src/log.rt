//! A beginning of the one list of events of all roots. No memory holds the list itself. Threads share its length, and
//! have tokens without bytes for the part of it that they know.
ghost use Rattle.std.specs.Prelude.{◌≡◌, ◌++◌, ◌∷◌, [], IsTrue, length, map, nat_lt};
ghost use Rattle.wq_live.specs.Log.{Compared, head_of};
ghost use Rattle.wq_live.specs.News.{news_event};

use crate::event::RootEvent;
use crate::news::News;
use logbook::{Gain, Offer, Plain, Play, Rule, Seen, Word};
use std::marker::Model;

/// The rule for the list and for the word that threads share: the word is the length of the list.
pub struct Law;

impl Rule<RootEvent, u64> for Law {
    ghost use Rattle.std.specs.Prelude.{[]};
    ghost use base.Fml.{ftrue};
    ghost use Rattle.wq_live.specs.Log.{IsCount};

    ghost holds = { λ cells log. IsCount cells log };

    ghost first = { [] };

    ghost hinted = { λ n log. Unit {0} };

    ghost shows = { λ log. [] };

    ghost keeps = { λ names log. ftrue };

    ghost moves = { λ ask before after answer. Unit {0} };
}

/// Callers trade nothing.
struct Nothing;

impl Gain<RootEvent, u64> for Nothing {
    ghost use base.Fml.{ftrue};

    ghost after = { λ names about answer. ftrue };
}

/// A step that adds an event.
struct Add;

impl Play<RootEvent, u64> for Add {
    ghost use Rattle.wq_live.specs.Log.{AddsEvent};

    ghost then = { AddsEvent };
}

impl<'a> Plain<News<'a>, RootEvent, u64> for Add {
    ghost use Rattle.std.specs.Prelude.{None};
    ghost use Rattle.wq_live.specs.News.{news_event};

    ghost ask = { λ news. news_event news };

    ghost state = { λ news. None };
}

/// The word that threads share: the length of the list.
pub(crate) type Head = Word<RootEvent, u64, Law>;

/// A beginning of the list, by its length.
#[derive(Drop)]
pub struct Log {
    count: u64,
    seen: Seen<RootEvent, u64, Law>,
}

impl Model for Log {
    ghost use Rattle.std.specs.Prelude.{◌≡◌, length as count_of};
    ghost use Rattle.wq_live.specs.Log.{LogData, log_code};

    ghost Value = { LogData };

    ghost coded = { log_code };

    ghost view = { λ f. record { book = f.seen.book; log = f.seen.log } };

    ghost invariant = { λ f. f.count ≡ count_of f.seen.log };
}

impl Log {
    /// The log of a list without events.
    pub(crate) fn new(seen: Seen<RootEvent, u64, Law>) -> Log
        requires { seen.log ≡ [] }
        ensures { result ≡ record { book = seen.book; log = [] } }
    {
        Log { count: 0, seen }
    }

    /// A copy.
    pub(crate) fn again(&self) -> Log
        ensures { result ≡ self.now }
    {
        Log {
            count: self.count,
            seen: self.seen.again(),
        }
    }

    /// Whether this log is shorter than another of the same list. If it is, it begins the other log; if not, the other
    /// log begins it.
    pub(crate) fn is_shorter(&self, other: &Log) -> bool
        requires { self.now.book ≡ other.now.book }
        ensures shorter { result ≡ nat_lt (length self.now.log) (length other.now.log) }
        ensures begins { Compared self.now other.now }
    {
        let mut both = self.seen.again();
        both.learn(&other.seen);
        self.count < other.count
    }

    /// Adds an event to a log that knows the whole list, and returns whether it did. The call adds nothing if the list
    /// is longer. That never happens if one thread alone adds to the list.
    pub(crate) fn add(&mut self, head: &Head, news: &News<'_>) -> bool
        requires { head.now ≡ head_of self.old.book }
        ensures same { self.new.book ≡ self.old.book }
        ensures added { IsTrue result → self.new.log ≡ self.old.log ++ news_event news.now ∷ [] }
    {
        if self.count == u64::MAX {
            return false;
        }
        let mut offer: Offer<RootEvent, u64, Law, Nothing> = self
            .seen
            .plain::<Nothing, News<'_>, Add>(news);
        let mut pen = self.seen.no_pen();
        let count = self.count;
        let found = head.compare_exchange::<Add, Nothing>(
            count,
            count + 1,
            &mut self.seen,
            &mut offer,
            &mut pen,
        );
        self.count = if found == count { count + 1 } else { found };
        found == count
    }

    /// Adds events in their order, and returns whether it added all.
    pub(crate) fn add_all(&mut self, head: &Head, news: &[News<'_>]) -> bool
        requires { head.now ≡ head_of self.old.book }
        ensures same { self.new.book ≡ self.old.book }
        ensures added { IsTrue result → self.new.log ≡ self.old.log ++ map news_event news.now }
    {
        for event in news {
            if !self.add(head, event) {
                return false;
            }
        }
        true
    }
}
