//! The history of the events of one client: those that its reader put into its session's queue. No memory holds it.
//! Threads share its length, and have tokens without bytes for the part of it that they know.
ghost use Rattle.std.specs.Prelude.{◌≡◌, ◌++◌, ◌∷◌, [], IsTrue};
ghost use Rattle.wq_inbox.specs.History.{BeginOne, head_of};

use logbook::{Gain, Offer, Plain, Play, Rule, Seen, Start, Word};
use std::marker::{Brand, Model, PhantomData};
use wq_stream::Event;

/// The rule for the history and for the word that threads share: the word is the length of the history.
pub struct Law;

impl Rule<Event, u64> for Law {
    ghost use Rattle.std.specs.Prelude.{[]};
    ghost use base.Fml.{ftrue};
    ghost use Rattle.wq_inbox.specs.History.{IsCount};

    ghost holds = { λ cells log. IsCount cells log };

    ghost first = { [] };

    ghost hinted = { λ n log. Unit {0} };

    ghost shows = { λ log. [] };

    ghost keeps = { λ names log. ftrue };

    ghost moves = { λ ask before after answer. Unit {0} };
}

/// Callers trade nothing.
struct Nothing;

impl Gain<Event, u64> for Nothing {
    ghost use base.Fml.{ftrue};

    ghost after = { λ names about answer. ftrue };
}

/// A step that adds an event.
struct Add;

impl Play<Event, u64> for Add {
    ghost use Rattle.wq_inbox.specs.History.{AddsEvent};

    ghost then = { AddsEvent };
}

impl Plain<Event, Event, u64> for Add {
    ghost use Rattle.std.specs.Prelude.{None};

    ghost ask = { λ event. event };

    ghost state = { λ event. None };
}

/// Which client's history it is, in proofs alone. Each call that opens a history picks its own.
pub trait History {
    ghost use Rattle.logbook.specs.Pages.{Book};

    ghost book: { Book };
}

impl History for Brand {
    ghost book = { record { number = 0; log_name = 0; cells_name = 0 } };
}

/// A history without events, before it has a name. Contracts see its identity.
#[derive(Drop)]
pub struct Opened {
    word: Word<Event, u64, Law>,
    seen: Seen<Event, u64, Law>,
}

impl Model for Opened {
    ghost use Rattle.std.specs.Prelude.{◌≡◌, []};
    ghost use Rattle.logbook.specs.Pages.{Book, book_coded};
    ghost use Rattle.wq_inbox.specs.History.{head_of};

    ghost Value = { Book };

    ghost coded = { book_coded };

    ghost view = { λ o. o.seen.book };

    ghost invariant = { λ o. (o.seen.log ≡ []) × (o.word ≡ head_of o.seen.book) };
}

impl Opened {
    /// A history of its own.
    pub fn new() -> Opened {
        let (seen, mut pen, _second) = Seen::open(Start::alone(), 0, 0);
        Opened {
            word: Word::tracked(0, &mut pen),
            seen,
        }
    }

    /// The shared word of the history under its name, and the beginning without events.
    pub(crate) fn named<E: History>(self) -> (Head<E>, Front<E>)
        requires { self ≡ E.book }
        ensures { result.1 ≡ [] }
    {
        let Opened { word, seen } = self;
        (
            Head {
                word,
                of: PhantomData,
            },
            Front {
                count: 0,
                seen,
                of: PhantomData,
            },
        )
    }
}

/// The word that threads share: the length of the history.
#[derive(Drop)]
pub(crate) struct Head<E: History> {
    word: Word<Event, u64, Law>,
    of: PhantomData<E>,
    ghost head_is: { word ≡ head_of E.book },
}

/// A beginning of the history. Contracts see its events.
#[derive(Drop)]
pub(crate) struct Front<E: History> {
    count: u64,
    seen: Seen<Event, u64, Law>,
    of: PhantomData<E>,
}

impl<E: History> Model for Front<E> {
    ghost use Rattle.std.specs.Prelude.{◌≡◌, List, length};
    ghost use Rattle.wq_stream.specs.declared.event.Event.{Event};

    ghost Value = { List Event };

    ghost view = { λ f. f.seen.log };

    ghost invariant = { λ f. (f.count ≡ length f.seen.log) × (f.seen.book ≡ E.book) };
}

impl<E: History> Front<E> {
    /// A copy.
    pub(crate) fn again(&self) -> Front<E>
        ensures { result ≡ self.now }
    {
        Front {
            count: self.count,
            seen: self.seen.again(),
            of: PhantomData,
        }
    }

    /// Says that this and another are beginnings of one history.
    pub(crate) fn agree(&self, other: &Front<E>)
        ensures { BeginOne self.now other.now }
    {
        let mut both = self.seen.again();
        both.learn(&other.seen);
    }

    /// Whether it has as many events as another, and so the same.
    pub(crate) fn is_same(&self, other: &Front<E>) -> bool
        ensures { IsTrue result → self.now ≡ other.now }
    {
        self.agree(other);
        self.count == other.count
    }

    /// Adds an event to a beginning that is the whole history, and returns whether it did. It adds none if the history
    /// is longer. That never happens if one thread alone adds to it.
    pub(crate) fn add(&mut self, head: &Head<E>, event: &Event) -> bool
        ensures { IsTrue result → self.new ≡ self.old ++ event.now ∷ [] }
    {
        if self.count == u64::MAX {
            return false;
        }
        let mut offer: Offer<Event, u64, Law, Nothing> = self
            .seen
            .plain::<Nothing, Event, Add>(event);
        let mut pen = self.seen.no_pen();
        let count = self.count;
        let found = head
            .word
            .compare_exchange::<Add, Nothing>(
                count,
                count + 1,
                &mut self.seen,
                &mut offer,
                &mut pen,
            );
        self.count = if found == count { count + 1 } else { found };
        found == count
    }
}
