//! The events of a client that wait for its session, beside the history that they are of.
ghost use Rattle.std.specs.Prelude.{◌≡◌, []};
ghost use Rattle.wq_inbox.specs.History.{BeginOne};
ghost use Rattle.wq_inbox.specs.Queue.{PutsEvent, TakesEvent};

use crate::history::{Front, Head, History};
use std::alloc::{AllocError, Global};
use std::marker::Model;
use wq_stream::{Backlog, Event};

/// How far a session has come: a beginning of the history, of which it took the first events. Contracts see these.
#[derive(Drop)]
pub(crate) struct Place<E: History> {
    front: Front<E>,
    taken: u64,
}

impl<E: History> Model for Place<E> {
    ghost use Rattle.std.specs.Prelude.{◌≤◌, List, length, take};
    ghost use Rattle.wq_stream.specs.declared.event.Event.{Event};

    ghost Value = { List Event };

    ghost view = { λ p. take p.taken p.front };

    ghost invariant = { λ p. p.taken ≤ length p.front };
}

impl<E: History> Place<E> {
    /// The place before the first event.
    pub(crate) fn new(front: Front<E>) -> Place<E>
        ensures { result ≡ [] }
    {
        Place { front, taken: 0 }
    }

    /// A copy.
    pub(crate) fn again(&self) -> Place<E>
        ensures { result ≡ self.now }
    {
        Place {
            front: self.front.again(),
            taken: self.taken,
        }
    }

    /// Says that the events that were taken, and those of a beginning of the history, begin one history.
    pub(crate) fn agree(&self, put: &Front<E>)
        ensures { BeginOne self.now put.now }
    {
        self.front.agree(put);
    }
}

/// The events that wait: those of the history that were put and not yet taken, in their order.
#[derive(Drop)]
pub(crate) struct Waiting<E: History> {
    put: Front<E>,
    taken: u64,
    backlog: Backlog,
}

impl<E: History> Model for Waiting<E> {
    ghost use Rattle.std.specs.Prelude.{◌≤◌, ◌≡◌, List, length, drop, false};
    ghost use Rattle.wq_stream.specs.declared.event.Event.{Event};

    ghost Value = { List Event };

    ghost view = { λ w. w.put };

    ghost invariant = { λ w. (w.taken ≤ length w.put)
        × (w.backlog.is_closed ≡ false → drop w.taken w.put ≡ w.backlog.events) };
}

impl<E: History> Waiting<E> {
    /// No event waits, and none was put.
    pub(crate) fn new(alloc: Global, front: Front<E>) -> Result<Waiting<E>, AllocError>
        requires { front ≡ [] }
    {
        Ok(Waiting {
            put: front,
            taken: 0,
            backlog: Backlog::new(alloc)?,
        })
    }

    /// Puts an event after all that its reader put before, and returns whether it did.
    pub(crate) fn put(&mut self, head: &Head<E>, mine: &mut Front<E>, event: Event) -> bool
        ensures { PutsEvent mine.old event result mine.new }
    {
        if !mine.is_same(&self.put) {
            return false;
        }
        let mut next = mine.again();
        if !next.add(head, &event) || !self.backlog.put(event) {
            return false;
        }
        self.put = next.again();
        *mine = next;
        true
    }

    /// Takes the event after all that its session took before. If there is none, or another session took it, it is the
    /// end.
    pub(crate) fn take(&mut self, mine: &mut Place<E>) -> Event
        ensures { TakesEvent mine.old result mine.new }
    {
        if self.taken != mine.taken || self.backlog.is_closed() || self.taken == u64::MAX {
            return Event::End;
        }
        let Some(event) = self.backlog.take() else {
            return Event::End;
        };
        mine.front.agree(&self.put);
        self.taken += 1;
        *mine = Place {
            front: self.put.again(),
            taken: self.taken,
        };
        event
    }
}
