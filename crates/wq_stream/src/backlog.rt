//! The events that wait for a session, in a queue of limited length. Another crate lets threads wait for it.
ghost use Rattle.std.specs.Prelude.{◌≡◌, IfOk, [], false};
ghost use Rattle.wq_stream.specs.Queue.{Puts, TakesFirst, closed};

use crate::event::Event;
use std::alloc::{AllocError, Global};
use std::collections::VecDeque;
use std::marker::Model;

/// The greatest number of events that wait. A line has up to a mebibyte, and another piece of the stream waits with its
/// reader.
pub const MAX_WAITING: usize = 8;

/// Events that wait, at most [`MAX_WAITING`]. Contracts see the events and whether the queue is closed.
#[derive(Drop)]
pub struct Backlog {
    events: VecDeque<Event>,
    is_closed: bool,
}

impl Model for Backlog {
    ghost use Rattle.std.specs.Prelude.{◌≤◌, ◌≡◌, [], length as count_of, true};
    ghost use Rattle.wq_stream.specs.Queue.{QueueData, most_waiting};

    ghost Value = { QueueData };

    ghost view = { λ w. record { events = w.events.items; is_closed = w.is_closed } };

    ghost invariant = { λ w. (count_of w.events.items ≤ most_waiting)
        × (w.is_closed ≡ true → w.events.items ≡ []) };
}

impl Backlog {
    /// An empty queue, with room for the most events that may wait.
    pub fn new(alloc: Global) -> Result<Backlog, AllocError>
        ensures { IfOk result (λ it. (it.events ≡ []) × (it.is_closed ≡ false)) }
    {
        Ok(Backlog {
            events: VecDeque::with_capacity(alloc, MAX_WAITING)?,
            is_closed: false,
        })
    }

    /// Whether the queue takes in no more events.
    pub fn is_closed(&self) -> bool
        ensures { result ≡ self.now.is_closed }
    {
        self.is_closed
    }

    /// Puts an event after the others, and returns whether it is there. If it is not, the queue is closed from then on.
    /// So no event is lost unless the session ends.
    pub fn put(&mut self, event: Event) -> bool
        ensures { Puts event self.old result self.new }
    {
        if self.is_closed {
            return false;
        }
        if self.events.len() < MAX_WAITING && self.events.push_back(event).is_ok() {
            return true;
        }
        self.close();
        false
    }

    /// Takes the first event, or the end of a session if the queue is closed.
    pub fn take(&mut self) -> Option<Event>
        ensures { TakesFirst self.old result self.new }
    {
        if self.is_closed {
            return Some(Event::End);
        }
        self.events.pop_front()
    }

    /// Closes the queue: it takes in no more events, and gives back the memory of those that wait.
    pub fn close(&mut self)
        ensures { self.new ≡ closed }
    {
        self.events.clear();
        self.is_closed = true;
    }
}
