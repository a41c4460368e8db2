//! The inbox: a session's events come from there.
ghost use Rattle.std.specs.Prelude.{◌≡◌};

use crate::event::Event;
use std::collections::VecDeque;

/// The source of the events of a client.
///
/// It may show the events that are left, or those of its client that it has handed out. After the last event it says that
/// the client has gone.
pub trait Inbox {
    ghost use Rattle.wq_stream.specs.Inbox.{InboxData, Hands};

    // The events that it shows.
    ghost shown: { Self → InboxData };

    /// The next event. It may wait for one.
    fn next(&mut self) -> Event
        ensures { Hands (shown self.old) result (shown self.new) };
}

/// Events that have come already.
#[derive(Drop)]
pub struct MemoryInbox {
    events: VecDeque<Event>,
}

impl MemoryInbox {
    /// An inbox with these events.
    pub fn new(events: VecDeque<Event>) -> MemoryInbox
        ensures { result.events ≡ events }
    {
        MemoryInbox { events }
    }
}

impl Inbox for MemoryInbox {
    ghost use Rattle.wq_stream.specs.Inbox.{left};

    ghost shown = { λ i. left i.events.items };

    fn next(&mut self) -> Event {
        match self.events.pop_front() {
            Some(event) => event,
            None => Event::End,
        }
    }
}
