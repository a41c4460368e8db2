//! The inbox of a client by the place that it has. In the place that is kept for ending things it hands on one line, if
//! that gives up a root or ends the server.
ghost use Rattle.std.specs.Prelude.{◌≡◌};
ghost use Rattle.wq_stream.specs.Inbox.{Hands};
ghost use Rattle.wq_server.specs.Inbox.{shown_below, shown_kept};

use crate::client::ClientPlace;
use serde_json::Value;
use std::alloc::Global;
use std::snapshot::Snapshot;
use wq_stream::{Event, Inbox};

/// The commands that the kept place is for.
const KEPT_FOR: [&str; 2] = ["shutdown-server", "watch-del"];

/// The events of a client. In the kept place the end comes after its first line. If that line asks for something else, or
/// there is none, the client is refused. It shows the events of the client that it has handed out, if the inbox below
/// shows them.
#[derive(Drop)]
pub(crate) struct PlacedInbox<I: Inbox + Drop> {
    alloc: Global,
    place: ClientPlace,
    inbox: I,
    /// Whether a line was handed on in the kept place.
    has_asked: bool,
    /// Whether the client is to hear that there is no place for it.
    pub(crate) is_refused: bool,
    /// In proofs alone: the inbox before the event that was refused.
    before: Snapshot<I>,
}

impl<I: Inbox + Drop> PlacedInbox<I> {
    /// The inbox of a client in this place, of whose events none was taken.
    pub(crate) fn new(alloc: Global, place: ClientPlace, inbox: I) -> PlacedInbox<I> {
        let before = Snapshot::of(&inbox);
        PlacedInbox {
            alloc,
            place,
            inbox,
            has_asked: false,
            is_refused: false,
            before,
        }
    }

    /// The next event in the kept place.
    fn next_kept(&mut self) -> Event
        ensures place { self.new.place ≡ self.old.place }
        ensures hands { Hands
            (shown_kept (shown_below self.old.is_refused (I.shown self.old.before.value) (I.shown self.old.inbox)))
            result
            (shown_kept (shown_below self.new.is_refused (I.shown self.new.before.value) (I.shown self.new.inbox))) }
    {
        if self.has_asked || self.is_refused {
            return Event::End;
        }
        let before = Snapshot::of(&self.inbox);
        let event = self.inbox.next();
        match &event {
            Event::Idle(_) => event,
            Event::Line(line) if is_kept_for(self.alloc, line.as_slice()) => {
                self.has_asked = true;
                event
            }
            _ => {
                self.is_refused = true;
                self.before = before;
                Event::End
            }
        }
    }
}

impl<I: Inbox + Drop> Inbox for PlacedInbox<I> {
    ghost use Rattle.wq_server.specs.Inbox.{shown_by_place};

    ghost shown = { λ i. shown_by_place i.place i.is_refused (I.shown i.before.value) (I.shown i.inbox) };

    fn next(&mut self) -> Event {
        match self.place {
            ClientPlace::Usual => self.inbox.next(),
            ClientPlace::Kept => self.next_kept(),
        }
    }
}

/// Whether a line asks for a command that the kept place is for. If memory runs out, it does not.
fn is_kept_for(alloc: Global, line: &[u8]) -> bool {
    match Value::from_slice(alloc, line) {
        Ok(Value::Array(words)) => match words.first() {
            Some(Value::String(name)) => KEPT_FOR.contains(&name.as_str()),
            _ => false,
        },
        _ => false,
    }
}
