//! A session's inbox over the queue of its client.
ghost use Rattle.wq_inbox.specs.Queue.{TakesEvent};
ghost use Rattle.wq_stream.specs.Inbox.{Hands, clients, handed};

use crate::history::History;
use crate::queue::Outlet;
use crate::turnstile::Ticket;
use std::sync::Wait;
use std::time::Clock;
use wq_stream::{Event, Inbox};

/// The events of a client, in their order. A long line comes when few others are read. It shows the events of the
/// client that it has handed out: those that its outlet gave.
#[derive(Drop)]
pub struct LinkInbox<'a, R: Wait + Clock + Drop, E: History> {
    pub outlet: Outlet<E>,
    pub rt: R,
    pub ticket: &'a Ticket<'a, R>,
}

impl<R: Wait + Clock + Drop, E: History> Inbox for LinkInbox<'_, R, E> {
    ghost use Rattle.wq_stream.specs.Inbox.{clients, handed};

    ghost shown = { λ i. handed (clients i.outlet) };

    fn next(&mut self) -> Event
        ensures taken { TakesEvent self.old.outlet result self.new.outlet }
        ensures hands { Hands (handed (clients self.old.outlet)) result
            (handed (clients self.new.outlet)) }
    {
        self.ticket.leave();
        self.outlet.next(&self.rt, self.ticket)
    }
}
