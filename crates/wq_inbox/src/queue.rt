//! The queue from which a session takes its client's events, and its two ends. The events between the ends have a history:
//! those that were taken are the first of those that were put, in their order.
ghost use Rattle.std.specs.Prelude.{◌≡◌, [], IfOk};
ghost use Rattle.wq_inbox.specs.History.{BeginOne};
ghost use Rattle.wq_inbox.specs.Queue.{PutsEvent, TakesEvent};

use crate::coming::Turn;
use crate::history::{Front, Head, History, Opened};
use crate::link::Link;
use crate::turnstile::Ticket;
use crate::waiting::{Place, Waiting};
use std::alloc::{AllocError, Global};
use std::marker::Model;
use std::sync::{Arc, Mutex, Wait};
use std::time::{Clock, Duration};
use wq_stream::Event;

/// A queue that threads share. The link says how many events wait in it, and wakes those that wait for it.
#[derive(Drop)]
struct Queue<E: History> {
    link: Arc<Link>,
    head: Head<E>,
    waiting: Mutex<Waiting<E>>,
}

impl<E: History> Queue<E> {
    /// Puts an event of the client after the others as soon as there is room, and says whether it did. If it did not,
    /// the queue is closed.
    fn put<R: Wait>(&self, rt: &R, mine: &mut Front<E>, event: Event) -> bool
        ensures { PutsEvent mine.old event result mine.new }
    {
        let lock = self.link.coming.lock(rt);
        let mut coming = self.link.changed.wait_while(rt, lock, |it| it.is_full());
        let is_there = !coming.is_closed() && self.waiting.lock(rt).put(&self.head, mine, event);
        if is_there {
            coming.add();
        } else {
            coming.close();
        }
        drop(coming);
        self.link.changed.notify_all();
        is_there
    }

    /// Takes the next event as soon as there is one, or a moment that is due, or the end if the queue is closed.
    fn take<R: Wait>(&self, rt: &R, mine: &mut Place<E>) -> Event
        ensures { TakesEvent mine.old result mine.new }
    {
        let lock = self.link.coming.lock(rt);
        let mut coming = self.link.changed.wait_while(rt, lock, |it| it.is_idle());
        let event = match coming.next() {
            Some(Turn::Moment(number)) => Event::Idle(number),
            Some(Turn::Client) => self.waiting.lock(rt).take(mine),
            Some(Turn::Closed) | None => Event::End,
        };
        drop(coming);
        self.link.changed.notify_all();
        event
    }
}

/// The end of a queue into which a reader puts events. Contracts see all that it put.
#[derive(Drop)]
pub struct Feed<E: History> {
    queue: Arc<Queue<E>>,
    put: Front<E>,
}

impl<E: History> Model for Feed<E> {
    ghost use Rattle.std.specs.Prelude.{List};
    ghost use Rattle.wq_stream.specs.declared.event.Event.{Event};

    ghost Value = { List Event };

    ghost view = { λ f. f.put };
}

impl<E: History> Feed<E> {
    /// Puts an event after the others as soon as there is room, and says whether it did. If it did not, the queue is
    /// closed.
    pub(crate) fn put<R: Wait>(&mut self, rt: &R, event: Event) -> bool
        ensures { PutsEvent self.old event result self.new }
    {
        self.queue.put(rt, &mut self.put, event)
    }

    /// Waits so long, but no longer than the queue is open. Says whether it is closed.
    pub(crate) fn pause<R: Wait + Clock>(&self, rt: &R, time: Duration) -> bool {
        self.queue.link.pause(rt, time)
    }
}

/// The end of a queue from which a session takes events. Contracts see the client's events that it took.
#[derive(Drop)]
pub struct Outlet<E: History> {
    queue: Arc<Queue<E>>,
    place: Place<E>,
}

impl<E: History> Model for Outlet<E> {
    ghost use Rattle.std.specs.Prelude.{List};
    ghost use Rattle.wq_stream.specs.declared.event.Event.{Event};

    ghost Value = { List Event };

    ghost view = { λ o. o.place };
}

impl<E: History> Outlet<E> {
    /// Takes the next event as soon as there is one and the session may read it. If the server ends before it may, or
    /// the queue is closed, that is the end, and all later ones are.
    pub(crate) fn next<R: Wait + Clock>(&mut self, rt: &R, ticket: &Ticket<'_, R>) -> Event
        ensures { TakesEvent self.old result self.new }
    {
        let mut next = self.place.again();
        let event = self.queue.take(rt, &mut next);
        if !ticket.lets(&event) {
            return Event::End;
        }
        self.place = next;
        event
    }
}

/// The two ends of an empty queue of this link, over a history of its own.
pub fn open_queue<E: History>(
    alloc: Global,
    link: Arc<Link>,
    opened: Opened,
) -> Result<(Feed<E>, Outlet<E>), AllocError>
    requires { opened ≡ E.book }
    ensures { IfOk result (λ ends. (ends.0 ≡ []) × (ends.1 ≡ [])) }
{
    let (head, front) = opened.named::<E>();
    let put = front.again();
    let place = Place::new(front.again());
    let waiting = Waiting::new(alloc, front)?;
    let queue = Arc::new(
        alloc,
        Queue {
            link,
            head,
            waiting: Mutex::new(waiting),
        },
    )?;
    Ok((
        Feed {
            queue: queue.clone()?,
            put,
        },
        Outlet { queue, place },
    ))
}

/// Law: what a session took, and what the reader put, begin one history.
pub fn takes_what_was_put<E: History>(outlet: &Outlet<E>, feed: &Feed<E>)
    ensures { BeginOne outlet.now feed.now }
{
    outlet.place.agree(&feed.put);
}
