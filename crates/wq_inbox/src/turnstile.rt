//! The turnstile before long lines. It lets in few at once, so that the memory and the processors that long lines take do
//! not grow with the number of the clients that send them.

use std::sync::atomic::{AtomicBool, Ordering};
use std::sync::{Condvar, Mutex, Wait};
use std::time::{Clock, Duration};
use wq_stream::Event;

/// How many bytes a long line has at least.
const LONG: usize = 16_384;

/// How many sessions may read a long line at once.
const MOST: u32 = 2;

/// How many seconds a session waits at most before it reads a long line, whoever is inside.
const PATIENCE: u64 = 10;

/// The sessions that read a long line now. Threads share it.
#[derive(Drop)]
pub struct Turnstile {
    inside: Mutex<Inside>,
    left: Condvar,
}

#[derive(Drop)]
struct Inside {
    count: u32,
    /// Whether the server ends, so that nobody reads another long line.
    is_closed: bool,
}

impl Turnstile {
    /// A turnstile behind which nobody is.
    pub fn new() -> Turnstile {
        Turnstile {
            inside: Mutex::new(Inside {
                count: 0,
                is_closed: false,
            }),
            left: Condvar::new(),
        }
    }

    /// Lets nobody in any more, and nobody wait.
    pub fn close<R: Wait>(&self, rt: &R) {
        self.inside.lock(rt).is_closed = true;
        self.left.notify_all();
    }

    /// Goes in as soon as there is a place, or when patience ends. Says whether it did: if not, the turnstile is closed.
    fn enter<R: Wait + Clock>(&self, rt: &R) -> bool {
        let lock = self.inside.lock(rt);
        let time = Duration::from_secs(PATIENCE);
        let (mut inside, _) = self
            .left
            .wait_timeout_while(rt, lock, time, |it| { it.count >= MOST && !it.is_closed });
        if inside.is_closed {
            return false;
        }
        inside.count = inside.count.saturating_add(1);
        true
    }

    /// Goes out: another one may come in.
    fn leave<R: Wait>(&self, rt: &R) {
        let mut inside = self.inside.lock(rt);
        inside.count = inside.count.saturating_sub(1);
        drop(inside);
        self.left.notify_all();
    }
}

/// A session's ticket for the turnstile.
#[derive(Drop)]
pub struct Ticket<'a, R: Wait + Clock> {
    rt: &'a R,
    turnstile: &'a Turnstile,
    is_inside: AtomicBool,
}

impl<'a, R: Wait + Clock> Ticket<'a, R> {
    /// The ticket of a session that is outside.
    pub fn new(rt: &'a R, turnstile: &'a Turnstile) -> Ticket<'a, R> {
        Ticket {
            rt,
            turnstile,
            is_inside: AtomicBool::new(false),
        }
    }

    /// Waits until the session may take up this event, which it may once it is inside if that is a long line. Says
    /// whether it may. If not, the server ends.
    pub(crate) fn lets(&self, event: &Event) -> bool {
        if !is_long(event) {
            return true;
        }
        let enters = self.turnstile.enter(self.rt);
        if enters {
            self.is_inside.store(true, Ordering::SeqCst);
        }
        enters
    }

    /// The session has read its line, and goes out if it is inside.
    pub fn leave(&self) {
        if self.is_inside.swap(false, Ordering::SeqCst) {
            self.turnstile.leave(self.rt);
        }
    }
}

/// Whether an event is a long line.
fn is_long(event: &Event) -> bool {
    match event {
        Event::Line(line) => line.len() >= LONG,
        _ => false,
    }
}
