//! Events of a client, which wait elsewhere, and idle moments come to its session in turn.
ghost use Rattle.std.specs.Prelude.{◌≡◌, ◌++◌, All, List, OnOk, false, ℕ};
ghost use Rattle.std.specs.List.{Contains};
ghost use Rattle.wq_inbox.specs.Queue.{TakesNext};

use std::alloc::{AllocError, Global};
use std::collections::VecDeque;
use wq_stream::MAX_WAITING;

/// The events and the moments that a session has to take. They come in turn, as long as there are both. So neither
/// holds up the other.
#[derive(Drop)]
pub(crate) struct Coming {
    /// How many events of the client wait.
    waiting: usize,
    /// The numbers of the roots of which an idle moment is due, each once.
    due: VecDeque<u64>,
    /// Whether an idle moment came last.
    was_moment: bool,
    /// Whether nothing comes any more but the end.
    is_closed: bool,
}

/// The turn that comes next.
#[derive(Drop)]
pub(crate) enum Turn {
    /// An idle moment of the root of this number.
    Moment(u64),
    /// The client's next event.
    Client,
    /// The end.
    Closed,
}

impl Coming {
    /// Nothing comes yet.
    pub(crate) fn new(alloc: Global) -> Coming {
        Coming {
            waiting: 0,
            due: VecDeque::new(alloc),
            was_moment: false,
            is_closed: false,
        }
    }

    /// Whether a thread that puts an event has to wait.
    pub(crate) fn is_full(&self) -> bool {
        !self.is_closed && self.waiting >= MAX_WAITING
    }

    /// Whether a thread that takes an event has to wait.
    pub(crate) fn is_idle(&self) -> bool {
        !self.is_closed && self.waiting == 0 && self.due.is_empty()
    }

    /// Whether nothing comes any more but the end.
    pub(crate) fn is_closed(&self) -> bool {
        self.is_closed
    }

    /// Nothing comes any more but the end.
    pub(crate) fn close(&mut self) {
        self.is_closed = true;
    }

    /// Another event of the client waits.
    pub(crate) fn add(&mut self) {
        self.waiting = self.waiting.saturating_add(1);
    }

    /// Takes the next turn. There is none only if nothing comes.
    pub(crate) fn next(&mut self) -> Option<Turn>
        ensures { TakesNext self.old result self.new }
    {
        if self.is_closed {
            return Some(Turn::Closed);
        }
        // A moment comes next, if one is due, unless one came last and the client's event waits.
        if (!self.was_moment || self.waiting == 0)
            && let Some(number) = self.due.pop_front()
        {
            self.was_moment = true;
            return Some(Turn::Moment(number));
        }
        self.was_moment = false;
        if self.waiting == 0 {
            return None;
        }
        self.waiting -= 1;
        Some(Turn::Client)
    }

    /// Makes an idle moment of each of these roots due, unless only the end comes.
    pub(crate) fn put_moments(&mut self, numbers: &[u64]) -> Result<(), AllocError>
        ensures due { OnOk result (self.old.is_closed ≡ false
            → All (Contains self.new.due.items) numbers.now) }
        ensures kept { (more : List ℕ) × (self.new.due.items ≡ self.old.due.items ++ more) }
        ensures events { self.new.waiting ≡ self.old.waiting }
    {
        if self.is_closed {
            return Ok(());
        }
        for number in numbers {
            if !self.due.contains(number) {
                self.due.push_back(*number)?;
            }
        }
        Ok(())
    }
}
