//! The links to all clients, for the threads that wait for one, and for the thread that brings their idle moments.

use crate::clients::MAX_SESSIONS;
use crate::stop::Stop;
use std::alloc::{AllocError, Global};
use std::sync::{Arc, Condvar, Mutex, Wait};
use wq_inbox::Link;

/// The links, and how many there ever were.
#[derive(Drop)]
struct Held {
    links: Vec<Arc<Link>>,
    came: u64,
}

impl Held {
    /// Whether a client is connected.
    fn is_any(&self) -> bool {
        self.links.iter().any(|it| !it.is_over())
    }
}

/// The links to the clients that are connected. Threads share them.
#[derive(Drop)]
pub(crate) struct Links {
    held: Mutex<Held>,
    another: Condvar,
}

impl Links {
    /// No link yet.
    pub(crate) fn new(alloc: Global) -> Result<Links, AllocError> {
        Ok(Links {
            held: Mutex::new(Held {
                links: Vec::with_capacity(alloc, MAX_SESSIONS)?,
                came: 0,
            }),
            another: Condvar::new(),
        })
    }

    /// Adds the link to a client, and wakes the threads that wait for one.
    pub(crate) fn add<R: Wait>(&self, rt: &R, link: Arc<Link>) -> Result<(), AllocError> {
        let mut held = self.held.lock(rt);
        held.links.push(link)?;
        held.came = held.came.wrapping_add(1);
        drop(held);
        self.another.notify_all();
        Ok(())
    }

    /// Lets go of the links to clients whose sessions are over.
    pub(crate) fn forget_over<R: Wait>(&self, rt: &R) {
        self.held.lock(rt).links.retain(|it| !it.is_over());
    }

    /// How many clients came so far.
    pub(crate) fn count<R: Wait>(&self, rt: &R) -> u64 {
        self.held.lock(rt).came
    }

    /// Whether a client is connected.
    pub(crate) fn is_any<R: Wait>(&self, rt: &R) -> bool {
        self.held.lock(rt).is_any()
    }

    /// Waits for a client after so many, but no longer than the server goes on.
    pub(crate) fn wait_for_another<R: Wait>(&self, rt: &R, stop: &Stop, count: u64) {
        let lock = self.held.lock(rt);
        drop(
            self.another
                .wait_while(rt, lock, |held| held.came == count && !stop.is_asked(rt)),
        );
    }

    /// Waits until a client is connected, but no longer than the server goes on.
    pub(crate) fn wait_for_any<R: Wait>(&self, rt: &R, stop: &Stop) {
        let lock = self.held.lock(rt);
        drop(
            self.another
                .wait_while(rt, lock, |held| !held.is_any() && !stop.is_asked(rt)),
        );
    }

    /// Lets the waiting threads see that the server ends.
    pub(crate) fn wake<R: Wait>(&self, rt: &R) {
        // A thread that waits either looks after this, or is waiting by now.
        drop(self.held.lock(rt));
        self.another.notify_all();
    }

    /// Makes an idle moment of each of these roots due in all sessions, and says whether memory
    /// sufficed.
    pub(crate) fn put_moments<R: Wait>(&self, rt: &R, numbers: &[u64]) -> bool {
        let mut is_all = true;
        for link in &self.held.lock(rt).links {
            is_all &= link.put_moments(rt, numbers);
        }
        is_all
    }
}
