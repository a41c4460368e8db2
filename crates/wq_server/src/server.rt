//! The state that the threads of a server share.

use crate::host::Host;
use crate::latch::Latch;
use crate::links::Links;
use crate::pace::Pace;
use crate::pulse::Pulse;
use crate::stop::Stop;
use std::sync::Wait;
use wq_inbox::Turnstile;

/// A running server.
#[derive(Drop)]
pub(crate) struct Server<H: Host + Drop> {
    pub(crate) host: H,
    pub(crate) stop: Stop,
    /// How long the server waits until it crawls a root again.
    pub(crate) pace: Pace,
    /// The pulse, which beats after each round, and before a long walk. Sessions get their idle moments then.
    pub(crate) pulse: Pulse,
    /// The links to the clients.
    pub(crate) links: Links,
    /// Lets few sessions read a long line at once.
    pub(crate) turnstile: Turnstile,
    /// Opens when the thread that crawls does nothing more.
    pub(crate) crawled: Latch,
}

impl<H: Host + Drop> Server<H> {
    /// Ends the server: it crawls no more roots and accepts no more connections.
    pub(crate) fn end<R: Wait>(&self, rt: &R) {
        self.stop.ask(rt);
        self.pulse.wake(rt);
        self.links.wake(rt);
    }
}
