//! The end of the server: the request for it, and the threads that hear of it.

use crate::latch::Latch;
use std::io;
use std::net::Shutdown;
use std::os::fd::OwnedFd;
use std::os::unix::net::{UnixListener, UnixStream};
use std::sync::Wait;
use std::time::{Clock, Duration};

/// Whether the server ends. Threads share it.
#[derive(Drop)]
pub struct Stop {
    asked: Latch,
    /// The listener's socket, which can be shut down.
    door: UnixStream,
}

impl Stop {
    /// The state of a server that goes on, with this listener.
    pub(crate) fn new(listener: &UnixListener) -> io::Result<Stop> {
        let door = UnixStream::from(OwnedFd::from(listener.try_clone()?));
        Ok(Stop {
            asked: Latch::new(),
            door,
        })
    }

    /// Ends the server: it accepts no more connections, and the threads that wait for this wake up.
    pub(crate) fn ask<R: Wait>(&self, rt: &R) {
        self.asked.open(rt);
        // If the socket is shut down already, this wakes nobody, and nobody has to be woken.
        let _ = self.door.shutdown(Shutdown::Both);
    }

    /// Whether the server ends.
    pub fn is_asked<R: Wait>(&self, rt: &R) -> bool {
        self.asked.is_open(rt)
    }

    /// Waits so long, but no longer than the server goes on. Says whether it ends.
    pub(crate) fn wait<R: Wait + Clock>(&self, rt: &R, time: Duration) -> bool {
        self.asked.wait(rt, time)
    }
}
