//! The client that gets the replies of a session.

use std::io::{self, Write};
use std::os::unix::net::UnixStream;
use std::sync::Wait;
use std::time::Clock;
use wq_base::Asker;
use wq_crawl::Caller;
use wq_inbox::{Ticket, is_closed};

/// A client as the recipient of replies. It has gone when nothing can be written to it any more: it reads no more, or its
/// session was told to end. A client that only sends no more still reads.
#[derive(Drop)]
pub(crate) struct Recipient<'a, R: Wait + Clock> {
    pub(crate) stream: &'a UnixStream,
    pub(crate) ticket: &'a Ticket<'a, R>,
}

impl<R: Wait + Clock> Caller for Recipient<'_, R> {
    fn has_read(&self) {
        self.ticket.leave();
    }
}

impl<R: Wait + Clock> Asker for Recipient<'_, R> {
    fn is_gone(&self) -> bool {
        self.ticket.leave();
        is_closed(self.stream)
    }
}

/// The writer of a session: a write may wait for the client, so the session has read its line before.
#[derive(Drop)]
pub(crate) struct ReplyWriter<'a, R: Wait + Clock> {
    pub(crate) stream: &'a UnixStream,
    pub(crate) ticket: &'a Ticket<'a, R>,
}

impl<R: Wait + Clock> Write for ReplyWriter<'_, R> {
    fn write(&mut self, bytes: &[u8]) -> io::Result<usize> {
        self.ticket.leave();
        self.stream.write(bytes)
    }

    fn flush(&mut self) -> io::Result<()> {
        self.stream.flush()
    }
}
