//! The link to a client, which its threads share.

use crate::coming::Coming;
use std::alloc::Global;
use std::io::{ErrorKind, Write};
use std::net::Shutdown;
use std::os::unix::net::UnixStream;
use std::sync::atomic::{AtomicBool, Ordering};
use std::sync::{Arc, Condvar, Mutex, Wait};
use std::time::{Clock, Duration};

/// A client's stream, how much comes to its session, and whether that is over.
#[derive(Drop)]
pub struct Link {
    pub(crate) coming: Mutex<Coming>,
    /// Wakes the threads that wait for what comes, or for room.
    pub(crate) changed: Condvar,
    /// Wakes the threads that wait for the end alone. No event is to wake these.
    closed: Condvar,
    /// The stream, until the session is over. The last share of it gives its handle back.
    stream: Mutex<Option<Arc<UnixStream>>>,
    /// Wakes the thread that waits until the session is over.
    over: Condvar,
    is_over: AtomicBool,
}

impl Link {
    /// The link to a client from which nothing has come.
    pub fn new(alloc: Global, stream: Arc<UnixStream>) -> Link {
        Link {
            coming: Mutex::new(Coming::new(alloc)),
            changed: Condvar::new(),
            closed: Condvar::new(),
            stream: Mutex::new(Some(stream)),
            over: Condvar::new(),
            is_over: AtomicBool::new(false),
        }
    }

    /// Ends the session, and the reads and writes for it. Bytes that were written before still
    /// reach the client.
    pub fn end<R: Wait>(&self, rt: &R) {
        self.coming.lock(rt).close();
        self.changed.notify_all();
        self.closed.notify_all();
        if let Some(stream) = &*self.stream.lock(rt) {
            // A client that has gone already leaves a stream that cannot be shut down.
            let _ = stream.shutdown(Shutdown::Both);
        }
    }

    /// Makes an idle moment of each of these roots due, and says whether memory sufficed. It waits
    /// for no session. A root of which one is due already has no second one.
    pub fn put_moments<R: Wait>(&self, rt: &R, numbers: &[u64]) -> bool {
        let put = self.coming.lock(rt).put_moments(numbers);
        self.changed.notify_all();
        put.is_ok()
    }

    /// Waits so long, but no longer than the session goes on. Says whether it ends.
    pub(crate) fn pause<R: Wait + Clock>(&self, rt: &R, time: Duration) -> bool {
        let lock = self.coming.lock(rt);
        let (coming, _) = self
            .closed
            .wait_timeout_while(rt, lock, time, |it| !it.is_closed());
        coming.is_closed()
    }

    /// Lets go of the stream, and says that the session's thread does nothing more.
    pub fn set_over<R: Wait>(&self, rt: &R) {
        *self.stream.lock(rt) = None;
        self.is_over.store(true, Ordering::SeqCst);
        self.over.notify_all();
    }

    /// Waits so long, but no longer than until the session is over. Says whether it is.
    pub fn wait_over<R: Wait + Clock>(&self, rt: &R, time: Duration) -> bool {
        let lock = self.stream.lock(rt);
        let (stream, _) = self
            .over
            .wait_timeout_while(rt, lock, time, |stream| stream.is_some());
        stream.is_none()
    }

    /// Whether the client has gone: nothing can be written to it any more.
    pub fn has_gone<R: Wait>(&self, rt: &R) -> bool {
        match &*self.stream.lock(rt) {
            Some(stream) => is_closed(stream),
            None => true,
        }
    }

    /// Whether the session's thread does nothing more.
    pub fn is_over(&self) -> bool {
        self.is_over.load(Ordering::SeqCst)
    }
}

/// Whether nothing can be written to a stream any more: its client has closed it, or it was shut down.
pub fn is_closed(mut stream: &UnixStream) -> bool {
    // Nothing is written by that, and it waits for nobody: the system says only whether it would refuse a write.
    match stream.write(&[]) {
        Ok(_) => false,
        Err(error) => error.kind() == ErrorKind::BrokenPipe,
    }
}
