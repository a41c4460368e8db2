//! The reader that brings the events of a client's stream into its session's queue. It does not
//! look at what they ask.
ghost use Rattle.std.specs.Prelude.{◌≡◌, ℕ, List, IfSome};
ghost use Rattle.wq_inbox.specs.Queue.{PutsPiece, ReadsAll};
ghost use Rattle.wq_stream.specs.Stream.{Adds, kept_of};

use crate::history::History;
use crate::queue::Feed;
use std::alloc::{AllocError, Global};
use std::io::{ErrorKind, Read};
use std::sync::Wait;
use std::time::{Clock, Duration};
use wq_stream::{Event, Splitter};

/// How many bytes of a stream it asks for at once.
const PIECE: usize = 65_536;

/// How many milliseconds it waits after memory ran out, before it tries again.
const PAUSE: u64 = 50;

/// Reads a client's stream to its end, as long as its queue is open. The last event that it puts is the stream's end or
/// its fault.
///
/// If memory runs out, it waits and tries the same bytes again.
pub fn read_all<R: Wait + Clock, S: Read, E: History>(
    rt: &R,
    alloc: Global,
    stream: &mut S,
    feed: &mut Feed<E>,
)
    ensures { ReadsAll feed.old feed.new }
{
    let room: Result<Vec<u8>, AllocError> = vec![in alloc; 0; PIECE];
    let Ok(mut piece) = room else {
        feed.put(rt, Event::Fault);
        return;
    };
    let mut splitter = Splitter::new(alloc);
    for _ in rt.forever() {
        let count = match stream.read(&mut piece) {
            Ok(0) => {
                feed.put(rt, Event::End);
                return;
            }
            Ok(count) => count,
            Err(error) if error.kind() == ErrorKind::Interrupted => continue,
            Err(_) => {
                feed.put(rt, Event::Fault);
                return;
            }
        };
        if !put_events(rt, &mut splitter, &piece[..count], feed) {
            return;
        }
    }
}

/// Puts all events of a piece into the queue, in their order, and says whether the queue is open.
fn put_events<R: Wait + Clock, E: History>(
    rt: &R,
    splitter: &mut Splitter,
    piece: &[u8],
    feed: &mut Feed<E>,
) -> bool
    // For every stream whose rest the splitter keeps:
    ensures { (stream : List ℕ) → splitter.old ≡ kept_of stream
        → PutsPiece stream piece.now result splitter.new feed.old feed.new }
{
    let Some(events) = split(rt, splitter, piece, feed) else {
        return false;
    };
    for event in events {
        if !feed.put(rt, event) {
            return false;
        }
    }
    true
}

/// The events of a piece. If memory runs out, it tries again after a moment. There are none if the
/// queue is closed.
fn split<R: Wait + Clock, E: History>(
    rt: &R,
    splitter: &mut Splitter,
    piece: &[u8],
    feed: &Feed<E>,
) -> Option<Vec<Event>>
    ensures { (stream : List ℕ) → splitter.old ≡ kept_of stream → IfSome result (λ events.
        Adds stream piece.now events.items splitter.new) }
{
    for _ in rt.forever() {
        if let Ok(events) = splitter.feed(piece) {
            return Some(events);
        }
        if feed.pause(rt, Duration::from_millis(PAUSE)) {
            return None;
        }
    }
    unreachable!()
}
