//! Two sessions at the same time, on two threads, at desks over one lock. Each waits for the other between its lines. So
//! a desk that keeps the lock, or has a shelf of its own, fails here.
ghost use Rattle.std.specs.Prelude.{◌≡◌};

use crate::served::{Still, Turning, shared_shelf};
use std::alloc::Global;
use std::collections::VecDeque;
use std::io;
use std::io::Write;
use std::marker::Brand;
use std::sync::atomic::{AtomicU64, Ordering};
use std::sync::{Arc, Mutex, Wait};
use std::thread::{Threads, join};
use wq_base::Stays;
use wq_clock::Run;
use wq_crawl::{Crawler, SeatViews};
use wq_live::{Blank, Named};
use wq_session::{LockDesk, SharedShelf, serve};
use wq_stream::{Event, Inbox, MemoryInbox, Splitter};

/// How often a client looks whether the other one got a reply.
const TURNS: u64 = 1_000_000_000;

/// A client that waits with its second line until another client got its first reply.
#[derive(Drop)]
struct WaitingClient<'a> {
    lines: &'static [u8],
    /// More than 0 from the first reply of this client on.
    told: &'a AtomicU64,
    /// More than 0 from the first reply of the other client on.
    other: &'a AtomicU64,
    /// More than 0 if a client made all turns and the other one had no reply.
    late: &'a AtomicU64,
}

/// The lines of a client. The second one comes when the other client got its first reply.
#[derive(Drop)]
struct HeldLines<'a> {
    events: MemoryInbox,
    taken: u64,
    other: &'a AtomicU64,
    late: &'a AtomicU64,
}

impl Inbox for HeldLines<'_> {
    ghost use Rattle.wq_stream.specs.Inbox.{hidden};

    ghost shown = { λ _. hidden };

    fn next(&mut self) -> Event {
        if self.taken == 1 && !comes(self.other) {
            self.late.store(1, Ordering::SeqCst);
        }
        self.taken = self.taken.saturating_add(1);
        self.events.next()
    }
}

/// Whether a count is more than 0 before all turns were made.
fn comes(count: &AtomicU64) -> bool {
    for _ in 0..TURNS {
        if count.load(Ordering::SeqCst) > 0 {
            return true;
        }
    }
    false
}

/// A writer that tells of the first reply.
#[derive(Drop)]
struct FirstReplyWriter<'a> {
    bytes: Vec<u8>,
    told: &'a AtomicU64,
}

impl Write for FirstReplyWriter<'_> {
    fn write(&mut self, bytes: &[u8]) -> io::Result<usize> {
        let count = self.bytes.write(bytes)?;
        if self.bytes.contains(&b'\n') {
            self.told.store(1, Ordering::SeqCst);
        }
        Ok(count)
    }

    fn flush(&mut self) -> io::Result<()> {
        Ok(())
    }
}

/// Serves a client at a desk over this shelf, with roots of its own. Returns what is written to the client; none if the
/// session failed.
fn talk<N: Named, R: Threads + Wait + Copy + Drop + Sync, I: Inbox, W: Write>(
    rt: R,
    alloc: Global,
    blank: Blank,
    shelf: Arc<Mutex<SharedShelf>>,
    inbox: &mut I,
    writer: &mut W,
) -> Option<()>
    requires { blank.book ≡ N.book }
{
    let tree = Turning {
        alloc,
        names: &[b"a", b"a/b"],
        others: &[b"a", b"a/b"],
    };
    let mut crawler = Crawler::new(blank.open::<N, R>(rt), tree, Still(100));
    let seat = crawler.seat().ok()?;
    let views = SeatViews {
        run: Run::new(7, 9),
        seat,
        roots: crawler,
    };
    let mut desk = LockDesk::new(shelf, rt);
    let ended = serve(&rt, alloc, &Stays {}, inbox, writer, views, &mut desk);
    (!ended.fault).then_some(())
}

/// Serves a client that meets another one.
fn talk_meeting<R: Threads + Wait + Copy + Drop + Sync>(
    rt: R,
    alloc: Global,
    shelf: Arc<Mutex<SharedShelf>>,
    client: &WaitingClient<'_>,
) -> Option<Vec<u8>> {
    let events = VecDeque::from(Splitter::new(alloc).feed(client.lines).ok()?);
    let mut inbox = HeldLines {
        events: MemoryInbox::new(events),
        taken: 0,
        other: client.other,
        late: client.late,
    };
    let mut writer = FirstReplyWriter {
        bytes: Vec::new(alloc),
        told: client.told,
    };
    let blank = Blank::new(&rt, alloc, 1).ok()?;
    talk::<Brand, R, HeldLines<'_>, FirstReplyWriter<'_>>(
        rt,
        alloc,
        blank,
        shelf,
        &mut inbox,
        &mut writer,
    )?;
    Some(writer.bytes)
}

/// Serves two clients at once on two threads. Returns what is written to each, if nobody waited in vain.
fn talk_at_once<R: Threads + Wait + Copy + Drop + Sync>(
    rt: R,
    alloc: Global,
) -> Option<(Vec<u8>, Vec<u8>)> {
    let shelf = shared_shelf(alloc)?;
    let (first, second, late) = (AtomicU64::new(0), AtomicU64::new(0), AtomicU64::new(0));
    let clients = (
        WaitingClient {
            lines: ADDS_YES,
            told: &first,
            other: &second,
            late: &late,
        },
        WaitingClient {
            lines: ADDS_NO,
            told: &second,
            other: &first,
            late: &late,
        },
    );
    let (theirs, mine) = (shelf.clone().ok()?, shelf);
    let (yes, no) = join(
        &rt,
        || talk_meeting(rt, alloc, theirs, &clients.0),
        || talk_meeting(rt, alloc, mine, &clients.1),
    );
    if late.load(Ordering::SeqCst) > 0 {
        return None;
    }
    Some((yes?, no?))
}

/// Whether a client was told of its own program, and then of these programs.
fn is_told(written: &[u8], added: &[u8], listed: &[u8]) -> bool {
    written.strip_prefix(added) == Some(listed)
}

/// Whether each client was told of its own program, and then both of both programs in one order.
fn is_well<R: Threads + Wait + Copy + Drop + Sync>(rt: R, alloc: Global) -> bool {
    let Some((yes, no)) = talk_at_once(rt, alloc) else {
        return false;
    };
    [YES_FIRST, NO_FIRST].iter().any(|listed| is_told(&yes, TOLD_YES, listed)
        && is_told(&no, TOLD_NO, listed))
}

/// The lines of the first client, and the reply to the first of them.
const ADDS_YES: &[u8] = br#"["program-add","yes","V1FQRgEAAAAAAAAAAAACAQEAACMAAAA="]
["program-list"]
"#;

const TOLD_YES: &[u8] = br#"{"instructions":2,"program-add":"yes","replaced":false,"version":"wq-1"}
"#;

/// The lines of the second client, and the reply to the first of them.
const ADDS_NO: &[u8] = br#"["program-add","no","V1FQRgEAAAAAAAAAAAACAQEAACMAAAA="]
["program-list"]
"#;

const TOLD_NO: &[u8] = br#"{"instructions":2,"program-add":"no","replaced":false,"version":"wq-1"}
"#;

/// The two lists of both programs.
const YES_FIRST: &[u8] = br#"{"programs":["yes","no"],"version":"wq-1"}
"#;

const NO_FIRST: &[u8] = br#"{"programs":["no","yes"],"version":"wq-1"}
"#;

#[test]
fn sessions_at_once(rt: HostRuntime) {
    assert!(rt; is_well(rt, rt.alloc()));
}
