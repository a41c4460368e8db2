//! Sessions over memory, one after the other at one desk: their lines, and their replies.
ghost use Rattle.std.specs.Prelude.{◌≡◌};

use crate::served::{Still, Turning, new_desk, shared_shelf};
use std::alloc::Global;
use std::collections::VecDeque;
use std::marker::Brand;
use std::sync::Wait;
use std::test::Fail;
use std::thread::Threads;
use wq_base::Stays;
use wq_clock::Run;
use wq_crawl::{Crawler, FoundRoot, Roots, SeatViews};
use wq_live::{Blank, Named, Seat};
use wq_session::{Desk, LockDesk, serve};
use wq_stream::{MemoryInbox, Splitter};

/// The lines of one client, and the lines that are written to it.
type Talk = (&'static [u8], &'static [u8]);

/// The ends of a session: its seat, and its roots.
#[derive(Drop)]
struct Ends<N: Named, R: Wait + Drop> {
    seat: Seat<N>,
    roots: Crawler<N, R, Turning, Still>,
}

/// The ends of a session over a tree of two files.
fn make_ends<N: Named, R: Wait + Drop>(rt: R, alloc: Global, blank: Blank) -> Option<Ends<N, R>>
    requires { blank.book ≡ N.book }
{
    let tree = Turning {
        alloc,
        names: &[b"b.txt", b"src/a.c"],
        others: &[b"b.txt", b"src/a.c"],
    };
    let mut roots = Crawler::new(blank.open::<N, R>(rt), tree, Still(100));
    let seat = roots.seat().ok()?;
    Some(Ends { seat, roots })
}

/// Serves a client at a desk, and says whether it got the right lines.
fn talk_at<N: Named, R: Threads + Wait + Drop + Sync, D: Desk>(
    rt: &R,
    alloc: Global,
    ends: Ends<N, R>,
    desk: &mut D,
    talk: &Talk,
) -> Option<(Ends<N, R>, bool)> {
    let Ends { seat, roots } = ends;
    let events = Splitter::new(alloc).feed(talk.0).ok()?;
    let mut inbox = MemoryInbox::new(VecDeque::from(events));
    let mut writer = Vec::new(alloc);
    let run = Run::new(7, 9);
    let views = SeatViews { run, seat, roots };
    let ended = serve(rt, alloc, &Stays {}, &mut inbox, &mut writer, views, desk);
    let is_right = !ended.fault && writer.as_slice() == talk.1;
    let SeatViews { seat, roots, .. } = ended.views;
    Some((Ends { seat, roots }, is_right))
}

/// Serves clients one after the other at the same desk, which nobody else has. Says how many got the right lines.
fn play<N: Named, R: Threads + Wait + Copy + Drop + Sync>(
    rt: R,
    alloc: Global,
    blank: Blank,
    talks: &[Talk],
) -> Option<usize>
    requires { blank.book ≡ N.book }
{
    let mut ends = make_ends::<N, R>(rt, alloc, blank)?;
    let mut desk = new_desk(alloc)?;
    for (place, talk) in talks.iter().enumerate() {
        let (after, is_right) = talk_at(&rt, alloc, ends, &mut desk, talk)?;
        ends = after;
        if !is_right {
            return Some(place);
        }
    }
    Some(talks.len())
}

/// Serves clients one after the other, each at a desk of its own over the same lock. Says how many got the right lines.
fn play_at_lock<N: Named, R: Threads + Wait + Copy + Drop + Sync>(
    rt: R,
    alloc: Global,
    blank: Blank,
    talks: &[Talk],
) -> Option<usize>
    requires { blank.book ≡ N.book }
{
    let mut ends = make_ends::<N, R>(rt, alloc, blank)?;
    let shelf = shared_shelf(alloc)?;
    for (place, talk) in talks.iter().enumerate() {
        let mut desk = LockDesk::new(shelf.clone().ok()?, rt);
        let (after, is_right) = talk_at(&rt, alloc, ends, &mut desk, talk)?;
        ends = after;
        if !is_right {
            return Some(place);
        }
    }
    Some(talks.len())
}

/// Whether a crawl of a root gives a list, unless it is refused.
fn is_crawled<N: Named, R: Roots<N>>(roots: &mut R, root: &str) -> Option<bool> {
    let asked = roots.ask();
    Some(roots.crawl(asked, root).ok()?.told().is_some())
}

/// Whether roots give the right answers if only `/r` is shown, which a look found.
fn is_answered<N: Named, R: Roots<N>>(roots: &mut R, found: FoundRoot) -> bool {
    is_crawled(roots, "/r") == Some(true)
        && is_crawled(roots, "/q") == Some(false)
        && roots.retire(found).is_ok()
        && is_crawled(roots, "/r") == Some(false)
        && roots.open("/r").is_ok()
        && is_crawled(roots, "/r") == Some(true)
}

/// Whether the roots of a session still answer after it has ended and no seat is left.
fn outlive<N: Named, R: Threads + Wait + Copy + Drop + Sync>(
    rt: R,
    alloc: Global,
    blank: Blank,
) -> Option<bool>
    requires { blank.book ≡ N.book }
{
    let ends = make_ends::<N, R>(rt, alloc, blank)?;
    let mut desk = new_desk(alloc)?;
    let (ends, is_right) = talk_at(&rt, alloc, ends, &mut desk, &WATCH)?;
    let Ends { seat, mut roots } = ends;
    let look = seat.look().ok()?;
    let found = FoundRoot::seen(Run::new(7, 9), "/r", &look);
    drop(look.leave());
    Some(is_right && is_answered(&mut roots, found?))
}

/// Clients who use a program that the first of them added.
const SHARERS: [Talk; 3] = [
    (
        br#"["watch","/r"]
["program-add","yes","V1FQRgEAAAAAAAAAAAACAQEAACMAAAA="]
"#,
        br#"{"version":"wq-1","watch":"/r","watcher":"poll"}
{"instructions":2,"program-add":"yes","replaced":false,"version":"wq-1"}
"#,
    ),
    (
        br#"["query","/r",{"program":"yes","fields":["name"]}]
["program-del","yes"]
"#,
        br#"{"clock":"c:7:9:1:1","files":["b.txt","src/a.c"],"is_fresh_instance":true,"version":"wq-1"}
{"deleted":true,"program-del":"yes","version":"wq-1"}
"#,
    ),
    (
        br#"["query","/r",{"program":"yes","fields":["name"]}]
"#,
        br#"{"error":"E34: no such program","version":"wq-1"}
"#,
    ),
];

/// A client who watches a root.
const WATCH: Talk = (
    b"[\"watch\",\"/r\"]\n",
    b"{\"version\":\"wq-1\",\"watch\":\"/r\",\"watcher\":\"poll\"}\n",
);

#[test]
fn sessions_at_one_desk_share_programs(rt: HostRuntime) -> Result<(), Fail> {
    let blank = Blank::new(&rt, rt.alloc(), 1)?;
    let well = play::<Brand, HostRuntime>(rt, rt.alloc(), blank, &SHARERS);
    assert_eq!(rt; well, Some(3));
    Ok(())
}

#[test]
fn desks_over_one_lock_share_programs(rt: HostRuntime) -> Result<(), Fail> {
    let blank = Blank::new(&rt, rt.alloc(), 1)?;
    let well = play_at_lock::<Brand, HostRuntime>(rt, rt.alloc(), blank, &SHARERS);
    assert_eq!(rt; well, Some(3));
    Ok(())
}

#[test]
fn roots_answer_when_nobody_is_there(rt: HostRuntime) -> Result<(), Fail> {
    let blank = Blank::new(&rt, rt.alloc(), 1)?;
    assert_eq!(rt;
        outlive::<Brand, HostRuntime>(rt, rt.alloc(), blank),
        Some(true)
    );
    Ok(())
}
