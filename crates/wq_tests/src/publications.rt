//! A session whose roots, desk and writer publish while it calls them. A publish waits for the looks at the value
//! before the last one. So the second of two publishes would wait for ever for a look that the session has open.
ghost use Rattle.std.specs.Prelude.{◌≡◌};

use crate::served::{Still, Turning, shared_shelf};
use std::alloc::Global;
use std::collections::VecDeque;
use std::io;
use std::io::Write;
use std::marker::Brand;
use std::sync::atomic::AtomicU64;
use std::sync::{Arc, Wait};
use std::thread::Threads;
use std::time::Clock;
use wq_base::{Stays, Workers};
use wq_clock::Run;
use wq_crawl::{
    Asked, Crawl, CrawlFault, FoundRoot, LaneParts, LockRoots, Roots, SeatViews, SharedCrawler,
};
use wq_live::{Blank, Named, Told};
use wq_registry::{CacheKey, Compiled, Forgotten};
use wq_session::{Cursor, Desk, LockDesk, Prepared, Unset, Work, serve};
use wq_stream::{MemoryInbox, Splitter};
use wq_verify::StoredProgram;

/// Roots that publish twice whenever they are called.
#[derive(Drop)]
struct Publishing<'a, N: Named, R: Wait + Clock + Drop> {
    roots: LockRoots<'a, N, R, Turning, Still, Stays>,
}

/// Publishes a pass.
fn publish<N: Named, R: Roots<N>>(roots: &mut R) {
    let asked = roots.ask();
    let _ = roots.crawl(asked, "/r");
}

/// Publishes two passes.
fn publish_twice<N: Named, R: Roots<N>>(roots: &mut R) {
    publish(roots);
    publish(roots);
}

impl<N: Named, R: Wait + Clock + Drop> Roots<N> for Publishing<'_, N, R> {
    ghost use Rattle.std.specs.Prelude.{None};

    ghost crawler = { λ _. None };

    fn open(&mut self, root: &str) -> Result<Told<N>, CrawlFault> {
        let told = self.roots.open(root);
        publish_twice(&mut self.roots);
        told
    }

    fn ask(&self) -> Asked {
        self.roots.ask()
    }

    fn crawl(&mut self, asked: Asked, root: &str) -> Result<Crawl<N>, CrawlFault> {
        // A crawl before it would serve this one too.
        let crawl = self.roots.crawl(asked, root);
        publish(&mut self.roots);
        crawl
    }

    fn retire(&mut self, root: FoundRoot) -> Result<Told<N>, CrawlFault> {
        publish_twice(&mut self.roots);
        self.roots.retire(root)
    }

    fn workers(&self) -> u32 {
        self.roots.workers()
    }
}

/// A desk that publishes twice before it holds the shelf, also if it is to find a program or to keep one.
#[derive(Drop)]
struct PublishingDesk<'a, N: Named, R: Wait + Clock + Drop> {
    desk: LockDesk<R>,
    roots: LockRoots<'a, N, R, Turning, Still, Stays>,
}

impl<N: Named, R: Wait + Clock + Drop> Desk for PublishingDesk<'_, N, R> {
    ghost use Rattle.std.specs.Prelude.{None};

    ghost shelf = { λ _. None };

    fn find(&mut self, key: &CacheKey) -> Option<Arc<StoredProgram>> {
        publish_twice(&mut self.roots);
        self.desk.find(key)
    }

    fn keep(&mut self, compiled: Compiled) -> Option<Forgotten> {
        publish_twice(&mut self.roots);
        self.desk.keep(compiled)
    }

    fn hold(&mut self, prepared: Prepared<'_>) -> Work {
        publish_twice(&mut self.roots);
        self.desk.hold(prepared)
    }

    fn unset(&mut self, cursor: Cursor) -> Unset {
        publish_twice(&mut self.roots);
        self.desk.unset(cursor)
    }
}

/// A writer that publishes twice before each write.
#[derive(Drop)]
struct PublishingWriter<'a, N: Named, R: Wait + Clock + Drop> {
    bytes: Vec<u8>,
    roots: LockRoots<'a, N, R, Turning, Still, Stays>,
}

impl<N: Named, R: Wait + Clock + Drop> Write for PublishingWriter<'_, N, R> {
    fn write(&mut self, bytes: &[u8]) -> io::Result<usize> {
        publish_twice(&mut self.roots);
        self.bytes.write(bytes)
    }

    fn flush(&mut self) -> io::Result<()> {
        Ok(())
    }
}

/// The bytes that a session writes for a client that sends these lines; none if it failed.
fn talk<N: Named, R: Threads + Wait + Clock + Copy + Drop + Sync>(
    rt: R,
    alloc: Global,
    blank: Blank,
    lines: &[u8],
) -> Option<Vec<u8>>
    requires { blank.book ≡ N.book }
{
    let tree = Turning {
        alloc,
        names: &[b"a", b"b"],
        others: &[b"a"],
    };
    let mut publisher = blank.open::<N, R>(rt);
    let seat = publisher.seat().ok()?;
    let lane = LaneParts {
        tree,
        seconds: Still(100),
        waiting: Arc::new(alloc, AtomicU64::new(0)).ok()?,
        helped: Arc::new(alloc, AtomicU64::new(0)).ok()?,
    };
    let crawler = SharedCrawler::new(alloc, publisher, lane, Vec::new(alloc)).ok()?;
    let crawler = Arc::new(alloc, crawler).ok()?;
    let caller = Stays {};
    let workers = Workers { count: 1 };
    let mut inbox = MemoryInbox::new(VecDeque::from(Splitter::new(alloc).feed(lines).ok()?));
    let mut writer = PublishingWriter {
        bytes: Vec::new(alloc),
        roots: LockRoots::new(&caller, Arc::try_clone(&crawler).ok()?, rt, workers),
    };
    let mut desk = PublishingDesk {
        desk: LockDesk::new(shared_shelf(alloc)?, rt),
        roots: LockRoots::new(&caller, Arc::try_clone(&crawler).ok()?, rt, workers),
    };
    let roots = Publishing {
        roots: LockRoots::new(&caller, crawler, rt, workers),
    };
    let run = Run::new(7, 9);
    let views = SeatViews { run, seat, roots };
    let ended = serve(
        &rt,
        alloc,
        &Stays {},
        &mut inbox,
        &mut writer,
        views,
        &mut desk,
    );
    if ended.fault {
        return None;
    }
    Some(writer.bytes)
}

/// The lines of a client.
const LINES: &[u8] = br#"["watch","/r"]
["query","/r",{"expression":["type","f"],"fields":["name"]}]
["watch-del","/r"]
"#;

/// The lines that are written to it.
const WRITTEN: &[u8] = br#"{"version":"wq-1","watch":"/r","watcher":"poll"}
{"clock":"c:7:9:1:9","files":["a","b"],"is_fresh_instance":true,"version":"wq-1"}
{"root":"/r","version":"wq-1","watch-del":true}
"#;

/// Whether a client gets the right lines while roots, desk and writer publish.
fn is_well<R: Threads + Wait + Clock + Copy + Drop + Sync>(rt: R, alloc: Global) -> bool {
    let Ok(blank) = Blank::new(&rt, alloc, 1) else {
        return false;
    };
    match talk::<Brand, R>(rt, alloc, blank, LINES) {
        Some(written) => written.as_slice() == WRITTEN,
        None => false,
    }
}

#[test]
fn no_look_is_open_while_an_end_is_called(rt: HostRuntime) {
    assert!(rt; is_well(rt, rt.alloc()));
}
