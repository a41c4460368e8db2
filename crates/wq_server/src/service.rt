//! The running server: it accepts clients, and crawls and starts commands at the same time, until a client asks it to
//! end.

use crate::clients::Clients;
use crate::crawls::crawl_always;
use crate::host::Host;
use crate::latch::Latch;
use crate::links::Links;
use crate::moments::bring_moments;
use crate::pace::Pace;
use crate::patience::Patience;
use crate::pulse::Pulse;
use crate::runtime::Runtime;
use crate::server::Server;
use crate::socket::Listening;
use crate::stop::Stop;
use std::alloc::Global;
use std::io;
use std::sync::Arc;
use std::thread::{self, JoinHandle};
use std::time::Duration;
use wq_inbox::Turnstile;
use wq_launch::Notices;

/// How many milliseconds the server waits after a connection that it could not accept.
const PAUSE: u64 = 100;

/// How many milliseconds the end of the server waits for threads that are at work.
const PATIENCE: u64 = 500;

/// Serves clients, and crawls the watched roots at this pace. After the crawl of a
/// root it starts the commands of its triggers, and a session gets idle moments after each round. It returns when a
/// client has asked that the server ends.
///
/// No client is sent anything then. All threads have ended but those that attend commands, and those that were at work
/// for longer than half a second after the end began: sessions that answer a line, and a crawl or a round of triggers.
/// Those go on until the process ends.
///
/// # Errors
/// The server could not make a part that it needs, and served nobody.
pub fn run<R, H, O>(
    rt: R,
    alloc: Global,
    listening: &Listening,
    host: H,
    notices: &Arc<O>,
    pace: Pace,
) -> io::Result<()>
where
    R: Runtime,
    H: Host + Drop + Send + Sync + 'static,
    O: Notices + Drop + Send + Sync + 'static,
{
    let stop = Stop::new(&listening.listener)?;
    let server = Arc::new(
        alloc,
        Server {
            host,
            stop,
            pace,
            pulse: Pulse::new(),
            links: Links::new(alloc)?,
            turnstile: Turnstile::new(),
            crawled: Latch::new(),
        },
    )?;
    let mut clients = Clients::new(alloc)?;
    let crawling = begin_crawling(rt, alloc, &server, notices)?;
    let Ok(idling) = begin_idling(rt, alloc, &server) else {
        server.end(&rt);
        crawling.join(&rt);
        return Err(io::Error::from(io::ErrorKind::OutOfMemory));
    };
    server.host.greet();
    for stream in &listening.listener {
        if server.stop.is_asked(&rt) {
            break;
        }
        match stream {
            Ok(stream) => clients.admit(rt, alloc, stream, &server),
            Err(_) => {
                server.stop.wait(&rt, Duration::from_millis(PAUSE));
            }
        }
    }
    notices.tell("a client ended the server by shutdown-server");
    server.end(&rt);
    server.host.end_walk();
    let patience = Patience::new(&rt, Duration::from_millis(PATIENCE));
    server.turnstile.close(&rt);
    clients.end_all(&rt, &patience);
    if server.crawled.wait(&rt, patience.left(&rt)) {
        crawling.join(&rt);
    }
    idling.join(&rt);
    Ok(())
}

/// Starts the thread that crawls.
fn begin_crawling<R, H, O>(
    rt: R,
    alloc: Global,
    server: &Arc<Server<H>>,
    notices: &Arc<O>,
) -> io::Result<JoinHandle<()>>
where
    R: Runtime,
    H: Host + Drop + Send + Sync + 'static,
    O: Notices + Drop + Send + Sync + 'static,
{
    let (server, notices) = (server.clone()?, notices.clone()?);
    Ok(thread::spawn(&rt, move || {
        crawl_always(rt, alloc, &server, &notices);
        server.crawled.open(&rt);
    })?)
}

/// Starts the thread that brings idle moments.
fn begin_idling<R, H>(rt: R, alloc: Global, server: &Arc<Server<H>>) -> io::Result<JoinHandle<()>>
where
    R: Runtime,
    H: Host + Drop + Send + Sync + 'static,
{
    let server = server.clone()?;
    Ok(thread::spawn(&rt, move || { bring_moments(&rt, alloc, &*server) })?)
}
