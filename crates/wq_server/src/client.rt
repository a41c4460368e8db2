//! The two threads of one client: one reads its stream, and one runs its session.
ghost use Rattle.std.specs.Prelude.{◌≡◌};

use crate::host::Host;
use crate::placed_inbox::PlacedInbox;
use crate::recipient::{Recipient, ReplyWriter};
use crate::refusal::refuse;
use crate::runtime::Runtime;
use crate::server::Server;
use std::alloc::Global;
use std::marker::Brand;
use std::os::unix::net::UnixStream;
use std::sync::Arc;
use std::thread::{self, JoinHandle};
use wq_ask::Refusal;
use wq_inbox::{History, Link, LinkInbox, Opened, Outlet, Ticket, open_queue, read_all};

/// The place that a client has.
#[derive(Clone, Copy, PartialEq, Eq, Drop)]
pub(crate) enum ClientPlace {
    /// One of those for everybody.
    Usual,
    /// The one that is kept for giving up a root, and for ending the server.
    Kept,
}

/// Runs a client's session to its end, with a thread that reads its stream. If the session asked
/// for it, the server ends. The handle of the client's stream is given back when the session has
/// ended.
///
/// If no thread can be made, the client is told so and the session ends at once.
pub(crate) fn run_client<R, H>(
    rt: R,
    alloc: Global,
    link: Arc<Link>,
    stream: Arc<UnixStream>,
    place: ClientPlace,
    server: &Arc<Server<H>>,
)
where
    R: Runtime,
    H: Host + Drop + Send + Sync + 'static,
{
    run_reading::<R, H, Brand>(rt, alloc, link, stream, place, server, Opened::new());
}

/// Runs a client's session to its end, with a thread that reads its stream. The events of the client have this history.
fn run_reading<R, H, E>(
    rt: R,
    alloc: Global,
    link: Arc<Link>,
    stream: Arc<UnixStream>,
    place: ClientPlace,
    server: &Arc<Server<H>>,
    opened: Opened,
)
where
    R: Runtime,
    H: Host + Drop + Send + Sync + 'static,
    E: History + Send + Sync + 'static,
    requires { opened ≡ E.book }
{
    let has_asked = match begin_reading::<R, E>(rt, alloc, &link, &stream, opened) {
        Some((reader, outlet)) => {
            let has_asked = run_session(rt, alloc, outlet, &stream, place, server);
            link.end(&rt);
            reader.join(&rt);
            has_asked
        }
        None => {
            refuse(&mut &*stream, Refusal::NoMemory);
            link.end(&rt);
            false
        }
    };
    if has_asked {
        server.end(&rt);
    }
    drop(stream);
    link.set_over(&rt);
}

/// Starts the thread that reads a client's stream, and gives the end of the queue into which it puts the events.
fn begin_reading<R, E>(
    rt: R,
    alloc: Global,
    link: &Arc<Link>,
    stream: &Arc<UnixStream>,
    opened: Opened,
) -> Option<(JoinHandle<()>, Outlet<E>)>
where
    R: Runtime,
    E: History + Send + Sync + 'static,
    requires { opened ≡ E.book }
{
    let (theirs, stream) = (link.clone().ok()?, stream.clone().ok()?);
    let (feed, outlet) = open_queue::<E>(alloc, theirs, opened).ok()?;
    let reader = thread::spawn(&rt, move || {
        let mut feed = feed;
        read_all(&rt, alloc, &mut &*stream, &mut feed)
    });
    Some((reader.ok()?, outlet))
}

/// Runs a client's session, and says whether it asked that the server ends.
fn run_session<R, H, E>(
    rt: R,
    alloc: Global,
    outlet: Outlet<E>,
    mut stream: &UnixStream,
    place: ClientPlace,
    server: &Server<H>,
) -> bool
where
    R: Runtime,
    H: Host + Drop,
    E: History,
{
    let ticket = Ticket::new(&rt, &server.turnstile);
    let events = LinkInbox {
        outlet,
        rt,
        ticket: &ticket,
    };
    let mut inbox = PlacedInbox::new(alloc, place, events);
    let client = Recipient {
        stream,
        ticket: &ticket,
    };
    let mut writer = ReplyWriter {
        stream,
        ticket: &ticket,
    };
    let has_asked = server.host.serve(&rt, &client, &mut inbox, &mut writer);
    if inbox.is_refused {
        refuse(&mut stream, Refusal::TooManySessions);
    }
    ticket.leave();
    has_asked
}
