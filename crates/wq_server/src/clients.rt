//! The clients that are connected.

use crate::client::{ClientPlace, run_client};
use crate::host::Host;
use crate::patience::Patience;
use crate::refusal::refuse;
use crate::runtime::Runtime;
use crate::server::Server;
use std::alloc::{AllocError, Global};
use std::io;
use std::os::unix::net::UnixStream;
use std::sync::{Arc, Wait};
use std::thread::{self, JoinHandle, Threads};
use std::time::{Clock, Duration};
use wq_ask::Refusal;
use wq_inbox::Link;

/// How many clients may be connected at once. There is one place more, which is kept for a client that gives up a root
/// or ends the server.
pub const MAX_SESSIONS: usize = 32;

/// How many seconds the client in the kept place has for its line.
const KEPT_PATIENCE: u64 = 1;

/// How many seconds a write waits for a client that takes nothing. After a write of a part comes
/// another write, so the server cuts off a client after up to twice as long.
const PATIENCE: u64 = 60;

/// A client, and the thread of its session.
#[derive(Drop)]
struct ConnectedClient {
    link: Arc<Link>,
    session: JoinHandle<()>,
}

/// The clients that are connected, at most [`MAX_SESSIONS`], and one in the kept place.
#[derive(Drop)]
pub(crate) struct Clients {
    clients: Vec<ConnectedClient>,
    kept: Option<ConnectedClient>,
}

impl Clients {
    /// No client yet, with room for all that may come.
    pub(crate) fn new(alloc: Global) -> Result<Clients, AllocError> {
        Ok(Clients {
            clients: Vec::with_capacity(alloc, MAX_SESSIONS)?,
            kept: None,
        })
    }

    /// Takes in a client, or tells it why not.
    pub(crate) fn admit<R, H>(
        &mut self,
        rt: R,
        alloc: Global,
        stream: UnixStream,
        server: &Arc<Server<H>>,
    )
    where
        R: Runtime,
        H: Host + Drop + Send + Sync + 'static,
    {
        self.forget_ended(&rt);
        server.links.forget_over(&rt);
        if self.clients.len() >= MAX_SESSIONS {
            self.forget_gone(&rt);
        }
        if self.clients.len() >= MAX_SESSIONS {
            self.admit_to_kept(rt, alloc, stream, server);
            return;
        }
        if let Some(client) = begin(rt, alloc, stream, ClientPlace::Usual, server)
            && let Err(refused) = self.clients.push(client)
        {
            end(&rt, refused.value);
        }
    }

    /// Takes a client into the kept place, if nobody has it. It has a moment for its line.
    fn admit_to_kept<R, H>(
        &mut self,
        rt: R,
        alloc: Global,
        stream: UnixStream,
        server: &Arc<Server<H>>,
    )
    where
        R: Runtime,
        H: Host + Drop + Send + Sync + 'static,
    {
        let time = Duration::from_secs(KEPT_PATIENCE);
        if self.kept.is_some() || stream.set_read_timeout(Some(time)).is_err() {
            refuse(&mut &stream, Refusal::TooManySessions);
            return;
        }
        self.kept = begin(rt, alloc, stream, ClientPlace::Kept, server);
    }

    /// Ends all sessions, and waits until they have ended. If patience ends before, a session that still answers a
    /// line is left alone: its client hears nothing more, and its thread ends with the process.
    pub(crate) fn end_all<R: Threads + Wait + Clock>(self, rt: &R, patience: &Patience) {
        let Clients { clients, kept } = self;
        for client in &clients {
            client.link.end(rt);
        }
        if let Some(client) = kept {
            client.link.end(rt);
            wait_for(rt, client, patience);
        }
        for client in clients {
            wait_for(rt, client, patience);
        }
    }

    /// Drops the clients that have gone, whose sessions may still answer a line. Such a thread ends by itself.
    fn forget_gone<R: Wait>(&mut self, rt: &R) {
        self.clients.retain(|it| !it.link.has_gone(rt));
    }

    /// Drops the clients whose sessions are over.
    fn forget_ended<R: Threads + Wait>(&mut self, rt: &R) {
        if let Some(client) = self.kept.take_if(|it| it.link.is_over()) {
            end(rt, client);
        }
        for place in (0..self.clients.len()).rev() {
            if place < self.clients.len() && self.clients[place].link.is_over() {
                end(rt, self.clients.swap_remove(place));
            }
        }
    }
}

/// Ends a client's session, if it still runs, and waits until it has ended.
fn end<R: Threads + Wait>(rt: &R, client: ConnectedClient) {
    client.link.end(rt);
    client.session.join(rt);
}

/// Waits until a session has ended that was told to, unless patience ends before.
fn wait_for<R: Threads + Wait + Clock>(rt: &R, client: ConnectedClient, patience: &Patience) {
    if client.link.wait_over(rt, patience.left(rt)) {
        client.session.join(rt);
    }
}

/// Begins the session of a client. If no memory or no thread is left for it, the client is told so.
fn begin<R, H>(
    rt: R,
    alloc: Global,
    stream: UnixStream,
    place: ClientPlace,
    server: &Arc<Server<H>>,
) -> Option<ConnectedClient>
where
    R: Runtime,
    H: Host + Drop + Send + Sync + 'static,
{
    let Ok(spare) = with_patience(&stream) else {
        refuse(&mut &stream, Refusal::NoMemory);
        return None;
    };
    match start_session(rt, alloc, stream, place, server) {
        Ok(client) => Some(client),
        Err(_) => {
            refuse(&mut &spare, Refusal::NoMemory);
            None
        }
    }
}

/// Limits how long a write to a client waits, and gives a second handle of its stream.
fn with_patience(stream: &UnixStream) -> io::Result<UnixStream> {
    stream.set_write_timeout(Some(Duration::from_secs(PATIENCE)))?;
    stream.try_clone()
}

/// Starts the thread of a client's session. If that fails, no link to the client is left.
fn start_session<R, H>(
    rt: R,
    alloc: Global,
    stream: UnixStream,
    place: ClientPlace,
    server: &Arc<Server<H>>,
) -> Result<ConnectedClient, AllocError>
where
    R: Runtime,
    H: Host + Drop + Send + Sync + 'static,
{
    let stream = Arc::new(alloc, stream)?;
    let link = Arc::new(alloc, Link::new(alloc, stream.clone()?))?;
    let (theirs, held, shared) = (link.clone()?, link.clone()?, server.clone()?);
    server.links.add(&rt, held)?;
    let session = thread::spawn(&rt, move || {
        run_client(rt, alloc, theirs, stream, place, &shared)
    });
    if session.is_err() {
        link.set_over(&rt);
        server.links.forget_over(&rt);
    }
    Ok(ConnectedClient {
        link,
        session: session?,
    })
}
