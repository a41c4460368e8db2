//! A session from its first event to its end.
ghost use Rattle.std.specs.Prelude.{◌≡◌, [], List};
ghost use Rattle.wq_follow.specs.Subscription.{SubscriptionData};
ghost use Rattle.wq_crawl.specs.Basis.{basis_of};
ghost use Rattle.wq_session.specs.Serving.{IsServed, Serves, place};
ghost use Rattle.wq_session.specs.Followed.{follows_of};
ghost use Rattle.wq_stream.specs.declared.event.Event.{Event};

use crate::desk::Desk;
use crate::outcome::Out;
use crate::seat_moment::rest;
use crate::session::Session;
use crate::writer::write_out;
use std::alloc::Global;
use std::io::Write;
use std::thread::Threads;
use wq_ask::Ask;
use wq_base::{Asker, Workers};
use wq_crawl::{Roots, SeatViews};
use wq_live::Named;
use wq_reply::Several;
use wq_stream::{Event, Inbox};

/// The most events that a session takes, 2^62.
pub const MAX_EVENTS: u64 = 1 << 62;

/// The end of a session.
#[derive(Drop)]
pub struct Ended<N: Named, R: Roots<N> + Drop> {
    /// The seat that the session looked from, and the roots that it asked.
    pub views: SeatViews<N, R>,
    /// Whether the server is to end.
    pub shut: bool,
    /// Whether the writer failed.
    pub fault: bool,
}

/// Serves one client: takes its events one after the other, and writes a line for each reply, and for each list of a
/// subscription.
///
/// For each line it first does what the line needs: it asks the roots, and learns what they told.
/// Then it looks at the root. Then it holds the shelf while the line is taken. No look is open while
/// it asks the roots, makes a reply or writes it. If a look is refused, the line is answered as if
/// its root were not watched. If there is no share of the root's view, the line is answered that
/// memory ran out.
///
/// At an idle moment of a root it looks at the root, and tells the client the changes since the last
/// lists of its subscriptions. If the look is refused, it tells them at a later moment. The look is
/// open while it makes them only if there is no share of the root's view.
///
/// As many threads as the roots allow may look for the files of a query. The handle starts them, and they end before
/// the reply is made. The asker is whoever reads the replies. If it has gone they give up, nothing is written for the
/// line, and the session ends.
///
/// A long list is printed while it is written. If memory runs out for that, it is as if the writer had failed.
///
/// It ends if the client has gone, after a line that ends a session, if the writer fails, and after 2^62 events.
pub fn serve<T: Threads, A: Asker, N: Named, I: Inbox, W: Write, R: Roots<N> + Drop, D: Desk>(
    rt: &T,
    alloc: Global,
    asker: &A,
    inbox: &mut I,
    writer: &mut W,
    views: SeatViews<N, R>,
    desk: &mut D,
) -> Ended<N, R>
    ensures { (follows : List SubscriptionData) × IsServed
        (basis_of views.run (N.published N.book) (N.refused N.book))
        (place (I.shown inbox.old) (R.crawler views.roots) views.seat (D.shelf desk.old) [])
        (W.contents writer.old) (W.contents writer.new)
        (place (I.shown inbox.new) (R.crawler result.views.roots) result.views.seat
        (D.shelf desk.new) follows)
        (record { shut = result.shut; fault = result.fault }) }
{
    let count = views.roots.workers();
    let crew = Several {
        rt,
        workers: Workers { count },
        asker,
    };
    let mut session = Session::new(alloc);
    let mut views = views;
    for _ in 0..MAX_EVENTS {
        let (after, out) = take_event(&crew, alloc, &mut session, inbox, views, desk);
        views = after;
        let shut = out.shuts();
        if write_out(writer, &crew, alloc, &out).is_err() {
            return Ended {
                views,
                shut,
                fault: true,
            };
        }
        if !out.goes_on() {
            return Ended {
                views,
                shut,
                fault: false,
            };
        }
    }
    Ended {
        views,
        shut: false,
        fault: false,
    }
}

/// Takes the next event, and answers it.
fn take_event<T: Threads, A: Asker, N: Named, I: Inbox, R: Roots<N> + Drop, D: Desk>(
    crew: &Several<'_, T, A>,
    alloc: Global,
    session: &mut Session,
    inbox: &mut I,
    views: SeatViews<N, R>,
    desk: &mut D,
) -> (SeatViews<N, R>, Out)
    ensures serves { (event : Event) × Serves
        (basis_of views.run (N.published N.book) (N.refused N.book))
        (place (I.shown inbox.old) (R.crawler views.roots) views.seat (D.shelf desk.old)
        (follows_of session.old)) event result.1
        (place (I.shown inbox.new) (R.crawler result.0.roots) result.0.seat (D.shelf desk.new)
        (follows_of session.new)) }
    ensures run { result.0.run ≡ views.run }
{
    match inbox.next() {
        Event::Idle(root) => rest(session, root, views),
        event => {
            let ask = Ask::read(alloc, event);
            session.answer(crew, ask, views, desk)
        }
    }
}
