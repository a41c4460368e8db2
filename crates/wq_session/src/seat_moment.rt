//! An idle moment of a root: the session looks at it, and tells the client its changes.
ghost use Rattle.std.specs.Prelude.{◌≡◌};
ghost use Rattle.wq_crawl.specs.Basis.{basis_of};
ghost use Rattle.wq_session.specs.Idling.{SeesMoment};
ghost use Rattle.wq_session.specs.Followed.{follows_of};

use crate::at::at_of;
use crate::outcome::Out;
use crate::session::Session;
use wq_crawl::{At, RootAt, Roots, SeatViews};
use wq_live::Named;

/// Tells a client the changes of the root of this number, or that it is no longer watched.
///
/// The look ends before lists are made, as before a reply is, if there is a share of the root's view. If the look is
/// refused, the moment is skipped.
pub(crate) fn rest<N: Named, R: Roots<N> + Drop>(
    session: &mut Session,
    root: u64,
    views: SeatViews<N, R>,
) -> (SeatViews<N, R>, Out)
    ensures idles { SeesMoment (basis_of views.run (N.published N.book) (N.refused N.book)) root
        views.seat (follows_of session.old) result.1 result.0.seat (follows_of session.new) }
    ensures roots { R.crawler result.0.roots ≡ R.crawler views.roots }
    ensures run { result.0.run ≡ views.run }
{
    let SeatViews { run, seat, roots } = views;
    let (seat, out) = match seat.look() {
        Ok(look) => match RootAt::numbered(run, root, &look) {
            Ok(shared) => (look.leave(), session.idle(root, at_of(&shared))),
            Err(_) => {
                let at = At::numbered(run, root, &look);
                let out = session.idle(root, at);
                (look.leave(), out)
            }
        },
        Err(blind) => (blind.seat(), Out::silence(true)),
    };
    (SeatViews { run, seat, roots }, out)
}
