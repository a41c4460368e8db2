//! The views of a session that is served: it asks the roots for what an ask needs, and looks at the published table from
//! its seat.
ghost use Rattle.std.specs.Prelude.{◌≡◌, Ok, Some, IfErr, IfOk, option_map};
ghost use Rattle.wq_clock.specs.Instance.{instance_data};
ghost use Rattle.wq_crawl.specs.Roots.{RootsGive, passing, showing};
ghost use Rattle.wq_crawl.specs.Basis.{basis_of};
ghost use Rattle.wq_crawl.specs.Meeting.{EndsAtEnd, IsMet, LearnsAndSees, SeesRoot, SeesNumber};
ghost use Rattle.wq_crawl.specs.Ready.{Learns, known};
ghost use Rattle.wq_crawl.specs.Need.{unwatch, need_data};
ghost use Rattle.wq_crawl.specs.Run.{ShowsAt, found_data};
ghost use Rattle.wq_crawl.specs.At.{AtData};
ghost use Rattle.wq_crawl.specs.Views.{root_at_data};

use crate::fault::CrawlFault;
use crate::found_root::FoundRoot;
use crate::need::Need;
use crate::roots::Roots;
use crate::views::{RootAt, Views};
use std::alloc::AllocError;
use wq_clock::{Instance, Run};
use wq_live::{Look, Named, Seat, Told};

/// A seat, from which a session looks at roots, and the roots that it asks first.
#[derive(Drop)]
pub struct SeatViews<N: Named, R: Roots<N> + Drop> {
    /// The run of the server.
    pub run: Run,
    /// The seat that the session looks from.
    pub seat: Seat<N>,
    /// The roots that it asks.
    pub roots: R,
}

impl<N: Named, R: Roots<N> + Drop> Views for SeatViews<N, R> {
    ghost use Rattle.std.specs.Prelude.{◌≡◌};
    ghost use Rattle.wq_crawl.specs.Basis.{basis_of};
    ghost use Rattle.wq_crawl.specs.Ready.{Readies, known};

    ghost readies = { λ before need ready after. (after.run ≡ before.run)
        × Readies (basis_of before.run (N.published N.book) (N.refused N.book)) need
        (known (R.crawler before.roots) before.seat) ready
        (known (R.crawler after.roots) after.seat) };

    fn ready(self, need: Need<'_>) -> (Self, Result<Option<RootAt>, CrawlFault>) {
        let SeatViews {
            run,
            seat,
            mut roots,
        } = self;
        let (seat, ready) = meet(run, need, seat, &mut roots);
        (SeatViews { run, seat, roots }, ready)
    }
}

/// Does what an ask needs, and looks at its root.
fn meet<N: Named, R: Roots<N>>(
    run: Run,
    need: Need<'_>,
    seat: Seat<N>,
    roots: &mut R,
) -> (Seat<N>, Result<Option<RootAt>, CrawlFault>)
    ensures { IsMet (basis_of run (N.published N.book) (N.refused N.book)) (need_data need.entry)
        (known (R.crawler roots.old) seat) result.1 (known (R.crawler roots.new) result.0) }
{
    match need {
        Need::Nothing => (seat, Ok(None)),
        Need::Look(root) => look_at(run, root, seat),
        Need::Crawl(root) => {
            let told = crawl(roots, root);
            learn_and_look(run, root, seat, told)
        }
        Need::Open(root) => {
            let told = open(roots, root);
            learn_and_look(run, root, seat, told)
        }
        Need::Retire(root) => retire(run, root, seat, roots),
    }
}

/// Crawls a root for a session that asks for it now.
fn crawl<N: Named, R: Roots<N>>(roots: &mut R, root: &str) -> Result<Option<Told<N>>, CrawlFault>
    ensures { RootsGive (R.crawler roots.old) (passing root.now) result (R.crawler roots.new) }
{
    let asked = roots.ask();
    match roots.crawl(asked, root) {
        Ok(crawl) => Ok(crawl.told()),
        Err(fault) => Err(fault),
    }
}

/// Opens a root.
fn open<N: Named, R: Roots<N>>(roots: &mut R, root: &str) -> Result<Option<Told<N>>, CrawlFault>
    ensures { RootsGive (R.crawler roots.old) (showing root.now) result (R.crawler roots.new) }
{
    match roots.open(root) {
        Ok(told) => Ok(Some(told)),
        Err(fault) => Err(fault),
    }
}

/// Looks at a root.
///
/// A share of the root's view outlives the look, so that no publish waits while a reply is made. If there is no share,
/// memory ran out.
fn look_at<N: Named>(
    run: Run,
    root: &str,
    seat: Seat<N>,
) -> (Seat<N>, Result<Option<RootAt>, CrawlFault>)
    ensures { SeesRoot (basis_of run (N.published N.book) (N.refused N.book)) root.now seat
        result.1 result.0 }
{
    match seat.look() {
        Ok(look) => {
            let shared = share_for(run, root, &look);
            let seat = look.leave();
            match shared {
                Ok(shared) => (seat, Ok(shared)),
                Err(_) => (seat, Err(CrawlFault::NoMemory)),
            }
        }
        Err(blind) => (blind.seat(), Ok(None)),
    }
}

/// Looks at a root after the roots told this.
fn learn_and_look<N: Named>(
    run: Run,
    root: &str,
    seat: Seat<N>,
    told: Result<Option<Told<N>>, CrawlFault>,
) -> (Seat<N>, Result<Option<RootAt>, CrawlFault>)
    ensures { LearnsAndSees (basis_of run (N.published N.book) (N.refused N.book)) root.now told
        seat result.1 result.0 }
{
    match told {
        Ok(None) => look_at(run, root, seat),
        Ok(Some(told)) => look_at(run, root, seat.learn(told)),
        Err(fault) => (seat, Err(fault)),
    }
}

/// Retires a root, if it is shown, and gives its number.
fn retire<N: Named, R: Roots<N>>(
    run: Run,
    root: &str,
    seat: Seat<N>,
    roots: &mut R,
) -> (Seat<N>, Result<Option<RootAt>, CrawlFault>)
    ensures { IsMet (basis_of run (N.published N.book) (N.refused N.book)) (unwatch root.now)
        (known (R.crawler roots.old) seat) result.1 (known (R.crawler roots.new) result.0) }
{
    let (seat, shown) = root_for(run, root, seat);
    match shown {
        None => (seat, Ok(None)),
        Some(shown) => {
            let instance = shown.instance();
            let told = roots.retire(shown);
            at_end(seat, instance, told)
        }
    }
}

/// The number of a root, after its end was told.
fn at_end<N: Named>(
    seat: Seat<N>,
    instance: Instance,
    told: Result<Told<N>, CrawlFault>,
) -> (Seat<N>, Result<Option<RootAt>, CrawlFault>)
    ensures { EndsAtEnd (instance_data instance) told seat result.1 result.0 }
{
    match told {
        Ok(told) => {
            let ended = RootAt {
                instance,
                view: None,
            };
            (learn_and_leave(seat, told), Ok(Some(ended)))
        }
        Err(fault) => (seat, Err(fault)),
    }
}

/// Learns the list that was told, and looks at once, so that the seat keeps nothing of it that is shown by then.
/// Otherwise it would keep the views of all roots as they were told, until its client asks something that looks.
#[tactic(auto, using(wq_live::proofs::Beginnings::prefix_trans))]
fn learn_and_leave<N: Named>(seat: Seat<N>, told: Told<N>) -> Seat<N>
    ensures { Learns seat (Ok (Some told)) result }
{
    match seat.learn(told).look() {
        Ok(look) => look.leave(),
        Err(blind) => blind.seat(),
    }
}

/// The root of this text with a share of its view, as a look shows it, if it does. It is refused if there is no share
/// of the view of a root that is shown.
fn share_for<N: Named>(run: Run, root: &str, look: &Look<N>) -> Result<Option<RootAt>, AllocError>
    ensures shared { IfOk result
        (λ at. ShowsAt run root.now look.now (option_map root_at_data at)) }
    ensures short { IfErr result (λ _. (at : AtData) × ShowsAt run root.now look.now (Some at)) }
{
    match FoundRoot::seen(run, root, look) {
        Some(shown) => {
            let instance = shown.instance();
            RootAt::numbered(run, instance.root, look)
        }
        None => Ok(None),
    }
}

/// Looks for the root of this text.
fn root_for<N: Named>(run: Run, root: &str, seat: Seat<N>) -> (Seat<N>, Option<FoundRoot>)
    ensures { SeesNumber (basis_of run (N.published N.book) (N.refused N.book)) root.now
        seat (option_map found_data result.1) result.0 }
{
    match seat.look() {
        Ok(look) => {
            let shown = FoundRoot::seen(run, root, &look);
            (look.leave(), shown)
        }
        Err(blind) => (blind.seat(), None),
    }
}
