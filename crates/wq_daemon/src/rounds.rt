//! Rounds of triggers. A round looks at the root and runs the programs of its triggers. Then it
//! holds the shelf while it makes the batches of the triggers and starts their commands.
ghost use Rattle.std.specs.Prelude.{IfSome};
ghost use Rattle.wq_reply.specs.Ahead.{AreAheadAt, IsAheadAt};

use std::alloc::{AllocError, Global};
use std::sync::{Arc, Mutex, Wait};
use wq_clock::{Bound, Instance, Run};
use wq_launch::{Launcher, Runs, Spawn};
use wq_live::{Named, Seat};
use wq_reply::Ahead;
use wq_session::SharedShelf;
use wq_verify::StoredProgram;
use wq_view::View;

/// The parts for rounds of triggers. A round takes their locks while it holds the shelf, and never the other way round.
pub(crate) struct Rounds<N, P, R>
where
    N: Named,
    P: Spawn + Drop,
    R: Wait + Copy + Drop,
{
    rt: R,
    alloc: Global,
    run: Run,
    /// The seat of rounds. It is there whenever it is not locked.
    seat: Mutex<Option<Seat<N>>>,
    pub(crate) launcher: Mutex<Launcher<P, R>>,
    /// The commands that run.
    pub(crate) runs: Arc<Runs>,
}

impl<N, P, R> Rounds<N, P, R>
where
    N: Named,
    P: Spawn + Drop,
    R: Wait + Copy + Drop,
{
    /// The parts before any start of a command, in this run of the server.
    pub(crate) fn new(
        rt: R,
        alloc: Global,
        run: Run,
        seat: Seat<N>,
        spawn: P,
    ) -> Result<Rounds<N, P, R>, AllocError> {
        let runs = Arc::new(alloc, Runs::new(alloc, spawn.most_inputs())?)?;
        let launcher = Launcher::new(spawn, rt, alloc, runs.clone()?)?;
        Ok(Rounds {
            rt,
            alloc,
            run,
            seat: Mutex::new(Some(seat)),
            launcher: Mutex::new(launcher),
            runs,
        })
    }

    /// Has a round of the triggers of the root of this number on this shelf. It does not look at a
    /// root without triggers.
    pub(crate) fn fire(&self, number: u64, shelf: &Mutex<SharedShelf>) {
        if !has_triggers(&*shelf.lock(&self.rt), number) {
            return;
        }
        let mut place = self.seat.lock(&self.rt);
        let Some(seat) = place.take() else {
            return;
        };
        *place = Some(self.look_and_fire(seat, number, shelf));
    }

    /// Looks at the root of this number, and has a round of its triggers. If the look is refused, or there is no share
    /// of the view, there is no round.
    ///
    /// It leaves the look first, so no publish waits for the round.
    fn look_and_fire(&self, seat: Seat<N>, number: u64, shelf: &Mutex<SharedShelf>) -> Seat<N> {
        match seat.look() {
            Ok(look) => {
                let shared = look.share_of(number);
                let seat = look.leave();
                if let Ok(Some(view)) = shared {
                    self.fire_at(&self.run.instance(number), &view, shelf);
                }
                seat
            }
            Err(blind) => blind.seat(),
        }
    }

    /// Has a round of the triggers of a root at a view of it. It locks the shelf first, and then the launcher.
    ///
    /// The triggers' programs run before that, so that no client waits for them. A trigger that came since then has its
    /// program run under the lock.
    fn fire_at(&self, instance: &Instance, view: &View, shelf: &Mutex<SharedShelf>) {
        let asks = self.asks(instance.root, view.tick(), shelf);
        let ahead = self.found(asks, view);
        let mut shelf = shelf.lock(&self.rt);
        let mut launcher = self.launcher.lock(&self.rt);
        shelf.round(instance, view, ahead.as_slice(), &mut *launcher);
    }

    /// What a round at a view of this tick asks for each trigger of the root of this number. If memory runs out, it is
    /// nothing.
    fn asks(
        &self,
        number: u64,
        tick: u64,
        shelf: &Mutex<SharedShelf>,
    ) -> Vec<Option<(Arc<StoredProgram>, Bound)>> {
        let shelf = shelf.lock(&self.rt);
        let mut launcher = self.launcher.lock(&self.rt);
        match shelf.asks(self.alloc, number, tick, &mut *launcher) {
            Ok(asks) => asks,
            Err(_) => Vec::new(self.alloc),
        }
    }

    /// What the programs keep at the view, each in its place. If memory runs out, what is missing is found in the round.
    fn found(
        &self,
        asks: Vec<Option<(Arc<StoredProgram>, Bound)>>,
        view: &View,
    ) -> Vec<Option<Ahead>>
        ensures { AreAheadAt view.now.records result.items }
    {
        let mut ahead = Vec::new(self.alloc);
        for ask in asks {
            if ahead.push(found_one(self.alloc, ask, view)).is_err() {
                break;
            }
        }
        ahead
    }
}

// They are freed by one call, wherever a function gives up.
impl<N, P, R> Drop for Rounds<N, P, R>
where
    N: Named,
    P: Spawn + Drop,
    R: Wait + Copy + Drop,
{
    fn drop(self) {
        let Rounds {
            rt: _,
            alloc: _,
            run: _,
            seat: _,
            launcher: _,
            runs: _,
        } = self;
    }
}

/// What a program keeps at the view of the files that changed after a bound. It is nothing if nothing was asked, or if
/// memory runs out.
fn found_one(alloc: Global, ask: Option<(Arc<StoredProgram>, Bound)>, view: &View) -> Option<Ahead>
    ensures { IfSome result (IsAheadAt view.now.records) }
{
    let (program, bound) = ask?;
    Ahead::new(alloc, program, bound, view).ok()
}

/// Whether the root of this number is on the shelf and has triggers.
fn has_triggers(shelf: &SharedShelf, number: u64) -> bool {
    shelf
        .roots()
        .iter()
        .any(|root| root.number() == number && root.trigger_count() > 0)
}
