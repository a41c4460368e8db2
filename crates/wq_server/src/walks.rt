//! The walks that the rounds of crawls made: how long the last one of each root took, and when it ended. From that
//! follows which roots are due.

use crate::pace::{Pace, Turn};
use crate::quiet::{Quiet, Stir};
use crate::times::Took;
use std::alloc::{AllocError, Global};
use std::time::{Clock, Duration, Instant};
use wq_patch::Reach;

/// The last walk of a root.
#[derive(Drop)]
struct LastWalk {
    number: u64,
    took: Took,
    /// When it ended, if the clock could be read.
    ended: Option<Instant>,
    /// The glances at the root since then.
    glances: Glances,
}

/// The glances at a root since its last walk.
#[derive(Clone, Copy, Drop)]
struct Glances {
    /// How much processor time they took together.
    work: Duration,
    /// The last one that looked into recent directories, of either kind.
    recent: Glanced,
    /// The last one that looked at the rows of all directories.
    changed: Glanced,
}

/// The last glance of a kind.
#[derive(Clone, Copy, Drop)]
struct Glanced {
    /// How much processor time it took.
    work: Duration,
    /// When it ended. If the clock could not be read or there was no glance, it is time for one.
    ended: Option<Instant>,
}

impl Glances {
    /// No glance.
    fn none() -> Glances {
        let none = Glanced {
            work: Duration::ZERO,
            ended: None,
        };
        Glances {
            work: Duration::ZERO,
            recent: none,
            changed: none,
        }
    }

    /// No glance after a walk that ended then. These were before it. The walk looked at all directories, so glances at
    /// their rows pause.
    fn after_walk(self, ended: Option<Instant>) -> Glances {
        Glances {
            work: Duration::ZERO,
            recent: self.recent,
            changed: Glanced {
                work: self.changed.work,
                ended,
            },
        }
    }

    /// These, and one more that took so much processor time and ended then.
    fn with(self, reach: Reach, work: Duration, ended: Option<Instant>) -> Glances {
        let glanced = Glanced { work, ended };
        let all = self.work.saturating_add(work);
        match reach {
            Reach::Recent => Glances {
                work: all,
                recent: glanced,
                changed: self.changed,
            },
            // It looked into recent directories too, but a glance at these alone takes no longer than before.
            Reach::Changed => Glances {
                work: all,
                recent: Glanced {
                    work: self.recent.work,
                    ended,
                },
                changed: glanced,
            },
        }
    }
}

/// A glance for which it is time.
#[derive(Clone, Copy, Drop)]
pub(crate) struct DueGlance {
    /// The number of the root.
    pub(crate) number: u64,
    pub(crate) reach: Reach,
}

/// A root that is due.
#[derive(Clone, Copy, Drop)]
pub(crate) struct DueRoot {
    /// The number of the root.
    pub(crate) number: u64,
    /// How long its last walk took. It is no time if there was none.
    took: Took,
}

impl DueRoot {
    /// Whether the root's last walk was long.
    pub(crate) fn is_long(&self) -> bool {
        self.took.is_long()
    }
}

/// A root with its quiet.
#[derive(Clone, Copy, Drop)]
struct QuietRoot {
    number: u64,
    quiet: Quiet,
}

/// The last walk of each root that is shown, and since when the root is quiet.
#[derive(Drop)]
pub(crate) struct LastWalks {
    alloc: Global,
    walks: Vec<LastWalk>,
    quiets: Vec<QuietRoot>,
}

impl LastWalks {
    /// No walk yet.
    pub(crate) fn new(alloc: Global) -> LastWalks {
        LastWalks {
            alloc,
            walks: Vec::new(alloc),
            quiets: Vec::new(alloc),
        }
    }

    /// Keeps what a round found of the roots. If memory runs out for that, no root is quiet until the next round.
    pub(crate) fn stir<R: Clock>(&mut self, rt: &R, stirs: Option<Vec<Stir>>) {
        let now = Instant::now(rt).ok();
        let quiets = match stirs {
            Some(stirs) => self.quiets_after(&stirs, now).ok(),
            None => None,
        };
        self.quiets = quiets.unwrap_or(Vec::new(self.alloc));
    }

    /// The quiet of each root after a round that found this, now.
    fn quiets_after(
        &self,
        stirs: &[Stir],
        now: Option<Instant>,
    ) -> Result<Vec<QuietRoot>, AllocError> {
        let mut quiets = Vec::with_capacity(self.alloc, stirs.len())?;
        for stir in stirs {
            let quiet = match self.quiet_of(stir.number) {
                Some(quiet) => quiet.after(stir, now),
                None => Quiet::new(stir, now),
            };
            quiets.push(QuietRoot {
                number: stir.number,
                quiet,
            })?;
        }
        Ok(quiets)
    }

    /// Keeps a walk that just ended. A root whose crawl was another's is not walked, so half of the time that it took
    /// before counts at least. If memory runs out for that, the root is due in the next round.
    pub(crate) fn add<R: Clock>(&mut self, rt: &R, number: u64, took: Took) {
        let last = self.last_of(number);
        let took = Took {
            time: took.time.max(last.time / 2),
            work: took.work.max(last.work / 2),
        };
        let ended = Instant::now(rt).ok();
        let glances = self.glances_of(number).after_walk(ended);
        self.walks.retain(|it| it.number != number);
        let _ = self.walks.push(LastWalk {
            number,
            took,
            ended,
            glances,
        });
    }

    /// Keeps a glance that just ended, and took so much processor time.
    pub(crate) fn add_glance<R: Clock>(&mut self, rt: &R, look: DueGlance, work: Duration) {
        let ended = Instant::now(rt).ok();
        if let Some(walk) = self.walks.iter_mut().find(|it| it.number == look.number) {
            walk.glances = walk.glances.with(look.reach, work, ended);
        }
    }

    /// The glances at these roots for which it is time at this pace. A root has none that was not walked yet, or is due.
    /// Without a share there are none.
    pub(crate) fn to_glance<R: Clock>(
        &self,
        rt: &R,
        pace: &Pace,
        shown: &[u64],
        due: &[DueRoot],
    ) -> Result<Vec<DueGlance>, AllocError> {
        let mut looks = Vec::new(self.alloc);
        for number in shown {
            if self.walk_of(*number).is_none() || due.iter().any(|turn| turn.number == *number) {
                continue;
            }
            let glances = self.glances_of(*number);
            let out = self.turns_out(rt, pace, *number);
            if let Some(reach) = reach_now(rt, pace, shown.len(), &glances, out) {
                looks.push(DueGlance {
                    number: *number,
                    reach,
                })?;
            }
        }
        Ok(looks)
    }

    /// Forgets the roots that are not shown any more.
    pub(crate) fn forget_others(&mut self, shown: &[u64]) {
        self.walks.retain(|it| shown.contains(&it.number));
    }

    /// The roots of these that are due at this pace. Those come first of which the last walk was the shortest by the
    /// clock, so no root waits for a walk that was long and can come after its own. A new root comes first too.
    pub(crate) fn due<R: Clock>(
        &self,
        rt: &R,
        pace: &Pace,
        shown: &[u64],
    ) -> Result<Vec<DueRoot>, AllocError> {
        let pauses = self.pauses(rt, pace, shown)?;
        let mut turns = Vec::with_capacity(self.alloc, shown.len())?;
        for (number, pause) in shown.iter().zip(&pauses) {
            if self.is_due(rt, *number, *pause) {
                turns.push(DueRoot {
                    number: *number,
                    took: self.last_of(*number),
                })?;
            }
        }
        turns.sort_unstable_by_key(|turn| turn.took.time);
        Ok(turns)
    }

    /// The pause of each of these roots from its last walk to the next one at this pace. Without a share it is the
    /// interval.
    fn pauses<R: Clock>(
        &self,
        rt: &R,
        pace: &Pace,
        shown: &[u64],
    ) -> Result<Vec<Duration>, AllocError> {
        let mut pauses = Vec::with_capacity(self.alloc, shown.len())?;
        let Some(share) = pace.share else {
            for _ in shown {
                pauses.push(pace.interval)?;
            }
            return Ok(pauses);
        };
        let mut turns = Vec::with_capacity(self.alloc, shown.len())?;
        for number in shown {
            turns.push(Turn {
                walk: self.work_since(*number),
                out: self.turns_out(rt, pace, *number),
            })?;
        }
        let cycles = share.cycles(self.alloc, pace.interval, &turns)?;
        for (number, cycle) in shown.iter().zip(&cycles) {
            // Glances are work within the pause, and so make it longer by what they took.
            pauses.push(cycle.pause.saturating_add(self.glances_of(*number).work))?;
        }
        Ok(pauses)
    }

    /// Whether this pause of a root has passed, or the root was not walked yet. It has passed if the clock cannot be
    /// read, so that no root waits for ever.
    fn is_due<R: Clock>(&self, rt: &R, number: u64, pause: Duration) -> bool {
        has_passed(rt, self.walk_of(number).and_then(|it| it.ended), pause)
    }

    /// How many turns a root sits out between two walks now.
    fn turns_out<R: Clock>(&self, rt: &R, pace: &Pace, number: u64) -> u32 {
        match self.quiet_of(number) {
            Some(quiet) => quiet.turns_out(rt, &pace.quiet),
            None => 0,
        }
    }

    /// The quiet of a root, if a round found it before.
    fn quiet_of(&self, number: u64) -> Option<Quiet> {
        let found = self.quiets.iter().find(|it| it.number == number)?;
        Some(found.quiet)
    }

    /// How much processor time the last walk of a root and the glances since then took.
    fn work_since(&self, number: u64) -> Duration {
        let walk = self.last_of(number).work;
        walk.saturating_add(self.glances_of(number).work)
    }

    /// The glances at a root since its last walk.
    fn glances_of(&self, number: u64) -> Glances {
        match self.walk_of(number) {
            Some(walk) => walk.glances,
            None => Glances::none(),
        }
    }

    /// How long the last walk of a root took. It is no time if there was none.
    fn last_of(&self, number: u64) -> Took {
        match self.walk_of(number) {
            Some(walk) => walk.took,
            None => Took {
                time: Duration::ZERO,
                work: Duration::ZERO,
            },
        }
    }

    /// The last walk of a root.
    fn walk_of(&self, number: u64) -> Option<&LastWalk> {
        self.walks.iter().find(|it| it.number == number)
    }
}

/// How far a glance looks at a root now, if it is time for one at this pace, these were the glances before, so many roots
/// are shown, and this one sits out so many turns.
fn reach_now<R: Clock>(
    rt: &R,
    pace: &Pace,
    roots: usize,
    glances: &Glances,
    out: u32,
) -> Option<Reach> {
    if is_time(rt, pace, roots, &glances.changed, out) {
        Some(Reach::Changed)
    } else if is_time(rt, pace, roots, &glances.recent, out) {
        Some(Reach::Recent)
    } else {
        None
    }
}

/// Whether it is time for a glance of a kind, if this was the last one.
fn is_time<R: Clock>(rt: &R, pace: &Pace, roots: usize, last: &Glanced, out: u32) -> bool {
    match pace.share {
        Some(share) => {
            let pause = share.glance_pause(pace.interval, roots, last.work, out);
            has_passed(rt, last.ended, pause)
        }
        None => false,
    }
}

/// Whether this time has passed since a moment. It has if there is no such moment, or the clock cannot be read.
fn has_passed<R: Clock>(rt: &R, since: Option<Instant>, time: Duration) -> bool {
    match since {
        Some(since) => match since.elapsed(rt) {
            Ok(passed) => passed >= time,
            Err(_) => true,
        },
        None => true,
    }
}
