//! Quiet roots: nothing changed there for long, and no client asked of them. They sit out turns of rounds.
ghost use Rattle.std.specs.Prelude.{◌≡◌, if◌then◌else◌, option_map};
ghost use Rattle.std.specs.Duration.{as_nanos};
ghost use Rattle.wq_server.specs.Quiet.{stirs, turns_out};

use std::time::{Clock, Duration, Instant};

/// After how long a root is quiet, in which nothing changed and of which no client asked. If there is no such time, no
/// root is ever quiet.
#[derive(Clone, Copy, Drop)]
pub struct QuietAfter {
    /// That time.
    pub time: Option<Duration>,
}

impl QuietAfter {
    /// How many turns a root sits out between two walks that was quiet for so long.
    fn turns_out(&self, quiet: Duration) -> u32
        ensures { result ≡ turns_out (option_map as_nanos self.now.time) (as_nanos quiet) }
    {
        let Some(after) = self.time else {
            return 0;
        };
        let (after, quiet) = (after.as_nanos(), quiet.as_nanos());
        if quiet < after {
            0
        } else if quiet * 10 < after * 11 {
            1
        } else {
            2
        }
    }
}

/// What a round finds of a root, which may end its quiet.
#[derive(Clone, Copy, Drop)]
pub struct Stir {
    /// The number of the root.
    pub number: u64,
    /// The tick of its view, which each change raises.
    pub tick: u64,
    /// Whether a client asked of the root since the last round.
    pub is_asked: bool,
}

/// Since when a root is quiet.
#[derive(Clone, Copy, Drop)]
pub(crate) struct Quiet {
    /// The tick of its view.
    tick: u64,
    /// That moment, if the clock could be read.
    since: Option<Instant>,
}

impl Quiet {
    /// A root of which a round found this for the first time, now.
    pub(crate) fn new(stir: &Stir, now: Option<Instant>) -> Quiet
        ensures { (result.tick ≡ stir.now.tick) × (result.since ≡ now) }
    {
        Quiet {
            tick: stir.tick,
            since: now,
        }
    }

    /// This root after a round that found this of it, now.
    pub(crate) fn after(self, stir: &Stir, now: Option<Instant>) -> Quiet
        ensures tick { result.tick ≡ stir.now.tick }
        ensures since { result.since ≡ (if stirs self.tick stir.now then now else self.since) }
    {
        let is_stirred = self.tick != stir.tick || stir.is_asked;
        Quiet {
            tick: stir.tick,
            since: if is_stirred { now } else { self.since },
        }
    }

    /// How many turns the root sits out now. It sits out none if the clock cannot be read.
    pub(crate) fn turns_out<R: Clock>(&self, rt: &R, after: &QuietAfter) -> u32 {
        match self.since {
            Some(since) => match since.elapsed(rt) {
                Ok(quiet) => after.turns_out(quiet),
                Err(_) => 0,
            },
            None => 0,
        }
    }
}
