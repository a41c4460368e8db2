//! The pace of the rounds of crawls that nobody asked for: how long the server waits until it walks a root again.
ghost use Rattle.std.specs.Prelude.{◌≡◌, ◌≤◌, ◌<◌, ◌*◌, ◌⊎◌, ℕ, All, IfOk, length, map, min, take};
ghost use Rattle.std.specs.Duration.{as_nanos, max_nanos};
ghost use Rattle.wq_server.specs.Pace.{KeepsPart, SitsOut, TakesLess, cut_to, need_at, pause_out};
ghost use Rattle.wq_server.specs.Share.{KeepShare};

use crate::quiet::QuietAfter;
use std::alloc::{AllocError, Global};
use std::time::Duration;

/// One processor, in millionths.
const WHOLE: u64 = 1_000_000;

/// How many millionths of a processor one percent is.
const PERCENT: u64 = 10_000;

/// How much of one processor rounds may take.
#[derive(Clone, Copy)]
pub struct Share {
    /// In percent: 1 to 100.
    pub percent: u32,
    ghost few: { (1 ≤ percent) × (percent ≤ 100) },
}

/// The pace of rounds.
#[derive(Clone, Copy)]
pub struct Pace {
    /// The shortest pause between two walks of a root.
    pub interval: Duration,
    /// How much of a processor rounds may take, if that is limited.
    pub share: Option<Share>,
    /// When a root sits out turns because it is quiet, if that is wanted.
    pub quiet: QuietAfter,
}

/// A root that rounds walk again and again.
#[derive(Clone, Copy, Drop)]
pub(crate) struct Turn {
    /// How long a walk of it takes.
    pub(crate) walk: Duration,
    /// How many turns it sits out between two walks.
    pub(crate) out: u32,
}

/// A walk of a root, and the pause after it.
#[derive(Clone, Copy, Drop)]
pub(crate) struct Cycle {
    pub(crate) turn: Turn,
    pub(crate) pause: Duration,
}

impl Share {
    /// The cycles of all roots, if these are their turns. No pause is shorter than the interval, and all roots together
    /// keep to this share. The cycle of a root that sits out turns is longer by as many.
    pub(crate) fn cycles(
        &self,
        alloc: Global,
        interval: Duration,
        turns: &[Turn],
    ) -> Result<Vec<Cycle>, AllocError>
        ensures turns { IfOk result (λ cycles. map (λ it. it.turn) cycles.items ≡ turns.now) }
        ensures interval { IfOk result (λ cycles.
            All (λ it. as_nanos interval ≤ as_nanos it.pause) cycles.items) }
        ensures out { IfOk result (λ cycles. All (λ it. SitsOut it.turn.out
            (as_nanos interval) (as_nanos it.turn.walk) (as_nanos it.pause)) cycles.items) }
        ensures share { length turns.now ≤ 10_000
            → All (λ turn. as_nanos turn.walk * 1_000_000 < max_nanos) turns.now
            → IfOk result (λ cycles. KeepShare self.now.percent cycles.items) }
        ensures less { length turns.now ≤ 10_000
            → All (λ turn. as_nanos turn.walk * 1_000_000 < max_nanos) turns.now
            → IfOk result (λ cycles. (level : ℕ) × (cut_to level
            (map (λ turn. need_at (as_nanos interval) (as_nanos turn.walk)) turns.now)
            ≤ self.now.percent * 10_000) × All (λ it. TakesLess level it.turn.out
            (as_nanos it.turn.walk) (as_nanos it.pause)) cycles.items) }
    {
        let mut needs = Vec::with_capacity(alloc, turns.len())?;
        for turn in turns {
            needs.push(need_of(turn.walk, interval))?;
        }
        let level = level_of(&needs, self.millionths());
        let mut cycles = Vec::with_capacity(alloc, turns.len())?;
        for turn in turns {
            cycles.push(cycle_of(interval, level, *turn))?;
        }
        Ok(cycles)
    }

    /// The pause between two glances of one kind at a root, if the first took so long, there are so many roots, and this
    /// one sits out so many turns. It is no shorter than the interval, and the glances of that kind at all roots together
    /// take at most a quarter of this share.
    pub(crate) fn glance_pause(
        &self,
        interval: Duration,
        roots: usize,
        glance: Duration,
        out: u32,
    ) -> Duration
        ensures interval { as_nanos interval ≤ as_nanos result }
        ensures out { SitsOut out (as_nanos interval) (as_nanos glance) (as_nanos result) }
        ensures part { 1 ≤ roots → roots ≤ 2_500 → as_nanos glance * 1_000_000 < max_nanos →
            (part : ℕ) × (part * (4 * roots) ≤ self.now.percent * 10_000)
            × KeepsPart part (as_nanos glance) (as_nanos result)
            × TakesLess part out (as_nanos glance) (as_nanos result) }
    {
        let part = even_part(self.millionths(), (roots as u64).saturating_mul(4));
        let pause = longer(interval, rest_after(part, glance));
        sitting_out(out, glance, pause)
    }

    /// This share in millionths of a processor.
    fn millionths(&self) -> u64
        ensures { result ≡ self.now.percent * 10_000 }
    {
        u64::from(self.percent) * PERCENT
    }
}

/// How many millionths of a processor a root needs, if a walk of it takes so long and it is walked at each interval.
fn need_of(walk: Duration, interval: Duration) -> u64
    ensures { result ≡ need_at (as_nanos interval) (as_nanos walk) }
{
    let took = walk.as_nanos();
    let time = took + interval.as_nanos();
    if time == 0 {
        return 1;
    }
    let need = took * 1_000_000 / time + 1;
    if need > 1_000_000 { WHOLE } else { need as u64 }
}

/// How many millionths of a processor each of several roots may take, if these are their needs and they may take so many
/// together. A root that needs no more than an even part takes what it needs, and the others divide what is left evenly.
fn level_of(needs: &[u64], whole: u64) -> u64
    ensures kept { cut_to result needs.now ≤ whole }
    ensures few { result ≤ whole }
    ensures some { 1 ≤ whole → length needs.now ≤ whole → 1 ≤ result }
{
    let even = even_part(whole, needs.len() as u64);
    let mut left = whole;
    let mut others: u64 = 0;
    for need in needs {
        if *need <= even {
            left = left.saturating_sub(*need);
        } else {
            others += 1;
        }
    }
    if others == 0 { whole } else { left / others }
}

/// The even part of a whole among so many.
fn even_part(whole: u64, count: u64) -> u64
    ensures part { result * count ≤ whole }
    ensures some { 1 ≤ count → count ≤ whole → 1 ≤ result }
{
    if count == 0 { 0 } else { whole / count }
}

/// The cycle of a root with this turn, if no root takes more than so many millionths of a processor.
fn cycle_of(interval: Duration, level: u64, turn: Turn) -> Cycle
    ensures turn { result.turn ≡ turn }
    ensures interval { as_nanos interval ≤ as_nanos result.pause }
    ensures out { SitsOut turn.out (as_nanos interval) (as_nanos turn.walk) (as_nanos result.pause) }
    ensures part { 1 ≤ level → level ≤ 1_000_000 → as_nanos turn.walk * 1_000_000 < max_nanos →
        KeepsPart level (as_nanos turn.walk) (as_nanos result.pause) }
    ensures less { 1 ≤ level → level ≤ 1_000_000 → as_nanos turn.walk * 1_000_000 < max_nanos →
        TakesLess level turn.out (as_nanos turn.walk) (as_nanos result.pause) }
{
    let pause = longer(interval, rest_after(level, turn.walk));
    Cycle {
        turn,
        pause: sitting_out(turn.out, turn.walk, pause),
    }
}

/// The pause of a root that sits out so many turns, if the pause after a walk that took so long is else this one.
fn sitting_out(turns: u32, walk: Duration, pause: Duration) -> Duration
    ensures longer { as_nanos pause ≤ as_nanos result }
    ensures exact { pause_out turns (as_nanos walk) (as_nanos pause) ≤ max_nanos →
        as_nanos result ≡ pause_out turns (as_nanos walk) (as_nanos pause) }
    ensures out { min (pause_out turns (as_nanos walk) (as_nanos pause)) max_nanos ≤ as_nanos result }
{
    let turn = walk.saturating_add(pause);
    longer(pause, pause.saturating_add(turn.saturating_mul(turns)))
}

/// The shortest pause after a walk that took so long, with which the walks of a root take so many millionths of a
/// processor at most.
fn rest_after(part: u64, walk: Duration) -> Duration
    ensures { 1 ≤ part → part ≤ 1_000_000 → as_nanos walk * 1_000_000 < max_nanos →
        KeepsPart part (as_nanos walk) (as_nanos result) }
{
    if part == 0 || part > WHOLE {
        return Duration::ZERO;
    }
    let rest = walk.saturating_mul((WHOLE - part) as u32) / part as u32;
    rest.saturating_add(Duration::from_nanos(1))
}

/// The longer one of two times.
fn longer(first: Duration, second: Duration) -> Duration
    ensures first { as_nanos first ≤ as_nanos result }
    ensures second { as_nanos second ≤ as_nanos result }
    ensures either { (result ≡ first) ⊎ (result ≡ second) }
{
    first.max(second)
}
