//! The machine's clock, which gives the second of a pass.
ghost use Rattle.std.specs.Prelude.{◌≡◌, ℤ, Option, int_le, pos, true};
ghost use Rattle.wq_crawl.specs.Second.{next_second};

use crate::seconds::Seconds;
use std::marker::Model;
use std::time::{Clock, SystemTime, UNIX_EPOCH};
use wq_base::MAX_NUMBER;

/// The seconds of the Unix epoch, as the machine's clock shows them. They never fall: the last second comes again if
/// that clock was set back, cannot be read or is before the epoch. So a client that asks for changes since a second may
/// get too many, and misses none. Contracts see the last second that was given. It is 0 before the first.
#[derive(Drop)]
pub struct MachineClock<R: Clock + Drop> {
    rt: R,
    last: i64,
}

impl<R: Clock + Drop> Model for MachineClock<R> {
    ghost use Rattle.std.specs.Prelude.{ℤ};

    ghost Value = { ℤ };

    ghost view = { λ c. c.last };
}

impl<R: Clock + Drop> MachineClock<R> {
    /// A clock that gave no second yet.
    pub fn new(rt: R) -> MachineClock<R>
        ensures { result ≡ pos 0 }
    {
        MachineClock { rt, last: 0 }
    }

    /// The present second.
    fn now(&self) -> Option<i64> {
        let now = SystemTime::now(&self.rt).ok()?;
        let since = now.duration_since(UNIX_EPOCH).ok()?;
        Some(since.as_secs().min(MAX_NUMBER) as i64)
    }
}

/// The second that the clock gives after the last one: the machine's second, if it is read and not earlier, or else the
/// last one again.
fn next_second(last: i64, now: Option<i64>) -> i64
    ensures next { result ≡ next_second last now }
    ensures rises { int_le last result ≡ true }
{
    match now {
        Some(now) if last <= now => now,
        _ => last,
    }
}

impl<R: Clock + Drop> Seconds for MachineClock<R> {
    fn second(&mut self) -> i64
        ensures rises { int_le self.old result ≡ true }
        ensures told { self.new ≡ result }
        ensures next { (now : Option ℤ) × (result ≡ next_second self.old now) }
    {
        let now = self.now();
        self.last = next_second(self.last, now);
        self.last
    }
}
