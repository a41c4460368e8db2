//! Idle moments: the roots for which sessions get one, and the thread that puts them into their
//! queues.
ghost use Rattle.std.specs.Prelude.{◌≡◌, ◌+◌, ◌-◌, ◌++◌, IfOk, IfSome};
ghost use Rattle.std.specs.List.{range_with_len};

use crate::host::Host;
use crate::server::Server;
use std::alloc::{AllocError, Global};
use std::sync::Wait;
use std::time::Clock;

/// The roots at some moment.
#[derive(Drop)]
pub struct RootNumbers {
    /// The numbers of the roots that are shown.
    pub shown: Vec<u64>,
    /// How many roots were ever started, which is the number of the last one.
    pub given: u64,
}

impl RootNumbers {
    /// The numbers for which there is an idle moment when so many roots were ever started. First
    /// come those that were shown at this moment, and then those that were given since. No number
    /// is used again, so each root that is shown by then is among them.
    fn due(&self, given: u64) -> Result<Vec<u64>, AllocError>
        ensures { IfOk result (λ due. due.items
            ≡ self.now.shown.items ++ range_with_len (self.now.given + 1)
            (given - self.now.given)) }
    {
        let mut due = self.shown.clone()?;
        for last in self.given..given {
            due.push(last + 1)?;
        }
        Ok(due)
    }
}

/// After each round of crawls, puts an idle moment for each due root into the queue of each
/// session, until the server ends. If a round takes longer than an interval, there is a moment
/// before it ends. If rounds have a share, there is none while no client is connected.
///
/// If memory runs out for the roots, their moments are due a round later.
pub(crate) fn bring_moments<R, H>(rt: &R, alloc: Global, server: &Server<H>)
where
    R: Wait + Clock,
    H: Host + Drop,
{
    let patience = server.pace.interval.saturating_mul(2);
    // No root was started yet, and the pulse has not beaten.
    let mut then = RootNumbers {
        shown: Vec::new(alloc),
        given: 0,
    };
    let mut beats = 0;
    for _ in rt.forever() {
        if server.pace.share.is_some() {
            server.links.wait_for_any(rt, &server.stop);
        }
        beats = server.pulse.wait(rt, &server.stop, beats, patience);
        if server.stop.is_asked(rt) {
            return;
        }
        if let Some((now, due)) = due_by_now(&server.host, &then)
            && server.links.put_moments(rt, &due)
        {
            then = now;
        }
    }
}

/// The roots at this moment, and the numbers that are due since then; none if memory runs out.
fn due_by_now<H: Host>(host: &H, then: &RootNumbers) -> Option<(RootNumbers, Vec<u64>)>
    ensures { IfSome result (λ it. it.1.items ≡ then.now.shown.items
        ++ range_with_len (then.now.given + 1) (it.0.given - then.now.given)) }
{
    let now = host.numbers()?;
    let due = then.due(now.given).ok()?;
    Some((now, due))
}
