//! Runs of the server.
ghost use Rattle.std.specs.Prelude.{◌≡◌, ◌≤◌};
ghost use Rattle.wq_base.specs.Limit.{max_number};

use crate::instance::Instance;
use wq_base::MAX_NUMBER;

/// One run of the server. Each number is at most [`MAX_NUMBER`].
#[derive(Clone, Copy, Debug, PartialEq, Eq)]
pub struct Run {
    /// The second of the Unix epoch at which the server started.
    pub start: u64,
    /// The server's process.
    pub pid: u64,
    ghost start_in_range: { start ≤ max_number },
    ghost pid_in_range: { pid ≤ max_number },
}

impl Run {
    ghost use Rattle.wq_clock.specs.Instance.{instance_data};
    ghost use Rattle.wq_clock.specs.Run.{instance_of, run_data};

    /// The run of these numbers.
    pub const fn new(start: u64, pid: u64) -> Run
        requires start { start ≤ MAX_NUMBER }
        requires pid { pid ≤ MAX_NUMBER }
        ensures { run_data result ≡ record { start = start; pid = pid } }
    {
        Run { start, pid }
    }

    /// The root of this number in this run.
    pub fn instance(self, root: u64) -> Instance
        requires { root ≤ MAX_NUMBER }
        ensures { instance_data result ≡ instance_of (run_data self) root }
    {
        Instance::new(self.start, self.pid, root)
    }
}
