//! Instances: the run of the server and the root to which a clock id belongs.
ghost use Rattle.std.specs.Prelude.{◌≡◌, ◌≤◌};
ghost use Rattle.wq_base.specs.Limit.{max_number};

use wq_base::MAX_NUMBER;

/// One run of the server that watches one root. Ticks of different instances cannot be compared.
///
/// Each number is at most [`MAX_NUMBER`].
#[derive(Clone, Copy, Debug, PartialEq, Eq)]
pub struct Instance {
    /// The second of the Unix epoch at which the server started.
    pub start: u64,
    /// The server's process.
    pub pid: u64,
    /// The number of the root in this run. No later watch of the same path gets the same number.
    pub root: u64,
    ghost start_in_range: { start ≤ max_number },
    ghost pid_in_range: { pid ≤ max_number },
    ghost root_in_range: { root ≤ max_number },
}

impl Instance {
    ghost use Rattle.wq_clock.specs.Instance.{instance_data};

    /// The instance of these numbers.
    pub const fn new(start: u64, pid: u64, root: u64) -> Instance
        requires start { start ≤ MAX_NUMBER }
        requires pid { pid ≤ MAX_NUMBER }
        requires root { root ≤ MAX_NUMBER }
        ensures { instance_data result ≡ record { start = start; pid = pid; root = root } }
    {
        Instance { start, pid, root }
    }
}
