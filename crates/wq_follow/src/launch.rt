//! The launcher, which starts the commands of triggers. `wq_launch` implements it.
ghost use Rattle.std.specs.Prelude.{◌≡◌, IfErr, OnOk};
ghost use Rattle.wq_follow.specs.Launcher.{EndsRun, Rose, StartsRun, run_of};
ghost use Rattle.wq_follow.specs.Started.{start_data};

use crate::start::Start;
use thiserror::Error;

/// A command could not be started.
#[derive(Clone, Copy, Debug, PartialEq, Eq, Drop, Error)]
#[error("the command could not be started")]
pub struct LaunchFault;

/// A launcher starts commands.
///
/// It may show its answers, and the starts that it was given.
pub trait Launch {
    ghost use Rattle.std.specs.Prelude.{ℕ, Option};
    ghost use Rattle.wq_follow.specs.Launcher.{LauncherData};

    // How often it failed so far.
    ghost failures_of: { Self → ℕ };

    // The launcher that it shows, if any.
    ghost shown: { Self → Option LauncherData };

    /// Starts a command, and gives the number of its run. If it fails, then the count of failures
    /// rose in this call, or it is at the greatest number that can be told. Else the count stays.
    fn start(&mut self, start: Start) -> Result<u32, LaunchFault>
        ensures counted { IfErr result (λ _. Rose (failures_of self.old) (failures_of self.new)) }
        ensures kept { OnOk result (failures_of self.new ≡ failures_of self.old) }
        ensures told { StartsRun (shown self.old) (start_data start) (run_of result)
            (shown self.new) };

    /// Whether the run that was given this number last has ended.
    fn ended(&mut self, run: u32) -> bool
        ensures told { EndsRun (shown self.old) run result (shown self.new) }
        ensures counted { failures_of self.new ≡ failures_of self.old };

    /// How often it failed so far.
    fn failures(&self) -> u64
        ensures { result ≡ failures_of self.now };
}
