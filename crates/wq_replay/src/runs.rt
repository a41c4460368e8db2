//! The commands of triggers that run in a world. The world starts nothing: a run has a number, and goes on until a
//! happening ends it.
ghost use Rattle.std.specs.Prelude.{◌≡◌, OnOk, [], nat_eq};
ghost use Rattle.std.specs.List.{list_any};
ghost use Rattle.wq_follow.specs.Launcher.{with_run};
ghost use Rattle.wq_replay.specs.Launched.{runs_data};
ghost use Rattle.wq_replay.specs.Runs.{other_runs};

use std::alloc::{AllocError, Global};

/// The commands that run.
#[derive(Drop)]
pub(crate) struct RunSet {
    /// The numbers of the runs that go on. Runs may have the same number.
    pub(crate) running: Vec<u32>,
}

impl RunSet {
    /// No command runs.
    pub(crate) fn new(alloc: Global) -> RunSet
        ensures { runs_data result ≡ [] }
    {
        RunSet {
            running: Vec::new(alloc),
        }
    }

    /// Keeps a run, if there is one, before the others.
    pub(crate) fn keep(&mut self, run: Option<u32>) -> Result<(), AllocError>
        ensures { OnOk result (runs_data self.new ≡ with_run run (runs_data self.old)) }
    {
        if let Some(run) = run {
            self.running.insert(0, run)?;
        }
        Ok(())
    }

    /// Whether a run of this number goes on.
    pub(crate) fn has(&self, run: u32) -> bool
        ensures { result ≡ list_any (λ r. nat_eq run r) (runs_data self.now) }
    {
        self.running.iter().any(|it| run == *it)
    }

    /// Ends the runs of this number.
    pub(crate) fn end(&mut self, run: u32)
        ensures { runs_data self.new ≡ other_runs run (runs_data self.old) }
    {
        self.running.retain(|it| run != *it);
    }
}
