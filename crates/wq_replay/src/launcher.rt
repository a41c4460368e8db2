//! A launcher in memory: it starts nothing, answers each start as it was told to, and keeps the starts that it got.
ghost use Rattle.std.specs.Prelude.{◌≡◌, OnOk, Some};
ghost use Rattle.wq_follow.specs.Launcher.{later_answers, next_answer, with_run};
ghost use Rattle.wq_replay.specs.Launched.{launcher_shown, runs_data, with_tried};
ghost use Rattle.wq_replay.specs.Runs.{launcher_at};

use crate::runs::RunSet;
use std::alloc::{AllocError, Global};
use wq_follow::{Launch, LaunchFault, Start};

/// A start that was tried.
#[derive(Drop)]
pub(crate) struct Tried {
    pub(crate) start: Start,
    /// The number of its run, unless it failed.
    pub(crate) run: Option<u32>,
}

/// A launcher in memory.
#[derive(Drop)]
pub(crate) struct MemoryLauncher {
    /// The answers to the starts to come: the number of a run, or none if the start fails. A start without an answer
    /// fails.
    pub(crate) answers: Vec<Option<u32>>,
    /// The runs that go on.
    pub(crate) runs: RunSet,
    /// The starts that it got.
    pub(crate) tried: Vec<Tried>,
    /// Whether memory ran out for a start.
    pub(crate) spent: bool,
    /// How often it failed.
    pub(crate) failures: u64,
}

impl MemoryLauncher {
    /// A launcher with these runs, which got no start yet and gives these answers.
    pub(crate) fn new(alloc: Global, runs: RunSet, answers: Vec<Option<u32>>) -> MemoryLauncher
        ensures { launcher_shown result ≡ Some (launcher_at answers.items (runs_data runs)) }
    {
        MemoryLauncher {
            answers,
            runs,
            tried: Vec::new(alloc),
            spent: false,
            failures: 0,
        }
    }

    /// Keeps a start, and its run if it has one.
    fn keep(&mut self, start: Start, run: Option<u32>) -> Result<(), AllocError>
        ensures tried { OnOk result
            (self.new.tried.items ≡ with_tried start run self.old.tried.items) }
        ensures runs { OnOk result
            (runs_data self.new.runs ≡ with_run run (runs_data self.old.runs)) }
        ensures answers { self.new.answers ≡ self.old.answers }
        ensures spent { self.new.spent ≡ self.old.spent }
        ensures failures { self.new.failures ≡ self.old.failures }
    {
        self.runs.keep(run)?;
        self.tried.push(Tried { start, run })?;
        Ok(())
    }
}

/// Takes the next answer out. There is none if no answer is left.
fn next_answer(answers: &mut Vec<Option<u32>>) -> Option<u32>
    ensures next { result ≡ next_answer answers.old.items }
    ensures later { answers.new.items ≡ later_answers answers.old.items }
{
    if answers.is_empty() {
        return None;
    }
    answers.remove(0)
}

impl Launch for MemoryLauncher {
    ghost use Rattle.wq_replay.specs.Launched.{launcher_shown};

    ghost failures_of = { λ l. l.failures };

    ghost shown = { λ l. launcher_shown l };

    fn start(&mut self, start: Start) -> Result<u32, LaunchFault> {
        let run = next_answer(&mut self.answers);
        if self.keep(start, run).is_err() {
            self.spent = true;
        }
        match run {
            Some(run) => Ok(run),
            None => {
                self.failures = self.failures.saturating_add(1);
                Err(LaunchFault)
            }
        }
    }

    fn ended(&mut self, run: u32) -> bool {
        !self.runs.has(run)
    }

    fn failures(&self) -> u64 {
        self.failures
    }
}
