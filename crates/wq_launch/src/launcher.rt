//! The launcher of commands. The caller takes the commands that it started, and has a thread attend
//! each of them.
ghost use Rattle.std.specs.Prelude.{◌≡◌, ◌<◌, ◌++◌, [], None, IfErr, IfOk, OnErr, OnOk};
ghost use Rattle.std.specs.Prelude.{length, option_to_list, OnSome};
ghost use Rattle.wq_follow.specs.Launcher.{Rose, StartsRun, run_of};
ghost use Rattle.wq_follow.specs.Started.{env_data, start_data};
ghost use Rattle.wq_launch.specs.FailingStarts.{TellsFirst, after_success};
ghost use Rattle.wq_launch.specs.Launching.{KeepsFailure, given_back, with_spawned, with_waiting};
ghost use Rattle.wq_launch.specs.Limit.{max_runs};

use crate::failures::{FailedStart, FailingStarts};
use crate::run::StartedCommand;
use crate::run_table::MAX_RUNS;
use crate::runs::Runs;
use crate::system::Spawn;
use crate::words::Words;
use std::alloc::{AllocError, Global};
use std::io;
use std::marker::Model;
use std::process::Child;
use std::sync::{Arc, Wait};
use wq_base::Text;
use wq_follow::{Env, Launch, LaunchFault, Start};

/// Starts commands, and keeps each until somebody takes it to attend it. Contracts see the commands that it started, if
/// these are shown, and those that it keeps, how often it failed, and the starts that fail.
#[derive(Drop)]
pub struct Launcher<S: Spawn + Drop, R: Wait + Drop> {
    spawn: S,
    rt: R,
    alloc: Global,
    runs: Arc<Runs>,
    waiting: Vec<StartedCommand>,
    failures: u64,
    failing: FailingStarts,
}

impl<S: Spawn + Drop, R: Wait + Drop> Model for Launcher<S, R> {
    ghost use Rattle.std.specs.Prelude.{◌≤◌, vec_capacity, vec_len};
    ghost use Rattle.wq_launch.specs.Launching.{LauncherNow};
    ghost use Rattle.wq_launch.specs.Limit.{max_runs};

    ghost Value = { LauncherNow };

    ghost view = { λ l. record {
      spawned = S.spawned l.spawn;
      waiting = l.waiting.items;
      failures = l.failures;
      failing = l.failing;
    } };

    ghost invariant = { λ l. (vec_len l.waiting ≤ max_runs) × (max_runs ≤ vec_capacity l.waiting) };
}

impl<S: Spawn + Drop, R: Wait + Drop> Launcher<S, R> {
    /// A launcher that started nothing yet. It gives the numbers of these runs.
    pub fn new(
        spawn: S,
        rt: R,
        alloc: Global,
        runs: Arc<Runs>,
    ) -> Result<Launcher<S, R>, AllocError>
        ensures { IfOk result (λ l. l ≡ record {
          spawned = S.spawned spawn;
          waiting = [];
          failures = 0;
          failing = record { told = []; untold = [] };
        }) }
    {
        Ok(Launcher {
            spawn,
            rt,
            alloc,
            runs,
            waiting: Vec::with_capacity(alloc, MAX_RUNS)?,
            failures: 0,
            failing: FailingStarts::new(alloc)?,
        })
    }

    /// Takes the first command that nobody attends yet.
    pub fn take(&mut self) -> Option<StartedCommand>
        ensures first { self.old.waiting ≡ option_to_list result ++ self.new.waiting }
        ensures spawned { self.new.spawned ≡ self.old.spawned }
        ensures failures { self.new.failures ≡ self.old.failures }
        ensures failing { self.new.failing ≡ self.old.failing }
    {
        if self.waiting.is_empty() {
            return None;
        }
        Some(self.waiting.remove(0))
    }

    /// Keeps a command that could not be attended, until it is taken again. It is the last one then.
    pub fn give_back(&mut self, run: StartedCommand)
        ensures kept { self.new.waiting ≡ given_back run self.old.waiting }
        ensures spawned { self.new.spawned ≡ self.old.spawned }
        ensures failures { self.new.failures ≡ self.old.failures }
        ensures failing { self.new.failing ≡ self.old.failing }
    {
        if self.waiting.len() < MAX_RUNS {
            self.waiting.push_reserved(run);
        }
    }

    /// The line for the first start that failed and of which the operator was not told yet. From now
    /// on he was told, unless memory ran out.
    ///
    /// A start that fails again is told of again only if the words for the fault are others, or if
    /// one succeeded meanwhile.
    pub fn next_line(&mut self) -> Result<Option<Text>, AllocError>
        ensures ok { IfOk result (λ line. TellsFirst self.old.failing line self.new.failing) }
        ensures err { OnErr result (self.new.failing ≡ self.old.failing) }
        ensures spawned { self.new.spawned ≡ self.old.spawned }
        ensures failures { self.new.failures ≡ self.old.failures }
        ensures waiting { self.new.waiting ≡ self.old.waiting }
    {
        self.failing.next_line(self.alloc)
    }

    /// Starts a command under a number of its own, and once.
    fn begin(&mut self, start: &Start) -> io::Result<(u32, Child)>
        ensures ok { OnOk result (self.new.spawned
            ≡ with_spawned (start_data start.now) self.old.spawned) }
        ensures err { OnErr result (self.new.spawned ≡ self.old.spawned) }
        ensures room { OnOk result (length self.new.waiting < max_runs) }
        ensures waiting { self.new.waiting ≡ self.old.waiting }
        ensures failures { self.new.failures ≡ self.old.failures }
        ensures failing { self.new.failing ≡ self.old.failing }
    {
        let Some(number) = self.next_number(start.input.len()) else {
            return Err(io::Error::new(io::ErrorKind::ResourceBusy, "too many commands run"));
        };
        match self.spawn.spawn(self.alloc, start) {
            Ok(child) => Ok((number, child)),
            Err(error) => {
                self.runs.end_input(&self.rt, start.input.len());
                self.runs.end(&self.rt, number);
                Err(error)
            }
        }
    }

    /// A number for a command that is to run with an input of so many bytes. There is room for it among those that wait.
    fn next_number(&self, input: usize) -> Option<u32>
        ensures { OnSome result (length self.now.waiting < max_runs) }
    {
        if self.waiting.len() < MAX_RUNS {
            self.runs.begin(&self.rt, input)
        } else {
            None
        }
    }

    /// Keeps the reason why a start of a trigger failed.
    fn fail(&mut self, env: Env, error: &io::Error)
        ensures failing { KeepsFailure (env_data env) self.old.failing self.new.failing }
        ensures spawned { self.new.spawned ≡ self.old.spawned }
        ensures failures { self.new.failures ≡ self.old.failures }
        ensures waiting { self.new.waiting ≡ self.old.waiting }
    {
        self.failing.add(FailedStart {
            root: env.root,
            trigger: env.trigger,
            words: Words::of(error),
        });
    }
}

impl<S: Spawn + Drop, R: Wait + Drop> Launch for Launcher<S, R> {
    ghost use Rattle.std.specs.Prelude.{None};

    ghost failures_of = { λ l. l.failures };

    ghost shown = { λ l. None };

    fn start(&mut self, start: Start) -> Result<u32, LaunchFault>
        ensures counted { IfErr result (λ _. Rose self.old.failures self.new.failures) }
        ensures told { StartsRun None (start_data start) (run_of result) None }
        ensures spawned { OnOk result (self.new.spawned
            ≡ with_spawned (start_data start) self.old.spawned) }
        ensures unspawned { OnErr result (self.new.spawned ≡ self.old.spawned) }
        ensures waiting { self.new.waiting
            ≡ with_waiting (start_data start) result self.old.waiting }
        ensures ok { OnOk result ((self.new.failures ≡ self.old.failures)
            × (self.new.failing ≡ after_success start.env.root start.env.trigger
            self.old.failing)) }
        ensures err { OnErr result (KeepsFailure (start_data start).env self.old.failing
            self.new.failing) }
    {
        match self.begin(&start) {
            Ok((number, child)) => {
                let Start {
                    args: _,
                    env,
                    input,
                } = start;
                self.failing.remove(env.root.as_str(), env.trigger.as_str());
                self.waiting.push_reserved(StartedCommand {
                    number,
                    child,
                    input,
                    root: env.root,
                    trigger: env.trigger,
                });
                Ok(number)
            }
            Err(error) => {
                self.failures = self.failures.saturating_add(1);
                self.fail(start.env, &error);
                Err(LaunchFault)
            }
        }
    }

    fn ended(&mut self, run: u32) -> bool
        ensures { self.new ≡ self.old }
    {
        !self.runs.has(&self.rt, run)
    }

    fn failures(&self) -> u64 {
        self.failures
    }
}
