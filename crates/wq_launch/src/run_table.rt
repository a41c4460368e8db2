//! The numbers of the commands that run.
ghost use Rattle.std.specs.Prelude.{◌≡◌, ◌+◌, ◌≤◌, IfOk, [], vec_capacity, vec_len};
ghost use Rattle.wq_launch.specs.Limit.{max_runs};
ghost use Rattle.wq_launch.specs.Runs.{GivesNumber, first_free, is_running, number_after};
ghost use Rattle.wq_launch.specs.Runs.{without_run};

use std::alloc::{AllocError, Global};
use std::marker::Model;

/// How many commands may run at once.
pub const MAX_RUNS: usize = 1024;

/// The receipt that the number of a run was given back. Only the table makes one.
#[derive(Drop)]
pub(crate) struct EndedRun {
    number: u32,
}

/// The numbers of the commands that run.
#[derive(Drop)]
pub(crate) struct RunTable {
    /// The number that was given last.
    last: u32,
    running: Vec<u32>,
}

impl Model for RunTable {
    ghost use Rattle.std.specs.Prelude.{◌≤◌, vec_capacity, vec_len};
    ghost use Rattle.wq_launch.specs.Limit.{max_runs};
    ghost use Rattle.wq_launch.specs.Runs.{RunsData};

    ghost Value = { RunsData };

    ghost view = { λ t. record { last = t.last; running = t.running.items } };

    ghost invariant = { λ t. (vec_len t.running ≤ max_runs)
        × (max_runs ≤ vec_capacity t.running) };
}

impl RunTable {
    /// No command runs, and there is room for as many as may.
    pub(crate) fn new(alloc: Global) -> Result<RunTable, AllocError>
        ensures { IfOk result (λ t. t ≡ record { last = 0; running = [] }) }
    {
        Ok(RunTable {
            last: 0,
            running: Vec::with_capacity(alloc, MAX_RUNS)?,
        })
    }

    /// Whether the command of this number runs.
    pub(crate) fn has(&self, run: u32) -> bool
        ensures { result ≡ is_running run self.now.running }
    {
        self.running.contains(&run)
    }

    /// The first number after the last one that no running command has.
    #[tactic(auto, using(crate::proofs::Searches::goes_on, crate::proofs::Searches::found, crate::proofs::Searches::none_left))]
    fn free(&self) -> Option<u32>
        ensures { result ≡ first_free (max_runs + 1) (number_after self.now.last)
            self.now.running }
    {
        let mut number = self.last;
        for _ in 0..=MAX_RUNS {
            number = number.wrapping_add(1);
            if !self.has(number) {
                return Some(number);
            }
        }
        None
    }

    /// Gives the next command its number, unless as many run as may.
    pub(crate) fn begin(&mut self) -> Option<u32>
        ensures { GivesNumber self.old result self.new }
    {
        if self.running.len() >= MAX_RUNS {
            return None;
        }
        let number = self.free()?;
        self.running.push_reserved(number);
        self.last = number;
        Some(number)
    }

    /// How many commands run.
    pub(crate) fn len(&self) -> usize {
        self.running.len()
    }

    /// Takes the number of a command that no longer runs out of the list.
    pub(crate) fn end(&mut self, run: u32) -> EndedRun
        ensures receipt { result.number ≡ run }
        ensures others { self.new ≡ record {
          last = self.old.last;
          running = without_run run self.old.running;
        } }
    {
        drop_number(&mut self.running, run);
        EndedRun { number: run }
    }
}

/// Takes a number out of a list.
fn drop_number(running: &mut Vec<u32>, run: u32)
    ensures others { running.new.items ≡ without_run run running.old.items }
    ensures shorter { vec_len running.new ≤ vec_len running.old }
    ensures room { vec_capacity running.new ≡ vec_capacity running.old }
{
    running.retain(|it| *it != run);
}
