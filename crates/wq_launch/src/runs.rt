//! The commands that run, and the inputs that are not written yet.
ghost use Rattle.std.specs.Prelude.{◌≡◌};

use crate::inputs::Inputs;
use crate::run_table::{EndedRun, RunTable};
use std::alloc::{AllocError, Global};
use std::sync::{Mutex, Wait};

/// The commands that run. Threads share it.
#[derive(Drop)]
pub struct Runs {
    table: Mutex<RunTable>,
    inputs: Mutex<Inputs>,
}

impl Runs {
    /// No command runs, and so many inputs may wait at once until they are written. All memory that it ever needs is taken
    /// now.
    pub fn new(alloc: Global, most_inputs: usize) -> Result<Runs, AllocError> {
        Ok(Runs {
            table: Mutex::new(RunTable::new(alloc)?),
            inputs: Mutex::new(Inputs::new(most_inputs)),
        })
    }

    /// A number for a command that is to run with an input of so many bytes, unless as many run as may, or the inputs that
    /// wait leave no room for it.
    pub(crate) fn begin<R: Wait>(&self, rt: &R, input: usize) -> Option<u32> {
        if !self.inputs.lock(rt).take(input) {
            return None;
        }
        let number = self.table.lock(rt).begin();
        if number.is_none() {
            self.end_input(rt, input);
        }
        number
    }

    /// An input of so many bytes was written, or is not needed.
    pub(crate) fn end_input<R: Wait>(&self, rt: &R, input: usize) {
        self.inputs.lock(rt).end(input);
    }

    /// The command of this number no longer runs.
    pub(crate) fn end<R: Wait>(&self, rt: &R, run: u32) -> EndedRun
        ensures { result.number ≡ run }
    {
        self.table.lock(rt).end(run)
    }

    /// Whether the command of this number runs.
    pub(crate) fn has<R: Wait>(&self, rt: &R, run: u32) -> bool {
        self.table.lock(rt).has(run)
    }

    /// How many commands run, those too that nobody attends yet.
    pub fn count<R: Wait>(&self, rt: &R) -> usize {
        self.table.lock(rt).len()
    }
}
