//! Starting a command by the system.
ghost use Rattle.std.specs.Prelude.{◌≡◌, OnErr, OnOk};
ghost use Rattle.wq_follow.specs.Started.{start_data};
ghost use Rattle.wq_launch.specs.Launching.{with_spawned};

use crate::command::command_of;
use std::alloc::Global;
use std::io;
use std::process::{Child, Processes, SystemProcess};
use wq_follow::Start;

/// Starts commands, which then run beside the server. It may show the commands that it started.
pub trait Spawn {
    ghost use Rattle.std.specs.Prelude.{List, Option};
    ghost use Rattle.wq_follow.specs.Start.{StartData};

    // The commands that it started so far, if they are shown.
    ghost spawned: { Self → Option (List StartData) };

    /// Starts a command. If its input is empty, then so is its standard input.
    fn spawn(&mut self, alloc: Global, start: &Start) -> io::Result<Child>
        ensures ok { OnOk result (spawned self.new
            ≡ with_spawned (start_data start.now) (spawned self.old)) }
        ensures err { OnErr result (spawned self.new ≡ spawned self.old) };

    /// How many commands may be there at once whose input is not written yet. Each takes a handle of the server.
    fn most_inputs(&self) -> usize;
}

/// The system, which starts each command in the directory of its root.
#[derive(Drop)]
pub struct System<P: Processes<Started = SystemProcess> + Drop> {
    processes: P,
    most_inputs: usize,
}

impl<P: Processes<Started = SystemProcess> + Drop> System<P> {
    /// Commands are started by this handle, of a process that may have so many handles. Most of them may be pipes to
    /// commands: a quarter is enough if there are few, and 256 stay free if there are many.
    pub fn new(processes: P, handles: usize) -> System<P> {
        let free = (handles - handles / 4).min(256);
        System {
            processes,
            most_inputs: handles - free,
        }
    }
}

impl<P: Processes<Started = SystemProcess> + Drop> Spawn for System<P> {
    ghost use Rattle.std.specs.Prelude.{None};

    ghost spawned = { λ _. None };

    fn spawn(&mut self, alloc: Global, start: &Start) -> io::Result<Child> {
        command_of(alloc, start)?.spawn(&self.processes)
    }

    fn most_inputs(&self) -> usize {
        self.most_inputs
    }
}
