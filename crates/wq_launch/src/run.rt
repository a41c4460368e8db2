//! A command that was started.
ghost use Rattle.std.specs.Prelude.{◌≡◌};

use std::marker::Model;
use std::process::Child;
use wq_base::{Table, Text};

/// A command that was started, and that nobody attends yet. Contracts see the number that its start
/// gave, and its input.
#[derive(Drop)]
pub struct StartedCommand {
    pub(crate) number: u32,
    pub(crate) child: Child,
    pub(crate) input: Table<u8>,
    pub(crate) root: Text,
    pub(crate) trigger: Text,
}

impl Model for StartedCommand {
    ghost use Rattle.wq_launch.specs.StartedRun.{StartedRun};

    ghost Value = { StartedRun };

    ghost view = { λ r. record { number = r.number; input = r.input } };
}

impl StartedCommand {
    /// The number by which its end is told.
    pub fn number(&self) -> u32
        ensures { result ≡ self.now.number }
    {
        self.number
    }
}
