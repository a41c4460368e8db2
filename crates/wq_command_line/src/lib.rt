//! The command line of the program: the task that its words ask for, and the settings of the server.
#![tactic(auto)]

mod fault;
mod settings;
mod task;

pub use fault::CommandLineFault;
pub use settings::{Interval, Settings};
pub use task::{Action, task_of};
