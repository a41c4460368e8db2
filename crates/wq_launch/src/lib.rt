//! Starts the commands of triggers by the system, and hears of their ends.
//!
//! A [`Launcher`] starts commands and keeps them. Its caller takes each of them afterwards and has
//! a thread attend it ([`attend`]), and tells the operator its lines.
#![tactic(auto)]

mod attendant;
mod command;
mod failures;
mod inputs;
mod launcher;
mod law;
mod notices;
mod run;
mod run_table;
mod runs;
mod system;
mod words;

pub use attendant::attend;
pub use inputs::MAX_INPUT_BYTES;
pub use launcher::Launcher;
pub use law::numbers_are_free;
pub use notices::Notices;
pub use run::StartedCommand;
pub use run_table::MAX_RUNS;
pub use runs::Runs;
pub use system::{Spawn, System};
