//! The task that the command line asks for.

use crate::fault::CommandLineFault;
use crate::settings::Settings;
use clap::{Arg, Command};
use std::alloc::{AllocError, Global};

/// The task that the command line asks for.
#[derive(Drop)]
pub enum Action {
    /// Replay a script.
    Replay,
    /// Say what the program file of this path is.
    Check(String),
    /// Say the path of the socket that `serve` of the same words has.
    Sockname(String),
    /// Serve clients.
    Serve(Settings),
}

/// The task that these words ask for. The first of them is the program's name.
///
/// # Errors
/// The words ask for no task or for help, or memory ran out.
pub fn task_of(alloc: Global, words: &[String]) -> Result<Action, CommandLineFault> {
    let matches = match command(alloc)?.try_get_matches_from(words) {
        Ok(matches) => matches,
        Err(error) => return Err(CommandLineFault::of(&error)),
    };
    match matches.subcommand() {
        Some(("replay", _)) => Ok(Action::Replay),
        Some(("check", given)) => match given.get_str("file") {
            Some(path) => Ok(Action::Check(String::from_str(alloc, path)?)),
            None => Err(CommandLineFault::Wrong),
        },
        Some(("sockname", given)) => Ok(Action::Sockname(Settings::of(alloc, given)?.sockname)),
        Some(("serve", given)) => Ok(Action::Serve(Settings::of(alloc, given)?)),
        _ => Err(CommandLineFault::Wrong),
    }
}

/// The words of all tasks.
fn command<'a>(alloc: Global) -> Result<Command<'a>, AllocError> {
    let file = Arg::new(alloc, "file").required(true);
    Command::new(alloc, "wqd")
        .subcommand_required(true)
        .subcommand(Command::new(alloc, "replay"))?
        .subcommand(Command::new(alloc, "check").arg(file)?)?
        .subcommand(Settings::command(alloc, "sockname")?)?
        .subcommand(Settings::command(alloc, "serve")?)
}
