//! The file watch server's program: files, standard streams and exit statuses. `wq_command_line` reads its words,
//! `wq_server` has the server's threads and `wq_daemon` their work, `wq_walk` walks trees for it and `wq_launch` starts
//! commands for it; `wq_replay` replays a script, and `wq_verify` describes program files.
#![tactic(auto)]

mod handles;
mod lanes;
mod machine;

use handles::most_handles;
use lanes::lanes;
use machine::{Machine, StandardError, cannot_listen, serve};
use std::env;
use std::fs::File;
use std::io::{self, BufReader, BufWriter, ErrorKind, Read, Write};
use std::process::ExitCode;
use wq_command_line::{Action, CommandLineFault, task_of};
use wq_launch::System;
use wq_replay::{ReplayFault, replay};
use wq_verify::{FAULT, MAX_FILE, check};

/// The exit status after a wrong command line.
const WRONG_COMMAND_LINE: u8 = 2;

fn main(rt: HostRuntime) -> ExitCode {
    match task(&rt) {
        Ok(Action::Replay) => replay_status(&rt, replay_script(&rt)),
        Ok(Action::Check(path)) => ExitCode::from(check_file(&rt, &path)),
        Ok(Action::Sockname(path)) => say(&rt, &path),
        Ok(Action::Serve(settings)) => {
            let Ok((first, more)) = lanes(&rt, rt, settings.walkers) else {
                return cannot_listen(&rt);
            };
            let machine = Machine {
                first,
                more,
                notices: StandardError { rt },
                spawn: System::new(rt, most_handles(&rt)),
            };
            serve(&rt, rt, machine, settings)
        }
        Err(CommandLineFault::Wrong) => {
            eprintln!(rt; "wqd: wrong command line").ok();
            ExitCode::from(WRONG_COMMAND_LINE)
        }
        Err(CommandLineFault::NoMemory) => replay_status(&rt, Err(ReplayFault::Memory)),
    }
}

/// The task that the command line asks for, if its words are in UTF-8 and ask for a task.
fn task(rt: &HostRuntime) -> Result<Action, CommandLineFault> {
    let alloc = rt.alloc();
    let mut words = Vec::new(alloc);
    match env::args(rt) {
        Ok(all) => {
            for word in all {
                words.push(word)?;
            }
        }
        Err(error) if error.kind() == ErrorKind::OutOfMemory => {
            return Err(CommandLineFault::NoMemory);
        }
        Err(_) => return Err(CommandLineFault::Wrong),
    }
    task_of(alloc, &words)
}

/// The exit status of a replay that ended so. It names a fault on standard error.
fn replay_status(rt: &HostRuntime, done: Result<(), ReplayFault>) -> ExitCode {
    match done {
        Ok(()) => ExitCode::SUCCESS,
        Err(fault) => {
            eprintln!(rt; "{fault}").ok();
            ExitCode::FAILURE
        }
    }
}

/// Replays the script on standard input, and writes the answers to standard output.
fn replay_script(rt: &HostRuntime) -> Result<(), ReplayFault> {
    let alloc = rt.alloc();
    let mut reader = BufReader::new(alloc, rt.reader()).map_err(|_| ReplayFault::Memory)?;
    let mut writer = BufWriter::new(alloc, io::writer(rt)).map_err(|_| ReplayFault::Memory)?;
    let done = replay(alloc, &mut reader, &mut writer);
    if writer.flush().is_err() {
        return Err(ReplayFault::Write);
    }
    done
}

/// Writes a line to standard output, and gives the exit status.
fn say(rt: &HostRuntime, line: &str) -> ExitCode {
    match println!(rt; "{line}") {
        Ok(()) => ExitCode::SUCCESS,
        Err(_) => ExitCode::FAILURE,
    }
}

/// Describes the program file of this path on standard output, and gives the exit status.
fn check_file(rt: &HostRuntime, path: &str) -> u8 {
    let Some(bytes) = file_bytes(rt, path) else {
        eprintln!(rt; "cannot read").ok();
        return FAULT;
    };
    check(rt.alloc(), &bytes, &mut io::writer(rt))
}

/// The bytes of a file, if it can be read and has at most [`MAX_FILE`] of them. It reads at most
/// one byte more than that.
fn file_bytes(rt: &HostRuntime, path: &str) -> Option<Vec<u8>> {
    let mut bytes = Vec::new(rt.alloc());
    let file = File::open(rt, path).ok()?;
    file.take(MAX_FILE as u64 + 1).read_to_end(&mut bytes).ok()?;
    if bytes.len() > MAX_FILE {
        return None;
    }
    Some(bytes)
}
