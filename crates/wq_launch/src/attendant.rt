//! The thread that attends a command: it writes its input, waits for its end, and tells the
//! operator of one that failed. It is made before the command is handed to it, so that no command
//! is lost if no thread can be made.
ghost use Rattle.std.specs.Prelude.{◌≡◌, IfSome};

use crate::failures::quoted;
use crate::notices::Notices;
use crate::run::StartedCommand;
use crate::run_table::EndedRun;
use crate::runs::Runs;
use std::alloc::{AllocError, Global};
use std::io::Write;
use std::mem;
use std::os::unix::process::ExitStatusExt;
use std::process::ExitStatus;
use std::sync::{Arc, Condvar, Mutex, Wait};
use std::thread::{self, Threads};

/// The place from which a thread takes its command.
#[derive(Drop)]
struct Post {
    run: Mutex<Option<StartedCommand>>,
    changed: Condvar,
}

impl Post {
    /// A place at which no command is.
    fn new() -> Post {
        Post {
            run: Mutex::new(None),
            changed: Condvar::new(),
        }
    }

    /// Hands a command over.
    fn put<R: Wait>(&self, rt: &R, run: StartedCommand) {
        *self.run.lock(rt) = Some(run);
        self.changed.notify_all();
    }

    /// Waits for the command, and takes it.
    fn take<R: Wait>(&self, rt: &R) -> Option<StartedCommand> {
        let lock = self.run.lock(rt);
        let mut run = self.changed.wait_while(rt, lock, |it| it.is_none());
        mem::replace(&mut *run, None)
    }
}

/// Has a thread of its own attend a command: it writes the input and waits for the end, which it
/// tells to the runs. If the command ended by a signal or with another status than 0, it tells the
/// operator.
///
/// If no thread can be made, it gives the command back. Only its thread waits for a command, and
/// ends with it.
pub fn attend<R, O>(
    rt: R,
    alloc: Global,
    runs: &Arc<Runs>,
    notices: &Arc<O>,
    run: StartedCommand,
) -> Option<StartedCommand>
where
    R: Threads + Wait + Copy + Drop + Send + Sync + 'static,
    O: Notices + Drop + Send + Sync + 'static,
    ensures { IfSome result (λ it. it ≡ run) }
{
    match begin(rt, alloc, runs, notices) {
        Some(post) => {
            post.put(&rt, run);
            None
        }
        None => Some(run),
    }
}

/// Makes a thread that attends the command which it is handed.
fn begin<R, O>(rt: R, alloc: Global, runs: &Arc<Runs>, notices: &Arc<O>) -> Option<Arc<Post>>
where
    R: Threads + Wait + Copy + Drop + Send + Sync + 'static,
    O: Notices + Drop + Send + Sync + 'static,
{
    let post = Arc::new(alloc, Post::new()).ok()?;
    let (theirs, runs) = (post.clone().ok()?, runs.clone().ok()?);
    let notices = notices.clone().ok()?;
    match thread::spawn(&rt, move || {
        see_through(&rt, alloc, &*theirs, &*runs, &*notices)
    }) {
        // Nobody joins it: it ends by itself, once its command has.
        Ok(_) => Some(post),
        Err(_) => None,
    }
}

/// Takes a command, and attends it until it has ended.
fn see_through<R: Wait, O: Notices>(rt: &R, alloc: Global, post: &Post, runs: &Runs, notices: &O) {
    if let Some(run) = post.take(rt) {
        attend_to(rt, alloc, runs, notices, run);
    }
}

/// Attends a command until it has ended. Its number is free then.
fn attend_to<R: Wait, O: Notices>(
    rt: &R,
    alloc: Global,
    runs: &Runs,
    notices: &O,
    run: StartedCommand,
) -> EndedRun
    ensures { result.number ≡ run.number }
{
    let number = run.number;
    let line = wait_for(rt, alloc, runs, run);
    let ended = runs.end(rt, number);
    if let Some(line) = line {
        notices.tell(&line);
    }
    ended
}

/// Writes the input of a command, as far as it takes it, and waits for its end. Gives a line if it
/// failed.
fn wait_for<R: Wait>(rt: &R, alloc: Global, runs: &Runs, run: StartedCommand) -> Option<String> {
    let StartedCommand {
        number: _,
        mut child,
        input,
        root,
        trigger,
    } = run;
    if let Some(mut pipe) = child.stdin.take() {
        // A command that reads no further has closed its input, or has ended.
        let _ = pipe.write_all(input.as_slice());
    }
    let bytes = input.len();
    drop(input);
    runs.end_input(rt, bytes);
    // A command that cannot be waited for has no end that could be told.
    let status = child.wait().ok()?;
    if status.success() {
        return None;
    }
    end_line(alloc, root.as_str(), trigger.as_str(), status).ok()
}

/// The line that tells how the command of a trigger ended.
fn end_line(
    alloc: Global,
    root: &str,
    trigger: &str,
    status: ExitStatus,
) -> Result<String, AllocError> {
    let (root, trigger) = (quoted(alloc, root)?, quoted(alloc, trigger)?);
    match status.code() {
        Some(code) => Ok(format!(in alloc; "{root}: trigger {trigger} ended with status {code}")?),
        None => {
            let signal = status.signal().unwrap_or(0);
            Ok(format!(in alloc; "{root}: trigger {trigger} ended by signal {signal}")?)
        }
    }
}
