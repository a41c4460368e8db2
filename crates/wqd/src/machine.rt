//! The server that the command line asks for, with its parts on this machine.

use std::alloc::Global;
use std::io;
use std::marker::Brand;
use std::process::ExitCode;
use std::time::Duration;
use wq_command_line::Settings;
use wq_crawl::{LaneParts, Seconds};
use wq_daemon::{Parts, SEATS, serve_clients};
use wq_launch::{Notices, Spawn};
use wq_live::Blank;
use wq_patch::Tree;
use wq_server::{Listening, Pace, Runtime, listen, remove};

/// Lines on standard error.
#[derive(Drop)]
pub(crate) struct StandardError<R: Eprint + Drop> {
    pub(crate) rt: R,
}

impl<R: Eprint + Drop> Notices for StandardError<R> {
    fn tell(&self, line: &str) {
        let rt = &self.rt;
        // If standard error cannot be written, nobody hears of it.
        eprintln!(rt; "{line}").ok();
    }
}

/// The parts of this machine with which the server works.
#[derive(Drop)]
pub(crate) struct Machine<T: Tree + Drop, S: Seconds + Drop, O: Notices + Drop, P: Spawn + Drop> {
    pub(crate) first: LaneParts<T, S>,
    pub(crate) more: Vec<LaneParts<T, S>>,
    pub(crate) notices: O,
    pub(crate) spawn: P,
}

/// Serves clients until one of them asks that the server ends, and gives the exit status. Threads
/// wait through the second handle.
pub(crate) fn serve<R, T, S, O, P>(
    rt: &HostRuntime,
    threads: R,
    machine: Machine<T, S, O, P>,
    settings: Settings,
) -> ExitCode
where
    R: Runtime,
    T: Tree + Drop + Send + 'static,
    S: Seconds + Drop + Send + 'static,
    O: Notices + Drop + Send + Sync + 'static,
    P: Spawn + Drop + Send + 'static,
{
    let Ok(listening) = listen(rt, rt.alloc(), &settings.sockname) else {
        return cannot_listen(rt);
    };
    let served = serve_socket(threads, rt.alloc(), &listening, machine, settings);
    remove(rt, rt.alloc(), &listening);
    match served {
        Ok(()) => ExitCode::SUCCESS,
        Err(_) => cannot_listen(rt),
    }
}

/// The exit status of a server that cannot start. It says so on standard error.
pub(crate) fn cannot_listen(rt: &HostRuntime) -> ExitCode {
    eprintln!(rt; "cannot listen").ok();
    ExitCode::FAILURE
}

fn serve_socket<R, T, S, O, P>(
    rt: R,
    alloc: Global,
    listening: &Listening,
    machine: Machine<T, S, O, P>,
    settings: Settings,
) -> io::Result<()>
where
    R: Runtime,
    T: Tree + Drop + Send + 'static,
    S: Seconds + Drop + Send + 'static,
    O: Notices + Drop + Send + Sync + 'static,
    P: Spawn + Drop + Send + 'static,
{
    let parts = Parts {
        run: settings.run,
        first: machine.first,
        more: machine.more,
        notices: machine.notices,
        spawn: machine.spawn,
        sockname: settings.sockname,
        pace: Pace {
            interval: Duration::from_millis(settings.interval.milliseconds),
            share: settings.share,
            quiet: settings.quiet,
        },
        workers: settings.workers,
    };
    let blank = Blank::new(&rt, alloc, SEATS)?;
    serve_clients::<Brand, R, T, S, O, P>(rt, alloc, listening, blank, parts)
}
