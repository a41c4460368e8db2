//! The settings of the server that the words after `serve` give, and those after `sockname`.
ghost use Rattle.std.specs.Prelude.{◌≤◌, IfOk, IfSome};

use crate::fault::CommandLineFault;
use clap::{Arg, ArgMatches, Command};
use std::alloc::{AllocError, Global};
use std::time::Duration;
use wq_base::{MAX_NUMBER, MAX_WORKERS, Workers, unsigned_number};
use wq_clock::Run;
use wq_server::{QuietAfter, Share};

/// How many milliseconds lie between two rounds of crawls, if the command line does not say it.
const INTERVAL: u64 = 1_000;

/// The fewest milliseconds that may lie between two rounds of crawls.
const MIN_INTERVAL: u64 = 10;

/// The most milliseconds that may lie between two rounds of crawls: an hour.
const MAX_INTERVAL: u64 = 3_600_000;

/// After how many seconds without change and question a root is quiet, if the command line does not say it.
const QUIET_AFTER: u64 = 600;

/// The most seconds after which a root may be quiet: a day.
const MAX_QUIET_AFTER: u64 = 86_400;

/// The most percent of a processor to which rounds of crawls may be limited.
const MAX_PERCENT: u64 = 100;

/// How many threads may walk a tree for which a client waits, unless more may look for the files of a query.
const WALKERS: u32 = 2;

/// How long the server waits between two rounds of crawls.
#[derive(Clone, Copy)]
pub struct Interval {
    /// In milliseconds: 10 to 3,600,000.
    pub milliseconds: u64,
    ghost within: { (10 ≤ milliseconds) × (milliseconds ≤ 3600000) },
}

/// The settings of the server that the command line gives.
#[derive(Drop)]
pub struct Settings {
    /// The path of its socket.
    pub sockname: String,
    /// The run of the server, which clock ids name.
    pub run: Run,
    /// How long the server waits between two rounds of crawls.
    pub interval: Interval,
    /// How much of a processor rounds of crawls may take, if that is limited.
    pub share: Option<Share>,
    /// When a root is quiet.
    pub quiet: QuietAfter,
    /// How many threads may walk a tree if a client waits for it.
    pub walkers: Workers,
    /// How many threads may look for the files of a query.
    pub workers: Workers,
}

impl Settings {
    /// The words of a command of this name that takes settings of the server.
    pub(crate) fn command<'a>(alloc: Global, name: &'a str) -> Result<Command<'a>, AllocError> {
        let mut command = Command::new(alloc, name);
        for name in ["sockname", "start", "pid"] {
            command = command.arg(Arg::new(alloc, name).long(name).required(true))?;
        }
        for name in ["interval", "share", "quiet-after", "workers"] {
            command = command.arg(Arg::new(alloc, name).long(name))?;
        }
        Ok(command)
    }

    /// The settings that the words after the command give.
    pub(crate) fn of(alloc: Global, given: &ArgMatches<'_>) -> Result<Settings, CommandLineFault> {
        let Some(sockname) = given.get_str("sockname") else {
            return Err(CommandLineFault::Wrong);
        };
        let start = number_of(given, "start", None, MAX_NUMBER)?;
        let pid = number_of(given, "pid", None, MAX_NUMBER)?;
        let interval = interval_of(given)?;
        let workers = workers_of(given)?;
        let walkers = Workers {
            count: workers.count.max(WALKERS),
        };
        Ok(Settings {
            sockname: String::from_str(alloc, sockname)?,
            run: Run::new(start, pid),
            interval,
            share: share_of(given)?,
            quiet: quiet_of(given)?,
            walkers,
            workers,
        })
    }
}

/// How long the server waits between two rounds of crawls.
fn interval_of(given: &ArgMatches<'_>) -> Result<Interval, CommandLineFault> {
    let milliseconds = number_of(given, "interval", Some(INTERVAL), MAX_INTERVAL)?;
    if milliseconds < MIN_INTERVAL {
        return Err(CommandLineFault::Wrong);
    }
    Ok(Interval { milliseconds })
}

/// How many threads may look for the files of a query.
fn workers_of(given: &ArgMatches<'_>) -> Result<Workers, CommandLineFault> {
    let count = number_of(given, "workers", Some(1), u64::from(MAX_WORKERS))?;
    if count == 0 {
        return Err(CommandLineFault::Wrong);
    }
    Ok(Workers {
        count: count as u32,
    })
}

/// How much of a processor rounds of crawls may take, if the words say so.
fn share_of(given: &ArgMatches<'_>) -> Result<Option<Share>, CommandLineFault> {
    let Some(text) = given.get_str("share") else {
        return Ok(None);
    };
    match unsigned_number(text, MAX_PERCENT) {
        Some(percent) if percent > 0 => Ok(Some(Share {
            percent: percent as u32,
        })),
        _ => Err(CommandLineFault::Wrong),
    }
}

/// When a root is quiet. With 0 none ever is.
fn quiet_of(given: &ArgMatches<'_>) -> Result<QuietAfter, CommandLineFault> {
    let seconds = number_of(given, "quiet-after", Some(QUIET_AFTER), MAX_QUIET_AFTER)?;
    if seconds == 0 {
        return Ok(QuietAfter { time: None });
    }
    Ok(QuietAfter {
        time: Some(Duration::from_secs(seconds)),
    })
}

/// The number of at most `most` under a name, or the default if there is none.
fn number_of(
    given: &ArgMatches<'_>,
    name: &str,
    default: Option<u64>,
    most: u64,
) -> Result<u64, CommandLineFault>
    requires { IfSome default (λ number. number ≤ most) }
    ensures { IfOk result (λ number. number ≤ most) }
{
    let number = match given.get_str(name) {
        Some(text) => unsigned_number(text, most),
        None => default,
    };
    number.ok_or(CommandLineFault::Wrong)
}
