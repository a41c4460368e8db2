//! The lanes of the server on this machine.

use std::alloc::AllocError;
use std::sync::atomic::{AtomicBool, AtomicU64};
use std::sync::{Arc, Mutex, Wait};
use std::thread::Threads;
use std::time::Clock;
use wq_base::Workers;
use wq_crawl::{LaneParts, MachineClock, SharedSeconds};
use wq_daemon::MORE_LANES;
use wq_disk::FileDisk;
use wq_walk::Walker;

/// A lane over the disk of this machine. All lanes share its clock.
type DiskLane<R> = LaneParts<Walker<R, HostRuntime, FileDisk>, SharedSeconds<R, MachineClock<R>>>;

/// The lanes in which roots are crawled at the same time: the first, and the others. So many threads walk a tree.
pub(crate) fn lanes<R>(
    files: &HostRuntime,
    rt: R,
    walkers: Workers,
) -> Result<(DiskLane<R>, Vec<DiskLane<R>>), AllocError>
where
    R: Threads + Wait + Clock + Copy + Drop,
{
    let alloc = files.alloc();
    let clock = Arc::new(alloc, Mutex::new(MachineClock::new(rt)))?;
    let is_taken = Arc::new(alloc, AtomicBool::new(false))?;
    let first = lane(files, rt, walkers, &clock, &is_taken)?;
    let mut more = Vec::with_capacity(alloc, MORE_LANES)?;
    for _ in 0..MORE_LANES {
        more.push(lane(files, rt, walkers, &clock, &is_taken)?)
            .map_err(AllocError::from)?;
    }
    Ok((first, more))
}

/// A lane by this clock. The word says whether a lane has the working directory.
fn lane<R>(
    files: &HostRuntime,
    rt: R,
    walkers: Workers,
    clock: &Arc<Mutex<MachineClock<R>>>,
    is_taken: &Arc<AtomicBool>,
) -> Result<DiskLane<R>, AllocError>
where
    R: Threads + Wait + Clock + Copy + Drop,
{
    let alloc = files.alloc();
    let waiting = Arc::new(alloc, AtomicU64::new(0))?;
    let helped = Arc::new(alloc, AtomicU64::new(0))?;
    let disk = FileDisk::new(files, is_taken.clone()?);
    Ok(LaneParts {
        tree: Walker::new(
            disk,
            alloc,
            rt,
            *files,
            walkers,
            waiting.clone()?,
            helped.clone()?,
        ),
        seconds: SharedSeconds::new(rt, clock.clone()?),
        waiting,
        helped,
    })
}
