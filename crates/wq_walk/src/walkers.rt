//! How many threads walk a tree: as many as its disk can use. A disk that lets a walk wait, such as one over a network,
//! answers several threads at once. A busy machine lets a walk wait too, but several threads would share its processors.
ghost use Rattle.std.specs.Prelude.{◌≡◌, ◌*◌, ◌/◌, ◌≤◌, min};
ghost use Rattle.wq_walk.specs.Threads.{IsQuick, IsSlow};

use crate::spent::Spent;
use std::alloc::{AllocError, Global};
use std::time::Duration;

/// The greatest number of threads that walk a tree.
const MOST: usize = 32;

/// The number of threads for the first walk of a tree whose disk is slow.
const FIRST: usize = 16;

/// A disk is slow if threads wait longer than this many nanoseconds for each file.
const SLOW: u128 = 25_000;

/// It is quick if they wait no longer than this many.
const QUICK: u128 = 8_000;

/// A walk whose threads wait no longer than this many nanoseconds each needs no more of them. A busy machine makes a
/// thread wait so long now and then.
const LITTLE: u128 = 10_000_000;

/// A walk of fewer files says nothing of the disk.
const FEW: usize = 100;

/// The number of roots whose disks are remembered.
const MOST_ROOTS: usize = 32;

/// How many threads walk a tree.
#[derive(Clone, Copy)]
pub(crate) struct Walkers {
    pub(crate) count: usize,
    ghost some: { 1 ≤ count },
}

/// A root whose disk is slow.
#[derive(Drop)]
struct SlowRoot {
    path: String,
    /// How many threads the next walk takes.
    threads: usize,
}

/// The roots whose disks are slow, by the last walk of each.
#[derive(Drop)]
pub(crate) struct SlowRoots {
    alloc: Global,
    roots: Vec<SlowRoot>,
}

impl SlowRoots {
    /// No slow root. The call takes no memory.
    pub(crate) fn new(alloc: Global) -> SlowRoots {
        SlowRoots {
            alloc,
            roots: Vec::new(alloc),
        }
    }

    /// How many threads walk a root, if at least so many do.
    pub(crate) fn walkers(&self, root: &str, least: usize) -> Walkers {
        Walkers {
            count: self.threads(root).max(least).max(1),
        }
    }

    /// Learns from a walk by so many threads, which looked at so many files and spent this. If memory runs out for a new
    /// root, nothing is learnt.
    pub(crate) fn learn(&mut self, root: &str, walkers: Walkers, files: usize, spent: Spent) {
        if files < FEW {
            return;
        }
        let had = self.threads(root);
        let next = next_count(had, walkers.count.min(MOST), files, spent);
        if next != had {
            let _ = self.keep(root, next);
        }
    }

    /// Learns from the time in which the names of a root's directory, so many, were read before its first walk.
    pub(crate) fn guess(&mut self, root: &str, names: usize, took: Duration) {
        // A directory takes some answers, and its names take some time even if the disk is quick.
        let quick = SLOW
            .saturating_mul(4)
            .saturating_add((names as u128).saturating_mul(1_000));
        if took.as_nanos() > quick {
            let _ = self.keep(root, FIRST);
        }
    }

    /// How many threads the next walk of a root takes.
    fn threads(&self, root: &str) -> usize {
        match self.roots.iter().find(|it| it.path.as_str() == root) {
            Some(slow) => slow.threads,
            None => 1,
        }
    }

    /// Keeps how many threads the next walk of a root takes.
    fn keep(&mut self, root: &str, threads: usize) -> Result<(), AllocError> {
        self.roots.retain(|it| it.path.as_str() != root);
        if threads <= 1 {
            return Ok(());
        }
        if self.roots.len() >= MOST_ROOTS {
            self.roots.remove(0);
        }
        let path = String::from_str(self.alloc, root)?;
        self.roots.push(SlowRoot { path, threads })?;
        Ok(())
    }
}

/// How many threads the next walk of a tree has that had so many, after a walk by so many threads, which looked at so many
/// files and spent this. More threads than it had may walk a tree if somebody waits.
fn next_count(had: usize, threads: usize, files: usize, spent: Spent) -> usize
    requires few { threads ≤ 32 }
    ensures slow { IsSlow threads files spent.worked spent.waited → result ≡ min (threads * 2) 32 }
    ensures quick { IsQuick threads files spent.worked spent.waited → result ≡ had / 2 }
    ensures kept { (IsSlow threads files spent.worked spent.waited → ⊥)
        → (IsQuick threads files spent.worked spent.waited → ⊥) → result ≡ had }
{
    let (worked, waited) = (u128::from(spent.worked), u128::from(spent.waited));
    let files = files as u128;
    let busy = threads as u128 * worked;
    if waited <= files * QUICK || waited * 2 < busy {
        return had / 2;
    }
    if waited > files * SLOW && waited > threads as u128 * LITTLE && waited > busy {
        return (threads * 2).min(MOST);
    }
    had
}
