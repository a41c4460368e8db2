//! The directories of a view whose own rows are not as the disk says now: a file came, went or was renamed there. A glance
//! looks into them. No contract speaks of which directories these are, since nothing that is proved of a glance rests on
//! it.
ghost use Rattle.std.specs.Prelude.{◌≡◌, ◌≤◌, IfErr, IsTrue};
ghost use Rattle.std.specs.Thread.{IsSync};
ghost use Rattle.wq_view.specs.SeenRows.{seen_row};
ghost use Rattle.wq_disk.specs.Told.{IsFailure};
ghost use Rattle.wq_walk.specs.Walk.{row_with_stat};

use crate::glance::is_directory;
use crate::progress::Progress;
use crate::spent::{Beginning, spent_since};
use crate::walk::stat_at;
use crate::walkers::Walkers;
use std::alloc::{AllocError, Global};
use std::thread::{Threads, join};
use std::time::{Clock, CpuClock};
use wq_disk::{Disk, Stat, TreePath};
use wq_patch::TreeFault;
use wq_view::{MAX_NAME, Record, View};

/// The least number of records for which a thread looks.
const LEAST: usize = 256;

/// A view, beside which threads look for directories that are not as the disk says.
#[derive(Clone, Copy)]
struct Sweep<'a, 'p, D: Disk> {
    progress: &'p Progress<'p>,
    disk: &'p D,
    alloc: Global,
    /// The path of the root, which ends in a slash.
    root: &'p str,
    last: &'a View,
}

/// The names of the directories of a view whose kind, size or time is not as the disk says, and of those above them,
/// rising. Some come twice. Up to so many threads look. The root's path ends in a slash.
pub(crate) fn changed_directories<'a, T: Threads, C: Clock + CpuClock + Sync, D: Disk + Sync>(
    threads: &T,
    clocks: &C,
    walkers: Walkers,
    progress: &Progress<'_>,
    disk: &D,
    alloc: Global,
    root: &str,
    last: &'a View,
) -> Result<Vec<&'a [u8]>, TreeFault>
    ensures fault { IfErr result (IsFailure (D.fails disk.now)) }
{
    let sweep = Sweep {
        progress,
        disk,
        alloc,
        root,
        last,
    };
    let count = walkers.count.min(last.len() / LEAST + 1);
    let mut names = sweep.changed_by(threads, clocks, 0, last.len(), count)?;
    names.sort_unstable();
    Ok(names)
}

impl<'a, D: Disk + Sync> Sweep<'a, '_, D> {
    /// The names of the directories among the records from one place to another that are not as the disk says, and of
    /// those above them. So many threads look, this one among them.
    #[cycle(threads)]
    fn changed_by<T: Threads, C: Clock + CpuClock + Sync>(
        &self,
        threads: &T,
        clocks: &C,
        from: usize,
        to: usize,
        count: usize,
    ) -> Result<Vec<&'a [u8]>, TreeFault>
        ensures { IfErr result (IsFailure (D.fails self.now.disk.now)) }
    {
        if count <= 1 {
            return self.changed_here(clocks, from, to);
        }
        let left = count - 1;
        let cut = from.saturating_add(to.saturating_sub(from) / count);
        let other = || -> Result<Vec<&[u8]>, TreeFault>
            ensures { IfErr result (IsFailure (D.fails self.entry.now.disk.now)) }
        { self.changed_beside(clocks, from, cut) };
        let this = || -> Result<Vec<&[u8]>, TreeFault>
            requires { IsSync D.row × IsSync C.row × 1 ≤ left }
            ensures { IfErr result (IsFailure (D.fails self.entry.now.disk.now)) }
        { self.changed_by(threads, clocks, cut, to, left) };
        let (others, mine) = join(threads, other, this);
        let mut all = others?;
        let mut rest = mine?;
        all.append(&mut rest)?;
        Ok(all)
    }
}

impl<'a, D: Disk> Sweep<'a, '_, D> {
    /// Looks as the thread that asked, and counts what it spends on that.
    fn changed_here<C: Clock + CpuClock>(
        &self,
        clocks: &C,
        from: usize,
        to: usize,
    ) -> Result<Vec<&'a [u8]>, TreeFault>
        ensures { IfErr result (IsFailure (D.fails self.now.disk.now)) }
    {
        let began = Beginning::now(clocks);
        let changed = self.changed(from, to);
        self.progress.add_own(spent_since(began, clocks));
        changed
    }

    /// Looks as another thread, and counts what it spends on that.
    fn changed_beside<C: Clock + CpuClock>(
        &self,
        clocks: &C,
        from: usize,
        to: usize,
    ) -> Result<Vec<&'a [u8]>, TreeFault>
        ensures { IfErr result (IsFailure (D.fails self.now.disk.now)) }
    {
        let began = Beginning::now(clocks);
        let changed = self.changed(from, to);
        self.progress.add_help(spent_since(began, clocks));
        changed
    }

    /// The names of the directories among the records from one place to another that are not as the disk says, and of
    /// those above them.
    fn changed(&self, from: usize, to: usize) -> Result<Vec<&'a [u8]>, TreeFault>
        ensures { IfErr result (IsFailure (D.fails self.now.disk.now)) }
    {
        let mut names = Vec::new(self.alloc);
        let mut path = TreePath::new(self.alloc, self.root.len());
        let mut left = to.saturating_sub(from);
        for known in self.last.records_from(from) {
            if left == 0 {
                break;
            }
            left -= 1;
            if !is_directory(known) {
                continue;
            }
            self.progress.keep_on()?;
            self.progress.sweep();
            path.set(self.root.as_bytes(), known.name.as_bytes())?;
            let stat = stat_at(self.disk, &path)?;
            if !stat.is_some_and(|stat| is_as(known, &stat)) {
                add_with_those_above(&mut names, known.name.as_bytes())?;
            }
        }
        Ok(names)
    }
}

/// Whether a file with this stat is as its record says.
pub(crate) fn is_as(known: &Record, stat: &Stat) -> bool
    ensures { IsTrue result → seen_row known.now ≡ row_with_stat known.now.name stat.now }
{
    stat.kind == known.kind && stat.size == known.size && stat.mtime_ms == known.mtime_ms
}

/// Adds a directory and those above it, without the root.
fn add_with_those_above<'a>(names: &mut Vec<&'a [u8]>, name: &'a [u8]) -> Result<(), AllocError> {
    let mut next = Some(name);
    for _ in 0..MAX_NAME {
        let Some(name) = next else {
            break;
        };
        names.push(name)?;
        next = name.rsplitn(2, |byte| *byte == b'/').nth(1);
    }
    Ok(())
}
