//! The progress of the threads that walk one tree. Another module walks the pieces.
ghost use Rattle.std.specs.Prelude.{◌≡◌, IfErr};
ghost use Rattle.wq_patch.specs.declared.tree.TreeFault.TheVariants.{GaveWay, TooManyRows};

use crate::piece::MOST_PIECES;
use crate::spent::Spent;
use std::sync::atomic::{AtomicU64, AtomicUsize, Ordering};
use wq_disk::Way;
use wq_patch::{LeftOut, TreeFault};
use wq_view::MAX_LISTING_ROWS;

/// The progress of the threads that walk one tree.
#[derive(Drop)]
pub(crate) struct Progress<'a> {
    /// The place of the piece that is drawn next. If no piece is left, it is the number of all pieces, or more.
    next: AtomicUsize,
    /// The number of rows of all pieces, and of names that were read and not looked at yet. Names of different pieces are
    /// different, so these are files of the tree.
    counted: AtomicUsize,
    way: Way<'a>,
    /// The number of names that are not UTF-8.
    names: AtomicU64,
    /// The number of directories that could not be read.
    directories: AtomicU64,
    /// The number of directories whose own rows were asked for before a glance.
    swept: AtomicUsize,
    /// The processor time of the thread that asked, in nanoseconds.
    worked: AtomicU64,
    /// The processor time of the other threads, in nanoseconds.
    helped: AtomicU64,
    /// For how many nanoseconds all threads waited.
    waited: AtomicU64,
}

impl<'a> Progress<'a> {
    /// The progress before the first piece is drawn, of a walk that may give way.
    pub(crate) fn new(way: Way<'a>) -> Progress<'a> {
        Progress {
            next: AtomicUsize::new(0),
            counted: AtomicUsize::new(0),
            way,
            names: AtomicU64::new(0),
            directories: AtomicU64::new(0),
            swept: AtomicUsize::new(0),
            worked: AtomicU64::new(0),
            helped: AtomicU64::new(0),
            waited: AtomicU64::new(0),
        }
    }

    /// The processor time of the other threads than the one that asked, in nanoseconds.
    pub(crate) fn helped(&self) -> u64 {
        self.helped.load(Ordering::SeqCst)
    }

    /// What all threads spent on their parts so far.
    pub(crate) fn spent(&self) -> Spent {
        let worked = self.worked.load(Ordering::SeqCst);
        Spent {
            worked: worked.saturating_add(self.helped()),
            waited: self.waited.load(Ordering::SeqCst),
        }
    }

    /// The number of files that the threads looked at so far.
    pub(crate) fn files(&self) -> usize {
        let counted = self.counted.load(Ordering::SeqCst);
        counted.saturating_add(self.swept.load(Ordering::SeqCst))
    }

    /// Adds what the thread that asked spent on its part, if that is known.
    pub(crate) fn add_own(&self, spent: Option<Spent>) {
        if let Some(spent) = spent {
            self.worked.fetch_add(spent.worked, Ordering::SeqCst);
            self.waited.fetch_add(spent.waited, Ordering::SeqCst);
        }
    }

    /// Adds what another thread spent on its part, if that is known.
    pub(crate) fn add_help(&self, spent: Option<Spent>) {
        if let Some(spent) = spent {
            self.helped.fetch_add(spent.worked, Ordering::SeqCst);
            self.waited.fetch_add(spent.waited, Ordering::SeqCst);
        }
    }

    /// Counts a directory whose own row was asked for before a glance.
    pub(crate) fn sweep(&self) {
        self.swept.fetch_add(1, Ordering::SeqCst);
    }

    /// The number of files that the walk left out so far.
    pub(crate) fn left_out(&self) -> LeftOut {
        LeftOut {
            names: self.names.load(Ordering::SeqCst),
            directories: self.directories.load(Ordering::SeqCst),
        }
    }

    /// Counts a name that is not UTF-8.
    pub(crate) fn leave_out_name(&self) {
        self.names.fetch_add(1, Ordering::SeqCst);
    }

    /// Counts a directory that cannot be read.
    pub(crate) fn leave_out_directory(&self) {
        self.directories.fetch_add(1, Ordering::SeqCst);
    }

    /// Whether the walk goes on to its end.
    pub(crate) fn way(&self) -> Way<'a> {
        self.way
    }

    /// Fails if the walk gives way now.
    pub(crate) fn keep_on(&self) -> Result<(), TreeFault>
        ensures { IfErr result (λ fault. fault ≡ GaveWay) }
    {
        self.way.keep_on()
    }

    /// The place of the next piece. There may be no such piece.
    pub(crate) fn draw(&self) -> usize {
        self.next.fetch_add(1, Ordering::SeqCst)
    }

    /// Leaves no piece to be drawn, because the walk of one failed.
    pub(crate) fn stop(&self) {
        self.next.fetch_add(MOST_PIECES, Ordering::SeqCst);
    }

    /// Counts the names in a directory that was read, each of which gives a row when the walk looks at it.
    ///
    /// The call fails if the rows and the names that were read and not looked at are more than a pass takes. A name gives
    /// one row at most, so the call never fails for a tree that has no more rows, unless names go meanwhile.
    pub(crate) fn count(&self, names: usize) -> Result<(), TreeFault>
        ensures { IfErr result (λ fault. fault ≡ TooManyRows) }
    {
        let counted = self.counted.fetch_add(names, Ordering::SeqCst);
        if counted.saturating_add(names) > MAX_LISTING_ROWS {
            return Err(TreeFault::TooManyRows);
        }
        Ok(())
    }

    /// Counts a name no longer that was counted, since it gave no row.
    pub(crate) fn count_less(&self) {
        self.counted.fetch_sub(1, Ordering::SeqCst);
    }
}
