//! The tree on disk, for a server that lists roots again and again. The walker keeps nothing of the listings.
ghost use Rattle.std.specs.Prelude.{◌≡◌, true, false, ◌≤◌, length, IfErr, IfOk, IsTrue, OnOk, Some};
ghost use Rattle.std.specs.List.{list_all};
ghost use Rattle.wq_patch.specs.Tree.{IsCounted, ListingFits, rows_listed};
ghost use Rattle.wq_patch.specs.declared.tree.TreeFault.TheVariants.{Unreadable};
ghost use Rattle.wq_disk.specs.FileSystem.{fails_here, has_here, says_here};
ghost use Rattle.wq_view.specs.Limit.{max_listing_rows};
ghost use Rattle.wq_record.specs.Seen.{is_lawful_row};
ghost use Rattle.wq_walk.specs.Glance.{IsGlancedAt};
ghost use Rattle.wq_walk.specs.Listed.{IsListed, IsRooted, IsUnread};
ghost use Rattle.wq_walk.specs.System.{IsGlancedHere, IsListedHere, IsUnreadHere};

use crate::glance::glanced;
use crate::listing::{first_rows, rows_again};
use crate::progress::Progress;
use crate::walkers::{SlowRoots, Walkers};
use std::alloc::Global;
use std::sync::Arc;
use std::sync::atomic::{AtomicU64, Ordering};
use std::thread::Threads;
use std::time::{Clock, CpuClock, Instant};
use wq_base::{Text, Workers};
use wq_disk::{Block, Disk, FileDisk, Way, with_slash};
use wq_patch::{LeftOut, Listing, Recent, Tree, TreeFault};
use wq_view::{Seen, View};

/// Walks the trees of a disk, and counts how often a root could not be read or no file handle was
/// left. Several threads walk a large tree if somebody waits for its listing, up to 32 if its disk
/// is slow. A listing for which nobody waited gives way as soon as somebody waits.
#[derive(Drop)]
pub struct Walker<T: Threads + Drop, C: Clock + CpuClock + Drop, D: Disk + Drop> {
    disk: D,
    threads: T,
    /// The clocks that each thread of a walk reads.
    clocks: C,
    alloc: Global,
    /// How many threads walk a tree if somebody waits for its listing, and its disk is not slow.
    walkers: Workers,
    /// The roots whose disks are slow. More threads walk them then.
    slow: SlowRoots,
    /// How many callers wait for a listing.
    waiting: Arc<AtomicU64>,
    /// The processor time of the threads that helped the caller with the last listing, in nanoseconds.
    helped: Arc<AtomicU64>,
    failures: u64,
    /// The number of files that the last listing left out.
    left_out: LeftOut,
    /// Whether the last listing was of a whole root. That of a glance is not.
    is_whole: bool,
    /// The root that was last listed for the first time, if it had a device of its own then: a file system is mounted there.
    mounted: Option<Text>,
}

impl<T: Threads + Drop, C: Clock + CpuClock + Drop, D: Disk + Drop> Walker<T, C, D> {
    /// A walker of the trees of a disk that has listed nothing and counted no failure. Up to so
    /// many threads walk a tree, and more if its disk is slow. If this count of callers that wait for a listing is 0, one thread
    /// walks a tree whose disk is not slow, and the listing of a tree that was listed before gives way as soon as it is not 0.
    /// The last word says how many nanoseconds of processor time other threads than the caller's took for the last
    /// listing. The call takes no memory.
    pub fn new(
        disk: D,
        alloc: Global,
        threads: T,
        clocks: C,
        walkers: Workers,
        waiting: Arc<AtomicU64>,
        helped: Arc<AtomicU64>,
    ) -> Walker<T, C, D>
        ensures failures { result.failures ≡ 0 }
        ensures disk { result.disk ≡ disk }
    {
        Walker {
            disk,
            threads,
            clocks,
            alloc,
            walkers,
            slow: SlowRoots::new(alloc),
            waiting,
            helped,
            failures: 0,
            left_out: LeftOut::nothing(),
            is_whole: true,
            mounted: None,
        }
    }

    /// How many threads walk this root now, and whether they give way.
    fn walkers_now(&self, root: &str) -> (Walkers, Way<'_>) {
        let (least, way) = if self.waiting.load(Ordering::SeqCst) > 0 {
            (self.walkers.count as usize, Way::Keeps)
        } else {
            (1, Way::Gives(&self.waiting))
        };
        (self.slow.walkers(root, least), way)
    }
}

/// How many listings failed because their root cannot be read or no file handle was left, after this one, if there
/// were so many before.
fn failures_after<X>(before: u64, listed: &Result<X, TreeFault>) -> u64
    ensures counted { IfErr listed.now (IsCounted before result) }
    ensures kept { OnOk listed.now (result ≡ before) }
{
    match listed {
        Err(TreeFault::Unreadable | TreeFault::NoHandle) => before.saturating_add(1),
        _ => before,
    }
}

impl<T: Threads + Drop, C: Clock + CpuClock + Drop, D: Disk + Drop> Walker<T, C, D> {
    /// Guesses before a first walk whether the disk of a root is slow, by reading the root's directory. Nothing is
    /// learnt from a fault, which the walk meets too.
    fn guess(&mut self, root: &str)
        ensures disk { self.new.disk ≡ self.old.disk }
        ensures failures { self.new.failures ≡ self.old.failures }
    {
        let path = with_slash(self.alloc, root);
        let (Ok(path), Ok(mut block)) = (path, Block::new(self.alloc, Way::Keeps)) else {
            return;
        };
        let Ok(began) = Instant::now(&self.clocks) else {
            return;
        };
        let Ok(Some(names)) = self.disk.names_in(&mut block, &path) else {
            return;
        };
        if let Ok(took) = began.elapsed(&self.clocks) {
            self.slow.guess(root, names.len(), took);
        }
    }
}

impl<T: Threads + Drop, C: Clock + CpuClock + Sync + Drop, D: Disk + Sync + Drop> Walker<T, C, D> {
    /// The rows of the files below a root. Their names rise if the tree does not change meanwhile. A pass takes each
    /// row.
    pub fn walk(&mut self, root: &str) -> Result<Vec<Seen>, TreeFault>
        ensures counted { IfErr result (IsCounted self.old.failures self.new.failures) }
        ensures disk { self.new.disk ≡ self.old.disk }
        ensures unread { IfErr result (IsUnread (D.says self.old.disk) (D.has self.old.disk)
            (D.fails self.old.disk) root.now) }
        ensures lawful { IfOk result (λ rows. IsTrue (list_all is_lawful_row rows.items)) }
        ensures few { IfOk result (λ rows. length rows.items ≤ max_listing_rows) }
        ensures walked { IfOk result (λ rows.
            IsListed (D.says self.old.disk) (D.has self.old.disk) root.now rows.items) }
        ensures rooted { IfOk result (λ _. IsRooted (D.says self.old.disk) root.now) }
        ensures whole { self.new.is_whole ≡ true }
    {
        self.guess(root);
        let (walkers, _) = self.walkers_now(root);
        let progress = Progress::new(Way::Keeps);
        let (threads, clocks) = (&self.threads, &self.clocks);
        let listed = first_rows(
            threads, clocks, walkers, &progress, &self.disk, self.alloc, root,
        );
        if listed.is_ok() {
            self.slow
                .learn(root, walkers, progress.files(), progress.spent());
        }
        self.left_out = progress.left_out();
        self.helped.store(progress.helped(), Ordering::SeqCst);
        self.is_whole = true;
        self.failures = failures_after(self.failures, &listed);
        listed
    }

    /// The listing of the files below a root with this last view, as above. Rows that are made share the names of its
    /// records.
    pub fn walk_again(&mut self, root: &str, last: &View) -> Result<Listing, TreeFault>
        ensures counted { IfErr result (IsCounted self.old.failures self.new.failures) }
        ensures disk { self.new.disk ≡ self.old.disk }
        ensures unread { IfErr result (IsUnread (D.says self.old.disk) (D.has self.old.disk)
            (D.fails self.old.disk) root.now) }
        ensures lawful { IfOk result (λ listing.
            IsTrue (list_all is_lawful_row (rows_listed last.now.records listing))) }
        ensures few { IfOk result (λ listing.
            length (rows_listed last.now.records listing) ≤ max_listing_rows) }
        ensures fit { IfOk result (ListingFits last.now.records) }
        ensures walked { IfOk result (λ listing.
            IsListed (D.says self.old.disk) (D.has self.old.disk) root.now
            (rows_listed last.now.records listing)) }
        ensures rooted { IfOk result (λ _. IsRooted (D.says self.old.disk) root.now) }
        ensures whole { self.new.is_whole ≡ true }
        ensures kept { OnOk result (self.new.failures ≡ self.old.failures) }
        ensures mounted { self.new.mounted ≡ self.old.mounted }
    {
        let (walkers, way) = self.walkers_now(root);
        let progress = Progress::new(way);
        let (threads, clocks) = (&self.threads, &self.clocks);
        let listed = rows_again(
            threads, clocks, walkers, &progress, &self.disk, self.alloc, root, last,
        );
        let left_out = progress.left_out();
        self.helped.store(progress.helped(), Ordering::SeqCst);
        let (files, spent) = (progress.files(), progress.spent());
        drop(progress);
        if listed.is_ok() {
            self.slow.learn(root, walkers, files, spent);
        }
        self.left_out = left_out;
        self.is_whole = true;
        self.failures = failures_after(self.failures, &listed);
        listed
    }
}

impl<T: Threads + Drop, C: Clock + CpuClock + Sync + Drop, D: Disk + Sync + Drop> Walker<T, C, D> {
    /// The listing of a glance at the files below a root with this last view: a walk that need not enter a
    /// directory which the view has and which is not recent, but keeps what the view has below it. It may look at the rows of all
    /// directories first, and enters those that are not as the view has them. What the last listing
    /// left out stays as it was.
    pub fn glance_at(
        &mut self,
        root: &str,
        last: &View,
        recent: &Recent<'_>,
    ) -> Result<Listing, TreeFault>
        ensures counted { IfErr result (IsCounted self.old.failures self.new.failures) }
        ensures disk { self.new.disk ≡ self.old.disk }
        ensures unread { IfErr result (IsUnread (D.says self.old.disk) (D.has self.old.disk)
            (D.fails self.old.disk) root.now) }
        ensures lawful { IfOk result (λ listing.
            IsTrue (list_all is_lawful_row (rows_listed last.now.records listing))) }
        ensures few { IfOk result (λ listing.
            length (rows_listed last.now.records listing) ≤ max_listing_rows) }
        ensures fit { IfOk result (ListingFits last.now.records) }
        ensures glance { IfOk result (λ listing.
            IsGlancedAt (D.says self.old.disk) (D.has self.old.disk) last.now.records recent.now
            root.now (rows_listed last.now.records listing)) }
        ensures rooted { IfOk result (λ _. IsRooted (D.says self.old.disk) root.now) }
        ensures part { self.new.is_whole ≡ false }
        ensures kept { OnOk result (self.new.failures ≡ self.old.failures) }
        ensures mounted { self.new.mounted ≡ self.old.mounted }
    {
        let walkers = self.slow.walkers(root, 1);
        let (listed, files, spent) = {
            let progress = Progress::new(Way::Gives(&self.waiting));
            let (threads, clocks) = (&self.threads, &self.clocks);
            let listed = glanced(
                threads, clocks, walkers, &progress, &self.disk, self.alloc, root, last, recent,
            );
            self.helped.store(progress.helped(), Ordering::SeqCst);
            (listed, progress.files(), progress.spent())
        };
        if listed.is_ok() {
            self.slow.learn(root, walkers, files, spent);
        }
        self.is_whole = false;
        self.failures = failures_after(self.failures, &listed);
        listed
    }
}

impl<T: Threads + Drop, C: Clock + CpuClock + Drop> Walker<T, C, FileDisk> {
    /// Keeps whether a file system is mounted at a root that was listed for the first time.
    fn keep_mount(&mut self, root: &str)
        ensures failures { self.new.failures ≡ self.old.failures }
        ensures whole { self.new.is_whole ≡ self.old.is_whole }
    {
        self.mounted = match self.disk.has_own_device(root) {
            Some(true) => Text::copied(self.alloc, root).ok(),
            _ => None,
        };
    }

    /// Whether the file system that was mounted at a root when it was listed for the first time is gone. What is there
    /// now is the directory below it, and says nothing of the files.
    fn has_gone(&self, root: &str) -> bool
        ensures { IsTrue result → self.now.mounted ≡ Some root.now }
    {
        match &self.mounted {
            Some(mounted) if mounted.as_str() == root => {
                self.disk.has_own_device(root) == Some(false)
            }
            _ => false,
        }
    }

    /// Counts that a root cannot be read because its file system is gone.
    fn lose(&mut self) -> TreeFault
        ensures fault { result ≡ Unreadable }
        ensures counted { IsCounted self.old.failures self.new.failures Unreadable }
        ensures whole { self.new.is_whole ≡ self.old.is_whole }
    {
        self.failures = self.failures.saturating_add(1);
        TreeFault::Unreadable
    }
}

/// During a listing the root is the working directory of the process, unless that is the root of another walker, and `/`
/// is it after that. So nothing else may use a relative path.
impl<T: Threads + Drop> Tree for Walker<T, HostRuntime, FileDisk> {
    ghost failed = { λ walker. walker.failures };

    ghost whole = { λ walker. walker.is_whole };

    /// The rows of the files below a root on this machine, as [`Walker::walk`] gives them.
    fn list(&mut self, root: &str) -> Result<Vec<Seen>, TreeFault>
        ensures counted { IfErr result (IsCounted self.old.failures self.new.failures) }
        ensures unread { IfErr result (IsUnread says_here has_here fails_here root.now) }
        ensures lawful { IfOk result (λ rows. IsTrue (list_all is_lawful_row rows.items)) }
        ensures few { IfOk result (λ rows. length rows.items ≤ max_listing_rows) }
        ensures walked { IfOk result (λ rows. IsListedHere root.now rows.items) }
        ensures whole { OnOk result (IsTrue self.new.is_whole) }
    {
        self.disk.enter(root);
        let listed = self.walk(root);
        self.disk.leave();
        self.keep_mount(root);
        listed
    }

    /// The listing of the files below a root on this machine, as [`Walker::walk_again`] gives them. The root is unreadable
    /// too if the file system that was mounted there is gone.
    fn list_again(&mut self, root: &str, last: &View) -> Result<Listing, TreeFault>
        ensures counted { IfErr result (IsCounted self.old.failures self.new.failures) }
        ensures unread { IfErr result (IsUnreadHere self.old.mounted root.now) }
        ensures lawful { IfOk result (λ listing.
            IsTrue (list_all is_lawful_row (rows_listed last.now.records listing))) }
        ensures few { IfOk result (λ listing.
            length (rows_listed last.now.records listing) ≤ max_listing_rows) }
        ensures fit { IfOk result (ListingFits last.now.records) }
        ensures walked { IfOk result (λ listing.
            IsListedHere root.now (rows_listed last.now.records listing)) }
        ensures whole { OnOk result (IsTrue self.new.is_whole) }
    {
        self.disk.enter(root);
        let listed = self.walk_again(root, last);
        self.disk.leave();
        let listing = match listed {
            Ok(listing) => listing,
            Err(fault) => return Err(fault),
        };
        if self.has_gone(root) {
            return Err(self.lose());
        }
        Ok(listing)
    }

    /// The listing of a glance at the files below a root on this machine, as [`Walker::glance_at`] gives it. The root is
    /// unreadable too if the file system that was mounted there is gone.
    fn glance(&mut self, root: &str, last: &View, recent: &Recent<'_>) -> Result<Listing, TreeFault>
        ensures counted { IfErr result (IsCounted self.old.failures self.new.failures) }
        ensures unread { IfErr result (IsUnreadHere self.old.mounted root.now) }
        ensures lawful { IfOk result (λ listing.
            IsTrue (list_all is_lawful_row (rows_listed last.now.records listing))) }
        ensures few { IfOk result (λ listing.
            length (rows_listed last.now.records listing) ≤ max_listing_rows) }
        ensures fit { IfOk result (ListingFits last.now.records) }
        ensures glance { IfOk result (λ listing. IsGlancedHere last.now.records recent.now root.now
            (rows_listed last.now.records listing)) }
        ensures part { self.new.is_whole ≡ false }
    {
        self.disk.enter(root);
        let listed = self.glance_at(root, last, recent);
        self.disk.leave();
        let listing = match listed {
            Ok(listing) => listing,
            Err(fault) => return Err(fault),
        };
        if self.has_gone(root) {
            return Err(self.lose());
        }
        Ok(listing)
    }

    fn failures(&self) -> u64 {
        self.failures
    }

    fn left_out(&self) -> LeftOut {
        self.left_out
    }
}
